//! What a person does not see in a line that is refused.

ghost use Rattle.std.specs.Prelude.{◌≡◌};
ghost use Rattle.std.specs.Str.Lines.{lines};
ghost use Rattle.dms_text.specs.Lines.{lines_left};
ghost use Rattle.signtool_acts.specs.Unseen.{unseen_in, unseen_at, unseen_of};

use dms_sign_text::ReplayFault;
use dms_text::{Lines, index_of};
use std::fmt;

/// What a person does not see in a line.
#[derive(Clone, Copy, Debug, PartialEq, Eq)]
pub enum Unseen {
    /// It begins with a byte order mark.
    Mark,
    /// A tab stands in it; the place of the first among its octets, from 1.
    Tab(usize),
}

impl fmt::Display for Unseen {
    ghost use Rattle.std.specs.Prelude.{Some};
    ghost use Rattle.signtool_acts.specs.Unseen.{unseen_text};

    ghost output = { λ unseen. Some (unseen_text unseen) };

    fn fmt<W: fmt::Write>(&self, f: &mut fmt::Formatter<W>) -> fmt::Result {
        match self {
            Unseen::Mark => f.write_str("it begins with a byte order mark, the octets EF BB BF"),
            Unseen::Tab(place) => {
                write!(
                    f,
                    "its octet {place} is a tab, and words have a space between them"
                )
            }
        }
    }
}

/// What a person does not see in the line that the fault names, of a text.
pub(crate) fn unseen_in(fault: ReplayFault, text: &[u8]) -> Option<Unseen>
    ensures { result ≡ unseen_in fault (lines text.now) }
{
    match fault {
        ReplayFault::Line(number) => unseen_at(number, Lines::of(text)),
        _ => None,
    }
}

fn unseen_at(number: usize, lines: Lines<'_>) -> Option<Unseen>
    ensures { result ≡ unseen_at number (lines_left lines.entry) }
{
    let mut rest = lines;
    while let Some(line) = rest.next_line() {
        if line.number == number {
            return unseen_of(line.octets);
        }
    }
    None
}

fn unseen_of(line: &[u8]) -> Option<Unseen>
    ensures { result ≡ unseen_of line.now }
{
    match line {
        [0xEF, 0xBB, 0xBF, ..] => Some(Unseen::Mark),
        _ => {
            let place = index_of(line, b'\t')?;
            Some(Unseen::Tab(place + 1))
        }
    }
}
