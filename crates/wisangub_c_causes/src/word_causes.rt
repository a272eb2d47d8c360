//! A word that is at fault, in numbers.

ghost use Rattle.std.specs.Prelude.{◌≡◌};
ghost use Rattle.wisangub_c_causes.specs.WordCauses.{word_kind, wanted_in, wanted_number, wanted_bounds, of_word};

use crate::cause::{Bounds, CauseNumbers};
use dms_text_forms::{Wanted, WordFault, WordFaultKind};

/// What is wrong with a word: 1 it is missing, 2 it is empty, 3 it is another one, 4 it is one too many.
fn word_kind(kind: WordFaultKind) -> u8
    ensures { result ≡ word_kind kind }
{
    match kind {
        WordFaultKind::Missing(_) => 1,
        WordFaultKind::Empty => 2,
        WordFaultKind::Not(_) => 3,
        WordFaultKind::More => 4,
    }
}

/// What is wanted in its place.
fn wanted_in(kind: WordFaultKind) -> Option<Wanted>
    ensures { result ≡ wanted_in kind }
{
    match kind {
        WordFaultKind::Missing(wanted) | WordFaultKind::Not(wanted) => Some(wanted),
        WordFaultKind::Empty | WordFaultKind::More => None,
    }
}

/// What a word is to be: 1 this word, 2 one of two words, 3 any word, 4 a number, 5 octets in hexadecimal, 6 a version,
/// 7 an address, 8 a code.
fn wanted_number(wanted: Option<Wanted>) -> u8
    ensures { result ≡ wanted_number wanted }
{
    match wanted {
        None => 0,
        Some(Wanted::Keyword(_)) => 1,
        Some(Wanted::Either(..)) => 2,
        Some(Wanted::Name(_)) => 3,
        Some(Wanted::Number(..) | Wanted::FourOctets) => 4,
        Some(Wanted::Octets(_)) => 5,
        Some(Wanted::Version) => 6,
        Some(Wanted::Address) => 7,
        Some(Wanted::Code) => 8,
    }
}

/// From which number to which it is to be.
fn wanted_bounds(wanted: Option<Wanted>) -> Bounds
    ensures { result ≡ wanted_bounds wanted }
{
    match wanted {
        Some(Wanted::Number(low, high)) => Bounds {
            least: u32::from(low),
            most: u32::from(high),
        },
        Some(Wanted::FourOctets) => Bounds {
            least: 0,
            most: 4_294_967_295,
        },
        _ => Bounds { least: 0, most: 0 },
    }
}

/// A word of this line is at fault.
pub(crate) fn of_word(line: usize, fault: WordFault) -> CauseNumbers
    ensures { result ≡ of_word line fault }
{
    let wanted = wanted_in(fault.kind);
    let bounds = wanted_bounds(wanted);
    CauseNumbers {
        line,
        word: fault.place,
        row: 0,
        place: 0,
        least: bounds.least,
        most: bounds.most,
        kind: word_kind(fault.kind),
        wanted: wanted_number(wanted),
        number: 0,
        code: 0,
    }
}
