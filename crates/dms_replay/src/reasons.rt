//! Why a script is refused: the cause that its line is at fault.

ghost use Rattle.std.specs.Prelude.{◌≡◌, ◌≤◌, IfOk, IfSome, IfNone, length, option_map};
ghost use Rattle.dms_text.specs.Lines.{lines_left};
ghost use Rattle.dms_text_streams.specs.DescriptionText.{longest_input};
ghost use Rattle.dms_replay.specs.RefusedScript.{IsRefusedIn};
ghost use Rattle.dms_replay.specs.Replayed.{NoScript};
ghost use Rattle.dms_replay.specs.EventForm.{event_cause};
ghost use Rattle.dms_replay.specs.Reasons.{line_numbered, line_found, event_cause_at, IsCauseOf};
ghost use Rattle.dms_replay.specs.declared.reasons.ScriptCause.TheVariants as causes;

use crate::event_cause::EventCause;
use crate::event_line::read_event;
use crate::script::{check_script, named_sign};
use dms_codes::Order;
use dms_sign_text::{ReplayFault, first_cause};
use dms_sign_text_causes::LineCause;
use dms_text::Lines;
use std::alloc::{AllocError, Global};
use std::fmt;

/// Why a line of a script is refused.
#[derive(Clone, Copy, Debug, PartialEq, Eq)]
pub enum ScriptCause {
    /// It is a line of the sign's description.
    Sign(LineCause),
    /// It is no event.
    Event(EventCause),
}

impl fmt::Display for ScriptCause {
    ghost use Rattle.std.specs.Prelude.{Some};
    ghost use Rattle.dms_replay.specs.Reasons.{script_cause_text};

    ghost output = { λ cause. Some (script_cause_text cause) };

    fn fmt<W: fmt::Write>(&self, f: &mut fmt::Formatter<W>) -> fmt::Result {
        match self {
            ScriptCause::Sign(cause) => write!(f, "{cause}"),
            ScriptCause::Event(cause) => write!(f, "{cause}"),
        }
    }
}

/// Why the line of this number is the one for which the script is refused. There is a cause of each such line; none is
/// said of any other line, and none where the text spells a script. It must have at most `LONGEST_INPUT` octets.
pub fn cause_of_line(
    alloc: Global,
    octets: &[u8],
    number: usize,
) -> Result<Option<ScriptCause>, AllocError>
    requires { length octets.now ≤ longest_input }
    ensures cause { IfOk result (λ found. IfSome found (IsCauseOf octets.now number)) }
    ensures refused { IfOk result (λ found. IfSome found (λ cause. NoScript octets.now)) }
    ensures number { IfOk result (λ found. IfSome found (λ cause. IsRefusedIn octets.now number)) }
    ensures told { IfOk result (λ found. IfNone found (IsRefusedIn octets.now number → ⊥)) }
{
    let Err(fault) = check_script(alloc, octets) else {
        return Ok(None);
    };
    match fault {
        ReplayFault::Line(line) if line == number => cause_at(alloc, octets, number),
        ReplayFault::Memory => Err(AllocError),
        _ => Ok(None),
    }
}

/// The cause of a line of a script that is refused for it.
fn cause_at(alloc: Global, octets: &[u8], number: usize) -> Result<Option<ScriptCause>, AllocError>
    ensures cause { IfOk result (λ found. IfSome found (IsCauseOf octets.now number)) }
    ensures told { IfOk result (λ found. IfNone found (IsRefusedIn octets.now number → ⊥)) }
{
    let Err(fault) = named_sign(alloc, octets) else {
        let found = cause_of_event(alloc, octets, number)?;
        return Ok(found);
    };
    match fault {
        ReplayFault::Memory => Err(AllocError),
        _ => match first_cause(alloc, octets)? {
            Some(cause) => Ok(Some(ScriptCause::Sign(cause))),
            None => Ok(None),
        },
    }
}

/// The cause of the line of this number, which is no event.
fn cause_of_event(
    alloc: Global,
    octets: &[u8],
    number: usize,
) -> Result<Option<ScriptCause>, AllocError>
    ensures { IfOk result (λ found. found ≡ option_map causes.Event (event_cause_at octets.now number)) }
{
    let found = event_cause_at(alloc, octets, number)?;
    Ok(found.map(ScriptCause::Event))
}

/// Why the line of this number is no event.
fn event_cause_at(
    alloc: Global,
    octets: &[u8],
    number: usize,
) -> Result<Option<EventCause>, AllocError>
    ensures { IfOk result (λ found. found ≡ event_cause_at octets.now number) }
{
    match line_numbered(Lines::of(octets), number) {
        Some(line) => event_cause(alloc, line),
        None => Ok(None),
    }
}

/// The line of this number.
fn line_numbered(lines: Lines<'_>, number: usize) -> Option<&[u8]>
    ensures { option_map line_found result ≡ line_numbered number (lines_left lines.entry) }
{
    let mut lines = lines;
    while let Some(line) = lines.next_line() {
        if line.number == number {
            return Some(line.octets);
        }
    }
    None
}

/// Why a line is no event, whatever the order of its code.
fn event_cause(alloc: Global, line: &[u8]) -> Result<Option<EventCause>, AllocError>
    ensures { IfOk result (λ found. found ≡ event_cause line.now) }
{
    match read_event(alloc, Order::High, line)? {
        Ok(_) => Ok(None),
        Err(cause) => Ok(Some(cause)),
    }
}
