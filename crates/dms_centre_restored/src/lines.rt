//! Lines of a state's text: each reader takes them from the text's front, and hands back the text after them.

ghost use Rattle.std.specs.Prelude.{◌≡◌, ◌≤◌, [], IfOk, IfErr, option_map};
ghost use Rattle.std.specs.Result.{result_ok};
ghost use Rattle.dms_centre_restored.specs.declared.refusal.CentreStateField.TheVariants.{End};
ghost use Rattle.dms_centre_restored.specs.Lacks.{here, wanting, Reads};
ghost use Rattle.dms_centre_restored.specs.LineReading.{field_at, number_line_at, end_at, why_alone};
ghost use Rattle.dms_centre_restored.specs.LineReading.{why_numbered, why_of_row, why_caused, why_in, step_digit};
ghost use Rattle.dms_centre_restored.specs.LineReading.{failed_at, failed_in, ended_in, phase_at, phase_wanted};
ghost use Rattle.dms_centre_restored.specs.LineReading.{can_wait};
ghost use Rattle.dms_centre_restored.specs.JobReading.{first_lines_at};

use crate::refusal::{CentreLineLack, CentreStateField};
use dms_centre::{Ended, Why};
use dms_text::are_same;
use dms_text_exact::{behind, cut, integer, number};

/// What stands behind the name of a line.
#[derive(Drop)]
pub(crate) struct NamedLine<'a> {
    pub value: &'a [u8],
    pub rest: &'a [u8],
    /// What is told where the value is not as it must be.
    pub lack: CentreLineLack,
}

/// That this is wanted where a text begins.
pub(crate) fn here(wanted: CentreStateField, text: &[u8]) -> CentreLineLack
    ensures { result ≡ here wanted text.now }
{
    CentreLineLack {
        wanted,
        left: text.len(),
    }
}

/// A line of a name, which ends with a space.
#[tactic(auto, unfolding(crate::specs::LineReading::field_at))]
pub(crate) fn field<'a>(
    name: &[u8],
    wanted: CentreStateField,
    text: &'a [u8],
) -> Result<NamedLine<'a>, CentreLineLack>
    ensures value { option_map (λ line. (line.value.now, line.rest.now)) (result_ok result)
        ≡ field_at name.now text.now }
    ensures lack { IfOk result (λ line. line.lack ≡ here wanted text.now) }
    ensures lacks { IfErr result (λ lack. lack ≡ here wanted text.now) }
{
    let lack = here(wanted, text);
    let Some(text) = behind(name, text) else {
        return Err(lack);
    };
    match cut(b'\n', text) {
        Some((value, rest)) => Ok(NamedLine { value, rest, lack }),
        None => Err(lack),
    }
}

/// A line whose value is a number from low to high.
#[tactic(auto, unfolding(crate::specs::LineReading::number_line_at))]
pub(crate) fn number_line<'a>(
    name: &[u8],
    wanted: CentreStateField,
    low: u32,
    high: u32,
    text: &'a [u8],
) -> Result<(u32, &'a [u8]), CentreLineLack>
    ensures read { Reads (λ x. (x.0, x.1.now)) result
        (wanting wanted text.now (number_line_at name.now low high text.now)) }
    ensures least { IfOk result (λ x. low ≤ x.0) }
    ensures most { IfOk result (λ x. x.0 ≤ high) }
{
    let field = field(name, wanted, text)?;
    match number(low, high, field.value) {
        Some(number) => Ok((number, field.rest)),
        None => Err(field.lack),
    }
}

/// The first two lines: the form, and the number that the next request takes.
#[tactic(auto, unfolding(crate::specs::JobReading::first_lines_at))]
pub(crate) fn first_lines(text: &[u8]) -> Result<(u32, &[u8]), CentreLineLack>
    ensures { Reads (λ x. (x.0, x.1.now)) result (first_lines_at text.now) }
{
    match behind(b"state 1 centre\n", text) {
        Some(rest) => number_line(b"next ", CentreStateField::Next, 0, u32::MAX, rest),
        None => Err(here(CentreStateField::Form, text)),
    }
}

/// How the last job ended.
#[tactic(auto, unfolding(crate::specs::LineReading::ended_in))]
pub(crate) fn ended(value: &[u8]) -> Option<Ended>
    ensures { result ≡ ended_in value.now }
{
    if are_same(value, b"none") {
        Some(Ended::Never)
    } else if are_same(value, b"accepted") {
        Some(Ended::Accepted)
    } else {
        failed(behind(b"failed at step ", value)?)
    }
}

fn failed(value: &[u8]) -> Option<Ended>
    ensures { result ≡ failed_in value.now }
{
    match value {
        [] => None,
        [digit, rest @ ..] => failed_at(*digit, rest),
    }
}

/// The end of a job that failed at the step of a digit.
#[tactic(auto, unfolding(crate::specs::LineReading::failed_at))]
fn failed_at(digit: u8, rest: &[u8]) -> Option<Ended>
    ensures { result ≡ failed_at digit rest.now }
{
    let reason = behind(b": ", rest)?;
    let step = step_digit(digit)?;
    let why = why_in(reason)?;
    Some(Ended::Failed(step, why))
}

/// The number of a step that a digit is.
fn step_digit(digit: u8) -> Option<u8>
    ensures { result ≡ step_digit digit }
{
    if b'1' <= digit && digit <= b'8' {
        Some(digit - b'0')
    } else {
        None
    }
}

/// Why a job failed.
fn why_in(reason: &[u8]) -> Option<Why>
    ensures { result ≡ why_in reason.now }
{
    match why_alone(reason) {
        Some(why) => Some(why),
        None => why_numbered(reason),
    }
}

#[tactic(auto, unfolding(crate::specs::LineReading::why_alone))]
fn why_alone(reason: &[u8]) -> Option<Why>
    ensures { result ≡ why_alone reason.now }
{
    if are_same(reason, b"the row is still being validated") {
        Some(Why::StillValidating)
    } else if are_same(reason, b"the row has another checksum") {
        Some(Why::OtherChecksum)
    } else if are_same(reason, b"no reply") {
        Some(Why::NoReply)
    } else if are_same(reason, b"no request number is left") {
        Some(Why::NumbersUsedUp)
    } else if are_same(reason, b"the reply does not answer what was asked") {
        Some(Why::OddReply)
    } else if are_same(reason, b"the central system was restarted") {
        Some(Why::Restarted)
    } else {
        None
    }
}

#[tactic(auto, unfolding(crate::specs::LineReading::why_numbered))]
fn why_numbered(reason: &[u8]) -> Option<Why>
    ensures { result ≡ why_numbered reason.now }
{
    match behind(b"error-status ", reason) {
        Some(word) => Some(Why::Status(integer(word)?)),
        None => why_of_row(reason),
    }
}

#[tactic(auto, unfolding(crate::specs::LineReading::why_of_row))]
fn why_of_row(reason: &[u8]) -> Option<Why>
    ensures { result ≡ why_of_row reason.now }
{
    match behind(b"the row has status ", reason) {
        Some(word) => Some(Why::WrongStatus(integer(word)?)),
        None => why_caused(reason),
    }
}

#[tactic(auto, unfolding(crate::specs::LineReading::why_caused))]
fn why_caused(reason: &[u8]) -> Option<Why>
    ensures { result ≡ why_caused reason.now }
{
    let word = behind(b"the sign refused the activation for cause ", reason)?;
    Some(Why::Cause(integer(word)?))
}

/// Whether a job is on.
#[derive(Clone, Copy, Debug, PartialEq, Eq)]
pub(crate) enum PhaseLine {
    Idle,
    Awaits,
    Due,
}

/// Whether the number before the next one is that of a request.
fn can_wait(next: u32) -> bool
    ensures { result ≡ can_wait next }
{
    1 <= next && next <= 2_147_483_648
}

fn phase_wanted(next: u32) -> CentreStateField
    ensures { result ≡ phase_wanted next }
{
    if can_wait(next) {
        CentreStateField::Phase
    } else {
        CentreStateField::PhaseWithoutRequest
    }
}

/// Whether a job is on. A request waits only where the number before the next one is that of a request.
#[tactic(auto, unfolding(crate::specs::LineReading::phase_at))]
pub(crate) fn phase_line(next: u32, text: &[u8]) -> Result<(PhaseLine, &[u8]), CentreLineLack>
    ensures { Reads (λ x. (x.0, x.1.now)) result (wanting (phase_wanted next) text.now (phase_at next text.now)) }
{
    if let Some(rest) = behind(b"idle\n", text) {
        return Ok((PhaseLine::Idle, rest));
    }
    if let Some(rest) = behind(b"due\n", text) {
        return Ok((PhaseLine::Due, rest));
    }
    let can_wait = can_wait(next);
    match behind(b"awaits\n", text) {
        Some(rest) if can_wait => Ok((PhaseLine::Awaits, rest)),
        _ => Err(here(phase_wanted(next), text)),
    }
}

/// The last line, and nothing after it.
pub(crate) fn last_line(text: &[u8]) -> Result<(), CentreLineLack>
    ensures { Reads (λ _. []) result (wanting End text.now (end_at text.now)) }
{
    if are_same(text, b"end\n") {
        Ok(())
    } else {
        Err(here(CentreStateField::End, text))
    }
}
