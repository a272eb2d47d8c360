//! The state of a central system, written as text.

ghost use Rattle.std.specs.Prelude.{◌≡◌, ◌++◌, IfOk, codes, length};
ghost use Rattle.std.specs.Fmt.{signed_decimal};
ghost use Rattle.dms_text_filling.specs.Filling.{Puts, counted, laid};
ghost use Rattle.dms_centre.specs.declared.ended.Ended.TheVariants as endings;
ghost use Rattle.dms_centre.specs.Texts.{why_text};
ghost use Rattle.dms_centre_state.specs.CentreText.{last_line, text_of_state};

use crate::job_lines::put_phase;
use crate::ledger_lines::put_ledger;
use dms_centre::{Centre, Ended, Why};
use dms_text_filling::{put_decimal, put_number, put_text};
use std::alloc::{AllocError, Global};

/// The text of a central system's state, from `state 1 centre` to `end`.
pub fn saved(alloc: Global, centre: &Centre) -> Result<Vec<u8>, AllocError>
    ensures { IfOk result (λ text. text.items ≡ text_of_state centre.now.state) }
{
    let mut none: [u8; 0] = [];
    let size = put_saved(&mut none, centre);
    if size == usize::MAX {
        return Err(AllocError);
    }
    let mut text = vec![in alloc; 0; size]?;
    put_saved(text.as_mut_slice(), centre);
    Ok(text)
}

/// Puts the text of a central system's state into a buffer, as far as it reaches: how many octets the text has, or the
/// greatest number of a `usize` where it has more. No memory is taken.
pub fn put_saved(buffer: &mut [u8], centre: &Centre) -> usize
    ensures size { result ≡ counted (length (text_of_state centre.now.state)) }
    ensures text { buffer.new ≡ laid 0 (text_of_state centre.now.state) buffer.old }
{
    put_state(buffer, 0, centre)
}

fn put_state(buffer: &mut [u8], place: usize, centre: &Centre) -> usize
    ensures { Puts (text_of_state centre.now.state) place buffer.old result buffer.new }
{
    let place = put_text(buffer, place, "state 1 centre\n");
    let place = put_number(buffer, place, "next", centre.next_number());
    let place = put_last(buffer, place, centre.last());
    let place = put_phase(buffer, place, centre.order(), centre.phase());
    let place = put_ledger(buffer, place, centre);
    put_text(buffer, place, "end\n")
}

/// Puts how the last job ended.
fn put_last(buffer: &mut [u8], place: usize, last: Ended) -> usize
    ensures { Puts (last_line last) place buffer.old result buffer.new }
{
    match last {
        Ended::Never => put_text(buffer, place, "last none\n"),
        Ended::Accepted => put_text(buffer, place, "last accepted\n"),
        Ended::Failed(step, why) => put_failure(buffer, place, step, why),
    }
}

fn put_failure(buffer: &mut [u8], place: usize, step: u8, why: Why) -> usize
    ensures { Puts (last_line (endings.Failed step why)) place buffer.old result buffer.new }
{
    let place = put_text(buffer, place, "last failed at step ");
    let place = put_decimal(buffer, place, step);
    let place = put_text(buffer, place, ": ");
    put_why(buffer, place, why)
}

/// Puts why a job failed, and the end of its line.
fn put_why(buffer: &mut [u8], place: usize, why: Why) -> usize
    ensures { Puts (why_text why ++ codes "\n") place buffer.old result buffer.new }
{
    let place = put_reason(buffer, place, why);
    put_text(buffer, place, "\n")
}

fn put_reason(buffer: &mut [u8], place: usize, why: Why) -> usize
    ensures { Puts (why_text why) place buffer.old result buffer.new }
{
    match why {
        Why::Status(status) => put_signed(buffer, place, "error-status ", status),
        Why::WrongStatus(status) => put_signed(buffer, place, "the row has status ", status),
        Why::StillValidating => put_text(buffer, place, "the row is still being validated"),
        Why::OtherChecksum => put_text(buffer, place, "the row has another checksum"),
        Why::NoReply => put_text(buffer, place, "no reply"),
        Why::NumbersUsedUp => put_text(buffer, place, "no request number is left"),
        Why::OddReply => put_text(buffer, place, "the reply does not answer what was asked"),
        Why::Cause(cause) => {
            let text = "the sign refused the activation for cause ";
            put_signed(buffer, place, text, cause)
        }
        Why::Restarted => put_text(buffer, place, "the central system was restarted"),
    }
}

/// Puts a text and a number, which may be below nought.
pub(crate) fn put_signed(buffer: &mut [u8], place: usize, text: &str, number: i64) -> usize
    ensures { Puts (text.now ++ signed_decimal number) place buffer.old result buffer.new }
{
    let place = put_text(buffer, place, text);
    put_decimal(buffer, place, number)
}
