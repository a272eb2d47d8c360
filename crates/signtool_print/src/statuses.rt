//! Exit statuses of what was written, or not.

ghost use Rattle.std.specs.Prelude.{◌≡◌, ℕ, List};
ghost use Rattle.signtool_print.specs.ExitNumbers.{exit_number};
ghost use Rattle.signtool_print.specs.Printed.{Answer, answer, status_of, Prints, PrintsOrMemory};

use dms_text_streams::{Failed, Sink, write_whole};
use std::io::Write;

/// How a call of the program ends.
#[derive(Clone, Copy, Debug, PartialEq, Eq)]
pub enum ExitStatus {
    /// The answer was printed.
    Done,
    /// The answer is a refusal, or it could not be printed.
    Refused,
    /// The words of the call are at fault.
    Misused,
}

impl ExitStatus {
    /// The number that the program ends with: 0, 1 or 2.
    pub fn number(self) -> u8
        ensures { result ≡ exit_number self }
    {
        match self {
            ExitStatus::Done => 0,
            ExitStatus::Refused => 1,
            ExitStatus::Misused => 2,
        }
    }
}

/// The status of a call: that of its answer, or `Refused` where that could not be printed.
pub fn status(printed: Result<ExitStatus, Failed>) -> ExitStatus
    ensures { result ≡ status_of printed }
{
    match printed {
        Ok(status) => status,
        Err(_) => ExitStatus::Refused,
    }
}

/// Prints a text, and gives the status of the answer.
pub fn print<W: Sink>(writer: &mut W, text: &[u8], status: ExitStatus) -> Result<ExitStatus, Failed>
    ensures { Prints (W.contents writer.old) (W.contents writer.new) (W.failed writer.old) (W.failed writer.new) result
        (answer status text.now) }
{
    match write_whole(writer, text) {
        Ok(()) => Ok(status),
        Err(failed) => Err(failed),
    }
}

/// Prints a text that no memory is needed for.
pub fn print_text<W: Sink>(
    writer: &mut W,
    text: &[u8],
    status: ExitStatus,
) -> Result<ExitStatus, Failed>
    ensures { PrintsOrMemory (W.contents writer.old) (W.contents writer.new) (W.failed writer.old)
        (W.failed writer.new) result (answer status text.now) }
{
    print(writer, text, status)
}

/// Prints a text that there was memory for.
pub fn print_made<W: Sink>(
    writer: &mut W,
    text: Vec<u8>,
    status: ExitStatus,
) -> Result<ExitStatus, Failed>
    ensures { (wanted : List ℕ) → text.items ≡ wanted → PrintsOrMemory (W.contents writer.old)
        (W.contents writer.new) (W.failed writer.old) (W.failed writer.new) result (answer status wanted) }
{
    print(writer, text.as_slice(), status)
}

/// Prints that there is no memory for an answer, whichever that is, and says so in words too.
pub fn print_memory<W: Sink, E: Write>(writer: &mut W, errors: &mut E) -> Result<ExitStatus, Failed>
    ensures { (wanted : Answer) → PrintsOrMemory (W.contents writer.old) (W.contents writer.new) (W.failed writer.old)
        (W.failed writer.new) result wanted }
{
    say_memory(errors);
    print(writer, b"memory\n", ExitStatus::Refused)
}

/// Says in words that there is no memory. It takes none.
pub fn say_memory<E: Write>(errors: &mut E) {
    let _ = errors.write_all(b"there is not enough memory\n");
}
