//! The state that an input says before a conversation.

ghost use Rattle.std.specs.Prelude.{◌≡◌, ◌≢◌, ◌<◌, Err, Some, IfOk, OnOk, IfSome, length};
ghost use Rattle.std.specs.Io.KnownBytes.{Appends};
ghost use Rattle.dms_text_streams.specs.Calls.{one_more};
ghost use Rattle.dms_text_streams.specs.DescriptionText.{longest_input};
ghost use Rattle.dms_text_streams.specs.Lines.{left};
ghost use Rattle.dms_text_streams.specs.declared.fault.InputFault.TheVariants as faults;
ghost use Rattle.dms_sign_restored.specs.RestoredTexts.{refused_line};
ghost use Rattle.signtool_print.specs.Printed.{answer, PrintsOrMemory};
ghost use Rattle.signtool_print.specs.declared.statuses.ExitStatus.TheVariants.{Refused};
ghost use Rattle.signtool_acts.specs.RestoredBefore.{PutBefore, IsRefusedState, state_line, state_said};
ghost use Rattle.signtool_acts.specs.declared.restored.RestoreRefusal.TheVariants as refusals;

use crate::refusal::InputRefusal;
use dms_sign::Sign;
use dms_sign_restored::{SignStateRefusal, put_state};
use dms_sign_text::ReplayFault;
use dms_text_streams::{Failed, Input, InputFault, Sink, Source, description_text};
use signtool_print::{ExitStatus, print_made, print_memory};
use std::alloc::{AllocError, Global};
use std::io;
use std::io::Write;

/// Why an input puts a sign in no state.
#[derive(Clone, Copy, Debug, PartialEq, Eq)]
pub enum RestoreRefusal {
    /// It gives no text.
    Input(InputFault),
    /// Its text is not of a state of this sign.
    State(SignStateRefusal),
}

/// The sign in the state that the input says before a conversation: its text is the lines up to and with the first line
/// `end`, at most 1,048,576 octets. The lines after it are left. After an error there is no sign.
pub fn restored_before<S: Source>(
    alloc: Global,
    sign: Sign,
    input: &mut Input<S>,
) -> Result<Sign, RestoreRefusal>
    ensures state { IfOk result (λ s. PutBefore (left S.remaining input.old) sign s (left S.remaining input.new)) }
    ensures refused { (refusal : SignStateRefusal) → result ≡ Err (refusals.State refusal)
        → IsRefusedState (left S.remaining input.old) sign refusal (left S.remaining input.new) }
    ensures too_long { result ≡ Err (refusals.Input faults.TooLong)
        → IfSome (left S.remaining input.old) (λ octets. longest_input < length octets) }
    ensures read { result ≡ Err (refusals.Input faults.Read)
        → S.failed input.new.source ≡ one_more (S.failed input.old.source) }
    ensures all_read { result ≢ Err (refusals.Input faults.Read)
        → S.failed input.new.source ≡ S.failed input.old.source }
{
    let text = match description_text(alloc, input) {
        Ok(text) => text,
        Err(fault) => return Err(RestoreRefusal::Input(fault)),
    };
    match put_state(alloc, sign, text.as_slice()) {
        Ok(sign) => Ok(sign),
        Err(refusal) => Err(RestoreRefusal::State(refusal)),
    }
}

impl RestoreRefusal {
    ghost use Rattle.signtool_print.specs.Printed.{answer, PrintsOrMemory};
    ghost use Rattle.signtool_print.specs.declared.statuses.ExitStatus.TheVariants.{Refused};
    ghost use Rattle.signtool_acts.specs.RestoredBefore.{restore_line};

    /// Prints the line of the state that is refused, or why there is no text, as the answer of a call, and says on the
    /// standard error what is wrong.
    pub fn refuse<W: Sink, E: Write>(
        &self,
        alloc: Global,
        writer: &mut W,
        errors: &mut E,
    ) -> Result<ExitStatus, Failed>
        ensures { PrintsOrMemory (W.contents writer.old) (W.contents writer.new) (W.failed writer.old)
            (W.failed writer.new) result (answer Refused (restore_line self.now)) }
    {
        match self {
            RestoreRefusal::Input(fault) => {
                InputRefusal::from(ReplayFault::from(*fault)).refuse(alloc, writer, errors)
            }
            RestoreRefusal::State(refusal) => {
                let _ = say_state(refusal, errors);
                print_line(alloc, refusal.line(), writer, errors)
            }
        }
    }
}

/// Says why a state is refused. What is said where memory ran out is said as that is printed.
fn say_state<E: Write>(refusal: &SignStateRefusal, errors: &mut E) -> io::Result<()>
    ensures { OnOk result (Appends (E.contents errors.old) (E.contents errors.new)
        (state_said refusal.now (refused_line refusal.now))) }
{
    match refusal.line() {
        None => Ok(()),
        Some(_) => writeln!(errors, "state {refusal}"),
    }
}

/// Prints which line of a state is refused: none where memory ran out.
pub(crate) fn print_line<W: Sink, E: Write>(
    alloc: Global,
    line: Option<usize>,
    writer: &mut W,
    errors: &mut E,
) -> Result<ExitStatus, Failed>
    ensures { PrintsOrMemory (W.contents writer.old) (W.contents writer.new) (W.failed writer.old)
        (W.failed writer.new) result (answer Refused (state_line line)) }
{
    match line {
        None => print_memory(writer, errors),
        Some(line) => match line_text(alloc, line) {
            Ok(text) => print_made(writer, text, ExitStatus::Refused),
            Err(_) => print_memory(writer, errors),
        },
    }
}

fn line_text(alloc: Global, line: usize) -> Result<Vec<u8>, AllocError>
    ensures { IfOk result (λ text. text.items ≡ state_line (Some line)) }
{
    let mut text = Vec::new(alloc);
    writeln!(text, "state line {line}").or(Err(AllocError))?;
    Ok(text)
}
