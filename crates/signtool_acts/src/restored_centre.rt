//! The state of a central system that an input says before a conversation.

ghost use Rattle.std.specs.Prelude.{◌≡◌, ◌≢◌, ◌<◌, Err, IfOk, OnOk, IfSome, length};
ghost use Rattle.std.specs.Io.KnownBytes.{Appends};
ghost use Rattle.dms_text_streams.specs.Calls.{one_more};
ghost use Rattle.dms_text_streams.specs.DescriptionText.{longest_input};
ghost use Rattle.dms_text_streams.specs.Lines.{left};
ghost use Rattle.dms_text_streams.specs.declared.fault.InputFault.TheVariants as faults;
ghost use Rattle.dms_centre_restored.specs.RestoredTexts.{refused_line};
ghost use Rattle.signtool_acts.specs.RestoredCentre.{CentreBefore, IsRefusedCentre, centre_said};
ghost use Rattle.signtool_acts.specs.declared.restored_centre.CentreRefusal.TheVariants as refusals;

use crate::centre::settings_of;
use crate::refusal::InputRefusal;
use crate::restored::print_line;
use dms_centre_lines::LiveCentre;
use dms_centre_restored::{CentreRestoreFault, CentreStateRefusal, restored};
use dms_sign_text::{ReplayFault, Setup};
use dms_text_streams::{Failed, Input, InputFault, Sink, Source, description_text};
use signtool_print::ExitStatus;
use std::alloc::Global;
use std::io;
use std::io::Write;

/// Why an input puts a central system in no state.
#[derive(Clone, Copy, Debug, PartialEq, Eq)]
pub enum CentreRefusal {
    /// It gives no text.
    Input(InputFault),
    /// Its text is of no state of a central system.
    State(CentreStateRefusal),
}

/// The central system of a sign in the state that the input says before a conversation: its text is the lines up to and
/// with the first line `end`, at most 1,048,576 octets. The lines after it are left. After an error there is none.
pub fn centre_restored_before<S: Source>(
    alloc: Global,
    setup: &Setup,
    input: &mut Input<S>,
) -> Result<LiveCentre, CentreRefusal>
    ensures state { IfOk result
        (λ s. CentreBefore (left S.remaining input.old) setup.now s (left S.remaining input.new)) }
    ensures refused { (refusal : CentreStateRefusal) → result ≡ Err (refusals.State refusal)
        → IsRefusedCentre (left S.remaining input.old) setup.now refusal (left S.remaining input.new) }
    ensures too_long { result ≡ Err (refusals.Input faults.TooLong)
        → IfSome (left S.remaining input.old) (λ octets. longest_input < length octets) }
    ensures read { result ≡ Err (refusals.Input faults.Read)
        → S.failed input.new.source ≡ one_more (S.failed input.old.source) }
    ensures all_read { result ≢ Err (refusals.Input faults.Read)
        → S.failed input.new.source ≡ S.failed input.old.source }
{
    let text = match description_text(alloc, input) {
        Ok(text) => text,
        Err(fault) => return Err(CentreRefusal::Input(fault)),
    };
    match restored(alloc, settings_of(setup), text.as_slice()) {
        Ok(centre) => Ok(LiveCentre::new(centre)),
        Err(CentreRestoreFault::State(refusal)) => Err(CentreRefusal::State(refusal)),
        // a sign's communities are a centre's
        Err(CentreRestoreFault::Settings(_)) => Err(CentreRefusal::State(
            CentreStateRefusal::Memory,
        )),
    }
}

impl CentreRefusal {
    ghost use Rattle.signtool_print.specs.Printed.{answer, PrintsOrMemory};
    ghost use Rattle.signtool_print.specs.declared.statuses.ExitStatus.TheVariants.{Refused};
    ghost use Rattle.signtool_acts.specs.RestoredCentre.{centre_line};

    /// Prints the line of the state that is refused, or why there is no text, as the answer of a call, and says on the
    /// standard error what is wrong.
    pub fn refuse<W: Sink, E: Write>(
        &self,
        alloc: Global,
        writer: &mut W,
        errors: &mut E,
    ) -> Result<ExitStatus, Failed>
        ensures { PrintsOrMemory (W.contents writer.old) (W.contents writer.new) (W.failed writer.old)
            (W.failed writer.new) result (answer Refused (centre_line self.now)) }
    {
        match self {
            CentreRefusal::Input(fault) => {
                InputRefusal::from(ReplayFault::from(*fault)).refuse(alloc, writer, errors)
            }
            CentreRefusal::State(refusal) => {
                let _ = say_state(refusal, errors);
                print_line(alloc, refusal.line(), writer, errors)
            }
        }
    }
}

/// Says why a state is refused. What is said where memory ran out is said as that is printed.
fn say_state<E: Write>(refusal: &CentreStateRefusal, errors: &mut E) -> io::Result<()>
    ensures { OnOk result (Appends (E.contents errors.old) (E.contents errors.new)
        (centre_said refusal.now (refused_line refusal.now))) }
{
    match refusal.line() {
        None => Ok(()),
        Some(_) => writeln!(errors, "state {refusal}"),
    }
}
