//! Why an input is refused.

ghost use Rattle.std.specs.Prelude.{OnOk, Some};
ghost use Rattle.std.specs.Io.KnownBytes.{Appends};
ghost use Rattle.signtool_acts.specs.RefusalText.{bare_line, cause_line, unseen_words};

use crate::unseen::Unseen;
use dms_replay::ScriptCause;
use dms_sign_text::{ReplayFault, write_fault};
use dms_text_streams::{Failed, Sink};
use signtool_print::{ExitStatus, print_made, print_memory};
use std::alloc::Global;
use std::io;
use std::io::Write;

/// Why an input is refused.
#[derive(Clone, Copy, Debug, PartialEq, Eq)]
pub struct InputRefusal {
    /// Its fault.
    pub fault: ReplayFault,
    /// Why the line that the fault names is refused.
    pub cause: Option<ScriptCause>,
    /// What nobody sees in that line.
    pub unseen: Option<Unseen>,
    /// Whether the input has nothing at all.
    pub is_empty: bool,
}

impl From<ReplayFault> for InputRefusal {
    ghost use Rattle.std.specs.Prelude.{◌≡◌};
    ghost use Rattle.signtool_acts.specs.Refused.{fault_alone};

    ghost from_gives = { λ fault made. made ≡ fault_alone fault };

    fn from(fault: ReplayFault) -> InputRefusal {
        InputRefusal {
            fault,
            cause: None,
            unseen: None,
            is_empty: false,
        }
    }
}

impl InputRefusal {
    ghost use Rattle.std.specs.Prelude.{OnOk};
    ghost use Rattle.std.specs.Io.KnownBytes.{Appends};
    ghost use Rattle.signtool_print.specs.Printed.{answer, PrintsOrMemory};
    ghost use Rattle.signtool_print.specs.declared.statuses.ExitStatus.TheVariants.{Refused};
    ghost use Rattle.signtool_acts.specs.RefusalText.{fault_line, bare_line, cause_line, empty_line, said};

    /// Prints the fault as the answer of a call, and says on the standard error what is wrong.
    pub fn refuse<W: Sink, E: Write>(
        &self,
        alloc: Global,
        writer: &mut W,
        errors: &mut E,
    ) -> Result<ExitStatus, Failed>
        ensures { PrintsOrMemory (W.contents writer.old) (W.contents writer.new) (W.failed writer.old)
            (W.failed writer.new) result (answer Refused (fault_line self.now.fault)) }
    {
        let _ = self.say(errors);
        let mut line = Vec::new(alloc);
        match self.print(&mut line) {
            Ok(()) => print_made(writer, line, ExitStatus::Refused),
            Err(_) => print_memory(writer, errors),
        }
    }

    /// Prints the fault on the standard output, and says on the standard error what is wrong with its line. It says so
    /// also where the fault is not printed.
    pub fn report<W: Write, E: Write>(&self, writer: &mut W, errors: &mut E) -> io::Result<()>
        ensures printed { OnOk result (Appends (W.contents writer.old) (W.contents writer.new)
            (fault_line self.now.fault)) }
        ensures said { OnOk result (Appends (E.contents errors.old) (E.contents errors.new) (said self.now)) }
    {
        let printed = self.print(writer);
        self.say(errors)?;
        printed
    }

    /// Prints the fault.
    #[tactic(auto, using(crate::proofs::Parts::two_parts))]
    fn print<W: Write>(&self, writer: &mut W) -> io::Result<()>
        ensures { OnOk result (Appends (W.contents writer.old) (W.contents writer.new) (fault_line self.now.fault)) }
    {
        write_fault(writer, self.fault)?;
        writeln!(writer)
    }

    /// Says on the standard error what is wrong with the line of the fault, and where the input has nothing, what may
    /// help.
    #[tactic(auto, using(crate::proofs::Parts::two_parts))]
    pub fn say<E: Write>(&self, errors: &mut E) -> io::Result<()>
        ensures { OnOk result (Appends (E.contents errors.old) (E.contents errors.new) (said self.now)) }
    {
        self.say_cause(errors)?;
        self.say_empty(errors)
    }

    fn say_cause<E: Write>(&self, errors: &mut E) -> io::Result<()>
        ensures { OnOk result (Appends (E.contents errors.old) (E.contents errors.new)
            (cause_line self.now.fault self.now.cause self.now.unseen)) }
    {
        match self.cause {
            Some(cause) => say_line(self.fault, cause, self.unseen, errors),
            None => say_bare(self.fault, errors),
        }
    }

    fn say_empty<E: Write>(&self, errors: &mut E) -> io::Result<()>
        ensures { OnOk result (Appends (E.contents errors.old) (E.contents errors.new) (empty_line self.now.is_empty)) }
    {
        if self.is_empty {
            writeln!(errors, "the standard input is empty: < FILE gives it one")
        } else {
            Ok(())
        }
    }
}

/// Says why the line that the fault names is refused, and what nobody sees in it.
#[tactic(auto, using(crate::proofs::Parts::two_parts))]
fn say_line<E: Write>(
    fault: ReplayFault,
    cause: ScriptCause,
    unseen: Option<Unseen>,
    errors: &mut E,
) -> io::Result<()>
    ensures { OnOk result
        (Appends (E.contents errors.old) (E.contents errors.new) (cause_line fault (Some cause) unseen)) }
{
    write_fault(errors, fault)?;
    write!(errors, ": {cause}")?;
    say_unseen(unseen, errors)?;
    writeln!(errors)
}

/// Says what nobody sees in a line.
fn say_unseen<E: Write>(unseen: Option<Unseen>, errors: &mut E) -> io::Result<()>
    ensures { OnOk result (Appends (E.contents errors.old) (E.contents errors.new) (unseen_words unseen)) }
{
    match unseen {
        Some(unseen) => write!(errors, "; {unseen}"),
        None => Ok(()),
    }
}

/// Says in words what a fault is that is of no line.
fn say_bare<E: Write>(fault: ReplayFault, errors: &mut E) -> io::Result<()>
    ensures { OnOk result (Appends (E.contents errors.old) (E.contents errors.new) (bare_line fault)) }
{
    match fault {
        ReplayFault::Line(_) => Ok(()),
        ReplayFault::Read => writeln!(errors, "the standard input could not be read"),
        ReplayFault::Write => writeln!(errors, "the standard output could not be written"),
        ReplayFault::TooLong => writeln!(errors, "the standard input has more than 1048576 octets"),
        ReplayFault::Memory => writeln!(errors, "there is not enough memory"),
    }
}
