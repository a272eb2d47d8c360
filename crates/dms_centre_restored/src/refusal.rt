//! Why no central system goes on from a text.

ghost use Rattle.dms_centre_restored.specs.RestoredTexts.{field_text, fault_text, refusal_text, restore_fault_text};

use dms_centre::CentreFault;
use std::alloc::AllocError;
use std::error::Error;
use std::fmt;

/// What a line of a state's text is to be.
#[derive(Clone, Copy, Debug, PartialEq, Eq)]
pub enum CentreStateField {
    /// The first line.
    Form,
    /// The number that the next request takes.
    Next,
    /// How the last job ended.
    Last,
    /// Whether a job is on.
    Phase,
    /// The same where no request has the number before the next one, so that none waits.
    PhaseWithoutRequest,
    /// How many times the request that waits went out.
    Sends,
    /// The ticks since it went out last.
    Ticks,
    /// The step of a job.
    Step,
    /// The step of a job whose request the next tick sends.
    StepOfTick,
    /// How many replies said that the row is still being validated.
    Polls,
    /// A message that is written first.
    Publication,
    /// A message that the sign has.
    Activation,
    /// An entry of the ledger.
    Entry {
        /// The least number that it can have.
        least: u32,
        /// The greatest one.
        most: u32,
    },
    /// The last line, and nothing after it.
    End,
    /// The line as the state that was read has it.
    Spelling,
}

/// The first line of a text that is not as it must be.
#[derive(Clone, Copy, Debug, PartialEq, Eq)]
pub struct CentreStateFault {
    /// The line, from 1.
    pub line: usize,
    /// What is wanted there.
    pub wanted: CentreStateField,
}

/// Why no state is taken up of a text.
#[derive(Clone, Copy, Debug, PartialEq, Eq)]
pub enum CentreStateRefusal {
    /// No memory.
    Memory,
    /// The text is of no state that a central system comes to.
    Fault(CentreStateFault),
}

/// Why no central system is restored.
#[derive(Clone, Copy, Debug, PartialEq, Eq)]
pub enum CentreRestoreFault {
    /// There is none of the settings.
    Settings(CentreFault),
    /// It does not go on from the text.
    State(CentreStateRefusal),
}

/// A line that is not as it must be, and how many octets are left where it begins.
#[derive(Clone, Copy, Debug, PartialEq, Eq)]
pub(crate) struct CentreLineLack {
    pub wanted: CentreStateField,
    pub left: usize,
}

/// Why a line is not taken up.
#[derive(Clone, Copy, Debug, PartialEq, Eq)]
pub(crate) enum UnreadCentreLine {
    Memory,
    Lacks(CentreLineLack),
}

impl From<CentreLineLack> for UnreadCentreLine {
    ghost use Rattle.std.specs.Prelude.{◌≡◌};
    ghost use Rattle.dms_centre_restored.specs.declared.refusal.UnreadCentreLine.TheVariants.{Lacks};

    ghost from_gives = { λ lack e. e ≡ Lacks lack };

    fn from(lack: CentreLineLack) -> UnreadCentreLine {
        UnreadCentreLine::Lacks(lack)
    }
}

impl From<AllocError> for UnreadCentreLine {
    ghost use Rattle.std.specs.Prelude.{◌≡◌};
    ghost use Rattle.dms_centre_restored.specs.declared.refusal.UnreadCentreLine.TheVariants.{Memory};

    ghost from_gives = { λ _ e. e ≡ Memory };

    fn from(_e: AllocError) -> UnreadCentreLine {
        UnreadCentreLine::Memory
    }
}

impl CentreStateRefusal {
    ghost use Rattle.std.specs.Prelude.{◌≡◌};
    ghost use Rattle.dms_centre_restored.specs.RestoredTexts.{refused_line};

    /// The line of the text, from 1, that is refused: none where memory ran out.
    pub fn line(&self) -> Option<usize>
        ensures { result ≡ refused_line self.now }
    {
        match self {
            CentreStateRefusal::Memory => None,
            CentreStateRefusal::Fault(fault) => Some(fault.line),
        }
    }
}

impl fmt::Display for CentreStateField {
    ghost use Rattle.std.specs.Prelude.{Some};

    ghost output = { λ field. Some (field_text field) };

    fn fmt<W: fmt::Write>(&self, f: &mut fmt::Formatter<W>) -> fmt::Result {
        match self {
            CentreStateField::Form => f.write_str("state 1 centre"),
            CentreStateField::Next => f.write_str("next and a number to 4294967295"),
            CentreStateField::Last => f.write_str("last and how a job ended"),
            CentreStateField::Phase => f.write_str("idle, awaits or due"),
            CentreStateField::PhaseWithoutRequest => f.write_str("idle or due"),
            CentreStateField::Sends => f.write_str("sends and a number from 1 to 3"),
            CentreStateField::Ticks => f.write_str("ticks and a number to 2"),
            CentreStateField::Step => f.write_str("step and a number from 1 to 8"),
            CentreStateField::StepOfTick => f.write_str("step and 5 or 7"),
            CentreStateField::Polls => f.write_str("polls and a number to 9"),
            CentreStateField::Publication => f.write_str("publish and a command"),
            CentreStateField::Activation => f.write_str("activate and a code"),
            CentreStateField::Entry { least, most } => {
                write!(f, "ledger and an entry of a number from {least} to {most}")
            }
            CentreStateField::End => f.write_str("end and nothing after it"),
            CentreStateField::Spelling => f.write_str("the line of the state that was read"),
        }
    }
}

impl fmt::Display for CentreStateFault {
    ghost use Rattle.std.specs.Prelude.{Some};

    ghost output = { λ fault. Some (fault_text fault) };

    fn fmt<W: fmt::Write>(&self, f: &mut fmt::Formatter<W>) -> fmt::Result {
        write!(f, "line {}: {} wanted", self.line, self.wanted)
    }
}

impl fmt::Display for CentreStateRefusal {
    ghost use Rattle.std.specs.Prelude.{Some};

    ghost output = { λ refusal. Some (refusal_text refusal) };

    fn fmt<W: fmt::Write>(&self, f: &mut fmt::Formatter<W>) -> fmt::Result {
        match self {
            CentreStateRefusal::Memory => f.write_str("no memory"),
            CentreStateRefusal::Fault(fault) => write!(f, "{fault}"),
        }
    }
}

impl fmt::Display for CentreRestoreFault {
    ghost use Rattle.std.specs.Prelude.{Some};

    ghost output = { λ fault. Some (restore_fault_text fault) };

    fn fmt<W: fmt::Write>(&self, f: &mut fmt::Formatter<W>) -> fmt::Result {
        match self {
            CentreRestoreFault::Settings(fault) => write!(f, "{fault}"),
            CentreRestoreFault::State(refusal) => write!(f, "{refusal}"),
        }
    }
}

impl Error for CentreStateFault {}

impl Error for CentreStateRefusal {}

impl Error for CentreRestoreFault {}
