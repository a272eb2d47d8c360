//! Why an input gives no sign, and a script no report.

ghost use Rattle.std.specs.Prelude.{OnOk};
ghost use Rattle.std.specs.Io.KnownBytes.{Appends};
ghost use Rattle.dms_sign_text.specs.FaultTexts.{replay_fault_text};

use dms_text_streams::InputFault;
use std::alloc::AllocError;
use std::io;
use std::io::Write;
use thiserror::Error;

/// Why a script gives no report, or a description no sign.
#[derive(Clone, Copy, Debug, PartialEq, Eq, Error)]
pub enum ReplayFault {
    /// A call of the reader failed.
    #[error("read")]
    Read,
    /// A call of the writer failed, or took nothing. A prefix of the report was written, perhaps none of it.
    #[error("write")]
    Write,
    /// The line of this number, from 1, is not as it should be, or is missing. Lines that are skipped count too.
    #[error("line {0}")]
    Line(usize),
    /// The input has more than 1,048,576 octets.
    #[error("too long")]
    TooLong,
    /// No memory.
    #[error("memory")]
    Memory,
}

/// Writes the words of a fault, those that its `Display` prints. Only the writer's failure is an error.
pub fn write_fault<W: Write>(writer: &mut W, fault: ReplayFault) -> io::Result<()>
    ensures { OnOk result (Appends (W.contents writer.old) (W.contents writer.new) (replay_fault_text fault)) }
{
    match fault {
        ReplayFault::Read => write!(writer, "read"),
        ReplayFault::Write => write!(writer, "write"),
        ReplayFault::Line(number) => write!(writer, "line {number}"),
        ReplayFault::TooLong => write!(writer, "too long"),
        ReplayFault::Memory => write!(writer, "memory"),
    }
}

impl From<AllocError> for ReplayFault {
    ghost use Rattle.std.specs.Prelude.{◌≡◌};
    ghost use Rattle.dms_sign_text.specs.declared.reading_fault.ReplayFault.TheVariants as faults;

    ghost from_gives = { λ _ made. made ≡ faults.Memory };

    fn from(_: AllocError) -> ReplayFault {
        ReplayFault::Memory
    }
}

impl From<InputFault> for ReplayFault {
    ghost use Rattle.std.specs.Prelude.{◌≡◌};
    ghost use Rattle.dms_sign_text.specs.ReadingFaults.{replay_fault};

    ghost from_gives = { λ fault made. made ≡ replay_fault fault };

    fn from(fault: InputFault) -> ReplayFault {
        match fault {
            InputFault::Read => ReplayFault::Read,
            InputFault::TooLong => ReplayFault::TooLong,
            InputFault::Memory => ReplayFault::Memory,
        }
    }
}
