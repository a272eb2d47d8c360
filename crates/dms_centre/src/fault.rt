//! Why a command is not taken, and why a tick does nothing.

use std::error::Error;
use std::fmt;

/// Why a command is not taken: the first that applies. Nothing is sent, and nothing changes.
#[derive(Clone, Copy, Debug, PartialEq, Eq)]
pub enum CommandFault {
    /// A job is not done yet.
    Busy,
    /// No request number is left.
    NumbersUsedUp,
    /// A value of the command is out of its range.
    BadCommand,
    /// There is no memory for an entry of the ledger.
    Memory,
}

impl fmt::Display for CommandFault {
    ghost use Rattle.std.specs.Prelude.{Some};
    ghost use Rattle.dms_centre.specs.Texts.{command_fault_text};

    ghost output = { λ fault. Some (command_fault_text fault) };

    fn fmt<W: fmt::Write>(&self, f: &mut fmt::Formatter<W>) -> fmt::Result {
        match self {
            CommandFault::Busy => f.write_str("a job is not done yet"),
            CommandFault::NumbersUsedUp => f.write_str("no request number is left"),
            CommandFault::BadCommand => f.write_str("a value is out of its range"),
            CommandFault::Memory => f.write_str("out of memory"),
        }
    }
}

impl Error for CommandFault {}

/// There is no memory for an entry of the ledger: nothing is sent, and nothing changes.
#[derive(Clone, Copy, Debug, PartialEq, Eq)]
pub struct NoMemory;

impl fmt::Display for NoMemory {
    ghost use Rattle.std.specs.Prelude.{Some};
    ghost use Rattle.dms_centre.specs.Texts.{no_memory_text};

    ghost output = { λ _. Some no_memory_text };

    fn fmt<W: fmt::Write>(&self, f: &mut fmt::Formatter<W>) -> fmt::Result {
        f.write_str("out of memory")
    }
}

impl Error for NoMemory {}
