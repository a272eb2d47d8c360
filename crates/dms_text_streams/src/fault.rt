//! Why an input is not read to its end, and why a conversation ends before its input does.

use std::error::Error;
use std::fmt;

/// Why not all of an input was read.
#[derive(Clone, Copy, Debug, PartialEq, Eq)]
pub enum InputFault {
    /// A call of the reader failed.
    Read,
    /// The input has more octets than the limit.
    TooLong,
    /// There is no memory for the octets.
    Memory,
}

/// Why a conversation ended before its input did.
#[derive(Clone, Copy, Debug, PartialEq, Eq)]
pub enum ConversationFault {
    /// A call of the reader failed.
    Read,
    /// A call of the writer failed, or took nothing.
    Write,
    /// The input has 2^64 - 1 octets or more.
    TooLong,
    /// There is no memory for a line or for its answer.
    Memory,
}

impl From<InputFault> for ConversationFault {
    ghost use Rattle.std.specs.Prelude.{◌≡◌};
    ghost use Rattle.dms_text_streams.specs.FaultsOfUsers.{conversation_fault};

    ghost from_gives = { λ fault made. made ≡ conversation_fault fault };

    fn from(fault: InputFault) -> ConversationFault {
        match fault {
            InputFault::Read => ConversationFault::Read,
            InputFault::TooLong => ConversationFault::TooLong,
            InputFault::Memory => ConversationFault::Memory,
        }
    }
}

impl fmt::Display for InputFault {
    ghost use Rattle.std.specs.Prelude.{Some};
    ghost use Rattle.dms_text_streams.specs.FaultTexts.{input_fault_text};

    ghost output = { λ fault. Some (input_fault_text fault) };

    fn fmt<W: fmt::Write>(&self, f: &mut fmt::Formatter<W>) -> fmt::Result {
        match self {
            InputFault::Read => f.write_str("read"),
            InputFault::TooLong => f.write_str("too long"),
            InputFault::Memory => f.write_str("memory"),
        }
    }
}

impl Error for InputFault {}

impl fmt::Display for ConversationFault {
    ghost use Rattle.std.specs.Prelude.{Some};
    ghost use Rattle.dms_text_streams.specs.FaultTexts.{conversation_fault_text};

    ghost output = { λ fault. Some (conversation_fault_text fault) };

    fn fmt<W: fmt::Write>(&self, f: &mut fmt::Formatter<W>) -> fmt::Result {
        match self {
            ConversationFault::Read => f.write_str("read"),
            ConversationFault::Write => f.write_str("write"),
            ConversationFault::TooLong => f.write_str("too long"),
            ConversationFault::Memory => f.write_str("memory"),
        }
    }
}

impl Error for ConversationFault {}
