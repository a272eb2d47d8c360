//! Why a line of a state says no value of an object.

use std::alloc::{AllocError, AllocFailed};
use std::error::Error;
use std::fmt;

/// What a line is not.
#[derive(Clone, Copy, Debug, PartialEq, Eq)]
pub enum SetCause {
    /// Its first word is not `set`.
    Keyword,
    /// No name of an object stands behind that.
    Name,
    /// No value stands behind the name.
    Value,
    /// More stands behind the value.
    More,
    /// No newline ends it.
    Newline,
}

/// The first line of a state that says no value of an object, where it is to.
#[derive(Clone, Copy, Debug, PartialEq, Eq)]
pub struct SetFault {
    /// Its number in the text, from 1.
    pub line: usize,
    /// What it is not.
    pub cause: SetCause,
}

/// Why no values are read of a state.
#[derive(Clone, Copy, Debug, PartialEq, Eq)]
pub enum SetError {
    /// No memory.
    Memory,
    /// A line says none.
    Fault(SetFault),
}

impl From<AllocError> for SetError {
    ghost use Rattle.std.specs.Prelude.{◌≡◌};
    ghost use Rattle.dms_agent_state.specs.declared.fault.SetError.TheVariants.{Memory};

    ghost from_gives = { λ _ e. e ≡ Memory };

    fn from(_e: AllocError) -> SetError {
        SetError::Memory
    }
}

impl<T: Drop> From<AllocFailed<T>> for SetError {
    ghost use Rattle.std.specs.Prelude.{◌≡◌};
    ghost use Rattle.dms_agent_state.specs.declared.fault.SetError.TheVariants.{Memory};

    ghost from_gives = { λ _ e. e ≡ Memory };

    fn from(_e: AllocFailed<T>) -> SetError {
        SetError::Memory
    }
}

impl fmt::Display for SetCause {
    ghost use Rattle.std.specs.Prelude.{Some};
    ghost use Rattle.dms_agent_state.specs.FaultTexts.{cause_text};

    ghost output = { λ cause. Some (cause_text cause) };

    fn fmt<W: fmt::Write>(&self, f: &mut fmt::Formatter<W>) -> fmt::Result {
        match self {
            SetCause::Keyword => f.write_str("set, a name and a value are wanted"),
            SetCause::Name => f.write_str("word 2: the name of an object is wanted, as 1.3.6.1"),
            SetCause::Value => f.write_str("word 3: a value is wanted, as INTEGER 7"),
            SetCause::More => f.write_str("after the value the end of the line is wanted"),
            SetCause::Newline => f.write_str("a newline is wanted at its end"),
        }
    }
}

impl fmt::Display for SetFault {
    ghost use Rattle.std.specs.Prelude.{Some};
    ghost use Rattle.dms_agent_state.specs.FaultTexts.{fault_text};

    ghost output = { λ fault. Some (fault_text fault) };

    fn fmt<W: fmt::Write>(&self, f: &mut fmt::Formatter<W>) -> fmt::Result {
        write!(f, "line {}: {}", self.line, self.cause)
    }
}

impl fmt::Display for SetError {
    ghost use Rattle.std.specs.Prelude.{Some};
    ghost use Rattle.dms_agent_state.specs.FaultTexts.{error_text};

    ghost output = { λ error. Some (error_text error) };

    fn fmt<W: fmt::Write>(&self, f: &mut fmt::Formatter<W>) -> fmt::Result {
        match self {
            SetError::Memory => f.write_str("no memory"),
            SetError::Fault(fault) => write!(f, "{fault}"),
        }
    }
}

impl Error for SetCause {}

impl Error for SetFault {}

impl Error for SetError {}
