//! The fields of a state's text.

use crate::line_reading::{most_rows, put_name, stored_name};
use crate::number_settings::NumberSetting;
use std::alloc::{AllocError, AllocFailed};
use std::error::Error;
use std::fmt;

/// What is shown, or what was shown as the power was lost.
#[derive(Clone, Copy, Debug, PartialEq, Eq)]
pub enum Put {
    /// What is shown.
    Shown,
    /// What was shown as the power was lost.
    Kept,
}

/// A type of memory whose rows can be written.
#[derive(Clone, Copy, Debug, PartialEq, Eq)]
pub enum Stored {
    /// Rows that are kept over a loss of power.
    Changeable,
    /// Rows that a loss of power empties.
    Volatile,
}

/// A field of a state's text: what a line is to be.
#[derive(Clone, Copy, Debug, PartialEq, Eq)]
pub enum SignStateField {
    /// The first line.
    Form,
    /// A row of a type of memory, of this number or a greater one.
    Row(Stored, u16),
    /// The nine defaults.
    Defaults,
    ShortPowerRecovery,
    LongPowerRecovery,
    PowerLoss,
    EndDuration,
    CommunicationsLoss,
    /// A setting that is a number.
    Number(NumberSetting),
    /// The seconds of silence.
    Silent,
    /// The message that is shown or was kept.
    Message(Put),
    /// The five octets of its source.
    Source(Put),
    /// What put it up.
    Mode(Put),
    /// Who put it up.
    Address(Put),
    /// The seconds until its end.
    Remaining(Put),
    /// Its copy of the defaults.
    Copied(Put),
    ValidateError,
    ActivateError,
    SyntaxError,
    SyntaxErrorPosition,
    AcceptedCode,
    FailedCode,
    Powered,
    /// The last line, and nothing after it.
    End,
}

/// The first field of a text that is not as it must be.
#[derive(Clone, Copy, Debug, PartialEq, Eq)]
pub struct SignStateFault {
    /// Its line, from 1.
    pub line: usize,
    /// What is wanted there.
    pub wanted: SignStateField,
}

/// Why no fields are read of a text.
#[derive(Clone, Copy, Debug, PartialEq, Eq)]
pub enum StateError {
    /// No memory.
    Memory,
    /// The text is no state's.
    Fault(SignStateFault),
}

/// A field that does not stand where it is wanted, and how many octets are left there.
#[derive(Clone, Copy, Debug, PartialEq, Eq)]
pub(crate) struct SignFieldLack {
    pub wanted: SignStateField,
    pub left: usize,
}

/// Why no field was read.
#[derive(Clone, Copy, Debug, PartialEq, Eq)]
pub(crate) enum UnreadSignField {
    Memory,
    Lacks(SignFieldLack),
}

impl From<AllocError> for UnreadSignField {
    ghost use Rattle.std.specs.Prelude.{◌≡◌};
    ghost use Rattle.dms_sign_state.specs.declared.field.UnreadSignField.TheVariants.{Memory};

    ghost from_gives = { λ _ e. e ≡ Memory };

    fn from(_e: AllocError) -> UnreadSignField {
        UnreadSignField::Memory
    }
}

impl<T: Drop> From<AllocFailed<T>> for UnreadSignField {
    ghost use Rattle.std.specs.Prelude.{◌≡◌};
    ghost use Rattle.dms_sign_state.specs.declared.field.UnreadSignField.TheVariants.{Memory};

    ghost from_gives = { λ _ e. e ≡ Memory };

    fn from(_e: AllocFailed<T>) -> UnreadSignField {
        UnreadSignField::Memory
    }
}

impl fmt::Display for SignStateField {
    ghost use Rattle.std.specs.Prelude.{Some};
    ghost use Rattle.dms_sign_state.specs.FieldTexts.{field_text};

    ghost output = { λ field. Some (field_text field) };

    fn fmt<W: fmt::Write>(&self, f: &mut fmt::Formatter<W>) -> fmt::Result {
        match self {
            SignStateField::Form => f.write_str("state 1 sign"),
            SignStateField::Row(stored, least) => write!(
                f,
                "{} and a row of a number from {} to {}",
                stored_name(*stored),
                least,
                most_rows(*stored)
            ),
            SignStateField::Defaults => f.write_str("defaults and nine numbers"),
            SignStateField::ShortPowerRecovery => f.write_str(
                "short-power-recovery and five octets",
            ),
            SignStateField::LongPowerRecovery => f.write_str("long-power-recovery and five octets"),
            SignStateField::PowerLoss => f.write_str("power-loss and five octets"),
            SignStateField::EndDuration => f.write_str("end-duration and five octets"),
            SignStateField::CommunicationsLoss => f.write_str(
                "communications-loss and five octets",
            ),
            SignStateField::Number(number) => write!(f, "{} and a number to 65535", number.word()),
            SignStateField::Silent => f.write_str("silent and a number to 4294967295"),
            SignStateField::Message(put) => write!(f, "{} and a message", put_name(*put)),
            SignStateField::Source(put) => write!(f, "{}-source and five octets", put_name(*put)),
            SignStateField::Mode(put) => write!(f, "{}-mode and a number to 255", put_name(*put)),
            SignStateField::Address(put) => write!(f, "{}-address and an address", put_name(*put)),
            SignStateField::Remaining(put) => {
                write!(f, "{}-remaining and a number to 4294967295", put_name(*put))
            }
            SignStateField::Copied(put) => write!(
                f,
                "{}-defaults and nine numbers",
                put_name(*put)
            ),
            SignStateField::ValidateError => f.write_str("validate-error and a number to 255"),
            SignStateField::ActivateError => f.write_str("activate-error and a number to 255"),
            SignStateField::SyntaxError => f.write_str("syntax-error and a number to 255"),
            SignStateField::SyntaxErrorPosition => {
                f.write_str("syntax-error-position and a number to 65535")
            }
            SignStateField::AcceptedCode => f.write_str("accepted-code and twelve octets"),
            SignStateField::FailedCode => f.write_str("failed-code and twelve octets"),
            SignStateField::Powered => f.write_str("powered and 0 or 1"),
            SignStateField::End => f.write_str("end and nothing after it"),
        }
    }
}

impl fmt::Display for SignStateFault {
    ghost use Rattle.std.specs.Prelude.{Some};
    ghost use Rattle.dms_sign_state.specs.FieldTexts.{fault_text};

    ghost output = { λ fault. Some (fault_text fault) };

    fn fmt<W: fmt::Write>(&self, f: &mut fmt::Formatter<W>) -> fmt::Result {
        write!(f, "line {}: {} wanted", self.line, self.wanted)
    }
}

impl fmt::Display for StateError {
    ghost use Rattle.std.specs.Prelude.{Some};
    ghost use Rattle.dms_sign_state.specs.FieldTexts.{error_text};

    ghost output = { λ error. Some (error_text error) };

    fn fmt<W: fmt::Write>(&self, f: &mut fmt::Formatter<W>) -> fmt::Result {
        match self {
            StateError::Memory => f.write_str("no memory"),
            StateError::Fault(fault) => write!(f, "{fault}"),
        }
    }
}

impl Error for SignStateFault {}

impl Error for StateError {}
