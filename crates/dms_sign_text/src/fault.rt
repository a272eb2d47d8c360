//! Why there is no sign.

use std::error::Error;
use std::fmt;

/// Why a text gives no sign.
#[derive(Clone, Copy, Debug, PartialEq, Eq)]
pub enum DescriptionFault {
    /// The line of this number, from 1, is not as it should be. Lines that are skipped count too.
    Line(usize),
    /// No memory for the sign.
    Memory,
}

impl fmt::Display for DescriptionFault {
    ghost use Rattle.std.specs.Prelude.{Some};
    ghost use Rattle.dms_sign_text.specs.FaultTexts.{description_fault_text};

    ghost output = { λ fault. Some (description_fault_text fault) };

    fn fmt<W: fmt::Write>(&self, f: &mut fmt::Formatter<W>) -> fmt::Result {
        match self {
            DescriptionFault::Line(number) => write!(f, "line {number}"),
            DescriptionFault::Memory => f.write_str("memory"),
        }
    }
}

impl Error for DescriptionFault {}
