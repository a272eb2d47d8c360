//! What is wrong with a face.

use std::error::Error;
use std::fmt;

/// What is wrong with a face.
#[derive(Clone, Copy, Debug, PartialEq, Eq)]
pub enum FaceFault {
    /// No matrix of 1 to 256 columns and 1 to 64 rows.
    Size = 1,
    /// No font, more than four, or two of one number.
    Fonts = 2,
    /// A default out of its range, or a default font that the face has not.
    Default = 3,
}

impl FaceFault {
    ghost use Rattle.std.specs.Prelude.{◌≡◌};
    ghost use Rattle.dms_face.specs.Fault.{fault_number};

    /// The number that stands for it, 1 to 3 (this profile).
    pub fn number(self) -> u8
        ensures { result ≡ fault_number self }
    {
        self as u8
    }
}

impl fmt::Display for FaceFault {
    ghost use Rattle.std.specs.Prelude.{Some};
    ghost use Rattle.dms_face.specs.FaultTexts.{face_fault_text};

    ghost output = { λ fault. Some (face_fault_text fault) };

    fn fmt<W: fmt::Write>(&self, f: &mut fmt::Formatter<W>) -> fmt::Result {
        let text = match self {
            FaceFault::Size => "no size of a matrix",
            FaceFault::Fonts => "no fonts of a sign",
            FaceFault::Default => "a default that does not fit",
        };
        f.write_str(text)
    }
}

impl Error for FaceFault {}
