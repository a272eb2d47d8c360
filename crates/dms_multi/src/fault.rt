//! What is wrong with a text, or with a list of items.

use std::error::Error;
use std::fmt;

/// The rule of the markup that a text breaks.
#[derive(Clone, Copy, Debug, PartialEq, Eq)]
pub enum FaultCode {
    /// No tag of this name, a tag that is not closed, or a single closing bracket.
    UnsupportedTag,
    /// A tag with a value that is not taken.
    UnsupportedTagValue,
}

impl FaultCode {
    ghost use Rattle.std.specs.Prelude.{◌≡◌};
    ghost use Rattle.dms_multi.specs.Fault.{code_number};

    /// The code's number in dmsMultiSyntaxError.
    pub fn number(self) -> u8
        ensures { result ≡ code_number self }
    {
        match self {
            FaultCode::UnsupportedTag => 3,
            FaultCode::UnsupportedTagValue => 4,
        }
    }
}

impl fmt::Display for FaultCode {
    ghost use Rattle.std.specs.Prelude.{Some};
    ghost use Rattle.dms_multi.specs.FaultTexts.{code_text};

    ghost output = { λ code. Some (code_text code) };

    fn fmt<W: fmt::Write>(&self, f: &mut fmt::Formatter<W>) -> fmt::Result {
        let text = match self {
            FaultCode::UnsupportedTag => "unsupported tag",
            FaultCode::UnsupportedTagValue => "unsupported tag value",
        };
        f.write_str(text)
    }
}

/// The fault of a text, and where it stands.
#[derive(Clone, Copy, Debug, PartialEq, Eq)]
pub struct SyntaxFault {
    /// The rule that is broken.
    pub code: FaultCode,
    /// The offset in octets, from 0, at which the longest prefix that spells items ends.
    pub place: usize,
}

impl fmt::Display for SyntaxFault {
    ghost use Rattle.std.specs.Prelude.{Some};
    ghost use Rattle.dms_multi.specs.FaultTexts.{syntax_fault_text};

    ghost output = { λ fault. Some (syntax_fault_text fault) };

    fn fmt<W: fmt::Write>(&self, f: &mut fmt::Formatter<W>) -> fmt::Result {
        write!(f, "{} at octet {}", self.code, self.place)
    }
}

impl Error for SyntaxFault {}

/// The text of some items has more than 512 octets.
#[derive(Clone, Copy, Debug, PartialEq, Eq)]
pub struct TooLong;

impl fmt::Display for TooLong {
    ghost use Rattle.std.specs.Prelude.{Some};
    ghost use Rattle.dms_multi.specs.FaultTexts.{too_long_text};

    ghost output = { λ _. Some too_long_text };

    fn fmt<W: fmt::Write>(&self, f: &mut fmt::Formatter<W>) -> fmt::Result {
        f.write_str("text over 512 octets")
    }
}

impl Error for TooLong {}
