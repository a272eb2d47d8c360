//! Why a text can not be shown.

use dms_codes::MAX_TEXT;
use dms_multi::{FaultCode, SyntaxFault};
use std::error::Error;
use std::fmt;

/// What is wrong with a text: the values of dmsMultiSyntaxError.
#[derive(Clone, Copy, Debug, PartialEq, Eq)]
pub enum MultiFaultCode {
    /// A fault that has no other value here.
    Other,
    /// No fault.
    None,
    /// No tag of this name, a tag that is not closed, or a single closing bracket.
    UnsupportedTag,
    /// A tag with a value that is not taken.
    UnsupportedTagValue,
    /// No room for the text: more octets than a text may have, or more columns or rows than the matrix has free.
    TextTooBig,
    /// No font of this number.
    FontNotDefined,
    /// No such character in the font.
    CharacterNotDefined,
    /// A justification that goes back.
    TagConflict,
    /// A seventh page.
    TooManyPages,
    /// The font has another version.
    FontVersionId,
}

impl MultiFaultCode {
    ghost use Rattle.std.specs.Prelude.{◌≡◌};
    ghost use Rattle.dms_face.specs.FaultCode.{number_of_code};

    /// The code's number in dmsMultiSyntaxError.
    pub fn number(self) -> u8
        ensures { result ≡ number_of_code self }
    {
        match self {
            MultiFaultCode::Other => 1,
            MultiFaultCode::None => 2,
            MultiFaultCode::UnsupportedTag => 3,
            MultiFaultCode::UnsupportedTagValue => 4,
            MultiFaultCode::TextTooBig => 5,
            MultiFaultCode::FontNotDefined => 6,
            MultiFaultCode::CharacterNotDefined => 7,
            MultiFaultCode::TagConflict => 11,
            MultiFaultCode::TooManyPages => 12,
            MultiFaultCode::FontVersionId => 13,
        }
    }
}

impl fmt::Display for MultiFaultCode {
    ghost use Rattle.std.specs.Prelude.{Some};
    ghost use Rattle.dms_face.specs.FaultTexts.{code_text};

    ghost output = { λ code. Some (code_text code) };

    fn fmt<W: fmt::Write>(&self, f: &mut fmt::Formatter<W>) -> fmt::Result {
        let text = match self {
            MultiFaultCode::Other => "other fault",
            MultiFaultCode::None => "no fault",
            MultiFaultCode::UnsupportedTag => "unsupported tag",
            MultiFaultCode::UnsupportedTagValue => "unsupported tag value",
            MultiFaultCode::TextTooBig => "text too big",
            MultiFaultCode::FontNotDefined => "font not defined",
            MultiFaultCode::CharacterNotDefined => "character not defined",
            MultiFaultCode::TagConflict => "tag conflict",
            MultiFaultCode::TooManyPages => "too many pages",
            MultiFaultCode::FontVersionId => "another version of the font",
        };
        f.write_str(text)
    }
}

/// Why a text can not be shown, and where: dmsMultiSyntaxError and dmsMultiSyntaxErrorPosition.
#[derive(Clone, Copy, Debug, PartialEq, Eq)]
pub struct MultiFault {
    /// What is wrong.
    pub code: MultiFaultCode,
    /// The offset in octets, from 0, of what is wrong: the text's length where its end is.
    pub place: usize,
}

impl MultiFault {
    /// The fault of a text of more than `MAX_TEXT` octets.
    pub const TOO_LONG: MultiFault = MultiFault {
        code: MultiFaultCode::TextTooBig,
        place: MAX_TEXT,
    };
}

impl fmt::Display for MultiFault {
    ghost use Rattle.std.specs.Prelude.{Some};
    ghost use Rattle.dms_face.specs.FaultTexts.{multi_fault_text};

    ghost output = { λ fault. Some (multi_fault_text fault) };

    fn fmt<W: fmt::Write>(&self, f: &mut fmt::Formatter<W>) -> fmt::Result {
        write!(f, "{} at octet {}", self.code, self.place)
    }
}

impl Error for MultiFault {}

ghost use Rattle.std.specs.Prelude.{◌≡◌};
ghost use Rattle.dms_face.specs.FaultCode.{code_of_syntax, syntax_fault};

fn code_of_syntax(code: FaultCode) -> MultiFaultCode
    ensures { result ≡ code_of_syntax code }
{
    match code {
        FaultCode::UnsupportedTag => MultiFaultCode::UnsupportedTag,
        FaultCode::UnsupportedTagValue => MultiFaultCode::UnsupportedTagValue,
    }
}

impl From<SyntaxFault> for MultiFault {
    ghost from_gives = { λ fault made. made ≡ syntax_fault fault };

    fn from(fault: SyntaxFault) -> MultiFault {
        MultiFault {
            code: code_of_syntax(fault.code),
            place: fault.place,
        }
    }
}
