//! What is wrong with the text of a font.

use std::error::Error;
use std::fmt;

/// The rule of a font's text that a line breaks, or out of memory.
#[derive(Clone, Copy, Debug, PartialEq, Eq)]
pub enum FontFaultKind {
    /// The first line is no header of a font, or there is none.
    Header = 1,
    /// No line of a character, or a number out of its range.
    Glyph = 2,
    /// Bits that are not hexadecimal, or not as many octets as the picture takes.
    Bitmap = 3,
    /// A second picture of a character.
    Twice = 4,
    /// A 256th character.
    TooMany = 5,
    /// Out of memory for the font.
    Memory = 6,
}

impl FontFaultKind {
    ghost use Rattle.std.specs.Prelude.{◌≡◌};
    ghost use Rattle.dms_face_font.specs.Fault.{kind_number};

    /// The number that stands for it, 1 to 6 (this profile).
    pub fn number(self) -> u8
        ensures { result ≡ kind_number self }
    {
        self as u8
    }
}

impl fmt::Display for FontFaultKind {
    ghost use Rattle.std.specs.Prelude.{Some};
    ghost use Rattle.dms_face_font.specs.FaultTexts.{kind_text};

    ghost output = { λ kind. Some (kind_text kind) };

    fn fmt<W: fmt::Write>(&self, f: &mut fmt::Formatter<W>) -> fmt::Result {
        let text = match self {
            FontFaultKind::Header => "no header of a font",
            FontFaultKind::Glyph => "no line of a character",
            FontFaultKind::Bitmap => "bits that do not fit the picture",
            FontFaultKind::Twice => "a character for the second time",
            FontFaultKind::TooMany => "more than 255 characters",
            FontFaultKind::Memory => "out of memory",
        };
        f.write_str(text)
    }
}

/// The fault of a font's text, and its line.
#[derive(Clone, Copy, Debug, PartialEq, Eq)]
pub struct FontFault {
    /// The rule that is broken.
    pub kind: FontFaultKind,
    /// The number of its line, from 1: 0 where there is no memory.
    pub line: usize,
}

impl fmt::Display for FontFault {
    ghost use Rattle.std.specs.Prelude.{Some};
    ghost use Rattle.dms_face_font.specs.FaultTexts.{font_fault_text};

    ghost output = { λ fault. Some (font_fault_text fault) };

    fn fmt<W: fmt::Write>(&self, f: &mut fmt::Formatter<W>) -> fmt::Result {
        write!(f, "{} at line {}", self.kind, self.line)
    }
}

impl Error for FontFault {}
