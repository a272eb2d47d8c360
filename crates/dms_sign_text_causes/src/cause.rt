//! Why a line of a description is refused.

use crate::sign_causes::SignCause;
use dms_face_font::FontFaultKind;
use dms_text_forms::WordFault;
use std::fmt;

/// Why a line of a description is refused.
#[derive(Clone, Copy, Debug, PartialEq, Eq)]
pub enum LineCause {
    /// A word of it is not what is wanted there.
    Word(WordFault),
    /// The text ends before the line `end`.
    NoEnd,
    /// It begins with no word that may stand here.
    Keyword,
    /// It is a permanent row, and stands after a font.
    RowAfterFont,
    /// It is a character, and no font stands before it.
    GlyphBeforeFont,
    /// It is a character that the font before it does not take.
    Glyph(FontFaultKind),
    /// It stands after the line `end`.
    AfterEnd,
    /// It ends a sign that can not be made.
    Sign(SignCause),
}

impl fmt::Display for LineCause {
    ghost use Rattle.std.specs.Prelude.{Some};
    ghost use Rattle.dms_sign_text_causes.specs.Texts.{cause_text};

    ghost output = { λ cause. Some (cause_text cause) };

    fn fmt<W: fmt::Write>(&self, f: &mut fmt::Formatter<W>) -> fmt::Result {
        match self {
            LineCause::Word(fault) => write!(f, "{fault}"),
            LineCause::NoEnd => f.write_str("the text ends before its line `end`"),
            LineCause::Keyword => f.write_str("a row, a font, a character or `end` is wanted"),
            LineCause::RowAfterFont => f.write_str("a permanent row stands before all fonts"),
            LineCause::GlyphBeforeFont => f.write_str("a character stands after its font"),
            LineCause::Glyph(kind) => write!(f, "{kind}"),
            LineCause::AfterEnd => f.write_str("no line may stand after `end`"),
            LineCause::Sign(cause) => write!(f, "{cause}"),
        }
    }
}
