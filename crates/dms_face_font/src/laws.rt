//! Laws of fonts, each the contract of a function that does nothing.

ghost use Rattle.dms_face_font.specs.Font.{IsFont};

use crate::font::Font;

/// Every font is within its limits: its numbers are in their ranges, and it has at most 255 characters, each once.
pub fn fonts_are_within_their_limits(font: &Font)
    ensures { IsFont font.now }
{
    let _ = &font.glyphs;
}
