//! A character of a page that is laid out in place.

ghost use Rattle.std.specs.Prelude.{◌≡◌, unwrap_or};
ghost use Rattle.std.specs.Option.{option_copied};
ghost use Rattle.dms_face_pages.specs.StylingView.{style_of};
ghost use Rattle.dms_face_rows.specs.NoGlyph.{no_glyph};

use dms_face::Glyph;
use dms_face_pages::styling::Styling;
use std::default::MadeWith;
use std::marker::Model;

/// A character by its number, and what holds for it.
#[derive(Drop)]
pub(crate) struct HeldCharacter<'a> {
    pub style: Styling<'a>,
    pub character: u16,
}

impl<'a> Model for HeldCharacter<'a> {
    ghost use Rattle.std.specs.Prelude.{unwrap_or};
    ghost use Rattle.dms_face_font.specs.Font.{glyph_of};
    ghost use Rattle.dms_face.specs.Layout.{Character};
    ghost use Rattle.dms_face_pages.specs.StylingView.{style_of};
    ghost use Rattle.dms_face_rows.specs.NoGlyph.{no_glyph};

    ghost Value = { Character };

    ghost view = { λ c. record {
      glyph = unwrap_or (glyph_of c.style.font.now c.character) no_glyph;
      style = style_of c.style;
    } };
}

impl<'a> MadeWith<Styling<'a>> for HeldCharacter<'a> {
    fn made_with(style: Styling<'a>) -> HeldCharacter<'a> {
        HeldCharacter {
            style,
            character: 0,
        }
    }
}

impl HeldCharacter<'_> {
    /// Its picture, where its font has it.
    pub fn glyph(&self) -> Option<&Glyph>
        ensures { unwrap_or (option_copied result) no_glyph ≡ self.now.glyph }
    {
        self.style.font.glyph(self.character)
    }
}
