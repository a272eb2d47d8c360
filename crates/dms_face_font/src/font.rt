//! Fonts.

ghost use Rattle.std.specs.Prelude.{◌≡◌, ◌≤◌, ◌++◌, ◌∷◌, ◌&&◌, [], List, true, false, not, nat_lt, Some, IfSome};
ghost use Rattle.std.specs.Option.{option_copied};
ghost use Rattle.dms_face_font.specs.Glyph.{GlyphModel};
ghost use Rattle.dms_face_font.specs.Font.{glyph_in, glyph_of, has_glyph, are_distinct};
ghost use Rattle.dms_face_font.specs.Widths.{is_bracket, plain_width, AreWidths};

use crate::glyph::Glyph;
use std::marker::Model;

/// The most characters of a font.
pub const MAX_GLYPHS: usize = 255;

/// What stands in place of a width where there is none: it is above every width.
const NO_WIDTH: u16 = u16::MAX;

/// A font: its number and height, the columns between two characters, the rows between two lines, its version, and its
/// characters, at most 255.
#[derive(Debug, Drop)]
pub struct Font {
    pub(crate) number: u8,
    pub(crate) height: u8,
    pub(crate) character_spacing: u8,
    pub(crate) line_spacing: u8,
    pub(crate) version: u16,
    pub(crate) glyphs: Vec<Glyph>,
    /// For each character below 256 that has a picture, its place among the characters: a hint, which is verified.
    pub(crate) places: [u8; 256],
    /// For each octet that spells a character by itself the columns of its picture, else `NO_WIDTH`.
    pub(crate) plain: [u16; 256],
}

impl Model for Font {
    ghost use Rattle.dms_face_font.specs.Font.{FontModel};
    ghost use Rattle.dms_face_font.specs.Widths.{IsKept};

    ghost Value = { FontModel };

    ghost view = { λ f. record {
      number = f.number;
      height = f.height;
      character_spacing = f.character_spacing;
      line_spacing = f.line_spacing;
      version = f.version;
      glyphs = f.glyphs.items;
    } };

    ghost invariant = { λ f. IsKept (record {
      number = f.number;
      height = f.height;
      character_spacing = f.character_spacing;
      line_spacing = f.line_spacing;
      version = f.version;
      glyphs = f.glyphs.items;
    }) f.plain };
}

impl Font {
    /// The font's number, 1 to 255.
    pub fn number(&self) -> u8
        ensures value { result ≡ self.now.number }
        ensures least { 1 ≤ result }
    {
        self.number
    }

    /// The rows of each picture, 1 to 32.
    pub fn height(&self) -> u8
        ensures value { result ≡ self.now.height }
        ensures least { 1 ≤ result }
        ensures greatest { result ≤ 32 }
    {
        self.height
    }

    /// The columns between two characters, 0 to 32.
    pub fn character_spacing(&self) -> u8
        ensures value { result ≡ self.now.character_spacing }
        ensures greatest { result ≤ 32 }
    {
        self.character_spacing
    }

    /// The rows between two lines, 0 to 32.
    pub fn line_spacing(&self) -> u8
        ensures value { result ≡ self.now.line_spacing }
        ensures greatest { result ≤ 32 }
    {
        self.line_spacing
    }

    /// The font's version, which a text may ask for.
    pub fn version(&self) -> u16
        ensures { result ≡ self.now.version }
    {
        self.version
    }

    /// The picture of a character, where the font has one.
    #[inline]
    pub fn glyph(&self, character: u16) -> Option<&Glyph>
        ensures { option_copied result ≡ glyph_of self.now character }
    {
        let glyphs = self.glyphs();
        match hinted_glyph(glyphs, &self.places, character) {
            Some(glyph) => Some(glyph),
            None => find_glyph(glyphs, character),
        }
    }

    /// The columns of the character that an octet spells by itself, 1 to 32; `u16::MAX` where the font has none for it,
    /// and of the brackets, which spell none by themselves.
    #[inline(always)]
    pub fn plain_width(&self, octet: u8) -> u16
        ensures { result ≡ plain_width self.now.glyphs octet }
    {
        self.plain[usize::from(octet)]
    }

    /// Whether the font has a picture of a character.
    #[tactic(auto, using(crate::proofs::WidthLaws::tables))]
    pub(crate) fn has(&self, character: u16) -> bool
        ensures { result ≡ has_glyph self.now.glyphs character }
    {
        if is_plain(character) {
            return self.plain[usize::from(character)] != NO_WIDTH;
        }
        has_glyph(self.glyphs(), character)
    }

    /// The font's characters, in the order of their lines.
    pub fn glyphs(&self) -> &[Glyph]
        ensures { result.now ≡ self.now.glyphs }
    {
        self.glyphs.as_slice()
    }
}

/// Notes the place of a character below 256.
pub(crate) fn set_place(places: &mut [u8; 256], character: u16, place: u8) {
    if let Some(hint) = places.get_mut(usize::from(character)) {
        *hint = place;
    }
}

/// Whether an octet spells a character by itself: it does but for the brackets.
fn is_plain(character: u16) -> bool
    ensures { result ≡ (nat_lt character 256 && not (is_bracket character)) }
{
    character < 256 && character != u16::from(b'[') && character != u16::from(b']')
}

/// What octets take where a font has no character yet.
#[tactic(auto, using(crate::proofs::WidthLaws::tables))]
pub(crate) fn no_widths() -> [u16; 256]
    ensures { AreWidths result [] }
{
    [NO_WIDTH; 256]
}

/// Notes the columns of a character that the font had not, if an octet spells it by itself.
pub(crate) fn set_width(widths: &mut [u16; 256], character: u16, width: u8)
    ensures { (glyphs : List GlyphModel) (glyph : GlyphModel) → AreWidths widths.old glyphs
        → glyph.character ≡ character → glyph.width ≡ width → has_glyph glyphs character ≡ false
        → AreWidths widths.new (glyphs ++ glyph ∷ []) }
{
    if is_plain(character) {
        widths[usize::from(character)] = u16::from(width);
    }
}

/// The picture of a character, where the hint leads to it.
#[tactic(auto, using(crate::proofs::GlyphSearch::hints))]
#[inline]
fn hinted_glyph<'a>(glyphs: &'a [Glyph], places: &[u8; 256], character: u16) -> Option<&'a Glyph>
    requires { are_distinct glyphs.now ≡ true }
    ensures { IfSome result (λ glyph. glyph_in glyphs.now character ≡ Some glyph.now) }
{
    let place = *places.get(usize::from(character))?;
    let glyph = glyphs.get(usize::from(place))?;
    if glyph.character() == character {
        Some(glyph)
    } else {
        None
    }
}

/// The picture of a character among these.
pub(crate) fn find_glyph(glyphs: &[Glyph], character: u16) -> Option<&Glyph>
    ensures { option_copied result ≡ glyph_in glyphs.now character }
{
    glyphs.iter().find(|glyph| glyph.character() == character)
}

fn has_glyph(glyphs: &[Glyph], character: u16) -> bool
    ensures { result ≡ has_glyph glyphs.now character }
{
    glyphs.iter().any(|glyph| glyph.character() == character)
}
