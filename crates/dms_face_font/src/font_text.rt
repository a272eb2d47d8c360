//! Fonts as text: a line `font N height H space C line L version V`, then a line `glyph CHARACTER WIDTH BITS` for each
//! character.

ghost use Rattle.std.specs.Prelude.{◌≡◌, ◌+◌, ◌*◌, ◌/◌, ◌≤◌, ◌⊎◌, length, option_map, IfSome, IfOk, IfErr, OnOk, OnErr};
ghost use Rattle.dms_text.specs.Lines.{lines_left};
ghost use Rattle.dms_text.specs.Words.{words_of};
ghost use Rattle.dms_face_font.specs.Glyph.{glyph_from, IsPicture};
ghost use Rattle.dms_face_font.specs.Font.{FontModel};
ghost use Rattle.dms_face_font.specs.FontText.{SpellsFont};
ghost use Rattle.dms_face_font.specs.FontReading.{labelled_at, version_at, header_of, glyph_words, are_enough};
ghost use Rattle.dms_face_font.specs.FontReading.{bitmap_read};
ghost use Rattle.dms_face_font.specs.FontReading.{glyph_read, glyph_added, glyphs_added, font_read, fault, placed};
ghost use Rattle.dms_face_font.specs.FontView.{glyph_line, GivesOrMemory, ReadsOrMemory};

use crate::fault::{FontFault, FontFaultKind};
use crate::font::{Font, MAX_GLYPHS, no_widths, set_place, set_width};
use crate::glyph::Glyph;
use dms_text::{Lines, Words, octets, version};
use std::alloc::Global;

/// What a character's line says.
#[derive(Clone, Copy)]
pub(crate) struct GlyphLine<'a> {
    pub character: u16,
    pub width: u8,
    pub bits: &'a [u8],
}

/// The number after this label, from `low` to `high`, and the words after it.
#[tactic(auto, unfolding(crate::specs::FontReading::labelled_at))]
fn labelled<'a>(words: Words<'a>, label: &[u8], low: u8, high: u8) -> Option<(u8, Words<'a>)>
    ensures value { result ≡ labelled_at label.now low high words.entry }
    ensures least { IfSome result (λ x. low ≤ x.0) }
    ensures greatest { IfSome result (λ x. x.0 ≤ high) }
{
    words.keyword(label)?.octet(5, low, high)
}

#[tactic(auto, unfolding(crate::specs::FontReading::version_at))]
fn last_version(words: Words<'_>) -> Option<u16>
    ensures { result ≡ version_at words.entry }
{
    let (word, rest) = words.keyword(b"version")?.next_word()?;
    if rest.is_empty() { version(word) } else { None }
}

#[tactic(auto, unfolding(crate::specs::FontReading::glyph_words))]
fn glyph_line(line: &[u8]) -> Option<GlyphLine<'_>>
    ensures words { option_map glyph_line result ≡ glyph_words (words_of line.now) }
    ensures character { IfSome result (λ said. 1 ≤ said.character) }
    ensures least_width { IfSome result (λ said. 1 ≤ said.width) }
    ensures greatest_width { IfSome result (λ said. said.width ≤ 32) }
{
    let words = Words::of(line).keyword(b"glyph")?;
    let (character, words) = words.two_octets(5, 1, u16::MAX)?;
    let (width, words) = words.octet(5, 1, 32)?;
    let (bits, words) = words.next_word()?;
    if words.is_empty() {
        Some(GlyphLine {
            character,
            width,
            bits,
        })
    } else {
        None
    }
}

/// The octets of a picture.
#[tactic(auto, unfolding(crate::specs::FontReading::bitmap_of))]
fn bitmap(alloc: Global, width: u8, height: u8, word: &[u8]) -> Result<Vec<u8>, FontFaultKind>
    ensures read { GivesOrMemory (λ bits. bits.items) result (bitmap_read width height word.now) }
    ensures enough { IfOk result (λ bits. length bits.items ≡ (width * height + 7) / 8) }
{
    match octets(alloc, word) {
        Ok(Some(bits)) if are_enough(width, height, bits.as_slice()) => Ok(bits),
        Ok(_) => Err(FontFaultKind::Bitmap),
        Err(_) => Err(FontFaultKind::Memory),
    }
}

fn are_enough(width: u8, height: u8, bits: &[u8]) -> bool
    ensures { result ≡ are_enough width height bits.now }
{
    bits.len() == (width as usize * height as usize + 7) / 8
}

/// What the line of a character says in a font of this height, and the octets of its picture.
#[tactic(auto, unfolding(crate::specs::FontReading::glyph_read))]
fn glyph(alloc: Global, height: u8, line: &[u8]) -> Result<(GlyphLine<'_>, Vec<u8>), FontFaultKind>
    requires least { 1 ≤ height }
    requires greatest { height ≤ 32 }
    ensures read { GivesOrMemory (λ x. glyph_from x.0.character x.0.width height x.1.items) result
        (glyph_read height line.now) }
    ensures picture { IfOk result (λ x. IsPicture x.0.character x.0.width height x.1.items) }
{
    let Some(said) = glyph_line(line) else {
        return Err(FontFaultKind::Glyph);
    };
    let bits = bitmap(alloc, said.width, height, said.bits)?;
    Ok((said, bits))
}

fn fault_at(kind: FontFaultKind, line: usize) -> FontFault
    ensures { result ≡ placed kind line }
{
    match kind {
        FontFaultKind::Memory => FontFault { kind, line: 0 },
        _ => FontFault { kind, line },
    }
}

impl Font {
    /// The font that a text spells, or the first fault and its line. The text has a line
    /// `font N height H space C line L version V` and a line `glyph CHARACTER WIDTH BITS` for each character; empty
    /// lines, and lines that begin with `#`, are skipped.
    pub fn from_text(alloc: Global, text: &[u8]) -> Result<Font, FontFault>
        ensures found { IfOk result (λ (font : FontModel). SpellsFont text.now font) }
        ensures only { (font : FontModel) → SpellsFont text.now font
            → (result ≡ Ok font) ⊎ (result ≡ Err (fault FontFaultKind.Memory 0)) }
        ensures none { IfErr result (λ f. (f ≡ fault FontFaultKind.Memory 0)
            ⊎ ((font : FontModel) → SpellsFont text.now font → ⊥)) }
        ensures kind_and_line { ReadsOrMemory result (font_read text.now) }
    {
        read(alloc, text)
    }

    /// The font, as yet without characters, of a line `font N height H space C line L version V`.
    #[tactic(auto, unfolding(crate::specs::FontReading::header_of))]
    pub fn from_header(alloc: Global, line: &[u8]) -> Option<Font>
        ensures { result ≡ header_of (words_of line.now) }
    {
        let (number, words) = labelled(Words::of(line), b"font", 1, 255)?;
        let (height, words) = labelled(words, b"height", 1, 32)?;
        let (character_spacing, words) = labelled(words, b"space", 0, 32)?;
        let (line_spacing, words) = labelled(words, b"line", 0, 32)?;
        let version = last_version(words)?;
        Some(Font {
            number,
            height,
            character_spacing,
            line_spacing,
            version,
            glyphs: Vec::new(alloc),
            places: [0; 256],
            plain: no_widths(),
        })
    }

    /// Adds the character of a line `glyph CHARACTER WIDTH BITS`.
    #[tactic(auto, unfolding(crate::specs::FontReading::glyph_added))]
    pub fn add_glyph(&mut self, alloc: Global, line: &[u8]) -> Result<(), FontFaultKind>
        ensures ok { OnOk result (glyph_added self.old line.now ≡ Ok self.new) }
        ensures err { IfErr result (λ kind. (kind ≡ FontFaultKind.Memory)
            ⊎ (glyph_added self.old line.now ≡ Err kind)) }
        ensures same { OnErr result (self.new ≡ self.old) }
    {
        let (said, bits) = glyph(alloc, self.height, line)?;
        let GlyphLine {
            character,
            width,
            ..
        } = said;
        if self.has(character) {
            return Err(FontFaultKind::Twice);
        }
        if self.glyphs.len() >= MAX_GLYPHS {
            return Err(FontFaultKind::TooMany);
        }
        let place = self.glyphs.len() as u8;
        let glyph = Glyph::new(character, width, self.height, bits);
        match self.glyphs.push(glyph) {
            Ok(()) => {
                set_place(&mut self.places, character, place);
                set_width(&mut self.plain, character, width);
                Ok(())
            }
            Err(_) => Err(FontFaultKind::Memory),
        }
    }
}

/// The font with the characters of the lines that are left.
#[tactic(auto, unfolding(crate::specs::FontReading::glyphs_added))]
fn with_glyphs(alloc: Global, font: Font, lines: Lines<'_>) -> Result<Font, FontFault>
    ensures { ReadsOrMemory result (glyphs_added font (lines_left lines.entry)) }
{
    let mut font = font;
    let mut lines = lines;
    while let Some(line) = lines.next_line() {
        match font.add_glyph(alloc, line.octets) {
            Ok(()) => {}
            Err(kind) => return Err(fault_at(kind, line.number)),
        }
    }
    Ok(font)
}

#[tactic(auto, unfolding(crate::specs::FontReading::font_read))]
fn read(alloc: Global, text: &[u8]) -> Result<Font, FontFault>
    ensures { ReadsOrMemory result (font_read text.now) }
{
    let mut lines = Lines::of(text);
    let Some(first) = lines.next_line() else {
        return Err(fault_at(FontFaultKind::Header, lines.number()));
    };
    match Font::from_header(alloc, first.octets) {
        Some(font) => with_glyphs(alloc, font, lines),
        None => Err(fault_at(FontFaultKind::Header, first.number)),
    }
}
