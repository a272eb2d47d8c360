//! Pages of lines of characters, as the items of a text make them one by one.

ghost use Rattle.std.specs.Prelude.{◌≡◌, ℕ, Option, [], IsTrue, OnOk};
ghost use Rattle.dms_face_font.specs.Font.{FontModel, glyph_of};
ghost use Rattle.dms_face.specs.declared.justification.Part.{Part as PartModel};
ghost use Rattle.dms_face.specs.Face.{fit};
ghost use Rattle.dms_face.specs.Layout.{under, blank_layout, closed, has_line_in};
ghost use Rattle.dms_face.specs.Layout.{with_character, with_line, with_page, with_part, with_item};
ghost use Rattle.dms_face.specs.Room.{line_height, greatest};
ghost use Rattle.dms_face_pages.specs.StylingView.{style_of};

use crate::styling::Styling;
use dms_face::{Defaults, Face, Font, Glyph, Part};
use dms_multi::Item;
use std::alloc::{AllocError, Global};
use std::marker::Model;
use std::mem;

/// For how many characters of a line there is room from its first one on: most lines have no more.
const ROOM_OF_A_LINE: usize = 32;

/// A character's picture, and what holds for it.
#[derive(Drop)]
pub(crate) struct StyledGlyph<'a> {
    pub glyph: &'a Glyph,
    pub style: Styling<'a>,
}

impl<'a> Model for StyledGlyph<'a> {
    ghost use Rattle.dms_face.specs.Layout.{Character};

    ghost Value = { Character };

    ghost use Rattle.dms_face_pages.specs.StylingView.{style_of};

    ghost view = { λ c. record { glyph = c.glyph.now; style = style_of c.style } };
}

/// A line's characters, its part of the page, the font current at its end, and the gap that its tag gives above it.
#[derive(Drop)]
pub(crate) struct TextLine<'a> {
    pub characters: Vec<StyledGlyph<'a>>,
    pub part: Part,
    pub font: &'a Font,
    pub gap: Option<u8>,
    /// The greatest height and the greatest line spacing of its fonts, taken once.
    height: u8,
    spacing: u8,
}

impl<'a> Model for TextLine<'a> {
    ghost use Rattle.dms_face.specs.Layout.{Line};
    ghost use Rattle.dms_face_pages.specs.StylingView.{IsMeasured};

    ghost Value = { Line };

    ghost view = { λ l. record { characters = l.characters.items; part = l.part; font = l.font.now; gap = l.gap } };

    ghost invariant = { λ l. IsMeasured l.height l.spacing
        (record { characters = l.characters.items; part = l.part; font = l.font.now; gap = l.gap }) };
}

impl<'a> TextLine<'a> {
    /// A line of these characters.
    fn of(
        characters: Vec<StyledGlyph<'a>>,
        part: Part,
        font: &'a Font,
        gap: Option<u8>,
    ) -> TextLine<'a>
        ensures { result ≡ record { characters = characters.entry.items; part = part; font = font.now; gap = gap } }
    {
        let height = greatest_height(characters.as_slice(), font);
        let spacing = greatest_spacing(characters.as_slice(), font);
        TextLine {
            characters,
            part,
            font,
            gap,
            height,
            spacing,
        }
    }

    /// The greatest height of the line's fonts.
    pub fn height(&self) -> u8
        ensures { result ≡ line_height self.now }
    {
        self.height
    }

    /// The greatest line spacing of the line's fonts.
    pub fn spacing(&self) -> u8
        ensures { result ≡ greatest (λ (font : FontModel). font.line_spacing) self.now }
    {
        self.spacing
    }
}

/// The greatest height of the fonts of a line with these characters, at whose end this font is current.
fn greatest_height(characters: &[StyledGlyph<'_>], font: &Font) -> u8
    ensures { (part : PartModel) (gap : Option ℕ) → result ≡ line_height
        (record { characters = characters.now; part = part; font = font.now; gap = gap }) }
{
    if characters.is_empty() {
        return font.height();
    }
    let heights = characters.iter().map(|it| it.style.font.height());
    heights.fold(0, |greatest, height| greatest.max(height))
}

/// The greatest line spacing of the fonts of a line with these characters, at whose end this font is current.
fn greatest_spacing(characters: &[StyledGlyph<'_>], font: &Font) -> u8
    ensures { (part : PartModel) (gap : Option ℕ) → result ≡ greatest (λ (font : FontModel). font.line_spacing)
        (record { characters = characters.now; part = part; font = font.now; gap = gap }) }
{
    if characters.is_empty() {
        return font.line_spacing();
    }
    let spacings = characters.iter().map(|it| it.style.font.line_spacing());
    spacings.fold(0, |greatest, spacing| greatest.max(spacing))
}

/// A page's lines, its background and its times.
#[derive(Drop)]
pub(crate) struct TextPage<'a> {
    pub lines: Vec<TextLine<'a>>,
    pub background: u8,
    pub on: u8,
    pub off: u8,
}

impl<'a> Model for TextPage<'a> {
    ghost use Rattle.dms_face.specs.Layout.{PageModel};

    ghost Value = { PageModel };

    ghost view = { λ p. record { lines = p.lines.items; background = p.background; on = p.on; off = p.off } };
}

/// The pages that are closed; of the open page the lines that are closed; of the open line the characters and the gap
/// above it; and what holds for all that follows.
#[derive(Drop)]
pub(crate) struct TextLayout<'a> {
    pages: Vec<TextPage<'a>>,
    lines: Vec<TextLine<'a>>,
    characters: Vec<StyledGlyph<'a>>,
    gap: Option<u8>,
    style: Styling<'a>,
}

impl<'a> Model for TextLayout<'a> {
    ghost use Rattle.dms_face.specs.Layout.{Layout};

    ghost Value = { Layout };

    ghost use Rattle.dms_face_pages.specs.StylingView.{style_of};

    ghost view = { λ l. record {
      pages = l.pages.items;
      lines = l.lines.items;
      characters = l.characters.items;
      gap = l.gap;
      style = style_of l.style;
    } };
}

impl<'a> TextLayout<'a> {
    /// A page with one open line, and nothing on it.
    pub fn blank(alloc: Global, face: &'a Face, defaults: &Defaults) -> TextLayout<'a>
        requires { IsTrue (fit face.now.fonts defaults.now) }
        ensures { result ≡ blank_layout (under face.now defaults.now) }
    {
        TextLayout {
            pages: Vec::new(alloc),
            lines: Vec::new(alloc),
            characters: Vec::new(alloc),
            gap: None,
            style: Styling::first(face, defaults),
        }
    }

    /// The pages that are closed.
    pub fn into_pages(self) -> Vec<TextPage<'a>>
        ensures { result.items ≡ self.entry.pages }
    {
        self.pages
    }

    /// Puts a character on the open line, where the current font has it.
    fn add_character(&mut self, character: u16) -> Result<(), AllocError>
        ensures { OnOk result (self.new ≡ with_character self.old (glyph_of self.old.style.font character)) }
    {
        let font = self.style.font;
        if let Some(glyph) = font.glyph(character) {
            if self.characters.is_empty() {
                self.characters.reserve(ROOM_OF_A_LINE)?;
            }
            self.characters.push(StyledGlyph {
                glyph,
                style: self.style,
            })?;
        }
        Ok(())
    }

    /// Closes the open line; the next one opens in the same part, with this gap above it.
    fn close_line(&mut self, alloc: Global, gap: Option<u8>) -> Result<(), AllocError>
        ensures { OnOk result (self.new ≡ with_line self.old gap) }
    {
        let characters = mem::replace(&mut self.characters, Vec::new(alloc));
        let line = TextLine::of(characters, self.style.part, self.style.font, self.gap);
        self.gap = gap;
        self.lines.push(line)?;
        Ok(())
    }

    /// Closes the open line and its part: a part with a single line without a character has no lines.
    fn close_part(&mut self, alloc: Global) -> Result<(), AllocError>
        ensures { OnOk result (self.new ≡ record self.old { lines = closed self.old; characters = []; gap = None }) }
    {
        if self.characters.is_empty() && !has_line_in(self.lines.as_slice(), self.style.part) {
            self.gap = None;
            return Ok(());
        }
        self.close_line(alloc, None)
    }

    /// Closes the open line, its part and the page, and opens the next page.
    pub fn close_page(&mut self, alloc: Global) -> Result<(), AllocError>
        ensures { OnOk result (self.new ≡ with_page self.old) }
    {
        self.close_part(alloc)?;
        let page = TextPage {
            lines: mem::replace(&mut self.lines, Vec::new(alloc)),
            background: self.style.background,
            on: self.style.on,
            off: self.style.off,
        };
        self.pages.push(page)?;
        Ok(())
    }

    /// Closes the open line and its part where the part changes.
    fn change_part(&mut self, alloc: Global, style: Styling<'a>) -> Result<(), AllocError>
        ensures { OnOk result (self.new ≡ with_part self.old (style_of style.entry)) }
    {
        if style.part.is(self.style.part) {
            return Ok(());
        }
        self.close_part(alloc)?;
        self.style = style;
        Ok(())
    }

    /// What an item makes of the layout.
    pub fn add(
        &mut self,
        alloc: Global,
        face: &'a Face,
        defaults: &Defaults,
        item: Item,
    ) -> Result<(), AllocError>
        ensures { OnOk result (self.new ≡ with_item (under face.now defaults.now) self.old item) }
    {
        match item {
            Item::Char(character) => self.add_character(character),
            Item::NewLine(gap) => self.close_line(alloc, gap),
            Item::NewPage => self.close_page(alloc),
            Item::JustPage(_) => {
                let style = self.style.after(face, defaults, item);
                self.change_part(alloc, style)
            }
            _ => {
                self.style = self.style.after(face, defaults, item);
                Ok(())
            }
        }
    }
}

/// Whether a line stands in this part of the page.
fn has_line_in(lines: &[TextLine<'_>], part: Part) -> bool
    ensures { result ≡ has_line_in part lines.now }
{
    lines.iter().any(|line| line.part.is(part))
}
