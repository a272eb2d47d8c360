//! One page of a text, laid out in place: no memory is taken.

ghost use Rattle.std.specs.Prelude.{◌≡◌, ◌+◌, ◌<◌, ◌≤◌, ◌==◌, [], length, map, true, IsTrue};
ghost use Rattle.std.specs.List.{list_any};
ghost use Rattle.dms_codes.specs.Limits.{longest_text};
ghost use Rattle.dms_multi.specs.Outcomes.{items_of};
ghost use Rattle.dms_face_font.specs.Font.{glyph_of};
ghost use Rattle.dms_face.specs.Face.{fit};
ghost use Rattle.dms_face.specs.Justification.{same_part};
ghost use Rattle.dms_face.specs.Layout.{under, blank_layout, closed, has_line_in};
ghost use Rattle.dms_face.specs.Layout.{with_character, with_line, with_page, with_part, with_item};
ghost use Rattle.dms_face_pages.specs.StylingView.{style_of};
ghost use Rattle.dms_face_rows.specs.Held.{line_of, lines_of, layout_of, page_held, is_inside, characters_in};
ghost use Rattle.dms_face_rows.specs.Held.{IsHeld, count_held, alone, page_now, page_from};
ghost use Rattle.dms_face_rows.specs.Held.{is_over, others_after};
ghost use Rattle.dms_face_rows.specs.declared.held.HeldLine.{HeldLine as HeldLineModel};

use crate::held_character::HeldCharacter;
use arrayvec::ArrayVec;
use dms_codes::MAX_TEXT;
use dms_face::{Defaults, Face, Font, Part};
use dms_face_pages::styling::Styling;
use dms_multi::{Item, items};
use std::default::MadeWith;

/// As many lines as a text has items, and the one that ends with it.
const MAX_LINES: usize = MAX_TEXT + 1;

/// Which of a page's characters are a line's, the font current at its end, the gap that its tag gives above it, and its
/// part of the page.
#[derive(Clone, Copy)]
pub(crate) struct HeldLine<'a> {
    pub font: &'a Font,
    pub first: u16,
    pub past: u16,
    pub gap: Option<u8>,
    pub part: Part,
}

impl<'a> MadeWith<Styling<'a>> for HeldLine<'a> {
    fn made_with(style: Styling<'a>) -> HeldLine<'a> {
        HeldLine {
            font: style.font,
            first: 0,
            past: 0,
            gap: None,
            part: style.part,
        }
    }
}

/// A page's characters; its lines that are closed; of the open line the place of its first character and the gap above
/// it; and what holds for all that follows.
#[derive(Drop)]
pub(crate) struct HeldPage<'a> {
    pub characters: ArrayVec<HeldCharacter<'a>, MAX_TEXT, Styling<'a>>,
    pub lines: ArrayVec<HeldLine<'a>, MAX_LINES, Styling<'a>>,
    pub first: u16,
    pub gap: Option<u8>,
    pub style: Styling<'a>,
}

impl<'a> HeldPage<'a> {
    /// A page with one open line, and nothing on it.
    pub fn blank(face: &'a Face, defaults: &Defaults) -> HeldPage<'a>
        requires { IsTrue (fit face.now.fonts defaults.now) }
        ensures layout { layout_of result ≡ blank_layout (under face.now defaults.now) }
        ensures held { IsHeld result }
        ensures count { count_held result ≡ 0 }
    {
        let style = Styling::first(face, defaults);
        HeldPage {
            characters: ArrayVec::new_in(style),
            lines: ArrayVec::new_in(style),
            first: 0,
            gap: None,
            style,
        }
    }

    /// The characters of a line.
    pub fn characters(&self, line: &HeldLine<'a>) -> &[HeldCharacter<'a>]
        requires { is_inside (length self.now.characters.items) line.now ≡ true }
        ensures { result.now ≡ characters_in self.now.characters.items line.now }
    {
        &self.characters.as_slice()[usize::from(line.first)..usize::from(line.past)]
    }

    #[tactic(auto, using(crate::proofs::HeldLaws::holding))]
    /// Puts a character on the open line, where the current font has it.
    fn add_character(&mut self, character: u16)
        requires held { IsHeld self.old }
        requires room { length self.old.characters.items < 512 }
        ensures layout { layout_of self.new
            ≡ with_character (layout_of self.old) (glyph_of self.old.style.font.now character) }
        ensures held { IsHeld self.new }
        ensures count { count_held self.new ≤ count_held self.old + 1 }
    {
        if self.style.font.glyph(character).is_some() {
            let style = self.style;
            self.characters.push(HeldCharacter { style, character });
        }
    }

    /// Closes the open line; the next one opens in the same part, with this gap above it.
    fn close_line(&mut self, gap: Option<u8>)
        requires held { IsHeld self.old }
        requires room { length self.old.lines.items ≤ 512 }
        ensures layout { layout_of self.new ≡ with_line (layout_of self.old) gap }
        ensures held { IsHeld self.new }
        ensures count { count_held self.new ≤ count_held self.old + 1 }
    {
        let past = self.characters.len() as u16;
        self.lines.push(HeldLine {
            font: self.style.font,
            first: self.first,
            past,
            gap: self.gap,
            part: self.style.part,
        });
        self.first = past;
        self.gap = gap;
    }

    /// Whether the open line has no character.
    fn is_blank(&self) -> bool
        requires { IsHeld self.now }
        ensures { result ≡ (length (layout_of self.now).characters == 0) }
    {
        usize::from(self.first) == self.characters.len()
    }

    /// Whether a line that is closed stands in the part of the open one.
    fn has_line(&self) -> bool
        ensures { result ≡ has_line_in (layout_of self.now).style.part (layout_of self.now).lines }
    {
        has_line_in(self.lines.as_slice(), self.style.part)
    }

    /// Closes the open line and its part: a part with a single line without a character has no lines.
    fn close_part(&mut self)
        requires held { IsHeld self.old }
        requires room { length self.old.lines.items ≤ 512 }
        ensures layout { layout_of self.new
            ≡ record (layout_of self.old) { lines = closed (layout_of self.old); characters = []; gap = None } }
        ensures held { IsHeld self.new }
        ensures count { count_held self.new ≤ count_held self.old + 1 }
    {
        if self.is_blank() && !self.has_line() {
            self.gap = None;
            return;
        }
        self.close_line(None);
    }

    /// The next page opens.
    fn turn_over(&mut self)
        ensures layout { layout_of self.new ≡ alone (with_page (layout_of self.old)) }
        ensures held { IsHeld self.new }
        ensures count { count_held self.new ≡ 0 }
    {
        self.characters.clear();
        self.lines.clear();
        self.first = 0;
        self.gap = None;
    }

    /// Closes the open line and its part where the part changes.
    fn change_part(&mut self, style: Styling<'a>)
        requires held { IsHeld self.old }
        requires room { length self.old.lines.items ≤ 512 }
        ensures layout { layout_of self.new ≡ with_part (layout_of self.old) (style_of style.entry) }
        ensures held { IsHeld self.new }
        ensures count { count_held self.new ≤ count_held self.old + 1 }
    {
        if style.part.is(self.style.part) {
            return;
        }
        self.close_part();
        self.style = style;
    }

    /// What an item makes of the page.
    fn add(&mut self, face: &'a Face, defaults: &Defaults, item: Item)
        requires held { IsHeld self.old }
        requires room { count_held self.old < 512 }
        ensures layout { layout_of self.new
            ≡ alone (with_item (under face.now defaults.now) (layout_of self.old) item) }
        ensures held { IsHeld self.new }
        ensures count { count_held self.new ≤ count_held self.old + 1 }
    {
        match item {
            Item::Char(character) => self.add_character(character),
            Item::NewLine(gap) => self.close_line(gap),
            Item::NewPage => self.turn_over(),
            Item::JustPage(_) => {
                let style = self.style.after(face, defaults, item);
                self.change_part(style);
            }
            _ => self.style = self.style.after(face, defaults, item),
        }
    }

    #[tactic(auto, using(crate::proofs::PageLaws::laying))]
    /// The items of a text up to the end of the page that ends after so many others.
    fn add_items(&mut self, face: &'a Face, defaults: &Defaults, text: &[u8], number: usize)
        requires short { length text.now ≤ longest_text }
        requires held { IsHeld self.old }
        requires blank { count_held self.old ≡ 0 }
        ensures page { page_now (layout_of self.new)
            ≡ page_from (under face.now defaults.now) (layout_of self.old) number (items_of text.now) }
        ensures held { IsHeld self.new }
        ensures count { count_held self.new ≤ longest_text }
    {
        let mut others = number;
        for outcome in items(text) {
            let Ok(spot) = outcome else {
                continue;
            };
            if is_over(others, spot.item) {
                return;
            }
            others = others_after(others, spot.item);
            self.add(face, defaults, spot.item);
        }
    }

    /// Lays out the page of a text with this number from 0, where nothing is held yet.
    pub fn lay_out(&mut self, face: &'a Face, defaults: &Defaults, text: &[u8], number: usize)
        requires short { length text.now ≤ longest_text }
        requires held { IsHeld self.old }
        requires blank { count_held self.old ≡ 0 }
        ensures page { page_held self.new
            ≡ page_from (under face.now defaults.now) (layout_of self.old) number (items_of text.now) }
        ensures held { IsHeld self.new }
    {
        self.add_items(face, defaults, text, number);
        self.close_part();
    }
}

/// Whether one of these lines stands in this part of the page.
fn has_line_in(lines: &[HeldLine<'_>], part: Part) -> bool
    ensures { result ≡ list_any (λ (line : HeldLineModel). same_part line.part part) lines.now }
{
    lines.iter().any(|line| line.part.is(part))
}

/// Whether an item ends the page, with no other to end before it.
fn is_over(others: usize, item: Item) -> bool
    ensures { result ≡ is_over others item }
{
    others == 0 && matches!(item, Item::NewPage)
}

/// The others that are left after an item.
fn others_after(others: usize, item: Item) -> usize
    ensures { result ≡ others_after others item }
{
    match item {
        Item::NewPage => others.saturating_sub(1),
        _ => others,
    }
}
