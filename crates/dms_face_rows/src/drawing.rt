//! Drawing the characters of a page on the cells of one row of its matrix.

ghost use Rattle.std.specs.Prelude.{◌≡◌, ℕ, ◌+◌, ◌-◌, ◌<◌, ◌≤◌, ◌==◌, ◌&&◌, List, ◌++◌, length, map, filter, true};
ghost use Rattle.std.specs.Prelude.{slice_index_or, fold};
ghost use Rattle.std.specs.List.{list_all, flat_map};
ghost use Rattle.dms_face_font.specs.Glyph.{lit_at};
ghost use Rattle.dms_face_font.specs.Font.{FontModel};
ghost use Rattle.dms_face.specs.declared.room.Block.{Block as BlockModel};
ghost use Rattle.dms_face.specs.declared.cell.Cell.{Cell as CellModel};
ghost use Rattle.dms_face.specs.Layout.{Line, PageModel};
ghost use Rattle.dms_face.specs.Room.{extent_at, placed_from, character_block, line_block};
ghost use Rattle.dms_face.specs.Room.{line_height, greatest, characters_fit, page_fits};
ghost use Rattle.dms_face.specs.Cells.{PlacedCharacter, is_lit_by, placed_in_line};
ghost use Rattle.dms_face_pages.specs.Drawing.{has_place, lit_cell, placed_above, lines_characters};
ghost use Rattle.dms_face_pages.specs.StylingView.{style_of};
ghost use Rattle.dms_face_rows.specs.Held.{line_of, lines_of, is_inside, IsHeld};
ghost use Rattle.dms_face_rows.specs.Drawing.{is_lit_from, Lights, Shows};

use crate::held::{HeldLine, HeldPage};
use crate::held_character::HeldCharacter;
use dms_face::room::{Block, Run};
use dms_face::{Cell, Face, Glyph, Place};
use dms_face_pages::placing::begin;

/// Lights the cell in this column, where there is one, unless it is lit already.
fn light(cells: &mut [Cell], column: usize, lit: Cell)
    ensures { Lights (λ k. k == column) lit cells.old cells.new }
{
    if column < cells.len() && !cells[column].lit {
        cells[column] = lit;
    }
}

/// Draws a row of a picture from this column on.
#[tactic(auto, using(crate::proofs::RowLaws::row))]
fn light_row(cells: &mut [Cell], x: usize, glyph: &Glyph, row: usize, lit: Cell)
    requires column { x < 65536 }
    requires lit { lit.lit ≡ true }
    ensures { Lights (is_lit_from x glyph.now row) lit cells.old cells.new }
{
    if row >= usize::from(glyph.height()) {
        return;
    }
    for column in 0..usize::from(glyph.width()) {
        if glyph.is_lit(column, row) {
            light(cells, x + column, lit);
        }
    }
}

impl HeldCharacter<'_> {
    /// The cell that it lights.
    fn cell(&self) -> Cell
        ensures cell { result ≡ lit_cell self.now.style }
        ensures lit { result.lit ≡ true }
    {
        Cell {
            lit: true,
            colour: self.style.foreground,
            flash: self.style.flash,
        }
    }

    /// What it is to its line.
    fn block(&self) -> Block
        ensures { result ≡ character_block self.now }
    {
        let size = match self.glyph() {
            None => 0,
            Some(glyph) => glyph.width(),
        };
        Block {
            place: self.style.side.place(),
            size,
            spacing: self.style.font.character_spacing(),
            gap: None,
        }
    }
}

#[tactic(auto, using(crate::proofs::RowLaws::character))]
/// Draws on row y what a character with its left top corner in column x of row `top` lights of it.
fn draw_character(cells: &mut [Cell], y: u32, x: u32, top: u32, character: &HeldCharacter<'_>)
    requires column { x < 65536 }
    ensures { Lights (λ k. is_lit_by k y (record { x = x; y = top; character = character.now }))
        (lit_cell character.now.style) cells.old cells.new }
{
    if y < top {
        return;
    }
    let row = (y - top) as usize;
    if let Some(glyph) = character.glyph() {
        light_row(cells, x as usize, glyph, row, character.cell());
    }
}

/// The room that the characters at a place of their line take.
fn characters_extent(characters: &[HeldCharacter<'_>], place: Place) -> u32
    requires { extent_at place (map character_block characters.now) ≤ 256 }
    ensures { result ≡ extent_at place (map character_block characters.now) }
{
    let mut run = Run::EMPTY;
    for character in characters {
        let block = character.block();
        if block.is_at(place) {
            run.push(block);
        }
    }
    run.size
}

/// Draws the characters at a place of their line, from this column on, on the bottom of their line.
fn draw_side(
    cells: &mut [Cell],
    y: u32,
    characters: &[HeldCharacter<'_>],
    side: Place,
    first: u32,
    bottom: u32,
)
    requires room { extent_at side (map character_block characters.now) ≤ 256 }
    requires first { first ≤ 256 }
    ensures len { length cells.new ≡ length cells.old }
    ensures cells { (page : PageModel) (before : List PlacedCharacter)
        → Shows page y before cells.old → Shows page y (before ++ map (placed_above bottom)
        (placed_from character_block first (filter (has_place character_block side) characters.now))) cells.new }
{
    let mut run = Run::EMPTY;
    for character in characters {
        let block = character.block();
        if !block.is_at(side) {
            continue;
        }
        run.push(block);
        let x = first + run.size - u32::from(block.size);
        let top = bottom.saturating_sub(u32::from(character.style.font.height()));
        draw_character(cells, y, x, top, character);
    }
}

impl<'a> HeldPage<'a> {
    /// The greatest height of a line's fonts.
    fn height(&self, line: &HeldLine<'a>) -> u8
        requires { is_inside (length self.now.characters.items) line.now ≡ true }
        ensures { result ≡ line_height (line_of self.now.characters.items line.now) }
    {
        let characters = self.characters(line);
        if characters.is_empty() {
            return line.font.height();
        }
        let heights = characters.iter().map(|it| it.style.font.height());
        heights.fold(0, |greatest, height| greatest.max(height))
    }

    /// The greatest line spacing of a line's fonts.
    fn spacing(&self, line: &HeldLine<'a>) -> u8
        requires { is_inside (length self.now.characters.items) line.now ≡ true }
        ensures { result ≡ greatest (λ (font : FontModel). font.line_spacing)
            (line_of self.now.characters.items line.now) }
    {
        let characters = self.characters(line);
        if characters.is_empty() {
            return line.font.line_spacing();
        }
        let spacings = characters.iter().map(|it| it.style.font.line_spacing());
        spacings.fold(0, |greatest, spacing| greatest.max(spacing))
    }

    /// What a line is to the page.
    fn block(&self, line: &HeldLine<'a>) -> Block
        requires { is_inside (length self.now.characters.items) line.now ≡ true }
        ensures { result ≡ line_block (line_of self.now.characters.items line.now) }
    {
        Block {
            place: line.part.place(),
            size: self.height(line),
            spacing: self.spacing(line),
            gap: line.gap,
        }
    }

    /// The room that the lines at a place of the page take.
    fn extent(&self, part: Place) -> u32
        requires held { IsHeld self.now }
        requires room { extent_at part (map line_block (lines_of self.now)) ≤ 256 }
        ensures { result ≡ extent_at part (map line_block (lines_of self.now)) }
    {
        let mut run = Run::EMPTY;
        for line in self.lines.as_slice() {
            let block = self.block(line);
            if !block.is_at(part) {
                continue;
            }
            run.push(block);
        }
        run.size
    }

    /// Draws on row y of the matrix what a line with its top in row `top` lights of it.
    fn draw_line(&self, cells: &mut [Cell], y: u32, face: &Face, line: &HeldLine<'a>, top: u32)
        requires inside { is_inside (length self.now.characters.items) line.now ≡ true }
        requires room { characters_fit face.now (line_of self.now.characters.items line.now).characters ≡ true }
        requires top { top ≤ 1024 }
        ensures len { length cells.new ≡ length cells.old }
        ensures cells { (page : PageModel) (before : List PlacedCharacter) → Shows page y before cells.old
            → Shows page y
            (before ++ placed_in_line face.now (top, line_of self.now.characters.items line.now)) cells.new }
    {
        let width = u32::from(face.width());
        let bottom = top + u32::from(self.height(line));
        let characters = self.characters(line);
        let left = begin(
            Place::Start,
            width,
            characters_extent(characters, Place::Start),
        );
        draw_side(cells, y, characters, Place::Start, left, bottom);
        let centre = begin(
            Place::Halfway,
            width,
            characters_extent(characters, Place::Halfway),
        );
        draw_side(cells, y, characters, Place::Halfway, centre, bottom);
        let right = begin(Place::End, width, characters_extent(characters, Place::End));
        draw_side(cells, y, characters, Place::End, right, bottom);
    }

    /// Draws on row y of the matrix what the lines at a place of the page light of it, which begin in this row.
    fn draw_part(&self, cells: &mut [Cell], y: u32, face: &Face, part: Place, first: u32)
        requires held { IsHeld self.now }
        requires lines { list_all (λ (line : Line). characters_fit face.now line.characters) (lines_of self.now)
            ≡ true }
        requires room { extent_at part (map line_block (lines_of self.now)) ≤ 256 }
        requires first { first ≤ 256 }
        ensures len { length cells.new ≡ length cells.old }
        ensures cells { (page : PageModel) (before : List PlacedCharacter) → Shows page y before cells.old
            → Shows page y (before ++ flat_map (placed_in_line face.now)
            (placed_from line_block first (filter (has_place line_block part) (lines_of self.now)))) cells.new }
    {
        let mut run = Run::EMPTY;
        for line in self.lines.as_slice() {
            let block = self.block(line);
            if !block.is_at(part) {
                continue;
            }
            run.push(block);
            self.draw_line(
                cells,
                y,
                face,
                line,
                first + run.size - u32::from(block.size),
            );
        }
    }

    /// Draws on row y of the matrix what a page that fits lights of it.
    pub(crate) fn draw(&self, cells: &mut [Cell], y: u32, face: &Face)
        requires held { IsHeld self.now }
        requires room { page_fits face.now (lines_of self.now) ≡ true }
        ensures len { length cells.new ≡ length cells.old }
        ensures cells { (page : PageModel) (before : List PlacedCharacter) → Shows page y before cells.old
            → Shows page y (before ++ lines_characters face.now (lines_of self.now)) cells.new }
    {
        let height = u32::from(face.height());
        let top = begin(Place::Start, height, self.extent(Place::Start));
        self.draw_part(cells, y, face, Place::Start, top);
        let middle = begin(Place::Halfway, height, self.extent(Place::Halfway));
        self.draw_part(cells, y, face, Place::Halfway, middle);
        let bottom = begin(Place::End, height, self.extent(Place::End));
        self.draw_part(cells, y, face, Place::End, bottom);
    }
}
