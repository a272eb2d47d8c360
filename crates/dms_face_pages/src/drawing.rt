//! Drawing the characters of a page on the cells of a matrix.

ghost use Rattle.std.specs.Prelude.{◌≡◌, ℕ, ◌+◌, ◌-◌, ◌*◌, ◌/◌, ◌%◌, ◌^◌, ◌<◌, ◌≤◌, ◌==◌, ◌&&◌, List, [], ◌∷◌, ◌++◌};
ghost use Rattle.std.specs.Prelude.{length, map, filter, true, not, nat_le, nat_lt, slice_index_or, fold, OnOk, OnErr};
ghost use Rattle.std.specs.List.{list_all, flat_map};
ghost use Rattle.dms_face_font.specs.Glyph.{is_bit, lit_at};
ghost use Rattle.dms_face.specs.declared.room.Block.{Block as BlockModel};
ghost use Rattle.dms_face.specs.declared.justification.Place.TheVariants.{Start, Halfway, End};
ghost use Rattle.dms_face.specs.Layout.{Character, Line, PageModel};
ghost use Rattle.dms_face.specs.Room.{begin, at_place, extent_at, placed_from, character_block, line_block};
ghost use Rattle.dms_face.specs.Room.{characters_fit, page_fits};
ghost use Rattle.dms_face.specs.Totals.{Sums};
ghost use Rattle.dms_face.specs.Cells.{PlacedCharacter, is_lit_by, placed_in_line};
ghost use Rattle.dms_face_pages.specs.Drawing.{has_place, covered, is_in_picture, is_lit_in_row};
ghost use Rattle.dms_face_pages.specs.Drawing.{lit_cell, placed_above, lines_characters, Shows};
ghost use Rattle.dms_face_pages.specs.StylingView.{style_of};
ghost use Rattle.dms_face_pages.specs.Styled.{style, IsLitStyle, Lights};
ghost use Rattle.dms_face_pages.specs.Styles.{with_character, with_line, has_style, has_styles, most_styles};

use crate::cells::Cells;
use crate::placing::begin;
use crate::styling::Styling;
use crate::text_layout::{StyledGlyph, TextLine};
use dms_face::room::{Block, Run};
use dms_face::{Cell, Face, Glyph, Place};
use std::alloc::AllocError;

impl Styling<'_> {
    /// The cell that a character of this style lights.
    fn cell(self) -> Cell
        ensures { result ≡ lit_cell (style_of self.entry) }
    {
        Cell {
            lit: true,
            colour: self.foreground,
            flash: self.flash,
        }
    }
}

/// Adds the styles of a line's characters to those of the cells.
#[tactic(auto, using(crate::proofs::PageStyles::next_adds, crate::proofs::PageStyles::character_within))]
fn add_line(cells: &mut Cells, characters: &[StyledGlyph<'_>]) -> Result<(), AllocError>
    requires few { length (fold with_character cells.old.styles characters.now) ≤ most_styles }
    ensures same { OnOk result (cells.new.cells ≡ cells.old.cells) }
    ensures styles { OnOk result (cells.new.styles ≡ fold with_character cells.old.styles characters.now) }
    ensures kept { OnOk result (cells.old.memory ≤ cells.new.memory) }
    ensures memory { OnErr result
        (cells.old.memory < length (fold with_character cells.old.styles characters.now)) }
{
    for character in characters {
        cells.add_style(character.style.cell())?;
    }
    Ok(())
}

/// Adds the styles of all characters of these lines to those of the cells. There is no memory for them only where the
/// list of styles has to grow.
#[tactic(auto, using(crate::proofs::PageStyles::next_adds, crate::proofs::PageStyles::line_within))]
pub(crate) fn add_lines(cells: &mut Cells, lines: &[TextLine<'_>]) -> Result<(), AllocError>
    requires few { length (fold with_line cells.old.styles lines.now) ≤ most_styles }
    ensures same { OnOk result (cells.new.cells ≡ cells.old.cells) }
    ensures styles { OnOk result (cells.new.styles ≡ fold with_line cells.old.styles lines.now) }
    ensures memory { OnErr result (cells.old.memory < length (fold with_line cells.old.styles lines.now)) }
{
    for line in lines {
        add_line(cells, line.characters.as_slice())?;
    }
    Ok(())
}

/// The row without its bit of this column.
fn without(row: u32, column: u32) -> u32
    requires { column < 32 }
    ensures bits { (k : ℕ) → is_bit result k ≡ (is_bit row k && not (k == column)) }
    ensures less { is_bit row column ≡ true → result < row }
{
    row & !(1 << column)
}

/// Lights the cells of a row of a picture one by one.
fn light_each(cells: &mut Cells, first: usize, row: u32, number: u8)
    requires inside { (k : ℕ) → is_bit row k ≡ true → first + k < length cells.old.cells }
    requires small { first < 2 ^ 34 }
    requires number { IsLitStyle cells.old.styles number }
    ensures { Lights (λ place. nat_le first place && is_bit row (place - first)) (style cells.old.styles number)
        cells.old cells.new }
{
    let mut left = row;
    while left != 0 {
        let column = left.trailing_zeros();
        cells.light(first + column as usize, number);
        left = without(left, column);
    }
}

/// Lights the cells of a row of a picture, of which `first` is that of its first column: eight at once, but for the
/// last cells of the page.
fn light_bits(cells: &mut Cells, first: usize, row: u32, number: u8)
    requires inside { (k : ℕ) → is_bit row k ≡ true → first + k < length cells.old.cells }
    requires small { first < 2 ^ 33 }
    requires number { IsLitStyle cells.old.styles number }
    ensures { Lights (λ place. nat_le first place && is_bit row (place - first)) (style cells.old.styles number)
        cells.old cells.new }
{
    let mut left = row;
    let mut place = first;
    while left != 0 {
        if !cells.has_eight(place) {
            light_each(cells, place, left, number);
            return;
        }
        cells.light_eight(place, (left % 256) as u8, number);
        left /= 256;
        place += 8;
    }
}

/// Draws a row of a picture from the cell `first` on.
fn light_row(cells: &mut Cells, first: usize, glyph: &Glyph, row: usize, number: u8)
    requires inside { first + glyph.now.width ≤ length cells.old.cells }
    requires small { first < 2 ^ 33 }
    requires within { (column : ℕ) → lit_at glyph.now column row ≡ true → column < glyph.now.width }
    requires number { IsLitStyle cells.old.styles number }
    ensures { Lights (is_lit_in_row first glyph.now.width glyph.now row) (style cells.old.styles number)
        cells.old cells.new }
{
    light_bits(cells, first, glyph.row(row), number);
}

/// Draws a character with its left top corner in column x of line y.
fn draw_character(cells: &mut Cells, face: &Face, x: u32, y: u32, character: &StyledGlyph<'_>)
    requires matrix { length cells.old.cells ≡ face.now.width * face.now.height }
    requires style { has_style cells.old.styles character.now ≡ true }
    requires inside { x + character.now.glyph.width ≤ face.now.width }
    ensures styles { cells.new.styles ≡ cells.old.styles }
    ensures len { length cells.new.cells ≡ length cells.old.cells }
    ensures cells { (other : Cell) (place : ℕ) → place < length cells.old.cells
        → slice_index_or cells.new.cells place other ≡ covered (is_lit_by (place % face.now.width)
        (place / face.now.width) (record { x = x; y = y; character = character.now })) (lit_cell character.now.style)
        (slice_index_or cells.old.cells place other) }
{
    let number = cells.number_of(character.style.cell());
    draw_picture(cells, face, x, y, character.glyph, number);
}

/// Draws a picture with its left top corner in column x of line y; what stands below the matrix is left out.
fn draw_picture(cells: &mut Cells, face: &Face, x: u32, y: u32, glyph: &Glyph, number: u8)
    requires matrix { length cells.old.cells ≡ face.now.width * face.now.height }
    requires inside { x + glyph.now.width ≤ face.now.width }
    requires number { IsLitStyle cells.old.styles number }
    ensures { Lights (λ place. is_in_picture (place % face.now.width) (place / face.now.width) x y glyph.now)
        (style cells.old.styles number) cells.old cells.new }
{
    let width = usize::from(face.width());
    let (x, y) = (x as usize, y as usize);
    let rows = usize::from(glyph.height()).min(usize::from(face.height()).saturating_sub(y));
    for row in 0..rows {
        let first = (y + row) * width + x;
        light_row(cells, first, glyph, row, number);
    }
}

/// What stands in a row with others of its kind: a character in its line, a line on its page.
trait Placed {
    ghost block_of: { Self → BlockModel };

    /// What it is to the whole.
    fn block(&self) -> Block
        ensures { result ≡ block_of self.now };
}

impl Placed for StyledGlyph<'_> {
    ghost block_of = { character_block };

    fn block(&self) -> Block {
        Block {
            place: self.style.side.place(),
            size: self.glyph.width(),
            spacing: self.style.font.character_spacing(),
            gap: None,
        }
    }
}

impl Placed for TextLine<'_> {
    ghost block_of = { line_block };

    fn block(&self) -> Block {
        Block {
            place: self.part.place(),
            size: self.height(),
            spacing: self.spacing(),
            gap: self.gap,
        }
    }
}

/// The things of a whole by their places, a row each.
#[derive(Clone, Copy)]
struct Runs {
    start: Run,
    halfway: Run,
    end: Run,
}

impl Runs {
    /// One more thing stands after those of its place.
    #[inline]
    fn push(&mut self, block: Block)
        requires start { self.old.start.size ≤ 256 }
        requires halfway { self.old.halfway.size ≤ 256 }
        requires end { self.old.end.size ≤ 256 }
        ensures start { (blocks : List BlockModel) → Sums self.old.start (at_place Start blocks)
            → Sums self.new.start (at_place Start (blocks ++ block ∷ [])) }
        ensures halfway { (blocks : List BlockModel) → Sums self.old.halfway (at_place Halfway blocks)
            → Sums self.new.halfway (at_place Halfway (blocks ++ block ∷ [])) }
        ensures end { (blocks : List BlockModel) → Sums self.old.end (at_place End blocks)
            → Sums self.new.end (at_place End (blocks ++ block ∷ [])) }
    {
        match block.place {
            Place::Start => self.start.push(block),
            Place::Halfway => self.halfway.push(block),
            Place::End => self.end.push(block),
        }
    }
}

/// The room that the things at each place take.
#[inline(never)]
fn runs_of<T: Placed>(things: &[T]) -> Runs
    requires start { extent_at Start (map T.block_of things.now) ≤ 256 }
    requires halfway { extent_at Halfway (map T.block_of things.now) ≤ 256 }
    requires end { extent_at End (map T.block_of things.now) ≤ 256 }
    ensures start { Sums result.start (at_place Start (map T.block_of things.now)) }
    ensures halfway { Sums result.halfway (at_place Halfway (map T.block_of things.now)) }
    ensures end { Sums result.end (at_place End (map T.block_of things.now)) }
{
    let mut runs = Runs {
        start: Run::EMPTY,
        halfway: Run::EMPTY,
        end: Run::EMPTY,
    };
    for thing in things {
        runs.push(thing.block());
    }
    runs
}

/// Draws the characters at a place of their line, from this column on, on the bottom of their line.
#[inline(never)]
fn draw_side(
    cells: &mut Cells,
    face: &Face,
    characters: &[StyledGlyph<'_>],
    side: Place,
    first: u32,
    bottom: u32,
)
    requires matrix { length cells.old.cells ≡ face.now.width * face.now.height }
    requires styles { list_all (has_style cells.old.styles) characters.now ≡ true }
    requires room { extent_at side (map character_block characters.now) ≤ 256 }
    requires first { first ≤ 256 }
    requires inside { first + extent_at side (map character_block characters.now) ≤ face.now.width }
    ensures styles { cells.new.styles ≡ cells.old.styles }
    ensures len { length cells.new.cells ≡ length cells.old.cells }
    ensures cells { (page : PageModel) (before : List PlacedCharacter)
        → Shows face.now page before cells.old.cells → Shows face.now page (before ++ map (placed_above bottom)
        (placed_from character_block first (filter (has_place character_block side) characters.now))) cells.new.cells }
{
    let mut run = Run::EMPTY;
    for character in characters {
        let block = character.block();
        if !block.is_at(side) {
            continue;
        }
        run.push(block);
        let x = first + run.size - u32::from(block.size);
        let y = bottom.saturating_sub(u32::from(character.style.font.height()));
        draw_character(cells, face, x, y, character);
    }
}

/// Draws the characters at a place of their line, which take this room, on the bottom of their line.
#[inline(always)]
fn draw_run(
    cells: &mut Cells,
    face: &Face,
    characters: &[StyledGlyph<'_>],
    side: Place,
    run: Run,
    bottom: u32,
)
    requires matrix { length cells.old.cells ≡ face.now.width * face.now.height }
    requires styles { list_all (has_style cells.old.styles) characters.now ≡ true }
    requires room { extent_at side (map character_block characters.now) ≤ face.now.width }
    requires run { Sums run (at_place side (map character_block characters.now)) }
    ensures styles { cells.new.styles ≡ cells.old.styles }
    ensures len { length cells.new.cells ≡ length cells.old.cells }
    ensures cells { (page : PageModel) (before : List PlacedCharacter)
        → Shows face.now page before cells.old.cells
        → Shows face.now page (before ++ map (placed_above bottom) (placed_from character_block
        (begin side face.now.width (extent_at side (map character_block characters.now)))
        (filter (has_place character_block side) characters.now))) cells.new.cells }
{
    if !run.any {
        return;
    }
    let first = begin(side, u32::from(face.width()), run.size);
    draw_side(cells, face, characters, side, first, bottom);
}

/// Draws a line with its top in this row.
fn draw_line(cells: &mut Cells, face: &Face, line: &TextLine<'_>, top: u32)
    requires matrix { length cells.old.cells ≡ face.now.width * face.now.height }
    requires styles { has_styles cells.old.styles line.now ≡ true }
    requires room { characters_fit face.now line.now.characters ≡ true }
    requires wide { face.now.width ≤ 256 }
    requires top { top ≤ 1024 }
    ensures styles { cells.new.styles ≡ cells.old.styles }
    ensures len { length cells.new.cells ≡ length cells.old.cells }
    ensures cells { (page : PageModel) (before : List PlacedCharacter) → Shows face.now page before cells.old.cells
        → Shows face.now page (before ++ placed_in_line face.now (top, line.now)) cells.new.cells }
{
    let bottom = top + u32::from(line.height());
    let characters = line.characters.as_slice();
    if characters.is_empty() {
        return;
    }
    let runs = runs_of(characters);
    draw_run(cells, face, characters, Place::Start, runs.start, bottom);
    draw_run(
        cells,
        face,
        characters,
        Place::Halfway,
        runs.halfway,
        bottom,
    );
    draw_run(cells, face, characters, Place::End, runs.end, bottom);
}

/// Draws the lines at a place of their page, from this row on.
fn draw_part(cells: &mut Cells, face: &Face, lines: &[TextLine<'_>], part: Place, first: u32)
    requires matrix { length cells.old.cells ≡ face.now.width * face.now.height }
    requires styles { list_all (has_styles cells.old.styles) lines.now ≡ true }
    requires lines { list_all (λ (line : Line). characters_fit face.now line.characters) lines.now ≡ true }
    requires room { extent_at part (map line_block lines.now) ≤ 256 }
    requires wide { face.now.width ≤ 256 }
    requires first { first ≤ 256 }
    ensures styles { cells.new.styles ≡ cells.old.styles }
    ensures len { length cells.new.cells ≡ length cells.old.cells }
    ensures cells { (page : PageModel) (before : List PlacedCharacter) → Shows face.now page before cells.old.cells
        → Shows face.now page (before ++ flat_map (placed_in_line face.now)
        (placed_from line_block first (filter (has_place line_block part) lines.now))) cells.new.cells }
{
    let mut run = Run::EMPTY;
    for line in lines {
        let block = line.block();
        if !block.is_at(part) {
            continue;
        }
        run.push(block);
        draw_line(cells, face, line, first + run.size - u32::from(block.size));
    }
}

/// Draws the lines at a place of their page, which take this room.
fn draw_lines_run(cells: &mut Cells, face: &Face, lines: &[TextLine<'_>], part: Place, run: Run)
    requires matrix { length cells.old.cells ≡ face.now.width * face.now.height }
    requires styles { list_all (has_styles cells.old.styles) lines.now ≡ true }
    requires lines { list_all (λ (line : Line). characters_fit face.now line.characters) lines.now ≡ true }
    requires room { extent_at part (map line_block lines.now) ≤ face.now.height }
    requires wide { face.now.width ≤ 256 }
    requires run { Sums run (at_place part (map line_block lines.now)) }
    ensures styles { cells.new.styles ≡ cells.old.styles }
    ensures len { length cells.new.cells ≡ length cells.old.cells }
    ensures cells { (page : PageModel) (before : List PlacedCharacter) → Shows face.now page before cells.old.cells
        → Shows face.now page (before ++ flat_map (placed_in_line face.now)
        (placed_from line_block (begin part face.now.height (extent_at part (map line_block lines.now)))
        (filter (has_place line_block part) lines.now))) cells.new.cells }
{
    if !run.any {
        return;
    }
    let first = begin(part, u32::from(face.height()), run.size);
    draw_part(cells, face, lines, part, first);
}

/// Draws the lines of a page that fits, in styles that the cells have already.
pub(crate) fn draw_lines(cells: &mut Cells, face: &Face, lines: &[TextLine<'_>])
    requires matrix { length cells.old.cells ≡ face.now.width * face.now.height }
    requires styles { list_all (has_styles cells.old.styles) lines.now ≡ true }
    requires room { page_fits face.now lines.now ≡ true }
    requires wide { face.now.width ≤ 256 }
    requires high { face.now.height ≤ 256 }
    ensures len { length cells.new.cells ≡ length cells.old.cells }
    ensures cells { (page : PageModel) (before : List PlacedCharacter) → Shows face.now page before cells.old.cells
        → Shows face.now page (before ++ lines_characters face.now lines.now) cells.new.cells }
{
    let runs = runs_of(lines);
    draw_lines_run(cells, face, lines, Place::Start, runs.start);
    draw_lines_run(cells, face, lines, Place::Halfway, runs.halfway);
    draw_lines_run(cells, face, lines, Place::End, runs.end);
}
