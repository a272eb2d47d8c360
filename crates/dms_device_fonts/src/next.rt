//! What comes next of the fonts' objects. What stands in a span of numbers is sought below a number first, and then
//! from the next one on. The functions that call themselves do so at most nine times.

ghost use Rattle.std.specs.Prelude.{◌≡◌, ℕ, List, ◌+◌, ◌-◌, ◌≤◌, length, option_map, IfSome};
ghost use Rattle.dms_mib_replies.specs.Next.{next_binding};
ghost use Rattle.dms_face_font.specs.Font.{FontModel};
ghost use Rattle.dms_device_fonts.specs.Tree.{Span, tree_first, tree_after, first_from, or_first, below, under};
ghost use Rattle.dms_device_fonts.specs.Fonts.{font_objects, font_object, table_cells, column_cells, column_count};
ghost use Rattle.dms_device_fonts.specs.Fonts.{font_row, font_at, fonts_node};
ghost use Rattle.dms_device_fonts.specs.View.{row_binding, cell_binding, place_binding, placed, IsCell, IsPlace};

use crate::ends::{end_after, first_end};
use crate::place::{End, FontCell, FontPlace, FontRow, FontTable};
use crate::reading::{character_cell, column_count, font_cell, scalar_value, table_at};
use crate::steps::{Below, NODE, NodeSide, SpanPlace, place_in, place_under};
use dms_face_font::Font;
use dms_mib::NumberedName;
use dms_mib_replies::{Next, NextName};
use dms_wire::Oid;
use dms_wire_ber::Numbers;

/// The first row of a table from this index of a font on.
fn first_row<'a>(table: FontTable, fonts: &'a [Font], index: usize) -> Option<FontRow<'a>>
    requires least { 1 ≤ index }
    requires most { index ≤ length fonts.now + 1 }
    ensures row { (column : ℕ) → option_map (row_binding column) result
        ≡ first_from (λ i. tree_first (font_row table column i (font_at fonts.now i))) index
        (length fonts.now + 1 - index) }
    ensures within { IfSome result (λ row. row.index ≤ length fonts.now) }
{
    if index > fonts.len() {
        return None;
    }
    let font = &fonts[index - 1];
    match first_end(table, font) {
        Some(end) => Some(FontRow { index, font, end }),
        None => first_row(table, fonts, index + 1),
    }
}

/// The first row of a table after some numbers below a column.
fn row_after<'a>(table: FontTable, fonts: &'a [Font], numbers: Numbers<'_>) -> Option<FontRow<'a>>
    ensures row { (column : ℕ) → option_map (row_binding column) result
        ≡ tree_after (column_cells table fonts.now column) numbers.entry }
    ensures within { IfSome result (λ row. row.index ≤ length fonts.now) }
{
    match place_in(numbers, 1, fonts.len()) {
        SpanPlace::First => first_row(table, fonts, 1),
        SpanPlace::Inside(below) => row_from(table, fonts, below),
        SpanPlace::Past => None,
    }
}

/// The first row of a table after some numbers below a font's index.
fn row_from<'a>(table: FontTable, fonts: &'a [Font], inside: Below<'_>) -> Option<FontRow<'a>>
    requires least { 1 ≤ inside.number }
    requires most { inside.number ≤ length fonts.now }
    ensures row { (column : ℕ) → option_map (row_binding column) result
        ≡ or_first (option_map (below inside.entry.number)
        (tree_after (font_row table column inside.entry.number (font_at fonts.now inside.entry.number))
        inside.entry.rest))
        (first_from (λ i. tree_first (font_row table column i (font_at fonts.now i))) (inside.entry.number + 1)
        (length fonts.now + 1 - (inside.entry.number + 1))) }
    ensures within { IfSome result (λ row. row.index ≤ length fonts.now) }
{
    let index = inside.number;
    let font = &fonts[index - 1];
    match end_after(table, font, inside.rest) {
        Some(end) => Some(FontRow { index, font, end }),
        None => first_row(table, fonts, index + 1),
    }
}

/// The first cell of a table from this column on.
fn first_cell<'a>(table: FontTable, fonts: &'a [Font], column: usize) -> Option<FontCell<'a>>
    requires { column ≤ column_count table + 1 }
    ensures cell { option_map cell_binding result
        ≡ first_from (λ c. tree_first (column_cells table fonts.now c)) column (column_count table + 1 - column) }
    ensures within { IfSome result (IsCell fonts.now) }
{
    if column > column_count(table) {
        return None;
    }
    match first_row(table, fonts, 1) {
        Some(row) => Some(FontCell { column, row }),
        None => first_cell(table, fonts, column + 1),
    }
}

/// The first cell of a table after some numbers below its entry.
fn cell_after<'a>(table: FontTable, fonts: &'a [Font], numbers: Numbers<'_>) -> Option<FontCell<'a>>
    ensures cell { option_map cell_binding result
        ≡ tree_after (Span 1 (column_count table) (column_cells table fonts.now)) numbers.entry }
    ensures within { IfSome result (IsCell fonts.now) }
{
    match place_in(numbers, 1, column_count(table)) {
        SpanPlace::First => first_cell(table, fonts, 1),
        SpanPlace::Inside(below) => cell_from(table, fonts, below),
        SpanPlace::Past => None,
    }
}

/// The first cell of a table after some numbers below a column.
fn cell_from<'a>(table: FontTable, fonts: &'a [Font], inside: Below<'_>) -> Option<FontCell<'a>>
    requires { inside.number ≤ column_count table }
    ensures cell { option_map cell_binding result
        ≡ or_first (option_map (below inside.entry.number)
        (tree_after (column_cells table fonts.now inside.entry.number) inside.entry.rest))
        (first_from (λ c. tree_first (column_cells table fonts.now c)) (inside.entry.number + 1)
        (column_count table + 1 - (inside.entry.number + 1))) }
    ensures within { IfSome result (IsCell fonts.now) }
{
    let _ = column_count(table);
    let column = inside.number;
    match row_after(table, fonts, inside.rest) {
        Some(row) => Some(FontCell { column, row }),
        None => first_cell(table, fonts, column + 1),
    }
}

/// The first cell of a table.
fn table_first<'a>(table: FontTable, fonts: &'a [Font]) -> Option<FontCell<'a>>
    ensures cell { option_map (λ cell. below 1 (cell_binding cell)) result ≡ tree_first (table_cells table fonts.now) }
    ensures within { IfSome result (IsCell fonts.now) }
{
    first_cell(table, fonts, 1)
}

/// The first cell of a table after some numbers below it.
fn table_after<'a>(
    table: FontTable,
    fonts: &'a [Font],
    numbers: Numbers<'_>,
) -> Option<FontCell<'a>>
    ensures cell { option_map (λ cell. below 1 (cell_binding cell)) result
        ≡ tree_after (table_cells table fonts.now) numbers.entry }
    ensures within { IfSome result (IsCell fonts.now) }
{
    match place_in(numbers, 1, 1) {
        SpanPlace::First => table_first(table, fonts),
        SpanPlace::Inside(below) => cell_after(table, fonts, below.rest),
        SpanPlace::Past => None,
    }
}

fn in_table<'a>(number: usize, cell: Option<FontCell<'a>>) -> Option<FontPlace<'a>>
    requires { number ≤ 5 }
    ensures place { (fonts : List FontModel) → option_map (place_binding fonts) result
        ≡ option_map (below number) (option_map (λ cell. below 1 (cell_binding cell)) cell.entry) }
    ensures within { (fonts : List FontModel) → IfSome cell.entry (IsCell fonts) → IfSome result (IsPlace fonts) }
{
    match cell {
        Some(cell) => Some(FontPlace::OfCell(number, cell)),
        None => None,
    }
}

/// The first instance of an object.
fn object_first<'a>(fonts: &'a [Font], number: usize) -> Option<FontPlace<'a>>
    requires { number ≤ 5 }
    ensures place { option_map (place_binding fonts.now) result
        ≡ option_map (below number) (tree_first (font_object fonts.now number)) }
    ensures within { IfSome result (IsPlace fonts.now) }
{
    match table_at(number) {
        Some(table) => in_table(number, table_first(table, fonts)),
        None => Some(FontPlace::OfScalar(number)),
    }
}

/// The first instance of an object after some numbers below it.
fn object_after<'a>(fonts: &'a [Font], number: usize, numbers: Numbers<'_>) -> Option<FontPlace<'a>>
    requires { number ≤ 5 }
    ensures place { option_map (place_binding fonts.now) result
        ≡ option_map (below number) (tree_after (font_object fonts.now number) numbers.entry) }
    ensures within { IfSome result (IsPlace fonts.now) }
{
    match table_at(number) {
        Some(table) => in_table(number, table_after(table, fonts, numbers)),
        None => match place_in(numbers, 0, 1) {
            SpanPlace::First => Some(FontPlace::OfScalar(number)),
            SpanPlace::Inside(_) => None,
            SpanPlace::Past => None,
        },
    }
}

/// The first instance of the objects from this number on.
fn first_place<'a>(fonts: &'a [Font], number: usize) -> Option<FontPlace<'a>>
    requires { number ≤ 6 }
    ensures place { option_map (place_binding fonts.now) result
        ≡ first_from (λ n. tree_first (font_object fonts.now n)) number (6 - number) }
    ensures within { IfSome result (IsPlace fonts.now) }
{
    if number > 5 {
        return None;
    }
    match object_first(fonts, number) {
        Some(place) => Some(place),
        None => first_place(fonts, number + 1),
    }
}

/// The first instance after some numbers below the fonts' node.
fn instance_after<'a>(fonts: &'a [Font], numbers: Numbers<'_>) -> Option<FontPlace<'a>>
    ensures place { option_map (place_binding fonts.now) result ≡ tree_after (font_objects fonts.now) numbers.entry }
    ensures within { IfSome result (IsPlace fonts.now) }
{
    match place_in(numbers, 1, 5) {
        SpanPlace::First => first_place(fonts, 1),
        SpanPlace::Inside(below) => match object_after(fonts, below.number, below.rest) {
            Some(place) => Some(place),
            None => first_place(fonts, below.number + 1),
        },
        SpanPlace::Past => None,
    }
}

/// The first instance after a name.
pub(crate) fn place_after<'a>(fonts: &'a [Font], name: &Oid<'_>) -> Option<FontPlace<'a>>
    ensures place { option_map (λ place. placed fonts_node (place_binding fonts.now place)) result
        ≡ tree_after (under fonts_node (font_objects fonts.now)) name.now }
    ensures within { IfSome result (IsPlace fonts.now) }
{
    match place_under(name.numbers(), &NODE) {
        NodeSide::Before => first_place(fonts, 1),
        NodeSide::Under(rest) => instance_after(fonts, rest),
        NodeSide::After => None,
    }
}

/// The name at a place, with what it reads.
pub(crate) fn next_at<'a>(fonts: &'a [Font], place: &FontPlace<'a>) -> Next<'a>
    requires few { length fonts.now ≤ 4 }
    requires place { IsPlace fonts.now place.now }
    ensures { next_binding result ≡ placed fonts_node (place_binding fonts.now place.now) }
{
    match *place {
        FontPlace::OfScalar(number) => Next {
            name: NextName::Numbered(NumberedName::of(&[3, number as u8], 0)),
            value: scalar_value(fonts, number),
        },
        FontPlace::OfCell(number, cell) => next_cell(number, &cell),
    }
}

fn next_cell<'a>(number: usize, cell: &FontCell<'a>) -> Next<'a>
    requires number { number ≤ 5 }
    requires column { cell.now.column ≤ 8 }
    requires index { cell.now.row.index ≤ 4 }
    ensures { next_binding result ≡ placed fonts_node (below number (below 1 (cell_binding cell.now))) }
{
    let row = cell.row;
    let node = number as u8;
    let column = cell.column as u8;
    match row.end {
        End::OfFont => Next {
            name: NextName::Numbered(NumberedName::of(&[3, node, 1, column], row.index as u16)),
            value: font_cell(row.font, row.index, cell.column),
        },
        End::OfCharacter(glyph) => Next {
            name: NextName::Numbered(NumberedName::of(
                &[3, node, 1, column, row.index as u8],
                glyph.character(),
            )),
            value: character_cell(glyph, cell.column),
        },
    }
}
