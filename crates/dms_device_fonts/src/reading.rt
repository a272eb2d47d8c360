//! What the fonts' objects read.

ghost use Rattle.std.specs.Prelude.{◌≡◌, ℕ, ◌^◌, ◌<◌, ◌≤◌, option_map, Some};
ghost use Rattle.dms_wire.specs.View.{object_value};
ghost use Rattle.dms_device_fonts.specs.Tree.{tree_value, under};
ghost use Rattle.dms_device_fonts.specs.Fonts.{fonts_node, font_objects, table_cells, column_cells, font_row};
ghost use Rattle.dms_device_fonts.specs.Fonts.{column_count};
ghost use Rattle.dms_device_fonts.specs.Fonts.{scalar, scalar_value, table_at, font_cell, character_cell};
ghost use Rattle.dms_device_fonts.specs.declared.place.FontTable.TheVariants.{Fonts, Characters};

use crate::place::FontTable;
use crate::steps::{Below, NODE, NodeSide, is_over, place_under, step};
use dms_face_font::{Font, Glyph};
use dms_wire::{Oid, Value};
use dms_wire_ber::Numbers;

/// What a name reads.
pub(crate) fn read_name<'a>(fonts: &'a [Font], name: &Oid<'_>) -> Option<Value<'a>>
    ensures { option_map object_value result ≡ tree_value (under fonts_node (font_objects fonts.now)) name.now }
{
    match place_under(name.numbers(), &NODE) {
        NodeSide::Before => None,
        NodeSide::Under(rest) => read(fonts, rest),
        NodeSide::After => None,
    }
}

/// What some numbers below the fonts' node read.
fn read<'a>(fonts: &'a [Font], numbers: Numbers<'_>) -> Option<Value<'a>>
    ensures { option_map object_value result ≡ tree_value (font_objects fonts.now) numbers.entry }
{
    let below = step(numbers, 1, 5)?;
    match table_at(below.number) {
        Some(table) => read_table(table, fonts, below.rest),
        None => read_scalar(fonts, below.number, below.rest),
    }
}

/// The table of this number.
pub(crate) fn table_at(number: usize) -> Option<FontTable>
    ensures { result ≡ table_at number }
{
    match number {
        2 => Some(FontTable::Fonts),
        4 => Some(FontTable::Characters),
        _ => None,
    }
}

fn read_scalar<'a>(fonts: &[Font], number: usize, numbers: Numbers<'_>) -> Option<Value<'a>>
    ensures { option_map object_value result ≡ tree_value (scalar (scalar_value fonts.now number)) numbers.entry }
{
    let below = step(numbers, 0, 1)?;
    if is_over(below.rest) {
        Some(scalar_value(fonts, number))
    } else {
        None
    }
}

/// What the only instance of an object reads.
pub(crate) fn scalar_value<'a>(fonts: &[Font], number: usize) -> Value<'a>
    ensures { object_value result ≡ scalar_value fonts.now number }
{
    match number {
        1 => Value::Integer(fonts.len() as i64),
        3 => Value::Integer(255),
        _ => Value::Integer(128),
    }
}

fn read_table<'a>(table: FontTable, fonts: &'a [Font], numbers: Numbers<'_>) -> Option<Value<'a>>
    ensures { option_map object_value result ≡ tree_value (table_cells table fonts.now) numbers.entry }
{
    let entry = step(numbers, 1, 1)?;
    let column = step(entry.rest, 1, column_count(table))?;
    read_column(table, fonts, column)
}

/// How many columns a table has.
pub(crate) fn column_count(table: FontTable) -> usize
    ensures value { result ≡ column_count table }
    ensures few { result ≤ 8 }
{
    match table {
        FontTable::Fonts => 8,
        FontTable::Characters => 3,
    }
}

fn read_column<'a>(table: FontTable, fonts: &'a [Font], column: Below<'_>) -> Option<Value<'a>>
    ensures { option_map object_value result
        ≡ tree_value (column_cells table fonts.now column.entry.number) column.entry.rest }
{
    let row = step(column.rest, 1, fonts.len())?;
    let font = &fonts[row.number - 1];
    match table {
        FontTable::Fonts => read_font(font, row.number, column.number, row.rest),
        FontTable::Characters => read_character(font, column.number, row.rest),
    }
}

fn read_font<'a>(
    font: &Font,
    index: usize,
    column: usize,
    numbers: Numbers<'_>,
) -> Option<Value<'a>>
    requires { index < 2 ^ 63 }
    ensures { option_map object_value result ≡ tree_value (font_row Fonts column index (Some font.now)) numbers.entry }
{
    if is_over(numbers) {
        Some(font_cell(font, index, column))
    } else {
        None
    }
}

/// What a font has in a column of fontTable.
pub(crate) fn font_cell<'a>(font: &Font, index: usize, column: usize) -> Value<'a>
    requires { index < 2 ^ 63 }
    ensures { object_value result ≡ font_cell index font.now column }
{
    match column {
        1 => Value::Integer(index as i64),
        2 => Value::Integer(i64::from(font.number())),
        3 => Value::Octets(&[]),
        4 => Value::Integer(i64::from(font.height())),
        5 => Value::Integer(i64::from(font.character_spacing())),
        6 => Value::Integer(i64::from(font.line_spacing())),
        7 => Value::Integer(i64::from(font.version())),
        _ => Value::Integer(6),
    }
}

fn read_character<'a>(font: &'a Font, column: usize, numbers: Numbers<'_>) -> Option<Value<'a>>
    ensures { (index : ℕ) → option_map object_value result
        ≡ tree_value (font_row Characters column index (Some font.now)) numbers.entry }
{
    let below = step(numbers, 1, 65535)?;
    let glyph = font.glyph(below.number as u16)?;
    if is_over(below.rest) {
        Some(character_cell(glyph, column))
    } else {
        None
    }
}

/// What a character has in a column of characterTable.
pub(crate) fn character_cell(glyph: &Glyph, column: usize) -> Value<'_>
    ensures { object_value result ≡ character_cell glyph.now column }
{
    match column {
        1 => Value::Integer(i64::from(glyph.character())),
        2 => Value::Integer(i64::from(glyph.width())),
        _ => Value::Octets(glyph.bitmap()),
    }
}
