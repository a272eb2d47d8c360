//! The rows that one font has in a table: one of its own, or one for each character.

ghost use Rattle.std.specs.Prelude.{◌≡◌, ℕ, ◌-◌, ◌≤◌, option_map, Some};
ghost use Rattle.dms_face_font.specs.Font.{FontModel};
ghost use Rattle.std.specs.Option.{option_copied};
ghost use Rattle.dms_device_fonts.specs.Tree.{tree_first, tree_after, first_from};
ghost use Rattle.dms_device_fonts.specs.Fonts.{font_row, character_leaf};
ghost use Rattle.dms_device_fonts.specs.View.{end_binding, character_binding, lowest};
ghost use Rattle.dms_device_fonts.specs.declared.place.FontTable.TheVariants.{Characters};

use crate::place::{End, FontTable};
use crate::steps::{SpanPlace, place_in};
use dms_face_font::{Font, Glyph};
use dms_wire_ber::Numbers;

/// The first row of a font.
pub(crate) fn first_end<'a>(table: FontTable, font: &'a Font) -> Option<End<'a>>
    ensures { (column index : ℕ) → option_map (end_binding column index font.now) result
        ≡ tree_first (font_row table column index (Some font.now)) }
{
    match table {
        FontTable::Fonts => Some(End::OfFont),
        FontTable::Characters => as_end(least_glyph(font, 1)),
    }
}

/// The first row of a font after some numbers below its index.
pub(crate) fn end_after<'a>(
    table: FontTable,
    font: &'a Font,
    numbers: Numbers<'_>,
) -> Option<End<'a>>
    ensures { (column index : ℕ) → option_map (end_binding column index font.now) result
        ≡ tree_after (font_row table column index (Some font.now)) numbers.entry }
{
    match table {
        FontTable::Fonts => None,
        FontTable::Characters => as_end(glyph_after(font, numbers)),
    }
}

fn as_end(glyph: Option<&Glyph>) -> Option<End<'_>>
    ensures { (column index : ℕ) (font : FontModel) → option_map (end_binding column index font) result
        ≡ option_map (character_binding column) (option_copied glyph.entry) }
{
    match glyph {
        Some(glyph) => Some(End::OfCharacter(glyph)),
        None => None,
    }
}

/// The character with the least number after some numbers.
fn glyph_after<'a>(font: &'a Font, numbers: Numbers<'_>) -> Option<&'a Glyph>
    ensures { (column index : ℕ) → option_map (character_binding column) (option_copied result)
        ≡ tree_after (font_row Characters column index (Some font.now)) numbers.entry }
{
    match place_in(numbers, 1, 65535) {
        SpanPlace::First => least_glyph(font, 1),
        SpanPlace::Inside(below) => least_glyph(font, below.number + 1),
        SpanPlace::Past => None,
    }
}

/// The character with the least number from this one on.
fn least_glyph(font: &Font, least: usize) -> Option<&Glyph>
    requires low { 1 ≤ least }
    requires high { least ≤ 65536 }
    ensures { (column : ℕ) → option_map (character_binding column) (option_copied result)
        ≡ first_from (λ n. tree_first (character_leaf font.now column n)) least (65536 - least) }
{
    let number = lowest(font.glyphs(), least);
    if number > 65535 {
        return None;
    }
    font.glyph(number as u16)
}

/// The least number of these characters from this one on, or 65536 where there is none.
fn lowest(glyphs: &[Glyph], least: usize) -> usize
    ensures { result ≡ lowest least 65536 glyphs.now }
{
    let mut found = 65536;
    let mut rest = glyphs;
    while let Some((glyph, others)) = rest.split_first() {
        let number = usize::from(glyph.character());
        if least <= number && number < found {
            found = number;
        }
        rest = others;
    }
    found
}
