//! Writing items as their canonical text.
ghost use Rattle.std.specs.Prelude.{◌≡◌, ◌↔◌, ℕ, ◌+◌, ◌<◌, ◌≤◌, ◌++◌, [], true};
ghost use Rattle.std.specs.Prelude.{All, IsOk, OnErr, OnOk, length, codes, decimal};
ghost use Rattle.std.specs.Fmt.{digits, digit_glyph};
ghost use Rattle.dms_codes.specs.Limits.{longest_text};
ghost use Rattle.dms_multi.specs.Item.{IsInRange};
ghost use Rattle.dms_multi.specs.Grammar.{plain};
ghost use Rattle.dms_multi.specs.Appending.{AppendsOrRefuses};
ghost use Rattle.dms_multi.specs.Canonical.{value_text, later_time_text, hexadecimal_text, leading_zeros};
ghost use Rattle.dms_multi.specs.Canonical.{font_text, flash_text, body_text, tag_text, item_text, text_of};

use crate::fault::TooLong;
use crate::item::{Item, Lead};
use arrayvec::ArrayVec;
use dms_codes::MAX_TEXT;
use itoa::Buffer;

type Text = ArrayVec<u8, MAX_TEXT>;

/// Appends the octets.
fn put(text: &mut Text, octets: &[u8]) -> Result<(), TooLong>
    requires { length text.old.items ≤ longest_text }
    ensures { AppendsOrRefuses result text.old.items text.new.items octets.now }
{
    text.try_extend_from_slice(octets).map_err(|_| TooLong)
}

/// Appends a number in decimal digits.
fn put_number(text: &mut Text, number: u8) -> Result<(), TooLong>
    requires { length text.old.items ≤ longest_text }
    ensures { AppendsOrRefuses result text.old.items text.new.items (decimal number) }
{
    put(text, Buffer::new().format(number).as_bytes())
}

/// Appends a value, if it is there.
fn put_value(text: &mut Text, value: Option<u8>) -> Result<(), TooLong>
    requires { length text.old.items ≤ longest_text }
    ensures { AppendsOrRefuses result text.old.items text.new.items (value_text value) }
{
    match value {
        Some(number) => put_number(text, number),
        None => Ok(()),
    }
}

/// Appends a letter and the time after it, if there is one.
fn put_later_time(text: &mut Text, letter: &[u8], time: Option<u8>) -> Result<(), TooLong>
    requires { length text.old.items ≤ longest_text }
    ensures { AppendsOrRefuses result text.old.items text.new.items (later_time_text letter.now time) }
{
    match time {
        Some(number) => {
            put(text, letter)?;
            put_number(text, number)
        }
        None => Ok(()),
    }
}

/// The hexadecimal digit of a number below 16, from `A` or from `a` on above 9.
fn digit(number: u16, upper: bool) -> u8
    requires { number < 16 }
    ensures { result ≡ digit_glyph upper number }
{
    let number = number as u8;
    if number < 10 {
        b'0' + number
    } else if upper {
        b'A' - 10 + number
    } else {
        b'a' - 10 + number
    }
}

/// The four hexadecimal digits of a number.
fn four_digits(number: u16, upper: bool) -> [u8; 4]
    ensures { result ≡ hexadecimal_text upper number }
{
    [
        digit(number / 4096, upper),
        digit(number / 256 % 16, upper),
        digit(number / 16 % 16, upper),
        digit(number % 16, upper),
    ]
}

/// Appends a font's number and version.
fn put_font(text: &mut Text, font: Option<(u8, Option<u16>)>) -> Result<(), TooLong>
    requires { length text.old.items ≤ longest_text }
    ensures { AppendsOrRefuses result text.old.items text.new.items (font_text font) }
{
    match font {
        Some((number, Some(version))) => {
            put_number(text, number)?;
            put(text, b",")?;
            put(text, &four_digits(version, false))
        }
        Some((number, None)) => put_number(text, number),
        None => Ok(()),
    }
}

/// Appends two times, each after its letter.
fn put_times(
    text: &mut Text,
    first: Option<u8>,
    letter: &[u8],
    second: Option<u8>,
) -> Result<(), TooLong>
    requires { length text.old.items ≤ longest_text }
    ensures { AppendsOrRefuses result text.old.items text.new.items
        (value_text first ++ later_time_text letter.now second) }
{
    put_value(text, first)?;
    put_later_time(text, letter, second)
}

/// Appends the times of a flash.
fn put_flash(text: &mut Text, first: Lead, lit: Option<u8>, dark: Option<u8>) -> Result<(), TooLong>
    requires { length text.old.items ≤ longest_text }
    ensures { AppendsOrRefuses result text.old.items text.new.items (flash_text first lit dark) }
{
    match first {
        Lead::Lit => {
            if lit.is_none() && dark.is_none() {
                return Ok(());
            }
            put(text, b"t")?;
            put_times(text, lit, b"o", dark)
        }
        Lead::Dark => {
            put(text, b"o")?;
            put_times(text, dark, b"t", lit)
        }
    }
}

/// How many of a number's four hexadecimal digits are leading zeros; the last one is none.
fn leading_zeros(number: u16) -> usize
    ensures { result ≡ leading_zeros number }
{
    if number < 16 {
        3
    } else if number < 256 {
        2
    } else if number < 4096 {
        1
    } else {
        0
    }
}

/// Appends a character's number in capital hexadecimal digits.
#[tactic(auto, using(crate::proofs::Digits::digits_dropped))]
fn put_character(text: &mut Text, character: u16) -> Result<(), TooLong>
    requires { length text.old.items ≤ longest_text }
    ensures { AppendsOrRefuses result text.old.items text.new.items (digits 16 true character) }
{
    put(
        text,
        &four_digits(character, true)[leading_zeros(character)..],
    )
}

/// Appends a tag's name and its value, if it is there.
fn put_named(text: &mut Text, name: &[u8], value: Option<u8>) -> Result<(), TooLong>
    requires { length text.old.items ≤ longest_text }
    ensures { AppendsOrRefuses result text.old.items text.new.items (name.now ++ value_text value) }
{
    put(text, name)?;
    put_value(text, value)
}

/// Appends what stands between the brackets of the item's tag.
fn put_body(text: &mut Text, item: Item) -> Result<(), TooLong>
    requires { length text.old.items ≤ longest_text }
    ensures { AppendsOrRefuses result text.old.items text.new.items (body_text item) }
{
    match item {
        Item::Char(character) => {
            put(text, b"hc")?;
            put_character(text, character)
        }
        Item::Background(colour) => put_named(text, b"pb", colour),
        Item::Foreground(colour) => put_named(text, b"cf", colour),
        Item::Font(font) => {
            put(text, b"fo")?;
            put_font(text, font)
        }
        Item::FlashOn { first, lit, dark } => {
            put(text, b"fl")?;
            put_flash(text, first, lit, dark)
        }
        Item::FlashEnd => put(text, b"/fl"),
        Item::JustLine(place) => put_named(text, b"jl", place),
        Item::JustPage(place) => put_named(text, b"jp", place),
        Item::NewLine(gap) => put_named(text, b"nl", gap),
        Item::NewPage => put(text, b"np"),
        Item::PageTime { lit, dark } => {
            put(text, b"pt")?;
            put_times(text, lit, b"o", dark)
        }
    }
}

/// Appends the item's tag.
fn put_tag(text: &mut Text, item: Item) -> Result<(), TooLong>
    requires { length text.old.items ≤ longest_text }
    ensures { AppendsOrRefuses result text.old.items text.new.items (tag_text item) }
{
    put(text, b"[")?;
    put_body(text, item)?;
    put(text, b"]")
}

/// Appends a character as itself, a bracket twice.
fn put_plain(text: &mut Text, octet: u8) -> Result<(), TooLong>
    requires { length text.old.items ≤ longest_text }
    ensures { AppendsOrRefuses result text.old.items text.new.items (plain octet) }
{
    if octet == b'[' || octet == b']' {
        put(text, &[octet, octet])
    } else {
        put(text, &[octet])
    }
}

/// Appends an item.
#[tactic(auto, unfolding(crate::specs::Canonical::item_text))]
fn put_item(text: &mut Text, item: Item) -> Result<(), TooLong>
    requires { length text.old.items ≤ longest_text }
    ensures { AppendsOrRefuses result text.old.items text.new.items (item_text item) }
{
    match item {
        Item::Char(character) if character < 256 => put_plain(text, character as u8),
        _ => put_tag(text, item),
    }
}

/// Writes the canonical text of the items, or nothing where it has more than 512 octets. Each number of an
/// item must be in its range (`Item::in_range`).
pub fn render(items: &[Item], text: &mut ArrayVec<u8, MAX_TEXT>) -> Result<(), TooLong>
    requires { All IsInRange items.now }
    ensures fits { IsOk result ↔ (length (text_of items.now) ≤ longest_text) }
    ensures ok { OnOk result (text.new.items ≡ text_of items.now) }
    ensures err { OnErr result (text.new.items ≡ []) }
{
    text.clear();
    for item in items {
        if let Err(too_long) = put_item(text, *item) {
            text.clear();
            return Err(too_long);
        }
    }
    Ok(())
}
