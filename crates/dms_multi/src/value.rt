//! The values of tags: numbers, times and fonts.
ghost use Rattle.std.specs.Prelude.{◌≡◌, option_map, position, false};
ghost use Rattle.std.specs.Char.{is_ascii_alphabetic};
ghost use Rattle.dms_multi.specs.Reading.{decimal_of, value_of, is_letter, cut, halves};
ghost use Rattle.dms_multi.specs.TagReading.{times_of, font_of};

use dms_text::{index_of, number, version};

/// Two times, either of which may be missing.
#[derive(Clone, Copy)]
pub(crate) struct TwoTimes {
    pub first: Option<u8>,
    pub second: Option<u8>,
}

/// The number from `low` to `high` that one to five decimal digits spell.
#[tactic(auto, unfolding(crate::specs::Reading::decimal_of))]
fn decimal(digits: &[u8], low: u8, high: u8) -> Option<u8>
    ensures { result ≡ decimal_of low high digits.now }
{
    let value = u8::try_from(number(digits, 10, 5)?).ok()?;
    if low <= value && value <= high {
        Some(value)
    } else {
        None
    }
}

/// A number from `low` to `high`, or none where nothing stands.
#[tactic(auto, unfolding(crate::specs::Reading::value_of))]
pub(crate) fn value(digits: &[u8], low: u8, high: u8) -> Option<Option<u8>>
    ensures { result ≡ value_of low high digits.now }
{
    if digits.is_empty() {
        return Some(None);
    }
    decimal(digits, low, high).map(Some)
}

/// What stands before and after the first octet that is `letter` in either case.
#[tactic(auto, unfolding(crate::specs::Reading::cut))]
pub(crate) fn cut(text: &[u8], letter: u8) -> Option<(&[u8], &[u8])>
    ensures { option_map halves result ≡ cut letter text.now }
{
    let index = index_of_letter(text, letter)?;
    Some((&text[..index], &text[index + 1..]))
}

/// The index of the first octet that is `letter` in either case.
fn index_of_letter(text: &[u8], letter: u8) -> Option<usize>
    ensures { result ≡ position (is_letter letter) text.now }
{
    text.iter()
        .position(|octet| octet.to_ascii_lowercase() == letter)
}

/// What stands before and after the first octet that is `mark`, which is no letter and so has one case.
#[tactic(auto, unfolding(crate::specs::Reading::cut))]
pub(crate) fn cut_at(text: &[u8], mark: u8) -> Option<(&[u8], &[u8])>
    requires { is_ascii_alphabetic mark ≡ false }
    ensures { option_map halves result ≡ cut mark text.now }
{
    let index = index_of_mark(text, mark)?;
    Some((&text[..index], &text[index + 1..]))
}

/// The index of the first octet that is `mark`, which is no letter.
#[tactic(auto, using(crate::proofs::Cuts::mark_index))]
#[inline]
fn index_of_mark(text: &[u8], mark: u8) -> Option<usize>
    requires { is_ascii_alphabetic mark ≡ false }
    ensures { result ≡ position (is_letter mark) text.now }
{
    index_of(text, mark)
}

/// A time up to `high`, and perhaps another after the letter.
#[tactic(auto, unfolding(crate::specs::TagReading::times_of))]
pub(crate) fn times(text: &[u8], letter: u8, high: u8) -> Option<TwoTimes>
    ensures { result ≡ times_of letter high text.now }
{
    let (first, second) = match cut(text, letter) {
        Some((first, second)) => (value(first, 0, high)?, value(second, 0, high)?),
        None => (value(text, 0, high)?, None),
    };
    Some(TwoTimes { first, second })
}

/// A font's number and version, or neither.
#[tactic(auto, unfolding(crate::specs::TagReading::font_of))]
pub(crate) fn font(text: &[u8]) -> Option<Option<(u8, Option<u16>)>>
    ensures { result ≡ font_of text.now }
{
    if text.is_empty() {
        return Some(None);
    }
    match cut_at(text, b',') {
        Some((digits, code)) => Some(Some((decimal(digits, 1, 255)?, Some(version(code)?)))),
        None => decimal(text, 1, 255).map(|number| Some((number, None))),
    }
}
