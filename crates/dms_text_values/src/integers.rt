//! The INTEGER that a word spells.

ghost use Rattle.std.specs.Prelude.{◌≡◌, IfSome, true};
ghost use Rattle.dms_wire_ber.specs.Integer.{in_range};
ghost use Rattle.dms_text_values.specs.ValueReading.{integer_of, positive_of, negative_of, integer_at};

use dms_text::{Words, number};

/// A number of one to ten decimal digits, perhaps with a `-` before them, from -2^31 to 2^32 - 1, and the words after
/// it.
#[tactic(auto, unfolding(crate::specs::ValueReading::integer_at))]
pub fn integer(words: Words<'_>) -> Option<(i64, Words<'_>)>
    ensures value { result ≡ integer_at words.entry }
    ensures range { IfSome result (λ x. in_range x.0 ≡ true) }
{
    let (word, rest) = words.next_word()?;
    Some((integer_of(word)?, rest))
}

/// A number of one to ten decimal digits, perhaps with a `-` before them, from -2^31 to 2^32 - 1.
pub fn integer_of(word: &[u8]) -> Option<i64>
    ensures value { result ≡ integer_of word.now }
    ensures range { IfSome result (λ z. in_range z ≡ true) }
{
    match word {
        [] => None,
        [first, digits @ ..] => {
            if *first == b'-' {
                negative_of(digits)
            } else {
                positive_of(word)
            }
        }
    }
}

/// Digits as a number of at most 2^32 - 1.
#[tactic(auto, unfolding(crate::specs::ValueReading::positive_of))]
fn positive_of(digits: &[u8]) -> Option<i64>
    ensures value { result ≡ positive_of digits.now }
    ensures range { IfSome result (λ z. in_range z ≡ true) }
{
    let number = number(digits, 10, 10)?;
    if number <= 0xffff_ffff {
        Some(number as i64)
    } else {
        None
    }
}

/// Digits after a `-` as a number of at least -2^31.
#[tactic(auto, unfolding(crate::specs::ValueReading::negative_of))]
fn negative_of(digits: &[u8]) -> Option<i64>
    ensures value { result ≡ negative_of digits.now }
    ensures range { IfSome result (λ z. in_range z ≡ true) }
{
    let number = number(digits, 10, 10)?;
    if number <= 0x8000_0000 {
        Some(-(number as i64))
    } else {
        None
    }
}
