//! The numbers that words spell.

ghost use Rattle.std.specs.Prelude.{◌≡◌, ◌^◌, ◌<◌, ◌≤◌, IfSome};
ghost use Rattle.dms_text.specs.Reading.{number_of, within, version_of};

/// The number that one to `most` digits of the base spell, leading zeros and letters in either case allowed. The
/// base must be 2 to 16, and `most` at most 15.
#[tactic(auto, unfolding(crate::specs::Reading::number_of))]
#[inline]
pub fn number(word: &[u8], base: u32, most: usize) -> Option<u64>
    requires least_base { 2 ≤ base }
    requires greatest_base { base ≤ 16 }
    requires few { most ≤ 15 }
    ensures value { result ≡ number_of base most word.now }
    ensures below { IfSome result (λ number. number < 16 ^ most) }
{
    if word.is_empty() || word.len() > most {
        return None;
    }
    let mut number = 0;
    for octet in word {
        let digit = char::from(*octet).to_digit(base)?;
        number = number * base as u64 + digit as u64;
    }
    Some(number)
}

/// The number, where it is from `low` to `high`.
pub(crate) fn within(number: u64, low: u64, high: u64) -> Option<u64>
    ensures value { result ≡ within low high number }
    ensures least { IfSome result (λ x. low ≤ x) }
    ensures greatest { IfSome result (λ x. x ≤ high) }
{
    if low <= number && number <= high {
        Some(number)
    } else {
        None
    }
}

/// The number that one to four hexadecimal digits spell.
pub fn hexadecimal(word: &[u8]) -> Option<u16>
    ensures { result ≡ number_of 16 4 word.now }
{
    number(word, 16, 4).map(|number| number as u16)
}

/// The number that just four hexadecimal digits spell: a font's version.
#[tactic(auto, unfolding(crate::specs::Reading::version_of))]
pub fn version(word: &[u8]) -> Option<u16>
    ensures { result ≡ version_of word.now }
{
    if word.len() == 4 {
        hexadecimal(word)
    } else {
        None
    }
}
