//! Numbers without a needless zero.

ghost use Rattle.std.specs.Prelude.{◌≡◌, ◌≤◌, true, IfSome};
ghost use Rattle.std.specs.List.{list_any};
ghost use Rattle.std.specs.Str.{byte};
ghost use Rattle.dms_text.specs.Words.{parts_of};
ghost use Rattle.dms_wire_ber.specs.Integer.{in_range};
ghost use Rattle.dms_text_exact.specs.ExactWords.{has_needless_zero, number_in, integer_in, address_in};

use dms_text::split_once;

fn has_needless_zero(word: &[u8]) -> bool
    ensures { result ≡ has_needless_zero word.now }
{
    matches!(word, [b'0', _, ..] | [b'-', b'0', ..])
}

/// The number of one to ten decimal digits, from `low` to `high`, that a word is.
#[tactic(auto, unfolding(crate::specs::ExactWords::number_in))]
pub fn number(low: u32, high: u32, word: &[u8]) -> Option<u32>
    ensures value { result ≡ number_in low high word.now }
    ensures least { IfSome result (λ x. low ≤ x) }
    ensures most { IfSome result (λ x. x ≤ high) }
{
    if has_needless_zero(word) {
        return None;
    }
    let number = dms_text::number(word, 10, 10)?;
    if u64::from(low) <= number && number <= u64::from(high) {
        Some(number as u32)
    } else {
        None
    }
}

/// The number from -2^31 to 2^32 - 1 that a word is.
#[tactic(auto, unfolding(crate::specs::ExactWords::integer_in))]
pub fn integer(word: &[u8]) -> Option<i64>
    ensures value { result ≡ integer_in word.now }
    ensures range { IfSome result (λ z. in_range z ≡ true) }
{
    if has_needless_zero(word) {
        None
    } else {
        dms_text_values::integer_of(word)
    }
}

#[tactic(auto, using(crate::proofs::AddressLaws::zeros))]
fn has_zero_in_parts(word: &[u8]) -> bool
    ensures { result ≡ list_any has_needless_zero (parts_of (byte ".") word.now) }
{
    let mut rest = word;
    while let Some((part, more)) = split_once(rest, b'.') {
        if has_needless_zero(part) {
            return true;
        }
        rest = more;
    }
    has_needless_zero(rest)
}

/// The four numbers of one octet each, with dots between them, that a word is.
#[tactic(auto, unfolding(crate::specs::ExactWords::address_in))]
pub fn address(word: &[u8]) -> Option<[u8; 4]>
    ensures { result ≡ address_in word.now }
{
    if has_zero_in_parts(word) {
        None
    } else {
        dms_text_forms::address(word)
    }
}
