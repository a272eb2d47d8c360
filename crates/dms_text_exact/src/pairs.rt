//! Pairs of small hexadecimal digits.

ghost use Rattle.std.specs.Prelude.{◌≡◌, ◌*◌, ◌&&◌, ℕ, true, length, Ok, IfSome, is_some};
ghost use Rattle.std.specs.List.{list_all};
ghost use Rattle.hex.specs.Hex.{decode_of, pair_value};
ghost use Rattle.dms_text_exact.specs.ExactWords.{is_small_digit};

use dms_text::digit_value;

/// The octet that two small digits spell.
#[inline(always)]
fn octet_of(high: u8, low: u8) -> Option<u8>
    ensures small { is_some result ≡ (is_small_digit high && is_small_digit low) }
    ensures octet { IfSome result (λ octet. (index : ℕ) → pair_value high low index ≡ Ok octet) }
{
    let number = digit_value(high) * 16 + digit_value(low);
    if number <= 255 {
        Some(number as u8)
    } else {
        None
    }
}

/// Puts the octets that the pairs of a word spell, and answers whether all are of small digits: then all are put.
#[inline]
pub(crate) fn put_pairs(word: &[u8], octets: &mut [u8]) -> bool
    requires { length word.now ≡ 2 * length octets.old }
    ensures small { result ≡ list_all is_small_digit word.now }
    ensures octets { result ≡ true → decode_of word.now ≡ Ok octets.new }
{
    'pairs: for index in 0..octets.len() {
        match octet_of(word[2 * index], word[2 * index + 1]) {
            Some(octet) => octets[index] = octet,
            None => return false,
        }
    }
    true
}
