//! The values of hexadecimal digits, and what pairs of them spell, looked up in a table.

ghost use Rattle.std.specs.Prelude.{◌≡◌, ◌≤◌, ◌*◌, ◌&&◌, ℕ, true, length, Ok, IfSome, is_some};
ghost use Rattle.std.specs.List.{list_all};
ghost use Rattle.hex.specs.Hex.{decode_of, is_hex_digit, pair_value};
ghost use Rattle.dms_text.specs.Reading.{digit_value};

/// The value of an octet that is no digit. The digits of a pair, the first of them 16 times, are below it.
const NO_DIGIT: u32 = 8192;

/// For each octet the value of the digit that it is, of a capital one 256 more, and `NO_DIGIT` where it is none.
const VALUES: [u16; 256] = [
    8192, 8192, 8192, 8192, 8192, 8192, 8192, 8192, 8192, 8192, 8192, 8192, 8192, 8192, 8192, 8192,
    8192, 8192, 8192, 8192, 8192, 8192, 8192, 8192, 8192, 8192, 8192, 8192, 8192, 8192, 8192, 8192,
    8192, 8192, 8192, 8192, 8192, 8192, 8192, 8192, 8192, 8192, 8192, 8192, 8192, 8192, 8192, 8192,
    0, 1, 2, 3, 4, 5, 6, 7, 8, 9, 8192, 8192, 8192, 8192, 8192, 8192, 8192, 266, 267, 268, 269,
    270, 271, 8192, 8192, 8192, 8192, 8192, 8192, 8192, 8192, 8192, 8192, 8192, 8192, 8192, 8192,
    8192, 8192, 8192, 8192, 8192, 8192, 8192, 8192, 8192, 8192, 8192, 8192, 10, 11, 12, 13, 14, 15,
    8192, 8192, 8192, 8192, 8192, 8192, 8192, 8192, 8192, 8192, 8192, 8192, 8192, 8192, 8192, 8192,
    8192, 8192, 8192, 8192, 8192, 8192, 8192, 8192, 8192, 8192, 8192, 8192, 8192, 8192, 8192, 8192,
    8192, 8192, 8192, 8192, 8192, 8192, 8192, 8192, 8192, 8192, 8192, 8192, 8192, 8192, 8192, 8192,
    8192, 8192, 8192, 8192, 8192, 8192, 8192, 8192, 8192, 8192, 8192, 8192, 8192, 8192, 8192, 8192,
    8192, 8192, 8192, 8192, 8192, 8192, 8192, 8192, 8192, 8192, 8192, 8192, 8192, 8192, 8192, 8192,
    8192, 8192, 8192, 8192, 8192, 8192, 8192, 8192, 8192, 8192, 8192, 8192, 8192, 8192, 8192, 8192,
    8192, 8192, 8192, 8192, 8192, 8192, 8192, 8192, 8192, 8192, 8192, 8192, 8192, 8192, 8192, 8192,
    8192, 8192, 8192, 8192, 8192, 8192, 8192, 8192, 8192, 8192, 8192, 8192, 8192, 8192, 8192, 8192,
    8192, 8192, 8192, 8192, 8192, 8192, 8192, 8192, 8192, 8192, 8192, 8192, 8192, 8192, 8192, 8192,
    8192, 8192, 8192, 8192, 8192, 8192, 8192, 8192, 8192,
];

/// The value of a hexadecimal digit, 0 to 15: of a capital one it is 256 more, and of what is none 8192. So 16 times
/// the value of one and that of another are at most 255 where both are small digits, and below 8192 where both are
/// digits.
#[inline(always)]
pub fn digit_value(octet: u8) -> u32
    ensures value { result ≡ digit_value octet }
    ensures most { result ≤ 8192 }
{
    u32::from(VALUES[usize::from(octet)])
}

/// Whether an octet is a hexadecimal digit, small or capital.
#[inline(always)]
pub(crate) fn is_digit(octet: u8) -> bool
    ensures { result ≡ is_hex_digit octet }
{
    digit_value(octet) < NO_DIGIT
}

/// The octet that two digits spell.
#[inline(always)]
fn octet_of(high: u8, low: u8) -> Option<u8>
    ensures digits { is_some result ≡ (is_hex_digit high && is_hex_digit low) }
    ensures octet { IfSome result (λ octet. (index : ℕ) → pair_value high low index ≡ Ok octet) }
{
    let number = digit_value(high) * 16 + digit_value(low);
    if number < NO_DIGIT {
        Some((number % 256) as u8)
    } else {
        None
    }
}

/// Puts the octets that the pairs of a word spell, and answers whether all are of digits: then all are put.
#[inline]
pub(crate) fn put_pairs(word: &[u8], octets: &mut [u8]) -> bool
    requires { length word.now ≡ 2 * length octets.old }
    ensures digits { result ≡ list_all is_hex_digit word.now }
    ensures octets { result ≡ true → decode_of word.now ≡ Ok octets.new }
{
    'pairs: for index in 0..octets.len() {
        match octet_of(word[2 * index], word[2 * index + 1]) {
            Some(octet) => octets[index] = octet,
            None => return false,
        }
    }
    true
}
