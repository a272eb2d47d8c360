//! Octets, texts, numbers and digits put into a buffer.

ghost use Rattle.std.specs.Prelude.{◌≡◌, ◌≤◌, ◌+◌, ◌*◌, ◌++◌, codes, length};
ghost use Rattle.hex.specs.Hex.{encode_lower};
ghost use Rattle.dms_text_filling.specs.Filling.{Puts, laid};

use crate::digit_table::{eight_digits, two_digits};
use itoa::{Buffer, Integer};

/// Puts octets into a buffer from a place on, as far as it reaches: the place after them, which stops at the greatest
/// number of a `usize`.
pub fn put(buffer: &mut [u8], place: usize, octets: &[u8]) -> usize
    ensures octets { Puts octets.now place buffer.old result buffer.new }
    ensures short { result ≤ place + length octets.now }
{
    put_within(buffer, place, octets);
    place.saturating_add(octets.len())
}

fn put_within(buffer: &mut [u8], place: usize, octets: &[u8])
    ensures { buffer.new ≡ laid place octets.now buffer.old }
{
    if place < buffer.len() {
        let fits = octets.len().min(buffer.len() - place);
        buffer[place..place + fits].copy_from_slice(&octets[..fits]);
    }
}

/// Puts a text.
pub fn put_text(buffer: &mut [u8], place: usize, text: &str) -> usize
    ensures octets { Puts text.now place buffer.old result buffer.new }
    ensures short { result ≤ place + length text.now }
{
    put(buffer, place, text.as_bytes())
}

/// Puts a text and another one.
pub fn put_texts(buffer: &mut [u8], place: usize, first: &str, other: &str) -> usize
    ensures octets { Puts (first.now ++ other.now) place buffer.old result buffer.new }
    ensures short { result ≤ place + length first.now + length other.now }
{
    let place = put_text(buffer, place, first);
    put_text(buffer, place, other)
}

/// Puts a number in decimal digits.
pub fn put_decimal<N: Integer>(buffer: &mut [u8], place: usize, number: N) -> usize
    ensures octets { Puts (N.text number) place buffer.old result buffer.new }
    ensures short { result ≤ place + N.MAX_STR_LEN }
{
    put(buffer, place, Buffer::new().format(number).as_bytes())
}

/// Puts a line: a name, a space and a number.
pub fn put_number<N: Integer>(buffer: &mut [u8], place: usize, name: &str, number: N) -> usize
    ensures octets { Puts (name.now ++ codes " " ++ N.text number ++ codes "\n") place buffer.old result buffer.new }
    ensures short { result ≤ place + length name.now + N.MAX_STR_LEN + 2 }
{
    let place = put_text(buffer, place, name);
    let place = put_text(buffer, place, " ");
    let place = put_decimal(buffer, place, number);
    put_text(buffer, place, "\n")
}

/// Puts octets as pairs of lower case hexadecimal digits.
pub fn put_digits(buffer: &mut [u8], place: usize, octets: &[u8]) -> usize
    ensures octets { Puts (encode_lower octets.now) place buffer.old result buffer.new }
    ensures short { result ≤ place + 2 * length octets.now }
{
    if place >= buffer.len() {
        return place.saturating_add(octets.len().saturating_mul(2));
    }
    put_pairs(buffer, place, octets)
}

/// The same, octet by octet, where the first has a place.
fn put_pairs(buffer: &mut [u8], place: usize, octets: &[u8]) -> usize
    ensures octets { Puts (encode_lower octets.now) place buffer.old result buffer.new }
    ensures short { result ≤ place + 2 * length octets.now }
{
    let mut end = place;
    let mut rest = octets;
    'eights: while let [a, b, c, d, e, f, g, h, more @ ..] = rest {
        end = put_eight(buffer, end, [*a, *b, *c, *d, *e, *f, *g, *h]);
        rest = more;
    }
    'last: while let [octet, more @ ..] = rest {
        let (high, low) = two_digits(*octet);
        end = put(buffer, end, &[high, low]);
        rest = more;
    }
    end
}

/// So of eight octets.
#[inline]
fn put_eight(buffer: &mut [u8], place: usize, octets: [u8; 8]) -> usize
    ensures octets { Puts (encode_lower octets) place buffer.old result buffer.new }
    ensures short { result ≤ place + 16 }
{
    let digits = eight_digits(octets);
    if place < buffer.len() && buffer.len() - place >= 16 {
        buffer[place..place + 16].copy_from_slice(&digits);
        return place + 16;
    }
    put(buffer, place, &digits)
}
