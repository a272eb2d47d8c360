//! Octets and numbers with dots between them, put into a buffer.

ghost use Rattle.std.specs.Prelude.{◌≤◌, ◌+◌, ◌*◌, ◌++◌, codes, length};
ghost use Rattle.dms_wire_ber.specs.NameText.{dotted};
ghost use Rattle.dms_text_filling.specs.Filling.{Puts};
ghost use Rattle.dms_text_values.specs.ValueText.{octets_text};

use dms_text_filling::{put_decimal, put_digits, put_text};
use itoa::Integer;

/// Puts octets as pairs of small hexadecimal digits, and `-` for none.
pub fn put_octets(buffer: &mut [u8], place: usize, octets: &[u8]) -> usize
    ensures octets { Puts (octets_text octets.now) place buffer.old result buffer.new }
    ensures short { result ≤ place + 2 * length octets.now + 1 }
{
    match octets {
        [] => put_text(buffer, place, "-"),
        [_, ..] => put_digits(buffer, place, octets),
    }
}

/// Puts four numbers with dots between them.
pub fn put_address(buffer: &mut [u8], place: usize, address: [u8; 4]) -> usize
    ensures octets { Puts (dotted address) place buffer.old result buffer.new }
    ensures short { result ≤ place + 15 }
{
    match address {
        [a, b, c, d] => {
            let place = put_decimal(buffer, place, a);
            let place = put_dot(buffer, place, b);
            let place = put_dot(buffer, place, c);
            put_dot(buffer, place, d)
        }
    }
}

/// Puts a dot and a number.
pub fn put_dot<N: Integer>(buffer: &mut [u8], place: usize, number: N) -> usize
    ensures octets { Puts (codes "." ++ N.text number) place buffer.old result buffer.new }
    ensures short { result ≤ place + 1 + N.MAX_STR_LEN }
{
    let place = put_text(buffer, place, ".");
    put_decimal(buffer, place, number)
}
