//! Names and values of objects, put into a buffer as words.

ghost use Rattle.std.specs.Prelude.{◌≡◌, ◌++◌, codes, decimal};
ghost use Rattle.std.specs.Fmt.{signed_decimal};
ghost use Rattle.dms_text_filling.specs.Filling.{Puts};
ghost use Rattle.dms_text_values.specs.ValueText.{octets_text, value_text};
ghost use Rattle.dms_wire.specs.View.{object_value};
ghost use Rattle.dms_wire_ber.specs.NameText.{dotted};

use dms_text_filling::{put_decimal, put_digits, put_text};
use dms_wire::{Oid, Value};

/// Puts a value with its type, without a space before or after it.
pub(crate) fn put_value(buffer: &mut [u8], place: usize, value: &Value<'_>) -> usize
    ensures { Puts (value_text (object_value value.now)) place buffer.old result buffer.new }
{
    match value {
        Value::Integer(number) => put_integer(buffer, place, *number),
        Value::Octets(octets) => put_octets(buffer, place, "OCTET STRING ", octets),
        Value::Null => put_text(buffer, place, "NULL"),
        Value::Name(name) => put_identifier(buffer, place, name),
        Value::Address(octets) => put_address(buffer, place, *octets),
        Value::Counter(number) => put_natural(buffer, place, "Counter ", *number),
        Value::Gauge(number) => put_natural(buffer, place, "Gauge ", *number),
        Value::Ticks(number) => put_natural(buffer, place, "TimeTicks ", *number),
        Value::Opaque(octets) => put_octets(buffer, place, "Opaque ", octets),
    }
}

fn put_integer(buffer: &mut [u8], place: usize, number: i64) -> usize
    ensures { Puts (codes "INTEGER " ++ signed_decimal number) place buffer.old result buffer.new }
{
    let place = put_text(buffer, place, "INTEGER ");
    put_decimal(buffer, place, number)
}

/// Puts the word of a type, and a number.
fn put_natural(buffer: &mut [u8], place: usize, kind: &str, number: u32) -> usize
    ensures { Puts (kind.now ++ decimal number) place buffer.old result buffer.new }
{
    let place = put_text(buffer, place, kind);
    put_decimal(buffer, place, number)
}

/// Puts the words of a type, and octets as pairs of small hexadecimal digits, `-` for none.
fn put_octets(buffer: &mut [u8], place: usize, kind: &str, octets: &[u8]) -> usize
    ensures { Puts (kind.now ++ octets_text octets.now) place buffer.old result buffer.new }
{
    let place = put_text(buffer, place, kind);
    put_pairs(buffer, place, octets)
}

fn put_pairs(buffer: &mut [u8], place: usize, octets: &[u8]) -> usize
    ensures { Puts (octets_text octets.now) place buffer.old result buffer.new }
{
    match octets {
        [] => put_text(buffer, place, "-"),
        [_, ..] => put_digits(buffer, place, octets),
    }
}

fn put_identifier(buffer: &mut [u8], place: usize, name: &Oid<'_>) -> usize
    ensures { Puts (codes "OBJECT IDENTIFIER " ++ dotted name.now) place buffer.old result buffer.new }
{
    let place = put_text(buffer, place, "OBJECT IDENTIFIER ");
    put_name(buffer, place, name)
}

/// Puts the numbers of a name with a dot between two.
pub(crate) fn put_name(buffer: &mut [u8], place: usize, name: &Oid<'_>) -> usize
    ensures { Puts (dotted name.now) place buffer.old result buffer.new }
{
    let mut rest = name.numbers();
    let Some(first) = rest.next() else {
        return put_text(buffer, place, "");
    };
    let mut end = put_decimal(buffer, place, first);
    while let Some(number) = rest.next() {
        end = put_dot(buffer, end, number);
    }
    end
}

/// Puts a dot and a number.
fn put_dot(buffer: &mut [u8], place: usize, number: u32) -> usize
    ensures { Puts (codes "." ++ decimal number) place buffer.old result buffer.new }
{
    let place = put_text(buffer, place, ".");
    put_decimal(buffer, place, number)
}

fn put_address(buffer: &mut [u8], place: usize, address: [u8; 4]) -> usize
    ensures { Puts (codes "IpAddress " ++ dotted address) place buffer.old result buffer.new }
{
    match address {
        [a, b, c, d] => {
            let place = put_text(buffer, place, "IpAddress ");
            let place = put_decimal(buffer, place, a);
            let place = put_dot(buffer, place, u32::from(b));
            let place = put_dot(buffer, place, u32::from(c));
            put_dot(buffer, place, u32::from(d))
        }
    }
}
