//! Values of objects and what a manager may write to them, as C gives them.

ghost use Rattle.std.specs.Prelude.{◌≡◌, option_map};
ghost use Rattle.dms_wire.specs.View.{object_value};
ghost use Rattle.wisangub_c_values.specs.ObjectValues.{natural_given, name_given, address_given, is_octets};
ghost use Rattle.wisangub_c_values.specs.ObjectValues.{octets_given, number_given, value_given, size_given};
ghost use Rattle.wisangub_c_values.specs.ObjectValues.{access_given, kind_of, number_of, octets_of, parts_of};

use dms_device::ManagerAccess;
use dms_wire::{Oid, Value};
use dms_wire_ber::name_of;

/// A value, but for its octets.
#[repr(C)]
#[derive(Clone, Copy)]
pub struct ValueParts {
    /// The number, of a type that has one, else 0.
    pub number: i64,
    /// The type: the tag that it has in a message.
    pub kind: u8,
}

/// What a manager may write to an object.
#[repr(C)]
#[derive(Clone, Copy)]
pub struct AccessParts {
    /// The smallest number, or the fewest octets.
    pub least: i64,
    /// The largest number, or the most octets.
    pub most: i64,
    /// 0 nothing, 1 a number, 2 octets.
    pub kind: u8,
}

fn natural_given(number: i64) -> Option<u32>
    ensures { result ≡ natural_given number }
{
    u32::try_from(number).ok()
}

/// The name with these content octets.
pub fn name_given(octets: &[u8]) -> Option<Oid<'_>>
    ensures { result ≡ name_given octets.now }
{
    name_of(octets)
}

fn address_given(octets: &[u8]) -> Option<Value<'_>>
    ensures { option_map object_value result ≡ address_given octets.now }
{
    match octets {
        [a, b, c, d] => Some(Value::Address([*a, *b, *c, *d])),
        _ => None,
    }
}

/// Whether a value of this type is its octets.
fn is_octets(kind: u8) -> bool
    ensures { result ≡ is_octets kind }
{
    matches!(kind, 4 | 6 | 64 | 68)
}

fn octets_given(kind: u8, octets: &[u8]) -> Option<Value<'_>>
    ensures { option_map object_value result ≡ octets_given kind octets.now }
{
    match kind {
        4 => Some(Value::Octets(octets)),
        6 => Some(Value::Name(name_given(octets)?)),
        64 => address_given(octets),
        68 => Some(Value::Opaque(octets)),
        _ => None,
    }
}

fn number_given<'a>(kind: u8, number: i64) -> Option<Value<'a>>
    ensures { option_map object_value result ≡ number_given kind number }
{
    match kind {
        2 => Some(Value::Integer(number)),
        5 => Some(Value::Null),
        65 => Some(Value::Counter(natural_given(number)?)),
        66 => Some(Value::Gauge(natural_given(number)?)),
        67 => Some(Value::Ticks(natural_given(number)?)),
        _ => None,
    }
}

/// The value of a type, with this number or these octets.
pub fn value_given<'a>(parts: &ValueParts, octets: &'a [u8]) -> Option<Value<'a>>
    ensures { option_map object_value result ≡ value_given parts.now octets.now }
{
    if is_octets(parts.kind) {
        octets_given(parts.kind, octets)
    } else {
        number_given(parts.kind, parts.number)
    }
}

fn size_given(number: i64) -> Option<u16>
    ensures { result ≡ size_given number }
{
    u16::try_from(number).ok()
}

/// What a manager may write.
pub fn access_given(parts: &AccessParts) -> Option<ManagerAccess>
    ensures { result ≡ access_given parts.now }
{
    match parts.kind {
        0 => Some(ManagerAccess::ReadOnly),
        1 => Some(ManagerAccess::Number {
            least: parts.least,
            most: parts.most,
        }),
        2 => Some(ManagerAccess::Octets {
            least: size_given(parts.least)?,
            most: size_given(parts.most)?,
        }),
        _ => None,
    }
}

fn kind_of(value: &Value<'_>) -> u8
    ensures { result ≡ kind_of (object_value value.now) }
{
    match value {
        Value::Integer(_) => 2,
        Value::Octets(_) => 4,
        Value::Null => 5,
        Value::Name(_) => 6,
        Value::Address(_) => 64,
        Value::Counter(_) => 65,
        Value::Gauge(_) => 66,
        Value::Ticks(_) => 67,
        Value::Opaque(_) => 68,
    }
}

fn number_of(value: &Value<'_>) -> i64
    ensures { result ≡ number_of (object_value value.now) }
{
    match value {
        Value::Integer(number) => *number,
        Value::Counter(number) => i64::from(*number),
        Value::Gauge(number) => i64::from(*number),
        Value::Ticks(number) => i64::from(*number),
        _ => 0,
    }
}

/// The octets of a value, which are none where it is its number.
pub fn octets_of<'v>(value: &'v Value<'_>) -> &'v [u8]
    ensures { result.now ≡ octets_of (object_value value.now) }
{
    match value {
        Value::Octets(octets) | Value::Opaque(octets) => octets,
        Value::Name(name) => name.content(),
        Value::Address(octets) => octets,
        _ => &[],
    }
}

/// A value, but for its octets.
pub fn parts_of(value: &Value<'_>) -> ValueParts
    ensures { result ≡ parts_of (object_value value.now) }
{
    ValueParts {
        number: number_of(value),
        kind: kind_of(value),
    }
}
