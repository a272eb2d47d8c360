//! Values of objects (RFC 1155, 3.2).

ghost use Rattle.std.specs.Prelude.{◌≡◌, ◌↔◌, ℕ, ◌+◌, ◌^◌, ◌<◌, ◌≤◌, ◌++◌, List, [], ◌∷◌, pos};
ghost use Rattle.std.specs.Prelude.{length, map, IsOk, IfOk, OnOk, OnErr, IfSome, IfNone};
ghost use Rattle.arrayvec.specs.ArrayVec.{array_vec_len};
ghost use Rattle.dms_wire_ber.specs.Reading.{Gives};
ghost use Rattle.dms_wire.specs.Reading.{value_from, after_tag, is_value_tag, value_at};
ghost use Rattle.dms_wire.specs.Message.{integer};
ghost use Rattle.dms_wire.specs.View.{object_value};
ghost use Rattle.dms_wire.specs.Canonical.{value_octets};
ghost use Rattle.dms_wire_ber.specs.Limits.{longest_datagram};

use crate::tag;
use dms_wire_ber::{
    FaultKind, Oid, Out, WireFault, fault_at, integer_of, name_of, natural_of, offset_of,
    put_empty, put_integer, put_octets, put_unsigned, read_content, size_of_integer,
    size_of_octets, size_of_unsigned, tag as universal,
};

/// The value of an object (RFC 1155, 3.2).
#[derive(Debug, Default, PartialEq, Eq, Drop)]
pub enum Value<'a> {
    /// An INTEGER, from -2^31 to 2^32 - 1 in what is read (3.2.1; this profile).
    Integer(i64),
    /// An OCTET STRING of any octets (3.2.1).
    Octets(&'a [u8]),
    /// NULL, as in a request for a value (3.2.1).
    #[default]
    Null,
    /// An OBJECT IDENTIFIER (3.2.1).
    Name(Oid<'a>),
    /// An IpAddress: the four octets of an internet address, in network order (3.2.3.2).
    Address([u8; 4]),
    /// A Counter, which grows and begins again at 0 after 2^32 - 1 (3.2.3.3).
    Counter(u32),
    /// A Gauge, which may grow and shrink (3.2.3.4).
    Gauge(u32),
    /// TimeTicks: hundredths of a second (3.2.3.5).
    Ticks(u32),
    /// Opaque: the octets of any other encoding (3.2.3.6).
    Opaque(&'a [u8]),
}

/// Whether the tag is one of a value.
#[inline(always)]
fn is_value_tag(tag: u8) -> bool
    ensures { result ≡ is_value_tag tag }
{
    matches!(
        tag,
        universal::INTEGER
            | universal::OCTET_STRING
            | universal::NULL
            | universal::OBJECT_IDENTIFIER
            | tag::IP_ADDRESS..=tag::OPAQUE
    )
}

/// The value that a tag and a content are. `before` is the offset of the length, and `place` that of the content.
#[inline(always)]
#[tactic(auto, unfolding(crate::specs::Reading::value_from))]
fn value_of(tag: u8, before: usize, place: usize, content: &[u8]) -> Result<Value<'_>, WireFault>
    ensures { Gives object_value result (value_from tag before place content.now) }
{
    let bad_integer = fault_at(FaultKind::BadInteger, place);
    let bad_length = fault_at(FaultKind::BadLength, before);
    match tag {
        universal::INTEGER => Ok(Value::Integer(integer_of(content).ok_or(bad_integer)?)),
        universal::OCTET_STRING => Ok(Value::Octets(content)),
        universal::NULL => match content {
            [] => Ok(Value::Null),
            _ => Err(bad_length),
        },
        universal::OBJECT_IDENTIFIER => Ok(Value::Name(name_of(content).ok_or(fault_at(
            FaultKind::BadName,
            place,
        ))?)),
        tag::IP_ADDRESS => match content {
            [a, b, c, d] => Ok(Value::Address([*a, *b, *c, *d])),
            _ => Err(bad_length),
        },
        tag::COUNTER => Ok(Value::Counter(natural_of(content).ok_or(bad_integer)?)),
        tag::GAUGE => Ok(Value::Gauge(natural_of(content).ok_or(bad_integer)?)),
        tag::TIME_TICKS => Ok(Value::Ticks(natural_of(content).ok_or(bad_integer)?)),
        _ => Ok(Value::Opaque(content)),
    }
}

/// What follows the tag of a value: the value, and the octets after it.
#[inline(always)]
#[tactic(auto, unfolding(crate::specs::Reading::after_tag))]
fn tagged_value(tag: u8, octets: &[u8], end: usize) -> Result<(Value<'_>, &[u8]), WireFault>
    requires { length octets.now ≤ end }
    ensures exact { Gives (λ x. (object_value x.0, x.1.now)) result (after_tag tag end octets.now) }
    ensures rest { IfOk result (λ x. length x.1.now < length octets.now) }
{
    let (content, rest) = read_content(octets, end)?;
    let place = offset_of(content, offset_of(rest, end));
    let value = value_of(tag, offset_of(octets, end), place, content)?;
    Ok((value, rest))
}

/// A value, and the octets after it.
#[inline(always)]
#[tactic(auto, unfolding(crate::specs::Reading::value_at))]
pub(crate) fn read_value(octets: &[u8], end: usize) -> Result<(Value<'_>, &[u8]), WireFault>
    requires { length octets.now ≤ end }
    ensures exact { Gives (λ x. (object_value x.0, x.1.now)) result (value_at end octets.now) }
    ensures rest { IfOk result (λ x. length x.1.now < length octets.now) }
{
    match octets {
        [] => Err(fault_at(FaultKind::Truncated, end)),
        [universal::NULL, 0, rest @ ..] => Ok((Value::Null, rest)),
        [tag, rest @ ..] if is_value_tag(*tag) => tagged_value(*tag, rest, end),
        _ => Err(fault_at(FaultKind::BadTag, offset_of(octets, end))),
    }
}

/// The content of a value that is an INTEGER of one octet, its first bit 0.
#[inline(always)]
pub(crate) fn small_integer(value: &Value<'_>) -> Option<u8>
    ensures { IfSome result (λ octet. (object_value value.now ≡ integer (pos octet)) × (octet < 128)) }
{
    match value {
        Value::Integer(number) if 0 <= *number && *number < 128 => Some(*number as u8),
        _ => None,
    }
}

/// How many octets a value takes.
#[inline]
#[tactic(auto, using(crate::proofs::Sizes::sizes))]
pub(crate) fn size_of_value(value: &Value<'_>) -> usize
    ensures { result ≡ length (value_octets (object_value value.now)) }
{
    match value {
        Value::Integer(number) => size_of_integer(number),
        Value::Octets(octets) | Value::Opaque(octets) => size_of_octets(octets),
        Value::Null => size_of_octets(&[]),
        Value::Name(name) => size_of_octets(name.content()),
        Value::Address(octets) => size_of_octets(octets),
        Value::Counter(number) => size_of_unsigned(*number),
        Value::Gauge(number) => size_of_unsigned(*number),
        Value::Ticks(number) => size_of_unsigned(*number),
    }
}

/// Writes a value: those that most bindings have, with no call.
#[inline(always)]
pub(crate) fn put_value(out: &mut Out, value: &Value<'_>)
    requires { array_vec_len out.old + length (value_octets (object_value value.now)) ≤ longest_datagram }
    ensures { out.new.items ≡ out.old.items ++ value_octets (object_value value.now) }
{
    match value {
        Value::Integer(number) => put_integer(out, number),
        Value::Octets(octets) => put_octets(out, universal::OCTET_STRING, octets),
        Value::Null => put_empty(out, universal::NULL),
        _ => put_any_value(out, value),
    }
}

/// Writes a value of any type.
#[inline(never)]
fn put_any_value(out: &mut Out, value: &Value<'_>)
    requires { array_vec_len out.old + length (value_octets (object_value value.now)) ≤ longest_datagram }
    ensures { out.new.items ≡ out.old.items ++ value_octets (object_value value.now) }
{
    match value {
        Value::Integer(number) => put_integer(out, number),
        Value::Octets(octets) => put_octets(out, universal::OCTET_STRING, octets),
        Value::Null => put_empty(out, universal::NULL),
        Value::Name(name) => put_octets(out, universal::OBJECT_IDENTIFIER, name.content()),
        Value::Address(octets) => put_octets(out, tag::IP_ADDRESS, octets),
        Value::Counter(number) => put_unsigned(out, tag::COUNTER, *number),
        Value::Gauge(number) => put_unsigned(out, tag::GAUGE, *number),
        Value::Ticks(number) => put_unsigned(out, tag::TIME_TICKS, *number),
        Value::Opaque(octets) => put_octets(out, tag::OPAQUE, octets),
    }
}
