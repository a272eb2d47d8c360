//! Values and names that an object holds.

ghost use Rattle.std.specs.Prelude.{◌≡◌, ◌≤◌, length, IfOk, vec_capacity};
ghost use Rattle.dms_wire_ber.specs.ObjectIdentifier.{IsName};
ghost use Rattle.dms_wire_ber.specs.NameReading.{numbers_of};
ghost use Rattle.dms_wire.specs.View.{object_value};
ghost use Rattle.dms_device.specs.View.{held_value, HasRoom};

use dms_wire::{Oid, Value};
use std::alloc::{AllocError, Global};
use std::marker::Model;

/// An object identifier, as its content octets. A contract sees the list of its numbers.
#[derive(Drop)]
pub(crate) struct HeldName {
    content: Vec<u8>,
}

impl Model for HeldName {
    ghost use Rattle.std.specs.Prelude.{ℕ, List};
    ghost use Rattle.dms_wire_ber.specs.ObjectIdentifier.{IsName};
    ghost use Rattle.dms_wire_ber.specs.NameReading.{numbers_of};

    ghost Value = { List ℕ };

    ghost view = { λ a. numbers_of a.content.items };

    ghost invariant = { λ a. IsName (numbers_of a.content.items) a.content.items };
}

impl HeldName {
    /// A copy of a name's content octets.
    pub(crate) fn held(alloc: Global, content: &[u8]) -> Result<HeldName, AllocError>
        requires { IsName (numbers_of content.now) content.now }
        ensures { IfOk result (λ name. name ≡ numbers_of content.now) }
    {
        let content = Vec::from_slice(alloc, content)?;
        Ok(HeldName { content })
    }

    /// The name, over the octets that are held.
    pub(crate) fn lent(&self) -> Oid<'_>
        ensures { result ≡ self.now }
    {
        Oid::known(self.content.as_slice())
    }
}

/// The content octets of a name.
pub(crate) fn content_of<'a>(name: &Oid<'a>) -> &'a [u8]
    ensures spelled { IsName (numbers_of result.now) result.now }
    ensures numbers { numbers_of result.now ≡ name.now }
{
    let _ = name.numbers();
    name.content()
}

/// The value of an object, with the octets that it holds.
#[derive(Drop)]
pub(crate) enum HeldValue {
    Integer(i64),
    Octets(Vec<u8>),
    Null,
    Name(HeldName),
    Address([u8; 4]),
    Counter(u32),
    Gauge(u32),
    Ticks(u32),
    Opaque(Vec<u8>),
}

impl HeldValue {
    /// A copy of a value, with room for so many octets where it is an OCTET STRING.
    pub(crate) fn held(
        alloc: Global,
        value: &Value<'_>,
        room: usize,
    ) -> Result<HeldValue, AllocError>
        ensures value { IfOk result (λ held. held_value held ≡ object_value value.now) }
        ensures room { IfOk result (HasRoom room) }
    {
        match value {
            Value::Integer(number) => Ok(HeldValue::Integer(*number)),
            Value::Octets(octets) => Ok(HeldValue::Octets(held_octets(alloc, octets, room)?)),
            Value::Null => Ok(HeldValue::Null),
            Value::Name(name) => Ok(HeldValue::Name(HeldName::held(alloc, content_of(name))?)),
            Value::Address(octets) => Ok(HeldValue::Address(*octets)),
            Value::Counter(number) => Ok(HeldValue::Counter(*number)),
            Value::Gauge(number) => Ok(HeldValue::Gauge(*number)),
            Value::Ticks(number) => Ok(HeldValue::Ticks(*number)),
            Value::Opaque(octets) => Ok(HeldValue::Opaque(held_octets(alloc, octets, 0)?)),
        }
    }

    /// The value, over the octets that are held.
    pub(crate) fn lent(&self) -> Value<'_>
        ensures { object_value result ≡ held_value self.now }
    {
        match self {
            HeldValue::Integer(number) => Value::Integer(*number),
            HeldValue::Octets(octets) => Value::Octets(octets.as_slice()),
            HeldValue::Null => Value::Null,
            HeldValue::Name(name) => Value::Name(name.lent()),
            HeldValue::Address(octets) => Value::Address(*octets),
            HeldValue::Counter(number) => Value::Counter(*number),
            HeldValue::Gauge(number) => Value::Gauge(*number),
            HeldValue::Ticks(number) => Value::Ticks(*number),
            HeldValue::Opaque(octets) => Value::Opaque(octets.as_slice()),
        }
    }
}

/// A copy of octets, with room for so many or more.
fn held_octets(alloc: Global, octets: &[u8], room: usize) -> Result<Vec<u8>, AllocError>
    ensures items { IfOk result (λ held. held.items ≡ octets.now) }
    ensures room { IfOk result (λ held. room ≤ vec_capacity held) }
{
    let mut held = Vec::with_capacity(alloc, room)?;
    held.extend_from_slice(octets)?;
    Ok(held)
}

/// Other octets in the place of those that are held, for which there is room.
pub(crate) fn hold(held: &mut Vec<u8>, octets: &[u8])
    requires { length octets.now ≤ vec_capacity held.old }
    ensures items { held.new.items ≡ octets.now }
    ensures room { vec_capacity held.old ≤ vec_capacity held.new }
{
    held.clear();
    let _ = held.extend_from_slice(octets);
}
