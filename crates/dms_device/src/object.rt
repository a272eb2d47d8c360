//! An object that firmware publishes.

ghost use Rattle.std.specs.Prelude.{◌≡◌, true, None, IfOk, IfErr, OnOk};
ghost use Rattle.dms_wire.specs.View.{object_value};
ghost use Rattle.dms_device.specs.Object.{object_fault, IsFirstFault, new_object, can_be_sent, admits};
ghost use Rattle.dms_device.specs.View.{held_value, IsHeldFor};
ghost use Rattle.dms_device.specs.Setting.{set_to};
ghost use Rattle.dms_device.specs.Objects.{has_name, comes_after};
ghost use Rattle.dms_device.specs.Taken.{told};

use crate::access::ManagerAccess;
use crate::fault::ObjectFault;
use crate::held::{HeldName, HeldValue, hold};
use crate::names::{is_before, is_same};
use dms_wire::{Oid, Value};
use dms_wire_ber::is_name;
use std::alloc::{AllocError, Global};
use std::marker::Model;

/// An object: its name, what it reads, and what a manager may write to it. It has room for all of that.
#[derive(Drop)]
pub struct PublishedObject {
    name: HeldName,
    value: HeldValue,
    access: ManagerAccess,
    /// A manager set it, and firmware was not told yet.
    is_set: bool,
    /// Its value is one that a manager set.
    by_manager: bool,
}

impl Model for PublishedObject {
    ghost use Rattle.dms_device.specs.Object.{DeviceObject};
    ghost use Rattle.dms_device.specs.View.{held_value, IsHeldFor};

    ghost Value = { DeviceObject };

    ghost view = { λ a. record {
      name = a.name;
      value = held_value a.value;
      access = a.access;
      is_set = a.is_set;
      by_manager = a.by_manager;
    } };

    ghost invariant = { λ a. IsHeldFor a.access a.value };
}

impl PublishedObject {
    /// The object with this name, of which these are the content octets (X.690, 8.19), or the first thing that is
    /// wrong; it runs out of memory only where nothing is.
    pub fn new(
        alloc: Global,
        name: &[u8],
        value: &Value<'_>,
        access: ManagerAccess,
    ) -> Result<PublishedObject, ObjectFault>
        ensures made { IfOk result (λ object. object ≡ new_object name.now (object_value value.now) access) }
        ensures faultless { OnOk result (object_fault name.now (object_value value.now) access ≡ None) }
        ensures fault { IfErr result (IsFirstFault (object_fault name.now (object_value value.now) access)) }
    {
        if let Some(fault) = fault_of(name, value, &access) {
            return Err(fault);
        }
        match PublishedObject::held(alloc, name, value, access) {
            Ok(object) => Ok(object),
            Err(_) => Err(ObjectFault::OutOfMemory),
        }
    }

    fn held(
        alloc: Global,
        name: &[u8],
        value: &Value<'_>,
        access: ManagerAccess,
    ) -> Result<PublishedObject, AllocError>
        requires { object_fault name.now (object_value value.now) access ≡ None }
        ensures { IfOk result (λ object. object ≡ new_object name.now (object_value value.now) access) }
    {
        let name = HeldName::held(alloc, name)?;
        let value = HeldValue::held(alloc, value, access.room())?;
        Ok(PublishedObject {
            name,
            value,
            access,
            is_set: false,
            by_manager: false,
        })
    }

    /// Its name.
    pub fn name(&self) -> Oid<'_>
        ensures { result ≡ self.now.name }
    {
        self.name.lent()
    }

    /// What it reads.
    pub fn value(&self) -> Value<'_>
        ensures { object_value result ≡ self.now.value }
    {
        self.value.lent()
    }

    /// What a manager may write to it.
    pub fn access(&self) -> ManagerAccess
        ensures { result ≡ self.now.access }
    {
        self.access
    }

    /// Whether a manager set it, and firmware was not told yet.
    pub fn is_set(&self) -> bool
        ensures { result ≡ self.now.is_set }
    {
        self.is_set
    }

    /// Whether its value is one that a manager set, firmware told of it or not.
    pub fn is_by_manager(&self) -> bool
        ensures { result ≡ self.now.by_manager }
    {
        self.by_manager
    }

    pub(crate) fn has_name(&self, name: &Oid<'_>) -> bool
        ensures { result ≡ has_name name.now self.now }
    {
        is_same(&self.name(), name)
    }

    pub(crate) fn comes_after(&self, name: &Oid<'_>) -> bool
        ensures { result ≡ comes_after name.now self.now }
    {
        is_before(name, &self.name())
    }

    /// Writes a value, where it is one that a manager may write.
    pub(crate) fn set(&mut self, value: &Value<'_>)
        ensures { self.new ≡ set_to self.old (object_value value.now) }
    {
        let access = self.access();
        if access.admits(value) {
            assign(&mut self.value, &access, value);
            self.is_set = true;
            self.by_manager = true;
        }
    }

    /// Notes that firmware was told.
    pub(crate) fn tell(&mut self)
        ensures { self.new ≡ told self.old }
    {
        self.is_set = false;
    }
}

/// The first thing that is wrong with an object.
fn fault_of(name: &[u8], value: &Value<'_>, access: &ManagerAccess) -> Option<ObjectFault>
    ensures { result ≡ object_fault name.now (object_value value.now) access.now }
{
    if !is_name(name) {
        return Some(ObjectFault::NoName);
    }
    if !can_be_sent(value) {
        return Some(ObjectFault::NoInteger);
    }
    if !access.fits(value) {
        return Some(ObjectFault::Unfit);
    }
    None
}

/// An INTEGER that a message can have, or any other value.
fn can_be_sent(value: &Value<'_>) -> bool
    ensures { result ≡ can_be_sent (object_value value.now) }
{
    match value {
        Value::Integer(number) => -0x8000_0000 <= *number && *number <= 0xffff_ffff,
        _ => true,
    }
}

/// Assigns a value that a manager may write.
fn assign(held: &mut HeldValue, access: &ManagerAccess, value: &Value<'_>)
    requires admitted { admits access.now (object_value value.now) ≡ true }
    requires kind { IsHeldFor access.now held.old }
    ensures value { held_value held.new ≡ object_value value.now }
    ensures kind { IsHeldFor access.now held.new }
{
    match (held, value) {
        (HeldValue::Integer(held), Value::Integer(number)) => *held = *number,
        (HeldValue::Octets(held), Value::Octets(octets)) => hold(held, octets),
        _ => {}
    }
}
