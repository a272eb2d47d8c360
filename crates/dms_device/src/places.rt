//! The places of objects in the order of their names, found by halving; and what is written at a place.

ghost use Rattle.std.specs.Prelude.{◌≡◌, ◌<◌, ◌≤◌, true, false, length, map, OnOk, OnErr, IfOk, IfErr};
ghost use Rattle.std.specs.List.{position_or_len, list_any, HoldsAt};
ghost use Rattle.dms_wire.specs.View.{var_bind};
ghost use Rattle.dms_device.specs.Objects.{has_name, comes_after, rises};
ghost use Rattle.dms_device.specs.Publishing.{published, withdrawn};
ghost use Rattle.dms_device.specs.Setting.{set_by_binding};
ghost use Rattle.dms_device.specs.Taken.{was_set, told, told_first};

use crate::object::PublishedObject;
use dms_wire::{Bind, Oid};
use std::alloc::AllocError;

/// How many places are kept of a Set: a datagram has about so many names of objects.
pub(crate) const PLACES: usize = 64;

/// Where the objects may stand that the names of a Set are those of, one after the other. It is looked whether they do.
pub(crate) type Places = [u32; PLACES];

/// Nothing is known.
pub(crate) const NO_PLACES: Places = [0; PLACES];

/// The place of the first object that comes after a name, or how many there are.
pub(crate) fn place_after(objects: &[PublishedObject], name: &Oid<'_>) -> usize
    requires { rises objects.now ≡ true }
    ensures place { result ≡ position_or_len (comes_after name.now) objects.now }
    ensures few { result ≤ length objects.now }
{
    let mut low = 0;
    let mut high = objects.len();
    while low < high {
        let middle = low + (high - low) / 2;
        let object = &objects[middle];
        if object.comes_after(name) {
            high = middle;
        } else {
            low = middle + 1;
        }
    }
    low
}

/// The place of the object that has a name, or else the place where it would stand.
pub(crate) fn place_of(objects: &[PublishedObject], name: &Oid<'_>) -> Result<usize, usize>
    requires { rises objects.now ≡ true }
    ensures within { IfOk result (λ place. place < length objects.now) }
    ensures found { IfOk result (HoldsAt (λ object. has_name name.now object ≡ true) objects.now) }
    ensures none { OnErr result (list_any (has_name name.now) objects.now ≡ false) }
    ensures place { IfErr result (λ place. place ≡ position_or_len (comes_after name.now) objects.now) }
    ensures few { IfErr result (λ place. place ≤ length objects.now) }
{
    let after = place_after(objects, name);
    if after == 0 {
        return Err(after);
    }
    let object = &objects[after - 1];
    if object.has_name(name) {
        Ok(after - 1)
    } else {
        Err(after)
    }
}

/// The same, where the object may well stand at a place: there it is looked for first.
pub(crate) fn place_near(
    objects: &[PublishedObject],
    name: &Oid<'_>,
    near: usize,
) -> Result<usize, usize>
    requires { rises objects.now ≡ true }
    ensures within { IfOk result (λ place. place < length objects.now) }
    ensures found { IfOk result (HoldsAt (λ object. has_name name.now object ≡ true) objects.now) }
    ensures none { OnErr result (list_any (has_name name.now) objects.now ≡ false) }
{
    if near < objects.len() {
        let object = &objects[near];
        if object.has_name(name) {
            return Ok(near);
        }
    }
    place_of(objects, name)
}

/// Puts an object into its place, in place of the one that has its name.
pub(crate) fn put_object(
    objects: &mut Vec<PublishedObject>,
    object: PublishedObject,
) -> Result<(), AllocError>
    requires { rises objects.old.items ≡ true }
    ensures done { OnOk result (objects.new.items ≡ published objects.old.items object) }
    ensures kept { OnErr result (objects.new.items ≡ objects.old.items) }
    ensures memory { OnErr result (list_any (has_name object.name) objects.old.items ≡ false) }
    ensures rises { rises objects.new.items ≡ true }
{
    match place_of(objects.as_slice(), &object.name()) {
        Ok(place) => {
            objects[place] = object;
            Ok(())
        }
        Err(place) => {
            objects.insert(place, object)?;
            Ok(())
        }
    }
}

/// Takes the object of a name away, where there is one.
pub(crate) fn take_object(objects: &mut Vec<PublishedObject>, name: &Oid<'_>) -> bool
    requires { rises objects.old.items ≡ true }
    ensures done { objects.new.items ≡ withdrawn objects.old.items name.now }
    ensures found { result ≡ list_any (has_name name.now) objects.old.items }
    ensures rises { rises objects.new.items ≡ true }
{
    match place_of(objects.as_slice(), name) {
        Ok(place) => {
            let _ = objects.remove(place);
            true
        }
        Err(_) => false,
    }
}

/// Sets the object of a binding's name to its value, where it takes it. The object may well stand at a place.
pub(crate) fn set_object(objects: &mut Vec<PublishedObject>, binding: &Bind<'_>, near: usize)
    requires { rises objects.old.items ≡ true }
    ensures done { objects.new.items ≡ map (set_by_binding (var_bind binding.now)) objects.old.items }
    ensures rises { rises objects.new.items ≡ true }
{
    if let Ok(place) = place_near(objects.as_slice(), &binding.name, near) {
        set_there(objects, place, binding);
    }
}

/// Sets the object at a place, which has a binding's name, to its value, where it takes it.
#[inline(always)]
pub(crate) fn set_there(objects: &mut Vec<PublishedObject>, place: usize, binding: &Bind<'_>)
    requires rises { rises objects.old.items ≡ true }
    requires within { place < length objects.old.items }
    requires found { HoldsAt (λ object. has_name (var_bind binding.now).name object ≡ true) objects.old.items place }
    ensures done { objects.new.items ≡ map (set_by_binding (var_bind binding.now)) objects.old.items }
    ensures rises { rises objects.new.items ≡ true }
{
    let object = &mut objects[place];
    object.set(&binding.value);
}

/// The place of the first object that was set, or how many there are.
pub(crate) fn place_set(objects: &[PublishedObject]) -> usize
    ensures place { result ≡ position_or_len was_set objects.now }
    ensures few { result ≤ length objects.now }
{
    for (place, object) in objects.iter().enumerate() {
        if object.is_set() {
            return place;
        }
    }
    objects.len()
}

/// Notes that firmware was told of the first object that was set, where there is one.
pub(crate) fn tell_object(objects: &mut Vec<PublishedObject>)
    requires { rises objects.old.items ≡ true }
    ensures done { objects.new.items ≡ told_first objects.old.items }
    ensures rises { rises objects.new.items ≡ true }
{
    let place = place_set(objects.as_slice());
    if place < objects.len() {
        let object = &mut objects[place];
        object.tell();
    }
}

/// Notes that firmware was told of all objects.
#[tactic(auto, using(crate::proofs::Telling::all_told))]
pub(crate) fn tell_objects(objects: &mut Vec<PublishedObject>)
    requires { rises objects.old.items ≡ true }
    ensures done { objects.new.items ≡ map told objects.old.items }
    ensures rises { rises objects.new.items ≡ true }
{
    tell_all_of(objects);
}

fn tell_all_of(objects: &mut Vec<PublishedObject>)
    ensures { objects.new.items ≡ map told objects.old.items }
{
    tell_each(objects.as_mut_slice());
}

fn tell_each(objects: &mut [PublishedObject])
    ensures { objects.new ≡ map told objects.old }
{
    for object in objects.iter_mut() {
        object.tell();
    }
}
