//! A manager's Set: each binding is judged, in order; then all values are assigned.

ghost use Rattle.std.specs.Prelude.{◌≡◌, ◌<◌, ◌≤◌, true, [], ◌∷◌, map, take, length, is_some, IfSome, IfNone};
ghost use Rattle.std.specs.List.{list_all, HoldsAt};
ghost use Rattle.dms_wire.specs.Limits.{most_bindings};
ghost use Rattle.dms_wire.specs.View.{var_bind};
ghost use Rattle.dms_sign_access.specs.Slots.{AreTaken};
ghost use Rattle.dms_device.specs.Objects.{has_name, rises, binding_of};
ghost use Rattle.dms_device.specs.Setting.{is_named, are_all_named, refusal_at, refusal_of};
ghost use Rattle.dms_device.specs.Setting.{set_by_binding, written, written_unless};
ghost use Rattle.dms_device.specs.View.{refusal_in, status_in};

use crate::fault::BindingFault;
use crate::object::PublishedObject;
use crate::places::{PLACES, Places, place_of, set_object, set_there};
use dms_sign_access::{Slots, mark_name, was_given};
use dms_wire::{Bind, Binds, ErrorStatus};

/// Why a Set is refused, where it is.
pub(crate) fn judged(
    objects: &[PublishedObject],
    may_write: bool,
    binds: &Binds<'_>,
) -> Result<(), BindingFault>
    requires rises { rises objects.now ≡ true }
    requires few { length binds.now ≤ most_bindings }
    ensures { refusal_in result ≡ refusal_of objects.now may_write binds.now }
{
    let mut index = 0;
    let mut slots: Slots = [0; 16];
    let mut rest = binds.again();
    while let Some(binding) = rest.next() {
        let checked = judged_at(objects, may_write, binds, index, &slots, &binding);
        index += 1;
        if let Err(status) = checked {
            return Err(BindingFault { index, status });
        }
        mark_name(&mut slots, &binding.name);
    }
    Ok(())
}

/// Why a Set is refused, where it is; nothing, where its names are not all those of objects, or it has none. `places`
/// has where the objects stand, as long as no binding is refused.
pub(crate) fn judged_own(
    objects: &[PublishedObject],
    may_write: bool,
    binds: &Binds<'_>,
    places: &mut Places,
) -> Option<Result<(), BindingFault>>
    requires rises { rises objects.now ≡ true }
    requires few { length binds.now ≤ most_bindings }
    ensures own { is_some result ≡ are_all_named objects.now binds.now }
    ensures refusal { IfSome result (λ done. refusal_in done ≡ refusal_of objects.now may_write binds.now) }
{
    let mut index = 0;
    let mut slots: Slots = [0; 16];
    let mut rest = binds.again();
    while let Some(binding) = rest.next() {
        let Ok(place) = place_of(objects, &binding.name) else {
            return None;
        };
        places[index as usize % PLACES] = u32::try_from(place).unwrap_or(0);
        let checked = judged_there(objects, place, may_write, binds, index, &slots, &binding);
        index += 1;
        if let Err(status) = checked {
            return if are_named(objects, rest) {
                Some(Err(BindingFault { index, status }))
            } else {
                None
            };
        }
        mark_name(&mut slots, &binding.name);
    }
    if index == 0 { None } else { Some(Ok(())) }
}

/// Does a Set of one binding: no places and no names are kept of it. Nothing, where its name is that of no object.
pub(crate) fn set_only(
    objects: &mut Vec<PublishedObject>,
    may_write: bool,
    binds: &Binds<'_>,
    binding: &Bind<'_>,
) -> Option<Result<(), BindingFault>>
    requires rises { rises objects.old.items ≡ true }
    requires only { binds.now ≡ var_bind binding.now ∷ [] }
    ensures own { is_some result ≡ are_all_named objects.old.items binds.now }
    ensures refusal { IfSome result (λ done. refusal_in done ≡ refusal_of objects.old.items may_write binds.now) }
    ensures written { IfSome result (λ done. objects.new.items
        ≡ written_unless objects.old.items binds.now (refusal_of objects.old.items may_write binds.now)) }
    ensures kept { IfNone result (objects.new.items ≡ objects.old.items) }
    ensures rises { rises objects.new.items ≡ true }
{
    let Ok(place) = place_of(objects.as_slice(), &binding.name) else {
        return None;
    };
    let slots: Slots = [0; 16];
    let checked = judged_there(
        objects.as_slice(),
        place,
        may_write,
        binds,
        0,
        &slots,
        binding,
    );
    if let Err(status) = checked {
        return Some(Err(BindingFault { index: 1, status }));
    }
    set_there(objects, place, binding);
    Some(Ok(()))
}

/// Whether each name is that of an object.
fn are_named(objects: &[PublishedObject], binds: Binds<'_>) -> bool
    requires { rises objects.now ≡ true }
    ensures { result ≡ list_all (is_named objects.now) binds.entry }
{
    let mut rest = binds;
    while let Some(binding) = rest.next() {
        match place_of(objects, &binding.name) {
            Ok(_) => {}
            Err(_) => return false,
        }
    }
    true
}

/// The first thing that is wrong with the binding after the first `index` bindings.
fn judged_at(
    objects: &[PublishedObject],
    may_write: bool,
    before: &Binds<'_>,
    index: u32,
    slots: &Slots,
    binding: &Bind<'_>,
) -> Result<(), ErrorStatus>
    requires rises { rises objects.now ≡ true }
    requires taken { AreTaken slots.now (take index before.now) }
    ensures { status_in result ≡ refusal_at objects.now may_write (take index before.now) (var_bind binding.now) }
{
    match place_of(objects, &binding.name) {
        Ok(place) => judged_there(objects, place, may_write, before, index, slots, binding),
        Err(_) => Err(ErrorStatus::NoSuchName),
    }
}

/// The same, where the object of the binding's name stands at a place.
fn judged_there(
    objects: &[PublishedObject],
    place: usize,
    may_write: bool,
    before: &Binds<'_>,
    index: u32,
    slots: &Slots,
    binding: &Bind<'_>,
) -> Result<(), ErrorStatus>
    requires rises { rises objects.now ≡ true }
    requires within { place < length objects.now }
    requires found { HoldsAt (λ object. has_name (var_bind binding.now).name object ≡ true) objects.now place }
    requires taken { AreTaken slots.now (take index before.now) }
    ensures { status_in result ≡ refusal_at objects.now may_write (take index before.now) (var_bind binding.now) }
{
    if !may_write {
        return Err(ErrorStatus::NoSuchName);
    }
    let access = objects[place].access();
    if !access.is_written() {
        return Err(ErrorStatus::NoSuchName);
    }
    if !access.admits(&binding.value) {
        return Err(ErrorStatus::BadValue);
    }
    if was_given(slots, &binding.name, before, index) {
        return Err(ErrorStatus::GenErr);
    }
    Ok(())
}

/// Sets each binding's object to its value. The objects may well stand at these places.
pub(crate) fn set_objects(objects: &mut Vec<PublishedObject>, binds: &Binds<'_>, places: &Places)
    requires { rises objects.old.items ≡ true }
    ensures done { objects.new.items ≡ written objects.old.items binds.now }
    ensures rises { rises objects.new.items ≡ true }
{
    let mut at = 0;
    let mut rest = binds.again();
    while let Some(binding) = rest.next() {
        set_object(objects, &binding, places[at] as usize);
        at = (at + 1) % PLACES;
    }
}

/// Sets each object to the value of the one of these that has its name, one after the other, where it takes it.
#[tactic(auto, using(crate::proofs::PutBack::values))]
pub(crate) fn put_values(objects: &mut Vec<PublishedObject>, values: &[PublishedObject])
    requires { rises objects.old.items ≡ true }
    ensures done { objects.new.items ≡ written objects.old.items (map binding_of values.now) }
    ensures rises { rises objects.new.items ≡ true }
{
    let mut rest = values;
    while let [value, others @ ..] = rest {
        put_value(objects, value);
        rest = others;
    }
}

/// Sets the object of this one's name to its value, where it takes it.
fn put_value(objects: &mut Vec<PublishedObject>, value: &PublishedObject)
    requires { rises objects.old.items ≡ true }
    ensures done { objects.new.items ≡ map (set_by_binding (binding_of value.now)) objects.old.items }
    ensures rises { rises objects.new.items ≡ true }
{
    let binding = Bind {
        name: value.name(),
        value: value.value(),
    };
    set_object(objects, &binding, 0);
}
