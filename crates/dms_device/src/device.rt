//! A device: the objects that firmware publishes.

ghost use Rattle.std.specs.Prelude.{◌≡◌, ◌≤◌, true, false, [], drop, map, length, slice_get, is_some, option_map};
ghost use Rattle.std.specs.Prelude.{OnOk, OnErr, IfSome, IfNone};
ghost use Rattle.std.specs.List.{list_any};
ghost use Rattle.dms_wire.specs.Limits.{most_bindings};
ghost use Rattle.dms_wire.specs.View.{var_bind};
ghost use Rattle.dms_device.specs.Objects.{has_name, rises, binding_of};
ghost use Rattle.dms_device.specs.Publishing.{published, withdrawn};
ghost use Rattle.dms_device.specs.Setting.{are_all_named, refusal_of, written, written_unless};
ghost use Rattle.dms_device.specs.Taken.{set_bindings, told, told_first};
ghost use Rattle.dms_device.specs.View.{refusal_in};

use crate::fault::BindingFault;
use crate::object::PublishedObject;
use crate::places::{
    NO_PLACES, place_after, place_of, place_set, put_object, take_object, tell_object, tell_objects,
};
use crate::setting::{judged, judged_own, put_values, set_objects, set_only};
use dms_mib_replies::{Next, NextName, Objects};
use dms_wire::{Bind, Binds, Oid, Value};
use std::alloc::{AllocError, Global};
use std::marker::Model;

/// The objects that firmware publishes, each with a name of its own. A contract sees them as a list, in the order of
/// their names.
#[derive(Drop)]
pub struct Device {
    objects: Vec<PublishedObject>,
}

impl Model for Device {
    ghost use Rattle.std.specs.Prelude.{◌≡◌, List, true};
    ghost use Rattle.dms_device.specs.Object.{DeviceObject};
    ghost use Rattle.dms_device.specs.Objects.{rises};

    ghost Value = { List DeviceObject };

    ghost view = { λ a. a.objects.items };

    ghost invariant = { λ a. rises a.objects.items ≡ true };
}

impl Objects for Device {
    ghost use Rattle.dms_device.specs.Objects.{device_value, device_after};

    ghost reads = { device_value };

    ghost follows = { device_after };

    fn value(&self, name: &Oid<'_>) -> Option<Value<'_>> {
        match place_of(self.objects.as_slice(), name) {
            Ok(place) => {
                let object = &self.objects[place];
                Some(object.value())
            }
            Err(_) => None,
        }
    }

    fn next(&self, name: &Oid<'_>) -> Option<Next<'_>> {
        let place = place_after(self.objects.as_slice(), name);
        if place == self.objects.len() {
            return None;
        }
        let object = &self.objects[place];
        Some(Next {
            name: NextName::Lent(object.name()),
            value: object.value(),
        })
    }
}

impl Device {
    /// No objects: no memory is taken.
    pub fn new(alloc: Global) -> Device
        ensures { result ≡ [] }
    {
        Device {
            objects: Vec::new(alloc),
        }
    }

    /// Publishes an object, in place of the one that has its name: then also what a manager set is gone, and no memory
    /// is needed. Where there is none for an object of a new name, nothing changes.
    pub fn publish(&mut self, object: PublishedObject) -> Result<(), AllocError>
        ensures done { OnOk result (self.new ≡ published self.old object) }
        ensures kept { OnErr result (self.new ≡ self.old) }
        ensures memory { OnErr result (list_any (has_name object.name) self.old ≡ false) }
    {
        put_object(&mut self.objects, object)
    }

    /// Withdraws the object of a name, and answers whether there was one.
    pub fn withdraw(&mut self, name: &Oid<'_>) -> bool
        ensures done { self.new ≡ withdrawn self.old name.now }
        ensures found { result ≡ list_any (has_name name.now) self.old }
    {
        take_object(&mut self.objects, name)
    }

    /// Does a manager's Set, or says why it is refused: then nothing changes. It takes no memory.
    pub fn set(&mut self, may_write: bool, binds: &Binds<'_>) -> Result<(), BindingFault>
        requires { length binds.now ≤ most_bindings }
        ensures refusal { refusal_in result ≡ refusal_of self.old may_write binds.now }
        ensures written { self.new ≡ written_unless self.old binds.now (refusal_of self.old may_write binds.now) }
    {
        judged(self.objects.as_slice(), may_write, binds)?;
        set_objects(&mut self.objects, binds, &NO_PLACES);
        Ok(())
    }

    /// Does a manager's Set as `set` does it, where its names are all those of objects that are here, and there is one.
    /// Any other Set is not the device's, and nothing changes. Each name is looked up once.
    pub fn set_own(
        &mut self,
        may_write: bool,
        binds: &Binds<'_>,
    ) -> Option<Result<(), BindingFault>>
        requires { length binds.now ≤ most_bindings }
        ensures own { is_some result ≡ are_all_named self.old binds.now }
        ensures refusal { IfSome result (λ done. refusal_in done ≡ refusal_of self.old may_write binds.now) }
        ensures written { IfSome result (λ done. self.new
            ≡ written_unless self.old binds.now (refusal_of self.old may_write binds.now)) }
        ensures kept { IfNone result (self.new ≡ self.old) }
    {
        if let Some(binding) = binds.only() {
            return set_only(&mut self.objects, may_write, binds, &binding);
        }
        let mut places = NO_PLACES;
        let done = judged_own(self.objects.as_slice(), may_write, binds, &mut places)?;
        if done.is_ok() {
            set_objects(&mut self.objects, binds, &places);
        }
        Some(done)
    }

    /// Puts values back that a manager set before: each object has the value of the last of these with its name that
    /// it takes, as one that a manager set and of which firmware was not told. Others are left out. It takes no memory.
    pub fn put_back(&mut self, values: &[PublishedObject])
        ensures { self.new ≡ written self.old (map binding_of values.now) }
    {
        put_values(&mut self.objects, values);
    }

    /// The first object, by its name, that a manager set and of which firmware was not told yet, with what was set.
    pub fn first_set(&self) -> Option<Bind<'_>>
        ensures { option_map var_bind result ≡ slice_get (set_bindings self.now) 0 }
    {
        let place = place_set(self.objects.as_slice());
        if place == self.objects.len() {
            return None;
        }
        let object = &self.objects[place];
        Some(Bind {
            name: object.name(),
            value: object.value(),
        })
    }

    /// Notes that firmware was told of that object: the others that were set are left, in order.
    pub fn tell_first(&mut self)
        ensures told { self.new ≡ told_first self.old }
        ensures left { set_bindings self.new ≡ drop 1 (set_bindings self.old) }
    {
        tell_object(&mut self.objects);
    }

    /// Notes that firmware was told of all objects that a manager set.
    pub fn tell_all(&mut self)
        ensures { self.new ≡ map told self.old }
    {
        tell_objects(&mut self.objects);
    }

    /// The objects, in the order of their names.
    pub fn objects(&self) -> &[PublishedObject]
        ensures { result.now ≡ self.now }
    {
        self.objects.as_slice()
    }

    /// What holds of every device: its objects stand in the order of their names. Nothing runs.
    pub fn in_order(&self)
        ensures { rises self.now ≡ true }
    {
        // the invariant is known where a field is looked at
        let _ = &self.objects;
    }
}
