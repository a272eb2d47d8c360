//! An agent: a sign, perhaps with the objects of its fonts, and the objects that firmware publishes beside it.

ghost use Rattle.std.specs.Prelude.{◌≡◌, false, [], None, map, option_map, Err, IsSome, OnOk, OnErr};
ghost use Rattle.std.specs.Borrow.{sem, follows};
ghost use Rattle.std.specs.List.{list_any};
ghost use Rattle.dms_wire.specs.View.{object_value};
ghost use Rattle.dms_sign.specs.Events.{after_tick, after_ticks, after_power_loss, after_power_return};
ghost use Rattle.dms_sign.specs.contracts.sign.Sign.{the_row as sign_row};
ghost use Rattle.dms_agent.specs.contracts.agent.Agent.{the_row as agent_row};
ghost use Rattle.dms_agent.specs.Values.{font_value, own_value, is_bare, showing_fonts};
ghost use Rattle.dms_device.specs.Objects.{has_name, binding_of};
ghost use Rattle.dms_device.specs.Publishing.{published, withdrawn};
ghost use Rattle.dms_device.specs.Setting.{written};
ghost use Rattle.dms_agent.specs.declared.agent.PublishFault.TheVariants.{OfTheSign, OutOfMemory};
ghost use Rattle.dms_device.specs.Taken.{told, told_first};

use dms_device::{Device, PublishedObject};
use dms_device_fonts::fonts_value;
use dms_mib_replies::Objects;
use dms_sign::Sign;
use dms_wire::{Oid, Value};
use std::alloc::Global;

/// A sign, whether the objects of its fonts can be read, and the objects that firmware publishes beside it.
#[derive(Drop)]
pub struct Agent {
    pub(crate) sign: Sign,
    pub(crate) device: Device,
    pub(crate) has_fonts: bool,
}

/// Why an object is not published.
#[derive(Clone, Copy, Debug, PartialEq, Eq)]
pub enum PublishFault {
    /// The sign has an object of this name, or its fonts have one that can be read.
    OfTheSign,
    /// There is no memory for it.
    OutOfMemory,
}

impl Agent {
    /// A sign beside which nothing is published yet, and whose fonts cannot be read. No memory is taken.
    pub fn new(alloc: Global, sign: Sign) -> Agent
        ensures { result ≡ record { sign = sign; device = []; has_fonts = false } }
    {
        Agent {
            sign,
            device: Device::new(alloc),
            has_fonts: false,
        }
    }

    /// The sign.
    pub fn sign(&self) -> &Sign
        ensures { result.now ≡ self.now.sign }
    {
        &self.sign
    }

    /// The sign, for what is asked of it alone. What is done to it is done to the agent's.
    pub fn sign_mut(&mut self) -> &mut Sign
        ensures* writes_back { sem 𝓛 (follows agent_row sign_row self.entry.ghost_name result.ghost_name
            (λ sign. record self.entry.now { sign = sign })) }
        ensures value { result.now ≡ self.old.sign }
    {
        &mut self.sign
    }

    /// The objects that are published.
    pub fn device(&self) -> &Device
        ensures { result.now ≡ self.now.device }
    {
        &self.device
    }

    /// From here on the objects of the sign's fonts can be read, unless an object is published already: then nothing
    /// changes. It answers whether they can be. No memory is taken.
    pub fn show_fonts(&mut self) -> bool
        ensures after { self.new ≡ showing_fonts self.old }
        ensures shown { result ≡ is_bare self.old }
    {
        if !self.device.objects().is_empty() {
            return false;
        }
        self.has_fonts = true;
        true
    }

    /// What a name reads of the sign's fonts, where these can be read.
    fn font_value(&self, name: &Oid<'_>) -> Option<Value<'_>>
        ensures { option_map object_value result ≡ font_value self.now name.now }
    {
        if self.has_fonts {
            fonts_value(self.sign.face(), name)
        } else {
            None
        }
    }

    /// What a name reads of the sign's own: its instances, and the objects of its fonts where these can be read.
    pub fn own_value(&self, name: &Oid<'_>) -> Option<Value<'_>>
        ensures { option_map object_value result ≡ own_value self.now name.now }
    {
        match self.sign.value(name) {
            Some(value) => Some(value),
            None => self.font_value(name),
        }
    }

    /// Publishes an object, in place of the one that has its name, unless the sign has an object of that name, or its
    /// fonts have one that can be read. Where it is refused, or there is no memory for it, nothing changes. It runs out
    /// of memory only for a new name.
    pub fn publish(&mut self, object: PublishedObject) -> Result<(), PublishFault>
        ensures done { OnOk result (self.new ≡ record self.old { device = published self.old.device object }) }
        ensures beside { OnOk result (own_value self.old object.name ≡ None) }
        ensures kept { OnErr result (self.new ≡ self.old) }
        ensures of_the_sign { result ≡ Err OfTheSign → IsSome (own_value self.old object.name) }
        ensures memory { result ≡ Err OutOfMemory → own_value self.old object.name ≡ None }
        ensures memory_new { result ≡ Err OutOfMemory → list_any (has_name object.name) self.old.device ≡ false }
    {
        if self.own_value(&object.name()).is_some() {
            return Err(PublishFault::OfTheSign);
        }
        match self.device.publish(object) {
            Ok(()) => Ok(()),
            Err(_) => Err(PublishFault::OutOfMemory),
        }
    }

    /// Withdraws the object of a name, and answers whether there was one.
    pub fn withdraw(&mut self, name: &Oid<'_>) -> bool
        ensures done { self.new ≡ record self.old { device = withdrawn self.old.device name.now } }
        ensures found { result ≡ list_any (has_name name.now) self.old.device }
    {
        self.device.withdraw(name)
    }

    /// Puts values back that a manager set before, as `Device::put_back` does.
    pub fn put_back(&mut self, values: &[PublishedObject])
        ensures { self.new ≡ record self.old { device = written self.old.device (map binding_of values.now) } }
    {
        self.device.put_back(values);
    }

    /// Notes that firmware was told of the first object that a manager set (`Device::first_set`).
    pub fn tell_first(&mut self)
        ensures { self.new ≡ record self.old { device = told_first self.old.device } }
    {
        self.device.tell_first();
    }

    /// Notes that firmware was told of all objects that a manager set.
    pub fn tell_all(&mut self)
        ensures { self.new ≡ record self.old { device = map told self.old.device } }
    {
        self.device.tell_all();
    }

    /// A second passes for the sign.
    pub fn tick(&mut self)
        ensures { self.new ≡ record self.old { sign = after_tick self.old.sign } }
    {
        self.sign.tick();
    }

    /// So many seconds pass for the sign.
    pub fn pass(&mut self, seconds: u32)
        ensures { self.new ≡ record self.old { sign = after_ticks seconds self.old.sign } }
    {
        self.sign.pass(seconds);
    }

    /// The power is lost.
    pub fn power_lost(&mut self)
        ensures { self.new ≡ record self.old { sign = after_power_loss self.old.sign } }
    {
        self.sign.power_lost();
    }

    /// The power is back after so many seconds.
    pub fn power_back(&mut self, seconds: u32)
        ensures { self.new ≡ record self.old { sign = after_power_return self.old.sign seconds } }
    {
        self.sign.power_back(seconds);
    }
}
