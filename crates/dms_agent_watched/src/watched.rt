//! A sign and the objects beside it, and how often its picture has changed.

ghost use Rattle.std.specs.Prelude.{◌≡◌, false, [], map, None, Err, is_some, IsSome, OnOk, OnErr};
ghost use Rattle.std.specs.List.{list_any};
ghost use Rattle.dms_sign.specs.Events.{after_tick, after_power_loss, after_power_return};
ghost use Rattle.dms_sign.specs.Reply.{after_get};
ghost use Rattle.dms_sign.specs.ReplyView.{sent, accepted_by};
ghost use Rattle.dms_sign.specs.declared.sign.reply.Receipt.TheVariants.{Dropped};
ghost use Rattle.dms_device.specs.Objects.{has_name, binding_of};
ghost use Rattle.dms_device.specs.Publishing.{published, withdrawn};
ghost use Rattle.dms_device.specs.Setting.{written};
ghost use Rattle.dms_device.specs.Taken.{told_first};
ghost use Rattle.dms_agent.specs.declared.agent.PublishFault.TheVariants.{OfTheSign, OutOfMemory};
ghost use Rattle.dms_agent.specs.Values.{own_value, is_bare, showing_fonts};
ghost use Rattle.dms_agent.specs.Promises.{alone};
ghost use Rattle.dms_agent.specs.Received.{agent_received};
ghost use Rattle.dms_agent_watched.specs.Watched.{picture_of, same_defaults, same_picture, changes_after};
ghost use Rattle.dms_agent_watched.specs.Watched.{unchanged, watched, is_put_up_by_itself};

use arrayvec::ArrayVec;
use dms_agent::{Agent, PublishFault};
use dms_codes::MAX_TEXT;
use dms_device::PublishedObject;
use dms_face::Defaults;
use dms_sign::{Receipt, Sign};
use dms_table::row::copy_of;
use dms_table::{Mode, Shown};
use dms_wire::{Oid, Out};
use std::alloc::Global;
use std::marker::Model;

/// All of what is shown that can be seen.
#[derive(Drop)]
pub(crate) struct Picture {
    text: ArrayVec<u8, MAX_TEXT>,
    defaults: Defaults,
    beacon: u8,
    pixel: u8,
}

impl Model for Picture {
    ghost use Rattle.dms_agent_watched.specs.Watched.{Picture as PictureModel};

    ghost Value = { PictureModel };

    ghost view = { λ p. record { text = p.text.items; defaults = p.defaults; beacon = p.beacon; pixel = p.pixel } };
}

impl Picture {
    /// The picture of what is shown.
    fn of(shown: &Shown) -> Picture
        ensures { result ≡ picture_of shown.now }
    {
        Picture {
            text: copy_of(shown.text.as_slice()),
            defaults: shown.defaults,
            beacon: shown.beacon,
            pixel: shown.pixel,
        }
    }

    /// Whether it is the picture of what is shown.
    fn is_of(&self, shown: &Shown) -> bool
        ensures { result ≡ same_picture self.now (picture_of shown.now) }
    {
        self.beacon == shown.beacon
            && self.pixel == shown.pixel
            && is_same(self.defaults, shown.defaults)
            && self.text.as_slice() == shown.text.as_slice()
    }
}

/// Whether these are the same defaults.
fn is_same(one: Defaults, other: Defaults) -> bool
    ensures { result ≡ same_defaults one other }
{
    one == other
}

/// A sign, the objects beside it, and how often its picture has changed.
#[derive(Drop)]
pub struct Watched {
    agent: Agent,
    picture: Picture,
    changes: u64,
}

impl Model for Watched {
    ghost use Rattle.std.specs.Prelude.{◌≡◌};
    ghost use Rattle.dms_agent_watched.specs.Watched.{WatchedSign, picture_of};

    ghost Value = { WatchedSign };

    ghost view = { λ w. record { agent = w.agent; changes = w.changes } };

    ghost invariant = { λ w. w.picture ≡ picture_of w.agent.sign.shown };
}

impl Watched {
    /// A sign whose picture has not changed yet, beside which nothing is published. No memory is taken.
    pub fn new(alloc: Global, sign: Sign) -> Watched
        ensures { result ≡ unchanged (alone sign) }
    {
        let picture = Picture::of(sign.shown());
        Watched {
            agent: Agent::new(alloc, sign),
            picture,
            changes: 0,
        }
    }

    /// The sign.
    pub fn sign(&self) -> &Sign
        ensures { result.now ≡ self.now.agent.sign }
    {
        self.agent.sign()
    }

    /// The sign and the objects beside it.
    pub fn agent(&self) -> &Agent
        ensures { result.now ≡ self.now.agent }
    {
        &self.agent
    }

    /// How many pictures came in place of another one.
    pub fn changes(&self) -> u64
        ensures { result ≡ self.now.changes }
    {
        self.changes
    }

    /// What comes of a datagram: the reply is left in `out`, which is empty where nothing is sent.
    #[tactic(auto, using(crate::proofs::Pictures::quiet))]
    pub fn receive(&mut self, datagram: &[u8], out: &mut Out) -> Receipt
        ensures after { self.new ≡ watched self.old (agent_received self.old.agent datagram.now).after }
        ensures reply { sent result out.new.items ≡ (agent_received self.old.agent datagram.now).reply }
        ensures accepted { accepted_by result ≡ (agent_received self.old.agent datagram.now).accepted }
        ensures empty { result ≡ Dropped → out.new.items ≡ [] }
    {
        let receipt = self.agent.receive(datagram, out);
        let shown = self.agent.sign().shown();
        if has_accepted(&receipt) || is_put_up_by_itself(shown) {
            note(shown, &mut self.picture, &mut self.changes);
        }
        receipt
    }

    /// A second passes for the sign.
    #[tactic(auto, using(crate::proofs::Pictures::quiet))]
    pub fn tick(&mut self)
        ensures { self.new ≡ watched self.old (record self.old.agent { sign = after_tick self.old.agent.sign }) }
    {
        self.agent.tick();
        let shown = self.agent.sign().shown();
        if is_put_up_by_itself(shown) {
            note(shown, &mut self.picture, &mut self.changes);
        }
    }

    /// The silence is over, as after a Get that was answered.
    pub fn heard(&mut self)
        ensures { self.new ≡ watched self.old (record self.old.agent { sign = after_get self.old.agent.sign }) }
    {
        self.agent.sign_mut().heard();
        note(
            self.agent.sign().shown(),
            &mut self.picture,
            &mut self.changes,
        );
    }

    /// The power is lost.
    pub fn power_lost(&mut self)
        ensures { self.new ≡ watched self.old (record self.old.agent { sign = after_power_loss self.old.agent.sign }) }
    {
        self.agent.power_lost();
        note(
            self.agent.sign().shown(),
            &mut self.picture,
            &mut self.changes,
        );
    }

    /// The power is back after so many seconds.
    pub fn power_back(&mut self, seconds: u32)
        ensures { self.new ≡ watched self.old
            (record self.old.agent { sign = after_power_return self.old.agent.sign seconds }) }
    {
        self.agent.power_back(seconds);
        note(
            self.agent.sign().shown(),
            &mut self.picture,
            &mut self.changes,
        );
    }

    /// From here on the objects of the sign's fonts can be read, as `Agent::show_fonts` says, and answers.
    pub fn show_fonts(&mut self) -> bool
        ensures after { self.new ≡ record self.old { agent = showing_fonts self.old.agent } }
        ensures shown { result ≡ is_bare self.old.agent }
    {
        self.agent.show_fonts()
    }

    /// Publishes an object beside the sign's, as `Agent::publish` does.
    pub fn publish(&mut self, object: PublishedObject) -> Result<(), PublishFault>
        ensures done { OnOk result (self.new
            ≡ record self.old { agent = record self.old.agent { device = published self.old.agent.device object } }) }
        ensures beside { OnOk result (own_value self.old.agent object.name ≡ None) }
        ensures kept { OnErr result (self.new ≡ self.old) }
        ensures of_the_sign { result ≡ Err OfTheSign → IsSome (own_value self.old.agent object.name) }
        ensures memory { result ≡ Err OutOfMemory → own_value self.old.agent object.name ≡ None }
        ensures memory_new { result ≡ Err OutOfMemory
            → list_any (has_name object.name) self.old.agent.device ≡ false }
    {
        self.agent.publish(object)
    }

    /// Withdraws the object of a name, and answers whether there was one.
    pub fn withdraw(&mut self, name: &Oid<'_>) -> bool
        ensures done { self.new ≡ record self.old {
          agent = record self.old.agent { device = withdrawn self.old.agent.device name.now };
        } }
        ensures found { result ≡ list_any (has_name name.now) self.old.agent.device }
    {
        self.agent.withdraw(name)
    }

    /// Puts values back that a manager set before, as `Agent::put_back` does.
    pub fn put_back(&mut self, values: &[PublishedObject])
        ensures { self.new ≡ record self.old {
          agent = record self.old.agent { device = written self.old.agent.device (map binding_of values.now) };
        } }
    {
        self.agent.put_back(values);
    }

    /// Notes that firmware was told of the first object that a manager set.
    pub fn tell_first(&mut self)
        ensures { self.new ≡ record self.old {
          agent = record self.old.agent { device = told_first self.old.agent.device };
        } }
    {
        self.agent.tell_first();
    }
}

/// Counts one more where another picture is shown.
#[tactic(auto, using(crate::proofs::Pictures::same_picture_is))]
fn note(shown: &Shown, picture: &mut Picture, changes: &mut u64)
    ensures picture { picture.new ≡ picture_of shown.now }
    ensures changes { changes.new ≡ changes_after picture.old (picture_of shown.now) changes.old }
{
    if !picture.is_of(shown) {
        *picture = Picture::of(shown);
        *changes = changes.wrapping_add(1);
    }
}

/// Whether an activation was accepted.
fn has_accepted(receipt: &Receipt) -> bool
    ensures { result ≡ is_some (accepted_by receipt.now) }
{
    match receipt {
        Receipt::Dropped | Receipt::Replied => false,
        Receipt::Accepted(_) => true,
    }
}

/// Whether the sign put it up by itself.
fn is_put_up_by_itself(shown: &Shown) -> bool
    ensures { result ≡ is_put_up_by_itself shown.now }
{
    shown.mode == Mode::EndDuration.number() || shown.mode == Mode::CommunicationsLoss.number()
}
