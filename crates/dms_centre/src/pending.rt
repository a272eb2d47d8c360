//! A request that waits for its reply.

ghost use Rattle.std.specs.Prelude.{◌≡◌, ◌<◌, []};
ghost use Rattle.dms_centre.specs.CodeView.{pending_model};
ghost use Rattle.dms_centre.specs.Resending.{sent_again};

use dms_centre_jobs::Kept;
use dms_wire::{MAX_DATAGRAM, Out};

/// How many times a request goes out.
pub(crate) const MOST_SENDS: u8 = 3;

/// How many ticks each time waits for its reply.
pub(crate) const TICKS_TO_WAIT: u8 = 3;

/// A request that waits for its reply.
#[derive(Drop)]
pub struct Pending {
    /// Its number.
    pub number: u32,
    /// The datagram that it is.
    pub octets: Kept<MAX_DATAGRAM>,
    /// How many times it went out.
    pub sends: u8,
    /// The ticks since it went out last.
    pub age: u8,
}

impl Pending {
    /// No request.
    pub(crate) fn none() -> Self {
        Pending {
            number: 0,
            octets: Kept::new(),
            sends: 0,
            age: 0,
        }
    }

    /// A request goes out for the first time.
    pub(crate) fn begin(&mut self, number: u32, octets: &Out)
        ensures { pending_model self.new ≡ record { number = number; octets = octets.now.items; sends = 1; age = 0 } }
    {
        self.put(number, octets, 1, 0);
    }

    /// A request went out so many times, the last time so many ticks ago.
    pub(crate) fn put(&mut self, number: u32, octets: &Out, sends: u8, age: u8)
        ensures { pending_model self.new
            ≡ record { number = number; octets = octets.now.items; sends = sends; age = age } }
    {
        self.number = number;
        self.octets.replace(octets.as_slice());
        self.sends = sends;
        self.age = age;
    }

    /// Its octets go out again.
    pub(crate) fn send_again(&mut self, out: &mut Out)
        requires sends { self.old.sends < 255 }
        requires empty { out.old.items ≡ [] }
        ensures pending { pending_model self.new ≡ sent_again (pending_model self.old) }
        ensures sent { out.new.items ≡ self.old.octets.items }
    {
        self.sends += 1;
        self.age = 0;
        out.try_extend_from_slice(self.octets.as_slice()).unwrap();
    }
}
