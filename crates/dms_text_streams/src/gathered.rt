//! A writer that keeps all octets.

ghost use Rattle.std.specs.Prelude.{◌≡◌, Some, length, IfOk};
ghost use Rattle.std.specs.Io.{WritesAtMost};
ghost use Rattle.std.specs.Io.KnownBytes.{WriteAppends};
ghost use Rattle.dms_text_streams.specs.Calls.{after_write};
ghost use Rattle.dms_text_streams.specs.Room.{TakesWithinRoom};

use crate::failed::Failed;
use crate::sink::Sink;
use std::alloc::{AllocError, Global};
use std::marker::Model;

/// All octets that were written to it, and the number of its calls that failed: those whose memory was refused.
#[derive(Drop)]
pub struct Gathered {
    octets: Vec<u8>,
    failed: u64,
}

impl Model for Gathered {
    ghost use Rattle.std.specs.Prelude.{◌-◌, vec_len, vec_capacity};
    ghost use Rattle.dms_text_streams.specs.Models.{GatheredModel};

    ghost Value = { GatheredModel };

    ghost view = { λ gathered. record {
      octets = gathered.octets.items;
      failed = gathered.failed;
      room = vec_capacity gathered.octets - vec_len gathered.octets;
    } };
}

impl Gathered {
    ghost use Rattle.std.specs.Prelude.{◌≡◌, [], IfOk};

    /// No octets yet, no failed call, and no memory: its calls ask for that.
    pub fn new(alloc: Global) -> Gathered
        ensures { result ≡ record { octets = []; failed = 0; room = 0 } }
    {
        Gathered {
            octets: Vec::new(alloc),
            failed: 0,
        }
    }

    /// No octets yet, no failed call, and memory for so many octets: so long as it holds no more, no call fails.
    pub fn with_room(alloc: Global, room: usize) -> Result<Gathered, AllocError>
        ensures { IfOk result (λ gathered. gathered ≡ record { octets = []; failed = 0; room = room }) }
    {
        let octets = Vec::with_capacity(alloc, room)?;
        Ok(Gathered { octets, failed: 0 })
    }

    /// The octets that were written to it.
    pub fn bytes(&self) -> &[u8]
        ensures { result.now ≡ self.now.octets }
    {
        self.octets.as_slice()
    }
}

/// A call takes all octets. It fails where there is no room for them and their memory is refused, and nowhere else.
impl Sink for Gathered {
    ghost contents = { λ gathered. Some gathered.octets };

    ghost room = { λ gathered. Some gathered.room };

    ghost failed = { λ gathered. gathered.failed };

    fn write_some(&mut self, octets: &[u8]) -> Result<usize, Failed>
        ensures bound { WritesAtMost result octets.now }
        ensures octets { WriteAppends (Some self.old.octets) (Some self.new.octets) result octets.now }
        ensures count { self.new.failed ≡ after_write self.old.failed result octets.now }
        ensures room { TakesWithinRoom (Some self.old.room) (Some self.new.room) result octets.now }
        ensures taken { IfOk result (λ count. count ≡ length octets.now) }
    {
        match self.octets.extend_from_slice(octets) {
            Ok(()) => Ok(octets.len()),
            Err(_) => {
                self.failed = self.failed.saturating_add(1);
                Err(Failed)
            }
        }
    }

    fn failures(&self) -> u64 {
        self.failed
    }
}
