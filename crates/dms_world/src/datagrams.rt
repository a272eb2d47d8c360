//! Datagrams that were sent, in one list of octets.

ghost use Rattle.std.specs.Prelude.{◌≡◌, ◌++◌, ◌∷◌, [], length, slice_get, option_map, OnOk, true};

use dms_wire::{MAX_DATAGRAM, Out};
use std::alloc::{AllocError, Global};
use std::marker::Model;

/// Datagrams, the oldest first. Their octets stand in one list, one datagram after another.
#[derive(Drop)]
pub struct Datagrams {
    octets: Vec<u8>,
    /// Where each datagram begins among the octets, and where it ends.
    places: Vec<(usize, usize)>,
}

impl Model for Datagrams {
    ghost use Rattle.std.specs.Prelude.{◌+◌, All, length, vec_len, vec_capacity};
    ghost use Rattle.dms_world.specs.Datagrams.{DatagramsModel, datagrams_at, is_room, IsWithin};

    ghost Value = { DatagramsModel };

    ghost view = { λ kept. record {
      sent = datagrams_at kept.octets.items kept.places.items;
      has_room = is_room (vec_len kept.octets) (vec_capacity kept.octets) (vec_len kept.places)
          (vec_capacity kept.places);
      memory = vec_capacity kept.octets + vec_capacity kept.places;
    } };

    ghost invariant = { λ kept. All (IsWithin (length kept.octets.items)) kept.places.items };
}

impl Datagrams {
    /// No datagram yet. It takes no memory.
    pub(crate) fn new(alloc: Global) -> Datagrams
        ensures sent { result.sent ≡ [] }
        ensures memory { result.memory ≡ 0 }
    {
        Datagrams {
            octets: Vec::new(alloc),
            places: Vec::new(alloc),
        }
    }

    /// How many datagrams there are.
    pub fn len(&self) -> usize
        ensures { result ≡ length self.now.sent }
    {
        self.places.len()
    }

    /// The octets of the datagram of this place, from 0; `None` from the place after the last one on.
    pub fn get(&self, place: usize) -> Option<&[u8]>
        ensures { option_map (λ datagram. datagram.now) result ≡ slice_get self.now.sent place }
    {
        let &(start, end) = self.places.get(place)?;
        Some(&self.octets[start..end])
    }

    /// Room for one more datagram, however long a datagram may be.
    pub(crate) fn reserve_one(&mut self) -> Result<(), AllocError>
        ensures same { self.new.sent ≡ self.old.sent }
        ensures room { OnOk result (self.new.has_room ≡ true) }
    {
        self.octets.reserve(MAX_DATAGRAM)?;
        self.places.reserve(1)
    }

    /// One more datagram, where there is room for it.
    #[tactic(auto, using(crate::proofs::DatagramLists::kept_one_more))]
    pub(crate) fn push(&mut self, datagram: &Out)
        requires { self.old.has_room ≡ true }
        ensures { self.new.sent ≡ self.old.sent ++ datagram.now.items ∷ [] }
    {
        let start = self.octets.len();
        self.octets.extend_from_slice(datagram.as_slice()).unwrap();
        self.places.push_reserved((start, self.octets.len()));
    }
}
