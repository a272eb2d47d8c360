//! A place for a sign and the objects beside it behind a pointer, as C holds it: with a sign or with none.

ghost use Rattle.std.specs.Prelude.{Option};
ghost use Rattle.dms_agent_watched.specs.Watched.{WatchedSign};

use std::alloc::{Allocator, Global};
use std::marker::Model;

/// A place for a sign behind a pointer. A contract sees the state of the sign, the objects beside it and how
/// often its picture has changed, where one is there.
#[repr(C)]
pub struct SignPlace {
    pub(crate) at: *mut u8,
    pub(crate) alloc: Global,
    pub ghost value: { Option WatchedSign },
}

impl Model for SignPlace {
    ghost use Rattle.dms_agent_watched.specs.contracts.watched.Watched.{the_row};
    ghost use Rattle.wisangub_c_places.specs.Place.{held};

    ghost also_owns = { λ p. held (⟦<Global as Allocator>⟧.dealloc_token p.alloc) the_row p.at p.value };
}
