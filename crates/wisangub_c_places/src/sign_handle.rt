//! A sign and the objects beside it behind a pointer, as C holds them.

ghost use Rattle.dms_agent_watched.specs.Watched.{WatchedSign};

use std::alloc::{Allocator, Global};
use std::marker::Model;

/// A sign behind a pointer. A contract sees the state of the sign, the objects beside it,
/// and how often its picture has changed.
#[repr(C)]
pub struct SignHandle {
    pub(crate) at: *mut u8,
    pub(crate) alloc: Global,
    pub ghost value: { WatchedSign },
}

impl Model for SignHandle {
    ghost use Rattle.dms_agent_watched.specs.contracts.watched.Watched.{the_row};
    ghost use Rattle.std.specs.Prelude.{Some};
    ghost use Rattle.wisangub_c_places.specs.Place.{held};

    ghost also_owns = { λ h. held (⟦<Global as Allocator>⟧.dealloc_token h.alloc) the_row h.at (Some h.value) };
}
