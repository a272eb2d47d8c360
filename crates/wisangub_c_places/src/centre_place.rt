//! A place for a central system behind a pointer, as C holds it: with a central system or with none.

ghost use Rattle.std.specs.Prelude.{Option};
ghost use Rattle.dms_centre.specs.Room.{CentreModel};

use std::alloc::{Allocator, Global};
use std::marker::Model;

/// A place for a central system behind a pointer. A contract sees the state of the central system, where one is there.
#[repr(C)]
pub struct CentrePlace {
    pub(crate) at: *mut u8,
    pub(crate) alloc: Global,
    pub ghost value: { Option CentreModel },
}

impl Model for CentrePlace {
    ghost use Rattle.dms_centre.specs.contracts.centre.Centre.{the_row};
    ghost use Rattle.wisangub_c_places.specs.Place.{held};

    ghost also_owns = { λ p. held (⟦<Global as Allocator>⟧.dealloc_token p.alloc) the_row p.at p.value };
}
