//! A central system behind a pointer, as C holds it.

ghost use Rattle.dms_centre.specs.Room.{CentreModel};

use std::alloc::{Allocator, Global};
use std::marker::Model;

/// A central system behind a pointer. A contract sees its state, and how many more entries its ledger takes without
/// memory.
#[repr(C)]
pub struct CentreHandle {
    pub(crate) at: *mut u8,
    pub(crate) alloc: Global,
    pub ghost value: { CentreModel },
}

impl Model for CentreHandle {
    ghost use Rattle.dms_centre.specs.contracts.centre.Centre.{the_row};
    ghost use Rattle.std.specs.Prelude.{Some};
    ghost use Rattle.wisangub_c_places.specs.Place.{held};

    ghost also_owns = { λ h. held (⟦<Global as Allocator>⟧.dealloc_token h.alloc) the_row h.at (Some h.value) };
}
