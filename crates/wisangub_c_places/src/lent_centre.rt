//! The central system of a handle: lent.

ghost use Rattle.std.specs.Prelude.{◌≡◌};
ghost use Rattle.std.specs.Borrow.{sem, follows};
ghost use Rattle.dms_centre.specs.contracts.centre.Centre.{the_row as centre_row};
ghost use Rattle.wisangub_c_places.specs.contracts.centre_handle.CentreHandle.{the_row as handle_row};

use crate::centre_handle::CentreHandle;
use dms_centre::Centre;

impl CentreHandle {
    /// The central system. What is done to it is done to the handle's.
    pub fn as_mut(&mut self) -> &mut Centre
        ensures* writes_back { sem 𝓛 (follows handle_row centre_row self.entry.ghost_name result.ghost_name
            (λ w. record self.entry.now { value = w })) }
        ensures value { result.now ≡ self.old.value }
    {
        unsafe { &mut *(self.at as *mut Centre) }
    }
}
