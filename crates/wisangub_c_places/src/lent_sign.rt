//! The sign of a handle and the objects beside it: lent.

ghost use Rattle.std.specs.Prelude.{◌≡◌};
ghost use Rattle.std.specs.Borrow.{sem, follows};
ghost use Rattle.dms_agent_watched.specs.contracts.watched.Watched.{the_row as watched_row};
ghost use Rattle.wisangub_c_places.specs.contracts.sign_handle.SignHandle.{the_row as handle_row};

use crate::sign_handle::SignHandle;
use dms_agent_watched::Watched;

impl SignHandle {
    /// The sign and the objects beside it. What is done to them is done to the handle's.
    pub fn as_mut(&mut self) -> &mut Watched
        ensures* writes_back { sem 𝓛 (follows handle_row watched_row self.entry.ghost_name result.ghost_name
            (λ w. record self.entry.now { value = w })) }
        ensures value { result.now ≡ self.old.value }
    {
        unsafe { &mut *(self.at as *mut Watched) }
    }
}
