//! What holds of every central system, stated as a function with nothing to run.

ghost use Rattle.dms_centre_jobs.specs.Requests.{AreSettings};

use crate::centre::Centre;

/// What holds of every central system: its community has 1 to 32 octets.
pub fn centres_are_kept(centre: &Centre)
    ensures { AreSettings centre.now.state.settings }
{
    centre.invariant();
}
