//! The law on what a centre's ledger says, stated as a function with nothing to run.

ghost use Rattle.std.specs.Prelude.{List};
ghost use Rattle.dms_world.specs.Event.{EventModel};
ghost use Rattle.dms_world.specs.World.{WorldModel, IsFresh};
ghost use Rattle.dms_world.specs.Headline.{AreEvents, NothingIsForged, LedgerIsTrue};

/// Where nothing is forged, an entry is recorded as accepted only after the sign accepted its code, at an event that
/// delivered its request; and as refused only after the sign answered its request with that status. Datagrams may be
/// lost, repeated and reordered.
pub fn ledger_is_true()
    ensures { (world : WorldModel) (events : List EventModel) → IsFresh world → AreEvents events
        → NothingIsForged events
        → LedgerIsTrue world events }
{}
