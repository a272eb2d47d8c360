//! Laws over the definitions of specs/ alone, stated as functions with nothing to run: what holds of a centre's
//! requests and of its ledger under any events.

ghost use Rattle.std.specs.Prelude.{List};
ghost use Rattle.dms_world.specs.Event.{EventModel};
ghost use Rattle.dms_world.specs.World.{WorldModel, IsFresh};
ghost use Rattle.dms_world.specs.Headline.{AreEvents};
ghost use Rattle.dms_world.specs.Honest.{RequestsAgree, LedgerWasOrdered};

/// A request goes out three times at most, its octets unchanged, and no other has its number.
pub fn requests_agree()
    ensures { (world : WorldModel) (events : List EventModel) → IsFresh world → AreEvents events
        → RequestsAgree world events }
{}

/// Each code of the ledger is that of a command which the centre took; of a publication it has the checksum of the
/// operator's message.
pub fn ledger_was_ordered()
    ensures { (world : WorldModel) (events : List EventModel) → IsFresh world → AreEvents events
        → LedgerWasOrdered world events }
{}
