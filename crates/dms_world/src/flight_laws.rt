//! Laws on what is stored and what is in flight between a sign and its centre after any events, stated as functions
//! with nothing to run.

ghost use Rattle.std.specs.Prelude.{List};
ghost use Rattle.dms_world.specs.Event.{EventModel};
ghost use Rattle.dms_world.specs.World.{WorldModel, IsFresh};
ghost use Rattle.dms_world.specs.Headline.{AreEvents, NothingIsForged};
ghost use Rattle.dms_world.specs.InFlight.{KeptIsBacked, NoErrorWasAccepted, NumbersAreBelowNext, RepliesAreTheSigns};
ghost use Rattle.dms_world.specs.InFlight.{WaitingWasSent};

/// What a sign kept at a loss of power is blank, or a validated message, as what it shows is.
pub fn kept_is_backed()
    ensures { (world : WorldModel) (events : List EventModel) → IsFresh world → KeptIsBacked world events }
{}

/// A noError that the sign answered to an activation has its code among those accepted, at its event.
pub fn no_error_was_accepted()
    ensures { (world : WorldModel) (events : List EventModel) → IsFresh world → NoErrorWasAccepted world events }
{}

/// Where nothing is forged, each datagram to the centre is what the sign answered to the request of its number.
pub fn replies_are_the_signs()
    ensures { (world : WorldModel) (events : List EventModel) → IsFresh world → NothingIsForged events
        → RepliesAreTheSigns world events }
{}

/// The number of each datagram to the sign is below the next one.
pub fn numbers_are_below_next()
    ensures { (world : WorldModel) (events : List EventModel) → IsFresh world → AreEvents events
        → NumbersAreBelowNext world events }
{}

/// The request that the centre waits for was sent.
pub fn waiting_was_sent()
    ensures { (world : WorldModel) (events : List EventModel) → IsFresh world → AreEvents events
        → WaitingWasSent world events }
{}
