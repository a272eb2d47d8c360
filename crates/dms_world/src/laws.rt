//! The law of the whole run, and what holds at every moment beside it, stated as functions with nothing to run.

ghost use Rattle.dms_world.specs.Always.{AlwaysHolds};
ghost use Rattle.dms_world.specs.Headline.{HeadlineHolds};

/// From two ends as they are made, after every list of commands, ticks, losses of power, restarts and deliveries, with
/// datagrams lost, repeated and reordered: no number is given to two requests, and a request that is sent again is the
/// same one; what is shown is blank, or a validated message whose checksum stands in the code that activated it; and,
/// where nothing is forged, a code is recorded as accepted only after the sign accepted it.
pub fn headline_holds()
    ensures { HeadlineHolds }
{}

/// From two ends as they are made, after every such list: what the sign kept is backed as what it shows is; a noError
/// to an activation has its code among those accepted; the numbers of requests are below the next one; the request that
/// the centre waits for was sent; and, where nothing is forged, each reply is the sign's own.
pub fn always_holds()
    ensures { AlwaysHolds }
{}
