//! Any list of events, with what holds after it.

ghost use Rattle.std.specs.Prelude.{◌≡◌, IfErr};
ghost use Rattle.dms_world.specs.CodeView.{events_model, happened, seen};
ghost use Rattle.dms_world.specs.Growing.{StopsAt};
ghost use Rattle.dms_world.specs.World.{IsFresh, world_after};
ghost use Rattle.dms_world.specs.Always.{Always};
ghost use Rattle.dms_world.specs.Backed.{CopiedDefaults, IsBacked};
ghost use Rattle.dms_world.specs.GoodRows.{DefaultsFit, OneRowIsValidating, ValidRowsWereGood};
ghost use Rattle.dms_world.specs.Honest.{LedgerWasOrdered, RequestsAgree};
ghost use Rattle.dms_world.specs.Headline.{AreEvents, LedgerIsTrue, NothingIsForged};

use crate::event::Event;
use crate::world::World;
use std::error::Error;
use std::fmt;

/// There was no memory for the event that follows on so many others: these happened, and it did not.
#[derive(Clone, Copy, Debug, PartialEq, Eq)]
pub struct Stopped {
    /// How many events happened.
    pub done: usize,
}

impl fmt::Display for Stopped {
    ghost use Rattle.std.specs.Prelude.{Some};
    ghost use Rattle.dms_world.specs.CodeView.{stopped_text};

    ghost output = { λ stopped. Some (stopped_text stopped) };

    fn fmt<W: fmt::Write>(&self, f: &mut fmt::Formatter<W>) -> fmt::Result {
        write!(f, "out of memory after {} events", self.done)
    }
}

impl Error for Stopped {}

/// The events happen in a world, one after another, counted from 1. Where there is no memory for one, the run stops
/// before it, with the world after those that happened; only a command that is taken, a tick of the centre, a forged
/// datagram and the delivery of a datagram that was sent can want memory. A command that the centre refuses for another
/// reason changes nothing.
///
/// What holds of the events that happened, from a fresh world on, is said beside: no request number is given to two
/// requests; what is shown is blank, or a validated message whose checksum stands in the code that activated it; and,
/// where nothing is forged, the centre records a code as accepted only after the sign accepted it.
pub fn run(world: &mut World, events: &[Event<'_>]) -> Result<(), Stopped>
    ensures world { seen world.new ≡ world_after (seen world.old) (happened result events.now) }
    ensures stopped { IfErr result (λ stopped. StopsAt (seen world.new) (events_model events.now) stopped.done) }
    ensures requests_agree { IsFresh (seen world.old) → RequestsAgree (seen world.old) (happened result events.now) }
    ensures backed { IsFresh (seen world.old) → IsBacked (seen world.old) (happened result events.now) }
    ensures copied_defaults { IsFresh (seen world.old) → CopiedDefaults (seen world.old) (happened result events.now) }
    ensures rows_were_good { IsFresh (seen world.old)
        → ValidRowsWereGood (seen world.old) (happened result events.now) }
    ensures one_row_is_validating { IsFresh (seen world.old)
        → OneRowIsValidating (seen world.old) (happened result events.now) }
    ensures defaults_fit { IsFresh (seen world.old) → DefaultsFit (seen world.old) (happened result events.now) }
    ensures ledger_was_ordered { IsFresh (seen world.old)
        → LedgerWasOrdered (seen world.old) (happened result events.now) }
    ensures ledger_is_true { IsFresh (seen world.old) → NothingIsForged (happened result events.now)
        → LedgerIsTrue (seen world.old) (happened result events.now) }
    ensures always { IsFresh (seen world.old) → Always (seen world.old) (happened result events.now) }
{
    happen_each(world, events)
}

/// The events happen, and the values of the commands among them are in the ranges of their types.
#[tactic(auto, using(crate::proofs::Runs::one_more_event))]
fn happen_each(world: &mut World, events: &[Event<'_>]) -> Result<(), Stopped>
    ensures world { seen world.new ≡ world_after (seen world.old) (happened result events.now) }
    ensures stopped { IfErr result (λ stopped. StopsAt (seen world.new) (events_model events.now) stopped.done) }
    ensures ranges { AreEvents (happened result events.now) }
{
    for (done, event) in events.iter().enumerate() {
        event.has_ranges();
        if world.happen(done + 1, event).is_err() {
            return Err(Stopped { done });
        }
    }
    Ok(())
}
