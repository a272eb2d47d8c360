//! Runs of a sign and its centre.

use crate::centres;
use crate::centres::{cases, publish};
use dms_centre::{Centre, Command, Outcome, Settings};
use dms_codes::{Activation, Order};
use dms_sign::{Config, Sign};
use dms_sign_bench::{face, stock};
use dms_table::Stock;
use dms_world::{Datagrams, Event, World, run};
use std::alloc::Global;
use std::test::Fail;

/// The code of changeable row 1 with `A`, of no address.
const CODE: Activation = Activation {
    address: [0; 4],
    ..centres::CODE
};

/// `A` into changeable row 1, which is shown then.
fn publication() -> [Event<'static>; 17] {
    [
        Event::Command(publish(3, 1, b"A")),
        Event::ToSign(0),
        Event::ToCentre(0),
        Event::ToSign(1),
        Event::ToCentre(1),
        Event::ToSign(2),
        Event::ToCentre(2),
        Event::ToSign(3),
        Event::ToCentre(3),
        Event::SignTick,
        Event::ToSign(4),
        Event::ToCentre(4),
        Event::ToSign(5),
        Event::ToCentre(5),
        Event::CentreTick,
        Event::ToSign(6),
        Event::ToCentre(6),
    ]
}

/// The bench sign with one changeable row alone and without a beacon, and its centre.
fn world_of(alloc: Global) -> Option<World> {
    let stock = Stock {
        changeable: 1,
        volatile: 0,
        beacon: false,
        ..stock(&[])
    };
    let config = Config {
        face: face(alloc).ok()?,
        stock,
        reader: b"public",
        writer: b"admin",
    };
    let settings = Settings {
        community: b"admin",
        order: Order::High,
    };
    let centre = Centre::new(alloc, settings, 1).ok()?;
    Some(World::new(alloc, Sign::new(alloc, config).ok()?, centre))
}

/// How many datagrams the centre and the sign have sent, how many activations were accepted, and whether `A` is shown.
type Counts = (usize, usize, usize, bool);

fn counts(world: &World) -> Counts {
    (
        world.to_sign.len(),
        world.to_centre.len(),
        world.accepted.len(),
        world.sign.shown().text.as_slice() == b"A".as_slice(),
    )
}

fn outcome(world: &World, number: u32) -> Option<Outcome> {
    match world.centre.ledger().get(&number) {
        Some(entry) => Some(entry.outcome),
        None => None,
    }
}

/// The number of the event of an acceptance, and whether it is of the changeable row with `A`.
fn acceptance(world: &World, place: usize) -> Option<(usize, bool)> {
    match world.accepted.get(place) {
        Some((number, code)) => Some((*number, code.id == CODE.id)),
        None => None,
    }
}

/// The number of an event, where a stop after so many makes the run count from the start.
fn recounted(event: usize, stop: usize) -> usize {
    match event.saturating_sub(stop) {
        0 => event,
        number => number,
    }
}

/// Goes on after a stop, which only an event that may want memory is a cause of. How many events had happened at the
/// stop.
fn run_through(world: &mut World, events: &[Event<'_>]) -> Result<usize, &'static str> {
    let done = match run(world, events) {
        Ok(()) => return Ok(0),
        Err(stopped) => stopped.done,
    };
    let rest = events.get(done..).ok_or("no such event")?;
    match rest.first() {
        Some(Event::SignTick | Event::PowerLost | Event::PowerBack(_)) => {
            return Err("out of memory without a need");
        }
        Some(_) => {}
        None => return Err("no event is left"),
    }
    match run(world, rest) {
        Ok(()) => Ok(done),
        Err(_) => Err("a second stop"),
    }
}

/// Makes the world again where its parts found no memory, and goes on after a stop. The world after all events, and how
/// many had happened at the stop.
fn after_all(alloc: Global, events: &[Event<'_>]) -> Result<(World, usize), &'static str> {
    let mut world = match world_of(alloc) {
        Some(world) => world,
        None => world_of(alloc).ok_or("no world")?,
    };
    let stop = run_through(&mut world, events)?;
    Ok((world, stop))
}

/// What is looked at after a run: the counts, what became of a request, and the first acceptance.
type Seen = (Counts, Option<Outcome>, Option<(usize, bool)>);

/// What is seen after all events, and how many had happened at a stop.
fn seen(alloc: Global, events: &[Event<'_>], request: u32) -> Result<(Seen, usize), &'static str> {
    let (world, stop) = after_all(alloc, events)?;
    let seen = (
        counts(&world),
        outcome(&world, request),
        acceptance(&world, 0),
    );
    Ok((seen, stop))
}

/// A publication is accepted at the sixteenth event. Where the run stops out of memory, it goes on after the stop, and
/// counts from there.
#[test]
fn a_publication_is_accepted_at_its_sixteenth_event(rt: HostRuntime) -> Result<(), Fail> {
    let (found, stop) = seen(rt.alloc(), &publication(), 7)?;
    assert_eq!(rt;
        found,
        (
            (7, 7, 1, true),
            Some(Outcome::Accepted),
            Some((recounted(16, stop), true))
        )
    );
    Ok(())
}

fn same_datagrams(some: &Datagrams, others: &Datagrams) -> bool {
    some.len() == others.len() && (0..some.len()).all(|place| some.get(place) == others.get(place))
}

/// Whether a world is as wanted after a publication and a second activation that no reply came to, where the run
/// stopped after so many events: its counts, what became of both requests, and both acceptances.
fn as_wanted(world: &World, stop: usize) -> [bool; 5] {
    [
        counts(world) == (8, 8, 2, true),
        outcome(world, 7) == Some(Outcome::Accepted),
        outcome(world, 8) == Some(Outcome::Waiting),
        acceptance(world, 0) == Some((recounted(16, stop), true)),
        acceptance(world, 1) == Some((recounted(21, stop), true)),
    ]
}

/// Whether two worlds are as wanted after the same events, and whether the same datagrams were sent in both.
fn two_worlds(
    alloc: Global,
    events: &[Event<'_>],
) -> Result<([bool; 5], [bool; 5], bool), &'static str> {
    let (one, stop) = after_all(alloc, events)?;
    let (other, other_stop) = after_all(alloc, events)?;
    let same = same_datagrams(&one.to_sign, &other.to_sign)
        && same_datagrams(&one.to_centre, &other.to_centre);
    Ok((as_wanted(&one, stop), as_wanted(&other, other_stop), same))
}

/// A publication, a loss of power and forged datagrams, where memory is refused once or never, as `rt try --test
/// --fail-alloc N` refuses it: the world after all events is the same, but for the numbers of the events, which count
/// from there after a stop.
#[test]
fn world_or_out_of_memory(rt: HostRuntime) -> Result<(), Fail> {
    let mut events = [Event::SignTick; 23];
    events[..17].copy_from_slice(&publication());
    events[17] = Event::PowerLost;
    events[18] = Event::PowerBack(1);
    events[19] = Event::Command(Command::Activate(CODE));
    events[20] = Event::ToSign(7);
    events[21] = Event::ForgeCentre(b"0");
    events[22] = Event::ForgeSign(b"0");
    assert_eq!(rt;
        two_worlds(rt.alloc(), &events)?,
        ([true; 5], [true; 5], true)
    );
    Ok(())
}

/// A second command, a delivery of what was never sent and a delivery to a sign without power change nothing.
#[test]
fn what_cannot_happen_changes_nothing(rt: HostRuntime) -> Result<(), Fail> {
    let in_vain = [
        Event::Command(publish(3, 1, b"A")),
        Event::Command(publish(3, 1, b"A")),
        Event::ToSign(1),
        Event::ToCentre(0),
        Event::PowerLost,
        Event::ToSign(0),
    ];
    let (mut world, _) = after_all(rt.alloc(), &in_vain)?;
    let before = counts(&world);
    let stop = run_through(&mut world, &[Event::PowerBack(1), Event::ToSign(0)]);
    assert_eq!(rt;
        (before, stop, counts(&world)),
        ((1, 0, 0, false), Ok(0), (1, 1, 0, false))
    );
    Ok(())
}

/// A forged reply makes the centre record what never was, and enters no list.
#[test]
fn a_forged_reply_is_recorded_and_enters_no_list(rt: HostRuntime) -> Result<(), Fail> {
    let events = [
        Event::Command(Command::Activate(CODE)),
        Event::ForgeCentre(&cases::NOTHING_BOUND),
    ];
    let (found, _) = seen(rt.alloc(), &events, 1)?;
    assert_eq!(rt; found, ((1, 0, 0, false), Some(Outcome::Accepted), None));
    Ok(())
}
