//! Replies of which two neighbouring octets were left out, doubled or exchanged.

use super::{BLANK, cases, centre, check_answer, check_taken, publish, reported};
use dms_centre::{Centre, Command};
use dms_codes::Order;
use dms_wire::{Kind, Out, heard};
use std::alloc::Global;
use std::process::Abort;
use std::test::Fail;

/// The octets with others in the place of the two from `place` on.
fn replaced(octets: &[u8], place: usize, others: &[u8]) -> Result<Out, Fail> {
    let before = octets.get(..place).ok_or("no such place")?;
    let after = octets.get(place + 2..).ok_or("no such place")?;
    let mut datagram = Out::new();
    for part in [before, others, after] {
        if datagram.try_extend_from_slice(part).is_err() {
            return Err("too long".into());
        }
    }
    Ok(datagram)
}

/// Whether the datagram is a reply to request 1 still.
fn is_reply(datagram: &[u8]) -> bool {
    match heard(datagram) {
        Some(message) => {
            message.kind == Kind::Response
                && message.community == b"admin".as_slice()
                && message.request == 1
        }
        None => false,
    }
}

/// A central system that sent this request, which waits for its reply.
fn waiting(rt: &impl Abort, alloc: Global, command: Command<'_>) -> Centre {
    let mut centre = centre(rt, alloc, Order::High, 1);
    check_taken(rt, &mut centre, command);
    centre
}

/// Whether both report the same.
fn same(one: &Centre, other: &Centre) -> bool {
    for (number, entry) in other.ledger().iter() {
        if one.ledger().get(number) != Some(entry) {
            return false;
        }
    }
    reported(one) == reported(other)
}

/// Whether both send and report the same at the next tick.
fn same_tick(one: &mut Centre, other: &mut Centre) -> bool {
    let mut sent = Out::new();
    let mut wanted = Out::new();
    let same_end = one.tick(&mut sent) == other.tick(&mut wanted);
    same_end && sent.as_slice() == wanted.as_slice() && same(one, other)
}

/// Whether they report the same, also at the next ten ticks, where they send the same too.
fn go_on_the_same(one: &mut Centre, other: &mut Centre) -> bool {
    if !same(one, other) {
        return false;
    }
    for _ in 0..10 {
        if !same_tick(one, other) {
            return false;
        }
    }
    true
}

/// A central system that is handed the datagram sends nothing, and reports and sends the same as another, also at the
/// next ten ticks.
fn check_unheard(rt: &impl Abort, alloc: Global, command: Command<'_>, datagram: &[u8]) {
    let mut one = waiting(rt, alloc, command);
    let mut other = waiting(rt, alloc, command);
    check_answer(rt, &mut one, datagram, &[]);
    assert!(rt; go_on_the_same(&mut one, &mut other));
}

/// The pair of octets at a place is left out, doubled and exchanged. How many of these datagrams are no reply any more:
/// each of them is as if it had never come.
fn unheard_at(
    rt: &impl Abort,
    alloc: Global,
    command: Command<'_>,
    reply: &[u8],
    place: usize,
) -> Result<usize, Fail> {
    let rest = reply.get(place..).ok_or("no such place")?;
    let [first, second, ..] = *rest else {
        return Err("no pair".into());
    };
    let mut unheard = 0_usize;
    for others in [
        b"".as_slice(),
        [first, second, first, second].as_slice(),
        [second, first].as_slice(),
    ] {
        let datagram = replaced(reply, place, others)?;
        if !is_reply(&datagram) {
            check_unheard(rt, alloc, command, &datagram);
            unheard = unheard.saturating_add(1);
        }
    }
    Ok(unheard)
}

/// Each pair of a reply's octets is left out, doubled and exchanged: what is no reply any more is as if it had never
/// come. How many are none was counted by the model of model/.
#[test]
fn what_is_no_reply_is_as_if_it_never_came(rt: HostRuntime) -> Result<(), Fail> {
    let (_, opened) = cases::PUBLISHED[0];
    for (command, reply, count) in [
        (publish(3, 1, b"A"), opened, 125),
        (BLANK, cases::BLANK_ACCEPTED.as_slice(), 141),
    ] {
        let mut unheard = 0_usize;
        for place in 0..reply.len().saturating_sub(1) {
            let more = unheard_at(&rt, rt.alloc(), command, reply, place)?;
            unheard = unheard.saturating_add(more);
        }
        assert_eq!(rt; (is_reply(reply), unheard), (true, count));
    }
    Ok(())
}
