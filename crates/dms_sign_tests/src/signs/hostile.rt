//! Datagrams that a sign should not have been sent: each is dropped, and then nothing changes, or it is answered as a
//! Get is, which ends the silence and changes nothing else.

use crate::signs::cases::STATUS;
use crate::signs::{bench_sign, cases, check_same, play};
use dms_sign::{Receipt, Sign};
use dms_table::Shown;
use dms_wire::{Kind, Out, read};
use std::test::Fail;

/// A sign that was sent such datagrams, beside one that was not.
#[derive(Drop)]
struct Pair {
    sent: Sign,
    untouched: Sign,
}

impl Pair {
    fn check_same(&mut self) -> Result<(), &'static str> {
        check_same(&mut self.sent, &mut self.untouched)
    }

    /// Sends one of them a datagram. Where it is answered, the other one is told that somebody was heard.
    fn send(&mut self, datagram: &[u8]) -> Result<Receipt, &'static str> {
        let mut reply = Out::new();
        let receipt = self.sent.receive(datagram, &mut reply);
        match receipt {
            Receipt::Dropped if reply.is_empty() => {}
            Receipt::Replied if is_response(reply.as_slice()) => self.untouched.heard(),
            _ => return Err("another receipt"),
        }
        Ok(receipt)
    }

    fn drops(&mut self, datagram: &[u8]) -> bool {
        self.send(datagram) == Ok(Receipt::Dropped)
    }

    /// Both go on for so many seconds, and show the same in each.
    fn pass(&mut self, seconds: u32) -> Result<(), &'static str> {
        for _ in 0..seconds {
            self.sent.tick();
            self.untouched.tick();
            if !is_same_shown(self.sent.shown(), self.untouched.shown()) {
                return Err("another message");
            }
        }
        Ok(())
    }

    /// Both come back from a loss of power, and then there are thirty of the sixty seconds of silence after which the
    /// message of lost communications comes up.
    fn fall_silent(&mut self) -> Result<(), &'static str> {
        come_back(&mut self.sent)?;
        come_back(&mut self.untouched)?;
        self.pass(30)
    }
}

/// A sign comes back from a loss of power, and is heard.
fn come_back(sign: &mut Sign) -> Result<(), &'static str> {
    play(sign, cases::SILENT_AFTER_A_MINUTE)?;
    sign.power_lost();
    sign.power_back(1);
    sign.heard();
    Ok(())
}

fn is_response(octets: &[u8]) -> bool {
    match read(octets) {
        Ok(message) => message.kind == Kind::Response,
        Err(_) => false,
    }
}

fn is_same_shown(one: &Shown, other: &Shown) -> bool {
    let is_same_row = one.view() == other.view();
    let is_same_source = one.source == other.source && one.address == other.address;
    let is_same_time = one.mode == other.mode && one.remaining == other.remaining;
    is_same_row && is_same_source && is_same_time && one.defaults == other.defaults
}

fn two_signs(rt: &HostRuntime) -> Result<Pair, &'static str> {
    Ok(Pair {
        sent: bench_sign(rt.alloc())?,
        untouched: bench_sign(rt.alloc())?,
    })
}

#[test]
fn what_is_no_message_changes_nothing(rt: HostRuntime) -> Result<(), Fail> {
    let mut pair = two_signs(&rt)?;
    play(&mut pair.sent, cases::HOSTILE)?;
    Ok(pair.check_same()?)
}

/// Each proper prefix, one to four octets more, and more octets than a datagram has.
#[test]
fn a_datagram_of_another_length_is_judged_alike(rt: HostRuntime) -> Result<(), Fail> {
    let mut pair = two_signs(&rt)?;
    for size in 0..48 {
        assert!(rt; pair.drops(&STATUS[..size]), "of {size} octets");
    }
    let mut more = [0; 52];
    more[..48].copy_from_slice(&STATUS);
    more[48..].copy_from_slice(&[0, 1, 2, 3]);
    for size in 49..=52 {
        assert!(rt; pair.drops(&more[..size]), "of {size} octets");
    }
    assert!(rt; pair.drops(&[0; 1473]) && pair.drops(&[0x30; 1473]));
    Ok(pair.check_same()?)
}

/// Each other value of each octet.
#[test]
fn each_octet_changed(rt: HostRuntime) -> Result<(), Fail> {
    let mut pair = two_signs(&rt)?;
    for place in 0..48 {
        pair.fall_silent()?;
        for change in 1..=255 {
            let mut datagram = STATUS;
            datagram[place] ^= change;
            pair.send(&datagram)?;
        }
        pair.pass(60)?;
        if place % 8 == 7 {
            pair.check_same()?;
        }
    }
    Ok(())
}

/// One after the other.
fn joined(some: &[u8], more: &[u8]) -> Result<Out, &'static str> {
    let mut octets = Out::new();
    if octets.try_extend_from_slice(some).is_ok() && octets.try_extend_from_slice(more).is_ok() {
        Ok(octets)
    } else {
        Err("too many octets")
    }
}

/// Each pair of neighbours deleted, doubled and exchanged.
#[test]
fn exchanged_neighbours_are_judged_alike(rt: HostRuntime) -> Result<(), Fail> {
    let mut pair = two_signs(&rt)?;
    for place in 0..47 {
        pair.fall_silent()?;
        let deleted = joined(&STATUS[..place], &STATUS[place + 2..])?;
        pair.send(deleted.as_slice())?;
        let doubled = joined(&STATUS[..place + 2], &STATUS[place..])?;
        pair.send(doubled.as_slice())?;
        let mut exchanged = STATUS;
        exchanged[place] = STATUS[place + 1];
        exchanged[place + 1] = STATUS[place];
        pair.send(&exchanged)?;
        pair.pass(60)?;
    }
    Ok(pair.check_same()?)
}
