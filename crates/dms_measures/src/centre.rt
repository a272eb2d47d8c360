//! Measures of the central system: a command, a whole publication, ticks, and datagrams that answer nothing.

use dms_centre::{Centre, Command, Ended, Settings};
use dms_codes::{Order, Status, crc, memory};
use dms_wire::{Bind, ErrorStatus, Kind, MessageParts, Out, Value, heard, write, write_response};
use std::alloc::Global;
use std::array;

/// What the measured central system is made with.
pub(crate) const SETTINGS: Settings<'static> = Settings {
    community: b"admin",
    order: Order::High,
};

/// How many requests a publication sends.
pub(crate) const REQUESTS: usize = 7;

/// A good reply to each request of a publication, in turn.
pub(crate) type Replies = [Out; REQUESTS];

/// The command that publishes the text in changeable row 1.
pub(crate) fn publication(text: &[u8]) -> Command<'_> {
    Command::Publish {
        memory: memory::CHANGEABLE,
        number: 1,
        text,
        owner: &[],
        beacon: 0,
        pixel: 0,
        run_priority: 200,
        minutes: 5,
        priority: 255,
        address: [0; 4],
    }
}

/// The number that a good reply to this request of a publication reports, where it asks for one.
fn number_of(request: usize, crc: u16) -> Option<i64> {
    match request {
        1 => Some(i64::from(Status::Modifying.number())),
        4 => Some(i64::from(Status::Valid.number())),
        5 => Some(i64::from(crc)),
        _ => None,
    }
}

/// Writes a good reply to a request: its bindings again, or this number of the object that it asks for.
fn put_reply(request: &[u8], number: Option<i64>, reply: &mut Out) {
    reply.clear();
    let Some(message) = heard(request) else {
        return;
    };
    let Some(number) = number else {
        let _ = write_response(&message, ErrorStatus::NoError, 0, reply);
        return;
    };
    let mut binds = message.binds;
    let Some(bind) = binds.next() else {
        return;
    };
    let reported = [Bind {
        name: bind.name,
        value: Value::Integer(number),
    }];
    let parts = MessageParts {
        community: message.community,
        kind: Kind::Response,
        request: message.request,
        status: 0,
        index: 0,
        binds: &reported,
    };
    let _ = write(&parts, reply);
}

/// Good replies to the requests of a new central system that publishes the text.
pub(crate) fn replies_to(alloc: Global, text: &[u8]) -> Option<Replies> {
    let mut centre = Centre::new(alloc, SETTINGS, 1).ok()?;
    let mut replies: Replies = array::from_fn(|_| Out::new());
    let mut request = Out::new();
    centre.command(publication(text), &mut request).ok()?;
    let crc = crc(text, 0, 0);
    for at in 0..REQUESTS {
        if at == REQUESTS - 1 {
            centre.tick(&mut request).ok()?;
        }
        put_reply(request.as_slice(), number_of(at, crc), &mut replies[at]);
        centre.receive(replies[at].as_slice(), &mut request);
    }
    Some(replies)
}

/// Has a new central system publish the text against these replies. It sums the sizes of what is sent, and whether the
/// text was accepted.
fn published(alloc: Global, text: &[u8], replies: &Replies, out: &mut Out) -> u64 {
    let Ok(mut centre) = Centre::new(alloc, SETTINGS, 1) else {
        return 0;
    };
    if centre.command(publication(text), out).is_err() {
        return 0;
    }
    let mut sum = out.len() as u64;
    for at in 0..REQUESTS - 1 {
        centre.receive(replies[at].as_slice(), out);
        sum = sum.wrapping_add(out.len() as u64);
    }
    if centre.tick(out).is_err() {
        return 0;
    }
    sum = sum.wrapping_add(out.len() as u64);
    centre.receive(replies[REQUESTS - 1].as_slice(), out);
    sum.wrapping_add(u64::from(centre.last() == Ended::Accepted))
}

/// A new central system publishes the text, from the command to the reply that accepts it. It sums what `published`
/// does.
#[unsafe(no_mangle)]
pub extern "C" fn dms_measures_centre_publication(alloc: Global, text: &[u8], times: u32) -> u64 {
    let Some(replies) = replies_to(alloc, text) else {
        return 0;
    };
    let mut out = Out::new();
    let mut sum = 0_u64;
    for _ in 0..times {
        sum = sum.wrapping_add(published(alloc, text, &replies, &mut out));
    }
    sum
}

/// The text's publication is commanded, some ticks pass, and the central system is restarted. It sums the sizes of what
/// is sent.
fn waited(alloc: Global, text: &[u8], ticks: u8, times: u32) -> u64 {
    let Ok(mut centre) = Centre::new(alloc, SETTINGS, 1) else {
        return 0;
    };
    let mut out = Out::new();
    let mut sum = 0_u64;
    for _ in 0..times {
        if centre.command(publication(text), &mut out).is_ok() {
            sum = sum.wrapping_add(out.len() as u64);
        }
        for _ in 0..ticks {
            if centre.tick(&mut out).is_ok() {
                sum = sum.wrapping_add(out.len() as u64);
            }
        }
        centre.restart();
    }
    sum
}

/// The text's publication is commanded, and the central system restarted. It sums the sizes of what is sent.
#[unsafe(no_mangle)]
pub extern "C" fn dms_measures_centre_command(alloc: Global, text: &[u8], times: u32) -> u64 {
    waited(alloc, text, 0, times)
}

/// The same with two ticks, at which nothing is sent.
#[unsafe(no_mangle)]
pub extern "C" fn dms_measures_centre_ticks(alloc: Global, text: &[u8], times: u32) -> u64 {
    waited(alloc, text, 2, times)
}

/// The same with three ticks, at the last of which the request is sent again.
#[unsafe(no_mangle)]
pub extern "C" fn dms_measures_centre_resend(alloc: Global, text: &[u8], times: u32) -> u64 {
    waited(alloc, text, 3, times)
}

/// While a request waits, a datagram comes that does not answer it. It sums the sizes of what is sent, and whether the
/// job is still on.
#[unsafe(no_mangle)]
pub extern "C" fn dms_measures_centre_foreign(alloc: Global, datagram: &[u8], times: u32) -> u64 {
    let Ok(mut centre) = Centre::new(alloc, SETTINGS, 1) else {
        return 0;
    };
    let mut out = Out::new();
    if centre.command(publication(b"A"), &mut out).is_err() {
        return 0;
    }
    let mut sum = 0_u64;
    for _ in 0..times {
        centre.receive(datagram, &mut out);
        sum = sum.wrapping_add(out.len() as u64 + u64::from(centre.busy()));
    }
    sum
}
