//! What the measured calls answer, each octet of it in one number: the program of measures/ compares it with what the
//! same by hand answers, before it measures.

ghost use Rattle.std.specs.Prelude.{◌<◌};

use crate::agent::{agent_of, publish, withdraw};
use crate::centre::{REQUESTS, SETTINGS, publication, replies_to};
use crate::face_of;
use crate::sign::{sign_of, step};
use arrayvec::ArrayVec;
use dms_agent::Agent;
use dms_centre::{Centre, Ended};
use dms_codes::Order;
use dms_device::PublishedObject;
use dms_face::{Cell, check};
use dms_face_pages::{Page, pages};
use dms_multi::Lead;
use dms_replay::replay;
use dms_sign::{Receipt, Sign};
use dms_text_streams::Gathered;
use dms_wire::{Bind, MAX_BINDINGS, MessageParts, Out, Value, read, write};
use std::alloc::Global;

/// With a number after what was summed before: it depends on each of them and on their order.
fn with_number(sum: u64, number: u64) -> u64 {
    sum.wrapping_mul(1_099_511_628_211).wrapping_add(number)
}

/// With these octets and how many they are.
fn with_octets(before: u64, octets: &[u8]) -> u64 {
    let mut sum = with_number(before, octets.len() as u64);
    for octet in octets {
        sum = with_number(sum, u64::from(*octet));
    }
    sum
}

/// With a value: the number of its tag, and its content.
fn with_value(sum: u64, value: &Value<'_>) -> u64 {
    match value {
        Value::Integer(number) => with_number(with_number(sum, 2), number.unsigned_abs()),
        Value::Octets(octets) => with_octets(with_number(sum, 4), octets),
        Value::Null => with_number(sum, 5),
        Value::Name(name) => with_octets(with_number(sum, 6), name.content()),
        Value::Address(octets) => with_octets(with_number(sum, 64), octets.as_slice()),
        Value::Counter(number) => with_number(with_number(sum, 65), u64::from(*number)),
        Value::Gauge(number) => with_number(with_number(sum, 66), u64::from(*number)),
        Value::Ticks(number) => with_number(with_number(sum, 67), u64::from(*number)),
        Value::Opaque(octets) => with_octets(with_number(sum, 68), octets),
    }
}

/// What is read of the datagram: its fault, or its request-id, its community and its bindings.
#[unsafe(no_mangle)]
pub extern "C" fn dms_answers_read(datagram: &[u8]) -> u64 {
    match read(datagram) {
        Err(fault) => with_number(u64::from(fault.kind.number()), fault.place as u64),
        Ok(message) => {
            let mut sum = with_number(0, message.request.unsigned_abs());
            sum = with_octets(sum, message.community);
            for bind in message.binds {
                sum = with_octets(sum, bind.name.content());
                sum = with_value(sum, &bind.value);
            }
            sum
        }
    }
}

/// What is written of the message that the datagram spells.
#[unsafe(no_mangle)]
pub extern "C" fn dms_answers_write(datagram: &[u8]) -> u64 {
    let Ok(message) = read(datagram) else {
        return 0;
    };
    let mut binds: ArrayVec<Bind<'_>, MAX_BINDINGS> = ArrayVec::new();
    for bind in message.binds {
        let _ = binds.try_push(bind);
    }
    let parts = MessageParts {
        community: message.community,
        kind: message.kind,
        request: message.request,
        status: message.status,
        index: message.index,
        binds: binds.as_slice(),
    };
    let mut out = Out::new();
    match write(&parts, &mut out) {
        Ok(()) => with_octets(1, out.as_slice()),
        Err(_) => 0,
    }
}

/// The number of the text's pages, or its fault.
#[unsafe(no_mangle)]
pub extern "C" fn dms_answers_check(alloc: Global, fonts: &[u8], text: &[u8]) -> u64 {
    let Some(face) = face_of(alloc, fonts) else {
        return 0;
    };
    match check(&face, text) {
        Ok(count) => with_number(1, count as u64),
        Err(fault) => with_number(
            with_number(2, u64::from(fault.code.number())),
            fault.place as u64,
        ),
    }
}

/// With all that a cell shows.
fn with_cell(before: u64, cell: Cell) -> u64 {
    let sum = with_number(
        with_number(before, u64::from(cell.lit)),
        u64::from(cell.colour),
    );
    match cell.flash {
        None => with_number(sum, 0),
        Some(flash) => {
            let sum = with_number(sum, 1 + u64::from(flash.first == Lead::Dark));
            with_number(
                with_number(sum, u64::from(flash.lit)),
                u64::from(flash.dark),
            )
        }
    }
}

/// With the cells of a row.
fn with_row(before: u64, page: &Page, y: u16) -> u64
    requires { y < page.now.height }
{
    let mut sum = before;
    for x in 0..page.width() {
        sum = with_cell(sum, page.cell(x, y));
    }
    sum
}

/// With a page's times and its cells.
fn with_page(before: u64, page: &Page) -> u64 {
    let mut sum = with_number(
        with_number(before, u64::from(page.on())),
        u64::from(page.off()),
    );
    for y in 0..page.height() {
        sum = with_row(sum, page, y);
    }
    sum
}

/// The text's pages, cell by cell.
#[unsafe(no_mangle)]
pub extern "C" fn dms_answers_pages(alloc: Global, fonts: &[u8], text: &[u8]) -> u64 {
    let Some(face) = face_of(alloc, fonts) else {
        return 0;
    };
    let Ok(made) = pages(alloc, &face, text) else {
        return 0;
    };
    let mut sum = with_number(0, made.len() as u64);
    for page in &made {
        sum = with_page(sum, page);
    }
    sum
}

/// With what came of a datagram.
fn with_receipt(sum: u64, receipt: Receipt) -> u64 {
    match receipt {
        Receipt::Dropped => with_number(sum, 0),
        Receipt::Replied => with_number(sum, 1),
        Receipt::Accepted(code) => {
            let octets = code.to_bytes(Order::High);
            with_octets(with_number(sum, 2), octets.as_slice())
        }
    }
}

/// Hands the sign a script, as it is measured, and notes each reply and what came of each datagram.
fn answered(sign: &mut Sign, script: &[u8], before: u64, out: &mut Out) -> u64 {
    let mut sum = before;
    let mut left = script;
    'steps: while let Some((datagram, rest)) = step(left) {
        if datagram.is_empty() {
            sign.tick();
        } else {
            let receipt = sign.receive(datagram, out);
            sum = with_octets(with_receipt(sum, receipt), out.as_slice());
        }
        left = rest;
    }
    sum
}

/// Each reply of a new sign that is handed the script `before` once and then `script` twice.
#[unsafe(no_mangle)]
pub extern "C" fn dms_answers_sign(
    alloc: Global,
    fonts: &[u8],
    before: &[u8],
    script: &[u8],
    changeable: u32,
) -> u64 {
    let Some(mut sign) = sign_of(alloc, fonts, changeable) else {
        return 0;
    };
    let mut out = Out::new();
    let prepared = answered(&mut sign, before, 0, &mut out);
    let once = answered(&mut sign, script, prepared, &mut out);
    answered(&mut sign, script, once, &mut out)
}

/// Hands the agent a script, as it is measured, and notes each reply and what came of each datagram.
fn agent_answered(agent: &mut Agent, script: &[u8], before: u64, out: &mut Out) -> u64 {
    let mut sum = before;
    let mut left = script;
    'steps: while let Some((datagram, rest)) = step(left) {
        let receipt = agent.receive(datagram, out);
        sum = with_octets(with_receipt(sum, receipt), out.as_slice());
        left = rest;
    }
    sum
}

/// Each reply of a new agent with objects of these names that is handed the script twice.
#[unsafe(no_mangle)]
pub extern "C" fn dms_answers_agent(
    alloc: Global,
    fonts: &[u8],
    names: &[u8],
    script: &[u8],
) -> u64 {
    let Some(mut agent) = agent_of(alloc, fonts, names) else {
        return 0;
    };
    let mut out = Out::new();
    let once = agent_answered(&mut agent, script, 0, &mut out);
    with_objects(agent_answered(&mut agent, script, once, &mut out), &agent)
}

/// With the name and the value of each object.
fn with_objects(before: u64, agent: &Agent) -> u64 {
    let mut sum = with_number(before, agent.device().objects().len() as u64);
    for object in agent.device().objects() {
        sum = with_object(sum, object);
    }
    sum
}

/// With an object's name, its value, and whether a manager set it.
fn with_object(before: u64, object: &PublishedObject) -> u64 {
    let sum = with_octets(before, object.name().content());
    with_number(with_value(sum, &object.value()), u64::from(object.is_set()))
}

/// The objects of an agent in which one is published and published again, and then without it.
#[unsafe(no_mangle)]
pub extern "C" fn dms_answers_publish(
    alloc: Global,
    fonts: &[u8],
    names: &[u8],
    name: &[u8],
) -> u64 {
    let Some(mut agent) = agent_of(alloc, fonts, names) else {
        return 0;
    };
    let mut sum = 0_u64;
    for number in [1, 2] {
        let done = publish(alloc, &mut agent, name, number);
        sum = with_objects(with_number(sum, u64::from(done)), &agent);
    }
    let found = withdraw(&mut agent, name);
    with_objects(with_number(sum, u64::from(found)), &agent)
}

/// Each request of a new central system that publishes the text, and whether the text was accepted.
#[unsafe(no_mangle)]
pub extern "C" fn dms_answers_publication(alloc: Global, text: &[u8]) -> u64 {
    let Some(replies) = replies_to(alloc, text) else {
        return 0;
    };
    let Ok(mut centre) = Centre::new(alloc, SETTINGS, 1) else {
        return 0;
    };
    let mut out = Out::new();
    let taken = centre.command(publication(text), &mut out).is_ok();
    let mut sum = with_octets(u64::from(taken), out.as_slice());
    for at in 0..REQUESTS {
        if at == REQUESTS - 1 && centre.tick(&mut out).is_ok() {
            sum = with_octets(sum, out.as_slice());
        }
        centre.receive(replies[at].as_slice(), &mut out);
        sum = with_octets(sum, out.as_slice());
    }
    with_number(sum, u64::from(centre.last() == Ended::Accepted))
}

/// What a central system sends where the text's publication is commanded, some ticks pass, and it is restarted: twice.
#[unsafe(no_mangle)]
pub extern "C" fn dms_answers_waits(alloc: Global, text: &[u8], ticks: u32) -> u64 {
    let Ok(mut centre) = Centre::new(alloc, SETTINGS, 1) else {
        return 0;
    };
    let mut out = Out::new();
    let mut sum = 0_u64;
    for _ in 0..2 {
        let taken = centre.command(publication(text), &mut out).is_ok();
        sum = with_octets(with_number(sum, u64::from(taken)), out.as_slice());
        for _ in 0..ticks {
            let done = centre.tick(&mut out).is_ok();
            sum = with_octets(with_number(sum, u64::from(done)), out.as_slice());
        }
        centre.restart();
        sum = with_number(sum, u64::from(centre.busy()));
    }
    sum
}

/// What a central system sends at a datagram that does not answer the request that waits, and whether its job is still
/// on.
#[unsafe(no_mangle)]
pub extern "C" fn dms_answers_foreign(alloc: Global, datagram: &[u8]) -> u64 {
    let Ok(mut centre) = Centre::new(alloc, SETTINGS, 1) else {
        return 0;
    };
    let mut out = Out::new();
    let taken = centre.command(publication(b"A"), &mut out).is_ok();
    let sum = with_octets(u64::from(taken), out.as_slice());
    centre.receive(datagram, &mut out);
    with_number(with_octets(sum, out.as_slice()), u64::from(centre.busy()))
}

/// The report of the script.
#[unsafe(no_mangle)]
pub extern "C" fn dms_answers_replay(alloc: Global, script: &[u8]) -> u64 {
    let mut reader = script;
    let mut writer = Gathered::new(alloc);
    match replay(alloc, &mut reader, &mut writer) {
        Ok(()) => with_octets(1, writer.bytes()),
        Err(_) => 0,
    }
}
