//! Measures of an agent: a sign with as many rows as it can have, and objects that firmware publishes beside it.

use crate::sign::{sign_of, step};
use dms_agent::Agent;
use dms_device::{ManagerAccess, PublishedObject};
use dms_wire::{MAX_DATAGRAM, Oid, Out, Value};
use std::alloc::Global;

/// What a manager may write to each object.
const LEVELS: ManagerAccess = ManagerAccess::Number {
    least: 0,
    most: 255,
};

/// Publishes an object that reads this number. The octets are its name's content. It answers whether that was done.
pub(crate) fn publish(alloc: Global, agent: &mut Agent, name: &[u8], number: u8) -> bool {
    let value = Value::Integer(i64::from(number));
    match PublishedObject::new(alloc, name, &value, LEVELS) {
        Ok(object) => agent.publish(object).is_ok(),
        Err(_) => false,
    }
}

/// Withdraws the object of a name, and answers whether there was one.
pub(crate) fn withdraw(agent: &mut Agent, name: &[u8]) -> bool {
    match Oid::of(name) {
        Some(name) => agent.withdraw(&name),
        None => false,
    }
}

/// A sign of the largest matrix with the most rows, and beside it an object of each of these names, which stand one
/// after another as the datagrams of a script do.
pub(crate) fn agent_of(alloc: Global, fonts: &[u8], names: &[u8]) -> Option<Agent> {
    let mut agent = Agent::new(alloc, sign_of(alloc, fonts, 64)?);
    let mut left = names;
    'names: while let Some((name, rest)) = step(left) {
        if !publish(alloc, &mut agent, name, 7) {
            return None;
        }
        left = rest;
    }
    Some(agent)
}

/// Hands the agent the datagrams of a script. It sums the sizes of the replies, and of each reply another octet, from
/// this place on.
fn played(agent: &mut Agent, script: &[u8], place: u32, out: &mut Out) -> u64 {
    let mut sum = 0_u64;
    let mut place = place as usize;
    let mut left = script;
    'steps: while let Some((datagram, rest)) = step(left) {
        let _ = agent.receive(datagram, out);
        let octet = out.get(place % MAX_DATAGRAM).copied().unwrap_or(0);
        sum = sum.wrapping_add(out.len() as u64 + u64::from(octet));
        place = place.wrapping_add(1);
        left = rest;
    }
    sum
}

/// Makes an agent with objects of these names, and hands it the script `times` times. It sums the sizes of the replies,
/// and of each reply another octet.
#[unsafe(no_mangle)]
pub extern "C" fn dms_measures_agent(
    alloc: Global,
    fonts: &[u8],
    names: &[u8],
    script: &[u8],
    times: u32,
) -> u64 {
    let Some(mut agent) = agent_of(alloc, fonts, names) else {
        return 0;
    };
    let mut out = Out::new();
    let mut sum = 0_u64;
    for time in 0..times {
        sum = sum.wrapping_add(played(&mut agent, script, time, &mut out));
    }
    sum
}

/// Makes an agent with objects of these names, and publishes one of `name` `times` times. It sums how often that was
/// done and the number of objects that there are in the end.
#[unsafe(no_mangle)]
pub extern "C" fn dms_measures_publish(
    alloc: Global,
    fonts: &[u8],
    names: &[u8],
    name: &[u8],
    times: u32,
) -> u64 {
    let Some(mut agent) = agent_of(alloc, fonts, names) else {
        return 0;
    };
    let mut sum = 0_u64;
    for time in 0..times {
        let done = publish(alloc, &mut agent, name, (time % 256) as u8);
        sum = sum.wrapping_add(u64::from(done));
    }
    sum.wrapping_add(agent.device().objects().len() as u64)
}

/// The same, and each time the object is withdrawn again. It sums how often both were done.
#[unsafe(no_mangle)]
pub extern "C" fn dms_measures_withdraw(
    alloc: Global,
    fonts: &[u8],
    names: &[u8],
    name: &[u8],
    times: u32,
) -> u64 {
    let Some(mut agent) = agent_of(alloc, fonts, names) else {
        return 0;
    };
    let mut sum = 0_u64;
    for time in 0..times {
        let done = publish(alloc, &mut agent, name, (time % 256) as u8);
        let found = withdraw(&mut agent, name);
        sum = sum.wrapping_add(u64::from(done) + u64::from(found));
    }
    sum.wrapping_add(agent.device().objects().len() as u64)
}
