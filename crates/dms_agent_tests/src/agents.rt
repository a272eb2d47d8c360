//! The bench sign with a text and a level beside it: what is read, walked and set of both.

use dms_agent::{Agent, PublishFault};
use dms_device::{ManagerAccess, PublishedObject};
use dms_sign::{Config, Receipt, Sign};
use dms_sign_bench::{B, face, stock};
use dms_wire::{Bind, Kind, MessageParts, Oid, Out, Value, read, write};
use std::alloc::Global;
use std::process::Abort;
use std::test::Fail;

/// sysDescr.0, 1.3.6.1.2.1.1.1.0 (RFC 1213): before all objects of a sign.
pub(crate) static DESCRIPTION: [u8; 8] = [43, 6, 1, 2, 1, 1, 1, 0];

/// dmsSignHeightPixels.0, the first object of a sign (NTCIP 1203).
static HEIGHT: [u8; 13] = [43, 6, 1, 4, 1, 137, 54, 4, 2, 3, 2, 3, 0];

/// dmsIllumManLevel.0, 7.6.0 below dms (NTCIP 1203): after all objects of a sign.
pub(crate) static LEVEL: [u8; 13] = [43, 6, 1, 4, 1, 137, 54, 4, 2, 3, 7, 6, 0];

/// numFonts.0, 3.1.0 below dms (NTCIP 1203): the first object of a sign's fonts.
static FONTS: [u8; 13] = [43, 6, 1, 4, 1, 137, 54, 4, 2, 3, 3, 1, 0];

/// A name after both.
static LAST: [u8; 3] = [43, 6, 2];

pub(crate) fn bench_sign(alloc: Global) -> Result<Sign, &'static str> {
    let Ok(face) = face(alloc) else {
        return Err("no face");
    };
    let config = Config {
        face,
        stock: stock(&[B]),
        reader: b"public",
        writer: b"admin",
    };
    match Sign::new(alloc, config) {
        Ok(sign) => Ok(sign),
        Err(_) => Err("no sign"),
    }
}

pub(crate) fn publish(
    agent: &mut Agent,
    alloc: Global,
    name: &[u8],
    value: &Value<'_>,
    access: ManagerAccess,
) -> Result<(), PublishFault> {
    match PublishedObject::new(alloc, name, value, access) {
        Ok(object) => agent.publish(object),
        Err(_) => Err(PublishFault::OutOfMemory),
    }
}

/// The bench sign, beside which a description and a level from 0 to 15 are published.
fn agent(alloc: Global) -> Result<Agent, &'static str> {
    let mut agent = Agent::new(alloc, bench_sign(alloc)?);
    let levels = ManagerAccess::Number { least: 0, most: 15 };
    let level = publish(&mut agent, alloc, &LEVEL, &Value::Integer(7), levels);
    let text = Value::Octets(b"a sign");
    let description = publish(
        &mut agent,
        alloc,
        &DESCRIPTION,
        &text,
        ManagerAccess::ReadOnly,
    );
    match (level, description) {
        (Ok(()), Ok(())) => Ok(agent),
        _ => Err("not published"),
    }
}

pub(crate) fn binding<'a>(name: &'a [u8], value: Value<'a>) -> Result<Bind<'a>, &'static str> {
    match Oid::of(name) {
        Some(name) => Ok(Bind { name, value }),
        None => Err("no name"),
    }
}

/// A request of these bindings.
pub(crate) fn request(
    community: &[u8],
    kind: Kind,
    binds: &[Bind<'_>],
) -> Result<Out, &'static str> {
    let mut request = Out::new();
    let parts = MessageParts {
        community,
        kind,
        request: 1,
        status: 0,
        index: 0,
        binds,
    };
    match write(&parts, &mut request) {
        Ok(()) => Ok(request),
        Err(_) => Err("no request"),
    }
}

/// The reply to a request, or nothing where it is dropped.
pub(crate) fn exchange(
    agent: &mut Agent,
    community: &[u8],
    kind: Kind,
    binds: &[Bind<'_>],
) -> Result<Out, &'static str> {
    let request = request(community, kind, binds)?;
    let mut reply = Out::new();
    match agent.receive(request.as_slice(), &mut reply) {
        Receipt::Dropped => Err("dropped"),
        _ => Ok(reply),
    }
}

/// Asserts that the reply has this status and index, and this binding first.
fn check_reply(
    rt: &impl Abort,
    reply: &Out,
    status: (i64, i64),
    first: &Bind<'_>,
) -> Result<(), Fail> {
    let mut message = read(reply.as_slice())?;
    assert!(rt; message.kind == Kind::Response && (message.status, message.index) == status);
    let found = message.binds.next().expect(rt, "a binding");
    assert!(rt; found == *first);
    Ok(())
}

/// Asserts that a request for what has this name, or comes after it, is refused: there is no such name.
fn check_no_name(rt: &impl Abort, agent: &mut Agent, kind: Kind, name: &[u8]) -> Result<(), Fail> {
    let asked = [binding(name, Value::Null)?];
    let reply = exchange(agent, b"public", kind, &asked)?;
    check_reply(rt, &reply, (2, 1), &asked[0])
}

#[test]
fn a_get_reads_both(rt: HostRuntime) -> Result<(), Fail> {
    let mut agent = agent(rt.alloc())?;
    let asked = [
        binding(&DESCRIPTION, Value::Null)?,
        binding(&HEIGHT, Value::Null)?,
        binding(&LEVEL, Value::Null)?,
    ];
    let reply = exchange(&mut agent, b"public", Kind::Get, &asked)?;
    check_reply(
        &rt,
        &reply,
        (0, 0),
        &binding(&DESCRIPTION, Value::Octets(b"a sign"))?,
    )?;
    check_no_name(&rt, &mut agent, Kind::Get, &LAST)
}

#[test]
fn a_walk_goes_from_one_to_the_other(rt: HostRuntime) -> Result<(), Fail> {
    let mut agent = agent(rt.alloc())?;
    let asked = [binding(&DESCRIPTION, Value::Null)?];
    let reply = exchange(&mut agent, b"public", Kind::GetNext, &asked)?;
    check_reply(&rt, &reply, (0, 0), &binding(&HEIGHT, Value::Integer(14))?)?;
    check_no_name(&rt, &mut agent, Kind::GetNext, &LEVEL)
}

#[test]
fn a_level_is_set_in_its_range_by_the_writer(rt: HostRuntime) -> Result<(), Fail> {
    let mut agent = agent(rt.alloc())?;
    let level = [binding(&LEVEL, Value::Integer(9))?];
    let reply = exchange(&mut agent, b"public", Kind::Set, &level)?;
    check_reply(&rt, &reply, (2, 1), &level[0])?;
    let reply = exchange(&mut agent, b"admin", Kind::Set, &level)?;
    check_reply(&rt, &reply, (0, 0), &level[0])?;
    assert!(rt; agent.device().first_set() == Some(binding(&LEVEL, Value::Integer(9))?));
    agent.tell_first();
    assert!(rt; agent.device().first_set().is_none());
    let level = [binding(&LEVEL, Value::Integer(16))?];
    let reply = exchange(&mut agent, b"admin", Kind::Set, &level)?;
    check_reply(&rt, &reply, (3, 1), &level[0])
}

#[test]
fn a_name_of_the_sign_is_not_published(rt: HostRuntime) -> Result<(), Fail> {
    let mut agent = agent(rt.alloc())?;
    let read_only = ManagerAccess::ReadOnly;
    let found = publish(
        &mut agent,
        rt.alloc(),
        &HEIGHT,
        &Value::Integer(1),
        read_only,
    );
    assert!(rt; found == Err(PublishFault::OfTheSign));
    let name = Oid::of(&LEVEL).ok_or("no name")?;
    assert!(rt; agent.withdraw(&name) && !agent.withdraw(&name));
    Ok(())
}

/// Fonts are read and walked once they are shown; no manager writes them, and nothing is published in their place.
#[test]
fn fonts_are_read_once_they_are_shown(rt: HostRuntime) -> Result<(), Fail> {
    let mut agent = Agent::new(rt.alloc(), bench_sign(rt.alloc())?);
    check_no_name(&rt, &mut agent, Kind::Get, &FONTS)?;
    assert!(rt; agent.show_fonts() && agent.show_fonts());
    let asked = [binding(&FONTS, Value::Null)?];
    let two = binding(&FONTS, Value::Integer(2))?;
    let reply = exchange(&mut agent, b"public", Kind::Get, &asked)?;
    check_reply(&rt, &reply, (0, 0), &two)?;
    let node = [binding(&FONTS[..11], Value::Null)?];
    let reply = exchange(&mut agent, b"public", Kind::GetNext, &node)?;
    check_reply(&rt, &reply, (0, 0), &two)?;
    let three = [binding(&FONTS, Value::Integer(3))?];
    let reply = exchange(&mut agent, b"admin", Kind::Set, &three)?;
    check_reply(&rt, &reply, (2, 1), &three[0])
}

#[test]
fn a_name_of_the_fonts_is_not_published(rt: HostRuntime) -> Result<(), Fail> {
    let mut agent = Agent::new(rt.alloc(), bench_sign(rt.alloc())?);
    let (nine, read_only) = (Value::Integer(9), ManagerAccess::ReadOnly);
    let found = publish(&mut agent, rt.alloc(), &FONTS, &nine, read_only);
    assert!(rt; found == Ok(()) && !agent.show_fonts());
    let name = Oid::of(&FONTS).ok_or("no name")?;
    assert!(rt; agent.own_value(&name).is_none() && agent.withdraw(&name) && agent.show_fonts());
    let read_only = ManagerAccess::ReadOnly;
    let found = publish(&mut agent, rt.alloc(), &FONTS, &nine, read_only);
    assert!(rt; found == Err(PublishFault::OfTheSign));
    assert!(rt; agent.own_value(&name) == Some(Value::Integer(2)));
    Ok(())
}
