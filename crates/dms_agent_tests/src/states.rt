//! The state of the bench sign and of the objects beside it: as text, and their values put back.

use crate::agents::{DESCRIPTION, LEVEL, bench_sign, binding, exchange, publish};
use dms_agent::Agent;
use dms_agent_state::{SetError, put_objects, put_saved, saved, saved_values, state_parts};
use dms_device::ManagerAccess;
use dms_mib_replies::Objects;
use dms_wire::{Kind, Oid, Value};
use std::alloc::Global;
use std::test::Fail;

/// sysContact.0, 1.3.6.1.2.1.1.4.0 (RFC 1213).
static CONTACT: [u8; 8] = [43, 6, 1, 2, 1, 1, 4, 0];

/// What stands behind the sign's state once a level and a contact are set.
const BOTH: &[u8] = b"end
set 1.3.6.1.2.1.1.4.0 OCTET STRING 6e6f63
set 1.3.6.1.4.1.1206.4.2.3.7.6.0 INTEGER 15
";

/// The bench sign, beside which a description, a contact of at most 8 octets and a level from 0 to 15 are published.
fn agent(alloc: Global) -> Result<Agent, &'static str> {
    let mut agent = Agent::new(alloc, bench_sign(alloc)?);
    let levels = ManagerAccess::Number { least: 0, most: 15 };
    let texts = ManagerAccess::Octets { least: 0, most: 8 };
    let text = Value::Octets(b"a sign");
    for done in [
        publish(&mut agent, alloc, &LEVEL, &Value::Integer(7), levels),
        publish(&mut agent, alloc, &CONTACT, &Value::Octets(b""), texts),
        publish(
            &mut agent,
            alloc,
            &DESCRIPTION,
            &text,
            ManagerAccess::ReadOnly,
        ),
    ] {
        if done.is_err() {
            return Err("not published");
        }
    }
    Ok(agent)
}

/// The same, of which a manager set the level and the contact.
fn set(alloc: Global) -> Result<Agent, &'static str> {
    let mut agent = agent(alloc)?;
    let binds = [
        binding(&LEVEL, Value::Integer(15))?,
        binding(&CONTACT, Value::Octets(b"noc"))?,
    ];
    exchange(&mut agent, b"admin", Kind::Set, &binds)?;
    Ok(agent)
}

/// Whether the level and the contact read so.
fn reads(agent: &Agent, level: i64, contact: &[u8]) -> Result<bool, &'static str> {
    let (levels, contacts) = (
        Oid::of(&LEVEL).ok_or("no name")?,
        Oid::of(&CONTACT).ok_or("no name")?,
    );
    Ok(
        agent.value(&levels) == Some(Value::Integer(level))
            && agent.value(&contacts) == Some(Value::Octets(contact)),
    )
}

#[test]
fn values_that_were_set_are_saved_and_put_back(rt: HostRuntime) -> Result<(), Fail> {
    let mut before = set(rt.alloc())?;
    let text = saved(rt.alloc(), &before)?;
    assert!(rt; text.as_slice().ends_with(BOTH));
    // firmware is told, and the text has the values still
    before.tell_all();
    assert!(rt; saved(rt.alloc(), &before)?.as_slice() == text.as_slice());
    let mut after = agent(rt.alloc())?;
    put_objects(rt.alloc(), &mut after, text.as_slice()).or(Err("not put back"))?;
    assert!(rt; reads(&after, 15, b"noc")?);
    let told = after.device().first_set().ok_or("not told")?;
    assert!(rt; told == binding(&CONTACT, Value::Octets(b"noc"))?);
    assert!(rt; saved(rt.alloc(), &after)?.as_slice().ends_with(BOTH));
    Ok(())
}

#[test]
fn what_is_published_anew_is_not_saved(rt: HostRuntime) -> Result<(), Fail> {
    let mut agent = set(rt.alloc())?;
    let levels = ManagerAccess::Number { least: 0, most: 15 };
    let done = publish(&mut agent, rt.alloc(), &LEVEL, &Value::Integer(3), levels);
    assert!(rt; done.is_ok());
    let text = saved(rt.alloc(), &agent)?;
    let (sign, objects) = state_parts(text.as_slice());
    assert!(rt; sign.ends_with(b"\npowered 1\nend\n"));
    assert!(rt; objects == b"set 1.3.6.1.2.1.1.4.0 OCTET STRING 6e6f63\n".as_slice());
    let mut buffer = [7; 9];
    assert!(rt; put_saved(&mut buffer, &agent) == text.len() && &buffer == b"state 1 s");
    Ok(())
}

/// Lines that say values which no object here takes: one that is not published, one above its range, one of another
/// type, one that is read alone.
const LEFT_OUT: &[u8] = b"end
set 1.3.6.2 INTEGER 1
set 1.3.6.1.4.1.1206.4.2.3.7.6.0 INTEGER 16
set 1.3.6.1.2.1.1.4.0 Opaque 66
set 1.3.6.1.2.1.1.1.0 OCTET STRING 66
";

#[test]
fn what_no_object_takes_is_left_out(rt: HostRuntime) -> Result<(), Fail> {
    let mut agent = agent(rt.alloc())?;
    put_objects(rt.alloc(), &mut agent, LEFT_OUT).or(Err("not put back"))?;
    assert!(rt; reads(&agent, 7, b"")? && agent.device().first_set().is_none());
    assert!(rt;
        saved_values(rt.alloc(), LEFT_OUT)
            .or(Err("not read"))?
            .len()
            == 4
    );
    Ok(())
}

/// Texts that are refused, and why.
static REFUSED: [(&[u8], &str); 7] = [
    (
        b"end\nset 1.3 NULL",
        "line 2: a newline is wanted at its end",
    ),
    (b"end\n\n", "line 2: set, a name and a value are wanted"),
    (
        b"state 1 sign\nend\nset 1.3 NULL\nobject 1.3 NULL\n",
        "line 4: set, a name and a value are wanted",
    ),
    (
        b"end\nset 3.1 NULL\n",
        "line 2: word 2: the name of an object is wanted, as 1.3.6.1",
    ),
    (
        b"end\nset\n",
        "line 2: word 2: the name of an object is wanted, as 1.3.6.1",
    ),
    (
        b"end\nset 1.3 INTEGER\n",
        "line 2: word 3: a value is wanted, as INTEGER 7",
    ),
    (
        b"end\nset 1.3 INTEGER 7 number 0 9\n",
        "line 2: after the value the end of the line is wanted",
    ),
];

#[test]
fn a_line_that_says_no_value_changes_nothing(rt: HostRuntime) -> Result<(), Fail> {
    let mut agent = set(rt.alloc())?;
    for (text, why) in REFUSED {
        let error = put_objects(rt.alloc(), &mut agent, text)
            .err()
            .ok_or("put")?;
        let said = format!(in rt.alloc(); "{error}")?;
        assert!(rt; said.as_str() == why && reads(&agent, 15, b"noc")?);
    }
    // a text without a line `end` has no objects, and so has one in which another line only begins so
    for text in [
        b"".as_slice(),
        b"set 1.3 NUL\n",
        b"end-duration 00\nend of it\nset x\n",
    ] {
        assert!(rt; put_objects(rt.alloc(), &mut agent, text).is_ok());
    }
    Ok(())
}

/// Memory may be refused at any place: then nothing is put back, and the next time all is.
#[test]
fn put_back_or_out_of_memory(rt: HostRuntime) -> Result<(), Fail> {
    let mut agent = match agent(rt.alloc()) {
        Ok(agent) => agent,
        Err(_) => agent(rt.alloc())?,
    };
    if let Err(error) = put_objects(rt.alloc(), &mut agent, BOTH) {
        assert!(rt; error == SetError::Memory && reads(&agent, 7, b"")?);
        put_objects(rt.alloc(), &mut agent, BOTH).or(Err("not put back"))?;
    }
    assert!(rt; reads(&agent, 15, b"noc")?);
    Ok(())
}

/// Each allocation of a state's text may be refused: then it is out of memory, and with memory the text is the same.
#[test]
fn saved_or_out_of_memory(rt: HostRuntime) -> Result<(), Fail> {
    let agent = match set(rt.alloc()) {
        Ok(agent) => agent,
        Err(_) => set(rt.alloc())?,
    };
    let text = match saved(rt.alloc(), &agent) {
        Ok(text) => text,
        Err(_) => saved(rt.alloc(), &agent)?,
    };
    assert!(rt; text.as_slice().ends_with(BOTH));
    Ok(())
}
