//! Replies to a Get and to a GetNext over an object that is no sign's.

use dms_mib_replies::{Next, NextName, Objects, answer_get, answer_next};
use dms_wire::{Bind, Kind, MessageParts, Oid, Out, Value, heard, read, write};
use std::process::Abort;
use std::test::Fail;

/// sysUpTime.0 (RFC 1213).
const UP_TIME: &[u8] = &[43, 6, 1, 2, 1, 1, 3, 0];
/// sysDescr.0.
const DESCRIPTION: &[u8] = &[43, 6, 1, 2, 1, 1, 1, 0];

/// An object that each name reads, and that comes after each.
#[derive(Drop)]
struct Seven<'a> {
    name: Oid<'a>,
}

impl Objects for Seven<'_> {
    ghost use Rattle.std.specs.Prelude.{pos, Some};
    ghost use Rattle.dms_wire.specs.Message.{integer};

    ghost reads = { λ seven name. Some (integer (pos 7)) };

    ghost follows = { λ seven name. Some (record { name = seven.name; value = integer (pos 7) }) };

    fn value(&self, _name: &Oid<'_>) -> Option<Value<'_>> {
        Some(Value::Integer(7))
    }

    fn next(&self, _name: &Oid<'_>) -> Option<Next<'_>> {
        Some(Next {
            name: NextName::Lent(self.name.again()),
            value: Value::Integer(7),
        })
    }
}

/// A binding that asks for this name.
fn asked(content: &[u8]) -> Option<Bind<'_>> {
    Some(Bind {
        name: Oid::of(content)?,
        value: Value::Null,
    })
}

/// The reply to a request of this kind for so many names: its names are `wanted`, and each has the value 7.
fn check_reply(rt: &impl Abort, kind: Kind, names: &[Bind<'_>], wanted: &[u8]) -> Result<(), Fail> {
    let asked = MessageParts {
        community: b"public",
        kind,
        request: 1,
        status: 0,
        index: 0,
        binds: names,
    };
    let (mut datagram, mut out) = (Out::new(), Out::new());
    write(&asked, &mut datagram)?;
    let message = heard(&datagram).ok_or("no message")?;
    let seven = Seven {
        name: Oid::of(UP_TIME).ok_or("no name")?,
    };
    if kind == Kind::Get {
        answer_get(&seven, &message, &mut out);
    } else {
        answer_next(&seven, &message, &mut out);
    }
    let mut reply = read(&out)?;
    for _ in names {
        let found = reply.binds.next().expect(rt, "a binding");
        assert!(rt; found.name.content() == wanted && found.value == Value::Integer(7));
    }
    assert!(rt; reply.binds.next().is_none() && (reply.kind, reply.status) == (Kind::Response, 0));
    Ok(())
}

#[test]
fn one_object_answers_each_name(rt: HostRuntime) -> Result<(), Fail> {
    let one = [asked(DESCRIPTION).ok_or("no name")?];
    let two = [
        asked(DESCRIPTION).ok_or("no name")?,
        asked(DESCRIPTION).ok_or("no name")?,
    ];
    check_reply(&rt, Kind::Get, &one, DESCRIPTION)?;
    check_reply(&rt, Kind::Get, &two, DESCRIPTION)?;
    check_reply(&rt, Kind::GetNext, &one, UP_TIME)?;
    check_reply(&rt, Kind::GetNext, &two, UP_TIME)
}
