//! Lines to the bench sign beside which objects are published, each with its answer.

use crate::agents::bench_sign;
use dms_agent::Agent;
use dms_agent_lines::{LiveAgent, answer};
use dms_sign_bench::states::NEW;
use dms_text_streams::Party;
use std::alloc::{AllocError, Global};
use std::process::Abort;
use std::test::Fail;

/// The bench sign beside which nothing is published yet.
fn agent(alloc: Global) -> Result<Agent, &'static str> {
    Ok(Agent::new(alloc, bench_sign(alloc)?))
}

/// Whether the agent gives these answers to these lines, in turn.
fn answers(alloc: Global, agent: &mut Agent, talk: &[(&str, &str)]) -> Result<bool, AllocError> {
    for (line, wanted) in talk {
        let text = answer(alloc, agent, line.as_bytes())?;
        if text.as_slice() != wanted.as_bytes() {
            return Ok(false);
        }
    }
    Ok(true)
}

/// A level that a manager sets, and what firmware is told.
static LEVEL: [(&str, &str); 8] = [
    ("objects", "ok\n"),
    (
        "object 1.3.6.1.4.1.1206.4.2.3.7.6.0 INTEGER 7 number 0 15",
        "ok\n",
    ),
    ("objects", "ok\n"),
    (
        "datagram 302b020100040561646d696ea31f02010102010002010030143012060d2b060104018936040203070600020109",
        "reply 302b020100040561646d696ea21f02010102010002010030143012060d2b060104018936040203070600020109\n",
    ),
    (
        "objects",
        "set 1.3.6.1.4.1.1206.4.2.3.7.6.0 INTEGER 9\nok\n",
    ),
    ("objects", "ok\n"),
    ("no-object 1.3.6.1.4.1.1206.4.2.3.7.6.0", "ok\n"),
    (
        "no-object 1.3.6.1.4.1.1206.4.2.3.7.6.0",
        "refused there is no object of this name\n",
    ),
];

#[test]
fn firmware_is_told_what_a_manager_set(rt: HostRuntime) -> Result<(), Fail> {
    let mut agent = agent(rt.alloc())?;
    assert!(rt; answers(rt.alloc(), &mut agent, &LEVEL)?);
    Ok(())
}

/// Why objects are not published.
static REFUSED: [(&str, &str); 7] = [
    (
        "object 1.3.6.1.4.1.1206.4.2.3.7.6.0 INTEGER 16 number 0 15",
        "refused the value is not one that its access takes\n",
    ),
    (
        "object 1.3.6.1.4.1.1206.4.2.3.7.6.0 INTEGER 1 number 2 1",
        "refused the value is not one that its access takes\n",
    ),
    (
        "object 1.3.6.1.4.1.1206.4.2.3.7.6.0 OCTET STRING 466f67 octets 0 2",
        "refused the value is not one that its access takes\n",
    ),
    (
        "object 1.3.6.1.4.1.1206.4.2.3.2.3.0 INTEGER 14",
        "refused the sign has an object of this name\n",
    ),
    (
        "object 1.3.6.1.4.1.1206.4.2.3.2.3.0 NULL number 0 1",
        "refused the value is not one that its access takes\n",
    ),
    (
        "no-object 1.3.6.1.4.1.1206.4.2.3.2.3.0",
        "refused there is no object of this name\n",
    ),
    ("objects", "ok\n"),
];

#[test]
fn objects_are_refused(rt: HostRuntime) -> Result<(), Fail> {
    let mut agent = agent(rt.alloc())?;
    assert!(rt; answers(rt.alloc(), &mut agent, &REFUSED)?);
    Ok(())
}

/// Fonts stand before objects.
static FONTS: [(&str, &str); 9] = [
    ("fonts", "ok\n"),
    ("fonts 1", "bad line word 2: no more words are wanted\n"),
    (
        "object 1.3.6.1.4.1.1206.4.2.3.3.1.0 INTEGER 9",
        "refused the sign has an object of this name\n",
    ),
    ("object 1.3 NULL", "ok\n"),
    ("fonts", "refused objects are published already\n"),
    ("no-object 1.3", "ok\n"),
    ("fonts", "ok\n"),
    ("power-lost", "ok\n"),
    ("fonts", "ok\n"),
];

#[test]
fn fonts_stand_before_objects(rt: HostRuntime) -> Result<(), Fail> {
    let mut agent = agent(rt.alloc())?;
    assert!(rt; answers(rt.alloc(), &mut agent, &FONTS)?);
    Ok(())
}

const NO_NAME: &str = "bad line word 2: the name of an object is wanted, as 1.3.6.1\n";

const NO_VALUE: &str = "bad line word 3: a value is wanted, as INTEGER 7\n";

const NO_ACCESS: &str =
    "bad line after the value an access is wanted, as number 0 7, or the end of the line\n";

/// Lines that are none, and why.
static BAD: [(&str, &str); 17] = [
    ("object", NO_NAME),
    ("object 1.40 NULL", NO_NAME),
    ("object  1.3 NULL", NO_NAME),
    ("object 1.3", NO_VALUE),
    ("object 1.3 Integer 7", NO_VALUE),
    ("object 1.3 INTEGER 7 ", NO_ACCESS),
    ("object 1.3 INTEGER 7 number 0", NO_ACCESS),
    ("object 1.3 INTEGER 7 numbers 0 1", NO_ACCESS),
    ("object 1.3 OCTET STRING - octets 0 65536", NO_ACCESS),
    ("no-object", NO_NAME),
    ("no-object 3.1", NO_NAME),
    (
        "no-object 1.3 ",
        "bad line word 3: two spaces, or a space at an end of the line\n",
    ),
    (
        "no-object 1.3 1",
        "bad line word 3: no more words are wanted\n",
    ),
    (
        "objects ",
        "bad line word 2: two spaces, or a space at an end of the line\n",
    ),
    (
        "datagram 0",
        "bad line word 2: a datagram in hexadecimal is wanted\n",
    ),
    (
        "ticks",
        "bad line word 2: the line ends where a number from 0 to 4294967295 is wanted\n",
    ),
    (
        "Object 1.3 NULL",
        "bad line no call begins with this word\n",
    ),
];

#[test]
fn other_lines_are_the_sign_s(rt: HostRuntime) -> Result<(), Fail> {
    let mut agent = agent(rt.alloc())?;
    assert!(rt; answers(rt.alloc(), &mut agent, &BAD)?);
    assert!(rt;
        answers(
            rt.alloc(),
            &mut agent,
            &[("tick", "ok\n"), ("datagram 00", "dropped\n")]
        )?
    );
    Ok(())
}

/// A level from 0 to 15 and a contact of at most 8 octets, and the values that a manager set.
static PUBLISHED: [(&str, &str); 4] = [
    (
        "object 1.3.6.1.4.1.1206.4.2.3.7.6.0 INTEGER 7 number 0 15",
        "ok\n",
    ),
    ("object 1.3.6.1.2.1.1.4.0 OCTET STRING - octets 0 8", "ok\n"),
    ("set 1.3.6.1.4.1.1206.4.2.3.7.6.0 INTEGER 15", "ok\n"),
    ("set 1.3.6.1.2.1.1.4.0 OCTET STRING 6e6f63", "ok\n"),
];

/// What a state has of them, behind that of the sign.
const KEPT: &str = "\
set 1.3.6.1.2.1.1.4.0 OCTET STRING 6e6f63
set 1.3.6.1.4.1.1206.4.2.3.7.6.0 INTEGER 15
";

/// Values that are put back are told to firmware, as if a manager had set them now, and stand in the state, also after
/// that.
#[test]
fn values_are_put_back_and_saved(rt: HostRuntime) -> Result<(), Fail> {
    let mut agent = agent(rt.alloc())?;
    let saved = format!(in rt.alloc(); "{NEW}{KEPT}ok\n")?;
    let told = format!(in rt.alloc(); "{KEPT}ok\n")?;
    let alone = format!(in rt.alloc(); "{NEW}ok\n")?;
    assert!(rt; answers(rt.alloc(), &mut agent, &[("save", alone.as_str())])?);
    assert!(rt; answers(rt.alloc(), &mut agent, &PUBLISHED)?);
    let talk = [
        ("save", saved.as_str()),
        ("objects", told.as_str()),
        ("objects", "ok\n"),
        ("save", saved.as_str()),
    ];
    assert!(rt; answers(rt.alloc(), &mut agent, &talk)?);
    Ok(())
}

const NONE_OF_THIS_NAME: &str = "refused there is no object of this name\n";

const NOT_TAKEN: &str = "refused the object does not take this value\n";

/// Values that are not put back: of names that are not published, one of the sign's too, out of range, of another type,
/// and of an object that is read alone.
static NOT_PUT_BACK: [(&str, &str); 8] = [
    ("set 1.3 NULL", NONE_OF_THIS_NAME),
    (
        "set 1.3.6.1.4.1.1206.4.2.3.2.3.0 INTEGER 14",
        NONE_OF_THIS_NAME,
    ),
    ("set 1.3.6.1.4.1.1206.4.2.3.7.6.0 INTEGER 16", NOT_TAKEN),
    (
        "set 1.3.6.1.4.1.1206.4.2.3.7.6.0 OCTET STRING 09",
        NOT_TAKEN,
    ),
    ("set 1.3.6.1.2.1.1.4.0 Opaque 6e6f63", NOT_TAKEN),
    (
        "set 1.3.6.1.2.1.1.4.0 OCTET STRING 6e6f636e6f636e6f63",
        NOT_TAKEN,
    ),
    ("object 1.3 INTEGER 7", "ok\n"),
    ("set 1.3 INTEGER 7", NOT_TAKEN),
];

#[test]
fn values_are_not_put_back(rt: HostRuntime) -> Result<(), Fail> {
    let mut agent = agent(rt.alloc())?;
    assert!(rt; answers(rt.alloc(), &mut agent, &PUBLISHED)?);
    let saved = format!(in rt.alloc(); "{NEW}{KEPT}ok\n")?;
    assert!(rt; answers(rt.alloc(), &mut agent, &NOT_PUT_BACK)?);
    assert!(rt; answers(rt.alloc(), &mut agent, &[("save", saved.as_str())])?);
    Ok(())
}

/// Lines that put no value back and do not ask for the state, and why.
static BAD_SETS: [(&str, &str); 13] = [
    ("set", NO_NAME),
    ("set 1.40 NULL", NO_NAME),
    ("set  1.3 NULL", NO_NAME),
    ("set 1.3", NO_VALUE),
    ("set 1.3 INTEGER", NO_VALUE),
    ("set 1.3 INTEGER 4294967296", NO_VALUE),
    (
        "set 1.3 NULL 1",
        "bad line word 4: no more words are wanted\n",
    ),
    (
        "set 1.3 INTEGER 7 number 0 9",
        "bad line word 5: no more words are wanted\n",
    ),
    (
        "set 1.3 OCTET STRING 66 ",
        "bad line word 6: two spaces, or a space at an end of the line\n",
    ),
    (
        "set 1.3 OBJECT IDENTIFIER 1.3 1",
        "bad line word 6: no more words are wanted\n",
    ),
    ("save 1", "bad line word 2: no more words are wanted\n"),
    (
        "save ",
        "bad line word 2: two spaces, or a space at an end of the line\n",
    ),
    ("sets", "bad line no call begins with this word\n"),
];

#[test]
fn lines_put_no_value_back(rt: HostRuntime) -> Result<(), Fail> {
    let mut agent = agent(rt.alloc())?;
    assert!(rt; answers(rt.alloc(), &mut agent, &BAD_SETS)?);
    Ok(())
}

/// Whether a party answers a line so.
fn says(
    alloc: Global,
    party: &mut LiveAgent,
    line: &str,
    wanted: &str,
) -> Result<bool, AllocError> {
    let text = party.answer(alloc, line.as_bytes())?;
    Ok(text.as_slice() == wanted.as_bytes())
}

/// Whether it answers so in the end: memory may be refused at any place; then the line is not answered, and later it
/// is.
fn says_at_last(alloc: Global, party: &mut LiveAgent, line: &str, wanted: &str) -> bool {
    for _ in 0..16 {
        if let Ok(said) = says(alloc, party, line, wanted) {
            return said;
        }
    }
    false
}

/// Where there is no memory for the sign it is made once more.
fn party(alloc: Global) -> Result<LiveAgent, &'static str> {
    match agent(alloc) {
        Ok(made) => Ok(LiveAgent::new(made)),
        Err(_) => Ok(LiveAgent::new(agent(alloc)?)),
    }
}

#[test]
fn an_object_or_out_of_memory(rt: HostRuntime) -> Result<(), Fail> {
    let mut party = party(rt.alloc())?;
    let line = "object 1.3 OCTET STRING 466f67 octets 0 8";
    assert!(rt; says_at_last(rt.alloc(), &mut party, line, "ok\n"));
    Ok(())
}

/// What `save` answers where this line stands behind the sign's state.
fn saved_with(alloc: Global, line: &str) -> Result<String, AllocError> {
    match format!(in alloc; "{NEW}{line}\nok\n") {
        Ok(text) => Ok(text),
        Err(_) => format!(in alloc; "{NEW}{line}\nok\n"),
    }
}

#[test]
fn a_state_or_out_of_memory(rt: HostRuntime) -> Result<(), Fail> {
    let mut party = party(rt.alloc())?;
    let line = "set 1.3 OCTET STRING 466f67";
    let saved = saved_with(rt.alloc(), line)?;
    for (line, wanted) in [
        ("object 1.3 OCTET STRING - octets 0 8", "ok\n"),
        (line, "ok\n"),
        ("set 1.3 NULL", NOT_TAKEN),
        ("save", saved.as_str()),
    ] {
        assert!(rt; says_at_last(rt.alloc(), &mut party, line, wanted));
    }
    Ok(())
}
