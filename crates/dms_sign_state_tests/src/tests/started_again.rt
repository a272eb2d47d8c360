//! Signs restored of the texts of states.

use super::bench::{config_of, sign_of};
use super::read_back::with_line;
use super::saved::{BUSY_STATE, STATES};
use dms_sign::{Config, ConfigFault, Sign};
use dms_sign_bench::{B, stock};
use dms_sign_restored::{SignRestoreFault, SignStateRefusal, put_state, restored};
use dms_sign_state::{StateError, saved};
use dms_table::{Order, Stock};
use std::alloc::Global;
use std::test::Fail;

/// The bench sign but for the order of the octets of its checksums, in this state.
fn again(alloc: Global, order: Order, text: &[u8]) -> Result<Sign, SignRestoreFault> {
    let stock = Stock {
        order,
        ..stock(&[B])
    };
    match config_of(alloc, stock) {
        Some(config) => restored(alloc, config, text),
        None => Err(SignRestoreFault::State(SignStateRefusal::Text(StateError::Memory))),
    }
}

#[test]
fn a_restored_sign_has_the_text_of_its_state(rt: HostRuntime) -> Result<(), Fail> {
    for state in &STATES {
        let text = state.text(rt.alloc())?;
        let sign = again(rt.alloc(), state.order, text.as_bytes()).or(Err("not restored"))?;
        assert!(rt; saved(rt.alloc(), &sign)?.as_slice() == text.as_bytes());
    }
    Ok(())
}

#[test]
fn a_new_sign_is_restored_of_its_own_text(rt: HostRuntime) -> Result<(), Fail> {
    let text = saved(rt.alloc(), &sign_of(rt.alloc(), stock(&[B]))?)?;
    let sign = again(rt.alloc(), Order::High, text.as_slice()).or(Err("not restored"))?;
    assert!(rt; saved(rt.alloc(), &sign)?.as_slice() == text.as_slice());
    Ok(())
}

/// The busy state with a line that no state of the bench sign has there, and what is told of it.
static LINES: [(usize, &str, &str); 19] = [
    (
        3,
        "changeable 3 5 5b6e6c - 0 0 1",
        "line 3: no such row can be changed",
    ),
    (
        4,
        "volatile 1 3 4142 6f70 1 0 7",
        "line 4: another row is being validated",
    ),
    (
        4,
        "volatile 1 4 4142 6f70 0 1 7",
        "line 4: no such pixel service",
    ),
    (
        5,
        "defaults 0 9 5 5 9 3 2 30 0",
        "line 5: the defaults do not fit the face",
    ),
    (
        13,
        "silent 3932101",
        "line 13: too many seconds were silent",
    ),
    (
        14,
        "shown 4142 6f70 2 0 7",
        "line 14: what is shown: no such beacon",
    ),
    (
        14,
        "shown 4141 6f70 1 0 7",
        "line 15: what is shown: another checksum than the message's",
    ),
    (
        15,
        "shown-source 0400025cc4",
        "line 15: what is shown: the sign has no row of its source",
    ),
    (16, "shown-mode 9", "line 16: what is shown: no such mode"),
    (
        16,
        "shown-mode 13",
        "line 18: what is shown: too many seconds are left",
    ),
    (
        19,
        "shown-defaults 0 9 5 5 9 3 2 30 0",
        "line 19: what is shown: its defaults do not fit the face",
    ),
    (
        19,
        "shown-defaults 0 9 5 5 2 3 2 30 0",
        "line 14: what is shown: character not defined at octet 1",
    ),
    (
        20,
        "kept 41 - 0 0 1",
        "line 21: what was kept: not the blank message that its source names",
    ),
    (
        22,
        "kept-mode 13",
        "line 31: another power than that of its messages",
    ),
    (
        24,
        "kept-defaults 0 9 5 5 9 3 2 30 0",
        "line 24: what was kept: its defaults do not fit the face",
    ),
    (
        25,
        "validate-error 6",
        "line 25: no such error of a validation",
    ),
    (
        28,
        "syntax-error-position 513",
        "line 28: no such place of this fault",
    ),
    (
        31,
        "powered 0",
        "line 31: another power than that of its messages",
    ),
    (32, "end\nend", "line 32: end and nothing after it wanted"),
];

#[test]
fn a_line_that_does_not_fit_the_sign_is_told(rt: HostRuntime) -> Result<(), Fail> {
    for (line, new, told) in &LINES {
        let text = with_line(rt.alloc(), *line, new)?;
        let fault = again(rt.alloc(), Order::High, text.as_slice())
            .err()
            .ok_or("restored")?;
        let words = format!(in rt.alloc(); "{fault}")?;
        assert!(rt; words.as_str() == *told, "of {new:?}");
    }
    Ok(())
}

#[test]
fn no_sign_is_restored_of_a_configuration_that_is_none(rt: HostRuntime) -> Result<(), Fail> {
    let config = config_of(rt.alloc(), stock(&[B])).ok_or("no configuration")?;
    let config = Config {
        reader: b"admin",
        ..config
    };
    let fault = restored(rt.alloc(), config, BUSY_STATE.as_bytes()).err();
    assert!(rt; fault == Some(SignRestoreFault::Config(ConfigFault::Community)));
    Ok(())
}

/// A sign that was made is put in the state of a text, and not in that of another sign's.
#[test]
fn a_made_sign_is_put_in_a_state(rt: HostRuntime) -> Result<(), Fail> {
    let text = BUSY_STATE.as_bytes();
    let made = sign_of(rt.alloc(), stock(&[B]))?;
    let sign = put_state(rt.alloc(), made, text).or(Err("not put in it"))?;
    assert!(rt; saved(rt.alloc(), &sign)?.as_slice() == text);
    let used = put_state(rt.alloc(), sign, text)
        .err()
        .ok_or("put in it twice")?;
    assert_eq!(rt; used.line(), Some(2));
    Ok(())
}

/// The line that is refused is told, but where memory ran out.
#[test]
fn a_refused_line_is_told(rt: HostRuntime) -> Result<(), Fail> {
    for (text, line) in [("", 1), ("state 1 centre\n", 1), ("state 1 sign\nend\n", 2)] {
        let made = sign_of(rt.alloc(), stock(&[B]))?;
        let refusal = put_state(rt.alloc(), made, text.as_bytes()).err();
        assert_eq!(rt; refusal.and_then(|refusal| refusal.line()), Some(line));
    }
    assert_eq!(rt; SignStateRefusal::Text(StateError::Memory).line(), None);
    Ok(())
}

/// Each allocation may be refused: then it is out of memory, and with memory the sign is put in the state.
#[test]
fn put_in_a_state_or_out_of_memory(rt: HostRuntime) -> Result<(), Fail> {
    let text = BUSY_STATE.as_bytes();
    for _ in 0..2 {
        let Ok(made) = sign_of(rt.alloc(), stock(&[B])) else {
            continue;
        };
        match put_state(rt.alloc(), made, text) {
            Ok(sign) => assert!(rt; sign.is_powered()),
            Err(refusal) => {
                assert!(rt; refusal == SignStateRefusal::Text(StateError::Memory));
            }
        }
    }
    Ok(())
}

/// Each allocation may be refused: then it is out of memory, and with memory the sign is restored.
#[test]
fn restored_or_out_of_memory(rt: HostRuntime) -> Result<(), Fail> {
    let text = BUSY_STATE.as_bytes();
    let sign = match again(rt.alloc(), Order::High, text) {
        Ok(sign) => sign,
        Err(_) => again(rt.alloc(), Order::High, text).or(Err("not restored"))?,
    };
    assert!(rt; sign.is_powered());
    Ok(())
}
