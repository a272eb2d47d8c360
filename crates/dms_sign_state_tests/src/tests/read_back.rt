//! States read back from their texts.

use super::saved::{BUSY_STATE, STATES};
use dms_sign_state::{
    NumberSetting, Put, SignStateFault, SignStateField, StateError, Stored, state_fields,
};
use dms_table::Status;
use std::alloc::{AllocError, Global};
use std::test::Fail;

#[test]
fn fields_are_read(rt: HostRuntime) -> Result<(), Fail> {
    let read = state_fields(rt.alloc(), BUSY_STATE.as_bytes()).or(Err("not read"))?;
    let state = &read;
    assert!(rt; state.changeable.len() == 2 && state.volatile.len() == 1);
    let row = state.changeable.get(1).ok_or("no row")?;
    assert!(rt; row.number == 2 && row.status == Status::Error);
    assert!(rt; row.message.text.as_slice() == b"[nl".as_slice() && row.message.owner.is_empty());
    let row = state.volatile.get(0).ok_or("no row")?;
    assert!(rt; row.number == 1 && row.status == Status::Valid && row.message.priority == 7);
    assert!(rt;
        row.message.text.as_slice() == b"AB".as_slice()
            && row.message.owner.as_slice() == b"op".as_slice()
    );
    assert!(rt; state.settings.fallbacks.power_loss == [4, 0, 2, 0x12, 0x34]);
    assert!(rt; state.settings.short_power_loss_time == 90 && state.settings.defaults.font == 2);
    assert!(rt; state.shown.source == [4, 0, 1, 0x5c, 0xc4] && state.shown.mode == 8);
    assert!(rt; state.shown.address == [192, 0, 2, 7] && state.shown.remaining == Some(179));
    assert!(rt; state.shown_at_power_loss.mode == 10);
    assert!(rt; state.shown_at_power_loss.remaining.is_none());
    assert!(rt; state.reports.validate_error == 5 && state.reports.syntax_error == 3);
    assert!(rt; state.silent_seconds == 0 && state.powered);
    Ok(())
}

#[test]
fn each_state_is_read_and_no_beginning_of_it(rt: HostRuntime) -> Result<(), Fail> {
    for state in &STATES {
        let text = state.text(rt.alloc())?;
        assert!(rt; state_fields(rt.alloc(), text.as_bytes()).is_ok());
    }
    let text = BUSY_STATE.as_bytes();
    for size in 0..text.len() {
        assert!(rt; state_fields(rt.alloc(), &text[..size]).is_err());
    }
    Ok(())
}

fn put_line(text: &mut Vec<u8>, line: &str) -> Result<(), AllocError> {
    text.extend_from_slice(line.as_bytes())?;
    text.extend_from_slice(b"\n")
}

/// The busy state's text with a line in place of the one of a number.
pub(super) fn with_line(alloc: Global, number: usize, line: &str) -> Result<Vec<u8>, AllocError> {
    let mut text = Vec::new(alloc);
    let mut left = number;
    for old in BUSY_STATE.lines() {
        if left == 1 {
            put_line(&mut text, line)?;
        } else {
            put_line(&mut text, old)?;
        }
        left = left.saturating_sub(1);
    }
    Ok(text)
}

fn fault_of(alloc: Global, text: &[u8]) -> Option<SignStateFault> {
    match state_fields(alloc, text) {
        Err(StateError::Fault(fault)) => Some(fault),
        _ => None,
    }
}

/// The line at fault is told, and the field that is wanted there.
#[test]
fn the_first_fault_is_told(rt: HostRuntime) -> Result<(), Fail> {
    let row = SignStateField::Row(Stored::Changeable, 2);
    for (line, new, wanted) in [
        (1, "state 2 sign", SignStateField::Form),
        (3, "changeable 1 5 5b6e6c - 0 0 1", row),
        (3, "changeable 02 5 5b6e6c - 0 0 1", row),
        (3, "changeable 65 5 5b6e6c - 0 0 1", row),
        (3, "changeable 2 1 5b6e6c - 0 0 1", row),
        (3, "changeable 2 5 5B6E6C - 0 0 1", row),
        (3, "changeable 2 5 5b6e6 - 0 0 1", row),
        (
            4,
            "volatile 17 4 4142 6f70 1 0 7",
            SignStateField::Row(Stored::Volatile, 1),
        ),
        (5, "defaults 0 9 5 5 256 3 2 30 0", SignStateField::Defaults),
        (8, "power-loss 00021234", SignStateField::PowerLoss),
        (
            12,
            "time-comm-loss +2",
            SignStateField::Number(NumberSetting::TimeCommLoss),
        ),
        (13, "silent 4294967296", SignStateField::Silent),
        (
            17,
            "shown-address 192.0.2.256",
            SignStateField::Address(Put::Shown),
        ),
        (
            18,
            "shown-remaining ",
            SignStateField::Remaining(Put::Shown),
        ),
        (20, "shown - - 0 0 1", SignStateField::Message(Put::Kept)),
        (31, "powered 2", SignStateField::Powered),
        (32, "end\nend", SignStateField::End),
    ] {
        let text = with_line(rt.alloc(), line, new)?;
        let found = fault_of(rt.alloc(), text.as_slice());
        assert!(rt;
            found == Some(SignStateFault { line, wanted }),
            "of {new:?}"
        );
    }
    Ok(())
}

#[test]
fn a_fault_is_told_in_words(rt: HostRuntime) -> Result<(), Fail> {
    for (line, new, words) in [
        (
            12,
            "time-comm-loss",
            "line 12: time-comm-loss and a number to 65535 wanted",
        ),
        (
            13,
            "silent",
            "line 13: silent and a number to 4294967295 wanted",
        ),
    ] {
        let text = with_line(rt.alloc(), line, new)?;
        let fault = fault_of(rt.alloc(), text.as_slice()).ok_or("no fault")?;
        let told = format!(in rt.alloc(); "{fault}")?;
        assert!(rt; told.as_str() == words);
    }
    Ok(())
}

/// Each allocation may be refused: then it is out of memory, and with memory the state is read.
#[test]
fn read_or_out_of_memory(rt: HostRuntime) -> Result<(), Fail> {
    let state = match state_fields(rt.alloc(), BUSY_STATE.as_bytes()) {
        Err(StateError::Memory) => state_fields(rt.alloc(), BUSY_STATE.as_bytes()),
        read => read,
    };
    assert!(rt; state.is_ok());
    Ok(())
}
