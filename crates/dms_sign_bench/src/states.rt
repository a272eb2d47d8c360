//! The state of the bench sign: its text, and a row and a message of a saved state.

use crate::DEFAULTS;
use dms_table::{MessageId, SavedRow, SavedShown, Status, memory};
use std::alloc::{AllocError, Global};

/// The text of the state as the sign is made.
pub const NEW: &str = "\
state 1 sign
defaults 0 9 5 5 1 3 2 30 0
short-power-recovery 0700010000
long-power-recovery 0700010000
power-loss 0700010000
end-duration 0700010000
communications-loss 0700010000
short-power-loss-time 0
time-comm-loss 0
silent 0
shown - - 0 0 1
shown-source 0700010000
shown-mode 10
shown-address 0.0.0.0
shown-defaults 0 9 5 5 1 3 2 30 0
kept - - 0 0 1
kept-source 0700010000
kept-mode 10
kept-address 0.0.0.0
kept-defaults 0 9 5 5 1 3 2 30 0
validate-error 2
activate-error 2
syntax-error 2
syntax-error-position 0
accepted-code 000000000000000000000000
failed-code 000000000000000000000000
powered 1
end
";

/// A valid row that holds `A`.
pub const ROW: SavedRow<'static> = SavedRow {
    text: b"A",
    owner: b"O",
    beacon: 0,
    pixel: 0,
    priority: 7,
    status: Status::Valid,
};

/// Its message in changeable row 1, as a SET brought it up, with 90 seconds left.
pub const SHOWN: SavedShown<'static> = SavedShown {
    text: b"A",
    owner: b"O",
    beacon: 0,
    pixel: 0,
    priority: 7,
    source: MessageId {
        memory: memory::CHANGEABLE,
        number: 1,
        crc: 0x9a66,
    },
    mode: 8,
    address: [10, 0, 0, 1],
    remaining: Some(90),
    defaults: DEFAULTS,
};

/// The word with which a line begins.
fn word_of(line: &str) -> &str {
    match line.split_once(' ') {
        Some((word, _)) => word,
        None => line,
    }
}

/// The first of these lines that begins with the word of a line.
fn in_place_of<'a>(line: &str, others: &[&'a str]) -> Option<&'a str> {
    for other in others {
        if word_of(other) == word_of(line) {
            return Some(*other);
        }
    }
    None
}

/// The text of a state in which each of these lines stands in place of the one that begins with its word. Other lines
/// may follow behind it.
pub fn with_lines(alloc: Global, state: &str, others: &[&str]) -> Result<String, AllocError> {
    let mut text = String::new(alloc);
    for line in state.lines() {
        match in_place_of(line, others) {
            Some(other) => text.push_str(other)?,
            None => text.push_str(line)?,
        }
        text.push('\n')?;
    }
    Ok(text)
}
