//! The text of a sign's state, against texts that the model wrote (model/tests/test_saved.py).

use super::bench::{play, sign_of};
use super::cases;
use dms_sign_bench::states::{NEW, with_lines};
use dms_sign_bench::{B, scripts, stock};
use dms_sign_state::{put_saved, saved};
use dms_table::{Order, Stock};
use std::alloc::{AllocError, Global};
use std::test::Fail;

/// Rows of each status, a message with an end, other defaults than its own.
pub(super) const BUSY_STATE: &str = "\
state 1 sign
changeable 1 3 - - 0 0 250
changeable 2 5 5b6e6c - 0 0 1
volatile 1 4 4142 6f70 1 0 7
defaults 0 9 5 5 2 3 2 30 0
short-power-recovery 0700010000
long-power-recovery 0700010000
power-loss 0400021234
end-duration 0700010000
communications-loss 0700010000
short-power-loss-time 90
time-comm-loss 2
silent 0
shown 4142 6f70 1 0 7
shown-source 0400015cc4
shown-mode 8
shown-address 192.0.2.7
shown-remaining 179
shown-defaults 0 9 5 5 1 3 2 30 0
kept - - 0 0 1
kept-source 0700010000
kept-mode 10
kept-address 0.0.0.0
kept-defaults 0 9 5 5 1 3 2 30 0
validate-error 5
activate-error 2
syntax-error 3
syntax-error-position 0
accepted-code 0003ff0400015cc4c0000207
failed-code 000000000000000000000000
powered 1
end
";

/// A state in which scripts leave a new sign.
pub(super) struct StateLeft {
    /// The order of the octets of its checksums.
    pub(super) order: Order,
    /// The scripts, one after the other.
    scripts: [&'static str; 2],
    /// A text with other lines than that of the state.
    like: &'static str,
    /// The lines of the state, each in place of the one that begins with its word.
    lines: &'static [&'static str],
}

impl StateLeft {
    /// The text that the model wrote of it.
    pub(super) fn text(&self, alloc: Global) -> Result<String, AllocError> {
        with_lines(alloc, self.like, self.lines)
    }

    /// The text of the sign that the scripts leave.
    fn saved(&self, alloc: Global) -> Result<Vec<u8>, &'static str> {
        let stock = Stock {
            order: self.order,
            ..stock(&[B])
        };
        let mut sign = sign_of(alloc, stock)?;
        for script in &self.scripts {
            play(&mut sign, script)?;
        }
        saved(alloc, &sign).or(Err("no memory"))
    }
}

const BUSY: StateLeft = StateLeft {
    order: Order::High,
    scripts: [cases::BUSY, ""],
    like: BUSY_STATE,
    lines: &[],
};

/// The same forty seconds later, without power.
const WITHOUT_POWER: StateLeft = StateLeft {
    order: Order::High,
    scripts: [cases::BUSY, cases::QUIET],
    like: NEW,
    lines: &[
        "state 1 sign
changeable 1 4 - - 0 0 250
changeable 2 5 5b6e6c - 0 0 1
volatile 1 4 4142 6f70 1 0 7",
        "defaults 0 9 5 5 2 3 2 30 0",
        "power-loss 0400021234",
        "short-power-loss-time 90",
        "time-comm-loss 2",
        "silent 40",
        "shown-mode 13",
        "shown-defaults 0 9 5 5 2 3 2 30 0",
        "kept 4142 6f70 1 0 7",
        "kept-source 0400015cc4",
        "kept-mode 8",
        "kept-address 192.0.2.7\nkept-remaining 139",
        "activate-error 6",
        "accepted-code 0003ff0400015cc4c0000207",
        "failed-code ffffff040002123400000000",
        "powered 0",
    ],
};

const AFTER_COMMANDS: StateLeft = StateLeft {
    order: Order::High,
    scripts: [scripts::A_IN_ROW_ONE, scripts::COMMANDS],
    like: NEW,
    lines: &[
        "state 1 sign
changeable 1 4 42 - 0 0 200
changeable 2 2 - - 0 0 1",
        "shown-mode 14",
        "kept 41 - 0 0 200",
        "kept-source 0300019a66",
        "kept-mode 8",
        "accepted-code 0000ff030001750200000000",
    ],
};

const AFTER_RETURNS: StateLeft = StateLeft {
    order: Order::High,
    scripts: [scripts::A_IN_ROW_ONE, scripts::RETURNS],
    like: NEW,
    lines: &[
        "state 1 sign\nchangeable 1 4 41 - 0 0 200",
        "long-power-recovery 0500010000",
        "power-loss 0300029a66",
        "shown 41 - 0 0 200",
        "shown-source 0300019a66",
        "kept 41 - 0 0 200",
        "kept-source 0300019a66",
        "activate-error 4",
        "accepted-code 0005ff0300019a6600000000",
        "failed-code ffffff0300029a6600000000",
    ],
};

const AFTER_WRITTEN_DEFAULTS: StateLeft = StateLeft {
    order: Order::High,
    scripts: [scripts::WRITTEN_DEFAULTS, ""],
    like: NEW,
    lines: &[
        "state 1 sign\nchangeable 1 4 5b6e6c5d41 - 0 0 200",
        "defaults 9 0 255 0 2 4 2 255 0",
        "shown-defaults 9 0 255 0 2 4 2 255 0",
        "kept 42 - 0 0 100",
        "kept-source 0200017502",
        "kept-mode 8",
        "activate-error 8",
        "accepted-code ffffff020001750200000000",
        "failed-code ffffff020001750200000000",
    ],
};

const OF_THE_OTHER_ORDER: StateLeft = StateLeft {
    order: Order::Swapped,
    scripts: [scripts::SWAPPED, ""],
    like: NEW,
    lines: &[],
};

pub(super) const STATES: [StateLeft; 6] = [
    BUSY,
    WITHOUT_POWER,
    AFTER_COMMANDS,
    AFTER_RETURNS,
    AFTER_WRITTEN_DEFAULTS,
    OF_THE_OTHER_ORDER,
];

#[test]
fn a_saved_state_is_the_text_of_the_model(rt: HostRuntime) -> Result<(), Fail> {
    for state in &STATES {
        let wanted = state.text(rt.alloc())?;
        let text = state.saved(rt.alloc())?;
        assert!(rt; text.as_slice() == wanted.as_bytes());
    }
    Ok(())
}

/// Each allocation of a state's text may be refused: then it is out of memory, and with memory the text is the same.
#[test]
fn saved_or_out_of_memory(rt: HostRuntime) -> Result<(), Fail> {
    let mut sign = match sign_of(rt.alloc(), stock(&[B])) {
        Ok(sign) => sign,
        Err(_) => sign_of(rt.alloc(), stock(&[B]))?,
    };
    play(&mut sign, cases::BUSY)?;
    let text = match saved(rt.alloc(), &sign) {
        Ok(text) => text,
        Err(_) => saved(rt.alloc(), &sign)?,
    };
    assert!(rt; text.as_slice() == BUSY_STATE.as_bytes());
    Ok(())
}

/// A buffer takes as much of a state's text as it has room for, and what stands behind the text stays.
#[test]
fn states_are_put_into_buffers(rt: HostRuntime) -> Result<(), Fail> {
    let mut sign = sign_of(rt.alloc(), stock(&[B]))?;
    play(&mut sign, cases::BUSY)?;
    let size = BUSY_STATE.len();
    let (mut short, mut long) = ([7; 9], [7; 2000]);
    assert!(rt; put_saved(&mut short, &sign) == size && &short == b"state 1 s");
    assert!(rt; put_saved(&mut long, &sign) == size && long.starts_with(BUSY_STATE.as_bytes()));
    assert!(rt; long.ends_with(&[7; 1000]));
    Ok(())
}
