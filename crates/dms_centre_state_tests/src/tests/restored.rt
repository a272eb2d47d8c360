//! Central systems restored of the texts of states.

use super::scripts::centre_of;
use super::states::{
    BLANK_STATE, FILLING_STATE, LATE_STATE, REFUSED_STATE, USED_UP_STATE, VALIDATING_STATE,
    WRITTEN_STATE,
};
use dms_centre::{
    Centre, CentreFault, Command, EndFault, Ended, EntryFault, JobFault, Outcome, SavedJob,
    SavedStage, Settings, Step, Why,
};
use dms_centre_restored::{CentreRestoreFault, CentreStateRefusal, restored};
use dms_centre_state::saved;
use dms_codes::{Activation, MessageId, Order};
use std::alloc::Global;
use std::test::Fail;

fn again(alloc: Global, order: Order, text: &[u8]) -> Result<Centre, CentreRestoreFault> {
    let settings = Settings {
        community: b"admin",
        order,
    };
    restored(alloc, settings, text)
}

#[test]
fn a_restored_centre_has_the_text_of_its_state(rt: HostRuntime) -> Result<(), Fail> {
    for (order, text) in [
        (
            Order::High,
            "state 1 centre\nnext 4294967295\nlast none\nidle\nend\n",
        ),
        (Order::High, FILLING_STATE),
        (Order::High, VALIDATING_STATE),
        (Order::High, WRITTEN_STATE),
        (Order::High, REFUSED_STATE),
        (Order::High, BLANK_STATE),
        (Order::Swapped, LATE_STATE),
        (Order::Swapped, USED_UP_STATE),
    ] {
        let centre = again(rt.alloc(), order, text.as_bytes()).or(Err("not restored"))?;
        assert!(rt; saved(rt.alloc(), &centre)?.as_slice() == text.as_bytes());
    }
    Ok(())
}

/// A line that stands in place of another of a state, and what is told, as the model (model/restored_centre.py) has it.
static LINES: [(&str, usize, &str, &str); 20] = [
    (
        FILLING_STATE,
        1,
        "state 1 sign",
        "line 1: state 1 centre wanted",
    ),
    (
        FILLING_STATE,
        2,
        "next 4294967296",
        "line 2: next and a number to 4294967295 wanted",
    ),
    (
        FILLING_STATE,
        2,
        "next 010",
        "line 2: next and a number to 4294967295 wanted",
    ),
    (FILLING_STATE, 2, "next 0", "line 4: idle or due wanted"),
    (
        FILLING_STATE,
        2,
        "next 2147483649",
        "line 4: idle or due wanted",
    ),
    (
        FILLING_STATE,
        3,
        "last failed at step 9: no reply",
        "line 3: last and how a job ended wanted",
    ),
    (
        FILLING_STATE,
        3,
        "last failed at step 1: error-status -0",
        "line 3: last and how a job ended wanted",
    ),
    (
        FILLING_STATE,
        4,
        "waits",
        "line 4: idle, awaits or due wanted",
    ),
    (
        FILLING_STATE,
        5,
        "sends 4",
        "line 5: sends and a number from 1 to 3 wanted",
    ),
    (
        FILLING_STATE,
        6,
        "ticks 3",
        "line 6: ticks and a number to 2 wanted",
    ),
    (
        FILLING_STATE,
        7,
        "step 9",
        "line 7: step and a number from 1 to 8 wanted",
    ),
    (
        FILLING_STATE,
        7,
        "step 7",
        "line 10: ledger and an entry of a number from 0 to 9 wanted",
    ),
    (
        FILLING_STATE,
        8,
        "polls 10",
        "line 8: polls and a number to 9 wanted",
    ),
    (
        FILLING_STATE,
        9,
        "publish 3 0 41 - 0 0 200 3 255 192.0.2.7",
        "line 9: publish and a command wanted",
    ),
    (
        FILLING_STATE,
        9,
        "publish 3 1 4A - 0 0 200 3 255 192.0.2.7",
        "line 9: publish and a command wanted",
    ),
    (
        FILLING_STATE,
        9,
        "activate 0001020700ff000000000000",
        "line 9: publish and a command wanted",
    ),
    (
        FILLING_STATE,
        10,
        "end\nend",
        "line 10: end and nothing after it wanted",
    ),
    (
        VALIDATING_STATE,
        5,
        "step 4",
        "line 5: step and 5 or 7 wanted",
    ),
    (
        REFUSED_STATE,
        9,
        "activate FFFF0503000121214000020A",
        "line 9: activate and a code wanted",
    ),
    (
        BLANK_STATE,
        2,
        "next 18",
        "line 12: ledger and an entry of a number from 15 to 17 wanted",
    ),
];

/// The same, of the lines of a ledger.
static LEDGERS: [(&str, usize, &str, &str); 6] = [
    (
        BLANK_STATE,
        9,
        "activate 0001020700fe000000000000",
        "line 12: ledger and an entry of a number from 15 to 16 wanted",
    ),
    (
        BLANK_STATE,
        11,
        "ledger 13 ffff0503000121214000020a refused 5",
        "line 11: ledger and an entry of a number from 14 to 16 wanted",
    ),
    (
        BLANK_STATE,
        11,
        "ledger 14 ffff0503000121214000020a waiting",
        "line 11: ledger and an entry of a number from 14 to 16 wanted",
    ),
    (
        BLANK_STATE,
        11,
        "ledger 14 ffff0503000121214000020a refused 4294967296",
        "line 11: ledger and an entry of a number from 14 to 16 wanted",
    ),
    (
        BLANK_STATE,
        12,
        "ledger 16 0001020700ff000000000000 accepted",
        "line 12: ledger and an entry of a number from 15 to 16 wanted",
    ),
    (
        BLANK_STATE,
        12,
        "ledger 17 0001020700ff000000000000 waiting",
        "line 12: ledger and an entry of a number from 15 to 16 wanted",
    ),
];

/// A text with another line in place of the one of a number.
fn with_line(alloc: Global, text: &str, number: usize, new: &str) -> Result<Vec<u8>, Fail> {
    let mut changed = Vec::new(alloc);
    for (index, line) in text.lines().enumerate() {
        let line = if index + 1 == number { new } else { line };
        changed.extend_from_slice(line.as_bytes())?;
        changed.push(b'\n')?;
    }
    Ok(changed)
}

#[test]
fn the_first_line_at_fault_is_told(rt: HostRuntime) -> Result<(), Fail> {
    for (state, line, new, told) in LINES.iter().chain(LEDGERS.iter()) {
        let text = with_line(rt.alloc(), state, *line, new)?;
        let fault = again(rt.alloc(), Order::High, text.as_slice())
            .err()
            .ok_or("restored")?;
        let words = format!(in rt.alloc(); "{fault}")?;
        assert!(rt; words.as_str() == *told, "of {new:?}");
    }
    Ok(())
}

#[test]
fn no_centre_is_restored_of_a_community_of_none(rt: HostRuntime) -> Result<(), Fail> {
    let settings = Settings {
        community: b"",
        order: Order::High,
    };
    let fault = restored(rt.alloc(), settings, b"").err();
    assert!(rt; fault == Some(CentreRestoreFault::Settings(CentreFault::Community)));
    Ok(())
}

#[test]
fn parts_that_no_centre_comes_to_are_not_put(rt: HostRuntime) -> Result<(), Fail> {
    let mut centre = centre_of(rt.alloc(), Order::High, 7)?;
    let code = Activation::of_octets(Order::High, &[0; 12]);
    assert!(rt; centre.put_entry(7, code, Outcome::Accepted) == Err(EntryFault::Number));
    assert!(rt; centre.put_entry(6, code, Outcome::Waiting) == Err(EntryFault::Waiting));
    let fault = centre.put_entry(6, code, Outcome::Refused(4294967296));
    assert!(rt; fault == Err(EntryFault::Status));
    assert!(rt; centre.put_last(Ended::Failed(9, Why::NoReply)) == Err(EndFault::Step));
    assert!(rt;
        centre.put_last(Ended::Failed(8, Why::Cause(-2147483649))) == Err(EndFault::Number)
    );
    Ok(())
}

const SHOWING: Command<'static> = Command::Activate(Activation {
    minutes: 1,
    priority: 2,
    id: MessageId {
        memory: 3,
        number: 1,
        crc: 0x2121,
    },
    address: [0; 4],
});

const BLANK_OF_NO_NUMBER: Command<'static> = Command::Blank {
    number: 0,
    minutes: 1,
    priority: 2,
    address: [0; 4],
};

fn waits(sends: u8, ticks: u8) -> SavedStage {
    SavedStage::Waits { sends, ticks }
}

/// Puts a job into a central system whose next request has this number.
fn put(
    alloc: Global,
    next: u32,
    command: Command<'_>,
    step: Step,
    polls: u8,
    stage: SavedStage,
) -> Result<Option<JobFault>, &'static str> {
    let mut centre = centre_of(alloc, Order::High, next)?;
    let job = SavedJob {
        command,
        step,
        polls,
        stage,
    };
    Ok(centre.put_job(&job).err())
}

#[test]
fn jobs_that_no_centre_comes_to_are_not_put(rt: HostRuntime) -> Result<(), Fail> {
    let alloc = rt.alloc();
    let activating = Step::Activating;
    assert!(rt; put(alloc, 7, SHOWING, activating, 9, waits(3, 2))? == None);
    for (next, stage, fault) in [
        (0, waits(1, 0), JobFault::Number),
        (2_147_483_649, waits(1, 0), JobFault::Number),
        (7, waits(0, 0), JobFault::Sends),
        (7, waits(4, 0), JobFault::Sends),
        (7, waits(1, 3), JobFault::Ticks),
    ] {
        assert!(rt; put(alloc, next, SHOWING, activating, 0, stage)? == Some(fault));
    }
    for (step, stage) in [
        (Step::Explaining, SavedStage::Due),
        (Step::Polling, waits(1, 0)),
    ] {
        assert!(rt; put(alloc, 7, SHOWING, step, 0, stage)? == Some(JobFault::Step));
    }
    let fault = put(alloc, 7, BLANK_OF_NO_NUMBER, activating, 0, SavedStage::Due)?;
    assert!(rt; fault == Some(JobFault::Command));
    let fault = put(alloc, 7, SHOWING, activating, 10, SavedStage::Due)?;
    assert!(rt; fault == Some(JobFault::Polls));
    Ok(())
}

#[test]
fn one_job_is_put_behind_the_ledger(rt: HostRuntime) -> Result<(), Fail> {
    let mut centre = centre_of(rt.alloc(), Order::High, 7)?;
    let code = Activation::of_octets(Order::High, &[0; 12]);
    let mut job = SavedJob {
        command: SHOWING,
        step: Step::Activating,
        polls: 0,
        stage: waits(1, 0),
    };
    assert!(rt; centre.put_entry(6, code, Outcome::Accepted) == Ok(()));
    assert!(rt; centre.put_job(&job) == Err(JobFault::Entry));
    job.stage = SavedStage::Due;
    assert!(rt; centre.put_job(&job) == Ok(()));
    assert!(rt; centre.put_job(&job) == Err(JobFault::Busy));
    assert!(rt; centre.put_entry(6, code, Outcome::Accepted) == Err(EntryFault::Busy));
    Ok(())
}

/// Each allocation may be refused: then it is out of memory, and with memory the centre is restored.
#[test]
fn restored_or_out_of_memory(rt: HostRuntime) -> Result<(), Fail> {
    let text = BLANK_STATE.as_bytes();
    let centre = match again(rt.alloc(), Order::High, text) {
        Ok(centre) => centre,
        Err(fault) => {
            assert!(rt; fault == CentreRestoreFault::State(CentreStateRefusal::Memory));
            again(rt.alloc(), Order::High, text).or(Err("not restored"))?
        }
    };
    assert!(rt; centre.ledger().len() == 3);
    Ok(())
}
