//! The central system against requests and replies in octets.

pub(crate) mod cases;
mod pairs;

use dms_centre::{
    Centre, CentreFault, Command, CommandFault, Ended, Entry, NoMemory, Outcome, Settings, Why,
};
use dms_codes::{Activation, MessageId, Order};
use dms_wire::Out;
use std::alloc::Global;
use std::fmt::Display;
use std::process::Abort;
use std::test::Fail;

const ADDRESS: [u8; 4] = [192, 0, 2, 1];

/// The code of `A` in changeable row 1.
pub(crate) const CODE: Activation = Activation {
    minutes: 65535,
    priority: 255,
    id: MessageId {
        memory: 3,
        number: 1,
        crc: 0x9a66,
    },
    address: ADDRESS,
};

const BLANK: Command<'static> = Command::Blank {
    number: 255,
    minutes: 65535,
    priority: 255,
    address: [0; 4],
};

pub(crate) fn publish(memory: u8, number: u16, text: &[u8]) -> Command<'_> {
    Command::Publish {
        memory,
        number,
        text,
        owner: b"",
        beacon: 0,
        pixel: 0,
        run_priority: 200,
        minutes: 65535,
        priority: 255,
        address: ADDRESS,
    }
}

fn centre(rt: &impl Abort, alloc: Global, order: Order, first: u32) -> Centre {
    let settings = Settings {
        community: b"admin",
        order,
    };
    Centre::new(alloc, settings, first).expect(rt, "a central system")
}

/// A central system that has sent the first request of publishing `A` in row 1.
fn publishing(rt: &impl Abort, alloc: Global) -> Centre {
    let mut centre = centre(rt, alloc, Order::High, 1);
    let (first, _) = cases::PUBLISHED[0];
    check_sent(rt, &mut centre, publish(3, 1, b"A"), first);
    centre
}

/// Whether a job is on, how the last one ended, and how many codes were sent.
fn reported(centre: &Centre) -> (bool, Ended, usize) {
    (centre.busy(), centre.last(), centre.ledger().len())
}

fn check_octets(rt: &impl Abort, found: &[u8], wanted: &[u8]) {
    assert_eq!(rt; found, wanted);
}

fn check_command(rt: &impl Abort, centre: &mut Centre, command: Command<'_>, out: &mut Out) {
    assert_eq!(rt; centre.command(command, out), Ok(()));
}

fn check_sent(rt: &impl Abort, centre: &mut Centre, command: Command<'_>, octets: &[u8]) {
    let mut out = Out::new();
    check_command(rt, centre, command, &mut out);
    check_octets(rt, &out, octets);
}

/// The command is taken, whatever is sent for it.
fn check_taken(rt: &impl Abort, centre: &mut Centre, command: Command<'_>) {
    check_command(rt, centre, command, &mut Out::new());
}

fn check_second(rt: &impl Abort, centre: &mut Centre, out: &mut Out) {
    assert_eq!(rt; centre.tick(out), Ok(()));
}

fn check_tick(rt: &impl Abort, centre: &mut Centre, octets: &[u8]) {
    let mut out = Out::new();
    check_second(rt, centre, &mut out);
    check_octets(rt, &out, octets);
}

/// So many seconds pass, whatever is sent in them.
fn check_seconds(rt: &impl Abort, centre: &mut Centre, count: usize) {
    for _ in 0..count {
        check_second(rt, centre, &mut Out::new());
    }
}

fn check_answer(rt: &impl Abort, centre: &mut Centre, datagram: &[u8], octets: &[u8]) {
    let mut out = Out::new();
    centre.receive(datagram, &mut out);
    check_octets(rt, &out, octets);
}

fn check_reported(rt: &impl Abort, centre: &Centre, wanted: (bool, Ended, usize)) {
    assert_eq!(rt; reported(centre), wanted);
}

fn check_last(rt: &impl Abort, centre: &Centre, ended: Ended) {
    assert_eq!(rt; centre.last(), ended);
}

fn check_entry(rt: &impl Abort, centre: &Centre, number: u32, code: Activation, outcome: Outcome) {
    let entry = centre.ledger().get(&number).copied();
    assert_eq!(rt; entry, Some(Entry { code, outcome }));
}

/// Answers the waiting request, which the next one follows: the activation after a tick.
fn check_step(rt: &impl Abort, centre: &mut Centre, place: usize, reply: &[u8], next: &[u8]) {
    if place == 5 {
        check_answer(rt, centre, reply, &[]);
        check_tick(rt, centre, next);
    } else {
        check_answer(rt, centre, reply, next);
    }
}

/// Answers the waiting request by each of these replies in turn, so many of them.
fn check_steps(rt: &impl Abort, centre: &mut Centre, steps: &[(&[u8], &[u8])], count: usize) {
    for place in 0..count.min(steps.len()) {
        let (_, reply) = steps[place];
        let next = match steps.get(place + 1) {
            Some((request, _)) => *request,
            None => &[],
        };
        check_step(rt, centre, place, reply, next);
    }
}

/// A datagram that does not answer the first request of a job: nothing is sent, and the job goes on.
fn check_unheard(rt: &impl Abort, centre: &mut Centre, datagram: &[u8]) {
    let mut out = Out::new();
    centre.receive(datagram, &mut out);
    assert_eq!(rt;
        (out.is_empty(), reported(centre)),
        (true, (true, Ended::Never, 0))
    );
}

/// The first request is answered, and the second one sent.
fn check_goes_on(rt: &impl Abort, centre: &mut Centre) {
    let (_, reply) = cases::PUBLISHED[0];
    let (second, _) = cases::PUBLISHED[1];
    check_answer(rt, centre, reply, second);
}

/// Each change of one octet of a Get is not heard: the request that waits is as old as before, and its reply is taken.
#[test]
fn a_get_with_a_changed_octet_is_not_heard(rt: HostRuntime) {
    let mut centre = publishing(&rt, rt.alloc());
    for place in 0..cases::GET.len() {
        let mut datagram = cases::GET;
        for octet in 0..=255 {
            datagram[place] = octet;
            check_unheard(&rt, &mut centre, &datagram);
        }
    }
    let (first, _) = cases::PUBLISHED[0];
    for sent in [&[], &[], first] {
        check_tick(&rt, &mut centre, sent);
    }
    check_goes_on(&rt, &mut centre);
}

/// The reply with one to four octets more is not heard.
fn check_longer(rt: &impl Abort, centre: &mut Centre, reply: &[u8]) {
    let mut longer = Out::new();
    let mut has_room = longer.try_extend_from_slice(reply).is_ok();
    for octet in [0, 5, 48, 255] {
        has_room = has_room && longer.try_push(octet).is_ok();
        check_unheard(rt, centre, &longer);
    }
    assert!(rt; has_room);
}

/// Each proper prefix of the reply that is waited for, and the reply with one to four octets more, are not heard.
#[test]
fn cut_and_longer_replies(rt: HostRuntime) {
    let mut centre = publishing(&rt, rt.alloc());
    let (_, reply) = cases::PUBLISHED[0];
    for (place, _) in reply.iter().enumerate() {
        check_unheard(&rt, &mut centre, &reply[..place]);
    }
    check_longer(&rt, &mut centre, reply);
    check_goes_on(&rt, &mut centre);
}

#[test]
fn a_publication_goes_through_eight_steps(rt: HostRuntime) {
    let mut centre = centre(&rt, rt.alloc(), Order::High, 1);
    check_reported(&rt, &centre, (false, Ended::Never, 0));
    let (first, _) = cases::PUBLISHED[0];
    check_sent(&rt, &mut centre, publish(3, 1, b"A"), first);
    check_reported(&rt, &centre, (true, Ended::Never, 0));
    check_steps(&rt, &mut centre, &cases::PUBLISHED, 6);
    check_entry(&rt, &centre, 7, CODE, Outcome::Waiting);
    let (_, accepted) = cases::PUBLISHED[6];
    check_answer(&rt, &mut centre, accepted, &[]);
    check_entry(&rt, &centre, 7, CODE, Outcome::Accepted);
    check_reported(&rt, &centre, (false, Ended::Accepted, 1));
}

#[test]
fn published_in_the_other_order(rt: HostRuntime) {
    let mut centre = centre(&rt, rt.alloc(), Order::Swapped, 1);
    let mut text = [b'A'; 155];
    text[..5].copy_from_slice(b"[jl2]");
    let command = Command::Publish {
        memory: 4,
        number: 300,
        text: &text,
        owner: b"operator",
        beacon: 1,
        pixel: 1,
        run_priority: 1,
        minutes: 65535,
        priority: 255,
        address: ADDRESS,
    };
    let (first, _) = cases::PUBLISHED_SWAPPED[0];
    check_sent(&rt, &mut centre, command, first);
    check_steps(&rt, &mut centre, &cases::PUBLISHED_SWAPPED, 7);
    check_reported(&rt, &centre, (false, Ended::Accepted, 1));
}

#[test]
fn sent_three_times(rt: HostRuntime) {
    let mut centre = publishing(&rt, rt.alloc());
    let (first, _) = cases::PUBLISHED[0];
    for tick in 1..10 {
        let again: &[u8] = if tick == 3 || tick == 6 { first } else { &[] };
        check_tick(&rt, &mut centre, again);
    }
    check_last(&rt, &centre, Ended::Failed(1, Why::NoReply));
    check_tick(&rt, &mut centre, &[]);
    let mut out = Out::new();
    let taken = centre.command(publish(3, 1, b"A"), &mut out);
    // the octet of the request-id
    assert_eq!(rt; (taken, out.as_slice().get(16).copied()), (Ok(()), Some(2)));
}

/// A job that gets this reply after so many of those of `PUBLISHED` ends so, and no code was sent.
fn check_ending(rt: &impl Abort, alloc: Global, count: usize, reply: &[u8], ended: Ended) {
    let mut centre = publishing(rt, alloc);
    check_steps(rt, &mut centre, &cases::PUBLISHED, count);
    check_answer(rt, &mut centre, reply, &[]);
    assert_eq!(rt; reported(&centre), (false, ended, 0), "at {reply:?}");
}

#[test]
fn each_way_to_fail_ends_the_job_as_it_says(rt: HostRuntime) {
    for (count, reply, ended) in &cases::ENDINGS {
        check_ending(&rt, rt.alloc(), *count, reply, *ended);
    }
}

#[test]
fn polled_ten_times(rt: HostRuntime) {
    let mut centre = publishing(&rt, rt.alloc());
    check_steps(&rt, &mut centre, &cases::PUBLISHED, 4);
    for place in 0..10 {
        let (request, reply) = cases::POLLS[place];
        if place > 0 {
            check_tick(&rt, &mut centre, request);
        }
        check_answer(&rt, &mut centre, reply, &[]);
    }
    check_last(&rt, &centre, Ended::Failed(5, Why::StillValidating));
}

/// The numbers of the first three entries of the ledger.
fn numbers(centre: &Centre) -> [Option<u32>; 3] {
    let mut numbers = centre.ledger().keys();
    [
        numbers.next().copied(),
        numbers.next().copied(),
        numbers.next().copied(),
    ]
}

fn check_numbers(rt: &impl Abort, centre: &Centre, wanted: [Option<u32>; 3]) {
    assert_eq!(rt; numbers(centre), wanted);
}

#[test]
fn refused_for_a_cause(rt: HostRuntime) {
    let mut centre = centre(&rt, rt.alloc(), Order::High, 1);
    check_sent(&rt, &mut centre, BLANK, &cases::BLANK);
    check_answer(&rt, &mut centre, &cases::BLANK_ACCEPTED, &[]);
    for number in 2..7 {
        check_taken(&rt, &mut centre, publish(3, number, b""));
        centre.restart();
    }
    check_taken(&rt, &mut centre, Command::Activate(CODE));
    check_answer(&rt, &mut centre, &cases::REFUSED, &cases::WHY);
    check_answer(&rt, &mut centre, &cases::PRIORITY, &[]);
    check_last(&rt, &centre, Ended::Failed(7, Why::Cause(3)));
    check_entry(&rt, &centre, 7, CODE, Outcome::Refused(5));
    check_numbers(&rt, &centre, [Some(1), Some(7), None]);
}

/// The code of `BLANK`.
const BLANK_CODE: Activation = Activation {
    minutes: 65535,
    priority: 255,
    id: MessageId {
        memory: 7,
        number: 255,
        crc: 0,
    },
    address: [0; 4],
};

#[test]
fn what_waited_at_a_restart_is_unknown(rt: HostRuntime) {
    let mut centre = centre(&rt, rt.alloc(), Order::High, 1);
    check_sent(&rt, &mut centre, BLANK, &cases::BLANK);
    centre.restart();
    check_last(&rt, &centre, Ended::Failed(7, Why::Restarted));
    check_answer(&rt, &mut centre, &cases::BLANK_ACCEPTED, &[]);
    check_entry(&rt, &centre, 1, BLANK_CODE, Outcome::Unknown);
    check_taken(&rt, &mut centre, BLANK);
    check_entry(&rt, &centre, 2, BLANK_CODE, Outcome::Waiting);
    check_seconds(&rt, &mut centre, 9);
    check_entry(&rt, &centre, 2, BLANK_CODE, Outcome::NoReply);
}

#[test]
fn after_the_last_number_nothing_is_sent(rt: HostRuntime) {
    let mut centre = centre(&rt, rt.alloc(), Order::High, 2_147_483_647);
    check_sent(
        &rt,
        &mut centre,
        Command::Activate(CODE),
        &cases::LAST_ACTIVATION,
    );
    check_answer(&rt, &mut centre, &cases::LAST_REFUSED, &[]);
    check_entry(&rt, &centre, 2_147_483_647, CODE, Outcome::Refused(5));
    check_last(&rt, &centre, Ended::Failed(8, Why::NumbersUsedUp));
    check_refused(
        &rt,
        &mut centre,
        &mut Out::new(),
        publish(2, 0, b""),
        CommandFault::NumbersUsedUp,
    );
}

#[test]
fn not_answered_by(rt: HostRuntime) {
    let mut centre = publishing(&rt, rt.alloc());
    for datagram in &cases::FOREIGN {
        check_unheard(&rt, &mut centre, datagram);
    }
    check_goes_on(&rt, &mut centre);
}

fn owned<'a>(owner: &'a [u8], beacon: u8, pixel: u8, run_priority: u8) -> Command<'a> {
    Command::Publish {
        memory: 3,
        number: 1,
        text: b"A",
        owner,
        beacon,
        pixel,
        run_priority,
        minutes: 1,
        priority: 1,
        address: ADDRESS,
    }
}

fn blank(number: u16) -> Command<'static> {
    Command::Blank {
        number,
        minutes: 1,
        priority: 1,
        address: ADDRESS,
    }
}

/// The command is refused for this fault: nothing is sent, and a job is on or not as it was.
fn check_refused(
    rt: &impl Abort,
    centre: &mut Centre,
    out: &mut Out,
    command: Command<'_>,
    fault: CommandFault,
) {
    let busy = centre.busy();
    let refused = centre.command(command, out);
    assert_eq!(rt;
        (refused, out.is_empty(), centre.busy()),
        (Err(fault), true, busy),
        "{command:?}"
    );
}

/// What is refused is not sent and changes nothing, and the first fault is reported.
#[test]
fn a_refused_command_changes_nothing(rt: HostRuntime) {
    let text = [b'A'; 513];
    let mut out = Out::new();
    let mut centre = centre(&rt, rt.alloc(), Order::High, 1);
    for command in [
        publish(2, 1, b""),
        publish(5, 1, b""),
        publish(3, 0, b""),
        publish(4, 1, &text),
        owned(&text[..128], 0, 0, 1),
        owned(b"", 2, 0, 1),
        owned(b"", 0, 2, 1),
        owned(b"", 0, 0, 0),
        blank(0),
        blank(256),
    ] {
        check_refused(
            &rt,
            &mut centre,
            &mut out,
            command,
            CommandFault::BadCommand,
        );
    }
    check_reported(&rt, &centre, (false, Ended::Never, 0));
    check_command(&rt, &mut centre, owned(&text[..127], 1, 1, 255), &mut out);
    check_refused(&rt, &mut centre, &mut out, blank(0), CommandFault::Busy);
    check_reported(&rt, &centre, (true, Ended::Never, 0));
}

#[test]
fn a_community_has_1_to_32_octets(rt: HostRuntime) {
    let long = [b'c'; 33];
    for (size, fault) in [
        (0, Some(CentreFault::Community)),
        (1, None),
        (32, None),
        (33, Some(CentreFault::Community)),
    ] {
        let settings = Settings {
            community: &long[..size],
            order: Order::High,
        };
        assert_eq!(rt;
            Centre::new(rt.alloc(), settings, 1).err(),
            fault,
            "of {size} octets"
        );
    }
}

/// The fault of a blank message that is refused, whether nothing was sent then, and what the central system
/// reports.
fn blank_refused(
    centre: &mut Centre,
    out: &mut Out,
) -> Option<(CommandFault, bool, (bool, Ended, usize))> {
    match centre.command(BLANK, out) {
        Ok(()) => None,
        Err(fault) => Some((fault, out.is_empty(), reported(centre))),
    }
}

/// With any allocation refused, a blank message and an activation that is due are out of memory, which changes nothing,
/// and the same call succeeds with memory.
#[test]
fn entered_or_out_of_memory(rt: HostRuntime) {
    let mut centre = centre(&rt, rt.alloc(), Order::High, 1);
    let mut out = Out::new();
    if let Some(refused) = blank_refused(&mut centre, &mut out) {
        let unchanged = (CommandFault::Memory, true, (false, Ended::Never, 0));
        assert_eq!(rt; refused, unchanged);
        check_sent(&rt, &mut centre, BLANK, &cases::BLANK);
    } else {
        check_octets(&rt, &out, &cases::BLANK);
    }
}

/// Where a tick is out of memory, whether nothing was sent then, and what the central system reports.
fn tick_refused(centre: &mut Centre, out: &mut Out) -> Option<(bool, (bool, Ended, usize))> {
    match centre.tick(out) {
        Ok(()) => None,
        Err(NoMemory) => Some((out.is_empty(), reported(centre))),
    }
}

#[test]
fn due_or_out_of_memory(rt: HostRuntime) {
    let mut centre = publishing(&rt, rt.alloc());
    check_steps(&rt, &mut centre, &cases::PUBLISHED, 5);
    let (_, checksum) = cases::PUBLISHED[5];
    check_answer(&rt, &mut centre, checksum, &[]);
    let (activation, _) = cases::PUBLISHED[6];
    let mut out = Out::new();
    if let Some(refused) = tick_refused(&mut centre, &mut out) {
        assert_eq!(rt; refused, (true, (true, Ended::Never, 0)));
        check_tick(&rt, &mut centre, activation);
    } else {
        check_octets(&rt, &out, activation);
    }
    check_entry(&rt, &centre, 7, CODE, Outcome::Waiting);
}

fn check_text<T: Display + Drop>(
    rt: &impl Abort,
    alloc: Global,
    value: T,
    text: &str,
) -> Result<(), Fail> {
    let printed = format!(in alloc; "{value}")?;
    assert_eq!(rt; printed.as_str(), text);
    Ok(())
}

#[test]
fn each_outcome_is_printed_as_its_word(rt: HostRuntime) -> Result<(), Fail> {
    for (outcome, text) in [
        (Outcome::Waiting, "waiting"),
        (Outcome::Accepted, "accepted"),
        (Outcome::Refused(5), "refused 5"),
        (Outcome::Refused(-1), "refused -1"),
        (Outcome::NoReply, "noreply"),
        (Outcome::Unknown, "unknown"),
    ] {
        check_text(&rt, rt.alloc(), outcome, text)?;
    }
    Ok(())
}

#[test]
fn each_end_is_printed_with_its_step(rt: HostRuntime) -> Result<(), Fail> {
    for (ended, text) in [
        (Ended::Never, "no job has ended"),
        (Ended::Accepted, "accepted"),
        (
            Ended::Failed(3, Why::Status(5)),
            "failed at step 3: error-status 5",
        ),
        (
            Ended::Failed(2, Why::WrongStatus(5)),
            "failed at step 2: the row has status 5",
        ),
        (
            Ended::Failed(5, Why::StillValidating),
            "failed at step 5: the row is still being validated",
        ),
        (
            Ended::Failed(6, Why::OtherChecksum),
            "failed at step 6: the row has another checksum",
        ),
        (Ended::Failed(1, Why::NoReply), "failed at step 1: no reply"),
        (
            Ended::Failed(8, Why::NumbersUsedUp),
            "failed at step 8: no request number is left",
        ),
        (
            Ended::Failed(2, Why::OddReply),
            "failed at step 2: the reply does not answer what was asked",
        ),
        (
            Ended::Failed(7, Why::Cause(3)),
            "failed at step 7: the sign refused the activation for cause 3",
        ),
        (
            Ended::Failed(7, Why::Restarted),
            "failed at step 7: the central system was restarted",
        ),
    ] {
        check_text(&rt, rt.alloc(), ended, text)?;
    }
    Ok(())
}

#[test]
fn each_fault_is_printed_as_its_sentence(rt: HostRuntime) -> Result<(), Fail> {
    let alloc = rt.alloc();
    check_text(
        &rt,
        alloc,
        CommandFault::BadCommand,
        "a value is out of its range",
    )?;
    check_text(
        &rt,
        alloc,
        CentreFault::Community,
        "a community has 1 to 32 octets",
    )?;
    let entry = Entry {
        code: CODE,
        outcome: Outcome::Refused(5),
    };
    check_text(
        &rt,
        alloc,
        entry,
        "memory 3 number 1 checksum 39526: refused 5",
    )?;
    check_text(&rt, alloc, NoMemory, "out of memory")
}
