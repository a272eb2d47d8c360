//! Scripts and descriptions where memory is refused once, as `rt try --test --fail-alloc N` refuses it.

use dms_replay::fault::ReplayFault;
use dms_replay::replaying::{bench, described, replay};
use dms_sign_text::{BENCH, Setup};
use dms_text_streams::{Gathered, Sink};
use std::alloc::Global;

const SCRIPT: &str = "bench
publish 3 1 41 - 0 0 200 65535 255 192.0.2.1
to-sign 0\nto-centre 0\nto-sign 1\nto-centre 1\nto-sign 2\nto-centre 2\nto-sign 3\nto-centre 3
sign-tick
to-sign 4\nto-centre 4\nto-sign 5\nto-centre 5
centre-tick
to-sign 6\nto-centre 6
forge-centre 00
";

const REPORT: &str = "events 18
sent 7 7
shown 3 1 9a66 mode 8 priority 200 remaining 65535 text 41
accepted 16 ffffff0300019a66c0000201
ledger 7 ffffff0300019a66c0000201 accepted
";

/// An answer, how often the writer failed, and whether the report was written, and nothing.
type Replayed = (Result<(), ReplayFault>, u64, bool, bool);

/// How the script is replayed to this writer.
fn replayed_to(alloc: Global, mut writer: Gathered) -> Replayed {
    let mut reader = SCRIPT.as_bytes();
    let found = replay(alloc, &mut reader, &mut writer);
    (
        found,
        writer.failures(),
        writer.bytes() == REPORT.as_bytes(),
        writer.bytes().is_empty(),
    )
}

fn replayed(alloc: Global) -> Replayed {
    replayed_to(alloc, Gathered::new(alloc))
}

/// How it is replayed into room for its report.
fn replayed_in_room(alloc: Global) -> Replayed {
    match Gathered::with_room(alloc, REPORT.len()) {
        Ok(writer) => replayed_to(alloc, writer),
        Err(_) => (Err(ReplayFault::Memory), 0, false, true),
    }
}

/// Out of memory leaves nothing written, also where it is the writer's own, which then has failed once. The same script
/// is then replayed to its report.
#[test]
fn report_or_out_of_memory(rt: HostRuntime) {
    for refused in [false, true] {
        let (found, failures, whole, empty) = replayed(rt.alloc());
        if found == Ok(()) {
            assert!(rt; whole);
            return;
        }
        let wanted = if found == Err(ReplayFault::Write) {
            (found, 1, true, false)
        } else {
            (Err(ReplayFault::Memory), 0, true, false)
        };
        assert_eq!(rt; (found, failures, empty, refused), wanted);
    }
}

/// Where there is room for the report, `Write` does not come: whatever memory is refused, `Memory` is answered, and
/// nothing is written.
#[test]
fn report_in_room_or_out_of_memory(rt: HostRuntime) {
    let mut found = replayed_in_room(rt.alloc());
    if found == (Err(ReplayFault::Memory), 0, false, true) {
        found = replayed_in_room(rt.alloc());
    }
    assert_eq!(rt; found, (Ok(()), 0, true, false));
}

/// Whether the answer is the bench sign.
fn is_bench_sign(answer: Result<Setup, ReplayFault>) -> Result<bool, ReplayFault> {
    let setup = answer?;
    Ok(setup.first == 1 && setup.sign.face().fonts().len() == 2)
}

fn read_bench(alloc: Global) -> Result<bool, ReplayFault> {
    is_bench_sign(described(alloc, &mut BENCH.as_bytes()))
}

fn made_bench(alloc: Global) -> Result<bool, ReplayFault> {
    is_bench_sign(bench(alloc))
}

/// The sign of a description, and the bench sign, are there or out of memory is answered; the same call then answers
/// the sign.
#[test]
fn sign_or_out_of_memory(rt: HostRuntime) {
    let mut read = read_bench(rt.alloc());
    if read == Err(ReplayFault::Memory) {
        read = read_bench(rt.alloc());
    }
    let mut made = made_bench(rt.alloc());
    if made == Err(ReplayFault::Memory) {
        made = made_bench(rt.alloc());
    }
    assert_eq!(rt; (read, made), (Ok(true), Ok(true)));
}
