//! Readers that fail, end late or never, and writers that fail, each a few octets a call.

use dms_replay::fault::ReplayFault;
use dms_replay::replaying::{LONGEST_INPUT, described, replay};
use dms_sign_text::BENCH;
use dms_text_streams::{Failed, Sink, Source};
use std::alloc::Global;
use std::test::Fail;

/// Gives a text and after it so many `#`, at most so many octets a call, and fails once so many calls were made.
#[derive(Drop)]
struct Slow<'a> {
    text: &'a [u8],
    padding: usize,
    piece: usize,
    calls: usize,
    failed: u64,
}

impl Source for Slow<'_> {
    ghost failed = { λ slow. slow.failed };

    fn read_some(&mut self, buffer: &mut [u8]) -> Result<usize, Failed> {
        if self.calls == 0 {
            self.failed = self.failed.saturating_add(1);
            return Err(Failed);
        }
        self.calls -= 1;
        let room = self.piece.min(buffer.len());
        if self.text.is_empty() {
            let count = self.padding.min(room);
            buffer[..count].fill(b'#');
            self.padding -= count;
            return Ok(count);
        }
        let (first, rest) = self.text.split_at(self.text.len().min(room));
        buffer[..first.len()].copy_from_slice(first);
        self.text = rest;
        Ok(first.len())
    }

    fn failures(&self) -> u64 {
        self.failed
    }
}

/// How a writer refuses octets.
#[derive(Clone, Copy, Debug, PartialEq, Eq)]
enum WriteRefusal {
    /// The call fails.
    Fails,
    /// It takes none of them.
    TakesNone,
}

/// Keeps at most so many octets a call, and refuses them once so many calls were made.
#[derive(Drop)]
struct NarrowSink {
    octets: Vec<u8>,
    piece: usize,
    calls: usize,
    refusal: WriteRefusal,
    failed: u64,
}

impl Sink for NarrowSink {
    ghost failed = { λ narrow. narrow.failed };

    fn write_some(&mut self, octets: &[u8]) -> Result<usize, Failed> {
        if octets.is_empty() {
            return Ok(0);
        }
        let count = if self.calls == 0 {
            0
        } else {
            self.piece.min(octets.len())
        };
        self.calls = self.calls.saturating_sub(1);
        let kept = self.octets.extend_from_slice(&octets[..count]);
        if count > 0 && kept.is_ok() {
            return Ok(count);
        }
        self.failed = self.failed.saturating_add(1);
        match self.refusal {
            WriteRefusal::Fails => Err(Failed),
            WriteRefusal::TakesNone => Ok(0),
        }
    }

    fn failures(&self) -> u64 {
        self.failed
    }
}

const SCRIPT: &str = "bench
publish 3 1 41 - 0 0 200 65535 255 192.0.2.1
to-sign 0
to-centre 0
";

const REPORT: &str = "events 3
sent 2 1
shown 7 1 0000 mode 10 priority 1 remaining 65535 text -
";

fn reader_of(text: &str, padding: usize, piece: usize, calls: usize) -> Slow<'_> {
    Slow {
        text: text.as_bytes(),
        padding,
        piece,
        calls,
        failed: 0,
    }
}

fn writer_of(alloc: Global, piece: usize, calls: usize, refusal: WriteRefusal) -> NarrowSink {
    NarrowSink {
        octets: Vec::new(alloc),
        piece,
        calls,
        refusal,
        failed: 0,
    }
}

/// How a script is replayed: its answer, how often the reader and the writer failed, and whether this was written.
fn replayed(
    mut reader: Slow<'_>,
    alloc: Global,
    (piece, calls, refusal): (usize, usize, WriteRefusal),
    written: &[u8],
) -> (Result<(), ReplayFault>, u64, u64, bool) {
    let mut writer = writer_of(alloc, piece, calls, refusal);
    let found = replay(alloc, &mut reader, &mut writer);
    (
        found,
        reader.failures(),
        writer.failures(),
        writer.octets.as_slice() == written,
    )
}

/// A writer that takes all.
const WIDE: (usize, usize, WriteRefusal) = (4096, 4096, WriteRefusal::Fails);

/// The script is replayed from a reader that fails at each call in turn: nothing is written but where it gave all, the
/// last call included that gives nothing.
#[test]
fn reader_fails_at_each_call(rt: HostRuntime) {
    for piece in [1, 7, 4096] {
        let pieces = SCRIPT.len().div_ceil(piece);
        for calls in 0..=pieces + 1 {
            let (wanted, written, failures) = if calls <= pieces {
                (Err(ReplayFault::Read), "", 1)
            } else {
                (Ok(()), REPORT, 0)
            };
            let reader = reader_of(SCRIPT, 0, piece, calls);
            let found = replayed(reader, rt.alloc(), WIDE, written.as_bytes());
            assert_eq!(rt; found, (wanted, failures, 0, true), "at {calls}");
        }
    }
}

/// The same report is written to a writer that fails, or takes nothing, at each call in turn: what it took before is a
/// prefix of the report.
#[test]
fn writer_fails_at_each_call(rt: HostRuntime) {
    for (piece, refusal) in [
        (1, WriteRefusal::Fails),
        (1, WriteRefusal::TakesNone),
        (10, WriteRefusal::Fails),
        (10, WriteRefusal::TakesNone),
        (4096, WriteRefusal::Fails),
        (4096, WriteRefusal::TakesNone),
    ] {
        let pieces = REPORT.len().div_ceil(piece);
        for calls in 0..=pieces {
            let written = REPORT.len().min(calls.saturating_mul(piece));
            let (wanted, failures) = if calls < pieces {
                (Err(ReplayFault::Write), 1)
            } else {
                (Ok(()), 0)
            };
            let reader = reader_of(SCRIPT, 0, 4096, 4096);
            let found = replayed(
                reader,
                rt.alloc(),
                (piece, calls, refusal),
                &REPORT.as_bytes()[..written],
            );
            assert_eq!(rt; found, (wanted, 0, failures, true), "at {calls} of {piece}");
        }
    }
}

/// An input of the most octets, one of an octet more, one that fails right before and right after its last octet, and
/// one that never ends.
#[test]
fn too_long_is_refused(rt: HostRuntime) {
    let rest = LONGEST_INPUT.saturating_sub(SCRIPT.len());
    for (padding, piece, calls, wanted) in [
        (rest, 1, usize::MAX, Ok(())),
        (rest, 4096, usize::MAX, Ok(())),
        (rest + 1, 1, usize::MAX, Err(ReplayFault::TooLong)),
        (rest + 1, 4096, usize::MAX, Err(ReplayFault::TooLong)),
        (rest, 1, LONGEST_INPUT, Err(ReplayFault::Read)),
        (rest + 1, 1, LONGEST_INPUT, Err(ReplayFault::Read)),
        (rest + 1, 1, LONGEST_INPUT + 1, Err(ReplayFault::TooLong)),
        (usize::MAX, 1, usize::MAX, Err(ReplayFault::TooLong)),
        (usize::MAX, 4096, usize::MAX, Err(ReplayFault::TooLong)),
    ] {
        let reader = reader_of(SCRIPT, padding, piece, calls);
        let written = if wanted.is_ok() { REPORT } else { "" };
        let (found, _, _, right) = replayed(reader, rt.alloc(), WIDE, written.as_bytes());
        assert_eq!(rt;
            (found, right),
            (wanted, true),
            "of {padding} in pieces of {piece}"
        );
    }
}

/// A description is read by the same limits and from the same readers.
#[test]
fn a_description_is_read_by_the_same_limits(rt: HostRuntime) {
    let rest = LONGEST_INPUT.saturating_sub(BENCH.len());
    for (padding, piece, calls, wanted) in [
        (0, 1, usize::MAX, None),
        (rest, 4096, usize::MAX, None),
        (rest + 1, 4096, usize::MAX, Some(ReplayFault::TooLong)),
        (usize::MAX, 1, usize::MAX, Some(ReplayFault::TooLong)),
        (0, 1, 0, Some(ReplayFault::Read)),
        (0, 1, 100, Some(ReplayFault::Read)),
        (0, 1, BENCH.len(), Some(ReplayFault::Read)),
        (0, 1, BENCH.len() + 1, None),
    ] {
        let mut reader = reader_of(BENCH, padding, piece, calls);
        let found = described(rt.alloc(), &mut reader).err();
        let failures = u64::from(wanted == Some(ReplayFault::Read));
        assert_eq!(rt;
            (found, reader.failures()),
            (wanted, failures),
            "of {padding} in {calls} calls of {piece}"
        );
    }
}
