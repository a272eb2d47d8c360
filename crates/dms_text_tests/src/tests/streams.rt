//! Readers and writers by their values.

use dms_text_streams::{
    Counted, Failed, Gathered, Input, InputFault, Sink, Source, description_text, read_whole,
    write_whole,
};
use std::alloc::{AllocError, Global};
use std::io::{Read, Write};
use std::test::Fail;

/// Gives an octet a call and never ends, but for the call that fails.
#[derive(Drop)]
struct Endless {
    before_failure: u64,
    failed: u64,
}

impl Source for Endless {
    ghost failed = { λ endless. endless.failed };

    fn read_some(&mut self, buffer: &mut [u8]) -> Result<usize, Failed> {
        if self.before_failure == 0 {
            self.failed = self.failed.saturating_add(1);
            return Err(Failed);
        }
        self.before_failure -= 1;
        match buffer.first_mut() {
            Some(first) => {
                *first = b'.';
                Ok(1)
            }
            None => Ok(0),
        }
    }

    fn failures(&self) -> u64 {
        self.failed
    }
}

/// A writer of std that takes an octet a call, so long as it has room.
#[derive(Drop)]
struct NarrowWriter {
    room: usize,
}

impl Write for NarrowWriter {
    fn write(&mut self, buf: &[u8]) -> std::io::Result<usize> {
        if buf.is_empty() || self.room == 0 {
            return Ok(0);
        }
        self.room -= 1;
        Ok(1)
    }

    fn flush(&mut self) -> std::io::Result<()> {
        Ok(())
    }
}

/// Whether these octets are read and written whole, and how often the reader and the writer failed.
fn passed_on(alloc: Global, octets: &[u8]) -> Option<(bool, u64, u64)> {
    let mut text = octets;
    let read = read_whole(alloc, &mut text, octets.len()).ok()?;
    let mut out = Gathered::new(alloc);
    write_whole(&mut out, read.as_slice()).ok()?;
    Some((out.bytes() == octets, text.failures(), out.failures()))
}

#[test]
fn a_slice_is_read_and_written_whole(rt: HostRuntime) {
    let mut longer: &[u8] = b"all of it.";
    assert_eq!(rt;
        (
            passed_on(rt.alloc(), b"all of it"),
            read_whole(rt.alloc(), &mut longer, 9).err()
        ),
        (Some((true, 0, 0)), Some(InputFault::TooLong))
    );
}

/// Whether these octets are written whole into room for them, how often the writer failed, and whether it holds them.
fn written_in_room(alloc: Global, octets: &[u8]) -> Result<(bool, u64, bool), AllocError> {
    let mut out = Gathered::with_room(alloc, octets.len())?;
    let whole = write_whole(&mut out, octets).is_ok();
    Ok((whole, out.failures(), out.bytes() == octets))
}

/// The room may be refused, and nothing more takes memory within it.
#[test]
fn room_or_out_of_memory(rt: HostRuntime) {
    let mut found = written_in_room(rt.alloc(), b"all of it");
    if found.is_err() {
        found = written_in_room(rt.alloc(), b"all of it");
    }
    assert_eq!(rt; found.ok(), Some((true, 0, true)));
}

/// Whether a reader of std gives these octets, and how often it failed.
fn counted(alloc: Global, text: &[u8]) -> Option<(bool, u64)> {
    let mut source = Counted::new(text);
    let read = read_whole(alloc, &mut source, text.len()).ok()?;
    Some((read.as_slice() == text, source.failures()))
}

#[test]
fn a_reader_of_std_is_counted(rt: HostRuntime) {
    assert_eq!(rt; counted(rt.alloc(), b"text"), Some((true, 0)));
}

#[test]
fn a_reader_that_never_ends_is_left_at_the_limit(rt: HostRuntime) {
    for (before_failure, limit, fault, failures) in [
        (0, 3, InputFault::Read, 1),
        (3, 3, InputFault::Read, 1),
        (4, 3, InputFault::TooLong, 0),
        (u64::MAX, 100, InputFault::TooLong, 0),
    ] {
        let mut endless = Endless {
            before_failure,
            failed: 0,
        };
        let found = read_whole(rt.alloc(), &mut endless, limit).err();
        assert_eq!(rt; (found, endless.failures()), (Some(fault), failures));
    }
}

/// How the taking of a description ends of which no line ever does.
fn fault_of_an_endless_line(alloc: Global) -> Result<Option<InputFault>, AllocError> {
    let endless = Endless {
        before_failure: 1_048_577,
        failed: 0,
    };
    let mut input = Input::new(alloc, endless)?;
    Ok(description_text(alloc, &mut input).err())
}

/// The reader would fail at the call after the first octet past the limit, so it is not called again.
#[test]
fn a_description_that_never_ends_is_too_long(rt: HostRuntime) -> Result<(), Fail> {
    assert_eq!(rt;
        fault_of_an_endless_line(rt.alloc())?,
        Some(InputFault::TooLong)
    );
    Ok(())
}

#[test]
fn a_writer_without_room_fails(rt: HostRuntime) {
    for (room, written, failures) in [(3, true, 0), (2, false, 1), (0, false, 1)] {
        let mut sink = Counted::new(NarrowWriter { room });
        let whole = write_whole(&mut sink, b"abc").is_ok();
        assert_eq!(rt; (whole, sink.failures()), (written, failures));
    }
}
