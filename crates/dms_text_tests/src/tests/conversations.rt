//! Conversations by their octets.

ghost use Rattle.std.specs.Prelude.{ℕ, List, [], ◌∷◌, ◌++◌, slice_index_or};

use dms_text_streams::{
    ConversationFault, Failed, Gathered, Input, InputFault, Party, Sink, Source, converse,
    description_text,
};
use std::alloc::{AllocError, Global};
use std::test::Fail;

/// Answers a line with the first octet of the line before it, or a dash, and the line.
#[derive(Drop)]
struct Echo {
    first: u8,
}

impl Party for Echo {
    ghost State = { ℕ };

    ghost state = { λ echo. echo.first };

    ghost reply = { λ first line. first ∷ line ++ 10 ∷ [] };

    ghost after = { λ first line. slice_index_or line 0 45 };

    fn answer(&mut self, alloc: Global, line: &[u8]) -> Result<Vec<u8>, AllocError> {
        let mut text = Vec::new(alloc);
        text.push(self.first)?;
        text.extend_from_slice(line)?;
        text.push(b'\n')?;
        self.first = match line {
            [first, ..] => *first,
            [] => b'-',
        };
        Ok(text)
    }
}

/// Gives an octet a call, and fails where it has none left, or ends there.
#[derive(Drop)]
struct NarrowSource<'a> {
    octets: &'a [u8],
    fails: bool,
    failed: u64,
}

impl Source for NarrowSource<'_> {
    ghost failed = { λ narrow. narrow.failed };

    fn read_some(&mut self, buffer: &mut [u8]) -> Result<usize, Failed> {
        match (self.octets, buffer) {
            ([octet, rest @ ..], [first, ..]) => {
                *first = *octet;
                self.octets = rest;
                Ok(1)
            }
            ([], _) if self.fails => {
                self.failed = self.failed.saturating_add(1);
                Err(Failed)
            }
            _ => Ok(0),
        }
    }

    fn failures(&self) -> u64 {
        self.failed
    }
}

/// Holds the octets that it has room for, and then fails.
#[derive(Drop)]
struct Small {
    octets: Gathered,
    room: usize,
    failed: u64,
}

impl Sink for Small {
    ghost failed = { λ small. small.failed };

    fn write_some(&mut self, octets: &[u8]) -> Result<usize, Failed> {
        let count = octets.len().min(self.room);
        if count == 0 && !octets.is_empty() {
            self.failed = self.failed.saturating_add(1);
            return Ok(0);
        }
        match self.octets.write_some(&octets[..count]) {
            Ok(count) => {
                self.room = self.room.saturating_sub(count);
                Ok(count)
            }
            Err(fault) => {
                self.failed = self.failed.saturating_add(1);
                Err(fault)
            }
        }
    }

    fn failures(&self) -> u64 {
        self.failed
    }
}

/// How a conversation ends, how often its writer failed, and whether it wrote what was wanted.
type Ended = (Result<(), ConversationFault>, u64, bool);

/// A conversation over these octets.
fn said(
    alloc: Global,
    octets: &[u8],
    fails: bool,
    room: usize,
    wanted: &[u8],
) -> Result<Ended, AllocError> {
    let source = NarrowSource {
        octets,
        fails,
        failed: 0,
    };
    let mut input = Input::new(alloc, source)?;
    let mut sink = Small {
        octets: Gathered::new(alloc),
        room,
        failed: 0,
    };
    let ended = converse(alloc, &mut Echo { first: b'-' }, &mut input, &mut sink);
    Ok((ended, sink.failures(), sink.octets.bytes() == wanted))
}

const TALK: &[u8] = b"one\ntwo\r\n\nr\rn\r\r\nlast";

const ANSWERS: &[u8] = b"-one\notwo\nt\n-r\rn\r\nrlast\n";

#[test]
fn lines_are_answered_in_turn(rt: HostRuntime) -> Result<(), Fail> {
    for (octets, answers) in [
        (TALK, ANSWERS),
        (b"".as_slice(), b"".as_slice()),
        (b"\n", b"-\n"),
        (b"\r\n\r", b"-\n-\r\n"),
        (b"a\n", b"-a\n"),
    ] {
        let found = said(rt.alloc(), octets, false, usize::MAX, answers)?;
        assert_eq!(rt; found, (Ok(()), 0, true), "for {octets:?}");
    }
    Ok(())
}

/// Where a call of the reader fails, all lines that came whole are answered.
#[test]
fn a_reader_that_fails(rt: HostRuntime) -> Result<(), Fail> {
    let found = said(
        rt.alloc(),
        TALK,
        true,
        usize::MAX,
        b"-one\notwo\nt\n-r\rn\r\n",
    )?;
    assert_eq!(rt; found, (Err(ConversationFault::Read), 0, true));
    Ok(())
}

/// A writer that is full after each octet in turn has a prefix of the answers.
#[test]
fn a_writer_that_is_full(rt: HostRuntime) -> Result<(), Fail> {
    for room in 0..=ANSWERS.len() {
        let whole = room == ANSWERS.len();
        let (ended, failures, right) = said(rt.alloc(), TALK, false, room, &ANSWERS[..room])?;
        assert_eq!(rt;
            (ended.is_ok(), failures, right),
            (whole, u64::from(!whole), true)
        );
    }
    Ok(())
}

/// So many octets and then this end.
fn long_talk(alloc: Global, length: usize, end: &str) -> Result<Vec<u8>, AllocError> {
    let mut talk = Vec::new(alloc);
    talk.resize(length, b'x')?;
    talk.extend_from_slice(end.as_bytes())?;
    Ok(talk)
}

/// How a conversation over these octets ends, how many octets it writes, and whether these are the last.
fn ending(
    alloc: Global,
    octets: &[u8],
    last: &[u8],
) -> Result<(Result<(), ConversationFault>, usize, bool), AllocError> {
    let mut input = Input::new(alloc, octets)?;
    let mut sink = Gathered::new(alloc);
    let ended = converse(alloc, &mut Echo { first: b'-' }, &mut input, &mut sink);
    Ok((ended, sink.bytes().len(), sink.bytes().ends_with(last)))
}

/// Lines of so many octets, then a short one: a long line is refused, and the next is answered as if it had not been.
#[test]
fn the_line_after_a_long_one_is_answered(rt: HostRuntime) -> Result<(), Fail> {
    for (length, end, refused) in [
        (65_536, "\nb", false),
        (65_537, "\nb", true),
        (65_536, "\r\nb", false),
        (65_537, "\r\nb", true),
        (70_000, "\nb\n", true),
        (200_000, "\r\nb\n", true),
    ] {
        let last: &[u8] = if refused {
            b"bad line\n-b\n"
        } else {
            b"x\nxb\n"
        };
        let talk = long_talk(rt.alloc(), length, end)?;
        let (ended, size, right) = ending(rt.alloc(), talk.as_slice(), last)?;
        assert_eq!(rt;
            (ended, size > 20, right),
            (Ok(()), !refused, true),
            "for {length}"
        );
    }
    Ok(())
}

/// Whether this description is taken of a talk, how the conversation over the rest ends, and whether these are its
/// answers.
fn described_first(
    alloc: Global,
    talk: &str,
    description: &str,
    answers: &str,
) -> Option<(bool, Result<(), ConversationFault>, bool)> {
    let mut input = Input::new(alloc, talk.as_bytes()).ok()?;
    let text = description_text(alloc, &mut input).ok()?;
    let mut sink = Gathered::new(alloc);
    let ended = converse(alloc, &mut Echo { first: b'-' }, &mut input, &mut sink);
    Some((
        text.as_slice() == description.as_bytes(),
        ended,
        sink.bytes() == answers.as_bytes(),
    ))
}

/// What is taken up to the line `end`, and that the rest is talked about.
#[test]
fn a_description_comes_first(rt: HostRuntime) {
    for (talk, description, answers) in [
        ("size\nend\none\n", "size\nend\n", "-one\n"),
        ("end", "end", ""),
        ("# end\r\nend\r\nend\n", "# end\r\nend\r\n", "-end\n"),
        ("ends\n end\nen", "ends\n end\nen", ""),
        ("\nend\n\nend", "\nend\n", "-\n-end\n"),
        ("", "", ""),
    ] {
        assert_eq!(rt;
            described_first(rt.alloc(), talk, description, answers),
            Some((true, Ok(()), true)),
            "for {talk}"
        );
    }
}

/// How many octets a description has that is taken of these.
fn taken(alloc: Global, octets: &[u8]) -> Result<Result<usize, InputFault>, AllocError> {
    let mut input = Input::new(alloc, octets)?;
    match description_text(alloc, &mut input) {
        Ok(text) => Ok(Ok(text.len())),
        Err(fault) => Ok(Err(fault)),
    }
}

/// How the taking of a description ends whose reader fails.
fn fault_within(alloc: Global) -> Result<Option<InputFault>, AllocError> {
    let source = NarrowSource {
        octets: b"size",
        fails: true,
        failed: 0,
    };
    let mut input = Input::new(alloc, source)?;
    Ok(description_text(alloc, &mut input).err())
}

/// A description of 1,048,576 octets is taken, one more is too long, and a reader may fail within.
#[test]
fn a_description_before_a_talk_has_1048576_octets_at_most(rt: HostRuntime) -> Result<(), Fail> {
    let mut talk = Vec::new(rt.alloc());
    talk.resize(1_048_573, b'#')?;
    talk.extend_from_slice(b"\nend\n")?;
    for (length, wanted) in [
        (1_048_576, Ok(1_048_576)),
        (1_048_577, Err(InputFault::TooLong)),
        (1_048_578, Err(InputFault::TooLong)),
    ] {
        assert_eq!(rt; taken(rt.alloc(), &talk[..length])?, wanted, "for {length}");
    }
    assert_eq!(rt; fault_within(rt.alloc())?, Some(InputFault::Read));
    Ok(())
}
