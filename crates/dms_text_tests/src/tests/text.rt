//! Lines, words and what they spell, by their values.

use dms_text::{Lines, Words, number, octets, version};
use std::alloc::{AllocError, Global};
use std::process::Abort;
use std::test::Fail;

/// The address that a word spells: four numbers up to 255, with a dot between two.
fn address(word: &[u8]) -> Option<[u8; 4]> {
    let (first, parts) = Words::split(word, b'.').octet(3, 0, 255)?;
    let (second, parts) = parts.octet(3, 0, 255)?;
    let (third, parts) = parts.octet(3, 0, 255)?;
    let (fourth, parts) = parts.octet(3, 0, 255)?;
    if parts.is_empty() {
        Some([first, second, third, fourth])
    } else {
        None
    }
}

/// The number of the next line, its address and its seconds, and whether its words end there.
fn sending(lines: &mut Lines<'_>) -> Option<(usize, [u8; 4], u8, bool)> {
    let line = lines.next_line()?;
    let words = Words::of(line.octets).keyword(b"send")?;
    let (word, words) = words.next_word()?;
    let (seconds, words) = words.octet(5, 1, 60)?;
    Some((line.number, address(word)?, seconds, words.is_empty()))
}

#[test]
fn lines_and_their_words(rt: HostRuntime) {
    let mut lines = Lines::of(b"# skipped\n\nsend 192.0.2.1 30\r\nstop");
    assert_eq!(rt; sending(&mut lines), Some((3, [192, 0, 2, 1], 30, true)));
    let stop = match lines.next_line() {
        Some(line) => Some((line.number, line.octets == b"stop".as_slice())),
        None => None,
    };
    assert_eq!(rt; stop, Some((4, true)));
    assert_eq!(rt; (lines.next_line().is_none(), lines.number()), (true, 5));
}

fn check_address(rt: &impl Abort, word: &str, read: Option<[u8; 4]>) {
    assert_eq!(rt; address(word.as_bytes()), read, "of {word:?}");
}

#[test]
fn an_address_is_four_numbers_of_three_digits_at_most(rt: HostRuntime) {
    for (word, read) in [
        ("000.000.000.255", Some([0, 0, 0, 255])),
        ("192.0.2.256", None),
        ("192.0.2", None),
        ("192.0.2.1.", None),
        ("192.0..1", None),
        ("0192.0.2.1", None),
        ("", None),
    ] {
        check_address(&rt, word, read);
    }
}

#[test]
fn words_of_numbers(rt: HostRuntime) {
    for (word, base, most, value) in [
        ("0fF", 16, 3, Some(255)),
        ("999999999999999", 10, 15, Some(999_999_999_999_999)),
        ("0255", 10, 3, None),
        ("", 10, 3, None),
    ] {
        assert_eq!(rt; number(word.as_bytes(), base, most), value);
    }
    assert_eq!(rt; (version(b"aBcD"), version(b"abc")), (Some(0xabcd), None));
}

/// Whether the word spells these octets, or none where there are none.
fn spells(alloc: Global, word: &str, wanted: Option<&[u8]>) -> Result<bool, AllocError> {
    Ok(match (octets(alloc, word.as_bytes())?, wanted) {
        (Some(read), Some(wanted)) => read.as_slice() == wanted,
        (read, wanted) => read.is_none() && wanted.is_none(),
    })
}

#[test]
fn words_of_octets(rt: HostRuntime) -> Result<(), Fail> {
    for (word, wanted) in [
        ("00ffA0", Some([0, 255, 160].as_slice())),
        ("-", Some([].as_slice())),
        ("", None),
        ("0", None),
        ("0g", None),
        ("--", None),
    ] {
        assert!(rt; spells(rt.alloc(), word, wanted)?, "of {word:?}");
    }
    Ok(())
}
