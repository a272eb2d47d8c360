//! Names and values as words: what is read, what is none, and that what is printed is read back.

use dms_text::Words;
use dms_text_values::{integer, name, put_value, value};
use std::alloc::{AllocError, Global};
use std::process::Abort;
use std::test::Fail;

/// What is printed of the value that a line is, or nothing where it is none.
fn printed(alloc: Global, line: &[u8]) -> Result<Option<Vec<u8>>, AllocError> {
    let Some((words, rest)) = value(Words::of(line)) else {
        return Ok(None);
    };
    if !rest.is_empty() {
        return Ok(None);
    }
    let octets = words.octets(alloc)?;
    let mut text = Vec::new(alloc);
    match put_value(alloc, &words.over(octets.as_slice()), &mut text) {
        Ok(()) => Ok(Some(text)),
        Err(_) => Err(AllocError),
    }
}

/// Whether a line is printed so, or is no value where nothing is to be printed.
fn prints(alloc: Global, line: &str, wanted: Option<&str>) -> Result<bool, AllocError> {
    match (printed(alloc, line.as_bytes())?, wanted) {
        (None, None) => Ok(true),
        (Some(text), Some(wanted)) => Ok(text.as_slice() == wanted.as_bytes()),
        _ => Ok(false),
    }
}

/// Lines that are values of each type, and how they are printed.
static VALUES: [(&str, &str); 14] = [
    ("INTEGER -7", "INTEGER -7"),
    ("INTEGER -2147483648", "INTEGER -2147483648"),
    ("INTEGER 4294967295", "INTEGER 4294967295"),
    ("INTEGER -0", "INTEGER 0"),
    ("INTEGER 0000000007", "INTEGER 7"),
    ("OCTET STRING 466F67", "OCTET STRING 466f67"),
    ("OCTET STRING -", "OCTET STRING -"),
    ("NULL", "NULL"),
    (
        "OBJECT IDENTIFIER 2.4294967215",
        "OBJECT IDENTIFIER 2.4294967215",
    ),
    ("IpAddress 192.0.2.001", "IpAddress 192.0.2.1"),
    ("Counter 4294967295", "Counter 4294967295"),
    ("Gauge 0", "Gauge 0"),
    ("TimeTicks 6000", "TimeTicks 6000"),
    ("Opaque 00ff", "Opaque 00ff"),
];

#[test]
fn values_are_read_and_printed(rt: HostRuntime) -> Result<(), Fail> {
    for (line, wanted) in VALUES {
        assert!(rt; prints(rt.alloc(), line, Some(wanted))?, "of {line:?}");
        assert!(rt; prints(rt.alloc(), wanted, Some(wanted))?, "of {wanted:?}");
    }
    Ok(())
}

/// Lines that are no values.
static NO_VALUES: [&str; 16] = [
    "",
    "integer 7",
    "INTEGER",
    "INTEGER -",
    "INTEGER +7",
    "INTEGER 4294967296",
    "INTEGER -2147483649",
    "INTEGER 00000000007",
    "OCTET 466f67",
    "OCTET STRING 466f6",
    "NULL 0",
    "OBJECT IDENTIFIER 1.40",
    "IpAddress 192.0.2",
    "Counter -1",
    "Gauge 4294967296",
    "Opaque",
];

#[test]
fn other_lines_are_no_values(rt: HostRuntime) -> Result<(), Fail> {
    for line in NO_VALUES {
        assert!(rt; prints(rt.alloc(), line, None)?, "of {line:?}");
    }
    Ok(())
}

/// Words, and the content octets of the names that they are.
static NAMES: [(&str, Option<&[u8]>); 13] = [
    ("1.3.6.1.2.1.1.1.0", Some(&[43, 6, 1, 2, 1, 1, 1, 0])),
    ("0.39", Some(&[39])),
    ("1.39", Some(&[79])),
    ("2.4294967215", Some(&[143, 255, 255, 255, 127])),
    ("2.0.127.128", Some(&[80, 127, 129, 0])),
    ("1.3.16383.16384", Some(&[43, 255, 127, 129, 128, 0])),
    (
        "1.3.2097151.2097152",
        Some(&[43, 255, 255, 127, 129, 128, 128, 0]),
    ),
    ("1.3.4294967295", Some(&[43, 143, 255, 255, 255, 127])),
    ("1", None),
    ("3.1", None),
    ("1.40", None),
    ("2.4294967216", None),
    ("1.3..6", None),
];

fn check_name(rt: &impl Abort, word: &str, wanted: Option<&[u8]>) {
    let is_so = match (name(word.as_bytes()), wanted) {
        (Some(name), Some(wanted)) => name.content() == wanted,
        (None, None) => true,
        _ => false,
    };
    assert!(rt; is_so, "of {word:?}");
}

#[test]
fn names_have_their_content(rt: HostRuntime) {
    for (word, wanted) in NAMES {
        check_name(&rt, word, wanted);
    }
}

/// Whether a name of so many numbers is one.
fn is_name_of(alloc: Global, numbers: usize) -> Result<bool, AllocError> {
    let mut text = Vec::from_slice(alloc, b"1")?;
    for _ in 1..numbers {
        text.extend_from_slice(b".3")?;
    }
    Ok(name(text.as_slice()).is_some())
}

#[test]
fn a_name_has_128_numbers_at_most(rt: HostRuntime) -> Result<(), Fail> {
    assert_eq!(rt;
        (is_name_of(rt.alloc(), 128)?, is_name_of(rt.alloc(), 129)?),
        (true, false)
    );
    Ok(())
}

#[test]
fn an_integer_leaves_the_words_after_it(rt: HostRuntime) {
    let read = match integer(Words::of(b"-15 7")) {
        Some((number, rest)) => Some((number, rest.is_empty())),
        None => None,
    };
    assert_eq!(rt; read, Some((-15, false)));
}

/// The memory of the octets, or of what is printed, may be refused.
#[test]
fn octets_or_out_of_memory(rt: HostRuntime) {
    let line = "OCTET STRING 466f67";
    let mut found = prints(rt.alloc(), line, Some(line));
    for _ in 0..4 {
        if found.is_err() {
            found = prints(rt.alloc(), line, Some(line));
        }
    }
    assert_eq!(rt; found.ok(), Some(true));
}
