//! What is said of descriptions that are refused.

mod cases;

use dms_sign_text::{BENCH, DescriptionFault, cause_of_line, description};
use std::alloc::{AllocError, Global};
use std::process::Abort;
use std::test::Fail;

/// What stands in the place of a line, where an edit changes it.
fn edited<'a>(edits: &'a str, line: &'a str) -> &'a str {
    for edit in edits.split(';') {
        if let Some((begun, new)) = edit.split_once('=')
            && line.starts_with(begun)
        {
            return new;
        }
    }
    line
}

/// The bench sign's description with these edits.
fn changed(alloc: Global, edits: &str) -> Result<String, AllocError> {
    let mut text = String::new(alloc);
    for line in BENCH.lines() {
        for part in edited(edits, line).split('/') {
            text.push_str(part)?;
            text.push_str("\n")?;
        }
    }
    Ok(text)
}

/// What is said of a text, and whether nothing is said of the lines beside the one that is refused.
fn said(alloc: Global, text: &str) -> Result<(String, bool), Fail> {
    let octets = text.as_bytes();
    let Err(DescriptionFault::Line(number)) = description(alloc, octets) else {
        return Ok((
            String::new(alloc),
            cause_of_line(alloc, octets, 1)?.is_none(),
        ));
    };
    let beside = cause_of_line(alloc, octets, number.saturating_sub(1))?.is_none()
        && cause_of_line(alloc, octets, number.saturating_add(1))?.is_none();
    match cause_of_line(alloc, octets, number)? {
        Some(cause) => Ok((format!(in alloc; "{number}: {cause}")?, beside)),
        None => Ok((String::new(alloc), beside)),
    }
}

/// Each of so many rows says what is said.
fn all_said(rt: &impl Abort, alloc: Global, rows: &str, count: usize) -> Result<(), Fail> {
    for row in rows.lines() {
        let (edits, wanted) = row.split_once('|').ok_or("no row")?;
        let text = changed(alloc, edits)?;
        let (words, beside) = said(alloc, text.as_str())?;
        assert_eq!(rt; (words.as_str(), beside), (wanted, true));
    }
    assert_eq!(rt; rows.lines().count(), count);
    Ok(())
}

#[test]
fn words_at_fault(rt: HostRuntime) -> Result<(), Fail> {
    all_said(&rt, rt.alloc(), cases::WORDS, 20)
}

#[test]
fn lines_that_may_not_stand(rt: HostRuntime) -> Result<(), Fail> {
    all_said(&rt, rt.alloc(), cases::LINES, 8)
}

#[test]
fn signs_that_can_not_be_made(rt: HostRuntime) -> Result<(), Fail> {
    all_said(&rt, rt.alloc(), cases::SIGNS, 17)
}

#[test]
fn rows_that_can_not_stand(rt: HostRuntime) -> Result<(), Fail> {
    all_said(&rt, rt.alloc(), cases::ROWS, 6)
}

/// So many times the same.
fn times(alloc: Global, count: usize, part: &str) -> Result<String, AllocError> {
    let mut text = String::new(alloc);
    for _ in 0..count {
        text.push_str(part)?;
    }
    Ok(text)
}

/// What is said of the bench sign's description with one edit of three parts.
fn said_of(alloc: Global, before: &str, long: &str, after: &str) -> Result<String, Fail> {
    let edit = format!(in alloc; "{before}{long}{after}")?;
    let text = changed(alloc, edit.as_str())?;
    Ok(said(alloc, text.as_str())?.0)
}

#[test]
fn too_long_and_too_many(rt: HostRuntime) -> Result<(), Fail> {
    let alloc = rt.alloc();
    let octets = times(alloc, 513, "41")?;
    let text = said_of(alloc, "permanent=permanent ", octets.as_str(), " - 0 0 100")?;
    assert_eq!(rt;
        text.as_str(),
        "17: permanent row 1: its text is longer than 512 octets"
    );
    let owner = said_of(
        alloc,
        "permanent=permanent 42 ",
        octets.as_str(),
        " 0 0 100",
    )?;
    assert_eq!(rt;
        owner.as_str(),
        "17: permanent row 1: its owner is longer than 127 octets"
    );
    let rows = times(alloc, 17, "permanent 42 - 0 0 100/")?;
    let many = said_of(alloc, "permanent=", rows.as_str(), "#")?;
    assert_eq!(rt; many.as_str(), "34: there are more than 16 permanent rows");
    Ok(())
}

#[test]
fn a_font_with_too_many_characters_names_the_one(rt: HostRuntime) -> Result<(), Fail> {
    let alloc = rt.alloc();
    let mut lines = String::new(alloc);
    for character in 1000..1252u16 {
        let line = format!(in alloc; "glyph {character} 3 57da/")?;
        lines.push_str(line.as_str())?;
    }
    let said = said_of(
        alloc,
        "glyph 65 3=",
        lines.as_str(),
        "glyph 1 3 57da/glyph 2 3 57da/glyph 3 3 57da/glyph 4 3 57da",
    )?;
    assert_eq!(rt; said.as_str(), "271: more than 255 characters");
    Ok(())
}

/// Of the bench sign's own description nothing is said.
#[test]
fn nothing_is_said_of_a_sign(rt: HostRuntime) -> Result<(), Fail> {
    let (words, none) = said(rt.alloc(), BENCH)?;
    assert_eq!(rt; (words.as_str(), none), ("", true));
    Ok(())
}
