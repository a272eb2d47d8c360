//! Talks with a central system.

mod cases;

use crate::bad_lines::BAD_LINES;
use dms_centre::{Centre, Settings};
use dms_centre_lines::answer;
use dms_codes::Order;
use std::alloc::{AllocError, Global};
use std::test::Fail;

const NEW: &[u8] = b"idle\nlast none\nok\n";

fn centre(alloc: Global, first: u32) -> Result<Centre, &'static str> {
    let settings = Settings {
        community: b"admin",
        order: Order::High,
    };
    match Centre::new(alloc, settings, first) {
        Ok(centre) => Ok(centre),
        Err(_) => Err("no central system"),
    }
}

/// The answer to a line; where there was no memory for it, it is handed once more.
fn answered(alloc: Global, centre: &mut Centre, line: &[u8]) -> Result<Vec<u8>, AllocError> {
    match answer(alloc, centre, line) {
        Ok(text) => Ok(text),
        Err(_) => answer(alloc, centre, line),
    }
}

/// What of a talk is left after the answer to this line, which it begins with.
fn after_answer<'a>(
    alloc: Global,
    centre: &mut Centre,
    line: &[u8],
    talk: &'a [u8],
) -> Result<&'a [u8], &'static str> {
    match answered(alloc, centre, line) {
        Ok(text) => talk.strip_prefix(text.as_slice()).ok_or("another answer"),
        Err(_) => Err("no answer"),
    }
}

/// What of a talk is left after a line, which it begins with.
fn after_line<'a>(talk: &'a [u8], line: &str) -> Result<&'a [u8], &'static str> {
    talk.get(line.len().saturating_add(1)..).ok_or("no answer")
}

/// A new central system talks so.
fn check_talk(alloc: Global, first: u32, talk: &str) -> Result<(), &'static str> {
    let mut centre = centre(alloc, first)?;
    let mut rest = talk.as_bytes();
    for line in talk.lines() {
        if line.starts_with("# ") {
            rest = after_line(rest, line)?;
        } else if let Some(asked) = line.strip_prefix("> ") {
            let left = after_line(rest, line)?;
            rest = after_answer(alloc, &mut centre, asked.as_bytes(), left)?;
        }
    }
    if rest.is_empty() {
        Ok(())
    } else {
        Err("a shorter talk")
    }
}

#[test]
fn refused_or_out_of_memory(rt: HostRuntime) -> Result<(), Fail> {
    check_talk(rt.alloc(), 1, cases::REFUSED)?;
    Ok(check_talk(rt.alloc(), 2_147_483_648, cases::USED_UP)?)
}

#[test]
fn unanswered_or_out_of_memory(rt: HostRuntime) -> Result<(), Fail> {
    Ok(check_talk(rt.alloc(), 1, cases::UNANSWERED)?)
}

#[test]
fn published_or_out_of_memory(rt: HostRuntime) -> Result<(), Fail> {
    Ok(check_talk(rt.alloc(), 1, cases::PUBLISHED)?)
}

#[test]
fn outcomes_or_out_of_memory(rt: HostRuntime) -> Result<(), Fail> {
    Ok(check_talk(rt.alloc(), 1, cases::OUTCOMES)?)
}

fn answers(alloc: Global, centre: &mut Centre, line: &[u8], wanted: &[u8]) -> bool {
    match answered(alloc, centre, line) {
        Ok(text) => text.as_slice() == wanted,
        Err(_) => false,
    }
}

/// Whether a line is a bad one that is told why, after which the central system stands as a new one.
fn is_bad(alloc: Global, centre: &mut Centre, line: &str, wanted: &str) -> bool {
    answers(alloc, centre, line.as_bytes(), wanted.as_bytes())
        && answers(alloc, centre, b"status", NEW)
}

/// After each of them the central system stands as before.
#[test]
fn state_kept(rt: HostRuntime) -> Result<(), Fail> {
    let mut centre = centre(rt.alloc(), 1)?;
    for (line, wanted) in BAD_LINES.iter().chain(cases::BAD_LINES.iter()) {
        assert!(rt;
            is_bad(rt.alloc(), &mut centre, line, wanted),
            "of {line:?}"
        );
    }
    Ok(())
}
