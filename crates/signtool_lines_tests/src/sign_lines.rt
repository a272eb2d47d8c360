//! The bench sign line by line, and the text of its pages.

mod cases;

use crate::bad_lines::BAD_LINES;
use dms_face_pages::{numbered_page, pages, pages_text};
use dms_replay::bench;
use dms_replay::fault::ReplayFault;
use dms_sign_bench::states::{NEW, with_lines};
use dms_sign_lines::answer;
use dms_sign_text::Setup;
use std::alloc::{AllocError, Global};
use std::test::Fail;

/// Each line of a talk that asks the bench sign, with its answer under it, and the lines of words.
fn answered(alloc: Global, talk: &str) -> Result<Vec<u8>, Fail> {
    let mut setup = bench(alloc)?;
    let mut found = Vec::new(alloc);
    for line in talk.lines() {
        if line.starts_with("# ") {
            put_line(&mut found, line)?;
        } else if let Some(asked) = line.strip_prefix("> ") {
            put_line(&mut found, line)?;
            let given = answer(alloc, &mut setup.sign, asked.as_bytes())?;
            found.extend_from_slice(given.as_slice())?;
        }
    }
    Ok(found)
}

fn put_line(talk: &mut Vec<u8>, line: &str) -> Result<(), AllocError> {
    talk.extend_from_slice(line.as_bytes())?;
    talk.extend_from_slice(b"\n")
}

/// Each line has the answer that stands under it.
#[test]
fn each_line_answered(rt: HostRuntime) -> Result<(), Fail> {
    for talk in [cases::TALK, cases::SECONDS] {
        let found = answered(rt.alloc(), talk)?;
        assert!(rt; found.as_slice() == talk.as_bytes());
    }
    Ok(())
}

/// `save` is answered with the state: as the sign is made, and without power while permanent 1 was shown.
#[test]
fn a_saved_state_is_the_sign_s(rt: HostRuntime) -> Result<(), Fail> {
    let lost = with_lines(rt.alloc(), NEW, &cases::LINES_WITHOUT_POWER)?;
    let (asked, told) = (cases::ACTIVATE, cases::ACCEPTED);
    let talk = format!(in rt.alloc();
        "> save\n{NEW}ok\n> {asked}\n{told}> tick\nok\n> power-lost\nok\n> save\n{lost}ok\n"
    )?;
    let found = answered(rt.alloc(), talk.as_str())?;
    assert!(rt; found.as_slice() == talk.as_bytes());
    Ok(())
}

fn has_answer(alloc: Global, setup: &mut Setup, line: &str, wanted: &str) -> bool {
    match answer(alloc, &mut setup.sign, line.as_bytes()) {
        Ok(found) => found.as_slice() == wanted.as_bytes(),
        Err(_) => false,
    }
}

/// A line that spells no call is a bad line, is told why, and changes nothing.
#[test]
fn nothing_changes(rt: HostRuntime) -> Result<(), Fail> {
    let mut setup = bench(rt.alloc())?;
    setup.sign.power_lost();
    for (line, answer) in BAD_LINES.iter().chain(cases::BAD_LINES.iter()) {
        let bad = has_answer(rt.alloc(), &mut setup, line, answer);
        let same = has_answer(rt.alloc(), &mut setup, "state", cases::STATE_WITHOUT_POWER);
        assert_eq!(rt; (bad, same), (true, true), "of {line:?}");
    }
    Ok(())
}

/// The text of the pages of a text on the bench sign.
fn text_of_pages(alloc: Global, text: &[u8]) -> Option<Vec<u8>> {
    let setup = bench(alloc).ok()?;
    let shown = pages(alloc, setup.sign.face(), text).ok()?;
    pages_text(alloc, shown.as_slice()).ok()
}

/// Two pages of other times and another background than the defaults, in two colours.
#[test]
fn two_pages_told(rt: HostRuntime) -> Result<(), Fail> {
    let found = text_of_pages(rt.alloc(), b"[cb3][pt5o2]1[np][fo2][cf1]A").ok_or("no pages")?;
    assert!(rt; found.as_slice() == cases::TWO_PAGES.as_bytes());
    Ok(())
}

/// The text of the second page of a text on the bench sign.
fn text_of_second_page(alloc: Global, text: &[u8]) -> Option<Vec<u8>> {
    let setup = bench(alloc).ok()?;
    let shown = pages(alloc, setup.sign.face(), text).ok()?;
    numbered_page(alloc, 2, shown.get(1)?).ok()
}

/// A page alone is what the text of all pages has of it.
#[test]
fn a_page_alone_is_what_all_pages_have_of_it(rt: HostRuntime) -> Result<(), Fail> {
    let text = b"[cb3][pt5o2]1[np][fo2][cf1]A";
    let found = text_of_second_page(rt.alloc(), text).ok_or("no page")?;
    let (found, all) = (found.as_slice(), cases::TWO_PAGES.as_bytes());
    assert_eq!(rt;
        (found.starts_with(b"page 2 "), all.ends_with(found)),
        (true, true)
    );
    Ok(())
}

/// A line has this answer, and this mode is shown after it; out of memory leaves the mode as it was, and the line is
/// handed once more.
fn check_answer(
    alloc: Global,
    setup: &mut Setup,
    line: &str,
    mode: u8,
    wanted: &str,
) -> Result<(), &'static str> {
    let before = setup.sign.shown().mode;
    let right = match answer(alloc, &mut setup.sign, line.as_bytes()) {
        Ok(found) => found.as_slice() == wanted.as_bytes(),
        Err(_) if setup.sign.shown().mode != before => return Err("another mode out of memory"),
        Err(_) => has_answer(alloc, setup, line, wanted),
    };
    if !right {
        Err("another answer")
    } else if setup.sign.shown().mode != mode {
        Err("another mode")
    } else {
        Ok(())
    }
}

fn bench_again(alloc: Global) -> Result<Setup, ReplayFault> {
    match bench(alloc) {
        Ok(setup) => Ok(setup),
        Err(_) => bench(alloc),
    }
}

/// Out of memory leaves the sign as it was; the same line then has its answer.
#[test]
fn answer_or_out_of_memory(rt: HostRuntime) -> Result<(), Fail> {
    let mut setup = bench_again(rt.alloc())?;
    for (line, mode, wanted) in [
        ("power-lost", 13, "ok\n"),
        ("power-back 7", 10, "ok\n"),
        ("tick", 10, "ok\n"),
        (cases::ACTIVATE, 8, cases::ACCEPTED),
        (
            "state",
            8,
            "shown 2 1 7502 mode 8 priority 100 remaining 65535 text 42\nok\n",
        ),
        ("tock", 8, "bad line no call begins with this word\n"),
    ] {
        let checked = check_answer(rt.alloc(), &mut setup, line, mode, wanted);
        assert_eq!(rt; checked, Ok(()), "of {line}");
    }
    Ok(())
}
