//! Texts by their answers on a sign of 23 by 14 with two fonts, and a long text on the largest matrix.

use dms_face::{Face, MultiFault, MultiFaultCode, check, check_with};
use dms_sign_bench::{DEFAULTS, Other, SMALL, TALL, defaults_with, face, fonts_of};
use std::alloc::{AllocError, Global};
use std::process::Abort;
use std::test::Fail;

/// The number of pages, or the code's number and the place.
type Answer = Result<usize, (u8, usize)>;

fn answer(given: Result<usize, MultiFault>) -> Answer {
    match given {
        Ok(pages) => Ok(pages),
        Err(fault) => Err((fault.code.number(), fault.place)),
    }
}

fn check_text(rt: &impl Abort, face: &Face, text: &str, expected: Answer) {
    assert_eq!(rt; answer(check(face, text.as_bytes())), expected);
}

#[test]
fn texts_on_the_bench_sign(rt: HostRuntime) -> Result<(), Fail> {
    let face = face(rt.alloc())?;
    for (text, pages) in [
        ("", 1),
        ("[[A]]", 1),
        ("AAAA", 1),
        ("[nl][fo2]A", 1),
        ("A[np]A[np]A[np]A[np]A[np]A", 6),
        ("[jl2]AAA[jl4]A", 1),
        ("[jl3][jl2]A", 1),
        ("[jp2]A[jp4]A", 1),
        ("[fl]A[/fl]A", 1),
        ("[fo2,0002]AAAAAA", 1),
    ] {
        check_text(&rt, &face, text, Ok(pages));
    }
    for (text, code, place) in [
        ("[NL03]", 5, 6),
        ("AAA[[1", 5, 5),
        ("[nl]A", 5, 4),
        ("A[np]A[np]A[np]A[np]A[np]A[np]A", 12, 26),
        ("[jl3]A[jl2]A", 11, 6),
        ("[tr1,1,5,5]", 3, 0),
        ("[cf255,0,0]", 4, 0),
        ("[jl2]AAA[jl4]AA", 5, 14),
        ("[jp2]A[jp3]A", 5, 11),
        ("[jp4]A[jp2]A", 11, 6),
        ("[fo3]A", 6, 0),
        ("[fo2,0001]A", 13, 0),
        ("A[fo2]B", 7, 6),
        ("AAAAA]", 5, 4),
        ("AAAA]", 3, 4),
    ] {
        check_text(&rt, &face, text, Err((code, place)));
    }
    Ok(())
}

/// The answer under these defaults, where they fit.
fn answer_with(face: &Face, others: &[Other], text: &str) -> Option<Answer> {
    let defaults = defaults_with(others);
    if defaults.fits(face) {
        Some(answer(check_with(face, &defaults, text.as_bytes())))
    } else {
        None
    }
}

fn check_text_with(rt: &impl Abort, face: &Face, others: &[Other], text: &str, expected: Answer) {
    assert_eq!(rt; answer_with(face, others, text), Some(expected));
}

#[test]
fn other_defaults_hold(rt: HostRuntime) -> Result<(), Fail> {
    let face = face(rt.alloc())?;
    let small: &[Other] = &[Other::Font(2)];
    let right: &[Other] = &[Other::Line(4), Other::Page(4)];
    for (others, text, expected) in [
        (small, "[nl]A", Ok(1)),
        (small, "B", Err((7, 0))),
        (small, "[fo1]B[fo]A", Ok(1)),
        (right, "[jl2]A[jl]A", Ok(1)),
        (right, "A[jl3]A", Err((11, 1))),
        (right, "A[jp3]A", Err((11, 1))),
    ] {
        check_text_with(&rt, &face, others, text, expected);
    }
    Ok(())
}

/// One of the defaults is another: a text's answers under the sign's own and under these.
#[test]
fn a_check_follows_each_default(rt: HostRuntime) -> Result<(), Fail> {
    let face = face(rt.alloc())?;
    for (other, text, own, expected) in [
        (Other::Background(1), "[cb]A", Ok(1), Ok(1)),
        (Other::Foreground(4), "[cf]A", Ok(1), Ok(1)),
        (Other::FlashOn(7), "[fl]A", Ok(1), Ok(1)),
        (Other::FlashOff(8), "[fl]A", Ok(1), Ok(1)),
        (Other::Font(2), "[nl]A", Err((5, 4)), Ok(1)),
        (Other::Line(4), "A[jl3]A", Ok(1), Err((11, 1))),
        (Other::Page(4), "A[jp2]A", Ok(1), Err((11, 1))),
        (Other::On(40), "[pt]A", Ok(1), Ok(1)),
        (Other::Off(2), "[pt]A", Ok(1), Ok(1)),
    ] {
        check_text(&rt, &face, text, own);
        check_text_with(&rt, &face, &[other], text, expected);
    }
    Ok(())
}

const NARROW: &[u8] = b"font 3 height 7 space 0 line 0 version 0003
glyph 65 1 fe
";

const WIDE: &[u8] = b"font 4 height 8 space 2 line 2 version 0004
glyph 65 4 96f99999
";

/// Eleven lines of 46 octets on two pages, in four fonts in turn, and after them so many characters.
fn long_text(alloc: Global, more: usize) -> Result<Vec<u8>, AllocError> {
    let mut text = Vec::new(alloc);
    for line in 0..11 {
        text.extend_from_slice(match line % 4 {
            0 => b"[fo1]",
            1 => b"[fo2]",
            2 => b"[fo3]",
            _ => b"[fo4]",
        })?;
        for _ in 0..37 {
            text.push(b'A')?;
        }
        text.extend_from_slice(if line == 7 { b"[np]" } else { b"[nl]" })?;
    }
    for _ in 0..more {
        text.push(b'A')?;
    }
    Ok(text)
}

/// How many octets the long text with so many more characters has, and the answer to it.
fn answer_of_long(alloc: Global, more: usize) -> Result<(usize, Answer), Fail> {
    let fonts = fonts_of(alloc, &[TALL, SMALL, NARROW, WIDE])?;
    let face = Face::new(256, 64, fonts, DEFAULTS)?;
    let text = long_text(alloc, more)?;
    Ok((text.len(), answer(check(&face, text.as_slice()))))
}

#[test]
fn a_text_has_512_octets_at_most(rt: HostRuntime) -> Result<(), Fail> {
    for (more, octets, expected) in [(6, 512, Ok(2)), (7, 513, Err((5, 512)))] {
        assert_eq!(rt; answer_of_long(rt.alloc(), more)?, (octets, expected));
    }
    Ok(())
}

#[test]
fn a_fault_as_text(rt: HostRuntime) -> Result<(), Fail> {
    let fault = MultiFault {
        code: MultiFaultCode::TagConflict,
        place: 6,
    };
    let text = format!(in rt.alloc(); "{fault}")?;
    assert_eq!(rt; text.as_str(), "tag conflict at octet 6");
    Ok(())
}
