//! The bench sign by its values, and at which line bad descriptions are at fault.

use dms_codes::Order;
use dms_sign_text::{BENCH, DescriptionFault, Setup, bench_setup, description, sign_of_lines};
use dms_text::Lines;
use std::alloc::{AllocError, Global};
use std::test::Fail;

/// The description of the bench sign with this text in place of one line.
fn with_line(alloc: Global, place: usize, text: &str) -> Result<String, AllocError> {
    let mut changed = String::new(alloc);
    for (index, line) in BENCH.lines().enumerate() {
        changed.push_str(if index + 1 == place { text } else { line })?;
        changed.push('\n')?;
    }
    Ok(changed)
}

/// The fault of the description with this text in place of one line, if it is at fault.
fn fault_with(
    alloc: Global,
    place: usize,
    text: &str,
) -> Result<Option<DescriptionFault>, AllocError> {
    let changed = with_line(alloc, place, text)?;
    Ok(description(alloc, changed.as_bytes()).err())
}

/// A line of the bench sign's description, another text, and the line of the fault.
static FIRST_LINES: [(usize, &str, usize); 20] = [
    (1, "size 23", 1),
    (1, "size 23 14 1", 1),
    (1, "size +5 14", 1),
    (1, "size 000023 14", 1),
    (1, "size 65536 14", 1),
    (1, "size  23 14", 1),
    (1, "size 23 14 ", 1),
    (1, "# none", 2),
    (1, "size 257 14", 17),
    (2, "communities public", 2),
    (2, "communities admin admin", 17),
    (3, "rows 256 1", 3),
    (3, "order high", 3),
    (3, "rows 65 1", 17),
    (4, "order low", 4),
    (5, "has 2 0", 5),
    (6, "defaults 0 9 5 5 1 3 2 30", 6),
    (6, "defaults 0 9 5 256 1 3 2 30 0", 6),
    (6, "defaults 0 9 5 5 3 3 2 30 0", 17),
    (7, "first 4294967296", 7),
];

static LAST_LINES: [(usize, &str, usize); 19] = [
    (7, "first 00000000001", 7),
    (8, "permanent 4 - 0 0 100", 8),
    (8, "permanent 42 - 0 0 256", 8),
    (8, "permanent 42 0 0 100", 8),
    (8, "permanent 42 - 0 1 100", 17),
    (8, "permanent 5b - 0 0 100", 17),
    (9, "font 0 height 7 space 1 line 1 version 0001", 9),
    (9, "# no font", 10),
    (10, "glyph 49 2 75", 10),
    (10, "glyph 49 2 7g54", 10),
    (11, "glyph 49 2 7554", 11),
    (12, "glyph 66 33 f463e8c7c0", 12),
    (15, "font 1 height 5 space 1 line 1 version 0002", 17),
    (16, "permanent 42 - 0 0 100", 16),
    (17, "END", 17),
    (17, "end ", 17),
    (17, "# no end", 18),
    (17, "end\n\nend", 19),
    (17, "font 3 height 5 space 1 line 1 version 0\nend", 17),
];

/// The same, a case a line: which line, the line of the fault, the other text.
const OTHER_LINES: &str = "1 1 size
1 1 Size 23 14
1 1 size 23 -14
1 17 size 0 14
1 17 size 23 0
1 17 size 23 65
2 3 # none
2 2 communities public admin operator
2 17 communities aaaaaaaaaaaaaaaaaaaaaaaaaaaaaaaaa admin
2 17 communities public aaaaaaaaaaaaaaaaaaaaaaaaaaaaaaaaa
3 4 # none
3 3 rows 2
3 3 rows 2 1 0
3 3 rows two 1
3 3 rows 2 256
3 17 rows 2 17
4 5 # none
4 4 order
4 4 order High
4 4 order high swapped
5 6 # none
5 5 has 1
5 5 has 1 2
5 5 has 1 0 0
6 7 # none
6 6 defaults 0 9 5 5 1 3 2 30 0 0
6 6 defaults 256 9 5 5 1 3 2 30 0
6 6 defaults 0 256 5 5 1 3 2 30 0
6 6 defaults 0 9 256 5 1 3 2 30 0
6 6 defaults 0 9 5 5 1 3 2 256 0
6 6 defaults 0 9 5 5 1 3 2 30 256
6 17 defaults 10 9 5 5 1 3 2 30 0
6 17 defaults 0 10 5 5 1 3 2 30 0
6 17 defaults 0 9 5 5 0 3 2 30 0
6 17 defaults 0 9 5 5 2 3 2 30 0
6 17 defaults 0 9 5 5 1 1 2 30 0
6 17 defaults 0 9 5 5 1 5 2 30 0
6 17 defaults 0 9 5 5 1 3 1 30 0
6 17 defaults 0 9 5 5 1 3 5 30 0
7 8 # none
7 7 first
7 7 first 1 1
7 7 first -1
8 8 permanent
8 8 permanent 4g - 0 0 100
8 8 permanent 42 4 0 0 100
8 8 permanent 42 - 256 0 100
8 8 permanent 42 - 0 256 100
8 8 permanent 42 - 0 0
8 8 permanent 42 - 0 0 100 1
8 17 permanent 43 - 0 0 100
8 17 permanent 42 - 2 0 100
8 17 permanent 42 - 0 2 100
8 17 permanent 42 - 0 0 0
9 9 font 256 height 7 space 1 line 1 version 0001
9 9 font 1 height 0 space 1 line 1 version 0001
9 9 font 1 height 33 space 1 line 1 version 0001
9 9 font 1 height 7 space 33 line 1 version 0001
9 9 font 1 height 7 space 1 line 33 version 0001
9 9 font 1 height 7 space 1 line 1 version 00010
9 9 font 1 height 7 space 1 line 1 version 000g
9 9 font 1 height 7 space 1 line 1
9 9 font 1 height 7 line 1 space 1 version 0001
10 10 glyph 0 2 7554
10 10 glyph 65536 2 7554
10 10 glyph 49 0 7554
10 10 glyph 49 2 755400
10 10 glyph 49 2 -
10 10 glyph 49 2
10 10 glyph 49 2 7554 0
15 16 # no second font
17 17 end end
17 17 sign-tick";

/// Which line, the line of the fault, and the other text.
fn case_of(case: &str) -> Option<(usize, usize, &str)> {
    let (place, rest) = case.split_once(' ')?;
    let (number, line) = rest.split_once(' ')?;
    Some((place.parse().ok()?, number.parse().ok()?, line))
}

#[test]
fn wrong_line_told(rt: HostRuntime) -> Result<(), Fail> {
    for cases in [FIRST_LINES.as_slice(), LAST_LINES.as_slice()] {
        for (place, line, number) in cases {
            let fault = fault_with(rt.alloc(), *place, line)?;
            assert_eq!(rt; fault, Some(DescriptionFault::Line(*number)), "of {line:?}");
        }
    }
    for case in OTHER_LINES.lines() {
        let (place, number, line) = case_of(case).ok_or("no case")?;
        let fault = fault_with(rt.alloc(), place, line)?;
        assert_eq!(rt; fault, Some(DescriptionFault::Line(number)), "of {line:?}");
    }
    Ok(())
}

/// The bench sign with another line at the ends of the ranges.
#[test]
fn a_number_at_the_end_of_its_range_is_taken(rt: HostRuntime) -> Result<(), Fail> {
    for (place, line) in [
        (1, "size 00256 00064"),
        (2, "communities a aaaaaaaaaaaaaaaaaaaaaaaaaaaaaaaa"),
        (3, "rows 64 16"),
        (3, "rows 0 0"),
        (5, "has 1 1"),
        (6, "defaults 9 9 255 255 1 4 4 255 255"),
        (6, "defaults 0 0 0 0 1 2 2 0 0"),
        (7, "first 4294967295"),
        (7, "first 0000000000"),
        (8, "# no permanent row"),
        (8, "permanent - 00FF 1 0 255"),
        (9, "font 001 height 7 space 32 line 32 version FFff"),
        (
            16,
            "glyph 65535 32 ffffffffffffffffffffffffffffffffffffffff",
        ),
        (16, "# no glyph"),
        (17, "end\r\n\n# nothing more"),
    ] {
        assert_eq!(rt; fault_with(rt.alloc(), place, line)?, None, "of {line:?}");
    }
    Ok(())
}

/// The fault with so many rows after the first.
fn fault_of_rows(alloc: Global, more: usize) -> Result<Option<DescriptionFault>, AllocError> {
    let mut rows = String::new(alloc);
    rows.push_str("permanent 42 - 0 0 100")?;
    for _ in 0..more {
        rows.push_str("\npermanent 42 - 0 0 100")?;
    }
    fault_with(alloc, 8, rows.as_str())
}

const MORE_FONTS: &str = "font 3 height 5 space 1 line 1 version 0001
font 4 height 5 space 1 line 1 version 0001
font 5 height 5 space 1 line 1 version 0001
end";

/// With a 17th permanent row or a fifth font the fault is at `end`, as the sign with them cannot be made.
#[test]
fn a_row_or_font_too_many_is_a_fault_at_the_end(rt: HostRuntime) {
    assert_eq!(rt;
        (
            fault_of_rows(rt.alloc(), 15),
            fault_of_rows(rt.alloc(), 16),
            fault_with(rt.alloc(), 17, MORE_FONTS)
        ),
        (
            Ok(None),
            Ok(Some(DescriptionFault::Line(33))),
            Ok(Some(DescriptionFault::Line(20)))
        )
    );
}

/// Width, height, fonts, how long a page is on, and glyphs of font 1.
fn face_of(setup: &Setup) -> (u16, u16, usize, u8, Option<usize>) {
    let face = setup.sign.face();
    let glyphs = match face.font(1) {
        Some(tall) => Some(tall.glyphs().len()),
        None => None,
    };
    (
        face.width(),
        face.height(),
        face.fonts().len(),
        face.defaults().on,
        glyphs,
    )
}

#[test]
fn the_bench_sign_is_as_its_description_says(rt: HostRuntime) -> Result<(), Fail> {
    let setup = bench_setup(rt.alloc())?;
    assert_eq!(rt;
        (
            face_of(&setup),
            setup.sign.writer(),
            setup.sign.order(),
            setup.first
        ),
        (
            (23, 14, 2, 30, Some(5)),
            b"admin".as_slice(),
            Order::High,
            1
        )
    );
    Ok(())
}

fn text_and_more(alloc: Global) -> Result<String, AllocError> {
    let changed = with_line(alloc, 7, "# the first number\r\n\nfirst 0004294967\r")?;
    let mut text = String::new(alloc);
    text.push_str("# a sign\n\n")?;
    text.push_str(changed.as_str())?;
    text.push_str("sign-tick")?;
    Ok(text)
}

/// The first number of a sign, the number of the line after it, and whether that line is this.
fn line_after(alloc: Global, text: &[u8], wanted: &[u8]) -> Option<(u32, usize, bool)> {
    let (setup, mut lines) = sign_of_lines(alloc, Lines::of(text)).ok()?;
    let line = lines.next_line()?;
    Some((setup.first, line.number, line.octets == wanted))
}

/// The lines after `end` are left, with their numbers; lines that are skipped may stand anywhere.
#[test]
fn first_lines_of_more(rt: HostRuntime) -> Result<(), Fail> {
    let text = text_and_more(rt.alloc())?;
    assert_eq!(rt;
        line_after(rt.alloc(), text.as_bytes(), b"sign-tick"),
        Some((4_294_967, 22, true))
    );
    Ok(())
}

fn is_bench_sign(setup: &Setup) -> bool {
    setup.first == 1 && setup.sign.face().fonts().len() == 2
}

/// Whether the sign that is described is the bench sign.
fn described(alloc: Global) -> Result<bool, DescriptionFault> {
    Ok(is_bench_sign(&description(alloc, BENCH.as_bytes())?))
}

/// The same, and the number of the line that was read last.
fn read(alloc: Global) -> Result<(bool, usize), DescriptionFault> {
    let (setup, lines) = sign_of_lines(alloc, Lines::of(BENCH.as_bytes()))?;
    Ok((is_bench_sign(&setup), lines.number()))
}

/// Whether the sign that is made is the bench sign.
fn made(alloc: Global) -> Result<bool, AllocError> {
    Ok(is_bench_sign(&bench_setup(alloc)?))
}

/// Each call answers the sign, or out of memory where `rt try --test --fail-alloc N` refuses it; the same call then
/// answers the sign.
#[test]
fn sign_or_out_of_memory(rt: HostRuntime) {
    let mut described_sign = described(rt.alloc());
    if described_sign == Err(DescriptionFault::Memory) {
        described_sign = described(rt.alloc());
    }
    let mut read_sign = read(rt.alloc());
    if read_sign == Err(DescriptionFault::Memory) {
        read_sign = read(rt.alloc());
    }
    let mut made_sign = made(rt.alloc());
    if made_sign.is_err() {
        made_sign = made(rt.alloc());
    }
    assert_eq!(rt;
        (described_sign, read_sign, made_sign),
        (Ok(true), Ok((true, 18)), Ok(true))
    );
}
