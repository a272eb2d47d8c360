//! Fonts by their values: two fonts of a sign, and each fault with its line.

use dms_face_font::{Font, FontFault, FontFaultKind, Glyph};
use std::alloc::{AllocError, Global};
use std::process::Abort;
use std::test::Fail;

const TALL: &[u8] = b"font 1 height 7 space 1 line 1 version 0001
glyph 49 2 7554
glyph 65 5 7463f8c620
glyph 66 5 f463e8c7c0
glyph 91 3 f24938
glyph 93 3 e49278
";

const SMALL: &[u8] =
    b"# a font of one character\r\n\r\nfont 2 height 5 space 1 line 1 version 0002\r\nglyph 65 3 57da";

/// A font without characters, with the largest numbers.
const BARE: &[u8] = b"font 255 height 00032 space 0 line 32 version aBcD";

const MIXED: &[u8] = b"font 1 height 8 space 1 line 1 version 0001
glyph 300 1 ff
glyph 7 1 ff
glyph 255 1 ff
glyph 256 1 ff
glyph 1 1 ff
glyph 65535 1 ff
";

/// The example of the crate's page.
#[test]
fn a_glyph_reads_the_cells_of_its_text(rt: HostRuntime) -> Result<(), Fail> {
    let font = Font::from_text(
        rt.alloc(),
        b"font 2 height 5 space 1 line 1 version 0002\nglyph 65 3 57da",
    )?;
    let a = font.glyph(65).ok_or("no glyph")?;
    assert_eq!(rt;
        (
            (a.width(), a.height()),
            (a.is_lit(1, 0), a.is_lit(0, 0)),
            (a.row(0), a.row(1), a.row(5))
        ),
        ((3, 5), (true, false), (0b010, 0b101, 0))
    );
    Ok(())
}

/// Asserts the octets of the picture of character 65 in a font of height 5.
fn check_bitmap(rt: &impl Abort, alloc: Global, glyph: &[u8], octets: &[u8]) -> Result<(), Fail> {
    let header = b"font 2 height 5 space 1 line 1 version 0002";
    let mut font = Font::from_header(alloc, header).ok_or("no header")?;
    font.add_glyph(alloc, glyph)?;
    let a = font.glyph(65).ok_or("no glyph")?;
    assert_eq!(rt; a.bitmap(), octets);
    Ok(())
}

/// What stands after the last of 15, 5, 10 or 40 bits is no part of a picture.
#[test]
fn octets_of_a_picture_end_in_zeros(rt: HostRuntime) -> Result<(), Fail> {
    check_bitmap(&rt, rt.alloc(), b"glyph 65 3 57da", &[0x57, 0xda])?;
    check_bitmap(&rt, rt.alloc(), b"glyph 65 3 57db", &[0x57, 0xda])?;
    check_bitmap(&rt, rt.alloc(), b"glyph 65 1 ff", &[0xf8])?;
    check_bitmap(&rt, rt.alloc(), b"glyph 65 2 ffff", &[0xff, 0xc0])?;
    check_bitmap(&rt, rt.alloc(), b"glyph 65 8 0102030405", &[1, 2, 3, 4, 5])
}

/// The number of a text's font, its height, its spacings between characters and between lines, its version, and how
/// many characters it has.
fn header(alloc: Global, text: &[u8]) -> Result<(u8, u8, u8, u8, u16, usize), FontFault> {
    let font = Font::from_text(alloc, text)?;
    Ok((
        font.number(),
        font.height(),
        font.character_spacing(),
        font.line_spacing(),
        font.version(),
        font.glyphs().len(),
    ))
}

#[test]
fn a_font_has_what_its_first_line_says(rt: HostRuntime) {
    for (text, read) in [
        (TALL, (1, 7, 1, 1, 1, 5)),
        (SMALL, (2, 5, 1, 1, 2, 1)),
        (BARE, (255, 32, 0, 32, 0xabcd, 0)),
        (MIXED, (1, 8, 1, 1, 1, 6)),
    ] {
        assert_eq!(rt; header(rt.alloc(), text), Ok(read));
    }
}

/// A character and the columns of its picture, where a text's font has it.
fn found(alloc: Global, text: &[u8], character: u16) -> Result<Option<(u16, u8)>, FontFault> {
    let font = Font::from_text(alloc, text)?;
    match font.glyph(character) {
        Some(glyph) => Ok(Some((glyph.character(), glyph.width()))),
        None => Ok(None),
    }
}

/// A character is found wherever it stands, above 255 too, and none where the font has it not.
#[test]
fn characters_are_found(rt: HostRuntime) {
    for (text, character, width) in [
        (TALL, 49, Some(2)),
        (TALL, 65, Some(5)),
        (TALL, 66, Some(5)),
        (TALL, 91, Some(3)),
        (TALL, 93, Some(3)),
        (TALL, 67, None),
        (SMALL, 65, Some(3)),
        (BARE, 65, None),
        (MIXED, 300, Some(1)),
        (MIXED, 7, Some(1)),
        (MIXED, 255, Some(1)),
        (MIXED, 256, Some(1)),
        (MIXED, 1, Some(1)),
        (MIXED, 65535, Some(1)),
        (MIXED, 0, None),
        (MIXED, 2, None),
        (MIXED, 254, None),
        (MIXED, 257, None),
        (MIXED, 65534, None),
    ] {
        let glyph = match width {
            Some(width) => Some((character, width)),
            None => None,
        };
        assert_eq!(rt; found(rt.alloc(), text, character), Ok(glyph));
    }
}

/// A picture, and a column and a row outside of it.
fn drawing(alloc: Global, glyph: &Glyph) -> Result<String, AllocError> {
    let mut text = String::new(alloc);
    for row in 0..=usize::from(glyph.height()) {
        for column in 0..=usize::from(glyph.width()) {
            text.push(if glyph.is_lit(column, row) { '9' } else { '.' })?;
        }
        text.push('\n')?;
    }
    Ok(text)
}

/// The picture of an A, and a column and a row outside of it, where nothing is lit.
fn drawn(alloc: Global, text: &[u8]) -> Option<String> {
    let font = Font::from_text(alloc, text).ok()?;
    drawing(alloc, font.glyph(65)?).ok()
}

#[test]
fn a_glyph_is_drawn_as_its_picture(rt: HostRuntime) -> Result<(), Fail> {
    for (text, picture) in [
        (
            TALL,
            ".999..\n9...9.\n9...9.\n99999.\n9...9.\n9...9.\n9...9.\n......\n",
        ),
        (SMALL, ".9..\n9.9.\n999.\n9.9.\n9.9.\n....\n"),
    ] {
        let drawn = drawn(rt.alloc(), text).ok_or("no picture")?;
        assert_eq!(rt; drawn.as_str(), picture);
    }
    Ok(())
}

/// The fault of a text and more after it.
fn fault_of(alloc: Global, text: &str, more: &str) -> Result<Option<FontFault>, Fail> {
    let both = format!(in alloc; "{text}{more}")?;
    Ok(Font::from_text(alloc, both.as_bytes()).err())
}

/// Asserts that a text and more after it have this fault.
fn check_fault(
    rt: &impl Abort,
    alloc: Global,
    text: &str,
    more: &str,
    wanted: FontFault,
) -> Result<(), Fail> {
    let fault = fault_of(alloc, text, more)?;
    assert_eq!(rt; fault, Some(wanted), "in {text:?}, {more:?}");
    Ok(())
}

/// A font of one character, in two lines.
const ONE: &str = "font 1 height 7 space 1 line 1 version 0001\nglyph 65 5 7463f8c620\n";

/// Texts whose font has no header, and the line of the fault.
const NO_HEADERS: [(&str, usize); 9] = [
    ("", 1),
    ("# nothing else\n\n", 3),
    ("glyph 65 5 7463f8c620\n", 1),
    ("\nfont 0 height 7 space 1 line 1 version 0001\n", 2),
    ("font 1 height 33 space 1 line 1 version 0001\n", 1),
    ("font 1 height 7 space 33 line 1 version 0001\n", 1),
    ("font 1 height 7 space 1 line 1 version 001\n", 1),
    ("font 1 height 7 space 1 line 1 version 0001 \n", 1),
    ("font 000001 height 7 space 1 line 1 version 0001\n", 1),
];

/// Lines after a font of one character, the fault, and its line.
const BAD_GLYPHS: [(&str, FontFaultKind, usize); 13] = [
    ("glyph 65 5\n", FontFaultKind::Glyph, 3),
    ("glyph 0 5 7463f8c620\n", FontFaultKind::Glyph, 3),
    ("glyph 65536 5 7463f8c620\n", FontFaultKind::Glyph, 3),
    ("#\n\nglyph 66 33 00\n", FontFaultKind::Glyph, 5),
    ("glyph 66 5  7463f8c620\n", FontFaultKind::Glyph, 3),
    ("glyph 66 5 \n", FontFaultKind::Glyph, 3),
    (
        "font 2 height 7 space 1 line 1 version 0001\n",
        FontFaultKind::Glyph,
        3,
    ),
    ("glyph 66 5 7463f8c6\n", FontFaultKind::Bitmap, 3),
    ("glyph 66 5 7463f8c62000\n", FontFaultKind::Bitmap, 3),
    ("glyph 66 5 7463f8c62g\n", FontFaultKind::Bitmap, 3),
    ("glyph 66 5 -", FontFaultKind::Bitmap, 3),
    ("glyph 65 2 7554\n", FontFaultKind::Twice, 3),
    ("glyph 65 5 00\n", FontFaultKind::Bitmap, 3),
];

#[test]
fn faults_of_a_font(rt: HostRuntime) -> Result<(), Fail> {
    let kind = FontFaultKind::Header;
    for (text, line) in NO_HEADERS {
        check_fault(&rt, rt.alloc(), text, "", FontFault { kind, line })?;
    }
    for (more, kind, line) in BAD_GLYPHS {
        check_fault(&rt, rt.alloc(), ONE, more, FontFault { kind, line })?;
    }
    Ok(())
}

/// With any allocation refused, that call answers out of memory, and the same call with memory gives the font.
#[test]
fn font_or_out_of_memory(rt: HostRuntime) {
    let out_of_memory = FontFault {
        kind: FontFaultKind::Memory,
        line: 0,
    };
    let mut refused = false;
    for _ in 0..2 {
        match Font::from_text(rt.alloc(), TALL) {
            Ok(font) => {
                let lit = match font.glyph(66) {
                    Some(glyph) => glyph.is_lit(0, 0),
                    None => false,
                };
                assert_eq!(rt;
                    (font.number(), font.height(), font.glyphs().len(), lit),
                    (1, 7, 5, true)
                );
            }
            Err(fault) => {
                assert_eq!(rt; (fault, refused), (out_of_memory, false));
                refused = true;
            }
        }
    }
}

/// The fault of the first try to add a character, and how many characters the font has after it and in the end.
type Grown = (Option<FontFaultKind>, usize, usize);

/// Adds a character, again where that was refused.
fn grown(font: &mut Font, alloc: Global, character: &[u8]) -> Result<Grown, FontFaultKind> {
    let fault = font.add_glyph(alloc, character).err();
    let count = font.glyphs().len();
    if fault.is_some() {
        font.add_glyph(alloc, character)?;
    }
    Ok((fault, count, font.glyphs().len()))
}

/// Adds two characters to a font that has none, where both are found then.
fn grown_twice(alloc: Global) -> Option<[Grown; 2]> {
    let mut font = Font::from_header(alloc, b"font 2 height 5 space 1 line 1 version 0002")?;
    let first = grown(&mut font, alloc, b"glyph 65 3 57da").ok()?;
    let second = grown(&mut font, alloc, b"glyph 66 3 57da").ok()?;
    if font.glyph(65).is_some() && font.glyph(66).is_some() {
        Some([first, second])
    } else {
        None
    }
}

/// A character that is added: where its memory is refused, which is once at most, the font is as it was.
#[test]
fn character_or_out_of_memory(rt: HostRuntime) {
    let refused = Some(FontFaultKind::Memory);
    let found = grown_twice(rt.alloc());
    assert!(rt;
        found == Some([(None, 1, 1), (None, 2, 2)])
            || found == Some([(refused, 0, 1), (None, 2, 2)])
            || found == Some([(None, 1, 1), (refused, 1, 2)]),
        "{found:?}"
    );
}

/// The fault of a font of all characters from 1 to before one, and of more after them.
fn fault_of_many(alloc: Global, past: u16, more: &str) -> Result<Option<FontFault>, Fail> {
    let mut text = String::from_str(alloc, "font 1 height 8 space 1 line 1 version 0001\n")?;
    for character in 1..past {
        write!(text, "glyph {character} 1 ff\n")?;
    }
    fault_of(alloc, text.as_str(), more)
}

/// A font has 255 characters at most.
#[test]
fn a_font_has_255_characters_at_most(rt: HostRuntime) -> Result<(), Fail> {
    let twice = Some(FontFault {
        kind: FontFaultKind::Twice,
        line: 257,
    });
    let many = Some(FontFault {
        kind: FontFaultKind::TooMany,
        line: 257,
    });
    for (past, more, fault) in [
        (256, "", None),
        (256, "glyph 1 1 ff", twice),
        (256, "glyph 1 1 ff\nglyph 256 1 ff", twice),
        (257, "", many),
    ] {
        assert_eq!(rt; fault_of_many(rt.alloc(), past, more)?, fault);
    }
    Ok(())
}

#[test]
fn a_fault_of_a_font_has_its_number(rt: HostRuntime) {
    assert_eq!(rt;
        (
            FontFaultKind::Header.number(),
            FontFaultKind::Memory.number()
        ),
        (1, 6)
    );
}
