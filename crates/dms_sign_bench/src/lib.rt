//! The bench sign by its values, for the tests and measures of crates that stand below dms_sign_text, where it is a
//! text: 23 columns, 14 rows, two fonts, a permanent row `B`, two changeable rows and a volatile one; and scripts of
//! what is handed to it, and its state.
//!
//! ```
//! let face = face(alloc)?;
//! let table = Table::new(alloc, stock(&[B]), &face)?;
//! assert_eq!(rt; table.row_count(memory::CHANGEABLE), 2);
//! ```
#![tactic(auto)]

pub mod scripts;
pub mod states;

use dms_codes::Order;
use dms_face::{Defaults, Face, Font};
use dms_face_pages::Page;
use dms_table::{Permanent, Stock};
use std::alloc::{AllocError, Global};

/// Font 1: the characters `1`, `A`, `B`, `[`, `]`.
pub const TALL: &[u8] = b"font 1 height 7 space 1 line 1 version 0001
glyph 49 2 7554
glyph 65 5 7463f8c620
glyph 66 5 f463e8c7c0
glyph 91 3 f24938
glyph 93 3 e49278
";

/// Font 2: the character `A` alone.
pub const SMALL: &[u8] = b"font 2 height 5 space 1 line 1 version 0002
glyph 65 3 57da
";

/// What holds where a text says nothing else.
pub const DEFAULTS: Defaults = Defaults {
    background: 0,
    foreground: 9,
    flash_on: 5,
    flash_off: 5,
    font: 1,
    line: 3,
    page: 2,
    on: 30,
    off: 0,
};

/// The permanent row.
pub const B: Permanent<'static> = Permanent {
    text: b"B",
    owner: &[],
    beacon: 0,
    pixel: 0,
    priority: 100,
};

/// What is lit of a page with `A` alone: the digit of its colour, and a point where nothing is lit.
pub const PICTURE_OF_A: &str = "..........999..........
.........9...9.........
.........9...9.........
.........99999.........
.........9...9.........
.........9...9.........
.........9...9.........
.......................
.......................
.......................
.......................
.......................
.......................
.......................
";

/// The stock, with these permanent rows.
pub fn stock<'a>(permanent: &'a [Permanent<'a>]) -> Stock<'a> {
    Stock {
        permanent,
        changeable: 2,
        volatile: 1,
        beacon: true,
        pixel: false,
        order: Order::High,
    }
}

/// Another value of one of the defaults.
#[derive(Clone, Copy, Debug, PartialEq, Eq)]
pub enum Other {
    Background(u8),
    Foreground(u8),
    FlashOn(u8),
    FlashOff(u8),
    Font(u8),
    Line(u8),
    Page(u8),
    On(u8),
    Off(u8),
}

/// The defaults, but for these.
pub fn defaults_with(others: &[Other]) -> Defaults {
    let mut defaults = DEFAULTS;
    for other in others {
        match *other {
            Other::Background(colour) => defaults.background = colour,
            Other::Foreground(colour) => defaults.foreground = colour,
            Other::FlashOn(tenths) => defaults.flash_on = tenths,
            Other::FlashOff(tenths) => defaults.flash_off = tenths,
            Other::Font(number) => defaults.font = number,
            Other::Line(justification) => defaults.line = justification,
            Other::Page(justification) => defaults.page = justification,
            Other::On(tenths) => defaults.on = tenths,
            Other::Off(tenths) => defaults.off = tenths,
        }
    }
    defaults
}

/// The fonts that these texts spell.
pub fn fonts_of(alloc: Global, texts: &[&[u8]]) -> Result<Vec<Font>, &'static str> {
    let mut fonts = Vec::new(alloc);
    for text in texts {
        let font = Font::from_text(alloc, text).ok().ok_or("no font")?;
        fonts.push(font).ok().ok_or("no room for a font")?;
    }
    Ok(fonts)
}

/// The face.
pub fn face(alloc: Global) -> Result<Face, &'static str> {
    let fonts = fonts_of(alloc, &[TALL, SMALL])?;
    Face::new(23, 14, fonts, DEFAULTS).ok().ok_or("no face")
}

/// A page's rows: the digit of a lit cell's colour, and a point where nothing is lit.
pub fn drawing(alloc: Global, page: &Page) -> Result<String, AllocError> {
    let mut text = String::new(alloc);
    for y in 0..page.height() {
        for x in 0..page.width() {
            let cell = page.cell(x, y);
            if cell.lit {
                text.push(char::from(b'0' + cell.colour % 10))?;
            } else {
                text.push('.')?;
            }
        }
        text.push('\n')?;
    }
    Ok(text)
}
