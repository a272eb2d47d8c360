//! Measures of the libraries, for the program of measures/: each export does one thing `times` times over the octets of
//! a datagram or a text, and returns a sum of what came out, so that nothing of the work can be left away.
//!
//! ```c
//! uint64_t dms_measures_script_report(const uint8_t *script, size_t size, uint32_t times);
//! ```
#![tactic(auto)]

pub mod agent;
pub mod answers;
pub mod centre;
pub mod scripts;
pub mod sign;
pub mod still;

ghost use Rattle.std.specs.Prelude.{◌≡◌, ◌<◌};
ghost use Rattle.dms_wire.specs.Message.{SnmpMessage};
ghost use Rattle.dms_wire.specs.Spelling.{Spells};

use dms_codes::crc;
use dms_face::{Cell, Face, Font, check};
use dms_face_pages::{Page, pages};
use dms_sign_bench::DEFAULTS;
use dms_text::Lines;
use dms_wire::{Bind, MAX_BINDINGS, MAX_DATAGRAM, MessageParts, Oid, Out, Value, read, write};
use std::alloc::Global;
use std::array;

/// Reads the datagram, and sums its request-ids up to their signs.
#[unsafe(no_mangle)]
pub extern "C" fn dms_measures_read(datagram: &[u8], times: u32) -> u64
    ensures { ((m : SnmpMessage) → Spells m datagram.now → ⊥) → result ≡ 0 }
{
    let mut sum = 0_u64;
    for _ in 0..times {
        if let Ok(message) = read(datagram) {
            sum = sum.wrapping_add(message.request.unsigned_abs());
        }
    }
    sum
}

/// A number that depends on all that a value holds.
fn weight(value: &Value<'_>) -> u64 {
    match value {
        Value::Integer(number) => number.unsigned_abs(),
        Value::Octets(octets) | Value::Opaque(octets) => octets.len() as u64,
        Value::Null => 1,
        Value::Name(name) => name.content().len() as u64,
        Value::Address(octets) => u64::from(u32::from_be_bytes(*octets)),
        Value::Counter(number) | Value::Gauge(number) | Value::Ticks(number) => u64::from(*number),
    }
}

/// Reads the datagram and walks its bindings, and sums the sizes of their names and the weights of their values.
#[unsafe(no_mangle)]
pub extern "C" fn dms_measures_walk(datagram: &[u8], times: u32) -> u64
    ensures { ((m : SnmpMessage) → Spells m datagram.now → ⊥) → result ≡ 0 }
{
    let mut sum = 0_u64;
    for _ in 0..times {
        if let Ok(message) = read(datagram) {
            for bind in message.binds {
                sum = sum.wrapping_add(bind.name.content().len() as u64);
                sum = sum.wrapping_add(weight(&bind.value));
            }
        }
    }
    sum
}

/// Reads the datagram once and writes its message, each time with the request-id before. It sums the sizes, and of each
/// datagram that was written another octet.
#[unsafe(no_mangle)]
pub extern "C" fn dms_measures_write(datagram: &[u8], times: u32) -> u64
    ensures { ((m : SnmpMessage) → Spells m datagram.now → ⊥) → result ≡ 0 }
{
    let Ok(message) = read(datagram) else {
        return 0;
    };
    let Some(blank) = Oid::of(&[0]) else {
        return 0;
    };
    let mut binds: [Bind<'_>; MAX_BINDINGS] = array::from_fn(|_| Bind {
        name: blank.again(),
        value: Value::Null,
    });
    let mut count = 0;
    for bind in message.binds {
        if count < MAX_BINDINGS {
            binds[count] = bind;
            count += 1;
        }
    }
    let mut parts = MessageParts {
        community: message.community,
        kind: message.kind,
        request: message.request,
        status: message.status,
        index: message.index,
        binds: &binds[..count],
    };
    let mut out = Out::new();
    let mut sum = 0_u64;
    for time in 0..times {
        if write(&parts, &mut out).is_ok() {
            let octet = out.get(time as usize % MAX_DATAGRAM).copied().unwrap_or(0);
            sum = sum.wrapping_add(out.len() as u64 + u64::from(octet));
        }
        parts.request = parts.request.wrapping_sub(1);
    }
    sum
}

/// Takes the checksum of the text, with a beacon that changes from time to time, and sums the checksums.
#[unsafe(no_mangle)]
pub extern "C" fn dms_measures_crc(text: &[u8], times: u32) -> u64 {
    let mut sum = 0_u64;
    for time in 0..times {
        sum = sum.wrapping_add(u64::from(crc(text, (time % 2) as u8, 0)));
    }
    sum
}

/// The fonts that these lines spell: each font's header, and after it its characters.
fn fonts_of(alloc: Global, fonts: &[u8]) -> Option<Vec<Font>> {
    let mut read: Vec<Font> = Vec::new(alloc);
    let mut lines = Lines::of(fonts);
    while let Some(line) = lines.next_line() {
        match Font::from_header(alloc, line.octets) {
            Some(font) => read.push(font).ok()?,
            None => read.last_mut()?.add_glyph(alloc, line.octets).ok()?,
        }
    }
    Some(read)
}

/// The face of the largest matrix with these fonts, and with the defaults of the bench sign.
fn face_with(fonts: Vec<Font>) -> Option<Face> {
    Face::new(256, 64, fonts, DEFAULTS).ok()
}

/// The face of the largest matrix, with the fonts that these lines spell.
fn face_of(alloc: Global, fonts: &[u8]) -> Option<Face> {
    face_with(fonts_of(alloc, fonts)?)
}

/// Checks the text, and sums the numbers of its pages.
#[unsafe(no_mangle)]
pub extern "C" fn dms_measures_check(alloc: Global, fonts: &[u8], text: &[u8], times: u32) -> u64 {
    let Some(face) = face_of(alloc, fonts) else {
        return 0;
    };
    let mut sum = 0_u64;
    for _ in 0..times {
        if let Ok(count) = check(&face, text) {
            sum = sum.wrapping_add(count as u64);
        }
    }
    sum
}

/// A number that depends on all that a cell shows.
fn cell_weight(cell: Cell) -> u64 {
    let flash = match cell.flash {
        None => 0,
        Some(flash) => u64::from(flash.lit) + u64::from(flash.dark),
    };
    u64::from(cell.lit) + u64::from(cell.colour) + flash
}

/// Sums the weights of the cells of a row.
fn row_weight(page: &Page, y: u16) -> u64
    requires { y < page.now.height }
{
    let mut sum = 0_u64;
    for x in 0..page.width() {
        sum = sum.wrapping_add(cell_weight(page.cell(x, y)));
    }
    sum
}

/// The weight of a page's first cell.
fn first_weight(page: &Page) -> u64 {
    if page.width() > 0 && page.height() > 0 {
        cell_weight(page.cell(0, 0))
    } else {
        0
    }
}

/// Makes the text's pages, and sums their number and the weight of the first cell of each.
#[unsafe(no_mangle)]
pub extern "C" fn dms_measures_pages(alloc: Global, fonts: &[u8], text: &[u8], times: u32) -> u64 {
    let Some(face) = face_of(alloc, fonts) else {
        return 0;
    };
    let mut sum = 0_u64;
    for _ in 0..times {
        if let Ok(made) = pages(alloc, &face, text) {
            sum = sum.wrapping_add(made.len() as u64);
            for page in &made {
                sum = sum.wrapping_add(first_weight(page));
            }
        }
    }
    sum
}

/// Makes the text's pages once, and looks up each of their cells. It sums the weights of the cells.
#[unsafe(no_mangle)]
pub extern "C" fn dms_measures_cells(alloc: Global, fonts: &[u8], text: &[u8], times: u32) -> u64 {
    let Some(face) = face_of(alloc, fonts) else {
        return 0;
    };
    let Ok(made) = pages(alloc, &face, text) else {
        return 0;
    };
    let mut sum = 0_u64;
    for _ in 0..times {
        for page in &made {
            for y in 0..page.height() {
                sum = sum.wrapping_add(row_weight(page, y));
            }
        }
    }
    sum
}
