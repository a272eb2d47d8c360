//! Calls that take no memory, each many times, for trials/no_memory.sh, which counts how often memory was asked for.

use crate::centre::{SETTINGS, publication};
use crate::{face_of, face_with, fonts_of};
use arrayvec::ArrayVec;
use dms_centre::Centre;
use dms_codes::{Activation, Ask, MAX_TEXT, MessageId, Order, RowId, memory};
use dms_face::Face;
use dms_face_pages::{Page, pages};
use dms_multi::{Item, items, render};
use dms_sign::{Config, Receipt, Sign};
use dms_table::{Field, Mode, Shown, Stock, Table};
use dms_text_streams::{Counted, Gathered, Source};
use dms_wire::{ErrorStatus, Out, heard, write_response};
use dms_world::World;
use std::alloc::Global;

const ROW: RowId = RowId {
    memory: memory::CHANGEABLE,
    number: 1,
};

const STOCK: Stock<'static> = Stock {
    permanent: &[],
    changeable: 4,
    volatile: 2,
    beacon: true,
    pixel: true,
    order: Order::High,
};

/// Writes the text to a row, validates it, reads it, activates it, and lets the power go. It sums checksums and
/// verdicts.
fn one_message(table: &mut Table, face: &Face, shown: &mut Shown, text: &[u8]) -> u64 {
    let defaults = face.defaults();
    let mut sum = u64::from(table.takes(ROW, Ask::Modify));
    sum += u64::from(table.ask(ROW, Ask::Modify).is_ok());
    sum += u64::from(table.write(ROW, Field::Text(text)).is_ok());
    sum += u64::from(table.ask(ROW, Ask::Validate).is_ok());
    if let Some(verdict) = table.settle(face, &defaults) {
        sum += u64::from(verdict.error);
    }
    let crc = match table.row(ROW) {
        Some(row) => row.checksum,
        None => 0,
    };
    let code = Activation {
        minutes: 5,
        priority: 255,
        id: MessageId {
            memory: ROW.memory,
            number: ROW.number,
            crc,
        },
        address: [0; 4],
    };
    if let Ok(activated) = table.decide(face, &defaults, &code, shown) {
        *shown = activated;
    }
    let _ = table.ask(ROW, Ask::NotUsed);
    table.after_power();
    sum + u64::from(crc)
}

/// The message table: a text is written, validated, read and activated, and the power goes.
#[unsafe(no_mangle)]
pub extern "C" fn dms_still_table(alloc: Global, fonts: &[u8], text: &[u8], times: u32) -> u64 {
    let Some(face) = face_of(alloc, fonts) else {
        return 0;
    };
    let Ok(mut table) = Table::new(alloc, STOCK, &face) else {
        return 0;
    };
    let mut shown = Shown::blank(&face.defaults(), Mode::PowerRecovery);
    let mut sum = 0_u64;
    for _ in 0..times {
        sum = sum.wrapping_add(one_message(&mut table, &face, &mut shown, text));
    }
    sum
}

/// The central system: a message is published, each request is repeated as its reply, a tick passes, and it begins
/// again.
#[unsafe(no_mangle)]
pub extern "C" fn dms_still_centre(alloc: Global, text: &[u8], times: u32) -> u64 {
    let Ok(mut centre) = Centre::new(alloc, SETTINGS, 1) else {
        return 0;
    };
    let mut sum = 0_u64;
    for _ in 0..times {
        sum = sum.wrapping_add(published(&mut centre, text));
    }
    sum
}

/// Publishes the text, and sums the sizes of what is sent.
fn published(centre: &mut Centre, text: &[u8]) -> u64 {
    let mut request = Out::new();
    let mut reply = Out::new();
    let mut sum = 0;
    if centre.command(publication(text), &mut request).is_ok() {
        sum += request.len() as u64;
        if let Some(message) = heard(request.as_slice())
            && write_response(&message, ErrorStatus::NoError, 0, &mut reply).is_ok()
        {
            let mut next = Out::new();
            centre.receive(reply.as_slice(), &mut next);
            sum += next.len() as u64;
        }
    }
    centre.restart();
    sum + u64::from(centre.busy()) + centre.ledger().len() as u64
}

/// A sign with these fonts.
fn sign_of(alloc: Global, fonts: &[u8]) -> Option<Sign> {
    let config = Config {
        face: face_of(alloc, fonts)?,
        stock: STOCK,
        reader: b"public",
        writer: b"admin",
    };
    Sign::new(alloc, config).ok()
}

/// A sign is handed a datagram, a second passes, and the power goes and comes. It sums the sizes of the replies.
#[unsafe(no_mangle)]
pub extern "C" fn dms_still_sign(alloc: Global, fonts: &[u8], datagram: &[u8], times: u32) -> u64 {
    let Some(mut sign) = sign_of(alloc, fonts) else {
        return 0;
    };
    let mut out = Out::new();
    let mut sum = 1_u64;
    for _ in 0..times {
        let receipt = sign.receive(datagram, &mut out);
        if receipt != Receipt::Dropped {
            sum = sum.wrapping_add(out.len() as u64);
        }
        sign.tick();
        sign.power_lost();
        sign.power_back(1);
    }
    sum
}

/// The ticks of a request that nothing answers, and one after it: it is sent again twice, and then given up.
const TICKS: u32 = 10;

/// The text's publication is commanded, and nothing answers. It sums the sizes of what the ticks send.
fn unanswered(centre: &mut Centre, text: &[u8], out: &mut Out) -> u64 {
    let mut sum = u64::from(centre.command(publication(text), out).is_ok());
    for _ in 0..TICKS {
        if centre.tick(out).is_ok() {
            sum = sum.wrapping_add(out.len() as u64);
        }
    }
    centre.restart();
    sum
}

/// The ticks of a central system at which no activation is due.
#[unsafe(no_mangle)]
pub extern "C" fn dms_still_ticks(alloc: Global, text: &[u8], times: u32) -> u64 {
    let Ok(mut centre) = Centre::new(alloc, SETTINGS, 1) else {
        return 0;
    };
    let mut out = Out::new();
    let mut sum = 0_u64;
    for _ in 0..times {
        sum = sum.wrapping_add(unanswered(&mut centre, text, &mut out));
    }
    sum
}

/// New central systems.
#[unsafe(no_mangle)]
pub extern "C" fn dms_still_centres(alloc: Global, times: u32) -> u64 {
    let mut sum = 0_u64;
    for _ in 0..times {
        if let Ok(centre) = Centre::new(alloc, SETTINGS, 1) {
            sum = sum.wrapping_add(1 + u64::from(centre.busy()));
        }
    }
    sum
}

/// New readers that count, of these octets, and new writers that keep all.
#[unsafe(no_mangle)]
pub extern "C" fn dms_still_streams(alloc: Global, octets: &[u8], times: u32) -> u64 {
    let mut sum = 0_u64;
    for _ in 0..times {
        let counted = Counted::new(octets);
        let gathered = Gathered::new(alloc);
        sum = sum.wrapping_add(1 + counted.failures() + gathered.bytes().len() as u64);
    }
    sum
}

/// Fonts are read, as for a face.
#[unsafe(no_mangle)]
pub extern "C" fn dms_still_fonts(alloc: Global, fonts: &[u8], times: u32) -> u64 {
    let mut sum = 0_u64;
    for _ in 0..times {
        sum = sum.wrapping_add(u64::from(fonts_of(alloc, fonts).is_some()));
    }
    sum
}

/// Fonts are read, and a face is made of them.
#[unsafe(no_mangle)]
pub extern "C" fn dms_still_faces(alloc: Global, fonts: &[u8], times: u32) -> u64 {
    let mut sum = 0_u64;
    for _ in 0..times {
        let face = match fonts_of(alloc, fonts) {
            Some(read) => face_with(read),
            None => None,
        };
        sum = sum.wrapping_add(u64::from(face.is_some()));
    }
    sum
}

/// A sign with these fonts, and a central system.
fn ends(alloc: Global, fonts: &[u8]) -> Option<(Sign, Centre)> {
    let sign = sign_of(alloc, fonts)?;
    let centre = Centre::new(alloc, SETTINGS, 1).ok()?;
    Some((sign, centre))
}

/// A sign and a central system are made, as for a world.
#[unsafe(no_mangle)]
pub extern "C" fn dms_still_ends(alloc: Global, fonts: &[u8], times: u32) -> u64 {
    let mut sum = 0_u64;
    for _ in 0..times {
        sum = sum.wrapping_add(u64::from(ends(alloc, fonts).is_some()));
    }
    sum
}

/// A sign and a central system are made, and a world of them.
#[unsafe(no_mangle)]
pub extern "C" fn dms_still_worlds(alloc: Global, fonts: &[u8], times: u32) -> u64 {
    let mut sum = 0_u64;
    for _ in 0..times {
        if let Some((sign, centre)) = ends(alloc, fonts) {
            let world = World::new(alloc, sign, centre);
            sum = sum.wrapping_add(1 + world.accepted.len() as u64);
        }
    }
    sum
}

/// A number that depends on all that a page has beside its cells.
fn page_weight(page: &Page) -> u64 {
    let times = u64::from(page.on()) + u64::from(page.off());
    times + u64::from(page.back()) + u64::from(page.width()) + u64::from(page.height())
}

/// Makes the text's pages once, and sums what each has beside its cells.
#[unsafe(no_mangle)]
pub extern "C" fn dms_still_pages(alloc: Global, fonts: &[u8], text: &[u8], times: u32) -> u64 {
    let Some(face) = face_of(alloc, fonts) else {
        return 0;
    };
    let Ok(made) = pages(alloc, &face, text) else {
        return 0;
    };
    let mut sum = 0_u64;
    for _ in 0..times {
        for page in &made {
            sum = sum.wrapping_add(page_weight(page));
        }
    }
    sum
}

/// The number of octets of an item's canonical text, 0 where it has none.
fn rendered(item: Item, text: &mut ArrayVec<u8, MAX_TEXT>) -> u64 {
    if !item.in_range() {
        return 0;
    }
    match render(&[item], text) {
        Ok(()) => text.len() as u64,
        Err(_) => 0,
    }
}

/// Walks the items of the text, and writes each. It sums their offsets, that of the fault and the sizes of what is
/// written.
fn walked(text: &[u8], out: &mut ArrayVec<u8, MAX_TEXT>) -> u64 {
    let mut sum = 0_u64;
    for outcome in items(text) {
        let weight = match outcome {
            Ok(spot) => rendered(spot.item, out).wrapping_add(spot.past as u64),
            Err(fault) => fault.place as u64,
        };
        sum = sum.wrapping_add(weight);
    }
    sum
}

/// The items of a text, and each written in its canonical form.
#[unsafe(no_mangle)]
pub extern "C" fn dms_still_items(text: &[u8], times: u32) -> u64 {
    let mut out = ArrayVec::new();
    let mut sum = 0_u64;
    for _ in 0..times {
        sum = sum.wrapping_add(walked(text, &mut out));
    }
    sum
}
