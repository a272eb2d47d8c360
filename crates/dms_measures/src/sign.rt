//! Measures of the sign: a script of datagrams and seconds, which it is handed again and again.

ghost use Rattle.std.specs.Prelude.{◌<◌, length, IfSome};

use crate::face_of;
use dms_codes::Order;
use dms_sign::{Config, Sign};
use dms_sign_bench::stock;
use dms_table::{Permanent, Stock};
use dms_wire::{MAX_DATAGRAM, Out};
use std::alloc::Global;

const PERMANENT: Permanent<'static> = Permanent {
    text: b"ROAD CLOSED",
    owner: &[],
    beacon: 0,
    pixel: 0,
    priority: 100,
};

/// As many rows as a sign can have.
const MOST: Stock<'static> = Stock {
    permanent: &[PERMANENT; 16],
    changeable: 64,
    volatile: 16,
    beacon: true,
    pixel: true,
    order: Order::High,
};

/// The stock with so many changeable rows: 64 and the most of the others, or else as many as the bench sign has.
fn stock_of(changeable: u32) -> Stock<'static> {
    if changeable == 64 {
        MOST
    } else {
        Stock {
            pixel: true,
            ..stock(&[PERMANENT])
        }
    }
}

/// A sign of the largest matrix with so many changeable rows.
pub(crate) fn sign_of(alloc: Global, fonts: &[u8], changeable: u32) -> Option<Sign> {
    let config = Config {
        face: face_of(alloc, fonts)?,
        stock: stock_of(changeable),
        reader: b"public",
        writer: b"admin",
    };
    Sign::new(alloc, config).ok()
}

/// The first step of a script, and what follows it: a step has two octets of size, and a datagram of that size.
pub(crate) fn step(script: &[u8]) -> Option<(&[u8], &[u8])>
    ensures { IfSome result (λ x. length x.1.now < length script.now) }
{
    let [high, low, rest @ ..] = script else {
        return None;
    };
    let size = usize::from(u16::from_be_bytes([*high, *low]));
    if size <= rest.len() {
        Some(rest.split_at(size))
    } else {
        None
    }
}

/// Hands the sign the datagrams of a script, and a second for each that is empty. It sums the sizes of the replies, and
/// of each reply another octet, from this place on.
fn played(sign: &mut Sign, script: &[u8], place: u32, out: &mut Out) -> u64 {
    let mut sum = 0_u64;
    let mut place = place as usize;
    let mut left = script;
    'steps: while let Some((datagram, rest)) = step(left) {
        if datagram.is_empty() {
            sign.tick();
        } else {
            let _ = sign.receive(datagram, out);
            let octet = out.get(place % MAX_DATAGRAM).copied().unwrap_or(0);
            sum = sum.wrapping_add(out.len() as u64 + u64::from(octet));
            place = place.wrapping_add(1);
        }
        left = rest;
    }
    sum
}

/// Makes a sign with so many changeable rows, hands it the script `before` once and then `script` `times` times. It
/// sums the sizes of the replies, and of each reply another octet.
#[unsafe(no_mangle)]
pub extern "C" fn dms_measures_sign(
    alloc: Global,
    fonts: &[u8],
    before: &[u8],
    script: &[u8],
    changeable: u32,
    times: u32,
) -> u64 {
    let Some(mut sign) = sign_of(alloc, fonts, changeable) else {
        return 0;
    };
    let mut out = Out::new();
    let mut sum = played(&mut sign, before, 0, &mut out);
    for time in 0..times {
        sum = sum.wrapping_add(played(&mut sign, script, time, &mut out));
    }
    sum
}
