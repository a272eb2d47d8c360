//! The bench sign, and what the lines of a script do to it.

use dms_sign::{Config, Sign};
use dms_sign_bench::face;
use dms_table::Stock;
use dms_wire::Out;
use std::alloc::Global;

/// The bench sign's configuration, but for its stock. None where its face finds no memory.
pub fn config_of(alloc: Global, stock: Stock<'_>) -> Option<Config<'_>> {
    Some(Config {
        face: face(alloc).ok()?,
        stock,
        reader: b"public",
        writer: b"admin",
    })
}

/// A sign as the bench sign is, but for its stock.
pub fn sign_of(alloc: Global, stock: Stock<'_>) -> Result<Sign, &'static str> {
    let config = config_of(alloc, stock).ok_or("no configuration")?;
    Sign::new(alloc, config).ok().ok_or("no sign")
}

/// Hands over the datagram of these hexadecimal digits.
fn receive(sign: &mut Sign, digits: &str) -> Result<(), &'static str> {
    let mut octets = [0; 1472];
    let datagram = octets.get_mut(..digits.len() / 2).ok_or("too many octets")?;
    hex::decode_to_slice(digits, datagram)
        .ok()
        .ok_or("no digit")?;
    let _ = sign.receive(datagram, &mut Out::new());
    Ok(())
}

fn number(digits: &str) -> Result<u32, &'static str> {
    digits.parse().ok().ok_or("no number")
}

/// What a script of dms_sign_bench does to a sign. Its replies, and what is shown, are looked at in dms_sign_tests.
pub fn play(sign: &mut Sign, script: &str) -> Result<(), &'static str> {
    for line in script.lines() {
        let (word, rest) = line.split_once(' ').unwrap_or((line, ""));
        match word {
            ">" => receive(sign, rest)?,
            "tick" => {
                for _ in 0..number(rest)? {
                    sign.tick();
                }
            }
            "lost" => sign.power_lost(),
            "back" => sign.power_back(number(rest)?),
            _ => {}
        }
    }
    Ok(())
}
