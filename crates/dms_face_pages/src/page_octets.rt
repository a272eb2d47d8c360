//! Pages as octets: of each page its times, its background, and an octet for each cell.

ghost use Rattle.std.specs.Prelude.{◌≡◌, ◌++◌, ◌∷◌, [], ◌<◌, ◌≤◌, ◌+◌, ◌*◌, ◌/◌, length, drop, IfOk, OnOk, OnErr};
ghost use Rattle.dms_face_pages.specs.PageOctets.{first_mark, lit_mark, look, lit_time, dark_time, cell_octet};
ghost use Rattle.dms_face_pages.specs.PageOctets.{row_octets};
ghost use Rattle.dms_face_pages.specs.PageOctets.{rows_octets, page_octets, pages_octets, lit_in, eight_bits, row_bits};

use crate::page::Page;
use dms_face::{Cell, Flash};
use dms_multi::Lead;
use std::alloc::{AllocError, Global};

/// What pages as octets say of each cell.
#[derive(Clone, Copy, Debug, PartialEq, Eq)]
pub enum Layer {
    /// Its look: its colour, and how it is lit.
    Look,
    /// How long it is lit while it flashes, in tenths of a second: 0 where it does not.
    LitTime,
    /// How long it is dark while it flashes, in tenths of a second: 0 where it does not.
    DarkTime,
}

impl Layer {
    ghost use Rattle.std.specs.Prelude.{◌≡◌};
    ghost use Rattle.dms_face_pages.specs.PageOctets.{layer_of};

    /// The layer of a number: 0 looks, 1 lit times, any other dark times.
    pub fn of(number: u8) -> Layer
        ensures { result ≡ layer_of number }
    {
        match number {
            0 => Layer::Look,
            1 => Layer::LitTime,
            _ => Layer::DarkTime,
        }
    }
}

/// Pages as octets, which say of each cell what `layer` names. Where there is no page no memory is asked for.
pub fn pages_octets(alloc: Global, layer: Layer, pages: &[Page]) -> Result<Vec<u8>, AllocError>
    ensures octets { IfOk result (λ octets. octets.items ≡ pages_octets layer pages.now) }
    ensures memory { OnErr result (0 < length pages.now) }
{
    let mut octets = Vec::new(alloc);
    put_pages(&mut octets, layer, pages)?;
    Ok(octets)
}

fn put_pages(octets: &mut Vec<u8>, layer: Layer, pages: &[Page]) -> Result<(), AllocError>
    ensures octets { OnOk result (octets.new.items ≡ octets.old.items ++ pages_octets layer pages.now) }
    ensures memory { OnErr result (0 < length pages.now) }
{
    for page in pages {
        put_page(octets, layer, page)?;
    }
    Ok(())
}

fn put_page(octets: &mut Vec<u8>, layer: Layer, page: &Page) -> Result<(), AllocError>
    ensures { OnOk result (octets.new.items ≡ octets.old.items ++ page_octets layer page.now) }
{
    put_times(octets, page)?;
    put_rows(octets, layer, page)
}

/// The times of a page and its background.
fn put_times(octets: &mut Vec<u8>, page: &Page) -> Result<(), AllocError>
    ensures { OnOk result (octets.new.items
        ≡ octets.old.items ++ (page.now.on ∷ page.now.off ∷ page.now.background ∷ [])) }
{
    octets.extend_from_slice(&[page.on(), page.off(), page.back()])
}

fn put_rows(octets: &mut Vec<u8>, layer: Layer, page: &Page) -> Result<(), AllocError>
    ensures { OnOk result (octets.new.items ≡ octets.old.items ++ rows_octets layer page.now) }
{
    for y in 0..page.height() {
        put_row(octets, layer, page, y)?;
    }
    Ok(())
}

fn put_row(octets: &mut Vec<u8>, layer: Layer, page: &Page, y: u16) -> Result<(), AllocError>
    requires { y < page.now.height }
    ensures { OnOk result (octets.new.items ≡ octets.old.items ++ row_octets layer page.now y) }
{
    for x in 0..page.width() {
        put_cell(octets, layer, page.cell(x, y))?;
    }
    Ok(())
}

fn put_cell(octets: &mut Vec<u8>, layer: Layer, cell: Cell) -> Result<(), AllocError>
    ensures { OnOk result (octets.new.items ≡ octets.old.items ++ cell_octet layer cell ∷ []) }
{
    octets.push(cell_octet(layer, cell))?;
    Ok(())
}

fn cell_octet(layer: Layer, cell: Cell) -> u8
    ensures { result ≡ cell_octet layer cell }
{
    match layer {
        Layer::Look => look(cell),
        Layer::LitTime => lit_time(cell.flash),
        Layer::DarkTime => dark_time(cell.flash),
    }
}

/// A cell's colour, and how it is lit.
fn look(cell: Cell) -> u8
    ensures { result ≡ look cell }
{
    if cell.lit {
        cell.colour % 16 + lit_mark(cell.flash)
    } else {
        cell.colour % 16
    }
}

fn lit_mark(flash: Option<Flash>) -> u8
    ensures mark { result ≡ lit_mark flash }
    ensures small { result ≤ 112 }
{
    match flash {
        None => 16,
        Some(flash) => first_mark(flash.first),
    }
}

fn first_mark(first: Lead) -> u8
    ensures mark { result ≡ first_mark first }
    ensures small { result ≤ 112 }
{
    match first {
        Lead::Lit => 48,
        Lead::Dark => 112,
    }
}

fn lit_time(flash: Option<Flash>) -> u8
    ensures { result ≡ lit_time flash }
{
    match flash {
        None => 0,
        Some(flash) => flash.lit,
    }
}

fn dark_time(flash: Option<Flash>) -> u8
    ensures { result ≡ dark_time flash }
{
    match flash {
        None => 0,
        Some(flash) => flash.dark,
    }
}

/// The octets of a row's bits.
#[tactic(auto, using(crate::proofs::Filled::length_made))]
pub fn bits_needed(looks: &[u8]) -> usize
    ensures number { result ≡ (length looks.now + 7) / 8 }
    ensures size { result ≡ length (row_bits looks.now) }
{
    looks.len().div_ceil(8)
}

/// Which cells of a row are lit, eight an octet from the left, the first in the highest bit: first in a buffer, which
/// must have room for them.
pub fn put_bits(looks: &[u8], bits: &mut [u8])
    requires { (length looks.now + 7) / 8 ≤ length bits.old }
    ensures { bits.new ≡ row_bits looks.now ++ drop (length (row_bits looks.now)) bits.old }
{
    for k in 0..looks.len().div_ceil(8) {
        bits[k] = eight_bits(looks, 8 * k);
    }
}

fn eight_bits(looks: &[u8], x: usize) -> u8
    requires { x ≤ length looks.now + 7 }
    ensures { result ≡ eight_bits looks.now x }
{
    128 * lit_in(looks, x)
        + 64 * lit_in(looks, x + 1)
        + 32 * lit_in(looks, x + 2)
        + 16 * lit_in(looks, x + 3)
        + 8 * lit_in(looks, x + 4)
        + 4 * lit_in(looks, x + 5)
        + 2 * lit_in(looks, x + 6)
        + lit_in(looks, x + 7)
}

fn lit_in(looks: &[u8], x: usize) -> u8
    ensures lit { result ≡ lit_in looks.now x }
    ensures bit { result ≤ 1 }
{
    match looks.get(x) {
        Some(look) => *look / 16 % 2,
        None => 0,
    }
}
