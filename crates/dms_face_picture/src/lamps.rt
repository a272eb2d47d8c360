//! The lamps of a page, and what its lit cells show.

ghost use Rattle.std.specs.Prelude.{◌≡◌, ◌<◌, ◌++◌, fold, IfOk, OnOk};
ghost use Rattle.std.specs.List.{flat_map, list_any, range_with_len};
ghost use Rattle.dms_face_pages.specs.SameCells.{same_lead, same_flash};
ghost use Rattle.dms_face_picture.specs.Lamps.{shows, lamp, lamps_of_row, lamps};
ghost use Rattle.dms_face_picture.specs.Lamps.{whole_row, whole_rows, with_cell, with_row, styles_of};

use dms_face::{Cell, Flash};
use dms_face_pages::Page;
use dms_multi::Lead;
use std::alloc::{AllocError, Global};
use std::io;
use std::io::Write;

fn is_same_lead(one: Lead, other: Lead) -> bool
    ensures { result ≡ same_lead one other }
{
    match (one, other) {
        (Lead::Lit, Lead::Lit) | (Lead::Dark, Lead::Dark) => true,
        _ => false,
    }
}

fn is_same_flash(one: Option<Flash>, other: Option<Flash>) -> bool
    ensures { result ≡ same_flash one other }
{
    match (one, other) {
        (None, None) => true,
        (Some(one), Some(other)) => {
            is_same_lead(one.first, other.first) && one.lit == other.lit && one.dark == other.dark
        }
        _ => false,
    }
}

/// Whether a cell is lit in this colour with this flash.
fn shows(style: Cell, cell: Cell) -> bool
    ensures { result ≡ shows style cell }
{
    cell.lit && cell.colour == style.colour && is_same_flash(cell.flash, style.flash)
}

/// Appends a lamp, where its cell shows that.
fn put_lamp(out: &mut Vec<u8>, page: &Page, style: Cell, y: u16, x: u16) -> io::Result<()>
    requires { (x < page.now.width) × (y < page.now.height) }
    ensures { OnOk result (out.new.items ≡ out.old.items ++ lamp page.now style y x) }
{
    if shows(style, page.cell(x, y)) {
        write!(out, "M{x} {y}h0")?;
    }
    Ok(())
}

/// Appends the lamps of a row that show that.
fn put_lamps_of_row(out: &mut Vec<u8>, page: &Page, style: Cell, y: u16) -> io::Result<()>
    requires { y < page.now.height }
    ensures { OnOk result (out.new.items ≡ out.old.items ++ lamps_of_row page.now style y) }
{
    for x in 0..page.width() {
        put_lamp(out, page, style, y, x)?;
    }
    Ok(())
}

/// Appends all lamps of a page that show that.
#[tactic(auto, using(crate::proofs::Ranges::text_more))]
pub(crate) fn put_lamps(out: &mut Vec<u8>, page: &Page, style: Cell) -> io::Result<()>
    ensures { OnOk result (out.new.items ≡ out.old.items ++ lamps page.now style) }
{
    for y in 0..page.height() {
        put_lamps_of_row(out, page, style, y)?;
    }
    Ok(())
}

/// Appends a whole row of lamps, as a dashed line.
fn put_whole_row(out: &mut Vec<u8>, width: u16, y: u16) -> io::Result<()>
    ensures { OnOk result (out.new.items ≡ out.old.items ++ whole_row width y) }
{
    let length = width.saturating_sub(1);
    write!(out, "M0 {y}h{length}.5")
}

/// Appends all lamps of the matrix.
pub(crate) fn put_whole_rows(out: &mut Vec<u8>, width: u16, height: u16) -> io::Result<()>
    ensures { OnOk result (out.new.items ≡ out.old.items ++ whole_rows width height) }
{
    for y in 0..height {
        put_whole_row(out, width, y)?;
    }
    Ok(())
}

/// Whether one of these shows the same as a cell.
fn is_shown(styles: &[Cell], cell: Cell) -> bool
    ensures { result ≡ list_any (λ style. shows style cell) styles.now }
{
    styles.iter().any(|style| shows(*style, cell))
}

/// Adds what a cell shows, where it is lit and no earlier one shows the same.
fn add_style(styles: &mut Vec<Cell>, cell: Cell) -> Result<(), AllocError>
    ensures { OnOk result (styles.new.items ≡ with_cell styles.old.items cell) }
{
    if cell.lit && !is_shown(styles.as_slice(), cell) {
        styles.push(cell)?;
    }
    Ok(())
}

/// Adds what the cells of a row show.
#[tactic(auto, using(crate::proofs::Ranges::step_more))]
fn add_row(styles: &mut Vec<Cell>, page: &Page, y: u16) -> Result<(), AllocError>
    requires { y < page.now.height }
    ensures { OnOk result (styles.new.items ≡ with_row page.now styles.old.items y) }
{
    for x in 0..page.width() {
        add_style(styles, page.cell(x, y))?;
    }
    Ok(())
}

/// What the lit cells of a page show, each once.
#[tactic(auto, using(crate::proofs::Ranges::step_more))]
pub(crate) fn styles_of(alloc: Global, page: &Page) -> Result<Vec<Cell>, AllocError>
    ensures { IfOk result (λ styles. styles.items ≡ styles_of page.now) }
{
    let mut styles = Vec::new(alloc);
    for y in 0..page.height() {
        add_row(&mut styles, page, y)?;
    }
    Ok(styles)
}
