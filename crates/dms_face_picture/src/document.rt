//! A message's pages as one document.

ghost use Rattle.std.specs.Prelude.{◌≡◌, ◌≤◌, ◌++◌, length, take, IfOk, OnOk};
ghost use Rattle.std.specs.List.{flat_map};
ghost use Rattle.dms_face.specs.Fit.{most_pages};
ghost use Rattle.dms_face_picture.specs.Lamps.{styles_of};
ghost use Rattle.dms_face_picture.specs.Picture.{page_time, board, svg_tag, view, title, plate, dashes_start};
ghost use Rattle.dms_face_picture.specs.Picture.{dots_start};
ghost use Rattle.dms_face_picture.specs.Picture.{plain_path, style_animation, style_path, page_group, opening, closing};
ghost use Rattle.dms_face_picture.specs.Picture.{round_of, groups_from, picture_of, still_of};

use crate::description::put_description;
use crate::lamps::{put_lamps, put_whole_rows, styles_of};
use crate::motion::{Motion, put_flash_animation, put_page_animation};
use crate::shade::shade;
use crate::text::{put, put_number};
use dms_face::{Cell, Flash, MAX_PAGES};
use dms_face_pages::Page;
use std::alloc::{AllocError, Global};
use std::io;
use std::io::Write;

/// A message of this text and these pages as a document that a browser plays, on a matrix of so many columns and rows.
/// The document says the text, for who does not see it. A page is shown for its time, and none is in its off time; then
/// the first comes again. A message of one page without an off time stays. Lamps flash with the right time first, from
/// where their page is first shown. A message has at most six pages; those after the sixth are left out.
pub fn picture(
    alloc: Global,
    width: u16,
    height: u16,
    text: &[u8],
    pages: &[Page],
) -> Result<Vec<u8>, AllocError>
    ensures { IfOk result (λ document. document.items ≡ picture_of width height text.now (take most_pages pages.now)) }
{
    let mut out = Vec::new(alloc);
    let shown = &pages[..pages.len().min(MAX_PAGES)];
    match put_picture(alloc, &mut out, width, height, text, shown) {
        Ok(()) => Ok(out),
        Err(_) => Err(AllocError),
    }
}

/// One page of this text as a document in which nothing moves; what flashes is lit. The document says the text.
pub fn still(alloc: Global, text: &[u8], page: &Page) -> Result<Vec<u8>, AllocError>
    ensures { IfOk result (λ document. document.items ≡ still_of text.now page.now) }
{
    let mut out = Vec::new(alloc);
    match put_still(alloc, &mut out, text, page) {
        Ok(()) => Ok(out),
        Err(_) => Err(AllocError),
    }
}

fn put_picture(
    alloc: Global,
    out: &mut Vec<u8>,
    width: u16,
    height: u16,
    text: &[u8],
    pages: &[Page],
) -> io::Result<()>
    requires { length pages.now ≤ most_pages }
    ensures { OnOk result (out.new.items ≡ out.old.items ++ picture_of width height text.now pages.now) }
{
    put_opening(out, width, height, text)?;
    put_groups(alloc, out, round_of(pages), pages)?;
    put_closing(out)
}

fn put_still(alloc: Global, out: &mut Vec<u8>, text: &[u8], page: &Page) -> io::Result<()>
    ensures { OnOk result (out.new.items ≡ out.old.items ++ still_of text.now page.now) }
{
    put_opening(out, page.width(), page.height(), text)?;
    put_page(alloc, out, Motion::Still, page)?;
    put_closing(out)
}

/// How long a round of all pages takes, in tenths of a second.
fn round_of(pages: &[Page]) -> u32
    requires { length pages.now ≤ most_pages }
    ensures { result ≡ round_of pages.now }
{
    let mut round = 0;
    for page in pages {
        round += page_time(page);
    }
    round
}

/// How long a page takes of a round.
fn page_time(page: &Page) -> u32
    ensures time { result ≡ page_time page.now }
    ensures short { result ≤ 510 }
{
    u32::from(page.on()) + u32::from(page.off())
}

/// Appends the pages of a message whose round takes so many tenths.
fn put_groups(alloc: Global, out: &mut Vec<u8>, round: u32, pages: &[Page]) -> io::Result<()>
    requires { round ≡ round_of pages.now }
    ensures { OnOk result (out.new.items ≡ out.old.items ++ groups_from (length pages.now) round 0 pages.now) }
{
    let mut start = 0;
    let mut rest = pages;
    while let Some((page, others)) = rest.split_first() {
        let motion = Motion::of(pages.len(), round, start, page);
        put_page(alloc, out, motion, page)?;
        start += page_time(page);
        rest = others;
    }
    Ok(())
}

/// Appends a page.
fn put_page(alloc: Global, out: &mut Vec<u8>, motion: Motion, page: &Page) -> io::Result<()>
    ensures { OnOk result (out.new.items ≡ out.old.items ++ page_group motion page.now) }
{
    put(out, "<g>")?;
    put_page_animation(out, motion)?;
    put_plain_path(out, page.back(), page.width(), page.height())?;
    put_style_paths(alloc, out, motion, page)?;
    put(out, "</g>\n")
}

fn put_style_paths(alloc: Global, out: &mut Vec<u8>, motion: Motion, page: &Page) -> io::Result<()>
    ensures { OnOk result
        (out.new.items ≡ out.old.items ++ flat_map (style_path motion page.now) (styles_of page.now)) }
{
    let styles = styles_of(alloc, page)?;
    put_paths(out, motion, page, styles.as_slice())
}

/// Appends the lamps of each of these styles.
fn put_paths(out: &mut Vec<u8>, motion: Motion, page: &Page, styles: &[Cell]) -> io::Result<()>
    ensures { OnOk result (out.new.items ≡ out.old.items ++ flat_map (style_path motion page.now) styles.now) }
{
    for style in styles {
        put_style_path(out, motion, page, *style)?;
    }
    Ok(())
}

/// Appends the lamps that show the same.
fn put_style_path(out: &mut Vec<u8>, motion: Motion, page: &Page, style: Cell) -> io::Result<()>
    ensures { OnOk result (out.new.items ≡ out.old.items ++ style_path motion page.now style) }
{
    put_dots_start(out, style.colour)?;
    put_lamps(out, page, style)?;
    put(out, "\">")?;
    put_style_animation(out, motion, style.flash)?;
    put(out, "</path>\n")
}

fn put_style_animation(out: &mut Vec<u8>, motion: Motion, flash: Option<Flash>) -> io::Result<()>
    ensures { OnOk result (out.new.items ≡ out.old.items ++ style_animation motion flash) }
{
    match flash {
        None => Ok(()),
        Some(flash) => put_flash_animation(out, motion, flash),
    }
}

/// Appends all lamps in one colour.
fn put_plain_path(out: &mut Vec<u8>, colour: u8, width: u16, height: u16) -> io::Result<()>
    ensures { OnOk result (out.new.items ≡ out.old.items ++ plain_path colour width height) }
{
    put_dashes_start(out, colour)?;
    put_whole_rows(out, width, height)?;
    put(out, "\"/>\n")
}

fn put_dashes_start(out: &mut Vec<u8>, colour: u8) -> io::Result<()>
    ensures { OnOk result (out.new.items ≡ out.old.items ++ dashes_start colour) }
{
    put(out, "<path stroke=\"")?;
    put(out, shade(colour))?;
    put(out, "\" stroke-dasharray=\"0 1\" d=\"")
}

fn put_dots_start(out: &mut Vec<u8>, colour: u8) -> io::Result<()>
    ensures { OnOk result (out.new.items ≡ out.old.items ++ dots_start colour) }
{
    put(out, "<path stroke=\"")?;
    put(out, shade(colour))?;
    put(out, "\" d=\"")
}

/// Appends the document's tag, what it says, the plate, and all lamps dark.
fn put_opening(out: &mut Vec<u8>, width: u16, height: u16, text: &[u8]) -> io::Result<()>
    ensures { OnOk result (out.new.items ≡ out.old.items ++ opening width height text.now) }
{
    put_board(out, width, height, text)?;
    put_plain_path(out, 0, width, height)
}

/// Appends the plate of a matrix, which is one lamp wider and higher, under the document's tag and what it says.
fn put_board(out: &mut Vec<u8>, width: u16, height: u16, text: &[u8]) -> io::Result<()>
    ensures { OnOk result (out.new.items ≡ out.old.items ++ board width height text.now) }
{
    let columns = u32::from(width) + 1;
    let rows = u32::from(height) + 1;
    put_svg_tag(out, columns, rows)?;
    put_title(out, width, height)?;
    put_description(out, text)?;
    put_plate(out, columns, rows)
}

/// Appends the tag of a document of so many columns and rows.
fn put_svg_tag(out: &mut Vec<u8>, columns: u32, rows: u32) -> io::Result<()>
    ensures { OnOk result (out.new.items ≡ out.old.items ++ svg_tag columns rows) }
{
    put_view(out, columns, rows)?;
    put(
        out,
        " role=\"img\" fill=\"none\" stroke-linecap=\"round\" stroke-width=\"0.8\">\n",
    )
}

/// Appends what the document is called where it is not seen.
fn put_title(out: &mut Vec<u8>, width: u16, height: u16) -> io::Result<()>
    ensures { OnOk result (out.new.items ≡ out.old.items ++ title width height) }
{
    write!(
        out,
        "<title>A message sign of {width} by {height} lamps</title>\n"
    )
}

fn put_view(out: &mut Vec<u8>, columns: u32, rows: u32) -> io::Result<()>
    ensures { OnOk result (out.new.items ≡ out.old.items ++ view columns rows) }
{
    put(
        out,
        "<svg xmlns=\"http://www.w3.org/2000/svg\" viewBox=\"-1 -1 ",
    )?;
    put_number(out, columns)?;
    put(out, " ")?;
    put_number(out, rows)?;
    put(out, "\"")
}

/// Appends the plate, one lamp wider and higher than the matrix.
fn put_plate(out: &mut Vec<u8>, columns: u32, rows: u32) -> io::Result<()>
    ensures { OnOk result (out.new.items ≡ out.old.items ++ plate columns rows) }
{
    put(out, "<path stroke=\"none\" fill=\"#202020\" d=\"M-1-1h")?;
    put_number(out, columns)?;
    put(out, "v")?;
    put_number(out, rows)?;
    put(out, "H-1z\"/>\n")
}

fn put_closing(out: &mut Vec<u8>) -> io::Result<()>
    ensures { OnOk result (out.new.items ≡ out.old.items ++ closing) }
{
    put(out, "</svg>\n")
}
