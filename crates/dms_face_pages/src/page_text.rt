//! Pages as text: a line of a page's times and its background, and a line for each row of the matrix.

ghost use Rattle.std.specs.Prelude.{◌≡◌, ◌++◌, ◌<◌, length, IfOk, OnOk, OnErr};
ghost use Rattle.dms_face_pages.specs.PageText.{cell_text, cells_text, row_text, page_line, rows_text, page_text};
ghost use Rattle.dms_face_pages.specs.PageText.{pages_text};

use crate::page::Page;
use dms_face::Cell;
use std::alloc::{AllocError, Global};
use std::io;
use std::io::Write;

/// Pages as text, counted from 1: a line `page NUMBER on TENTHS off TENTHS back COLOUR` with a page's times, in tenths
/// of a second, and its background, and a line for each row of the matrix, from the top, with a dot for each
/// cell that is unlit, else the digit of its colour. Each line ends in a newline. Where there is no page no memory is
/// asked for.
pub fn pages_text(alloc: Global, pages: &[Page]) -> Result<Vec<u8>, AllocError>
    ensures text { IfOk result (λ text. text.items ≡ pages_text pages.now) }
    ensures memory { OnErr result (0 < length pages.now) }
{
    let mut text = Vec::new(alloc);
    put_pages(&mut text, pages)?;
    Ok(text)
}

/// The text of one page under its number, as the text of pages has it.
pub fn numbered_page(alloc: Global, number: usize, page: &Page) -> Result<Vec<u8>, AllocError>
    ensures { IfOk result (λ text. text.items ≡ page_text (number, page.now)) }
{
    let mut text = Vec::new(alloc);
    match put_page(&mut text, number, page) {
        Ok(()) => Ok(text),
        Err(_) => Err(AllocError),
    }
}

/// Appends the text of pages. Where there is none no memory is asked for.
pub fn put_pages(text: &mut Vec<u8>, pages: &[Page]) -> Result<(), AllocError>
    ensures text { OnOk result (text.new.items ≡ text.old.items ++ pages_text pages.now) }
    ensures memory { OnErr result (0 < length pages.now) }
{
    for (index, page) in pages.iter().enumerate() {
        match put_page(text, index + 1, page) {
            Ok(()) => {}
            Err(_) => return Err(AllocError),
        }
    }
    Ok(())
}

fn put_page(text: &mut Vec<u8>, number: usize, page: &Page) -> io::Result<()>
    ensures { OnOk result (text.new.items ≡ text.old.items ++ page_text (number, page.now)) }
{
    put_line(text, number, page)?;
    put_rows(text, page)
}

/// The line of a page's times and its background.
fn put_line(text: &mut Vec<u8>, number: usize, page: &Page) -> io::Result<()>
    ensures { OnOk result (text.new.items ≡ text.old.items ++ page_line (number, page.now)) }
{
    let (on, off, back) = (page.on(), page.off(), page.back());
    writeln!(text, "page {number} on {on} off {off} back {back}")
}

fn put_rows(text: &mut Vec<u8>, page: &Page) -> io::Result<()>
    ensures { OnOk result (text.new.items ≡ text.old.items ++ rows_text page.now) }
{
    for y in 0..page.height() {
        put_row(text, page, y)?;
    }
    Ok(())
}

fn put_row(text: &mut Vec<u8>, page: &Page, y: u16) -> io::Result<()>
    requires { y < page.now.height }
    ensures { OnOk result (text.new.items ≡ text.old.items ++ row_text page.now y) }
{
    put_cells(text, page, y)?;
    writeln!(text)
}

/// The cells of a row.
fn put_cells(text: &mut Vec<u8>, page: &Page, y: u16) -> io::Result<()>
    requires { y < page.now.height }
    ensures { OnOk result (text.new.items ≡ text.old.items ++ cells_text page.now y) }
{
    for x in 0..page.width() {
        put_cell(text, &page.cell(x, y))?;
    }
    Ok(())
}

fn put_cell(text: &mut Vec<u8>, cell: &Cell) -> io::Result<()>
    ensures { OnOk result (text.new.items ≡ text.old.items ++ cell_text cell.now) }
{
    if cell.lit {
        write!(text, "{}", cell.colour)
    } else {
        write!(text, ".")
    }
}
