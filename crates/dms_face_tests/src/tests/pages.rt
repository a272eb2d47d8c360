//! Pages of a sign of 23 by 14 with two fonts, drawn.

use dms_face::{Cell, Face, Flash, MultiFault, check, check_with};
use dms_face_pages::{Page, PagesFault, pages, pages_with};
use dms_multi::Lead;
use dms_sign_bench::{Other, PICTURE_OF_A, defaults_with, drawing, face};
use std::alloc::Global;
use std::process::Abort;
use std::test::Fail;

/// The column and the row of the first lit cell, and that cell.
fn first_lit(page: &Page) -> Option<((u16, u16), Cell)> {
    for y in 0..page.height() {
        for x in 0..page.width() {
            let cell = page.cell(x, y);
            if cell.lit {
                return Some(((x, y), cell));
            }
        }
    }
    None
}

/// The example of the crate's page.
#[test]
fn a_new_page_begins_with_its_tag(rt: HostRuntime) -> Result<(), Fail> {
    let shown = pages(rt.alloc(), &face(rt.alloc())?, b"A[np]A")?;
    let page = shown.get(1).ok_or("no page")?;
    let lit = Cell {
        lit: true,
        colour: 9,
        flash: None,
    };
    assert!(rt; page.width() > 10 && page.height() > 0);
    assert_eq!(rt;
        (
            shown.len(),
            (page.on(), page.off(), page.back()),
            page.cell(10, 0)
        ),
        (2, (30, 0, 0), lit)
    );
    Ok(())
}

const TWO_PAGES: &[u8] = b"A[nl0]A[np]A[jp4]A";

/// Two letters one above the other on each of two pages: 18 cells of each letter are lit.
fn check_two_pages(rt: &impl Abort, made: &[Page]) {
    assert_eq!(rt; made.len(), 2);
    for page in made {
        let lit = Cell {
            lit: true,
            colour: 9,
            flash: None,
        };
        assert_eq!(rt;
            (
                (page.width(), page.height()),
                lit_cells(page),
                first_lit(page)
            ),
            ((23, 14), 36, Some(((10, 0), lit)))
        );
    }
}

fn lit_cells(page: &Page) -> u32 {
    let mut count = 0_u32;
    for y in 0..page.height() {
        for x in 0..page.width() {
            count = count.wrapping_add(u32::from(page.cell(x, y).lit));
        }
    }
    count
}

/// With any allocation of the call refused it answers out of memory, and the same call with memory gives the pages.
#[test]
fn pages_or_out_of_memory(rt: HostRuntime) {
    let Ok(face) = face(rt.alloc()) else {
        return;
    };
    let made = match pages(rt.alloc(), &face, TWO_PAGES) {
        Ok(made) => Ok(made),
        Err(fault) => {
            assert_eq!(rt; fault, PagesFault::Memory);
            pages(rt.alloc(), &face, TWO_PAGES)
        }
    };
    check_two_pages(&rt, made.expect(&rt, "pages").as_slice());
}

#[test]
fn pages_with_or_out_of_memory(rt: HostRuntime) {
    let Ok(face) = face(rt.alloc()) else {
        return;
    };
    let defaults = face.defaults();
    let made = match pages_with(rt.alloc(), &face, &defaults, TWO_PAGES) {
        Ok(made) => Ok(made),
        Err(fault) => {
            assert_eq!(rt; fault, PagesFault::Memory);
            pages_with(rt.alloc(), &face, &defaults, TWO_PAGES)
        }
    };
    check_two_pages(&rt, made.expect(&rt, "pages").as_slice());
}

#[test]
fn a_letter_is_drawn_as_its_picture(rt: HostRuntime) -> Result<(), Fail> {
    let shown = pages(rt.alloc(), &face(rt.alloc())?, b"A")?;
    let page = shown.get(0).ok_or("no page")?;
    assert_eq!(rt;
        (shown.len(), (page.on(), page.off(), page.back())),
        (1, (30, 0, 0))
    );
    assert_eq!(rt; drawing(rt.alloc(), page)?.as_str(), PICTURE_OF_A);
    Ok(())
}

/// A cell of one of the pages of a text, where there is this page and it has the cell.
fn cell_of(alloc: Global, face: &Face, text: &str, number: usize, x: u16, y: u16) -> Option<Cell> {
    let shown = pages(alloc, face, text.as_bytes()).ok()?;
    let page = shown.get(number)?;
    if x < page.width() && y < page.height() {
        Some(page.cell(x, y))
    } else {
        None
    }
}

fn check_cell(rt: &impl Abort, found: Option<Cell>, cell: Cell) {
    assert_eq!(rt; found, Some(cell));
}

#[test]
fn each_cell_shows_colour_and_flash(rt: HostRuntime) -> Result<(), Fail> {
    let face = face(rt.alloc())?;
    let flash = Some(Flash {
        first: Lead::Lit,
        lit: 5,
        dark: 5,
    });
    for (text, number, x, y, lit, colour, flash) in [
        ("[fl]A[/fl]A", 0, 7, 0, true, 9, flash),
        ("[fl]A[/fl]A", 0, 13, 0, true, 9, None),
        ("[fl]A[/fl]A", 0, 6, 0, false, 0, None),
        ("A[cb4][np]A[cb3]", 0, 0, 0, false, 4, None),
        ("A[cb4][np]A[cb3]", 1, 0, 0, false, 3, None),
        ("[jl4][jp4]A", 0, 22, 13, true, 9, None),
        ("A[fo2]A", 0, 14, 1, false, 0, None),
        ("A[fo2]A", 0, 14, 2, true, 9, None),
    ] {
        let cell = Cell { lit, colour, flash };
        check_cell(&rt, cell_of(rt.alloc(), &face, text, number, x, y), cell);
    }
    Ok(())
}

/// Whether a text has no pages for the fault that the check finds.
fn is_fault_of_check(alloc: Global, face: &Face, text: &[u8]) -> bool {
    match (check(face, text), pages(alloc, face, text)) {
        (Err(fault), Err(shown)) => shown == PagesFault::Multi(fault),
        _ => false,
    }
}

#[test]
fn faults_are_those_of_check(rt: HostRuntime) -> Result<(), Fail> {
    let face = face(rt.alloc())?;
    for text in ["[nl]A", "AAA[[1", "[fo3]A", "C", "A]", "[jp4]A[jp2]A"] {
        assert!(rt;
            is_fault_of_check(rt.alloc(), &face, text.as_bytes()),
            "{text}"
        );
    }
    Ok(())
}

#[test]
fn a_fault_as_text(rt: HostRuntime) -> Result<(), Fail> {
    let text = format!(in rt.alloc(); "{}", PagesFault::Memory)?;
    assert_eq!(rt; text.as_str(), "out of memory");
    Ok(())
}

/// A page's background, time and time off, the place of its first lit cell, and that cell.
type Look = ((u8, u8, u8), ((u16, u16), Cell));

fn look_of(page: &Page) -> Option<Look> {
    let times = (page.back(), page.on(), page.off());
    Some((times, first_lit(page)?))
}

/// The check's answer to a text, how many pages it has, and the look of the first one, under these defaults, where they
/// fit.
fn look_under(
    alloc: Global,
    face: &Face,
    others: &[Other],
    text: &[u8],
) -> Option<(Result<usize, MultiFault>, usize, Option<Look>)> {
    let defaults = defaults_with(others);
    if !defaults.fits(face) {
        return None;
    }
    let answer = check_with(face, &defaults, text);
    let shown = pages_with(alloc, face, &defaults, text).ok()?;
    Some((answer, shown.len(), look_of(shown.get(0)?)))
}

/// Where a text says nothing, and where its tags have no values, the defaults hold.
#[test]
fn a_page_has_defaults(rt: HostRuntime) -> Result<(), Fail> {
    let face = face(rt.alloc())?;
    let own: &[Other] = &[];
    for (others, at, colour, (lit, dark), page) in [
        (own, (10, 0), 9, (5, 5), (0, 30, 0)),
        (&[Other::Background(1)], (10, 0), 9, (5, 5), (1, 30, 0)),
        (&[Other::Foreground(4)], (10, 0), 4, (5, 5), (0, 30, 0)),
        (&[Other::FlashOn(7)], (10, 0), 9, (7, 5), (0, 30, 0)),
        (&[Other::FlashOff(8)], (10, 0), 9, (5, 8), (0, 30, 0)),
        (&[Other::Font(2)], (11, 0), 9, (5, 5), (0, 30, 0)),
        (&[Other::Line(4)], (19, 0), 9, (5, 5), (0, 30, 0)),
        (&[Other::Page(3)], (10, 3), 9, (5, 5), (0, 30, 0)),
        (&[Other::On(40)], (10, 0), 9, (5, 5), (0, 40, 0)),
        (&[Other::Off(2)], (10, 0), 9, (5, 5), (0, 30, 2)),
    ] {
        let flash = Some(Flash {
            first: Lead::Lit,
            lit,
            dark,
        });
        let lit = true;
        let cell = Cell { lit, colour, flash };
        for text in [
            "[fl]A",
            "[cb5][cf2][fo2][jl2][jp4][pt99o99][cb][cf][fo][jl][jp][pt][fl]A",
        ] {
            assert_eq!(rt;
                look_under(rt.alloc(), &face, others, text.as_bytes()),
                Some((Ok(1), 1, Some((page, (at, cell)))))
            );
        }
    }
    Ok(())
}
