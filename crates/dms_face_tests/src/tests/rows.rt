//! Rows of pages that are laid out in place, beside the pages that are drawn.

use dms_face::Face;
use dms_face_pages::{Layer, pages, pages_octets};
use dms_face_rows::put_row;
use dms_sign_bench::face;
use std::alloc::Global;
use std::process::Abort;
use std::slice;
use std::test::Fail;

/// What a buffer has before anything is put in it.
const OLD: u8 = 0xee;

/// The octets before those of a page's cells: its times and its background.
const TIMES: usize = 3;

static TEXTS: [&[u8]; 18] = [
    b"",
    b"A",
    b"A[np]A",
    b"A[nl0]A[np]A[jp4]A",
    b"[jl2]A[jl3]1[jl4]B",
    b"[jl4]1[nl0]",
    b"[jp2]A[jp4]B",
    b"[jp3]A",
    b"[fo2]A[nl][fo1]1",
    b"[fo2]A[fo1]B",
    b"[flt3o4]A[/fl]B",
    b"[flo2t7]1[np]A[fl]A",
    b"[cf3]A[cf]B[cb5]",
    b"[pt10o5]A[np][cb2]B[np]",
    b"[np][np]A[np][np][np]B",
    b"[[A]]",
    b"[nl0]A",
    b"[fo2][nl2]A[jl4]A",
];

/// The row is that of the octets that come next.
fn check_row(rt: &impl Abort, face: &Face, row: &[u8], octets: &mut slice::Iter<'_, u8>) {
    for x in 0..usize::from(face.width()) {
        assert!(rt; row.get(x) == octets.next());
    }
    assert_eq!(rt; row.get(usize::from(face.width())), Some(&OLD));
}

fn check_rows(
    rt: &impl Abort,
    face: &Face,
    text: &[u8],
    number: usize,
    layer: Layer,
    octets: &mut slice::Iter<'_, u8>,
) {
    let defaults = face.defaults();
    for y in 0..face.height() {
        let mut row = [OLD; 32];
        let size = put_row(face, &defaults, text, number, y, layer, &mut row);
        assert_eq!(rt; size, Some(usize::from(face.width())));
        check_row(rt, face, &row, octets);
    }
}

fn check_text(rt: &impl Abort, alloc: Global, text: &[u8], layer: Layer) -> Result<(), Fail> {
    let face = face(alloc)?;
    let made = pages(alloc, &face, text)?;
    let octets = pages_octets(alloc, layer, made.as_slice())?;
    let mut octets = octets.as_slice().iter();
    for number in 0..made.len() {
        for _ in 0..TIMES {
            assert!(rt; octets.next().is_some());
        }
        check_rows(rt, &face, text, number, layer, &mut octets);
    }
    assert!(rt; octets.next().is_none());
    Ok(())
}

#[test]
fn rows_are_those_of_the_drawn_pages(rt: HostRuntime) -> Result<(), Fail> {
    for text in TEXTS {
        for layer in [Layer::Look, Layer::LitTime, Layer::DarkTime] {
            check_text(&rt, rt.alloc(), text, layer)?;
        }
    }
    Ok(())
}

/// A text, the number of a page and that of a row, of which there is none.
static NO_ROWS: [(&[u8], usize, u16); 5] = [
    (b"A", 1, 0),
    (b"A", 0, 14),
    (b"A[np]A", 2, 13),
    (b"[bad]", 0, 0),
    (b"AAAAAA", 0, 0),
];

#[test]
fn a_row_that_is_not_there_is_not_put(rt: HostRuntime) -> Result<(), Fail> {
    let face = face(rt.alloc())?;
    let defaults = face.defaults();
    for (text, number, y) in NO_ROWS {
        let mut row = [OLD; 32];
        let size = put_row(&face, &defaults, text, number, y, Layer::Look, &mut row);
        assert_eq!(rt; (size, row[0]), (None, OLD));
    }
    Ok(())
}

#[test]
fn a_buffer_without_room_stays(rt: HostRuntime) -> Result<(), Fail> {
    let face = face(rt.alloc())?;
    let mut row = [OLD; 22];
    let size = put_row(&face, &face.defaults(), b"A", 0, 0, Layer::Look, &mut row);
    assert_eq!(rt; (size, row[10]), (Some(23), OLD));
    Ok(())
}
