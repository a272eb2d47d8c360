//! Pictures of a sign of 4 by 3 with one character, whole.

mod cases;

use dms_face::Face;
use dms_face_pages::pages;
use dms_face_picture::{picture, still};
use dms_sign_bench::{DEFAULTS, fonts_of};
use std::alloc::Global;
use std::test::Fail;

fn face(alloc: Global) -> Result<Face, Fail> {
    Ok(Face::new(4, 3, fonts_of(alloc, &[cases::FONT])?, DEFAULTS)?)
}

/// Whether a document has the head of this sign's, in which it says this, and these groups.
fn is_document(document: &[u8], said: &str, groups: &str) -> bool {
    let rest = document.strip_prefix(cases::HEAD.as_bytes());
    let rest = rest.and_then(|rest| rest.strip_prefix(said.as_bytes()));
    let rest = rest.and_then(|rest| rest.strip_prefix(cases::PLATE.as_bytes()));
    let rest = rest.and_then(|rest| rest.strip_suffix(b"</svg>\n"));
    rest == Some(groups.as_bytes())
}

#[test]
fn a_picture_plays_its_pages_in_their_times(rt: HostRuntime) -> Result<(), Fail> {
    let alloc = rt.alloc();
    let face = face(alloc)?;
    for (text, groups) in [
        ("A", cases::PLAIN),
        ("[pb1][flo2t3]A", cases::FLASHING),
        ("[pt1o1]A[np][pt2o1][cf3][flt1o1]A", cases::TURNS),
    ] {
        let shown = pages(alloc, &face, text.as_bytes())?;
        let document = picture(alloc, 4, 3, text.as_bytes(), shown.as_slice())?;
        assert!(rt; is_document(document.as_slice(), text, groups), "{text}");
    }
    Ok(())
}

#[test]
fn a_still_page_does_not_move(rt: HostRuntime) -> Result<(), Fail> {
    let alloc = rt.alloc();
    let face = face(alloc)?;
    let text = "[pt1o1][flt1o1]A";
    let shown = pages(alloc, &face, text.as_bytes())?;
    let page = shown.first().ok_or("no page")?;
    let document = still(alloc, text.as_bytes(), page)?;
    assert!(rt; is_document(document.as_slice(), text, cases::PLAIN));
    Ok(())
}

#[test]
fn no_page_is_the_plate(rt: HostRuntime) -> Result<(), Fail> {
    let alloc = rt.alloc();
    let document = picture(alloc, 4, 3, b"", &[])?;
    assert!(rt; is_document(document.as_slice(), "", ""));
    Ok(())
}

#[test]
fn a_text_is_said_in_the_words_of_xml(rt: HostRuntime) -> Result<(), Fail> {
    let alloc = rt.alloc();
    let document = picture(alloc, 4, 3, b"A&B <C> \"~\x1f\x7f\xff", &[])?;
    let said = "A&amp;B &lt;C&gt; \"~\\x1f\\x7f\\xff";
    assert!(rt; is_document(document.as_slice(), said, ""));
    Ok(())
}
