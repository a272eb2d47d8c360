//! Faces by their values, and each fault of a face.

use dms_face::{
    Defaults, Face, FaceFault, Font, FontFault, FontFaultKind, MultiFault, MultiFaultCode, check,
};
use dms_sign_bench::{DEFAULTS, Other, TALL, defaults_with, face, fonts_of};
use std::alloc::Global;
use std::process::Abort;
use std::test::Fail;

const SMALL: &[u8] =
    b"# a font of one character\r\n\r\nfont 2 height 5 space 1 line 1 version 0002\r\nglyph 65 3 57da";

/// Five letters of five columns take 29 columns of 23.
const TOO_BIG: MultiFault = MultiFault {
    code: MultiFaultCode::TextTooBig,
    place: 4,
};

/// The example of the crate's page.
#[test]
fn a_text_too_wide_is_too_big_at_its_place(rt: HostRuntime) -> Result<(), Fail> {
    let font: &[u8] = b"font 1 height 5 space 1 line 1 version 0001\nglyph 65 3 57da";
    let face = Face::new(7, 5, fonts_of(rt.alloc(), &[font])?, DEFAULTS)?;
    let fault = MultiFault {
        code: MultiFaultCode::TextTooBig,
        place: 2,
    };
    assert_eq!(rt;
        (check(&face, b"AA[np]A"), check(&face, b"AAA")),
        (Ok(2), Err(fault))
    );
    Ok(())
}

/// Asserts the fault of a face of this width and height with the fonts of these texts.
fn check_face_fault(
    rt: &impl Abort,
    alloc: Global,
    size: (u16, u16),
    texts: &[&[u8]],
    defaults: Defaults,
    fault: Option<FaceFault>,
) -> Result<(), Fail> {
    let (width, height) = size;
    let found = Face::new(width, height, fonts_of(alloc, texts)?, defaults).err();
    assert_eq!(rt; found, fault);
    Ok(())
}

/// The first font that the bench sign has not.
const THIRD: Other = Other::Font(3);

/// The first number that is no colour.
const COLOUR: Other = Other::Background(10);

#[test]
fn faults_of_a_face(rt: HostRuntime) -> Result<(), Fail> {
    let none: &[&[u8]] = &[];
    let both: &[&[u8]] = &[TALL, SMALL];
    let twice: &[&[u8]] = &[TALL, SMALL, TALL];
    let own = DEFAULTS;
    let third = defaults_with(&[THIRD]);
    let colour = defaults_with(&[COLOUR]);
    for (width, height, fonts, defaults, fault) in [
        (23, 14, both, own, None),
        (1, 1, both, own, None),
        (256, 64, both, own, None),
        (0, 14, both, own, Some(FaceFault::Size)),
        (257, 14, both, own, Some(FaceFault::Size)),
        (23, 0, both, own, Some(FaceFault::Size)),
        (23, 65, both, own, Some(FaceFault::Size)),
        (0, 14, none, third, Some(FaceFault::Size)),
        (23, 14, none, third, Some(FaceFault::Fonts)),
        (23, 14, twice, third, Some(FaceFault::Fonts)),
        (23, 14, both, third, Some(FaceFault::Default)),
        (23, 14, both, colour, Some(FaceFault::Default)),
    ] {
        check_face_fault(&rt, rt.alloc(), (width, height), fonts, defaults, fault)?;
    }
    Ok(())
}

/// The height of the face's font of this number.
fn height_of(face: &Face, font: u8) -> Option<u8> {
    Some(face.font(font)?.height())
}

#[test]
fn a_face_has_the_size_fonts_and_defaults_it_was_made_of(rt: HostRuntime) -> Result<(), Fail> {
    let fonts = fonts_of(rt.alloc(), &[TALL, SMALL])?;
    let face = Face::new(23, 14, fonts, DEFAULTS)?;
    assert_eq!(rt;
        (
            (face.width(), face.height(), face.defaults()),
            (height_of(&face, 2), height_of(&face, 3))
        ),
        ((23, 14, DEFAULTS), (Some(5), None))
    );
    Ok(())
}

fn check_fits(rt: &impl Abort, face: &Face, others: &[Other], fits: bool) {
    assert_eq!(rt; defaults_with(others).fits(face), fits, "{others:?}");
}

#[test]
fn defaults_that_fit(rt: HostRuntime) -> Result<(), Fail> {
    let face = face(rt.alloc())?;
    let own: &[Other] = &[];
    for (others, fits) in [
        (own, true),
        (&[Other::Font(2), Other::Line(4), Other::Page(4)], true),
        (
            &[
                Other::FlashOn(255),
                Other::FlashOff(255),
                Other::On(255),
                Other::Off(255),
            ],
            true,
        ),
        (&[THIRD], false),
        (&[COLOUR], false),
        (&[Other::Foreground(10)], false),
        (&[Other::Line(1)], false),
        (&[Other::Line(5)], false),
        (&[Other::Page(1)], false),
        (&[Other::Page(5)], false),
    ] {
        check_fits(&rt, &face, others, fits);
    }
    Ok(())
}

const REFUSED: FontFault = FontFault {
    kind: FontFaultKind::Memory,
    line: 0,
};

/// The answers of a face of one font to two texts, or out of memory.
fn answers(alloc: Global) -> Result<Option<[Result<usize, MultiFault>; 2]>, FontFault> {
    let mut fonts = Vec::new(alloc);
    if fonts.push(Font::from_text(alloc, TALL)?).is_err() {
        return Err(REFUSED);
    }
    match Face::new(23, 14, fonts, DEFAULTS) {
        Ok(face) => Ok(Some([check(&face, b"A[np]B[jp4]1"), check(&face, b"AAAAA")])),
        Err(_) => Ok(None),
    }
}

/// With any allocation refused, the fonts of a face are out of memory; with memory the same face checks texts.
#[test]
fn face_or_out_of_memory(rt: HostRuntime) {
    let wanted = Ok(Some([Ok(2), Err(TOO_BIG)]));
    let first = answers(rt.alloc());
    let second = answers(rt.alloc());
    assert!(rt;
        first == wanted && (second == wanted || second == Err(REFUSED))
            || first == Err(REFUSED) && second == wanted
    );
}

#[test]
fn a_fault_of_a_face_has_its_number(rt: HostRuntime) {
    assert_eq!(rt; FaceFault::Default.number(), 3);
}
