//! Texts with known readings.

mod cases;

ghost use Rattle.dms_multi.specs.Item.{IsInRange};

use arrayvec::ArrayVec;
use cases::CASES;
use dms_multi::{FaultCode, Item, Spot, SyntaxFault, TooLong, items, render};
use std::alloc::{AllocError, Global};
use std::process::Abort;
use std::test::Fail;

/// Texts, what they are read as, and the canonical text of their items: a row a line, with a bar between them.
static ROWS: &str = "\
||
[[A]]|0..2 Char(91); 2..3 Char(65); 3..5 Char(93); |[[A]]
[NL03]|0..6 NewLine(Some(3)); |[nl3]
A]|0..1 Char(65); fault 3 at 1; |A
[nl|fault 3 at 0; |
[fo2,00FF]|0..10 Font(Some((2, Some(255)))); |[fo2,00ff]
[flt05o]|0..8 FlashOn { first: Lit, lit: Some(5), dark: None }; |[flt5]
[flot]|0..6 FlashOn { first: Dark, lit: None, dark: None }; |[flo]
[pt10o]|0..7 PageTime { lit: Some(10), dark: None }; |[pt10]
[pto5]|0..6 PageTime { lit: None, dark: Some(5) }; |[pto5]
[hc5b]|0..6 Char(91); |[[
[hc100]|0..7 Char(256); |[hc100]
[CB8]|0..5 Background(Some(8)); |[pb8]
[foo]|fault 4 at 0; |
[fo,0001]|fault 4 at 0; |
[nl10]|fault 4 at 0; |
[nl000003]|fault 4 at 0; |
[pb1,2,3]|fault 4 at 0; |
[f1]|fault 3 at 0; |
[g1]|fault 3 at 0; |
[sc2]|fault 3 at 0; |
[cr2]|fault 3 at 0; |
[mvtdw]|fault 3 at 0; |
[]|fault 3 at 0; |
[cB][Cb0][CB9]|0..4 Background(None); 4..9 Background(Some(0)); 9..14 Background(Some(9)); |[pb][pb0][pb9]
[cb10]|fault 4 at 0; |
[pB][Pb0][PB9]|0..4 Background(None); 4..9 Background(Some(0)); 9..14 Background(Some(9)); |[pb][pb0][pb9]
[pb10]|fault 4 at 0; |
[cF][Cf0][CF9]|0..4 Foreground(None); 4..9 Foreground(Some(0)); 9..14 Foreground(Some(9)); |[cf][cf0][cf9]
[cf10]|fault 4 at 0; |
[fO][Fo1][FO255]|0..4 Font(None); 4..9 Font(Some((1, None))); 9..16 Font(Some((255, None))); |[fo][fo1][fo255]
[fo1,0000][fo255,FfFf]|0..10 Font(Some((1, Some(0)))); 10..22 Font(Some((255, Some(65535)))); |[fo1,0000][fo255,ffff]
[fo0]|fault 4 at 0; |
[fo256]|fault 4 at 0; |
[fo1,00f]|fault 4 at 0; |
[fo1,00000]|fault 4 at 0; |
[fo1,]|fault 4 at 0; |
[fL]|0..4 FlashOn { first: Lit, lit: None, dark: None }; |[fl]
[Flt0o0]|0..8 FlashOn { first: Lit, lit: Some(0), dark: Some(0) }; |[flt0o0]
[FLT99O99]|0..10 FlashOn { first: Lit, lit: Some(99), dark: Some(99) }; |[flt99o99]
[flO0t0]|0..8 FlashOn { first: Dark, lit: Some(0), dark: Some(0) }; |[flo0t0]
[flo99T99]|0..10 FlashOn { first: Dark, lit: Some(99), dark: Some(99) }; |[flo99t99]
[flto5]|0..7 FlashOn { first: Lit, lit: None, dark: Some(5) }; |[flto5]
[flot3]|0..7 FlashOn { first: Dark, lit: Some(3), dark: None }; |[flot3]
[flt100]|fault 4 at 0; |
[flo100]|fault 4 at 0; |
[flt1t1]|fault 4 at 0; |
[fl1]|fault 4 at 0; |
[/fL]|0..5 FlashEnd; |[/fl]
[/fl1]|fault 4 at 0; |
[/f]|fault 3 at 0; |
[hC0][Hc007f][HCFFFF]|0..5 Char(0); 5..13 Char(127); 13..21 Char(65535); |\x00\x7f[hcFFFF]
[hcFFF][hc1000]|0..7 Char(4095); 7..15 Char(4096); |[hcFFF][hc1000]
[hc]|fault 4 at 0; |
[hc10000]|fault 4 at 0; |
[hcG]|fault 4 at 0; |
[jL][Jl2][JL4]|0..4 JustLine(None); 4..9 JustLine(Some(2)); 9..14 JustLine(Some(4)); |[jl][jl2][jl4]
[jl1]|fault 4 at 0; |
[jl5]|fault 4 at 0; |
[jP][Jp2][JP4]|0..4 JustPage(None); 4..9 JustPage(Some(2)); 9..14 JustPage(Some(4)); |[jp][jp2][jp4]
[jp1]|fault 4 at 0; |
[jp5]|fault 4 at 0; |
[nL][Nl0][NL9]|0..4 NewLine(None); 4..9 NewLine(Some(0)); 9..14 NewLine(Some(9)); |[nl][nl0][nl9]
[nl00009]|0..9 NewLine(Some(9)); |[nl9]
[nP]|0..4 NewPage; |[np]
[np1]|fault 4 at 0; |
[pT]|0..4 PageTime { lit: None, dark: None }; |[pt]
[Pt0o0]|0..7 PageTime { lit: Some(0), dark: Some(0) }; |[pt0o0]
[PT255O255]|0..11 PageTime { lit: Some(255), dark: Some(255) }; |[pt255o255]
[pt256]|fault 4 at 0; |
[pto256]|fault 4 at 0; |
[pto1o1]|fault 4 at 0; |
[|fault 3 at 0; |
]|fault 3 at 0; |
A[|0..1 Char(65); fault 3 at 1; |A
[np]]|0..4 NewPage; fault 3 at 4; |[np]
[[np]|0..2 Char(91); 2..3 Char(110); 3..4 Char(112); fault 3 at 4; |[[np
[np[np]|fault 4 at 0; |
AB[nlx]C|0..1 Char(65); 1..2 Char(66); fault 4 at 2; |AB
[ np]|fault 3 at 0; |
";

/// A spot or the fault, as the tables show it.
fn show(shown: &mut String, read: Result<Spot, SyntaxFault>) -> Result<(), AllocError> {
    match read {
        Ok(spot) => write!(shown, "{}..{} {:?}; ", spot.first, spot.past, spot.item),
        Err(fault) => write!(shown, "fault {} at {}; ", fault.code.number(), fault.place),
    }
}

/// The spots and the fault of a text, as the tables show them.
fn described(alloc: Global, text: &[u8]) -> Result<String, AllocError> {
    let mut shown = String::new(alloc);
    for read in items(text) {
        show(&mut shown, read)?;
    }
    Ok(shown)
}

/// The canonical text of the items that a text spells, or that stand before its fault.
fn rewritten(rt: &impl Abort, alloc: Global, text: &[u8]) -> Result<Vec<u8>, Fail> {
    let mut found = Vec::new(alloc);
    for read in items(text) {
        if let Ok(spot) = read {
            found.push(spot.item)?;
        }
    }
    assert!(rt; found.iter().all(|item| item.in_range()));
    let mut canonical = ArrayVec::new();
    render(&found, &mut canonical)?;
    Ok(canonical.as_slice().to_vec(alloc)?)
}

/// Asserts that the text is read so, and that this is the canonical text of its items.
fn agree(
    rt: &impl Abort,
    alloc: Global,
    text: &str,
    read: &str,
    canonical: &str,
) -> Result<(), Fail> {
    let shown = described(alloc, text.as_bytes())?;
    assert_eq!(rt; shown.as_str(), read, "{text}");
    let written = rewritten(rt, alloc, text.as_bytes())?;
    assert_eq!(rt; written.as_slice(), canonical.as_bytes(), "{text}");
    Ok(())
}

fn spot(item: Item, first: usize, past: usize) -> Spot {
    Spot { item, first, past }
}

/// The example of the crate's page.
#[test]
fn a_text_is_read_as_items_and_written_again(rt: HostRuntime) -> Result<(), Fail> {
    let mut read = items(b"A[nl2]");
    let letter = spot(Item::Char(65), 0, 1);
    let line = spot(Item::NewLine(Some(2)), 1, 6);
    assert!(rt;
        read.next() == Some(Ok(letter)) && read.next() == Some(Ok(line)) && read.next() == None
    );
    let mut text = ArrayVec::new();
    render(&[Item::Char(65), Item::NewLine(Some(2))], &mut text)?;
    assert!(rt; text.as_slice() == b"A[nl2]".as_slice());
    Ok(())
}

/// The text, the reading and the canonical text of a row.
fn parts(row: &str) -> Option<(&str, &str, &str)> {
    let (text, rest) = row.split_once('|')?;
    let (read, canonical) = rest.split_once('|')?;
    Some((text, read, canonical))
}

/// Asserts that there are so many rows, which agree.
fn all_agree(rt: &impl Abort, alloc: Global, rows: &str, count: usize) -> Result<(), Fail> {
    for row in rows.lines() {
        let (text, read, canonical) = parts(row).ok_or("no row")?;
        agree(rt, alloc, text, read, canonical)?;
    }
    assert_eq!(rt; rows.lines().count(), count);
    Ok(())
}

#[test]
fn each_row_of_a_tag_reads_as_it_says(rt: HostRuntime) -> Result<(), Fail> {
    all_agree(&rt, rt.alloc(), ROWS, 80)
}

#[test]
fn each_text_of_the_cases_reads_as_it_says(rt: HostRuntime) -> Result<(), Fail> {
    all_agree(&rt, rt.alloc(), CASES, 160)
}

/// Whether the canonical text of so many of the item fits.
fn fits(alloc: Global, item: Item, count: usize) -> Result<bool, Fail>
    requires { IsInRange item }
{
    let mut text = ArrayVec::new();
    let many = vec![in alloc; item; count]?;
    Ok(render(&many, &mut text).is_ok())
}

#[test]
fn text_has_512_octets(rt: HostRuntime) -> Result<(), Fail> {
    for (item, most) in [(Item::Char(65), 512), (Item::Char(91), 256)] {
        let fitting = (
            fits(rt.alloc(), item, most)?,
            fits(rt.alloc(), item, most + 1)?,
        );
        assert_eq!(rt; fitting, (true, false));
    }
    Ok(())
}

#[test]
fn octets_above_127_are_characters(rt: HostRuntime) -> Result<(), Fail> {
    let mut spots = items(b"\xff");
    let character = spot(Item::Char(255), 0, 1);
    assert!(rt; spots.next() == Some(Ok(character)) && spots.next() == None);
    let written = rewritten(&rt, rt.alloc(), b"\xff[hc80]")?;
    assert_eq!(rt; written.as_slice(), b"\xff\x80".as_slice());
    Ok(())
}

#[test]
fn faults_have_texts(rt: HostRuntime) -> Result<(), Fail> {
    let fault = SyntaxFault {
        code: FaultCode::UnsupportedTagValue,
        place: 3,
    };
    let text = format!(in rt.alloc(); "{fault}, {}, {TooLong}", FaultCode::UnsupportedTag)?;
    assert_eq!(rt;
        text.as_str(),
        "unsupported tag value at octet 3, unsupported tag, text over 512 octets"
    );
    Ok(())
}
