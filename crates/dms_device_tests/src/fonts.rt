//! The fonts of the bench sign as objects: what names read, and a walk over all of them.

use dms_device_fonts::FontObjects;
use dms_mib_replies::{Next, Objects};
use dms_sign_bench::face;
use dms_wire::{Value, oid_cmp};
use dms_wire_ber::name_of;
use std::alloc::Global;
use std::process::Abort;
use std::test::Fail;

/// The content octets of dms.3, the fonts' node (NTCIP 1203).
static NODE: [u8; 11] = [43, 6, 1, 4, 1, 137, 54, 4, 2, 3, 3];

/// The content octets of a name below the fonts' node.
fn content(alloc: Global, below: &[u8]) -> Result<Vec<u8>, &'static str> {
    let mut content = Vec::from_slice(alloc, &NODE).ok().ok_or("no memory")?;
    content.extend_from_slice(below).ok().ok_or("no memory")?;
    Ok(content)
}

/// The number that a name below the fonts' node reads, or -1.
fn number(objects: &FontObjects<'_>, alloc: Global, below: &[u8]) -> Result<i64, &'static str> {
    let content = content(alloc, below)?;
    let name = name_of(content.as_slice()).ok_or("no name")?;
    match objects.value(&name) {
        Some(Value::Integer(number)) => Ok(number),
        _ => Ok(-1),
    }
}

/// Asserts the octets that a name below the fonts' node reads.
fn check_octets(
    rt: &impl Abort,
    objects: &FontObjects<'_>,
    alloc: Global,
    below: &[u8],
    octets: &[u8],
) -> Result<(), &'static str> {
    let content = content(alloc, below)?;
    let name = name_of(content.as_slice()).ok_or("no name")?;
    assert!(rt; objects.value(&name) == Some(Value::Octets(octets)));
    Ok(())
}

#[test]
fn numbers_of_fonts_are_read(rt: HostRuntime) -> Result<(), Fail> {
    let face = face(rt.alloc())?;
    let objects = FontObjects::of(&face);
    let rows: [(&[u8], i64); 16] = [
        (&[1, 0], 2),
        (&[3, 0], 255),
        (&[5, 0], 128),
        (&[2, 1, 1, 2], 2),
        (&[2, 1, 2, 1], 1),
        (&[2, 1, 4, 1], 7),
        (&[2, 1, 4, 2], 5),
        (&[2, 1, 5, 1], 1),
        (&[2, 1, 6, 2], 1),
        (&[2, 1, 7, 2], 2),
        (&[2, 1, 8, 1], 6),
        (&[4, 1, 1, 1, 91], 91),
        (&[4, 1, 2, 1, 65], 5),
        (&[4, 1, 2, 2, 66], -1),
        (&[2, 1, 1, 3], -1),
        (&[2, 1, 9, 1], -1),
    ];
    for (below, value) in rows {
        assert_eq!(rt; number(&objects, rt.alloc(), below)?, value);
    }
    Ok(())
}

#[test]
fn pictures_of_characters_are_read(rt: HostRuntime) -> Result<(), Fail> {
    let face = face(rt.alloc())?;
    let objects = FontObjects::of(&face);
    check_octets(&rt, &objects, rt.alloc(), &[2, 1, 3, 1], &[])?;
    let a = [0x74, 0x63, 0xf8, 0xc6, 0x20];
    check_octets(&rt, &objects, rt.alloc(), &[4, 1, 3, 1, 65], &a)?;
    check_octets(&rt, &objects, rt.alloc(), &[4, 1, 3, 2, 65], &[0x57, 0xda])?;
    Ok(())
}

/// Walks on from a name: the octets of the next one, which is later and reads what comes with it.
fn next(
    rt: &impl Abort,
    objects: &FontObjects<'_>,
    alloc: Global,
    from: &[u8],
) -> Result<Option<Vec<u8>>, &'static str> {
    let name = name_of(from).ok_or("no name")?;
    let Some(Next { name: found, value }) = objects.next(&name) else {
        return Ok(None);
    };
    let later = found.oid();
    assert!(rt; oid_cmp(&name, &later).is_lt());
    assert!(rt; objects.value(&later) == Some(value));
    let content = Vec::from_slice(alloc, later.content());
    Ok(Some(content.ok().ok_or("no memory")?))
}

/// Three objects of their own, eight columns of two fonts, and three columns of their five characters and one.
#[test]
fn a_walk_meets_each_object(rt: HostRuntime) -> Result<(), Fail> {
    let face = face(rt.alloc())?;
    let objects = FontObjects::of(&face);
    let mut name = content(rt.alloc(), &[])?;
    for _ in 0..37 {
        match next(&rt, &objects, rt.alloc(), name.as_slice())? {
            Some(later) => name = later,
            None => return Err("too short")?,
        }
    }
    assert!(rt; next(&rt, &objects, rt.alloc(), name.as_slice())?.is_none());
    let last = content(rt.alloc(), &[5, 0])?;
    assert_eq!(rt; name.as_slice(), last.as_slice());
    Ok(())
}
