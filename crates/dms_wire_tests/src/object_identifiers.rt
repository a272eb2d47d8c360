//! Object identifiers by their content octets.

use dms_wire_ber::{Oid, oid_cmp, read_name};
use std::cmp::Ordering;
use std::process::Abort;
use std::test::Fail;

fn check_numbers(rt: &impl Abort, content: &[u8], numbers: &[u32]) {
    let oid = Oid::of(content).expect(rt, "an object identifier");
    let mut left = numbers.iter();
    for number in &oid {
        assert_eq!(rt; Some(number), left.next().copied());
    }
    assert_eq!(rt; left.next(), None);
}

/// The example of the crate's documentation.
#[test]
fn a_name_reads_as_its_numbers_with_dots(rt: HostRuntime) -> Result<(), Fail> {
    let octets: &[u8] = b"\x06\x03\x2b\x06\x01";
    let (name, rest) = read_name(octets, octets.len())?;
    let text = name.to_string(rt.alloc())?;
    assert_eq!(rt; (text.as_str(), rest.len()), ("1.3.6.1", 0));
    Ok(())
}

// the example of X.690, 8.19.5, and the ends of the ranges
#[test]
fn numbers_of_contents(rt: HostRuntime) {
    check_numbers(&rt, b"\x88\x37\x03", &[2, 999, 3]);
    check_numbers(&rt, b"\x2b\x06\x01\x02\x01", &[1, 3, 6, 1, 2, 1]);
    check_numbers(&rt, b"\x00", &[0, 0]);
    check_numbers(&rt, b"\x27", &[0, 39]);
    check_numbers(&rt, b"\x28", &[1, 0]);
    check_numbers(&rt, b"\x50", &[2, 0]);
    check_numbers(&rt, b"\x8f\xff\xff\xff\x7f", &[2, 4294967215]);
    check_numbers(&rt, b"\x2b\x8f\xff\xff\xff\x7f", &[1, 3, 4294967295]);
}

#[test]
fn what_is_no_name_is_refused(rt: HostRuntime) {
    let octets = [0x2b; 128];
    for content in [
        b"".as_slice(),
        b"\x80\x01",
        b"\x2b\x86",
        b"\x90\x80\x80\x80\x00",
        &octets,
    ] {
        assert!(rt; Oid::of(content).is_none(), "of {content:?}");
    }
    assert!(rt; Oid::of(&octets[..127]).is_some());
}

fn check_order(rt: &impl Abort, a: &[u8], b: &[u8], order: Ordering) {
    let a = Oid::of(a).expect(rt, "an object identifier");
    let b = Oid::of(b).expect(rt, "an object identifier");
    assert_eq!(rt;
        (oid_cmp(&a, &b), oid_cmp(&b, &a), a == b),
        (order, order.reverse(), order == Ordering::Equal)
    );
}

#[test]
fn names_are_in_the_order_of_their_numbers(rt: HostRuntime) {
    check_order(&rt, b"\x2b\x06", b"\x2b\x06", Ordering::Equal);
    check_order(&rt, b"\x2b", b"\x2b\x00", Ordering::Less);
    check_order(&rt, b"\x27\x05", b"\x28", Ordering::Less);
    check_order(&rt, b"\x2b\xff\x7f", b"\x2b\x81\x80\x00", Ordering::Less);
}

#[test]
fn names_below_dms_are_in_the_order_of_what_follows_it(rt: HostRuntime) {
    let dms = b"\x2b\x06\x01\x04\x01\x89\x36\x04\x02\x03";
    let five = b"\x2b\x06\x01\x04\x01\x89\x36\x04\x02\x03\x05";
    let many = b"\x2b\x06\x01\x04\x01\x89\x36\x04\x02\x03\x81\x00";
    check_order(&rt, five, five, Ordering::Equal);
    check_order(&rt, dms, five, Ordering::Less);
    check_order(&rt, five, many, Ordering::Less);
    check_order(
        &rt,
        many,
        b"\x2b\x06\x01\x04\x01\x89\x36\x04\x02\x04",
        Ordering::Less,
    );
    check_order(
        &rt,
        b"\x2b\x06\x01\x02\x01\x01\x01\x00",
        dms,
        Ordering::Less,
    );
}
