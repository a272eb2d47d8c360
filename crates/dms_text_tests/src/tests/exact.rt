//! Words in their only spelling, and what stands at the front of a text.

use dms_text_exact::{
    address, are_octets, behind, code, cut, integer, number, octets, put_address, put_octets,
    starts_with,
};
use std::test::Fail;

/// Words and the numbers from 0 to 255 that they are.
static NUMBERS: [(&str, Option<u32>); 8] = [
    ("0", Some(0)),
    ("255", Some(255)),
    ("256", None),
    ("00", None),
    ("07", None),
    ("+7", None),
    ("-7", None),
    ("", None),
];

#[test]
fn a_number_has_no_needless_zero(rt: HostRuntime) {
    for (word, wanted) in NUMBERS {
        assert!(rt; number(0, 255, word.as_bytes()) == wanted, "of {word:?}");
    }
}

/// Words and the numbers from -2^31 to 2^32 - 1 that they are.
static INTEGERS: [(&str, Option<i64>); 8] = [
    ("-2147483648", Some(-2_147_483_648)),
    ("-2147483649", None),
    ("4294967295", Some(4_294_967_295)),
    ("4294967296", None),
    ("-0", None),
    ("-07", None),
    ("007", None),
    ("-", None),
];

#[test]
fn no_nought_is_below_nought(rt: HostRuntime) {
    for (word, wanted) in INTEGERS {
        assert!(rt; integer(word.as_bytes()) == wanted, "of {word:?}");
    }
}

#[test]
fn an_address_is_written_as_it_is_read(rt: HostRuntime) {
    let mut buffer = [0; 16];
    assert_eq!(rt; put_address(&mut buffer, 0, [192, 0, 2, 1]), 9);
    assert!(rt; address(&buffer[..9]) == Some([192, 0, 2, 1]));
    for word in [
        "192.0.2.01",
        "192.0.2",
        "192.0.2.1.",
        "192.0.2.256",
        "192..2.1",
    ] {
        assert!(rt; address(word.as_bytes()).is_none(), "of {word:?}");
    }
}

/// Words, and whether they are at most two octets.
static OCTETS: [(&str, bool); 8] = [
    ("-", true),
    ("0a", true),
    ("0aff", true),
    ("0aff00", false),
    ("0A", false),
    ("0", false),
    ("", false),
    ("0g", false),
];

#[test]
fn octets_have_small_digits(rt: HostRuntime) -> Result<(), Fail> {
    for (word, wanted) in OCTETS {
        let word = word.as_bytes();
        assert!(rt; are_octets(2, word) == wanted, "of {word:?}");
        assert!(rt;
            octets(rt.alloc(), 2, word)?.is_some() == wanted,
            "of {word:?}"
        );
    }
    let mut buffer = [0; 6];
    assert_eq!(rt; put_octets(&mut buffer, 0, b"Fog"), 6);
    assert!(rt; code(&buffer) == Some(*b"Fog"));
    assert!(rt; code::<2>(&buffer).is_none());
    assert!(rt; code(b"466F67") == None::<[u8; 3]>);
    Ok(())
}

/// The memory of the octets may be refused, once.
#[test]
fn exact_octets_or_out_of_memory(rt: HostRuntime) {
    let mut found = octets(rt.alloc(), 3, b"466f67");
    if found.is_err() {
        found = octets(rt.alloc(), 3, b"466f67");
    }
    let is_read = match found {
        Ok(Some(read)) => read.as_slice() == b"Fog".as_slice(),
        Ok(None) | Err(_) => false,
    };
    assert!(rt; is_read);
}

#[test]
fn a_name_at_the_front_is_told(rt: HostRuntime) {
    let text: &[u8] = b"sends 3\nend\n";
    assert!(rt; starts_with(b"sends ", text) && !starts_with(b"sends  ", text));
    assert!(rt; behind(b"send ", text).is_none() && behind(text, b"sends ").is_none());
    assert!(rt;
        behind(b"sends ", text).and_then(|rest| cut(b'\n', rest)) == Some((b"3", b"end\n"))
    );
    assert!(rt; cut(b';', text).is_none());
}
