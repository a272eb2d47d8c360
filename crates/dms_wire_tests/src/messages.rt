//! Datagrams with the answers of an independent model, hostile datagrams, and messages with each kind of value.

mod cases;

use dms_wire::{
    Bind, BindingOctets, ErrorStatus, FaultKind, Kind, Message, MessageParts, Oid, Out, TooBig,
    Value, WireFault, heard, read, write, write_around, write_binding, write_response,
};
use std::alloc::Global;
use std::process::Abort;
use std::test::Fail;

/// A Get of one object of community public, with request-id 1.
static GET: [u8; 48] =
    *b"\x30\x2e\x02\x01\x00\x04\x06public\xa0\x21\x02\x01\x01\x02\x01\x00\x02\x01\x00\x30\x16\
       \x30\x14\x06\x10\x2b\x06\x01\x04\x01\x89\x36\x04\x02\x03\x05\x08\x01\x09\x03\x01\x05\x00";

fn check_fault(rt: &impl Abort, octets: &[u8], kind: FaultKind, place: usize) {
    assert_eq!(rt;
        read(octets).err(),
        Some(WireFault { kind, place }),
        "in {octets:?}"
    );
}

/// Asserts that each of these has a fault of this kind, at its place.
fn check_faulty(rt: &impl Abort, kind: FaultKind, cases: &[(&[u8], usize)]) {
    for (octets, place) in cases {
        check_fault(rt, octets, kind, *place);
    }
}

fn check_octets(rt: &impl Abort, found: &[u8], wanted: &[u8]) {
    assert_eq!(rt; found, wanted);
}

/// Writes what was read, with these bindings.
fn check_written(rt: &impl Abort, message: &Message<'_>, binds: &[Bind<'_>], canonical: &[u8]) {
    let parts = MessageParts {
        community: message.community,
        kind: message.kind,
        request: message.request,
        status: message.status,
        index: message.index,
        binds,
    };
    let mut out = Out::new();
    assert_eq!(rt; write(&parts, &mut out), Ok(()));
    check_octets(rt, &out, canonical);
}

/// Asserts that the octets' message is written so with its bindings, which can be walked twice.
fn check_message(
    rt: &impl Abort,
    alloc: Global,
    octets: &[u8],
    canonical: &[u8],
) -> Result<(), Fail> {
    let message = read(octets)?;
    let first: Vec<Bind<'_>> = message.binds.again().collect(alloc)?;
    let second: Vec<Bind<'_>> = message.binds.again().collect(alloc)?;
    check_written(rt, &message, &first, canonical);
    check_written(rt, &message, &second, canonical);
    Ok(())
}

fn check_spelled(rt: &impl Abort, alloc: Global, cases: &[(&[u8], &[u8])]) -> Result<(), Fail> {
    for (octets, canonical) in cases {
        check_message(rt, alloc, octets, canonical)?;
    }
    Ok(())
}

/// Asserts that each of these is the shortest spelling of its message.
fn check_shortest(rt: &impl Abort, alloc: Global, cases: &[&[u8]]) -> Result<(), Fail> {
    for octets in cases {
        check_message(rt, alloc, octets, octets)?;
    }
    Ok(())
}

/// A datagram of these parts, one after the other.
fn datagram_of(rt: &impl Abort, parts: &[&[u8]]) -> Out {
    let mut datagram = Out::new();
    for part in parts {
        assert!(rt; datagram.try_extend_from_slice(part).is_ok());
    }
    datagram
}

#[test]
fn each_fault_is_told_at_its_place(rt: HostRuntime) {
    check_faulty(&rt, FaultKind::Truncated, &cases::TRUNCATED_1);
    check_faulty(&rt, FaultKind::BadTag, &cases::BAD_TAG_1);
    check_faulty(&rt, FaultKind::BadTag, &cases::BAD_TAG_2);
    check_faulty(&rt, FaultKind::BadLength, &cases::BAD_LENGTH_1);
    check_faulty(&rt, FaultKind::LengthPast, &cases::LENGTH_PAST_1);
    check_faulty(&rt, FaultKind::BadInteger, &cases::BAD_INTEGER_1);
    check_faulty(&rt, FaultKind::BadInteger, &cases::BAD_INTEGER_2);
    check_faulty(&rt, FaultKind::BadName, &cases::BAD_NAME_1);
    check_faulty(&rt, FaultKind::BadVersion, &cases::BAD_VERSION_1);
    check_faulty(&rt, FaultKind::TrailingBytes, &cases::TRAILING_BYTES_1);
}

#[test]
fn each_spelling_is_written_in_the_shortest(rt: HostRuntime) -> Result<(), Fail> {
    check_spelled(&rt, rt.alloc(), &cases::SPELLED_1)?;
    check_spelled(&rt, rt.alloc(), &cases::SPELLED_2)?;
    check_spelled(&rt, rt.alloc(), &cases::SPELLED_3)?;
    check_shortest(&rt, rt.alloc(), &cases::SHORTEST_1)?;
    check_shortest(&rt, rt.alloc(), &cases::SHORTEST_2)?;
    let longer = datagram_of(&rt, &[b"\x30\x82\x00\x2e", &GET[2..]]);
    check_spelled(&rt, rt.alloc(), &[(&longer, &GET)])
}

#[test]
fn a_prefix_is_truncated_at_its_end(rt: HostRuntime) {
    for (place, _) in GET.iter().enumerate() {
        check_fault(&rt, &GET[..place], FaultKind::Truncated, place);
    }
}

#[test]
fn a_hostile_length_is_a_fault_at_its_place(rt: HostRuntime) {
    let cases: [(&[u8], FaultKind, usize); 8] = [
        (b"\x30\x84\xff\xff\xff\xff", FaultKind::Truncated, 6),
        (b"\x30\x80", FaultKind::BadLength, 1),
        (b"\x30\x85\x00", FaultKind::BadLength, 1),
        (b"\x30\x03\x02\x01\x01", FaultKind::BadVersion, 4),
        (b"\x30\x03\x02\x01\x00", FaultKind::Truncated, 5),
        (b"\x30\x04\x02\x02\x00\x00", FaultKind::BadInteger, 4),
        (b"\x30\x03\x02\x05\x00", FaultKind::LengthPast, 3),
        (&[0x30; 1473], FaultKind::TooLong, 1472),
    ];
    for (octets, kind, place) in cases {
        check_fault(&rt, octets, kind, place);
    }
    let longer = datagram_of(&rt, &[&GET, &[0]]);
    check_fault(&rt, &longer, FaultKind::TrailingBytes, 48);
}

/// The Response to it in which the object has the value 7.
static SEVEN: [u8; 49] =
    *b"\x30\x2f\x02\x01\x00\x04\x06public\xa2\x22\x02\x01\x01\x02\x01\x00\x02\x01\x00\x30\x17\
       \x30\x15\x06\x10\x2b\x06\x01\x04\x01\x89\x36\x04\x02\x03\x05\x08\x01\x09\x03\x01\x02\x01\x07";

/// The example of the crate's documentation: each object of a Get has the value 7.
#[test]
fn a_response_repeats_the_names_of_its_get(rt: HostRuntime) -> Result<(), Fail> {
    let message = read(&GET)?;
    let mut values = BindingOctets::new();
    for bind in message.binds.again() {
        values.push(&Bind {
            name: bind.name,
            value: Value::Integer(7),
        });
    }
    let mut out = Out::new();
    let header = message.response(ErrorStatus::NoError, 0);
    if write_around(&header, &values, &mut out).is_err() {
        write_response(&message, ErrorStatus::TooBig, 0, &mut out)?;
    }
    check_octets(&rt, &out, &SEVEN);
    write_response(&message, ErrorStatus::NoSuchName, 1, &mut out)?;
    let refusal = datagram_of(
        &rt,
        &[
            &GET[..13],
            b"\xa2\x21\x02\x01\x01\x02\x01\x02\x02\x01\x01",
            &GET[24..],
        ],
    );
    check_octets(&rt, &out, &refusal);
    assert!(rt; heard(&GET).is_some() && heard(&GET[1..]).is_none());
    Ok(())
}

/// How a Response with this value alone is written, and how many octets it has.
fn written_alone(rt: &impl Abort, value: Value<'_>, out: &mut Out) -> Result<usize, TooBig> {
    let message = read(&GET).expect(rt, "a Get");
    let header = message.response(ErrorStatus::NoError, 0);
    let name = message.binds.only_name().expect(rt, "a binding");
    write_binding(&header, &Bind { name, value }, out)?;
    Ok(out.len())
}

/// A binding alone is written as the message that has it and no other, up to the largest datagram.
#[test]
fn a_binding_alone_is_written_as_its_message(rt: HostRuntime) {
    let mut out = Out::new();
    let seven = written_alone(&rt, Value::Integer(7), &mut out);
    check_octets(&rt, &out, &SEVEN);
    let text = [0x61; 1415];
    let largest = written_alone(&rt, Value::Octets(&text[..1414]), &mut out);
    let larger = written_alone(&rt, Value::Octets(&text), &mut out);
    assert_eq!(rt;
        (seven, largest, larger, out.len()),
        (Ok(49), Ok(1472), Err(TooBig), 0)
    );
}

/// Asserts the Response without an error that repeats the request's bindings.
fn check_response(rt: &impl Abort, request: &[u8], response: &[u8]) -> Result<(), Fail> {
    let mut out = Out::new();
    let message = read(request)?;
    write_response(&message, ErrorStatus::NoError, 0, &mut out)?;
    check_octets(rt, &out, response);
    Ok(())
}

/// A Response repeats bindings in their shortest spelling: as they lie in the request, or written again where it
/// spells a length longer.
#[test]
fn a_response_repeats_bindings_in_their_shortest_spelling(rt: HostRuntime) -> Result<(), Fail> {
    let long = b"\x30\x82\x00\x15\x06\x81\x10";
    let cases = [
        (
            b"\x30\x44".as_slice(),
            b"\xa3\x37".as_slice(),
            b"\x30\x2c".as_slice(),
            &GET[26..30],
        ),
        (b"\x30\x47", b"\xa3\x3a", b"\x30\x2f", long),
    ];
    let response = datagram_of(
        &rt,
        &[
            b"\x30\x44",
            &GET[2..13],
            b"\xa2\x37",
            &GET[15..24],
            b"\x30\x2c",
            &GET[26..],
            &GET[26..],
        ],
    );
    for (message, pdu, list, second) in cases {
        let request = datagram_of(
            &rt,
            &[
                message,
                &GET[2..13],
                pdu,
                &GET[15..24],
                list,
                &GET[26..],
                second,
                &GET[30..],
            ],
        );
        check_response(&rt, &request, &response)?;
    }
    Ok(())
}

/// A name has at most 127 sub-identifiers.
#[test]
fn a_name_has_127_sub_identifiers_at_most(rt: HostRuntime) -> Result<(), Fail> {
    let longest = datagram_of(
        &rt,
        &[
            b"\x30\x81\xa0\x02\x01\x00\x04\x06public\xa0\x81\x92\x02\x01\x01\x02\x01\x00\x02\x01\x00",
            b"\x30\x81\x86\x30\x81\x83\x06\x7f",
            &[0x2b; 127],
            b"\x05\x00",
        ],
    );
    check_shortest(&rt, rt.alloc(), &[&longest])?;
    let longer = datagram_of(
        &rt,
        &[
            b"\x30\x81\xa2\x02\x01\x00\x04\x06public\xa0\x81\x94\x02\x01\x01\x02\x01\x00\x02\x01\x00",
            b"\x30\x81\x88\x30\x81\x85\x06\x81\x80",
            &[0x2b; 128],
            b"\x05\x00",
        ],
    );
    check_fault(&rt, &longer, FaultKind::BadName, 35);
    Ok(())
}

#[test]
fn each_tag_is_a_kind_of_message(rt: HostRuntime) -> Result<(), Fail> {
    let mut octets = GET;
    for (tag, kind) in [
        (160, Kind::Get),
        (161, Kind::GetNext),
        (162, Kind::Response),
        (163, Kind::Set),
    ] {
        octets[13] = tag;
        assert_eq!(rt; read(&octets)?.kind, kind);
        check_shortest(&rt, rt.alloc(), &[&octets])?;
    }
    Ok(())
}

/// A Response in which the values have each tag, with the ends of the ranges, and its bindings, of which the Nth has
/// the name 1.3.N.
static RESPONSE: &[&[u8]] = &[
    b"\x30\x81\xa0\x02\x01\x00\x04\x06public",
    b"\xa2\x81\x92\x02\x04\x80\x00\x00\x00\x02\x01\x02\x02\x02\x01\x2c\x30\x81\x82",
    b"\x30\x0a\x06\x02\x2b\x01\x02\x04\x80\x00\x00\x00",
    b"\x30\x0b\x06\x02\x2b\x02\x02\x05\x00\xff\xff\xff\xff",
    b"\x30\x06\x06\x02\x2b\x03\x04\x00",
    b"\x30\x08\x06\x02\x2b\x04\x04\x02\x61\x62",
    b"\x30\x06\x06\x02\x2b\x05\x05\x00",
    b"\x30\x0e\x06\x02\x2b\x06\x06\x08\x2b\x06\x01\x04\x01\x89\x36\x00",
    b"\x30\x0a\x06\x02\x2b\x07\x40\x04\xc0\x00\x02\xff",
    b"\x30\x07\x06\x02\x2b\x08\x41\x01\x00",
    b"\x30\x0b\x06\x02\x2b\x09\x41\x05\x00\xff\xff\xff\xff",
    b"\x30\x07\x06\x02\x2b\x0a\x42\x01\x7f",
    b"\x30\x08\x06\x02\x2b\x0b\x43\x02\x00\x80",
    b"\x30\x08\x06\x02\x2b\x0c\x44\x02\x9f\x78",
];

fn binding<'a>(rt: &impl Abort, name: &'a [u8], value: Value<'a>) -> Bind<'a> {
    let name = Oid::of(name).expect(rt, "an object identifier");
    Bind { name, value }
}

#[test]
fn each_value_is_read(rt: HostRuntime) -> Result<(), Fail> {
    let expected = [
        binding(&rt, b"\x2b\x01", Value::Integer(-2147483648)),
        binding(&rt, b"\x2b\x02", Value::Integer(4294967295)),
        binding(&rt, b"\x2b\x03", Value::Octets(b"")),
        binding(&rt, b"\x2b\x04", Value::Octets(b"ab")),
        binding(&rt, b"\x2b\x05", Value::Null),
        binding(
            &rt,
            b"\x2b\x06",
            Value::Name(Oid::of(b"\x2b\x06\x01\x04\x01\x89\x36\x00").expect(
                &rt,
                "an object identifier",
            )),
        ),
        binding(&rt, b"\x2b\x07", Value::Address([192, 0, 2, 255])),
        binding(&rt, b"\x2b\x08", Value::Counter(0)),
        binding(&rt, b"\x2b\x09", Value::Counter(4294967295)),
        binding(&rt, b"\x2b\x0a", Value::Gauge(127)),
        binding(&rt, b"\x2b\x0b", Value::Ticks(128)),
        binding(&rt, b"\x2b\x0c", Value::Opaque(b"\x9f\x78")),
    ];
    let parts = MessageParts {
        community: b"public",
        kind: Kind::Response,
        request: -2147483648,
        status: 2,
        index: 300,
        binds: &expected,
    };
    let mut out = Out::new();
    write(&parts, &mut out)?;
    check_octets(&rt, &out, &datagram_of(&rt, RESPONSE));
    check_read(&rt, &out, &expected)
}

/// Asserts the header of the Response, and its bindings.
fn check_read(rt: &impl Abort, octets: &[u8], binds: &[Bind<'_>]) -> Result<(), Fail> {
    let mut message = read(octets)?;
    check_octets(rt, message.community, b"public");
    assert_eq!(rt;
        (message.kind, message.request, message.status, message.index),
        (Kind::Response, -2147483648, 2, 300)
    );
    for bind in binds {
        let found = message.binds.next().expect(rt, "a binding");
        assert!(rt; found == *bind);
    }
    assert!(rt; message.binds.next().is_none());
    Ok(())
}

fn get_of<'a>(community: &'a [u8]) -> MessageParts<'a> {
    MessageParts {
        community,
        kind: Kind::Get,
        request: 1,
        status: 0,
        index: 0,
        binds: &[],
    }
}

fn check_too_big(rt: &impl Abort, parts: &MessageParts<'_>) {
    let mut out = datagram_of(rt, &[&GET]);
    let written = write(parts, &mut out);
    assert_eq!(rt; (written, out.len()), (Err(TooBig), 0));
}

#[test]
fn a_datagram_has_1472_octets_at_most(rt: HostRuntime) {
    let octets = [0x61; 1473];
    let mut out = datagram_of(&rt, &[&GET]);
    assert_eq!(rt; write(&get_of(&octets[..1448]), &mut out), Ok(()));
    let largest = datagram_of(
        &rt,
        &[
            b"\x30\x82\x05\xbc\x02\x01\x00\x04\x82\x05\xa8",
            &octets[..1448],
            b"\xa0\x0b\x02\x01\x01\x02\x01\x00\x02\x01\x00\x30\x00",
        ],
    );
    check_octets(&rt, &out, &largest);
    assert_eq!(rt; largest.len(), 1472);
    check_too_big(&rt, &get_of(&octets[..1449]));
    check_too_big(&rt, &get_of(&octets));
    let binds = [binding(&rt, b"\x2b", Value::Octets(&octets))];
    let parts = MessageParts {
        community: b"",
        kind: Kind::Get,
        request: 1,
        status: 0,
        index: 0,
        binds: &binds,
    };
    check_too_big(&rt, &parts);
}

#[test]
fn each_fault_of_a_datagram_prints_its_text(rt: HostRuntime) -> Result<(), Fail> {
    for (kind, text) in [
        (FaultKind::Truncated, "truncated"),
        (FaultKind::BadTag, "unexpected tag"),
        (FaultKind::BadLength, "bad length"),
        (FaultKind::LengthPast, "content passes its element"),
        (FaultKind::BadInteger, "bad integer"),
        (FaultKind::BadName, "bad object identifier"),
        (FaultKind::BadVersion, "version is not 0"),
        (FaultKind::TrailingBytes, "trailing octets"),
        (FaultKind::TooLong, "datagram over 1472 octets"),
    ] {
        let printed = format!(in rt.alloc(); "{kind}")?;
        assert_eq!(rt; printed.as_str(), text);
    }
    let fault = WireFault {
        kind: FaultKind::BadTag,
        place: 13,
    };
    let printed = format!(in rt.alloc(); "{fault}; {TooBig}")?;
    let text = "unexpected tag at octet 13; the message has more than 1472 octets";
    assert_eq!(rt; printed.as_str(), text);
    Ok(())
}
