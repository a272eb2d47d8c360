//! Message and activation codes by their octets.

use dms_codes::{Activation, MessageId, Order, crc};

fn activation() -> Activation {
    Activation {
        minutes: 65535,
        priority: 255,
        id: MessageId {
            memory: 3,
            number: 1,
            crc: crc(b"A", 0, 0),
        },
        address: [192, 0, 2, 1],
    }
}

const HIGH: [u8; 12] = [0xff, 0xff, 0xff, 3, 0, 1, 0x9a, 0x66, 192, 0, 2, 1];

const SWAPPED: [u8; 12] = [0xff, 0xff, 0xff, 3, 0, 1, 0x66, 0x9a, 192, 0, 2, 1];

#[test]
fn octets_of_codes(rt: HostRuntime) {
    for (order, octets) in [(Order::High, HIGH), (Order::Swapped, SWAPPED)] {
        assert_eq!(rt;
            (
                activation().to_bytes(order),
                Activation::from_bytes(order, &octets),
                MessageId::from_bytes(order, &octets[3..8])
            ),
            (octets, Some(activation()), Some(activation().id))
        );
    }
    assert_eq!(rt;
        activation().id.to_bytes(Order::High),
        [3, 0, 1, 0x9a, 0x66]
    );
}

#[test]
fn a_code_has_its_length_and_no_other(rt: HostRuntime) {
    for length in [0, 4, 6, 11] {
        let octets = &HIGH[..length];
        assert!(rt;
            MessageId::from_bytes(Order::High, octets).is_none()
                && Activation::from_bytes(Order::High, octets).is_none(),
            "{length}"
        );
    }
    assert!(rt; Activation::from_bytes(Order::High, &[0; 13]).is_none());
}
