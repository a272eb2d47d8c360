//! The example of the crate's page, and statuses and types of memory by their numbers.

use dms_codes::{Ask, Memory, MessageId, Order, RowId, Status, crc, memory};

#[test]
fn a_code_s_checksum_stands_in_either_order(rt: HostRuntime) {
    let id = MessageId {
        memory: memory::CHANGEABLE,
        number: 1,
        crc: crc(b"A", 0, 0),
    };
    assert_eq!(rt;
        (
            id.to_bytes(Order::High),
            MessageId::from_bytes(Order::Swapped, &[3, 0, 1, 0x66, 0x9a])
        ),
        ([3, 0, 1, 0x9a, 0x66], Some(id))
    );
}

/// The numbers of the status and of what is asked that have this number.
fn numbers(number: u8) -> (Option<u8>, Option<u8>) {
    let status = match Status::of_number(number) {
        Some(status) => Some(status.number()),
        None => None,
    };
    let ask = match Ask::of_number(number) {
        Some(ask) => Some(ask.number()),
        None => None,
    };
    (status, ask)
}

#[test]
fn numbers_of_statuses(rt: HostRuntime) {
    for number in 0..10 {
        let found = match number {
            1..6 => (Some(number), None),
            6..9 => (None, Some(number)),
            _ => (None, None),
        };
        assert_eq!(rt; numbers(number), found);
    }
}

/// The type of memory of a number, of a row's name and of a message's, and the number of the first.
fn types(number: u8) -> ([Option<Memory>; 3], Option<u8>) {
    let row = RowId {
        memory: number,
        number: 1,
    };
    let message = MessageId {
        memory: number,
        number: 1,
        crc: 0,
    };
    let found = Memory::of(number);
    let back = match found {
        Some(memory) => Some(memory.number()),
        None => None,
    };
    ([found, row.memory(), message.memory()], back)
}

#[test]
fn types_of_memory(rt: HostRuntime) {
    for number in 0..=255 {
        let found = match number {
            2 => Some(Memory::Permanent),
            3 => Some(Memory::Changeable),
            4 => Some(Memory::Volatile),
            5 => Some(Memory::CurrentBuffer),
            7 => Some(Memory::Blank),
            _ => None,
        };
        let back = match found {
            Some(_) => Some(number),
            None => None,
        };
        assert_eq!(rt; types(number), ([found; 3], back));
    }
}
