//! Columns by their numbers, and names by their octets.

use dms_codes::RowId;
use dms_mib::{Column, Instance, Name, NumberedName, Scalar};
use std::process::Abort;

fn check_number(rt: &impl Abort, column: Column, number: u8) {
    assert_eq!(rt; column.number(), number, "{column:?}");
}

#[test]
fn each_column_has_its_number(rt: HostRuntime) {
    let numbers = [
        (Column::MemoryType, 1),
        (Column::Number, 2),
        (Column::MultiString, 3),
        (Column::Owner, 4),
        (Column::Crc, 5),
        (Column::Beacon, 6),
        (Column::PixelService, 7),
        (Column::RunTimePriority, 8),
        (Column::Status, 9),
    ];
    for (column, number) in numbers {
        check_number(&rt, column, number);
    }
}

#[test]
fn the_name_of_an_object_is_its_octets(rt: HostRuntime) {
    let name = Name::of(Instance::Scalar(Scalar::ActivateMessage));
    assert_eq!(rt;
        name.oid().content(),
        [43, 6, 1, 4, 1, 137, 54, 4, 2, 3, 6, 3, 0].as_slice()
    );
}

/// Asserts the octets of a name after those of dms.
fn check_numbered(rt: &impl Abort, name: &NumberedName, octets: &[u8]) {
    let dms = [43, 6, 1, 4, 1, 137, 54, 4, 2, 3];
    assert!(rt; name.oid().content().strip_prefix(dms.as_slice()) == Some(octets));
}

/// fontMaxCharacterSize.0, and characters' bitmaps, whose numbers have one, two and three octets.
#[test]
fn a_numbered_name_is_its_octets(rt: HostRuntime) {
    check_numbered(&rt, &NumberedName::of(&[3, 5], 0), &[3, 5, 0]);
    let name = NumberedName::of(&[3, 4, 1, 3, 1], 127);
    check_numbered(&rt, &name, &[3, 4, 1, 3, 1, 127]);
    let name = NumberedName::of(&[3, 4, 1, 3, 1], 128);
    check_numbered(&rt, &name, &[3, 4, 1, 3, 1, 129, 0]);
    let name = NumberedName::of(&[3, 4, 1, 3, 127, 0, 127], 65535);
    check_numbered(&rt, &name, &[3, 4, 1, 3, 127, 0, 127, 131, 255, 127]);
}

/// Asserts the octets of a row's status after those of dmsMessageEntry.
fn check_row(rt: &impl Abort, memory: u8, number: u16, octets: &[u8]) {
    let name = Name::of(Instance::Cell(Column::Status, RowId { memory, number }));
    let entry = [43, 6, 1, 4, 1, 137, 54, 4, 2, 3, 5, 8, 1];
    let found = name.oid().content().strip_prefix(entry.as_slice());
    assert!(rt; found == Some(octets), "for row {number}");
}

/// The octets after those of dmsMessageEntry: a column, a type of memory, and a row's number of one, two and three
/// octets.
#[test]
fn the_name_of_a_cell_ends_in_its_row(rt: HostRuntime) {
    let rows: [(u8, u16, &[u8]); 6] = [
        (3, 1, &[9, 3, 1]),
        (7, 127, &[9, 7, 127]),
        (7, 128, &[9, 7, 129, 0]),
        (7, 255, &[9, 7, 129, 127]),
        (200, 16384, &[9, 129, 72, 129, 128, 0]),
        (255, 65535, &[9, 129, 127, 131, 255, 127]),
    ];
    for (memory, number, octets) in rows {
        check_row(&rt, memory, number, octets);
    }
}
