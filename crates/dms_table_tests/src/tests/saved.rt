//! Rows of a saved state, and messages that are shown once more.

use dms_sign_bench::states::{ROW, SHOWN};
use dms_sign_bench::{DEFAULTS, face, stock};
use dms_table::{
    MessageId, Mode, RowFault, RowId, SavedRow, SavedShown, Shown, ShownFault, Status, Table,
    memory,
};
use std::process::Abort;
use std::test::Fail;

/// A text that is one octet too long.
const LONG: &[u8] = &[65; 513];

fn changeable(number: u16) -> RowId {
    RowId {
        memory: memory::CHANGEABLE,
        number,
    }
}

fn check_put(
    rt: &impl Abort,
    table: &mut Table,
    id: RowId,
    row: SavedRow<'_>,
    found: Result<(), RowFault>,
) {
    assert!(rt;
        table.put_row(id, &row) == found,
        "row {} of {}",
        id.number,
        id.memory
    );
}

#[test]
fn a_row_is_put_where_none_is(rt: HostRuntime) -> Result<(), Fail> {
    let face = face(rt.alloc())?;
    let mut table = Table::new(rt.alloc(), stock(&[]), &face)?;
    let modifying = SavedRow {
        pixel: 1,
        status: Status::Modifying,
        ..ROW
    };
    let validating = SavedRow {
        status: Status::Validating,
        ..ROW
    };
    let volatile = RowId {
        memory: memory::VOLATILE,
        number: 1,
    };
    for (id, row, found) in [
        (changeable(0), ROW, Err(RowFault::Place)),
        (changeable(3), ROW, Err(RowFault::Place)),
        (changeable(1), modifying, Ok(())),
        (changeable(1), ROW, Err(RowFault::Used)),
        (changeable(2), validating, Ok(())),
        (volatile, validating, Err(RowFault::Validating)),
        (volatile, SavedRow { beacon: 1, ..ROW }, Ok(())),
    ] {
        check_put(&rt, &mut table, id, row, found);
    }
    for memory in [0, 1, 2, 5, 6, 7, 255] {
        let id = RowId { memory, number: 1 };
        check_put(&rt, &mut table, id, ROW, Err(RowFault::Place));
    }
    let read = table.row(volatile);
    assert!(rt;
        read.map(|row| (
            row.text == b"A".as_slice(),
            row.owner == b"O".as_slice(),
            row.beacon,
            row.priority,
            row.status
        )) == Some((true, true, 1, 7, Status::Valid))
    );
    Ok(())
}

#[test]
fn a_row_out_of_its_range_is_not_put(rt: HostRuntime) -> Result<(), Fail> {
    let face = face(rt.alloc())?;
    let mut table = Table::new(rt.alloc(), stock(&[]), &face)?;
    let unused = SavedRow {
        status: Status::NotUsed,
        ..ROW
    };
    for (row, fault) in [
        (unused, RowFault::NotUsed),
        (SavedRow { text: LONG, ..ROW }, RowFault::Text),
        (SavedRow { owner: LONG, ..ROW }, RowFault::Owner),
        (SavedRow { beacon: 2, ..ROW }, RowFault::Beacon),
        (SavedRow { pixel: 1, ..ROW }, RowFault::Pixel),
        (SavedRow { priority: 0, ..ROW }, RowFault::Priority),
    ] {
        check_put(&rt, &mut table, changeable(1), row, Err(fault));
    }
    check_put(&rt, &mut table, changeable(1), ROW, Ok(()));
    assert_eq!(rt;
        table.row(changeable(1)).map(|row| row.checksum),
        Some(0x9a66)
    );
    Ok(())
}

fn check_shown(rt: &impl Abort, saved: SavedShown<'_>, found: Option<ShownFault>) {
    assert!(rt; Shown::of(&saved).err() == found);
}

#[test]
fn a_message_is_shown_once_more(rt: HostRuntime) {
    let other = MessageId {
        crc: 0x9a67,
        ..SHOWN.source
    };
    for (saved, found) in [
        (SHOWN, None),
        (
            SavedShown {
                source: other,
                ..SHOWN
            },
            Some(ShownFault::Checksum),
        ),
        (SavedShown { pixel: 1, ..SHOWN }, Some(ShownFault::Checksum)),
        (SavedShown { mode: 9, ..SHOWN }, Some(ShownFault::Mode)),
        (
            SavedShown {
                priority: 0,
                ..SHOWN
            },
            Some(ShownFault::Priority),
        ),
        (SavedShown { beacon: 2, ..SHOWN }, Some(ShownFault::Beacon)),
        (
            SavedShown {
                owner: LONG,
                ..SHOWN
            },
            Some(ShownFault::Owner),
        ),
        (
            SavedShown {
                text: LONG,
                ..SHOWN
            },
            Some(ShownFault::Text),
        ),
    ] {
        check_shown(&rt, saved, found);
    }
    let again = Shown::of(&Shown::blank(&DEFAULTS, Mode::PowerLoss).saved());
    assert!(rt; again.map(|shown| (shown.checksum(), shown.mode)) == Ok((0, 13)));
}

#[test]
fn an_end_is_at_most_65534_minutes_away_and_none_is_without_power(rt: HostRuntime) {
    let recovered = SavedShown {
        mode: Mode::PowerRecovery.number(),
        ..SHOWN
    };
    let without_power = SavedShown {
        mode: Mode::PowerLoss.number(),
        ..SHOWN
    };
    for (saved, found) in [
        (
            SavedShown {
                remaining: Some(3_932_040),
                ..SHOWN
            },
            None,
        ),
        (
            SavedShown {
                remaining: Some(3_932_041),
                ..SHOWN
            },
            Some(ShownFault::Remaining),
        ),
        (recovered, None),
        (without_power, Some(ShownFault::Remaining)),
        (
            SavedShown {
                remaining: None,
                ..without_power
            },
            None,
        ),
    ] {
        check_shown(&rt, saved, found);
    }
}

#[test]
fn nothing_but_its_own_blank_message_is_shown_under_a_blank_code(rt: HostRuntime) {
    let blank = SavedShown {
        text: &[],
        owner: &[],
        source: MessageId {
            memory: memory::BLANK,
            number: 7,
            crc: 77,
        },
        ..SHOWN
    };
    let of_number = |number| MessageId {
        number,
        ..blank.source
    };
    check_shown(&rt, blank, None);
    for saved in [
        SavedShown {
            text: b"A",
            ..blank
        },
        SavedShown {
            owner: b"O",
            ..blank
        },
        SavedShown { beacon: 1, ..blank },
        SavedShown { pixel: 1, ..blank },
        SavedShown {
            priority: 8,
            ..blank
        },
        SavedShown {
            source: of_number(0),
            ..blank
        },
        SavedShown {
            source: of_number(263),
            ..blank
        },
    ] {
        check_shown(&rt, saved, Some(ShownFault::Blank));
    }
}
