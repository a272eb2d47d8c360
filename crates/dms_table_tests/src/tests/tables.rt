//! The table by its values: each cell of the table of statuses, verdicts on the bench sign, each cause of a decision,
//! and what a table is made of.

use dms_face::{Defaults, Face, MultiFault, MultiFaultCode};
use dms_sign_bench::{B, DEFAULTS, face, stock};
use dms_table::{
    Activation, Ask, Cause, Field, Mode, Order, Permanent, Refused, RowId, RowPlace, Shown, Status,
    Stock, Table, TableFault, Verdict, Writable, memory,
};
use std::alloc::Global;
use std::process::Abort;
use std::test::Fail;

/// The defaults with the other font.
const SMALL_DEFAULTS: Defaults = Defaults {
    font: 2,
    ..DEFAULTS
};

const FIRST: RowId = RowId {
    memory: 3,
    number: 1,
};

/// The sign at its start: a blank message.
fn blank() -> Shown {
    Shown::blank(&DEFAULTS, Mode::PowerRecovery)
}

fn status(table: &Table, id: RowId) -> Option<Status> {
    Some(table.row(id)?.status)
}

/// The row is written with this text, beacon and pixel service, and validated.
fn validated(
    table: &mut Table,
    face: &Face,
    defaults: &Defaults,
    text: &[u8],
    beacon: u8,
    pixel: u8,
) -> Result<Option<Verdict>, Refused> {
    table.ask(FIRST, Ask::Modify)?;
    for field in [
        Field::Text(text),
        Field::Beacon(beacon),
        Field::Pixel(pixel),
        Field::Priority(200),
    ] {
        table.write(FIRST, field)?;
    }
    table.ask(FIRST, Ask::Validate)?;
    if defaults.fits(face) {
        Ok(table.settle(face, defaults))
    } else {
        Ok(None)
    }
}

/// A row in this status.
fn brought_to(table: &mut Table, face: &Face, wanted: Status) -> Result<(), Refused> {
    if wanted == Status::NotUsed {
        return Ok(());
    }
    table.ask(FIRST, Ask::Modify)?;
    if wanted == Status::Modifying {
        return Ok(());
    }
    if wanted == Status::Error {
        table.write(FIRST, Field::Text(b"[nl"))?;
    }
    table.ask(FIRST, Ask::Validate)?;
    if wanted != Status::Validating {
        table.settle(face, &face.defaults());
    }
    Ok(())
}

/// The status of a row that was brought to one, whether it takes this, and its status after it was asked.
fn asked(
    alloc: Global,
    face: &Face,
    from: Status,
    ask: Ask,
) -> Result<(Option<Status>, bool, Option<Status>), Fail> {
    let mut table = Table::new(alloc, stock(&[]), face)?;
    brought_to(&mut table, face, from)?;
    let before = status(&table, FIRST);
    let taken = table.ask(FIRST, ask).is_ok();
    Ok((before, taken, status(&table, FIRST)))
}

fn check_asked(
    rt: &impl Abort,
    alloc: Global,
    face: &Face,
    from: Status,
    ask: Ask,
    next: Option<Status>,
) -> Result<(), Fail> {
    let after = next.unwrap_or(from);
    let found = asked(alloc, face, from, ask)?;
    assert!(rt;
        found == (Some(from), next.is_some(), Some(after)),
        "status {}, asked {}",
        from.number(),
        ask.number()
    );
    Ok(())
}

#[test]
fn each_status_allows_what_it_allows(rt: HostRuntime) -> Result<(), Fail> {
    let face = face(rt.alloc())?;
    let modifying = Some(Status::Modifying);
    let validating = Some(Status::Validating);
    let not_used = Some(Status::NotUsed);
    for (from, modify, validate, end) in [
        (Status::NotUsed, modifying, None, not_used),
        (Status::Modifying, modifying, validating, not_used),
        (Status::Validating, None, None, None),
        (Status::Valid, modifying, validating, not_used),
        (Status::Error, modifying, validating, not_used),
    ] {
        check_asked(&rt, rt.alloc(), &face, from, Ask::Modify, modify)?;
        check_asked(&rt, rt.alloc(), &face, from, Ask::Validate, validate)?;
        check_asked(&rt, rt.alloc(), &face, from, Ask::NotUsed, end)?;
    }
    Ok(())
}

/// Asserts the verdicts on the row with these texts, beacons and pixel services, one after the other.
fn check_verdicts(
    rt: &impl Abort,
    alloc: Global,
    stock: Stock<'_>,
    rows: &[(&[u8], u8, u8, Verdict)],
) -> Result<(), Fail> {
    let face = face(alloc)?;
    let mut table = Table::new(alloc, stock, &face)?;
    for (text, beacon, pixel, verdict) in rows {
        let found = validated(&mut table, &face, &DEFAULTS, text, *beacon, *pixel)?;
        assert_eq!(rt; found, Some(*verdict));
    }
    Ok(())
}

/// A verdict without a fault of the text.
fn verdict_of(error: u8) -> Verdict {
    Verdict { error, fault: None }
}

#[test]
fn a_row_s_verdict_is_that_of_its_text(rt: HostRuntime) -> Result<(), Fail> {
    let syntax = Verdict {
        error: 5,
        fault: Some(MultiFault {
            code: MultiFaultCode::UnsupportedTag,
            place: 0,
        }),
    };
    check_verdicts(
        &rt,
        rt.alloc(),
        stock(&[]),
        &[
            (b"A", 1, 0, verdict_of(2)),
            (b"A", 0, 1, verdict_of(4)),
            (b"[nl", 0, 0, syntax),
            (b"[nl", 0, 1, verdict_of(4)),
        ],
    )
}

#[test]
fn verdicts_of_a_sign_with_neither(rt: HostRuntime) -> Result<(), Fail> {
    let mut stock = stock(&[]);
    stock.beacon = false;
    check_verdicts(
        &rt,
        rt.alloc(),
        stock,
        &[
            (b"A", 0, 0, verdict_of(2)),
            (b"A", 1, 0, verdict_of(3)),
            (b"A", 0, 1, verdict_of(4)),
            (b"[nl", 1, 1, verdict_of(3)),
        ],
    )
}

fn error_of(verdict: Option<Verdict>) -> Option<u8> {
    Some(verdict?.error)
}

/// The verdicts on a text under the defaults and then under the small ones, and one more where no row is being
/// validated.
fn three_verdicts(alloc: Global) -> Result<[Option<u8>; 3], Fail> {
    let face = face(alloc)?;
    let mut table = Table::new(alloc, stock(&[]), &face)?;
    let before = validated(&mut table, &face, &DEFAULTS, b"[nl]A", 0, 0)?;
    let after = validated(&mut table, &face, &SMALL_DEFAULTS, b"[nl]A", 0, 0)?;
    let none = table.settle(&face, &face.defaults());
    Ok([error_of(before), error_of(after), error_of(none)])
}

/// A verdict is one under the defaults of its time, and there is none where no row is being validated.
#[test]
fn verdicts_under_defaults(rt: HostRuntime) -> Result<(), Fail> {
    assert_eq!(rt; three_verdicts(rt.alloc())?, [Some(5), Some(2), None]);
    Ok(())
}

fn check_out_of_range(rt: &impl Abort, table: &mut Table, field: Field<'_>) {
    assert_eq!(rt; table.write(FIRST, field), Err(Refused), "{field:?}");
}

/// A row of volatile memory.
const VOLATILE: RowId = RowId {
    memory: 4,
    number: 1,
};

/// A table after a loss of power, before which one row was being validated, and whether another one could be too.
fn after_one_validation(alloc: Global) -> Result<(Table, bool), Fail> {
    let face = face(alloc)?;
    let mut table = Table::new(alloc, stock(&[]), &face)?;
    table.ask(VOLATILE, Ask::Modify)?;
    brought_to(&mut table, &face, Status::Validating)?;
    let second = table.ask(VOLATILE, Ask::Validate);
    table.after_power();
    Ok((table, second.is_ok()))
}

#[test]
fn one_validation_at_a_time(rt: HostRuntime) -> Result<(), Fail> {
    let (mut table, second) = after_one_validation(rt.alloc())?;
    assert_eq!(rt;
        (
            second,
            (status(&table, FIRST), status(&table, VOLATILE)),
            table.write(VOLATILE, Field::Owner(b"me")).is_ok(),
            table.write(FIRST, Field::Owner(b"me")).is_ok()
        ),
        (
            false,
            (Some(Status::Modifying), Some(Status::NotUsed)),
            false,
            true
        )
    );
    for field in [
        Field::Text(&[65; 513]),
        Field::Owner(&[65; 128]),
        Field::Beacon(2),
        Field::Pixel(2),
        Field::Priority(0),
    ] {
        check_out_of_range(&rt, &mut table, field);
    }
    Ok(())
}

fn decision(
    table: &Table,
    face: &Face,
    defaults: &Defaults,
    shown: &Shown,
    code: [u8; 8],
) -> Result<Result<Shown, Cause>, Fail> {
    let [a, b, c, d, e, f, g, h] = code;
    let code = Activation::from_bytes(Order::High, &[a, b, c, d, e, f, g, h, 192, 0, 2, 1]).ok_or(
        "no code",
    )?;
    if defaults.fits(face) {
        Ok(table.decide(face, defaults, &code, shown))
    } else {
        Err("the defaults do not fit".into())
    }
}

/// What keeps a code from putting its message up under the small defaults while this is shown, and the cause's number.
fn cause_of(
    table: &Table,
    face: &Face,
    shown: &Shown,
    code: [u8; 8],
) -> Result<(Option<Cause>, u8), Fail> {
    match decision(table, face, &SMALL_DEFAULTS, shown, code)? {
        Ok(_) => Ok((None, 2)),
        Err(cause) => Ok((Some(cause), cause.number())),
    }
}

#[test]
fn an_activation_is_decided_by_its_row_and_priority(rt: HostRuntime) -> Result<(), Fail> {
    let face = face(rt.alloc())?;
    let mut table = Table::new(rt.alloc(), stock(&[B]), &face)?;
    validated(&mut table, &face, &DEFAULTS, b"A", 0, 0)?;
    let code = [0, 5, 255, 3, 0, 1, 0x9a, 0x66];
    let shown = decision(&table, &face, &DEFAULTS, &blank(), code)??;
    assert_eq!(rt;
        (
            shown.text.as_slice(),
            (shown.priority, shown.mode, shown.remaining),
            shown.address
        ),
        (b"A".as_slice(), (200, 8, Some(300)), [192, 0, 2, 1])
    );
    check_causes(&rt, &table, &face, &shown)
}

/// Asserts the causes while row 1 is shown with its priority.
fn check_causes(rt: &impl Abort, table: &Table, face: &Face, shown: &Shown) -> Result<(), Fail> {
    let fault = MultiFault {
        code: MultiFaultCode::CharacterNotDefined,
        place: 0,
    };
    for (code, cause, number) in [
        ([255, 255, 255, 6, 0, 1, 0, 0], Some(Cause::MemoryType), 5),
        ([255, 255, 255, 3, 0, 3, 0x9a, 0x66], Some(Cause::Number), 6),
        ([255, 255, 255, 3, 0, 2, 0x0f, 0x47], Some(Cause::Status), 4),
        (
            [255, 255, 255, 3, 0, 1, 0x0f, 0x47],
            Some(Cause::Checksum),
            7,
        ),
        (
            [255, 255, 199, 3, 0, 1, 0x9a, 0x66],
            Some(Cause::Priority),
            3,
        ),
        ([255, 255, 200, 3, 0, 1, 0x9a, 0x66], None, 2),
        (
            [255, 255, 255, 2, 0, 1, 0x75, 0x02],
            Some(Cause::Syntax(fault)),
            8,
        ),
        ([255, 255, 255, 7, 0, 0, 0, 0], Some(Cause::Number), 6),
        ([255, 255, 255, 5, 0, 2, 0x9a, 0x66], Some(Cause::Number), 6),
        (
            [255, 255, 255, 5, 0, 1, 0x9a, 0x67],
            Some(Cause::Checksum),
            7,
        ),
    ] {
        assert_eq!(rt; cause_of(table, face, shown, code)?, (cause, number));
    }
    Ok(())
}

/// `B` as it is shown, and what is shown after it by another code under the small defaults.
fn shown_after_b(alloc: Global, code: [u8; 8]) -> Result<(Shown, Shown), Fail> {
    let face = face(alloc)?;
    let table = Table::new(alloc, stock(&[B]), &face)?;
    let up = [255, 255, 255, 2, 0, 1, 0x75, 2];
    let b = decision(&table, &face, &DEFAULTS, &blank(), up)??;
    let next = decision(&table, &face, &SMALL_DEFAULTS, &b, code)??;
    Ok((b, next))
}

#[test]
fn what_is_shown_stays(rt: HostRuntime) -> Result<(), Fail> {
    let (b, kept) = shown_after_b(rt.alloc(), [0, 1, 255, 5, 0, 1, 0x75, 2])?;
    assert_eq!(rt;
        (
            kept.text.as_slice(),
            (kept.source, kept.defaults, kept.remaining)
        ),
        (b"B".as_slice(), (b.source, DEFAULTS, Some(60)))
    );
    Ok(())
}

#[test]
fn what_is_shown_is_blanked(rt: HostRuntime) -> Result<(), Fail> {
    let (_, blanked) = shown_after_b(rt.alloc(), [255, 255, 255, 7, 0, 255, 0x12, 0x34])?;
    assert_eq!(rt;
        (
            (blanked.source.crc, blanked.priority),
            (blanked.text.len(), blanked.defaults, blanked.remaining)
        ),
        ((0x1234, 255), (0, SMALL_DEFAULTS, None))
    );
    Ok(())
}

/// Whether a row has the text `B`, and its priority, status and checksum.
fn row_of(table: &Table, id: RowId) -> Option<(bool, u8, Status, u16)> {
    let row = table.row(id)?;
    Some((row.text == B.text, row.priority, row.status, row.checksum))
}

/// The only permanent row.
const PERMANENT: RowId = RowId {
    memory: 2,
    number: 1,
};

/// How many rows of a memory there are, are valid and are unused.
fn counted(table: &Table, memory: u8) -> (usize, usize, usize) {
    (
        table.row_count(memory),
        table.valid_count(memory),
        table.unused_count(memory),
    )
}

/// The counts of four memories; whether the permanent row has the text `B`, and its priority, status and checksum.
type Reported = ([(usize, usize, usize); 4], Option<(bool, u8, Status, u16)>);

const REPORTED: Reported = (
    [(1, 1, 0), (2, 0, 2), (1, 0, 1), (0, 0, 0)],
    Some((true, 100, Status::Valid, 29954)),
);

/// What a table with the row `B` reports.
fn reported(alloc: Global, face: &Face) -> Result<Reported, TableFault> {
    let table = Table::new(alloc, stock(&[B]), face)?;
    let counts = [
        counted(&table, 2),
        counted(&table, 3),
        counted(&table, 4),
        counted(&table, 7),
    ];
    Ok((counts, row_of(&table, PERMANENT)))
}

#[test]
fn a_table_reads_what_was_written(rt: HostRuntime) -> Result<(), Fail> {
    let face = face(rt.alloc())?;
    assert_eq!(rt; reported(rt.alloc(), &face), Ok(REPORTED));
    Ok(())
}

fn check_permanent(
    rt: &impl Abort,
    alloc: Global,
    face: &Face,
    permanent: &[Permanent<'_>],
    fault: TableFault,
) {
    let found = Table::new(alloc, stock(permanent), face).err();
    assert_eq!(rt; found, Some(fault));
}

#[test]
fn a_wrong_permanent_row_makes_no_table(rt: HostRuntime) -> Result<(), Fail> {
    let face = face(rt.alloc())?;
    let long = [65; 513];
    let rows: [(&[u8], u8, u8, u8); 5] = [
        (b"B", 0, 1, 100),
        (b"B", 2, 0, 100),
        (b"B", 0, 0, 0),
        (b"C", 0, 0, 100),
        (&long, 0, 0, 100),
    ];
    for (text, beacon, pixel, priority) in rows {
        let wrong = Permanent {
            text,
            owner: &[],
            beacon,
            pixel,
            priority,
        };
        check_permanent(
            &rt,
            rt.alloc(),
            &face,
            &[B, wrong, wrong],
            TableFault::Permanent(2),
        );
    }
    check_permanent(&rt, rt.alloc(), &face, &[B; 17], TableFault::Counts);
    Ok(())
}

/// How many permanent rows there are and are valid, and how many changeable and volatile ones are unused.
fn counted_of(
    alloc: Global,
    face: &Face,
    changeable: u8,
    volatile: u8,
) -> Result<[usize; 4], TableFault> {
    let mut stock = stock(&[B; 16]);
    stock.changeable = changeable;
    stock.volatile = volatile;
    let table = Table::new(alloc, stock, face)?;
    Ok([
        table.row_count(2),
        table.valid_count(2),
        table.unused_count(3),
        table.unused_count(4),
    ])
}

#[test]
fn a_table_has_64_changeable_and_16_volatile_rows_at_most(rt: HostRuntime) -> Result<(), Fail> {
    let face = face(rt.alloc())?;
    for (changeable, volatile, found) in [
        (0, 0, Ok([16, 16, 0, 0])),
        (64, 16, Ok([16, 16, 64, 16])),
        (65, 16, Err(TableFault::Counts)),
        (64, 17, Err(TableFault::Counts)),
    ] {
        assert_eq!(rt; counted_of(rt.alloc(), &face, changeable, volatile), found);
    }
    Ok(())
}

/// With any allocation of the call refused it answers out of memory, and the same call with memory gives the table.
#[test]
fn table_or_out_of_memory(rt: HostRuntime) {
    let Ok(face) = face(rt.alloc()) else {
        return;
    };
    let made = match reported(rt.alloc(), &face) {
        Err(TableFault::Memory) => reported(rt.alloc(), &face),
        made => made,
    };
    assert_eq!(rt; made, Ok(REPORTED));
}

fn checksum(table: &Table, id: RowId) -> Option<u16> {
    Some(table.row(id)?.checksum)
}

/// The first changeable row is modified, written and validated, and then takes no modification.
fn check_begun(rt: &impl Abort, table: &mut Table) {
    let row = RowId {
        memory: memory::CHANGEABLE,
        number: 1,
    };
    assert_eq!(rt;
        (
            table.ask(row, Ask::Modify),
            table.write(row, Field::Text(b"A")),
            table.ask(row, Ask::Validate),
            table.takes(row, Ask::Modify),
            table.settling()
        ),
        (
            Ok(()),
            Ok(()),
            Ok(()),
            false,
            Some(RowPlace {
                memory: Writable::Changeable,
                index: 0
            })
        )
    );
}

/// The error of the verdict on it, whether it passes, what is being validated then, and the row's checksum.
fn settled(table: &mut Table, face: &Face) -> Option<(u8, bool, Option<RowPlace>, Option<u16>)> {
    let verdict = table.settle(face, &face.defaults())?;
    Some((
        verdict.error,
        verdict.passes(),
        table.settling(),
        checksum(table, FIRST),
    ))
}

#[test]
fn a_validated_row_has_its_checksum(rt: HostRuntime) -> Result<(), Fail> {
    let face = face(rt.alloc())?;
    let mut table = Table::new(rt.alloc(), stock(&[]), &face)?;
    check_begun(&rt, &mut table);
    let found = settled(&mut table, &face);
    assert_eq!(rt; found, Some((2, true, None, Some(0x9a66))));
    Ok(())
}

/// What a table has and does in a type of memory.
#[derive(Clone, Copy, Debug, PartialEq, Eq)]
struct InMemory {
    /// How many rows there are, are valid and are not used.
    counts: [usize; 3],
    /// Whether number 1 is a row, and whether it takes that it be modified.
    first: [bool; 2],
    /// What keeps number 1 from being activated.
    cause: Option<Cause>,
}

fn in_memory(table: &mut Table, face: &Face, shown: &Shown, memory: u8) -> Result<InMemory, Fail> {
    let id = RowId { memory, number: 1 };
    let counts = [
        table.row_count(memory),
        table.valid_count(memory),
        table.unused_count(memory),
    ];
    let takes = table.takes(id, Ask::Modify);
    if table.ask(id, Ask::Modify).is_ok() != takes
        || table.write(id, Field::Beacon(0)).is_ok() != takes
        || table.ask(id, Ask::NotUsed).is_ok() != takes
    {
        return Err("the row takes something else".into());
    }
    let code = [255, 255, 255, memory, 0, 1, 0, 0];
    let cause = match decision(table, face, &DEFAULTS, shown, code)? {
        Ok(_) => None,
        Err(cause) => Some(cause),
    };
    Ok(InMemory {
        counts,
        first: [table.row(id).is_some(), takes],
        cause,
    })
}

#[test]
fn each_type_of_memory(rt: HostRuntime) -> Result<(), Fail> {
    let face = face(rt.alloc())?;
    let mut table = Table::new(rt.alloc(), stock(&[B; 3]), &face)?;
    let shown = blank();
    for memory in 0..=255 {
        let (counts, first, cause) = match memory {
            2 => ([3, 3, 0], [true, false], Some(Cause::Checksum)),
            3 => ([2, 0, 2], [true, true], Some(Cause::Status)),
            4 => ([1, 0, 1], [true, true], Some(Cause::Status)),
            5 => ([0, 0, 0], [false, false], None),
            7 => ([0, 0, 0], [true, false], None),
            _ => ([0, 0, 0], [false, false], Some(Cause::MemoryType)),
        };
        let found = InMemory {
            counts,
            first,
            cause,
        };
        assert_eq!(rt; in_memory(&mut table, &face, &shown, memory)?, found);
    }
    Ok(())
}
