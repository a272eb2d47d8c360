//! The names of objects that `decode` prints beside their numbers.

use signtool_acts::act::act;
use signtool_calls::{Call, Form};
use std::alloc::Global;
use std::test::Fail;

/// The objects of a sign that have one instance: the number of a node below `dms`, the object's number there, and its
/// name (NTCIP 1203).
const OBJECTS: [(u8, u8, &str); 36] = [
    (2, 3, "vmsSignHeightPixels"),
    (2, 4, "vmsSignWidthPixels"),
    (4, 1, "defaultBackgroundColor"),
    (4, 2, "defaultForegroundColor"),
    (4, 3, "defaultFlashOn"),
    (4, 4, "defaultFlashOff"),
    (4, 5, "defaultFont"),
    (4, 6, "defaultJustificationLine"),
    (4, 7, "defaultJustificationPage"),
    (4, 8, "defaultPageOnTime"),
    (4, 9, "defaultPageOffTime"),
    (4, 11, "dmsColorScheme"),
    (5, 1, "dmsNumPermanentMsg"),
    (5, 2, "dmsNumChangeableMsg"),
    (5, 3, "dmsMaxChangeableMsg"),
    (5, 4, "dmsFreeChangeableMemory"),
    (5, 5, "dmsNumVolatileMsg"),
    (5, 6, "dmsMaxVolatileMsg"),
    (5, 7, "dmsFreeVolatileMemory"),
    (5, 9, "dmsValidateMessageError"),
    (6, 3, "dmsActivateMessage"),
    (6, 4, "dmsMessageTimeRemaining"),
    (6, 5, "dmsMsgTableSource"),
    (6, 6, "dmsMsgRequesterID"),
    (6, 7, "dmsMsgSourceMode"),
    (6, 8, "dmsShortPowerRecoveryMessage"),
    (6, 9, "dmsLongPowerRecoveryMessage"),
    (6, 10, "dmsShortPowerLossTime"),
    (6, 12, "dmsCommunicationsLossMessage"),
    (6, 13, "dmsTimeCommLoss"),
    (6, 14, "dmsPowerLossMessage"),
    (6, 15, "dmsEndDurationMessage"),
    (6, 17, "dmsActivateMsgError"),
    (6, 18, "dmsMultiSyntaxError"),
    (6, 19, "dmsMultiSyntaxErrorPosition"),
    (6, 24, "dmsActivateErrorMsgCode"),
];

/// The columns of dmsMessageTable, the first of which has the number 1.
const COLUMNS: [&str; 9] = [
    "dmsMessageMemoryType",
    "dmsMessageNumber",
    "dmsMessageMultiString",
    "dmsMessageOwner",
    "dmsMessageCRC",
    "dmsMessageBeacon",
    "dmsMessagePixelService",
    "dmsMessageRunTimePriority",
    "dmsMessageStatus",
];

/// Names below `dms` that are no instance of an object.
const NO_INSTANCES: [&[u8]; 9] = [
    &[2, 3],
    &[2, 3, 1],
    &[2, 3, 0, 0],
    &[5, 8, 1, 9],
    &[5, 8, 1, 9, 3],
    &[5, 8, 1, 9, 3, 1, 0],
    &[5, 8, 2, 9, 3, 1],
    &[5, 9, 1, 9, 3, 1],
    &[6, 8, 1, 9, 3, 1],
];

/// What `decode` prints of a Get of the name that is these numbers below `dms`, each below 128.
fn decoded(alloc: Global, below: &[u8]) -> Result<Vec<u8>, Fail> {
    let length = below.len() + 10;
    let mut digits = format!(in alloc;
        "30{:02x}02010004067075626c6963a0{:02x}02010102010002010030{:02x}30{:02x}06{:02x}2b060104018936040203",
        length + 30,
        length + 17,
        length + 6,
        length + 4,
        length,
    )?;
    for number in below {
        digits.push_str(format!(in alloc; "{number:02x}")?.as_str())?;
    }
    digits.push_str("0500")?;
    let call = Call::Decode {
        hex: digits.as_str(),
        spaced: false,
        form: Form::Lines,
    };
    let mut output = Vec::new(alloc);
    let mut input: &[u8] = &[];
    act(alloc, &call, &mut input, &mut output);
    Ok(output)
}

/// Whether what `decode` prints of a Get of this name ends so.
fn ends_with(alloc: Global, below: &[u8], end: &str) -> Result<bool, Fail> {
    Ok(decoded(alloc, below)?.as_slice().ends_with(end.as_bytes()))
}

/// The name of the object with one instance that has these numbers below `dms`, if it is one.
fn object_at(node: u8, place: u8) -> Option<&'static str> {
    for (group, number, name) in OBJECTS {
        if group == node && number == place {
            return Some(name);
        }
    }
    None
}

/// Each object with one instance has its name beside its numbers, and other numbers have none.
#[test]
fn objects_with_one_instance(rt: HostRuntime) -> Result<(), Fail> {
    let alloc = rt.alloc();
    for node in 0..=7_u8 {
        for place in 0..=30_u8 {
            let end = match object_at(node, place) {
                Some(name) => format!(in alloc; ".{node}.{place}.0 ({name}.0): NULL\n")?,
                None => format!(in alloc; ".{node}.{place}.0: NULL\n")?,
            };
            let named = ends_with(alloc, &[node, place, 0], end.as_str())?;
            assert!(rt; named, "{node}.{place}");
        }
    }
    Ok(())
}

/// Each column has its name beside its numbers, with the row, and other numbers have none.
#[test]
fn each_column_has_its_name_beside_its_numbers(rt: HostRuntime) -> Result<(), Fail> {
    let alloc = rt.alloc();
    for place in 0..=12_u8 {
        for (memory, row) in [(3_u8, 1_u8), (0, 0), (7, 127)] {
            let name = COLUMNS.get(usize::from(place).wrapping_sub(1));
            let end = match name {
                Some(name) => {
                    format!(in alloc; ".{place}.{memory}.{row} ({name}.{memory}.{row}): NULL\n")?
                }
                None => format!(in alloc; ".{place}.{memory}.{row}: NULL\n")?,
            };
            let named = ends_with(alloc, &[5, 8, 1, place, memory, row], end.as_str())?;
            assert!(rt; named, "{place}.{memory}.{row}");
        }
    }
    Ok(())
}

/// Nothing stands beside numbers that are no instance's.
#[test]
fn nothing_stands_beside_numbers_of_no_instance(rt: HostRuntime) -> Result<(), Fail> {
    for below in NO_INSTANCES {
        let printed = decoded(rt.alloc(), below)?;
        let is_named = printed.as_slice().contains(&b'(');
        assert!(rt;
            !is_named && printed.as_slice().ends_with(b": NULL\n"),
            "{below:?}"
        );
    }
    Ok(())
}
