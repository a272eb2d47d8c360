//! What a sign takes up of a saved state.

use super::bench::sign_of;
use dms_face::Defaults;
use dms_sign::{MessageFault, Sign, SignParts, StateFault};
use dms_sign_access::{ReportFault, Reports};
use dms_sign_bench::states::{ROW, SHOWN};
use dms_sign_bench::{DEFAULTS, stock};
use dms_table::{MessageId, Mode, RowFault, RowId, SavedShown, Shown, memory};
use std::alloc::Global;
use std::process::Abort;
use std::test::Fail;

const FIRST: RowId = RowId {
    memory: memory::CHANGEABLE,
    number: 1,
};

const NO_SUCH_FONT: Defaults = Defaults {
    font: 99,
    ..DEFAULTS
};

/// The parts of a sign, with this message and so many seconds of silence.
fn parts(sign: &Sign, shown: Shown, silent_seconds: u32) -> SignParts {
    SignParts {
        settings: sign.settings(),
        silent_seconds,
        shown,
        shown_at_power_loss: sign.shown_at_power_loss().again(),
        reports: sign.reports(),
        powered: sign.is_powered(),
    }
}

/// What is wrong with a message, or with so many seconds of silence.
fn fault(sign: &mut Sign, saved: &SavedShown<'_>, silent_seconds: u32) -> Option<StateFault> {
    let shown = Shown::of(saved).ok()?;
    let parts = parts(sign, shown, silent_seconds);
    sign.take_up(parts).err()
}

fn check_fault(rt: &impl Abort, sign: &mut Sign, saved: &SavedShown<'_>, wrong: MessageFault) {
    assert!(rt; fault(sign, saved, 0) == Some(StateFault::Shown(wrong)));
}

#[test]
fn a_row_is_put_back(rt: HostRuntime) -> Result<(), Fail> {
    let mut sign = sign_of(rt.alloc(), stock(&[]))?;
    assert!(rt; sign.put_row(FIRST, &ROW) == Ok(()));
    assert!(rt; sign.put_row(FIRST, &ROW) == Err(RowFault::Used));
    assert!(rt; sign.table().row(FIRST).map(|row| row.checksum) == Some(0x9a66));
    Ok(())
}

/// A sign whose first changeable row is that of the message.
fn with_its_row(alloc: Global) -> Result<Sign, Fail> {
    let mut sign = sign_of(alloc, stock(&[]))?;
    let _ = sign.put_row(FIRST, &ROW);
    Ok(sign)
}

#[test]
fn a_message_is_taken_up(rt: HostRuntime) -> Result<(), Fail> {
    let mut sign = with_its_row(rt.alloc())?;
    assert!(rt; fault(&mut sign, &SHOWN, 5).is_none());
    assert!(rt; sign.silent_seconds() == 5 && sign.shown().remaining == Some(90));
    assert!(rt; sign.shown().text.len() == 1);
    Ok(())
}

/// The message, with a source of this name and this checksum.
fn named(memory: u8, number: u16, crc: u16) -> SavedShown<'static> {
    let source = MessageId {
        memory,
        number,
        crc,
    };
    SavedShown { source, ..SHOWN }
}

#[test]
fn no_message_is_taken_up_that_the_sign_cannot_show(rt: HostRuntime) -> Result<(), Fail> {
    let mut sign = with_its_row(rt.alloc())?;
    let with_pixel = SavedShown {
        pixel: 1,
        ..named(memory::CHANGEABLE, 1, 0x8bef)
    };
    let with_font = SavedShown {
        defaults: NO_SUCH_FONT,
        ..SHOWN
    };
    let of_no_row = named(memory::CHANGEABLE, 3, 0x9a66);
    let of_what_is_shown = named(memory::CURRENT_BUFFER, 1, 0x9a66);
    check_fault(&rt, &mut sign, &of_no_row, MessageFault::Source);
    check_fault(&rt, &mut sign, &of_what_is_shown, MessageFault::Source);
    check_fault(&rt, &mut sign, &with_pixel, MessageFault::PixelService);
    check_fault(&rt, &mut sign, &with_font, MessageFault::Defaults);
    assert!(rt; fault(&mut sign, &SHOWN, 3_932_101) == Some(StateFault::Silence));
    assert!(rt; sign.shown().text.is_empty());
    Ok(())
}

/// What is wrong with these errors and this place, of a sign with power that shows the message.
fn fault_of_reports(sign: &mut Sign, errors: [u8; 3], place: u16) -> Option<ReportFault> {
    let [validate_error, activate_error, syntax_error] = errors;
    let mut parts = parts(sign, Shown::of(&SHOWN).ok()?, 0);
    parts.reports = Reports {
        validate_error,
        activate_error,
        syntax_error,
        syntax_error_position: place,
        ..Reports::new()
    };
    match sign.take_up(parts) {
        Err(StateFault::Reports(fault)) => Some(fault),
        _ => None,
    }
}

#[test]
fn no_reports_are_taken_up_that_no_sign_makes(rt: HostRuntime) -> Result<(), Fail> {
    let mut sign = with_its_row(rt.alloc())?;
    for (errors, place, found) in [
        ([1, 8, 13], 512, Some(ReportFault::ValidateError)),
        ([5, 9, 13], 512, Some(ReportFault::ActivateError)),
        ([5, 8, 8], 512, Some(ReportFault::SyntaxError)),
        ([5, 8, 13], 513, Some(ReportFault::Position)),
        ([5, 8, 2], 1, Some(ReportFault::Position)),
        ([5, 8, 13], 512, None),
        ([2, 2, 2], 0, None),
    ] {
        assert!(rt; fault_of_reports(&mut sign, errors, place) == found);
    }
    Ok(())
}

/// What is wrong with this power, where these put up what is shown and what was kept.
fn fault_of_power(sign: &mut Sign, powered: bool, shown: Mode, kept: Mode) -> Option<StateFault> {
    let mut parts = parts(sign, Shown::blank(&DEFAULTS, shown), 0);
    parts.shown_at_power_loss = Shown::blank(&DEFAULTS, kept);
    parts.powered = powered;
    sign.take_up(parts).err()
}

#[test]
fn there_is_power_where_a_loss_of_power_shows_nothing(rt: HostRuntime) -> Result<(), Fail> {
    let mut sign = sign_of(rt.alloc(), stock(&[]))?;
    let (loss, other) = (Mode::PowerLoss, Mode::Central);
    for (powered, shown, kept, found) in [
        (true, loss, other, Some(StateFault::Power)),
        (false, other, other, Some(StateFault::Power)),
        (false, loss, loss, Some(StateFault::Power)),
        (false, loss, other, None),
        (true, Mode::EndDuration, other, None),
    ] {
        assert!(rt; fault_of_power(&mut sign, powered, shown, kept) == found);
    }
    assert!(rt; sign.is_powered());
    Ok(())
}

#[test]
fn a_fault_names_what_is_wrong(rt: HostRuntime) -> Result<(), Fail> {
    let fault = StateFault::Kept(MessageFault::Source);
    let words = format!(in rt.alloc(); "{fault}")?;
    assert!(rt; words.as_str() == "what was kept: the sign has no row of its source");
    Ok(())
}
