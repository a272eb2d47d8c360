//! A sign that can not be made, in numbers.

ghost use Rattle.std.specs.Prelude.{◌≡◌};
ghost use Rattle.wisangub_c_causes.specs.SignCauses.{row_kind, row_bounds, row_fault, sign_kind, sign_bounds};
ghost use Rattle.wisangub_c_causes.specs.SignCauses.{sign_number, sign_row, of_sign};
ghost use Rattle.wisangub_c_causes.specs.SignCauses.{fault_place, fault_code};

use crate::cause::{Bounds, CauseNumbers};
use dms_codes::{
    MAX_CHANGEABLE, MAX_COMMUNITY, MAX_MATRIX_HEIGHT, MAX_MATRIX_WIDTH, MAX_OWNER, MAX_PERMANENT,
    MAX_TEXT, MAX_VOLATILE,
};
use dms_face::{MAX_FONTS, MultiFault};
use dms_sign_text_causes::{RowCause, SignCause};

/// Why a permanent row can not stand: 28 its text and 29 its owner have too many octets; 30 its beacon, 31 its pixel
/// service and 32 its priority are out of range; 33 the sign has no beacons and 34 no pixel service; 35 its text can
/// not be shown.
fn row_kind(cause: RowCause) -> u8
    ensures { result ≡ row_kind cause }
{
    match cause {
        RowCause::LongText => 28,
        RowCause::LongOwner => 29,
        RowCause::Beacon => 30,
        RowCause::Pixel => 31,
        RowCause::Priority => 32,
        RowCause::NoBeacons => 33,
        RowCause::NoPixelService => 34,
        RowCause::Text(_) => 35,
    }
}

/// From which number or size to which what is wrong with the row is to be.
fn row_bounds(cause: RowCause) -> Bounds
    ensures { result ≡ row_bounds cause }
{
    let (least, most) = match cause {
        RowCause::LongText => (0, MAX_TEXT as u32),
        RowCause::LongOwner => (0, MAX_OWNER as u32),
        RowCause::Beacon | RowCause::Pixel => (0, 1),
        RowCause::Priority => (1, 255),
        RowCause::NoBeacons | RowCause::NoPixelService | RowCause::Text(_) => (0, 0),
    };
    Bounds { least, most }
}

/// What is wrong with the row's text.
fn row_fault(cause: SignCause) -> Option<MultiFault>
    ensures { result ≡ row_fault cause }
{
    match cause {
        SignCause::Row(_, RowCause::Text(fault)) => Some(fault),
        _ => None,
    }
}

/// Which cause it is: 13 the matrix's width, 14 its height, 15 the number of fonts, 16 a number that two fonts have;
/// the default 17 background, 18 foreground, 19 justification of lines, 20 of pages, 21 font; 22 the reading and 23 the
/// writing community, 24 that they are one; the number of 25 permanent, 26 changeable and 27 volatile rows; or the
/// row's.
fn sign_kind(cause: SignCause) -> u8
    ensures { result ≡ sign_kind cause }
{
    match cause {
        SignCause::NoColumns | SignCause::Wide => 13,
        SignCause::NoRows | SignCause::High => 14,
        SignCause::NoFont | SignCause::FifthFont => 15,
        SignCause::FontTwice(_) => 16,
        SignCause::Background(_) => 17,
        SignCause::Foreground(_) => 18,
        SignCause::Line(_) => 19,
        SignCause::Page(_) => 20,
        SignCause::Font(_) => 21,
        SignCause::Reader => 22,
        SignCause::Writer => 23,
        SignCause::SameCommunities => 24,
        SignCause::PermanentRows => 25,
        SignCause::ChangeableRows => 26,
        SignCause::VolatileRows => 27,
        SignCause::Row(_, cause) => row_kind(cause),
    }
}

/// From which number or size to which what is wrong is to be.
fn sign_bounds(cause: SignCause) -> Bounds
    ensures { result ≡ sign_bounds cause }
{
    let (least, most) = match cause {
        SignCause::NoColumns | SignCause::Wide => (1, u32::from(MAX_MATRIX_WIDTH)),
        SignCause::NoRows | SignCause::High => (1, u32::from(MAX_MATRIX_HEIGHT)),
        SignCause::NoFont | SignCause::FifthFont => (1, MAX_FONTS as u32),
        SignCause::Background(_) | SignCause::Foreground(_) => (0, 9),
        SignCause::Line(_) | SignCause::Page(_) => (2, 4),
        SignCause::Reader | SignCause::Writer => (1, MAX_COMMUNITY as u32),
        SignCause::PermanentRows => (0, MAX_PERMANENT as u32),
        SignCause::ChangeableRows => (0, u32::from(MAX_CHANGEABLE)),
        SignCause::VolatileRows => (0, u32::from(MAX_VOLATILE)),
        SignCause::FontTwice(_) | SignCause::Font(_) | SignCause::SameCommunities => (0, 0),
        SignCause::Row(_, cause) => return row_bounds(cause),
    };
    Bounds { least, most }
}

/// The number of a font, or the default, that stands there.
fn sign_number(cause: SignCause) -> u8
    ensures { result ≡ sign_number cause }
{
    match cause {
        SignCause::FontTwice(number)
        | SignCause::Background(number)
        | SignCause::Foreground(number)
        | SignCause::Line(number)
        | SignCause::Page(number)
        | SignCause::Font(number) => number,
        _ => 0,
    }
}

fn sign_row(cause: SignCause) -> usize
    ensures { result ≡ sign_row cause }
{
    match cause {
        SignCause::Row(number, _) => number,
        _ => 0,
    }
}

pub(crate) fn fault_place(fault: Option<MultiFault>) -> usize
    ensures { result ≡ fault_place fault }
{
    match fault {
        Some(fault) => fault.place,
        None => 0,
    }
}

pub(crate) fn fault_code(fault: Option<MultiFault>) -> u8
    ensures { result ≡ fault_code fault }
{
    match fault {
        Some(fault) => fault.code.number(),
        None => 0,
    }
}

/// The line ends a sign that can not be made.
pub(crate) fn of_sign(line: usize, cause: SignCause) -> CauseNumbers
    ensures { result ≡ of_sign line cause }
{
    let bounds = sign_bounds(cause);
    let fault = row_fault(cause);
    CauseNumbers {
        line,
        word: 0,
        row: sign_row(cause),
        place: fault_place(fault),
        least: bounds.least,
        most: bounds.most,
        kind: sign_kind(cause),
        wanted: 0,
        number: sign_number(cause),
        code: fault_code(fault),
    }
}
