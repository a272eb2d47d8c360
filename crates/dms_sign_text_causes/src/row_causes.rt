//! Why a permanent row can not stand.

ghost use Rattle.std.specs.Prelude.{◌≡◌, ◌↔◌, IsTrue, is_none};
ghost use Rattle.dms_table.specs.Stock.{permanent_row, may_stand};
ghost use Rattle.dms_sign_text_causes.specs.RowCauses.{row_cause, range_cause, service_cause, text_cause};

use dms_codes::{MAX_OWNER, MAX_TEXT};
use dms_face::{Face, MultiFault, check};
use dms_table::{Permanent, Services};
use std::fmt;

/// Why a permanent row can not stand.
#[derive(Clone, Copy, Debug, PartialEq, Eq)]
pub enum RowCause {
    /// Its text is too long.
    LongText,
    /// Its owner is too long.
    LongOwner,
    /// Its beacon is neither 0 nor 1.
    Beacon,
    /// Its pixel service is neither 0 nor 1.
    Pixel,
    /// Its priority is 0.
    Priority,
    /// It wants beacons, which the sign has not.
    NoBeacons,
    /// It wants a pixel service, which the sign has not.
    NoPixelService,
    /// Its text can not be shown.
    Text(MultiFault),
}

impl fmt::Display for RowCause {
    ghost use Rattle.std.specs.Prelude.{Some};
    ghost use Rattle.dms_sign_text_causes.specs.Texts.{row_cause_text};

    ghost output = { λ cause. Some (row_cause_text cause) };

    fn fmt<W: fmt::Write>(&self, f: &mut fmt::Formatter<W>) -> fmt::Result {
        match self {
            RowCause::LongText => f.write_str("its text is longer than 512 octets"),
            RowCause::LongOwner => f.write_str("its owner is longer than 127 octets"),
            RowCause::Beacon => f.write_str("its beacon is neither 0 nor 1"),
            RowCause::Pixel => f.write_str("its pixel service is neither 0 nor 1"),
            RowCause::Priority => f.write_str("its priority is 0"),
            RowCause::NoBeacons => f.write_str("the sign has no beacons"),
            RowCause::NoPixelService => f.write_str("the sign has no pixel service"),
            RowCause::Text(fault) => write!(f, "its text: {fault}"),
        }
    }
}

/// The first reason why a permanent row can not stand on this face.
pub fn row_cause(services: Services, face: &Face, row: &Permanent<'_>) -> Option<RowCause>
    ensures { result ≡ row_cause services face.now (permanent_row row.now) }
{
    if let Some(cause) = range_cause(row) {
        return Some(cause);
    }
    if let Some(cause) = service_cause(services, row) {
        return Some(cause);
    }
    text_cause(face, row.text)
}

fn range_cause(row: &Permanent<'_>) -> Option<RowCause>
    ensures { result ≡ range_cause (permanent_row row.now) }
{
    if row.text.len() > MAX_TEXT {
        return Some(RowCause::LongText);
    }
    if row.owner.len() > MAX_OWNER {
        return Some(RowCause::LongOwner);
    }
    if row.beacon > 1 {
        return Some(RowCause::Beacon);
    }
    if row.pixel > 1 {
        return Some(RowCause::Pixel);
    }
    if row.priority < 1 {
        return Some(RowCause::Priority);
    }
    None
}

fn service_cause(services: Services, row: &Permanent<'_>) -> Option<RowCause>
    ensures { result ≡ service_cause services (permanent_row row.now) }
{
    if row.beacon == 1 && !services.beacon {
        return Some(RowCause::NoBeacons);
    }
    if row.pixel == 1 && !services.pixel {
        return Some(RowCause::NoPixelService);
    }
    None
}

fn text_cause(face: &Face, text: &[u8]) -> Option<RowCause>
    ensures { result ≡ text_cause face.now text.now }
{
    match check(face, text) {
        Ok(_) => None,
        Err(fault) => Some(RowCause::Text(fault)),
    }
}
