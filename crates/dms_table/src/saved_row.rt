//! Rows of a saved state.

ghost use Rattle.std.specs.Prelude.{◌≡◌, ◌&&◌, IfNone};
ghost use Rattle.dms_table.specs.Rows.{is_in_range, Beacon, Pixel};
ghost use Rattle.dms_table.specs.SavedRows.{row_saved, is_served, value_fault};
ghost use Rattle.dms_table.specs.TableView.{FitsARow};

use crate::row::Services;
use dms_codes::{MAX_OWNER, MAX_TEXT, Status};
use std::error::Error;
use std::fmt;

/// A row that is put back; its checksum is computed.
#[derive(Clone, Copy, Debug, PartialEq, Eq)]
pub struct SavedRow<'a> {
    /// The text, at most `MAX_TEXT` octets.
    pub text: &'a [u8],
    /// The owner, at most `MAX_OWNER` octets.
    pub owner: &'a [u8],
    /// 1 where the beacons are on, else 0.
    pub beacon: u8,
    /// 1 where the pixel service is on, else 0.
    pub pixel: u8,
    /// The run-time priority, 1 to 255.
    pub priority: u8,
    /// The status: any but that of a row that is not used.
    pub status: Status,
}

/// Why a row is not put in a place.
#[derive(Clone, Copy, Debug, PartialEq, Eq)]
pub enum RowFault {
    /// It is a row that is not used.
    NotUsed,
    /// The text has more than `MAX_TEXT` octets.
    Text,
    /// The owner has more than `MAX_OWNER` octets.
    Owner,
    /// The beacon is neither 0 nor 1, or the row is valid with a beacon that the sign has not.
    Beacon,
    /// The pixel service is neither 0 nor 1, or the row is valid with a pixel service that the sign has not.
    Pixel,
    /// The priority is 0.
    Priority,
    /// It is being validated, and so is another.
    Validating,
    /// There is no such row, or none that can be changed.
    Place,
    /// The row that is there is used.
    Used,
}

impl fmt::Display for RowFault {
    ghost use Rattle.std.specs.Prelude.{Some};
    ghost use Rattle.dms_table.specs.FaultTexts.{row_fault_text};

    ghost output = { λ fault. Some (row_fault_text fault) };

    fn fmt<W: fmt::Write>(&self, f: &mut fmt::Formatter<W>) -> fmt::Result {
        match self {
            RowFault::NotUsed => f.write_str("the row is not used"),
            RowFault::Text => f.write_str("the text is too long"),
            RowFault::Owner => f.write_str("the owner is too long"),
            RowFault::Beacon => f.write_str("no such beacon"),
            RowFault::Pixel => f.write_str("no such pixel service"),
            RowFault::Priority => f.write_str("no such priority"),
            RowFault::Validating => f.write_str("another row is being validated"),
            RowFault::Place => f.write_str("no such row can be changed"),
            RowFault::Used => f.write_str("the row that is there is used"),
        }
    }
}

impl Error for RowFault {}

impl<'a> SavedRow<'a> {
    /// The first thing that is wrong with the row on a sign that has this.
    pub(crate) fn fault(&self, services: Services) -> Option<RowFault>
        ensures first { result ≡ value_fault services (row_saved self.now) }
        ensures short { IfNone result (FitsARow self.now) }
    {
        if self.status == Status::NotUsed {
            Some(RowFault::NotUsed)
        } else if self.text.len() > MAX_TEXT {
            Some(RowFault::Text)
        } else if self.owner.len() > MAX_OWNER {
            Some(RowFault::Owner)
        } else if !may_have(self.status, services.beacon, self.beacon) {
            Some(RowFault::Beacon)
        } else if !may_have(self.status, services.pixel, self.pixel) {
            Some(RowFault::Pixel)
        } else if self.priority == 0 {
            Some(RowFault::Priority)
        } else {
            None
        }
    }
}

/// Whether a row of this status may have this beacon, or this pixel service, on a sign that has one or has none.
fn may_have(status: Status, has: bool, on: u8) -> bool
    ensures beacon { result ≡ is_in_range (Beacon on) && is_served status has on }
    ensures pixel { result ≡ is_in_range (Pixel on) && is_served status has on }
{
    on <= 1 && (has || !(status == Status::Valid && on == 1))
}
