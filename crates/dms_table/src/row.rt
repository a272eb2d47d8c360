//! Rows of the table.

ghost use Rattle.std.specs.Prelude.{◌≡◌, false, true, ◌≤◌, [], Some, None, OnOk, OnErr, IfErr, IfSome, IsTrue};
ghost use Rattle.std.specs.Prelude.{length, option_map, is_some};
ghost use Rattle.std.specs.Int.Digits.{AllBelowBase};
ghost use Rattle.dms_table.specs.Rows.{unused, interrupted, is_in_range, with_field, with_status, asked_row};
ghost use Rattle.dms_table.specs.Rows.{written_row, blank_at, blank_reading, reading, row_is_validating};
ghost use Rattle.dms_codes.specs.Status.{is_valid, is_not_used};
ghost use Rattle.dms_face.specs.Face.{fit};
ghost use Rattle.dms_table.specs.ValidatorView.{settled_by, verdict_by, IsJudged};
ghost use Rattle.dms_table.specs.Stock.{permanent_row, has_ranges, HasOctets};
ghost use Rattle.dms_table.specs.RowsView.{field_of, reading_of, IsShort};
ghost use Rattle.dms_table.specs.SavedRows.{row_saved, put_over, place_fault};
ghost use Rattle.dms_table.specs.TableView.{FitsARow};

use crate::saved_row::{RowFault, SavedRow};
use crate::stock::Permanent;
use crate::validation::{Validator, Verdict};
use arrayvec::ArrayVec;
use dms_codes::{Ask, MAX_OWNER, MAX_TEXT, Status, crc};
use std::error::Error;
use std::fmt;
use std::marker::Model;

/// What a sign has beside its matrix.
#[derive(Clone, Copy, Debug, PartialEq, Eq)]
pub struct Services {
    /// Beacons.
    pub beacon: bool,
    /// A pixel service.
    pub pixel: bool,
}

/// A value for a field of a row (NTCIP 1203, dmsMessageTable).
#[derive(Clone, Copy, Debug, PartialEq, Eq)]
pub enum Field<'a> {
    /// dmsMessageMultiString: at most `MAX_TEXT` octets.
    Text(&'a [u8]),
    /// dmsMessageOwner: at most `MAX_OWNER` octets.
    Owner(&'a [u8]),
    /// dmsMessageBeacon: 0 or 1.
    Beacon(u8),
    /// dmsMessagePixelService: 0 or 1.
    Pixel(u8),
    /// dmsMessageRunTimePriority: 1 to 255.
    Priority(u8),
}

/// A row as it is read (NTCIP 1203, dmsMessageTable).
#[derive(Clone, Copy, Debug, PartialEq, Eq)]
pub struct RowView<'a> {
    /// The text, at most `MAX_TEXT` octets.
    pub text: &'a [u8],
    /// The owner, at most `MAX_OWNER` octets.
    pub owner: &'a [u8],
    /// 1 where the beacons are on, else 0.
    pub beacon: u8,
    /// 1 where the pixel service is on, else 0.
    pub pixel: u8,
    /// The run-time priority, 1 to 255.
    pub priority: u8,
    /// The status.
    pub status: Status,
    /// The checksum; 0 where the row is not valid, or is a blank message.
    pub checksum: u16,
}

/// A row does not take this now; nothing changed.
#[derive(Clone, Copy, Debug, PartialEq, Eq)]
pub struct Refused;

impl fmt::Display for Refused {
    ghost use Rattle.std.specs.Prelude.{Some};
    ghost use Rattle.dms_table.specs.FaultTexts.{refused_text};

    ghost output = { λ _. Some refused_text };

    fn fmt<W: fmt::Write>(&self, f: &mut fmt::Formatter<W>) -> fmt::Result {
        f.write_str("the row does not take this now")
    }
}

impl Error for Refused {}

/// A row of the table, with room for the longest text and owner.
#[derive(Drop)]
pub(crate) struct Row {
    text: ArrayVec<u8, MAX_TEXT>,
    owner: ArrayVec<u8, MAX_OWNER>,
    beacon: u8,
    pixel: u8,
    priority: u8,
    status: Status,
    /// The checksum of the message, while the row is valid.
    checksum: u16,
}

impl Model for Row {
    ghost use Rattle.dms_table.specs.Rows.{RowModel};
    ghost use Rattle.dms_table.specs.RowsView.{HasItsChecksum};

    ghost Value = { RowModel };

    ghost view = { λ r. record {
      text = r.text.items;
      owner = r.owner.items;
      beacon = r.beacon;
      pixel = r.pixel;
      priority = r.priority;
      status = r.status;
    } };

    ghost invariant = { λ r. HasItsChecksum r.text.items r.beacon r.pixel r.status r.checksum };
}

impl Row {
    /// A row that is not used.
    pub(crate) fn unused() -> Row
        ensures { result ≡ unused }
    {
        Row {
            text: ArrayVec::new(),
            owner: ArrayVec::new(),
            beacon: 0,
            pixel: 0,
            priority: 1,
            status: Status::NotUsed,
            checksum: 0,
        }
    }

    /// A row that the sign is made with.
    pub(crate) fn permanent(message: &Permanent<'_>) -> Row
        requires { IsTrue (has_ranges (permanent_row message.now)) }
        ensures row { result ≡ permanent_row message.now }
        ensures octets { HasOctets result }
    {
        Row {
            text: copy_of(message.text),
            owner: copy_of(message.owner),
            beacon: message.beacon,
            pixel: message.pixel,
            priority: message.priority,
            status: Status::Valid,
            checksum: crc(message.text, message.beacon, message.pixel),
        }
    }

    pub(crate) fn is_valid(&self) -> bool
        ensures { result ≡ is_valid self.now.status }
    {
        self.status == Status::Valid
    }

    pub(crate) fn is_not_used(&self) -> bool
        ensures { result ≡ is_not_used self.now.status }
    {
        self.status == Status::NotUsed
    }

    /// The row as it is read.
    pub(crate) fn view(&self) -> RowView<'_>
        ensures read { reading_of result ≡ reading self.now }
        ensures short { IsShort result }
    {
        RowView {
            text: self.text.as_slice(),
            owner: self.owner.as_slice(),
            beacon: self.beacon,
            pixel: self.pixel,
            priority: self.priority,
            status: self.status,
            checksum: self.checksum(),
        }
    }

    fn checksum(&self) -> u16
        ensures { result ≡ (reading self.now).checksum }
    {
        if self.status == Status::Valid {
            self.checksum
        } else {
            0
        }
    }

    /// Whether the row may be asked this.
    pub(crate) fn takes(&self, ask: Ask) -> bool
        ensures { result ≡ is_some (asked_row ask self.now) }
    {
        self.status.next(ask).is_some()
    }

    /// Asks the row.
    pub(crate) fn ask(&mut self, ask: Ask) -> Result<(), Refused>
        ensures ok { OnOk result (asked_row ask self.old ≡ Some self.new) }
        ensures refused { OnErr result (asked_row ask self.old ≡ None) }
        ensures unchanged { OnErr result (self.new ≡ self.old) }
    {
        match self.status.next(ask) {
            Some(status) => {
                self.enter(status);
                Ok(())
            }
            None => Err(Refused),
        }
    }

    /// Gives the row another status than valid; one that becomes not used is emptied.
    fn enter(&mut self, status: Status)
        requires { is_valid status ≡ false }
        ensures { self.new ≡ with_status self.old status }
    {
        if status == Status::NotUsed {
            self.release();
        } else {
            self.status = status;
        }
    }

    /// Empties the row.
    pub(crate) fn release(&mut self)
        ensures { self.new ≡ unused }
    {
        self.text.clear();
        self.owner.clear();
        self.beacon = 0;
        self.pixel = 0;
        self.priority = 1;
        self.status = Status::NotUsed;
    }

    /// Becomes this row, where it is not used.
    pub(crate) fn put(&mut self, row: &SavedRow<'_>) -> Result<(), RowFault>
        requires { FitsARow row.now }
        ensures ok { OnOk result (put_over (row_saved row.now) self.old ≡ Some self.new) }
        ensures free { OnOk result (place_fault (Some self.old) ≡ None) }
        ensures fault { IfErr result (λ fault. place_fault (Some self.old) ≡ Some fault) }
        ensures unchanged { OnErr result (self.new ≡ self.old) }
    {
        if self.status != Status::NotUsed {
            return Err(RowFault::Used);
        }
        replace(&mut self.text, row.text);
        replace(&mut self.owner, row.owner);
        self.beacon = row.beacon;
        self.pixel = row.pixel;
        self.priority = row.priority;
        self.status = row.status;
        self.checksum = crc(row.text, row.beacon, row.pixel);
        Ok(())
    }

    /// Ends a validation without a verdict.
    pub(crate) fn interrupt(&mut self)
        ensures { self.new ≡ interrupted self.old }
    {
        if self.status == Status::Validating {
            self.status = Status::Modifying;
        }
    }

    /// Ends the validation of the row.
    pub(crate) fn settle(&mut self, validator: &Validator<'_>) -> Verdict
        requires fit { IsTrue (fit validator.now.face.now.fonts validator.now.defaults.now) }
        requires validating { row_is_validating self.old ≡ true }
        ensures row { self.new ≡ settled_by validator.now self.old }
        ensures verdict { result ≡ verdict_by validator.now self.old }
        ensures judged { IsJudged validator.now self.old }
    {
        let verdict = validator.verdict(self.text.as_slice(), self.beacon, self.pixel);
        if verdict.passes() {
            self.checksum = crc(self.text.as_slice(), self.beacon, self.pixel);
            self.status = Status::Valid;
        } else {
            self.status = Status::Error;
        }
        verdict
    }

    /// Writes a field of the row.
    pub(crate) fn write(&mut self, field: Field<'_>) -> Result<(), Refused>
        ensures ok { OnOk result (written_row (field_of field.entry) self.old ≡ Some self.new) }
        ensures refused { OnErr result (written_row (field_of field.entry) self.old ≡ None) }
        ensures unchanged { OnErr result (self.new ≡ self.old) }
        ensures status { self.new.status ≡ self.old.status }
    {
        if self.status != Status::Modifying || !field.is_in_range() {
            return Err(Refused);
        }
        self.set(field);
        Ok(())
    }

    fn set(&mut self, field: Field<'_>)
        requires range { IsTrue (is_in_range (field_of field)) }
        requires unsettled { is_valid self.old.status ≡ false }
        ensures field { self.new ≡ with_field self.old (field_of field.entry) }
        ensures status { self.new.status ≡ self.old.status }
    {
        match field {
            Field::Text(octets) => replace(&mut self.text, octets),
            Field::Owner(octets) => replace(&mut self.owner, octets),
            Field::Beacon(on) => self.beacon = on,
            Field::Pixel(on) => self.pixel = on,
            Field::Priority(priority) => self.priority = priority,
        }
    }
}

impl<'a> RowView<'a> {
    /// The blank message of a number, from 1 to 255.
    pub(crate) fn blank(number: u16) -> Option<RowView<'a>>
        ensures read { option_map reading_of result ≡ option_map blank_reading (blank_at number) }
        ensures short { IfSome result (λ view. IsShort view) }
    {
        match u8::try_from(number) {
            Ok(priority) if priority >= 1 => Some(RowView {
                text: &[],
                owner: &[],
                beacon: 0,
                pixel: 0,
                priority,
                status: Status::Valid,
                checksum: 0,
            }),
            _ => None,
        }
    }
}

impl<'a> Field<'a> {
    fn is_in_range(&self) -> bool
        ensures { result ≡ is_in_range (field_of self.now) }
    {
        match self {
            Field::Text(octets) => octets.len() <= MAX_TEXT,
            Field::Owner(octets) => octets.len() <= MAX_OWNER,
            Field::Beacon(on) | Field::Pixel(on) => *on <= 1,
            Field::Priority(priority) => *priority >= 1,
        }
    }
}

/// A copy of these octets, of which there must be at most N.
pub fn copy_of<const N: usize>(octets: &[u8]) -> ArrayVec<u8, N>
    requires { length octets.now ≤ N }
    ensures copied { result.items ≡ octets.now }
    ensures octets { AllBelowBase 256 octets.now }
{
    let mut copy = ArrayVec::new();
    let _ = copy.try_extend_from_slice(octets);
    copy
}

/// Puts these octets in the place of those that are kept.
#[inline(never)]
pub(crate) fn replace<const N: usize>(kept: &mut ArrayVec<u8, N>, octets: &[u8])
    requires { length octets.now ≤ N }
    ensures { kept.new.items ≡ octets.now }
{
    if octets.len() > kept.len() {
        kept.clear();
        let _ = kept.try_extend_from_slice(octets);
    } else {
        kept.truncate(octets.len());
        kept.as_mut_slice().copy_from_slice(octets);
    }
}
