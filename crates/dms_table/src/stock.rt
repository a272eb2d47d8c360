//! What a table is made of.

ghost use Rattle.std.specs.Prelude.{◌≡◌, IsTrue, IfNone, IfOk, All, map, position};
ghost use Rattle.dms_face.specs.Face.{fit};
ghost use Rattle.dms_table.specs.Stock.{HasGoodText, are_counts, permanent_row, has_ranges, may_stand, may_not_stand};
ghost use Rattle.dms_table.specs.Stock.{stock_fault, services_of, HasOctets};
ghost use Rattle.dms_table.specs.ValidatorView.{face_of};

use crate::row::{Row, Services};
use crate::validation::Validator;
use dms_codes::{MAX_CHANGEABLE, MAX_OWNER, MAX_PERMANENT, MAX_TEXT, MAX_VOLATILE, Order};
use dms_face::Face;
use std::alloc::{AllocError, Global};
use std::error::Error;
use std::fmt;

/// A row that the sign is made with.
#[derive(Clone, Copy, Debug, PartialEq, Eq)]
pub struct Permanent<'a> {
    /// The text, at most `MAX_TEXT` octets, good on the sign's face.
    pub text: &'a [u8],
    /// The owner, at most `MAX_OWNER` octets.
    pub owner: &'a [u8],
    /// 1 where the beacons are to be on, else 0.
    pub beacon: u8,
    /// 1 where the pixel service is to be on, else 0.
    pub pixel: u8,
    /// The run-time priority, 1 to 255.
    pub priority: u8,
}

/// The permanent rows, the numbers of changeable and volatile rows, what the sign has, and the order of its checksums.
#[derive(Clone, Copy, Debug, PartialEq, Eq)]
pub struct Stock<'a> {
    /// The permanent rows, at most `MAX_PERMANENT`, that of number 1 first.
    pub permanent: &'a [Permanent<'a>],
    /// How many changeable rows there are, at most `MAX_CHANGEABLE`.
    pub changeable: u8,
    /// How many volatile rows there are, at most `MAX_VOLATILE`.
    pub volatile: u8,
    /// Whether the sign has beacons.
    pub beacon: bool,
    /// Whether the sign has a pixel service.
    pub pixel: bool,
    /// The order of the octets of its checksums.
    pub order: Order,
}

impl<'a> Stock<'a> {
    pub(crate) fn services(&self) -> Services
        ensures { result ≡ services_of self.now }
    {
        Services {
            beacon: self.beacon,
            pixel: self.pixel,
        }
    }

    /// The first thing that is wrong with the stock.
    pub(crate) fn fault(&self, face: &Face) -> Option<TableFault>
        ensures first { result ≡ stock_fault face.now self.now }
        ensures good { IfNone result (All (HasGoodText face.now) self.now.permanent.now) }
    {
        if !self.are_counts() {
            return Some(TableFault::Counts);
        }
        let validator = Validator {
            services: self.services(),
            face,
            defaults: &face.defaults(),
        };
        match first_that_may_not_stand(self.permanent, &validator) {
            None => None,
            Some(place) => Some(TableFault::Permanent(place + 1)),
        }
    }

    fn are_counts(&self) -> bool
        ensures { result ≡ are_counts self.now }
    {
        self.permanent.len() <= MAX_PERMANENT
            && self.changeable <= MAX_CHANGEABLE
            && self.volatile <= MAX_VOLATILE
    }
}

impl<'a> Permanent<'a> {
    /// Whether the message could be validated.
    fn may_stand(&self, validator: &Validator<'_>) -> bool
        requires { IsTrue (fit validator.now.face.now.fonts validator.now.defaults.now) }
        ensures value { result ≡ may_stand validator.now.services (face_of validator.now) self.now }
        ensures good { IsTrue result → HasGoodText (face_of validator.now) self.now }
    {
        self.has_ranges()
            && validator
                .verdict(self.text, self.beacon, self.pixel)
                .passes()
    }

    fn has_ranges(&self) -> bool
        ensures { result ≡ has_ranges (permanent_row self.now) }
    {
        self.text.len() <= MAX_TEXT
            && self.owner.len() <= MAX_OWNER
            && self.beacon <= 1
            && self.pixel <= 1
            && self.priority >= 1
    }
}

fn first_that_may_not_stand(messages: &[Permanent<'_>], validator: &Validator<'_>) -> Option<usize>
    requires { IsTrue (fit validator.now.face.now.fonts validator.now.defaults.now) }
    ensures place { result ≡ position (may_not_stand validator.now.services (face_of validator.now)) messages.now }
    ensures good { IfNone result (All (HasGoodText (face_of validator.now)) messages.now) }
{
    for (place, message) in messages.iter().enumerate() {
        if !message.may_stand(validator) {
            return Some(place);
        }
    }
    None
}

/// The rows of these messages.
pub(crate) fn permanent_rows(
    alloc: Global,
    messages: &[Permanent<'_>],
) -> Result<Vec<Row>, AllocError>
    requires { All (λ message. IsTrue (has_ranges (permanent_row message))) messages.now }
    ensures rows { IfOk result (λ rows. rows.items ≡ map permanent_row messages.now) }
    ensures octets { IfOk result (λ rows. All HasOctets rows.items) }
{
    let mut rows = Vec::with_capacity(alloc, messages.len())?;
    for message in messages {
        rows.push(Row::permanent(message))?;
    }
    Ok(rows)
}

/// Why there is no table.
#[derive(Clone, Copy, Debug, PartialEq, Eq)]
pub enum TableFault {
    /// More than 16 permanent, 64 changeable or 16 volatile rows.
    Counts,
    /// The permanent row of this number could not be validated.
    Permanent(usize),
    /// No memory for the rows.
    Memory,
}

impl TableFault {
    ghost use Rattle.std.specs.Prelude.{◌≡◌};
    ghost use Rattle.dms_table.specs.Stock.{fault_number};

    /// The number that stands for it, 1 to 3 (this profile).
    pub fn number(self) -> u8
        ensures { result ≡ fault_number self }
    {
        match self {
            TableFault::Counts => 1,
            TableFault::Permanent(_) => 2,
            TableFault::Memory => 3,
        }
    }
}

impl fmt::Display for TableFault {
    ghost use Rattle.std.specs.Prelude.{Some};
    ghost use Rattle.dms_table.specs.FaultTexts.{table_fault_text};

    ghost output = { λ fault. Some (table_fault_text fault) };

    fn fmt<W: fmt::Write>(&self, f: &mut fmt::Formatter<W>) -> fmt::Result {
        match self {
            TableFault::Counts => f.write_str("too many rows"),
            TableFault::Permanent(number) => write!(f, "permanent row {number} is not valid"),
            TableFault::Memory => f.write_str("out of memory"),
        }
    }
}

impl Error for TableFault {}
