//! Messages of a saved state that are shown or were kept.

ghost use Rattle.std.specs.Prelude.{◌≡◌, IfNone};
ghost use Rattle.dms_table.specs.SavedShown.{shown_saved, has_its_checksum, is_blank_of, is_blank_by_its_source};
ghost use Rattle.dms_table.specs.SavedShown.{is_mode, is_time, message_fault, showing_fault, shown_fault};
ghost use Rattle.dms_table.specs.TableView.{FitsShown};

use crate::shown::Shown;
use dms_codes::{MAX_OWNER, MAX_TEXT, MessageId, Mode, crc, memory};
use dms_face::Defaults;
use std::error::Error;
use std::fmt;

/// A message that is to be shown once more, or to be kept; its checksum is computed.
#[derive(Clone, Copy, Debug)]
pub struct SavedShown<'a> {
    /// The text, at most `MAX_TEXT` octets.
    pub text: &'a [u8],
    /// The owner, at most `MAX_OWNER` octets.
    pub owner: &'a [u8],
    /// 1 where the beacons are on, else 0.
    pub beacon: u8,
    /// 1 where the pixel service is on, else 0.
    pub pixel: u8,
    /// The run-time priority, 1 to 255.
    pub priority: u8,
    /// The row, as the code that activated it named it: with the message's checksum, or the blank message shown.
    pub source: MessageId,
    /// What put it up, by its number in dmsMsgSourceMode (`Mode`).
    pub mode: u8,
    /// The network address of the one who activated it.
    pub address: [u8; 4],
    /// The seconds until it ends, at most those of 65534 minutes; none without an end, as after a loss of power.
    pub remaining: Option<u32>,
    /// The defaults when it came up.
    pub defaults: Defaults,
}

/// Why there is no such message.
#[derive(Clone, Copy, Debug, PartialEq, Eq)]
pub enum ShownFault {
    /// The text has more than `MAX_TEXT` octets.
    Text,
    /// The owner has more than `MAX_OWNER` octets.
    Owner,
    /// The beacon is neither 0 nor 1.
    Beacon,
    /// The pixel service is neither 0 nor 1.
    Pixel,
    /// The priority is 0.
    Priority,
    /// The source has another checksum than the message.
    Checksum,
    /// The source is a blank message, and another one, or one that is not blank, is shown.
    Blank,
    /// No mode has this number.
    Mode,
    /// More seconds are left than 65534 minutes have, or some are where a loss of power put the message up.
    Remaining,
}

impl fmt::Display for ShownFault {
    ghost use Rattle.std.specs.Prelude.{Some};
    ghost use Rattle.dms_table.specs.FaultTexts.{shown_fault_text};

    ghost output = { λ fault. Some (shown_fault_text fault) };

    fn fmt<W: fmt::Write>(&self, f: &mut fmt::Formatter<W>) -> fmt::Result {
        match self {
            ShownFault::Text => f.write_str("the text is too long"),
            ShownFault::Owner => f.write_str("the owner is too long"),
            ShownFault::Beacon => f.write_str("no such beacon"),
            ShownFault::Pixel => f.write_str("no such pixel service"),
            ShownFault::Priority => f.write_str("no such priority"),
            ShownFault::Checksum => f.write_str("another checksum than the message's"),
            ShownFault::Blank => f.write_str("not the blank message that its source names"),
            ShownFault::Mode => f.write_str("no such mode"),
            ShownFault::Remaining => f.write_str("too many seconds are left"),
        }
    }
}

impl Error for ShownFault {}

impl<'a> SavedShown<'a> {
    /// The first thing for which there is no such message.
    pub fn fault(&self) -> Option<ShownFault>
        ensures first { result ≡ shown_fault (shown_saved self.now) }
        ensures short { IfNone result (FitsShown self.now) }
    {
        match self.message_fault() {
            Some(fault) => Some(fault),
            None => self.showing_fault(),
        }
    }

    /// The first thing that is wrong with the row of the message.
    fn message_fault(&self) -> Option<ShownFault>
        ensures first { result ≡ message_fault (shown_saved self.now) }
        ensures short { IfNone result (FitsShown self.now) }
    {
        if self.text.len() > MAX_TEXT {
            Some(ShownFault::Text)
        } else if self.owner.len() > MAX_OWNER {
            Some(ShownFault::Owner)
        } else if self.beacon > 1 {
            Some(ShownFault::Beacon)
        } else if self.pixel > 1 {
            Some(ShownFault::Pixel)
        } else if self.priority == 0 {
            Some(ShownFault::Priority)
        } else {
            None
        }
    }

    /// The first thing that is wrong with how the message came up.
    fn showing_fault(&self) -> Option<ShownFault>
        ensures { result ≡ showing_fault (shown_saved self.now) }
    {
        if !self.has_its_checksum() {
            Some(ShownFault::Checksum)
        } else if !self.is_blank_by_its_source() {
            Some(ShownFault::Blank)
        } else if !is_mode(self.mode) {
            Some(ShownFault::Mode)
        } else if !is_time(self.mode, self.remaining) {
            Some(ShownFault::Remaining)
        } else {
            None
        }
    }

    fn has_its_checksum(&self) -> bool
        ensures { result ≡ has_its_checksum (shown_saved self.now) }
    {
        self.source.memory == memory::BLANK
            || crc(self.text, self.beacon, self.pixel) == self.source.crc
    }

    fn is_blank_by_its_source(&self) -> bool
        ensures { result ≡ is_blank_by_its_source (shown_saved self.now) }
    {
        self.source.memory != memory::BLANK || self.is_blank_of(self.source.number)
    }

    /// Whether the blank message of this number is shown.
    fn is_blank_of(&self, number: u16) -> bool
        ensures { result ≡ is_blank_of number (shown_saved self.now) }
    {
        self.text.is_empty()
            && self.owner.is_empty()
            && self.beacon == 0
            && self.pixel == 0
            && u16::from(self.priority) == number
    }
}

impl Shown {
    /// Its fields.
    pub fn saved(&self) -> SavedShown<'_>
        ensures { shown_saved result ≡ self.now }
    {
        SavedShown {
            text: self.text.as_slice(),
            owner: self.owner.as_slice(),
            beacon: self.beacon,
            pixel: self.pixel,
            priority: self.priority,
            source: self.source,
            mode: self.mode,
            address: self.address,
            remaining: self.remaining,
            defaults: self.defaults,
        }
    }
}

fn is_mode(number: u8) -> bool
    ensures { result ≡ is_mode number }
{
    number == Mode::Central.number()
        || number == Mode::PowerRecovery.number()
        || number == Mode::CommunicationsLoss.number()
        || number == Mode::PowerLoss.number()
        || number == Mode::EndDuration.number()
}

fn is_time(mode: u8, remaining: Option<u32>) -> bool
    ensures { result ≡ is_time mode remaining }
{
    match remaining {
        None => true,
        Some(seconds) => mode != Mode::PowerLoss.number() && seconds <= 65534 * 60,
    }
}
