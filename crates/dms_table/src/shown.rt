//! What a sign shows.

ghost use Rattle.std.specs.Prelude.{◌≡◌, ◌==◌, Some, None, false, IfOk, IfErr, OnOk};
ghost use Rattle.dms_codes.specs.Memory.{current_buffer};
ghost use Rattle.dms_codes.specs.Mode.{mode_number};
ghost use Rattle.dms_table.specs.RowsView.{reading_of, IsShort};
ghost use Rattle.dms_table.specs.Activation.{blank_shown, shown_reading, seconds_of, minutes_left, put_up};
ghost use Rattle.dms_table.specs.SavedShown.{shown_saved, shown_fault};
ghost use Rattle.dms_table.specs.TableView.{FitsShown};
ghost use Rattle.dms_table.specs.ShownView.{shown_checksum, HasItWhereValid};
ghost use Rattle.dms_codes.specs.declared.mode.Mode.TheVariants.{Central};

use crate::row::{RowView, copy_of, replace};
use crate::saved_shown::{SavedShown, ShownFault};
use arrayvec::ArrayVec;
use dms_codes::{Activation, MAX_OWNER, MAX_TEXT, MessageId, Mode, Status, crc, memory};
use dms_face::Defaults;
use std::marker::Model;

/// What is shown: a copy of a row, so that later changes of the row do not show.
#[derive(Debug, Drop)]
pub struct Shown {
    /// The text of the row.
    pub text: ArrayVec<u8, MAX_TEXT>,
    /// The owner of the row.
    pub owner: ArrayVec<u8, MAX_OWNER>,
    /// 1 where the beacons are on, else 0.
    pub beacon: u8,
    /// 1 where the pixel service is on, else 0.
    pub pixel: u8,
    /// The run-time priority of the row, 1 to 255.
    pub priority: u8,
    /// The row, as the code that activated it named it (dmsMsgTableSource).
    pub source: MessageId,
    /// What put it up, by its number in dmsMsgSourceMode (`Mode`).
    pub mode: u8,
    /// The network address of the one who activated it.
    pub address: [u8; 4],
    /// The seconds until it ends; none without an end.
    pub remaining: Option<u32>,
    /// The defaults when it came up.
    pub defaults: Defaults,
    /// Its checksum as it is read.
    checksum: u16,
}

impl Model for Shown {
    ghost use Rattle.dms_table.specs.Activation.{ShownModel};
    ghost use Rattle.dms_table.specs.ShownView.{KeepsItsChecksum};

    ghost Value = { ShownModel };

    ghost view = { λ s. record {
      text = s.text.items;
      owner = s.owner.items;
      beacon = s.beacon;
      pixel = s.pixel;
      priority = s.priority;
      source = s.source;
      mode = s.mode;
      address = s.address;
      remaining = s.remaining;
      defaults = s.defaults;
    } };

    ghost invariant = { λ s. KeepsItsChecksum s.source.memory s.text.items s.beacon s.pixel s.checksum };
}

impl Shown {
    /// Blank message 1, activated by nobody under these defaults, without an end.
    pub fn blank(defaults: &Defaults, mode: Mode) -> Shown
        ensures { result ≡ blank_shown defaults.now (mode_number mode) }
    {
        Shown {
            text: ArrayVec::new(),
            owner: ArrayVec::new(),
            beacon: 0,
            pixel: 0,
            priority: 1,
            source: MessageId {
                memory: memory::BLANK,
                number: 1,
                crc: 0,
            },
            mode: mode.number(),
            address: [0; 4],
            remaining: None,
            defaults: *defaults,
            checksum: 0,
        }
    }

    /// The message of these fields, or the first thing for which there is none.
    pub fn of(saved: &SavedShown<'_>) -> Result<Shown, ShownFault>
        ensures made { IfOk result (λ shown. shown ≡ shown_saved saved.now) }
        ensures faultless { OnOk result (shown_fault (shown_saved saved.now) ≡ None) }
        ensures fault { IfErr result (λ fault. shown_fault (shown_saved saved.now) ≡ Some fault) }
    {
        match saved.fault() {
            Some(fault) => Err(fault),
            None => Ok(Shown::of_fields(saved)),
        }
    }

    fn of_fields(saved: &SavedShown<'_>) -> Shown
        requires { FitsShown saved.now }
        ensures { result ≡ shown_saved saved.now }
    {
        Shown {
            text: copy_of(saved.text),
            owner: copy_of(saved.owner),
            beacon: saved.beacon,
            pixel: saved.pixel,
            priority: saved.priority,
            source: saved.source,
            mode: saved.mode,
            address: saved.address,
            remaining: saved.remaining,
            defaults: saved.defaults,
            checksum: checksum_shown(saved),
        }
    }

    /// Keeps what is shown, in this mode and without an end.
    pub fn stay(&mut self, mode: Mode)
        ensures { self.new ≡ record self.old { mode = mode_number mode; remaining = None } }
    {
        self.set_mode(mode);
        self.remain(None);
    }

    /// Records what put the message up (dmsMsgSourceMode).
    pub fn set_mode(&mut self, mode: Mode)
        ensures { self.new ≡ record self.old { mode = mode_number mode } }
    {
        self.mode = mode.number();
    }

    /// Sets the seconds that are left; none is without an end.
    pub fn remain(&mut self, remaining: Option<u32>)
        ensures { self.new ≡ record self.old { remaining = remaining } }
    {
        self.remaining = remaining;
    }

    /// The seconds that are left as minutes, rounded up; 65535 is without an end.
    pub fn minutes_left(&self) -> u32
        ensures { result ≡ minutes_left self.now.remaining }
    {
        match self.remaining {
            None => 65535,
            Some(seconds) => seconds.div_ceil(60),
        }
    }

    /// What is shown, as a row of the current buffer.
    pub fn view(&self) -> RowView<'_>
        ensures read { reading_of result ≡ shown_reading self.now }
        ensures short { IsShort result }
    {
        RowView {
            text: self.text.as_slice(),
            owner: self.owner.as_slice(),
            beacon: self.beacon,
            pixel: self.pixel,
            priority: self.priority,
            status: Status::Valid,
            checksum: self.checksum,
        }
    }

    /// A copy.
    pub fn again(&self) -> Shown
        ensures { result ≡ self.now }
    {
        Shown {
            text: copy_of(self.text.as_slice()),
            owner: copy_of(self.owner.as_slice()),
            beacon: self.beacon,
            pixel: self.pixel,
            priority: self.priority,
            source: self.source,
            mode: self.mode,
            address: self.address,
            remaining: self.remaining,
            defaults: self.defaults,
            checksum: self.checksum,
        }
    }

    /// Its checksum, as dmsMessageCRC of the current buffer reads it: 0 while a blank message is shown.
    pub fn checksum(&self) -> u16
        ensures { result ≡ (shown_reading self.now).checksum }
    {
        self.checksum
    }

    /// Records the code that put the message up again: its mode, its address and its duration.
    pub(crate) fn renew(&mut self, code: &Activation)
        ensures { self.new ≡ record self.old {
          mode = mode_number Central;
          address = code.now.address;
          remaining = seconds_of code.now.minutes;
        } }
    {
        self.mode = Mode::Central.number();
        self.address = code.address;
        self.remaining = seconds_of(code.minutes);
    }

    /// Copies a row that a code names, and records the code.
    pub(crate) fn take(&mut self, code: &Activation, row: &RowView<'_>, defaults: &Defaults)
        requires short { IsShort row.now }
        requires stored { (code.now.id.memory == current_buffer) ≡ false }
        requires checksum { HasItWhereValid code.now.id.memory (reading_of row.now) }
        ensures { self.new ≡ put_up defaults.now self.old code.now (reading_of row.now) }
    {
        replace(&mut self.text, row.text);
        replace(&mut self.owner, row.owner);
        self.beacon = row.beacon;
        self.pixel = row.pixel;
        self.priority = row.priority;
        self.source = code.id;
        self.defaults = *defaults;
        self.checksum = checksum_of(code.id.memory, row);
        self.renew(code);
    }
}

/// The checksum of a row of this type of memory while it is shown: 0 of a blank message, and that which a valid row
/// has.
fn checksum_of(kind: u8, row: &RowView<'_>) -> u16
    requires { HasItWhereValid kind (reading_of row.now) }
    ensures { result ≡ shown_checksum kind row.now.text.now row.now.beacon row.now.pixel }
{
    if row.status == Status::Valid {
        row.checksum
    } else if kind == memory::BLANK {
        0
    } else {
        crc(row.text, row.beacon, row.pixel)
    }
}

/// The checksum of a message of a saved state, as it is read: 0 of a blank one.
fn checksum_shown(saved: &SavedShown<'_>) -> u16
    ensures { result
        ≡ shown_checksum saved.now.source.memory saved.now.text.now saved.now.beacon saved.now.pixel }
{
    if saved.source.memory == memory::BLANK {
        0
    } else {
        crc(saved.text, saved.beacon, saved.pixel)
    }
}

/// The seconds of a number of minutes; 65535 minutes have no end.
pub fn seconds_of(minutes: u16) -> Option<u32>
    ensures { result ≡ seconds_of minutes }
{
    if minutes == u16::MAX {
        None
    } else {
        Some(u32::from(minutes) * 60)
    }
}
