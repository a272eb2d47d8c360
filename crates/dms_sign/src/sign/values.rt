//! What the objects of a sign read.

ghost use Rattle.std.specs.Prelude.{◌≡◌, ◌<◌, ◌*◌, option_map};
ghost use Rattle.dms_codes.specs.Memory.{memory_number};
ghost use Rattle.dms_table.specs.Activation.{message_at};
ghost use Rattle.dms_table.specs.Rows.{valid_count, row_count};
ghost use Rattle.dms_wire.specs.View.{object_value};
ghost use Rattle.dms_mib_instances.specs.Objects.{instance_named};
ghost use Rattle.dms_mib_instances.specs.Places.{HasCounts};
ghost use Rattle.dms_sign_access.specs.Cells.{number_value, cell_value};
ghost use Rattle.dms_sign.specs.Values.{free_octets, scalar_value, value_at};

use crate::sign::Sign;
use dms_codes::{MAX_TEXT, Memory, RowId, memory};
use dms_mib::{Column, Instance, Name, Scalar};
use dms_mib_instances::Counts;
use dms_mib_replies::{Next, NextName, Objects};
use dms_sign_access::{cell_value, number_value, shown_value, small_value};
use dms_wire::{Oid, Value};

impl Objects for Sign {
    ghost use Rattle.dms_sign.specs.Values.{value_of, value_after};

    ghost reads = { value_of };

    ghost follows = { value_after };

    #[tactic(auto, unfolding(crate::specs::Values::value_of))]
    fn value(&self, name: &Oid<'_>) -> Option<Value<'_>> {
        let instance = self.named(name)?;
        self.value_at(instance)
    }

    #[tactic(auto, unfolding(crate::specs::Values::value_after))]
    fn next(&self, name: &Oid<'_>) -> Option<Next<'_>> {
        let instance = self.counts().next(name)?;
        let value = self.value_at(instance)?;
        Some(Next {
            name: NextName::Instance(Name::of(instance)),
            value,
        })
    }
}

impl Sign {
    /// The instance of this name.
    #[inline(always)]
    pub(super) fn named(&self, name: &Oid<'_>) -> Option<Instance>
        ensures { result ≡ instance_named self.now.table name.now }
    {
        self.counts().named(name)
    }

    /// How many rows there are.
    pub(super) fn counts(&self) -> Counts
        ensures { HasCounts self.now.table result }
    {
        Counts::of(&self.table)
    }

    /// What an instance reads.
    #[tactic(auto, unfolding(crate::specs::Values::value_at))]
    pub(super) fn value_at(&self, instance: Instance) -> Option<Value<'_>>
        ensures { option_map object_value result ≡ value_at self.now instance }
    {
        match instance {
            Instance::Scalar(object) => Some(self.scalar_value(object)),
            Instance::Cell(column, id) => self.cell(column, id),
        }
    }

    /// What a cell of dmsMessageTable reads; the row of the current buffer is what is shown.
    fn cell(&self, column: Column, id: RowId) -> Option<Value<'_>>
        ensures { option_map object_value result
            ≡ option_map (cell_value self.now.table.order column id) (message_at self.now.table self.now.shown id) }
    {
        let order = self.table.order();
        if id.memory != memory::CURRENT_BUFFER {
            let row = self.table.row(id)?;
            Some(cell_value(order, column, id, &row))
        } else if id.number == 1 {
            Some(shown_value(order, column, id, &self.shown))
        } else {
            None
        }
    }

    /// The octets that are free in a type of memory.
    fn free_octets(&self, memory: Memory) -> usize
        ensures value { result ≡ free_octets self.now.table (memory_number memory) }
    {
        MAX_TEXT * self.table.unused_count(memory.number())
    }

    /// What an object with one instance reads.
    #[tactic(auto, unfolding(crate::specs::Values::scalar_value))]
    fn scalar_value(&self, object: Scalar) -> Value<'_>
        ensures { object_value result ≡ scalar_value self.now object }
    {
        let defaults = &self.settings.defaults;
        let fallbacks = &self.settings.fallbacks;
        let reports = &self.reports;
        match object {
            Scalar::SignHeightPixels => number_value(self.face.height()),
            Scalar::SignWidthPixels => number_value(self.face.width()),
            Scalar::DefaultBackgroundColor => small_value(defaults.background),
            Scalar::DefaultForegroundColor => small_value(defaults.foreground),
            Scalar::DefaultFlashOn => small_value(defaults.flash_on),
            Scalar::DefaultFlashOff => small_value(defaults.flash_off),
            Scalar::DefaultFont => small_value(defaults.font),
            Scalar::DefaultJustificationLine => small_value(defaults.line),
            Scalar::DefaultJustificationPage => small_value(defaults.page),
            Scalar::DefaultPageOnTime => small_value(defaults.on),
            Scalar::DefaultPageOffTime => small_value(defaults.off),
            Scalar::ColorScheme => small_value(3),
            Scalar::NumPermanentMsg => count(self.table.row_count(memory::PERMANENT)),
            Scalar::NumChangeableMsg => count(self.table.valid_count(memory::CHANGEABLE)),
            Scalar::MaxChangeableMsg => count(self.table.row_count(memory::CHANGEABLE)),
            Scalar::FreeChangeableMemory => count(self.free_octets(Memory::Changeable)),
            Scalar::NumVolatileMsg => count(self.table.valid_count(memory::VOLATILE)),
            Scalar::MaxVolatileMsg => count(self.table.row_count(memory::VOLATILE)),
            Scalar::FreeVolatileMemory => count(self.free_octets(Memory::Volatile)),
            Scalar::ValidateMessageError => small_value(reports.validate_error),
            Scalar::ActivateMessage => Value::Octets(&reports.accepted_code),
            Scalar::MessageTimeRemaining => minutes(self.shown.minutes_left()),
            Scalar::MsgTableSource => Value::Octets(&self.source),
            Scalar::MsgRequesterId => Value::Address(self.shown.address),
            Scalar::MsgSourceMode => small_value(self.shown.mode),
            Scalar::ShortPowerRecoveryMessage => Value::Octets(&fallbacks.short_power_recovery),
            Scalar::LongPowerRecoveryMessage => Value::Octets(&fallbacks.long_power_recovery),
            Scalar::CommunicationsLossMessage => Value::Octets(&fallbacks.communications_loss),
            Scalar::PowerLossMessage => Value::Octets(&fallbacks.power_loss),
            Scalar::EndDurationMessage => Value::Octets(&fallbacks.end_duration),
            Scalar::ActivateMsgError => small_value(reports.activate_error),
            Scalar::MultiSyntaxError => small_value(reports.syntax_error),
            Scalar::MultiSyntaxErrorPosition => number_value(reports.syntax_error_position),
            Scalar::ActivateErrorMsgCode => Value::Octets(&reports.failed_code),
            // made by tools/objects.py --code
            Scalar::ShortPowerLossTime => number_value(self.settings.short_power_loss_time),
            Scalar::TimeCommLoss => number_value(self.settings.time_comm_loss),
            // the end of what is made
        }
    }
}

fn count<'a>(value: usize) -> Value<'a>
    requires { value < 65536 }
    ensures { object_value result ≡ number_value value }
{
    Value::Integer(value as i64)
}

fn minutes<'a>(value: u32) -> Value<'a>
    ensures { object_value result ≡ number_value value }
{
    Value::Integer(i64::from(value))
}
