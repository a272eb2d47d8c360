//! What a column of dmsMessageTable reads of a row.

ghost use Rattle.std.specs.Prelude.{◌≡◌};
ghost use Rattle.dms_wire.specs.View.{object_value};
ghost use Rattle.dms_table.specs.RowsView.{reading_of};
ghost use Rattle.dms_table.specs.Activation.{shown_reading};
ghost use Rattle.dms_sign_access.specs.Cells.{number_value, cell_value};

use dms_codes::{Order, RowId, Status};
use dms_mib::Column;
use dms_table::{RowView, Shown};
use dms_wire::Value;

/// A number as the value of an object.
pub fn number_value<'a>(number: u16) -> Value<'a>
    ensures { object_value result ≡ number_value number }
{
    Value::Integer(i64::from(number))
}

/// What a column reads of a row; the checksum is in the sign's order.
pub fn cell_value<'a>(order: Order, column: Column, id: RowId, message: &RowView<'a>) -> Value<'a>
    ensures { object_value result ≡ cell_value order column id (reading_of message.now) }
{
    match column {
        Column::MemoryType => small_value(id.memory),
        Column::Number => number_value(id.number),
        Column::MultiString => Value::Octets(message.text),
        Column::Owner => Value::Octets(message.owner),
        Column::Crc => number_value(order.in_order(message.checksum)),
        Column::Beacon => small_value(message.beacon),
        Column::PixelService => small_value(message.pixel),
        Column::RunTimePriority => small_value(message.priority),
        Column::Status => small_value(message.status.number()),
    }
}

/// What a column reads of what is shown, as the row of the current buffer.
pub fn shown_value<'a>(order: Order, column: Column, id: RowId, shown: &'a Shown) -> Value<'a>
    ensures { object_value result ≡ cell_value order column id (shown_reading shown.now) }
{
    match column {
        Column::MemoryType => small_value(id.memory),
        Column::Number => number_value(id.number),
        Column::MultiString => Value::Octets(shown.text.as_slice()),
        Column::Owner => Value::Octets(shown.owner.as_slice()),
        Column::Crc => number_value(order.in_order(shown.checksum())),
        Column::Beacon => small_value(shown.beacon),
        Column::PixelService => small_value(shown.pixel),
        Column::RunTimePriority => small_value(shown.priority),
        Column::Status => small_value(Status::Valid.number()),
    }
}

/// A number of an octet as the value of an object.
pub fn small_value<'a>(number: u8) -> Value<'a>
    ensures { object_value result ≡ number_value number }
{
    number_value(u16::from(number))
}
