//! What a reply reports.

ghost use Rattle.std.specs.Prelude.{◌≡◌, ◌∷◌, []};
ghost use Rattle.dms_wire.specs.Message.{null};
ghost use Rattle.dms_mib.specs.Names.{cell_name, name_of};
ghost use Rattle.dms_centre.specs.Replies.{number_read};

use dms_codes::RowId;
use dms_mib::{Column, Instance, Name};
use dms_wire::{Binds, Oid, Value};

/// The content octets of a cell's name, of which the last three are those of the column's number and the row's numbers.
const CELL: [u8; 16] = [43, 6, 1, 4, 1, 137, 54, 4, 2, 3, 5, 8, 1, 0, 0, 0];

/// The number that the reply to a GET of a cell reports, as `number_read`. Where the row's numbers are below 128, as
/// most are, the octets of the name are at hand.
#[inline(always)]
#[tactic(auto, unfolding(dms_mib::specs::Names::name_of))]
pub(crate) fn cell_number(column: Column, row: RowId, binds: Binds<'_>) -> Option<i64>
    ensures { result ≡ number_read (record { name = cell_name column row; value = null } ∷ []) binds.entry }
{
    if row.memory < 128 && row.number < 128 {
        let mut name = CELL;
        name[13] = column.number();
        name[14] = row.memory;
        name[15] = row.number as u8;
        number_read(&Oid::known(&name), binds)
    } else {
        instance_number(Instance::Cell(column, row), binds)
    }
}

/// The number that the reply to a GET of an instance reports, as `number_read`.
pub(crate) fn instance_number(asked: Instance, binds: Binds<'_>) -> Option<i64>
    ensures { result ≡ number_read (record { name = name_of asked; value = null } ∷ []) binds.entry }
{
    number_read(&Name::of(asked).oid(), binds)
}

/// The number that the reply to a GET of one object reports, where it has one binding, with the name that was asked,
/// and an INTEGER.
#[inline(always)]
fn number_read(asked: &Oid<'_>, binds: Binds<'_>) -> Option<i64>
    ensures { result ≡ number_read (record { name = asked.now; value = null } ∷ []) binds.entry }
{
    let bind = binds.only()?;
    if bind.name != *asked {
        return None;
    }
    match bind.value {
        Value::Integer(number) => Some(number),
        _ => None,
    }
}
