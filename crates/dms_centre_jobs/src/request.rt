//! The requests of a job.

ghost use Rattle.std.specs.Prelude.{◌≡◌, ◌≤◌, ◌<◌, ◌∷◌, [], List, pos, length};
ghost use Rattle.dms_wire.specs.Message.{VarBind, integer, octet_string};
ghost use Rattle.dms_wire.specs.Canonical.{canonical};
ghost use Rattle.dms_wire.specs.declared.message.Kind.TheVariants as kinds;
ghost use Rattle.dms_mib.specs.declared.column.Column.TheVariants.{Status};
ghost use Rattle.dms_codes.specs.Limits.{longest_community};
ghost use Rattle.dms_wire.specs.Written.{octets_of_bindings};
ghost use Rattle.dms_wire.specs.View.{message_around, object_value, var_bind};
ghost use Rattle.dms_codes.specs.Status.{ask_number};
ghost use Rattle.dms_mib.specs.Names.{cell_name, name_of};
ghost use Rattle.dms_centre_jobs.specs.Steps.{fields, reading, request_of, writing, last_number};
ghost use Rattle.dms_centre_jobs.specs.Requests.{AreSettings, IsWork};
ghost use Rattle.dms_centre_jobs.specs.CodeView.{IsPushed, asking};
ghost use Rattle.dms_wire_ber.specs.Limits.{longest_datagram};

use crate::fields::put_short_fields;
use crate::job::Work;
use crate::short::{is_short, put_activation, put_cause, put_short_get, put_short_set};
use crate::step::Step;
use dms_codes::{Ask, Order, RowId};
use dms_mib::{Column, Instance, Name};
use dms_wire::{Bind, BindingOctets, Header, Kind, Out, Value, write_around, write_binding};

/// Writes the request of a step, under a number, over what `out` holds. The community must have its size, the number
/// must be at most 2147483647, and the work must be a command's that is in range.
#[tactic(auto, unfolding(crate::specs::Steps::request_of))]
pub fn put_request(
    community: &[u8],
    order: Order,
    number: u32,
    work: &Work,
    step: Step,
    out: &mut Out,
)
    requires settings { AreSettings (record { community = community.now; order = order }) }
    requires number { number ≤ last_number }
    requires work { IsWork work.now }
    ensures { out.new.items
        ≡ canonical (request_of (record { community = community.now; order = order }) number work.now step) }
{
    has_few(community, order);
    let row = work.row();
    match step {
        Step::Opening => put_ask(community, number, row, Ask::Modify, out),
        Step::Opened | Step::Polling => put_get(community, number, Column::Status, row, out),
        Step::Filling => put_fields(community, number, work, out),
        Step::Validating => put_ask(community, number, row, Ask::Validate, out),
        Step::Comparing => put_get(community, number, Column::Crc, row, out),
        Step::Activating => {
            let code = work.code().to_bytes(order);
            put_activation(community, number, code, out);
        }
        Step::Explaining => put_cause(community, number, out),
    }
}

/// A community of settings has at most 32 octets.
fn has_few(community: &[u8], order: Order)
    requires { AreSettings (record { community = community.now; order = order }) }
    ensures { length community.now ≤ longest_community }
{}

/// Writes the request for the value of a cell.
#[inline(always)]
#[tactic(auto, unfolding(dms_mib::specs::Names::name_of))]
fn put_get(community: &[u8], number: u32, column: Column, row: RowId, out: &mut Out)
    requires community { length community.now ≤ longest_community }
    requires fits { length (canonical
        (asking community.now kinds.Get number (reading (cell_name column row)))) ≤ longest_datagram }
    ensures { out.new.items ≡ canonical (asking community.now kinds.Get number (reading (cell_name column row))) }
{
    if is_short(row) {
        put_short_get(community, number, column, row, out);
    } else {
        let cell = Instance::Cell(column, row);
        put_one(community, Kind::Get, number, cell, Value::Null, out);
    }
}

/// Writes the request that asks for a change of a row's status.
#[inline(always)]
#[tactic(auto, unfolding(dms_mib::specs::Names::name_of))]
fn put_ask(community: &[u8], number: u32, row: RowId, ask: Ask, out: &mut Out)
    requires community { length community.now ≤ longest_community }
    requires fits { length (canonical (asking community.now kinds.Set number
        (writing (cell_name Status row) (integer (pos (ask_number ask)))))) ≤ longest_datagram }
    ensures { out.new.items ≡ canonical
        (asking community.now kinds.Set number (writing (cell_name Status row) (integer (pos (ask_number ask))))) }
{
    if is_short(row) {
        put_short_set(community, number, row, ask, out);
    } else {
        let status = Instance::Cell(Column::Status, row);
        put_one(community, Kind::Set, number, status, ask_value(ask), out);
    }
}

/// What asks for a change of a row's status, as the value of dmsMessageStatus.
fn ask_value<'a>(ask: Ask) -> Value<'a>
    ensures { object_value result ≡ integer (pos (ask_number ask)) }
{
    Value::Integer(i64::from(ask.number()))
}

/// Writes the request that sets the fields of a row.
#[inline]
fn put_fields(community: &[u8], number: u32, work: &Work, out: &mut Out)
    requires { length (canonical (asking community.now kinds.Set number (fields work.now))) ≤ longest_datagram }
    ensures { out.new.items ≡ canonical (asking community.now kinds.Set number (fields work.now)) }
{
    let row = work.row();
    if work.publishes && is_short(row) {
        put_short_fields(community, number, row, &work.fields, out);
    } else {
        put_any_fields(community, number, work, out);
    }
}

/// The same for a row of any numbers.
#[inline(never)]
fn put_any_fields(community: &[u8], number: u32, work: &Work, out: &mut Out)
    requires { length (canonical (asking community.now kinds.Set number (fields work.now))) ≤ longest_datagram }
    ensures { out.new.items ≡ canonical (asking community.now kinds.Set number (fields work.now)) }
{
    let mut fields = BindingOctets::new();
    push_fields(&mut fields, work);
    write_around(&header(community, Kind::Set, number), &fields, out).unwrap();
}

/// The fields of the row that is written, if one is.
fn push_fields(octets: &mut BindingOctets, work: &Work)
    requires { octets.old ≡ octets_of_bindings [] }
    ensures { octets.new ≡ octets_of_bindings (fields work.now) }
{
    if !work.publishes {
        return;
    }
    let row = work.row();
    let fields = &work.fields;
    push_octets(octets, row, Column::MultiString, fields.text.as_slice());
    push_octets(octets, row, Column::Owner, fields.owner.as_slice());
    let attributes = &fields.attributes;
    push_number(octets, row, Column::Beacon, attributes.beacon);
    push_number(octets, row, Column::PixelService, attributes.pixel);
    push_number(
        octets,
        row,
        Column::RunTimePriority,
        attributes.run_priority,
    );
}

/// What a request says beside its bindings.
fn header(community: &[u8], kind: Kind, number: u32) -> Header<'_>
    ensures { (bindings : List VarBind) → message_around result bindings ≡ asking community.now kind number bindings }
{
    Header {
        community,
        kind,
        request: i64::from(number),
        status: 0,
        index: 0,
    }
}

/// A field more of a row: octets.
fn push_octets(fields: &mut BindingOctets, row: RowId, column: Column, octets: &[u8])
    ensures { IsPushed fields.old (record { name = cell_name column row; value = octet_string octets.now }) fields.new }
{
    push_field(fields, row, column, Value::Octets(octets));
}

/// A field more of a row: a number.
fn push_number(fields: &mut BindingOctets, row: RowId, column: Column, number: u8)
    ensures { IsPushed fields.old (record { name = cell_name column row; value = integer (pos number) }) fields.new }
{
    push_field(fields, row, column, Value::Integer(i64::from(number)));
}

/// A field more of a row.
fn push_field(fields: &mut BindingOctets, row: RowId, column: Column, value: Value<'_>)
    ensures { IsPushed fields.old
        (record { name = cell_name column row; value = object_value value.entry }) fields.new }
{
    let name = Name::of(Instance::Cell(column, row));
    fields.push(&Bind {
        name: name.oid(),
        value,
    });
}

/// Writes a request with one binding.
#[inline(never)]
fn put_one(
    community: &[u8],
    kind: Kind,
    number: u32,
    object: Instance,
    value: Value<'_>,
    out: &mut Out,
)
    requires { length (canonical (asking community.now kind number
        (record { name = name_of object; value = object_value value } ∷ []))) ≤ longest_datagram }
    ensures { out.new.items ≡ canonical
        (asking community.now kind number (record { name = name_of object; value = object_value value.entry } ∷ [])) }
{
    let name = Name::of(object);
    let bind = Bind {
        name: name.oid(),
        value,
    };
    put(community, kind, number, &bind, out);
}

/// Writes a request with this binding alone.
fn put(community: &[u8], kind: Kind, number: u32, binding: &Bind<'_>, out: &mut Out)
    requires { length (canonical (asking community.now kind number (var_bind binding.now ∷ []))) ≤ longest_datagram }
    ensures { out.new.items ≡ canonical (asking community.now kind number (var_bind binding.now ∷ [])) }
{
    write_binding(&header(community, kind, number), binding, out).unwrap();
}
