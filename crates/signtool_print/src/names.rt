//! The names of objects, as NTCIP 1203 has them.

ghost use Rattle.std.specs.Prelude.{◌≡◌, ◌++◌, None, IfOk, IfSome, OnOk, map};
ghost use Rattle.std.specs.Option.{option_map};
ghost use Rattle.dms_mib.specs.Objects.{objects};
ghost use Rattle.signtool_print.specs.ObjectNames.{IsName, HasNone, name_among, same_group, stands_at};
ghost use Rattle.signtool_print.specs.InstanceNames.{instance_text};
ghost use Rattle.signtool_print.specs.DatagramLines.{scalar_name, column_name, only_text, row_text, instance_below};
ghost use Rattle.signtool_print.specs.DatagramLines.{instance_named, between, name_text};

use dms_mib::laws::objects_are_the_table;
use dms_mib::{Group, OBJECTS, Object};
use dms_wire::Oid;
use std::alloc::{AllocError, Global};
use std::io::Write;
use std::{fmt, io};

/// The sub-identifiers before those of a group: `dms` of NTCIP 1203.
const DMS: [u32; 10] = [1, 3, 6, 1, 4, 1, 1206, 4, 2, 3];

/// Writes an object identifier in dotted numbers, and in parentheses the object and the instance that it names, if it
/// is one.
#[tactic(auto, using(crate::proofs::Appended::two_parts))]
pub(crate) fn write_name(alloc: Global, name: &Oid<'_>, out: &mut Vec<u8>) -> io::Result<()>
    ensures { OnOk result (out.new.items ≡ out.old.items ++ name_text name.now) }
{
    write!(out, "{name}")?;
    write_object(alloc, name, (" (", ")"), out)
}

/// Writes the object and the instance that an object identifier names, if it is one, between two texts.
pub(crate) fn write_object(
    alloc: Global,
    name: &Oid<'_>,
    around: (&str, &str),
    out: &mut Vec<u8>,
) -> io::Result<()>
    ensures { OnOk result (out.new.items
        ≡ out.old.items ++ between around.entry.0.now around.entry.1.now (instance_named name.now)) }
{
    let numbers = numbers_of(alloc, name)?;
    match numbers.as_slice().strip_prefix(&DMS) {
        Some(below) => write_instance(instance_below(below), around, out),
        None => Ok(()),
    }
}

/// Writes an instance, if there is one, between two texts.
fn write_instance(
    instance: Option<NamedInstance>,
    around: (&str, &str),
    out: &mut Vec<u8>,
) -> io::Result<()>
    ensures { OnOk result (out.new.items ≡ out.old.items
        ++ between around.entry.0.now around.entry.1.now (option_map instance_text instance)) }
{
    let (before, after) = around;
    match instance {
        Some(instance) => write!(out, "{before}{instance}{after}"),
        None => Ok(()),
    }
}

/// The numbers of an object identifier.
fn numbers_of(alloc: Global, name: &Oid<'_>) -> Result<Vec<u32>, AllocError>
    ensures { IfOk result (λ numbers. numbers.items ≡ name.now) }
{
    let mut numbers = Vec::new(alloc);
    for number in name.numbers() {
        numbers.push(number)?;
    }
    Ok(numbers)
}

/// An object by its name, and an instance of it.
#[derive(Clone, Copy)]
enum NamedInstance {
    /// The only one.
    Only(&'static str),
    /// That of a row of the message table.
    Row(&'static str, u32, u32),
}

impl fmt::Display for NamedInstance {
    ghost use Rattle.std.specs.Prelude.{Some};
    ghost use Rattle.signtool_print.specs.InstanceNames.{instance_text};

    ghost output = { λ instance. Some (instance_text instance) };

    fn fmt<W: fmt::Write>(&self, f: &mut fmt::Formatter<W>) -> fmt::Result {
        match self {
            NamedInstance::Only(object) => write!(f, "{object}.0"),
            NamedInstance::Row(column, memory, number) => write!(f, "{column}.{memory}.{number}"),
        }
    }
}

/// The instance that has these numbers below `dms`, if one has.
fn instance_below(below: &[u32]) -> Option<NamedInstance>
    ensures { option_map instance_text result ≡ instance_below below.now }
{
    match below {
        [node, number, instance] => only_instance(*instance, scalar_name(*node, *number)),
        [node, table, entry, column, memory, number] => row_instance(
            *memory,
            *number,
            column_name(*node, *table, *entry, *column),
        ),
        _ => None,
    }
}

/// The only instance of an object of this name.
fn only_instance(instance: u32, object: Option<&'static str>) -> Option<NamedInstance>
    ensures { option_map instance_text result ≡ only_text instance (option_map (λ name. name.now) object.entry) }
{
    match object {
        Some(object) if instance == 0 => Some(NamedInstance::Only(object)),
        _ => None,
    }
}

/// That of a row of the message table, of a column of this name.
fn row_instance(memory: u32, number: u32, column: Option<&'static str>) -> Option<NamedInstance>
    ensures { option_map instance_text result ≡ row_text memory number (option_map (λ name. name.now) column.entry) }
{
    match column {
        Some(column) => Some(NamedInstance::Row(column, memory, number)),
        None => None,
    }
}

/// The name of the object with this number under a node of `dms`, of those that have one instance.
fn scalar_name(node: u32, number: u32) -> Option<&'static str>
    ensures { option_map (λ name. name.now) result ≡ scalar_name node number }
{
    match node {
        2 => object_name(Group::VmsCfg, number),
        4 => object_name(Group::MultiCfg, number),
        5 => object_name(Group::DmsMessage, number),
        6 => object_name(Group::SignControl, number),
        _ => None,
    }
}

/// The name of the column with this number of the message table, which is 5.8.1 below `dms`.
fn column_name(node: u32, table: u32, entry: u32, number: u32) -> Option<&'static str>
    ensures { option_map (λ name. name.now) result ≡ column_name node table entry number }
{
    if node == 5 && table == 8 && entry == 1 {
        object_name(Group::DmsMessageEntry, number)
    } else {
        None
    }
}

/// The name of the object with this number in a group.
fn object_name(group: Group, number: u32) -> Option<&'static str>
    ensures named { IfSome result (λ name. IsName objects group number name.now) }
    ensures none { result ≡ None → HasNone objects group number }
    ensures first { option_map (λ name. name.now) result ≡ name_among objects group number }
{
    objects_are_the_table();
    name_among(&OBJECTS, group, number)
}

/// The name that the first of these rows has for the object with this number in a group.
#[tactic(auto, using(crate::proofs::Named::rows))]
fn name_among(rows: &[(&'static str, Object)], group: Group, number: u32) -> Option<&'static str>
    ensures { option_map (λ name. name.now) result
        ≡ name_among (map (λ row. (row.0.now, row.1)) rows.now) group number }
{
    for (name, object) in rows {
        if stands_at(object, group, number) {
            return Some(*name);
        }
    }
    None
}

/// Whether an object stands under this number in a group.
fn stands_at(object: &Object, group: Group, number: u32) -> bool
    ensures { result ≡ stands_at object.now group number }
{
    same_group(object.group, group) && u32::from(object.number) == number
}

fn same_group(one: Group, other: Group) -> bool
    ensures { result ≡ same_group one other }
{
    one == other
}
