//! The fields of a datagram, printed.

ghost use Rattle.std.specs.Prelude.{◌≡◌, ◌++◌, [], ◌∷◌, List, ℕ, ℤ, codes, decimal, IfOk, OnOk};
ghost use Rattle.std.specs.Fmt.{signed_decimal};
ghost use Rattle.std.specs.List.{flat_map, list_all};
ghost use Rattle.hex.specs.Hex.{encode_lower};
ghost use Rattle.dms_wire_ber.specs.NameText.{dotted};
ghost use Rattle.dms_wire.specs.View.{object_value, var_bind, snmp_message};
ghost use Rattle.signtool_print.specs.DatagramLines.{is_printable, quoted_text, octets_text, type_name, typed_text};
ghost use Rattle.signtool_print.specs.DatagramLines.{name_text, binding_line, kind_name, field_line};
ghost use Rattle.signtool_print.specs.DatagramLines.{community_lines, number_lines, message_lines};

use crate::names::write_name;
use dms_wire::{Bind, Binds, Kind, Message, Oid, Value};
use std::alloc::Global;
use std::io;
use std::io::Write;

/// Writes a message's fields, a line each. Octets are pairs of hexadecimal digits, and after them in quotes a text,
/// where all are printable.
#[tactic(auto, using(crate::proofs::Appended::three_parts))]
pub(crate) fn write_message(
    alloc: Global,
    message: Message<'_>,
    lines: &mut Vec<u8>,
) -> io::Result<()>
    ensures { OnOk result (lines.new.items ≡ lines.old.items ++ message_lines (snmp_message message.entry)) }
{
    write_community(alloc, &message, lines)?;
    write_numbers(&message, lines)?;
    write_bindings(alloc, message.binds, lines)
}

/// Writes what a message is, and its community.
#[tactic(auto, using(crate::proofs::Appended::three_parts))]
fn write_community(alloc: Global, message: &Message<'_>, lines: &mut Vec<u8>) -> io::Result<()>
    ensures { OnOk result (lines.new.items ≡ lines.old.items ++ community_lines (snmp_message message.now)) }
{
    write!(lines, "kind {}\ncommunity", kind_name(message.kind))?;
    write_octets(alloc, message.community, lines)?;
    writeln!(lines)
}

/// Writes a message's numbers.
fn write_numbers(message: &Message<'_>, lines: &mut Vec<u8>) -> io::Result<()>
    ensures { OnOk result (lines.new.items ≡ lines.old.items ++ number_lines (snmp_message message.now)) }
{
    write_field("request-id", message.request, lines)?;
    write_field("error-status", message.status, lines)?;
    write_field("error-index", message.index, lines)?;
    Ok(())
}

fn write_field(name: &str, number: i64, lines: &mut Vec<u8>) -> io::Result<()>
    ensures { OnOk result (lines.new.items ≡ lines.old.items ++ field_line name.now number) }
{
    writeln!(lines, "{name} {number}")
}

pub(crate) fn kind_name(kind: Kind) -> &'static str
    ensures { result.now ≡ kind_name kind }
{
    match kind {
        Kind::Get => "Get",
        Kind::GetNext => "GetNext",
        Kind::Response => "Response",
        Kind::Set => "Set",
    }
}

/// Writes bindings, a line each.
#[tactic(auto, using(crate::proofs::Appended::bindings))]
fn write_bindings(alloc: Global, bindings: Binds<'_>, lines: &mut Vec<u8>) -> io::Result<()>
    ensures { OnOk result (lines.new.items ≡ lines.old.items ++ flat_map binding_line bindings.entry) }
{
    for binding in bindings {
        write_binding(alloc, &binding, lines)?;
    }
    Ok(())
}

/// Writes a binding: its name, and its value with its type.
#[tactic(auto, using(crate::proofs::Appended::three_parts))]
fn write_binding(alloc: Global, binding: &Bind<'_>, lines: &mut Vec<u8>) -> io::Result<()>
    ensures { OnOk result (lines.new.items ≡ lines.old.items ++ binding_line (var_bind binding.now)) }
{
    write_bound(alloc, &binding.name, lines)?;
    write!(lines, ": {}", type_name(&binding.value))?;
    write_ended(alloc, &binding.value, lines)
}

#[tactic(auto, using(crate::proofs::Appended::two_parts))]
fn write_bound(alloc: Global, name: &Oid<'_>, lines: &mut Vec<u8>) -> io::Result<()>
    ensures { OnOk result (lines.new.items ≡ lines.old.items ++ (codes "binding " ++ name_text name.now)) }
{
    write!(lines, "binding ")?;
    write_name(alloc, name, lines)
}

#[tactic(auto, using(crate::proofs::Appended::two_parts))]
fn write_ended(alloc: Global, value: &Value<'_>, lines: &mut Vec<u8>) -> io::Result<()>
    ensures { OnOk result (lines.new.items ≡ lines.old.items ++ (typed_text (object_value value.now) ++ codes "\n")) }
{
    write_value(alloc, value, lines)?;
    writeln!(lines)
}

/// The name of a value's type.
pub(crate) fn type_name(value: &Value<'_>) -> &'static str
    ensures { result.now ≡ type_name (object_value value.now) }
{
    match value {
        Value::Integer(_) => "INTEGER",
        Value::Octets(_) => "OCTET STRING",
        Value::Null => "NULL",
        Value::Name(_) => "OBJECT IDENTIFIER",
        Value::Address(_) => "IpAddress",
        Value::Counter(_) => "Counter",
        Value::Gauge(_) => "Gauge",
        Value::Ticks(_) => "TimeTicks",
        Value::Opaque(_) => "Opaque",
    }
}

/// Writes a space and a value, but nothing for NULL.
fn write_value(alloc: Global, value: &Value<'_>, lines: &mut Vec<u8>) -> io::Result<()>
    ensures { OnOk result (lines.new.items ≡ lines.old.items ++ typed_text (object_value value.now)) }
{
    match value {
        Value::Integer(number) => write!(lines, " {number}"),
        Value::Counter(number) => write!(lines, " {number}"),
        Value::Gauge(number) => write!(lines, " {number}"),
        Value::Ticks(number) => write!(lines, " {number}"),
        Value::Octets(octets) => write_octets(alloc, octets, lines),
        Value::Opaque(octets) => write_octets(alloc, octets, lines),
        Value::Null => Ok(()),
        Value::Name(name) => write_spaced_name(alloc, name, lines),
        Value::Address([a, b, c, d]) => write!(lines, " {a}.{b}.{c}.{d}"),
    }
}

#[tactic(auto, using(crate::proofs::Appended::two_parts))]
fn write_spaced_name(alloc: Global, name: &Oid<'_>, lines: &mut Vec<u8>) -> io::Result<()>
    ensures { OnOk result (lines.new.items ≡ lines.old.items ++ (codes " " ++ name_text name.now)) }
{
    write!(lines, " ")?;
    write_name(alloc, name, lines)
}

/// Writes a space and octets, and in quotes the text that they are, where all of them are printable; none at all is
/// `-`.
#[tactic(auto, using(crate::proofs::Appended::two_parts))]
fn write_octets(alloc: Global, octets: &[u8], lines: &mut Vec<u8>) -> io::Result<()>
    ensures { OnOk result (lines.new.items ≡ lines.old.items ++ octets_text octets.now) }
{
    if octets.is_empty() {
        return write!(lines, " -");
    }
    write_digits(alloc, octets, lines)?;
    write_quoted(octets, lines)
}

/// Writes a space, and octets in hexadecimal digits.
fn write_digits(alloc: Global, octets: &[u8], lines: &mut Vec<u8>) -> io::Result<()>
    ensures { OnOk result (lines.new.items ≡ lines.old.items ++ (codes " " ++ encode_lower octets.now)) }
{
    let digits = hex::encode(alloc, octets)?;
    write!(lines, " {digits}")
}

/// Writes a space, and in quotes the text that octets are, where all of them are printable.
#[tactic(auto, using(crate::proofs::Appended::three_parts))]
fn write_quoted(octets: &[u8], lines: &mut Vec<u8>) -> io::Result<()>
    ensures { OnOk result (lines.new.items ≡ lines.old.items ++ quoted_text octets.now) }
{
    if !are_printable(octets) {
        return Ok(());
    }
    lines.extend_from_slice(b" \"")?;
    lines.extend_from_slice(octets)?;
    lines.push(b'"')?;
    Ok(())
}

/// Whether octets are a text: all of them are printable.
pub(crate) fn are_printable(octets: &[u8]) -> bool
    ensures { result ≡ list_all is_printable octets.now }
{
    octets.iter().all(|octet| matches!(*octet, b' '..=b'~'))
}
