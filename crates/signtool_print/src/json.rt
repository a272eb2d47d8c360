//! Answers as objects of JSON, whose fields are named by the words of the answer as lines.

use crate::fields::{are_printable, kind_name, type_name};
use crate::item_words::{ItemWords, Values};
use crate::names::write_object;
use dms_multi::{Spot, SyntaxFault, items};
use dms_wire::{Bind, Binds, Message, Oid, Value};
use std::alloc::Global;
use std::io;
use std::io::Write;

/// Appends a message's fields.
pub(crate) fn put_message(
    alloc: Global,
    message: Message<'_>,
    out: &mut Vec<u8>,
) -> io::Result<()> {
    put_community(alloc, &message, out)?;
    put_numbers(&message, out)?;
    put_bindings(alloc, message.binds, out)?;
    out.write_all(b"]}\n")
}

/// Appends what a message is, and its community.
fn put_community(alloc: Global, message: &Message<'_>, out: &mut Vec<u8>) -> io::Result<()> {
    let kind = kind_name(message.kind);
    write!(out, "{{\"kind\":\"{kind}\",\"community\":")?;
    put_octets(alloc, message.community, out)
}

/// Appends a message's numbers.
fn put_numbers(message: &Message<'_>, out: &mut Vec<u8>) -> io::Result<()> {
    write!(out, ",\"request-id\":{}", message.request)?;
    write!(out, ",\"error-status\":{}", message.status)?;
    write!(out, ",\"error-index\":{},\"binding\":[", message.index)
}

/// Appends bindings, with commas between them.
fn put_bindings(alloc: Global, bindings: Binds<'_>, out: &mut Vec<u8>) -> io::Result<()> {
    let mut is_first = true;
    for binding in bindings {
        put_separator(is_first, out)?;
        put_binding(alloc, &binding, out)?;
        is_first = false;
    }
    Ok(())
}

/// Appends what stands between two values: nothing before the first one.
fn put_separator(is_first: bool, out: &mut Vec<u8>) -> io::Result<()> {
    if is_first {
        return Ok(());
    }
    out.write_all(b",")
}

/// Appends a binding: its name, and its value with its type.
fn put_binding(alloc: Global, binding: &Bind<'_>, out: &mut Vec<u8>) -> io::Result<()> {
    out.write_all(b"{")?;
    put_name(alloc, &binding.name, out)?;
    put_type(&binding.value, out)?;
    put_value(alloc, &binding.value, out)?;
    out.write_all(b"}")
}

/// Appends an object identifier, and the object and the instance that it names, if it is one.
fn put_name(alloc: Global, name: &Oid<'_>, out: &mut Vec<u8>) -> io::Result<()> {
    write!(out, "\"name\":\"{name}\"")?;
    write_object(alloc, name, (",\"object\":\"", "\""), out)
}

/// Appends the type of a value, and the name of the field that has the value.
fn put_type(value: &Value<'_>, out: &mut Vec<u8>) -> io::Result<()> {
    let name = type_name(value);
    write!(out, ",\"type\":\"{name}\",\"value\":")
}

/// Appends a value.
fn put_value(alloc: Global, value: &Value<'_>, out: &mut Vec<u8>) -> io::Result<()> {
    match value {
        Value::Integer(number) => put_integer(*number, out),
        Value::Counter(number) => put_integer(i64::from(*number), out),
        Value::Gauge(number) => put_integer(i64::from(*number), out),
        Value::Ticks(number) => put_integer(i64::from(*number), out),
        Value::Octets(octets) => put_octets(alloc, octets, out),
        Value::Opaque(octets) => put_octets(alloc, octets, out),
        Value::Null => out.write_all(b"null"),
        Value::Name(name) => put_named(alloc, name, out),
        Value::Address([a, b, c, d]) => write!(out, "\"{a}.{b}.{c}.{d}\""),
    }
}

fn put_integer(number: i64, out: &mut Vec<u8>) -> io::Result<()> {
    write!(out, "{number}")
}

/// Appends an object that names an object identifier.
fn put_named(alloc: Global, name: &Oid<'_>, out: &mut Vec<u8>) -> io::Result<()> {
    out.write_all(b"{")?;
    put_name(alloc, name, out)?;
    out.write_all(b"}")
}

/// Appends octets in hexadecimal digits, and the text that they are, where all of them are printable.
fn put_octets(alloc: Global, octets: &[u8], out: &mut Vec<u8>) -> io::Result<()> {
    put_digits(alloc, octets, out)?;
    if !octets.is_empty() && are_printable(octets) {
        out.write_all(b",\"text\":\"")?;
        put_escaped(octets, out)?;
        out.write_all(b"\"")?;
    }
    out.write_all(b"}")
}

fn put_digits(alloc: Global, octets: &[u8], out: &mut Vec<u8>) -> io::Result<()> {
    let digits = hex::encode(alloc, octets)?;
    write!(out, "{{\"octets\":\"{digits}\"")
}

/// Appends printable octets as they stand between quotes.
fn put_escaped(octets: &[u8], out: &mut Vec<u8>) -> io::Result<()> {
    for octet in octets {
        if *octet == b'"' || *octet == b'\\' {
            out.push(b'\\')?;
        }
        out.push(*octet)?;
    }
    Ok(())
}

/// Appends the items of a text before its fault, and its fault, if it has one. Gives the fault.
pub(crate) fn put_items(text: &[u8], out: &mut Vec<u8>) -> io::Result<Option<SyntaxFault>> {
    out.write_all(b"{\"items\":[")?;
    let mut is_first = true;
    for outcome in items(text) {
        match outcome {
            Ok(spot) => put_spot(is_first, &spot, out)?,
            Err(fault) => {
                put_fault(fault, out)?;
                return Ok(Some(fault));
            }
        }
        is_first = false;
    }
    out.write_all(b"]}\n")?;
    Ok(None)
}

/// Appends the end of the items, and the fault after them.
fn put_fault(fault: SyntaxFault, out: &mut Vec<u8>) -> io::Result<()> {
    let number = fault.code.number();
    writeln!(out, "],\"fault\":{number},\"at\":{}}}", fault.place)
}

/// Appends an item after a separator: its offset, what it is, and its values.
fn put_spot(is_first: bool, spot: &Spot, out: &mut Vec<u8>) -> io::Result<()> {
    let words = ItemWords::of(spot.item);
    let (first, name) = (spot.first, words.name);
    put_separator(is_first, out)?;
    write!(out, "{{\"at\":{first},\"item\":\"{name}\",\"values\":[")?;
    put_values(words.values, out)?;
    put_version(words.version, out)
}

fn put_values(values: Values, out: &mut Vec<u8>) -> io::Result<()> {
    match values {
        Values::Nothing => Ok(()),
        Values::One(value) => put_number(value, out),
        Values::Two(first, second) => {
            put_number(first, out)?;
            out.write_all(b",")?;
            put_number(second, out)
        }
    }
}

/// Appends a value; none is the sign's default.
fn put_number(value: Option<u16>, out: &mut Vec<u8>) -> io::Result<()> {
    match value {
        Some(number) => write!(out, "{number}"),
        None => out.write_all(b"null"),
    }
}

/// Appends the end of the values, the version of a font, if it has one, and the end of the item.
fn put_version(version: Option<u16>, out: &mut Vec<u8>) -> io::Result<()> {
    match version {
        Some(version) => write!(out, "],\"version\":{version}}}"),
        None => out.write_all(b"]}"),
    }
}
