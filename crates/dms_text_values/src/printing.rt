//! A value, printed as it is read.

ghost use Rattle.std.specs.Prelude.{◌≡◌, ◌++◌, codes, OnOk};
ghost use Rattle.hex.specs.Hex.{encode_lower};
ghost use Rattle.dms_wire.specs.View.{object_value};
ghost use Rattle.dms_text_values.specs.ValueText.{value_text, octets_text};

use dms_wire::Value;
use std::alloc::Global;
use std::io;
use std::io::Write;

/// Appends a value with its type, without a space before or after it.
pub fn put_value(alloc: Global, value: &Value<'_>, text: &mut Vec<u8>) -> io::Result<()>
    ensures { OnOk result (text.new.items ≡ text.old.items ++ value_text (object_value value.now)) }
{
    match value {
        Value::Integer(number) => write!(text, "INTEGER {number}"),
        Value::Octets(octets) => put_octet_string(alloc, octets, text),
        Value::Null => write!(text, "NULL"),
        Value::Name(name) => write!(text, "OBJECT IDENTIFIER {name}"),
        Value::Address([a, b, c, d]) => write!(text, "IpAddress {a}.{b}.{c}.{d}"),
        Value::Counter(number) => write!(text, "Counter {number}"),
        Value::Gauge(number) => write!(text, "Gauge {number}"),
        Value::Ticks(number) => write!(text, "TimeTicks {number}"),
        Value::Opaque(octets) => put_opaque(alloc, octets, text),
    }
}

#[tactic(auto, using(crate::proofs::Appended::parts))]
fn put_octet_string(alloc: Global, octets: &[u8], text: &mut Vec<u8>) -> io::Result<()>
    ensures { OnOk result (text.new.items ≡ text.old.items ++ (codes "OCTET STRING " ++ octets_text octets.now)) }
{
    write!(text, "OCTET STRING ")?;
    put_octets(alloc, octets, text)
}

#[tactic(auto, using(crate::proofs::Appended::parts))]
fn put_opaque(alloc: Global, octets: &[u8], text: &mut Vec<u8>) -> io::Result<()>
    ensures { OnOk result (text.new.items ≡ text.old.items ++ (codes "Opaque " ++ octets_text octets.now)) }
{
    write!(text, "Opaque ")?;
    put_octets(alloc, octets, text)
}

/// Appends octets as pairs of small hexadecimal digits, and `-` for none.
fn put_octets(alloc: Global, octets: &[u8], text: &mut Vec<u8>) -> io::Result<()>
    ensures { OnOk result (text.new.items ≡ text.old.items ++ octets_text octets.now) }
{
    if octets.is_empty() {
        return write!(text, "-");
    }
    let digits = hex::encode(alloc, octets)?;
    write!(text, "{digits}")
}
