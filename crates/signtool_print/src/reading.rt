//! Datagrams and texts, read and printed.

ghost use Rattle.std.specs.Prelude.{◌≡◌, ◌⊎◌, ℕ, List, Result, Ok, Err, codes, IfOk, IfErr};
ghost use Rattle.hex.specs.Hex.{decode_of};
ghost use Rattle.hex.specs.declared.error.FromHexError.TheVariants.{OutOfMemory};
ghost use Rattle.dms_wire_ber.specs.declared.fault.WireFault.{WireFault};
ghost use Rattle.dms_wire.specs.Message.{SnmpMessage};
ghost use Rattle.dms_wire.specs.Reading.{message_at};
ghost use Rattle.dms_wire.specs.View.{snmp_message};
ghost use Rattle.signtool_print.specs.DatagramLines.{read_answer, octets_answer, spaced_answer, decode_answer};
ghost use Rattle.signtool_print.specs.SpacedDigits.{spaced_octets};
ghost use Rattle.signtool_print.specs.declared.statuses.ExitStatus.TheVariants.{Misused};
ghost use Rattle.signtool_calls.specs.declared.call.Form.TheVariants.{Lines};
ghost use Rattle.signtool_print.specs.Printed.{Answer, answer, PrintsOrMemory};
ghost use Rattle.signtool_print.specs.ItemLines.{items_answer, status_by};

use crate::fields::write_message;
use crate::item_lines::write_items;
use crate::json::{put_items, put_message};
use crate::spaced::spaced_octets;
use crate::statuses::{ExitStatus, print, print_made, print_memory, print_text, say_memory};
use dms_multi::SyntaxFault;
use dms_text_streams::{Failed, Sink};
use dms_wire::{Message, WireFault, read};
use hex::FromHexError;
use signtool_calls::Form;
use std::alloc::Global;
use std::io::Write;

/// Prints the fields of a datagram in hexadecimal digits, or its fault. `spaced` is whether spaces and colons may stand
/// between octets. Why it is refused is said in words too.
pub fn decode<W: Sink, E: Write>(
    alloc: Global,
    words: (&str, bool, Form),
    writer: &mut W,
    errors: &mut E,
) -> Result<ExitStatus, Failed>
    ensures { words.entry.2 ≡ Lines → PrintsOrMemory (W.contents writer.old) (W.contents writer.new)
        (W.failed writer.old) (W.failed writer.new) result (decode_answer words.entry.1 words.entry.0.now) }
{
    let (digits, spaced, form) = words;
    if spaced {
        decode_spaced(alloc, (digits, form), writer, errors)
    } else {
        decode_digits(alloc, (digits, form), writer, errors)
    }
}

/// Decodes digits between whose pairs spaces and colons may stand.
fn decode_spaced<W: Sink, E: Write>(
    alloc: Global,
    words: (&str, Form),
    writer: &mut W,
    errors: &mut E,
) -> Result<ExitStatus, Failed>
    ensures { words.entry.1 ≡ Lines → PrintsOrMemory (W.contents writer.old) (W.contents writer.new)
        (W.failed writer.old) (W.failed writer.new) result (spaced_answer (spaced_octets words.entry.0.now)) }
{
    let (digits, form) = words;
    match spaced_octets(alloc, digits.as_bytes()) {
        Ok(datagram) => print_datagram(alloc, datagram.as_slice(), form, writer, errors),
        // what is no digit in the word is a separator in its place
        Err(FromHexError::OddLength) => {
            say_odd_number(errors);
            print_not_hex(form, writer)
        }
        Err(fault) => print_hex_fault(form, (digits, fault), writer, errors),
    }
}

/// Decodes digits with nothing between them.
fn decode_digits<W: Sink, E: Write>(
    alloc: Global,
    words: (&str, Form),
    writer: &mut W,
    errors: &mut E,
) -> Result<ExitStatus, Failed>
    ensures { words.entry.1 ≡ Lines → PrintsOrMemory (W.contents writer.old) (W.contents writer.new)
        (W.failed writer.old) (W.failed writer.new) result (octets_answer (decode_of words.entry.0.now)) }
{
    let (digits, form) = words;
    match octets_of(alloc, digits) {
        Ok(datagram) => print_datagram(alloc, datagram.as_slice(), form, writer, errors),
        Err(fault) => print_hex_fault(form, (digits, fault), writer, errors),
    }
}

/// The octets that hexadecimal digits are.
fn octets_of(alloc: Global, digits: &str) -> Result<Vec<u8>, FromHexError>
    ensures octets { IfOk result (λ octets. decode_of digits.now ≡ Ok octets.items) }
    ensures fault { IfErr result (λ fault. (fault ≡ OutOfMemory) ⊎ (decode_of digits.now ≡ Err fault)) }
{
    hex::decode(alloc, digits.as_bytes())
}

/// Prints the fields of a datagram, or its fault.
fn print_datagram<W: Sink, E: Write>(
    alloc: Global,
    datagram: &[u8],
    form: Form,
    writer: &mut W,
    errors: &mut E,
) -> Result<ExitStatus, Failed>
    ensures { form ≡ Lines → (wanted : List ℕ) → datagram.now ≡ wanted → PrintsOrMemory (W.contents writer.old)
        (W.contents writer.new) (W.failed writer.old) (W.failed writer.new) result (read_answer (message_at wanted)) }
{
    match read(datagram) {
        Ok(message) => print_message(alloc, message, form, writer, errors),
        Err(fault) => {
            let _ = writeln!(errors, "{fault}");
            print_wire_fault(alloc, form, fault, writer, errors)
        }
    }
}

fn print_message<W: Sink, E: Write>(
    alloc: Global,
    message: Message<'_>,
    form: Form,
    writer: &mut W,
    errors: &mut E,
) -> Result<ExitStatus, Failed>
    ensures { form ≡ Lines → (wanted : Result SnmpMessage WireFault) → Ok (snmp_message message.entry) ≡ wanted
        → PrintsOrMemory (W.contents writer.old) (W.contents writer.new) (W.failed writer.old) (W.failed writer.new)
        result (read_answer wanted) }
{
    let mut fields = Vec::new(alloc);
    let made = match form {
        Form::Lines => write_message(alloc, message, &mut fields),
        Form::Json => put_message(alloc, message, &mut fields),
    };
    match made {
        Ok(()) => print_made(writer, fields, ExitStatus::Done),
        Err(_) => print_no_memory(form, writer, errors),
    }
}

/// Prints the items of a text before its fault, and its fault, if it has one, which is said in words too.
pub fn list_items<W: Sink, E: Write>(
    alloc: Global,
    text: &str,
    form: Form,
    writer: &mut W,
    errors: &mut E,
) -> Result<ExitStatus, Failed>
    ensures { form ≡ Lines → PrintsOrMemory (W.contents writer.old) (W.contents writer.new) (W.failed writer.old)
        (W.failed writer.new) result (items_answer text.now) }
{
    match form {
        Form::Lines => print_items(alloc, text, writer, errors),
        Form::Json => print_items_json(alloc, text, writer, errors),
    }
}

/// Prints the items of a text and its fault as lines.
fn print_items<W: Sink, E: Write>(
    alloc: Global,
    text: &str,
    writer: &mut W,
    errors: &mut E,
) -> Result<ExitStatus, Failed>
    ensures { PrintsOrMemory (W.contents writer.old) (W.contents writer.new) (W.failed writer.old)
        (W.failed writer.new) result (items_answer text.now) }
{
    let mut lines = Vec::new(alloc);
    match write_items(text.as_bytes(), &mut lines) {
        Ok(fault) => print_listed(writer, lines, say_items_fault(fault, errors)),
        Err(_) => print_memory(writer, errors),
    }
}

/// Prints them as an object of JSON.
fn print_items_json<W: Sink, E: Write>(
    alloc: Global,
    text: &str,
    writer: &mut W,
    errors: &mut E,
) -> Result<ExitStatus, Failed> {
    let mut object = Vec::new(alloc);
    match put_items(text.as_bytes(), &mut object) {
        Ok(fault) => print_made(writer, object, say_items_fault(fault, errors)),
        Err(_) => print_no_memory(Form::Json, writer, errors),
    }
}

/// Prints lines that there was memory for, with this status.
fn print_listed<W: Sink>(
    writer: &mut W,
    lines: Vec<u8>,
    status: ExitStatus,
) -> Result<ExitStatus, Failed>
    ensures { (wanted : Answer) → answer status lines.items ≡ wanted → PrintsOrMemory (W.contents writer.old)
        (W.contents writer.new) (W.failed writer.old) (W.failed writer.new) result wanted }
{
    print_made(writer, lines, status)
}

/// Says the fault of a text in words, if it has one, and gives the status by it.
fn say_items_fault<E: Write>(fault: Option<SyntaxFault>, errors: &mut E) -> ExitStatus
    ensures { result ≡ status_by fault }
{
    match fault {
        None => ExitStatus::Done,
        Some(fault) => {
            let _ = writeln!(errors, "{fault}");
            ExitStatus::Refused
        }
    }
}

/// Prints that a word is no octets, and says which octet of it is no digit of a pair, or that there is no memory.
pub fn print_hex_fault<W: Sink, E: Write>(
    form: Form,
    words: (&str, FromHexError),
    writer: &mut W,
    errors: &mut E,
) -> Result<ExitStatus, Failed>
    ensures digits { form ≡ Lines → PrintsOrMemory (W.contents writer.old) (W.contents writer.new)
        (W.failed writer.old) (W.failed writer.new) result (answer Misused (codes "not hex\n")) }
    ensures memory { form ≡ Lines → words.entry.1 ≡ OutOfMemory → (wanted : Answer) → PrintsOrMemory
        (W.contents writer.old) (W.contents writer.new) (W.failed writer.old) (W.failed writer.new) result wanted }
{
    let (digits, fault) = words;
    match fault {
        FromHexError::OutOfMemory => print_no_memory(form, writer, errors),
        FromHexError::InvalidHexCharacter { c: _, index } => {
            say_no_digit(digits, index, errors);
            print_not_hex(form, writer)
        }
        _ => {
            match digits
                .as_bytes()
                .iter()
                .position(|octet| !octet.is_ascii_hexdigit())
            {
                Some(index) => say_no_digit(digits, index, errors),
                None => say_odd_number(errors),
            }
            print_not_hex(form, writer)
        }
    }
}

/// Says which octet of a word is no digit of a pair.
fn say_no_digit<E: Write>(digits: &str, index: usize, errors: &mut E) {
    let octet = digits.as_bytes().get(index).copied().unwrap_or(0);
    let number = index.saturating_add(1);
    let _ = writeln!(
        errors,
        "octet {number} of the word, {octet:02x} in hexadecimal, is no digit of a pair"
    );
}

fn say_odd_number<E: Write>(errors: &mut E) {
    let _ = writeln!(errors, "the word has an odd number of hexadecimal digits");
}

fn print_not_hex<W: Sink>(form: Form, writer: &mut W) -> Result<ExitStatus, Failed>
    ensures { form ≡ Lines → PrintsOrMemory (W.contents writer.old) (W.contents writer.new) (W.failed writer.old)
        (W.failed writer.new) result (answer Misused (codes "not hex\n")) }
{
    match form {
        Form::Lines => print_text(writer, b"not hex\n", ExitStatus::Misused),
        Form::Json => print(writer, b"{\"refused\":\"not hex\"}\n", ExitStatus::Misused),
    }
}

/// Says in words why a sign does not answer a datagram.
pub fn say_why_dropped<E: Write>(datagram: &[u8], errors: &mut E) {
    let _ = match read(datagram) {
        Ok(_) => writeln!(
            errors,
            "no request, or not of a community that may ask this"
        ),
        Err(fault) => writeln!(errors, "{fault}"),
    };
}

/// Prints why octets spell no message, and where.
fn print_wire_fault<W: Sink, E: Write>(
    alloc: Global,
    form: Form,
    fault: WireFault,
    writer: &mut W,
    errors: &mut E,
) -> Result<ExitStatus, Failed>
    ensures { form ≡ Lines → (wanted : Result SnmpMessage WireFault) → Err fault ≡ wanted
        → PrintsOrMemory (W.contents writer.old) (W.contents writer.new) (W.failed writer.old) (W.failed writer.new)
        result (read_answer wanted) }
{
    let mut text = Vec::new(alloc);
    let made = match form {
        Form::Lines => writeln!(text, "fault {fault}"),
        Form::Json => writeln!(
            text,
            "{{\"fault\":\"{}\",\"octet\":{}}}",
            fault.kind, fault.place
        ),
    };
    match made {
        Ok(()) => print_made(writer, text, ExitStatus::Refused),
        Err(_) => print_no_memory(form, writer, errors),
    }
}

/// Prints that there is no memory, and says so in words too.
pub fn print_no_memory<W: Sink, E: Write>(
    form: Form,
    writer: &mut W,
    errors: &mut E,
) -> Result<ExitStatus, Failed>
    ensures { form ≡ Lines → (wanted : Answer) → PrintsOrMemory (W.contents writer.old) (W.contents writer.new)
        (W.failed writer.old) (W.failed writer.new) result wanted }
{
    match form {
        Form::Lines => print_memory(writer, errors),
        Form::Json => {
            say_memory(errors);
            print(writer, b"{\"refused\":\"memory\"}\n", ExitStatus::Refused)
        }
    }
}
