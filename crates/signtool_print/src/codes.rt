//! The codes that activate messages.

ghost use Rattle.std.specs.Prelude.{◌≡◌, ◌++◌, codes, IfOk, OnOk};
ghost use Rattle.signtool_print.specs.Printed.{answer, PrintsOrMemory};
ghost use Rattle.signtool_print.specs.declared.statuses.ExitStatus.TheVariants.{Done, Refused, Misused};
ghost use Rattle.signtool_print.specs.CodeLine.{code_line};
ghost use Rattle.signtool_print.specs.CodeAnswers.{bit, order_of, on_terms, checksum_line, id_of, code_lines};
ghost use Rattle.signtool_print.specs.CodeAnswers.{addressed_answer, code_answer, message_of, activation_line};
ghost use Rattle.signtool_print.specs.CodeAnswers.{read_activation, activation_answer};

use crate::statuses::{ExitStatus, print_made, print_memory, print_text};
use dms_codes::{Activation, MAX_TEXT, MessageId, Order, crc};
use dms_text::version;
use dms_text_streams::{Failed, Sink};
use signtool_calls::{ActivationWords, CodeWords, TermWords};
use std::alloc::{AllocError, Global};
use std::io::Write;

/// Prints the checksum of a message, and the code that puts it up. `address` is what the address of its terms spells.
/// Why it is refused is said in words too.
pub fn code<W: Sink, E: Write>(
    alloc: Global,
    words: &CodeWords<'_>,
    address: Option<[u8; 4]>,
    writer: &mut W,
    errors: &mut E,
) -> Result<ExitStatus, Failed>
    ensures { PrintsOrMemory (W.contents writer.old) (W.contents writer.new) (W.failed writer.old)
        (W.failed writer.new) result (code_answer words.now address) }
{
    match address {
        Some(address) => print_code(alloc, words, address, writer, errors),
        None => print_bad_address(&words.terms, writer, errors),
    }
}

fn print_code<W: Sink, E: Write>(
    alloc: Global,
    words: &CodeWords<'_>,
    address: [u8; 4],
    writer: &mut W,
    errors: &mut E,
) -> Result<ExitStatus, Failed>
    ensures { PrintsOrMemory (W.contents writer.old) (W.contents writer.new) (W.failed writer.old)
        (W.failed writer.new) result (addressed_answer words.now address) }
{
    if words.text.len() > MAX_TEXT {
        print_too_long(words.text.len(), writer, errors)
    } else {
        print_code_lines(alloc, words, address, writer, errors)
    }
}

/// Prints that a text is too long, and says by how much.
fn print_too_long<W: Sink, E: Write>(
    length: usize,
    writer: &mut W,
    errors: &mut E,
) -> Result<ExitStatus, Failed>
    ensures { PrintsOrMemory (W.contents writer.old) (W.contents writer.new) (W.failed writer.old)
        (W.failed writer.new) result (answer Refused (codes "text too long\n")) }
{
    let count = length.saturating_sub(MAX_TEXT);
    let _ = writeln!(
        errors,
        "the text has {length} octets, {count} more than {MAX_TEXT}"
    );
    print_text(writer, b"text too long\n", ExitStatus::Refused)
}

fn print_code_lines<W: Sink, E: Write>(
    alloc: Global,
    words: &CodeWords<'_>,
    address: [u8; 4],
    writer: &mut W,
    errors: &mut E,
) -> Result<ExitStatus, Failed>
    ensures { PrintsOrMemory (W.contents writer.old) (W.contents writer.new) (W.failed writer.old)
        (W.failed writer.new) result (answer Done (code_lines words.now address)) }
{
    match code_lines(alloc, words, address) {
        Ok(lines) => print_made(writer, lines, ExitStatus::Done),
        Err(_) => print_memory(writer, errors),
    }
}

/// The lines of a message's checksum and of the code that puts it up.
fn code_lines(alloc: Global, words: &CodeWords<'_>, address: [u8; 4]) -> Result<Vec<u8>, AllocError>
    ensures { IfOk result (λ lines. lines.items ≡ code_lines words.now address) }
{
    let id = id_of(words);
    let mut lines = Vec::new(alloc);
    put_checksum(alloc, &mut lines, id.crc)?;
    put_code(
        alloc,
        &mut lines,
        order_of(&words.terms),
        &on_terms(id, &words.terms, address),
    )?;
    Ok(lines)
}

/// The message that a call of `code` names.
fn id_of(words: &CodeWords<'_>) -> MessageId
    ensures { result ≡ id_of words.now }
{
    MessageId {
        memory: words.row.memory,
        number: words.row.number,
        crc: crc(words.text.as_bytes(), bit(words.beacon), bit(words.pixel)),
    }
}

fn bit(flag: bool) -> u8
    ensures { result ≡ bit flag }
{
    if flag { 1 } else { 0 }
}

/// Appends the line that says a checksum.
fn put_checksum(alloc: Global, lines: &mut Vec<u8>, crc: u16) -> Result<(), AllocError>
    ensures { OnOk result (lines.new.items ≡ lines.old.items ++ checksum_line crc) }
{
    let digits = hex::encode(alloc, crc.to_be_bytes().as_slice())?;
    writeln!(lines, "crc {digits}").or(Err(AllocError))
}

/// Prints the code that puts up the message of a checksum. `address` is what the address of its terms spells. Why it is
/// refused is said in words too.
pub fn activation<W: Sink, E: Write>(
    alloc: Global,
    words: &ActivationWords<'_>,
    address: Option<[u8; 4]>,
    writer: &mut W,
    errors: &mut E,
) -> Result<ExitStatus, Failed>
    ensures { PrintsOrMemory (W.contents writer.old) (W.contents writer.new) (W.failed writer.old)
        (W.failed writer.new) result (activation_answer words.now address) }
{
    print_activation(
        alloc,
        words,
        version(words.checksum.as_bytes()),
        address,
        writer,
        errors,
    )
}

fn print_activation<W: Sink, E: Write>(
    alloc: Global,
    words: &ActivationWords<'_>,
    checksum: Option<u16>,
    address: Option<[u8; 4]>,
    writer: &mut W,
    errors: &mut E,
) -> Result<ExitStatus, Failed>
    ensures { PrintsOrMemory (W.contents writer.old) (W.contents writer.new) (W.failed writer.old)
        (W.failed writer.new) result (read_activation words.now checksum address) }
{
    match (checksum, address) {
        (None, _) => {
            let _ = writeln!(
                errors,
                "a checksum is four hexadecimal digits, and not `{}`",
                words.checksum
            );
            print_text(writer, b"bad checksum\n", ExitStatus::Misused)
        }
        (Some(_), None) => print_bad_address(&words.terms, writer, errors),
        (Some(crc), Some(address)) => match activation_line(alloc, words, crc, address) {
            Ok(line) => print_made(writer, line, ExitStatus::Done),
            Err(_) => print_memory(writer, errors),
        },
    }
}

/// The line of the code that puts up the message of this checksum.
fn activation_line(
    alloc: Global,
    words: &ActivationWords<'_>,
    crc: u16,
    address: [u8; 4],
) -> Result<Vec<u8>, AllocError>
    ensures { IfOk result (λ line. line.items ≡ activation_line words.now crc address) }
{
    let id = MessageId {
        memory: words.message.memory,
        number: words.message.number,
        crc,
    };
    let mut line = Vec::new(alloc);
    put_code(
        alloc,
        &mut line,
        order_of(&words.terms),
        &on_terms(id, &words.terms, address),
    )?;
    Ok(line)
}

/// Prints that an address is none, and says what one is.
fn print_bad_address<W: Sink, E: Write>(
    terms: &TermWords<'_>,
    writer: &mut W,
    errors: &mut E,
) -> Result<ExitStatus, Failed>
    ensures { PrintsOrMemory (W.contents writer.old) (W.contents writer.new) (W.failed writer.old)
        (W.failed writer.new) result (answer Misused (codes "bad address\n")) }
{
    let _ = writeln!(
        errors,
        "an address is four numbers from 0 to 255 with dots between them, as 192.0.2.1, and not `{}`",
        terms.address
    );
    print_text(writer, b"bad address\n", ExitStatus::Misused)
}

/// The activation of a message on these terms, from this address.
fn on_terms(id: MessageId, terms: &TermWords<'_>, address: [u8; 4]) -> Activation
    ensures { result ≡ on_terms id terms.now address }
{
    Activation {
        minutes: terms.duration,
        priority: terms.priority,
        id,
        address,
    }
}

/// In which order a checksum has its octets.
fn order_of(terms: &TermWords<'_>) -> Order
    ensures { result ≡ order_of terms.now }
{
    if terms.swapped {
        Order::Swapped
    } else {
        Order::High
    }
}

/// Appends the line that says a code.
fn put_code(
    alloc: Global,
    lines: &mut Vec<u8>,
    order: Order,
    code: &Activation,
) -> Result<(), AllocError>
    ensures { OnOk result (lines.new.items ≡ lines.old.items ++ code_line order code.now) }
{
    let code = hex::encode(alloc, code.to_bytes(order).as_slice())?;
    writeln!(lines, "code {code}").or(Err(AllocError))
}
