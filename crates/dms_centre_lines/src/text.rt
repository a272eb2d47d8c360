//! The lines of answers.

ghost use Rattle.std.specs.Prelude.{◌≡◌, ◌≤◌, ◌++◌, [], codes, IfOk, vec_capacity};
ghost use Rattle.dms_centre_jobs.specs.CodeView.{command_model};
ghost use Rattle.dms_centre.specs.Texts.{command_fault_text};
ghost use Rattle.dms_centre.specs.declared.fault.CommandFault.TheVariants.{BadCommand};
ghost use Rattle.dms_text_forms.specs.LineText.{ended};
ghost use Rattle.dms_centre_lines.specs.BadValue.{value_text};
ghost use Rattle.dms_centre.specs.CodeView.{sent_in};
ghost use Rattle.dms_centre_lines.specs.Answers.{refused_line, sent_line, longest_sent};

use crate::bad_value::{CommandValue, bad_value};
use dms_centre::{Command, CommandFault};
use dms_text_streams::{put, put_digits};
use dms_wire::{MAX_DATAGRAM, Out};
use std::alloc::{AllocError, Global};
use std::io::Write;

/// The most octets of a line that says what is sent.
const LONGEST_SENT: usize = 2 * MAX_DATAGRAM + 6;

/// Why this command is not taken; where a value is out of its range, which one.
pub(crate) fn refused(
    alloc: Global,
    fault: CommandFault,
    asked: &Command<'_>,
) -> Result<Vec<u8>, AllocError>
    ensures { IfOk result (λ text. text.items ≡ refused_line (command_model asked.now) fault) }
{
    match fault {
        CommandFault::BadCommand => out_of_range(alloc, bad_value(asked)),
        CommandFault::Busy | CommandFault::NumbersUsedUp | CommandFault::Memory => {
            not_taken(alloc, fault)
        }
    }
}

fn not_taken(alloc: Global, fault: CommandFault) -> Result<Vec<u8>, AllocError>
    ensures { IfOk result (λ text. text.items ≡ ended (codes "refused " ++ command_fault_text fault)) }
{
    let mut text = Vec::new(alloc);
    match writeln!(text, "refused {fault}") {
        Ok(()) => Ok(text),
        Err(_) => Err(AllocError),
    }
}

fn out_of_range(alloc: Global, value: CommandValue) -> Result<Vec<u8>, AllocError>
    ensures { IfOk result (λ text. text.items
        ≡ ended (codes "refused " ++ (command_fault_text BadCommand ++ (codes ": " ++ value_text value)))) }
{
    let mut text = Vec::new(alloc);
    let fault = CommandFault::BadCommand;
    match writeln!(text, "refused {fault}: {value}") {
        Ok(()) => Ok(text),
        Err(_) => Err(AllocError),
    }
}

/// An empty text with room for the line of any datagram.
pub(crate) fn room(alloc: Global) -> Result<Vec<u8>, AllocError>
    ensures empty { IfOk result (λ text. text.items ≡ []) }
    ensures room { IfOk result (λ text. longest_sent ≤ vec_capacity text) }
{
    Vec::with_capacity(alloc, LONGEST_SENT)
}

/// Writes the datagram that goes out, in small hexadecimal digits, or `ok` where none does, into a text that has room
/// for it.
pub(crate) fn put_sent(text: &mut Vec<u8>, datagram: &Out)
    requires empty { text.old.items ≡ [] }
    requires room { longest_sent ≤ vec_capacity text.old }
    ensures { text.new.items ≡ sent_line (sent_in datagram.now.items) }
{
    if datagram.is_empty() {
        put(text, b"ok\n");
    } else {
        put(text, b"send ");
        put_digits(text, datagram.as_slice());
        put(text, b"\n");
    }
}
