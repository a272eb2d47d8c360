//! The values of objects that the text of a state says.

ghost use Rattle.std.specs.Prelude.{◌≡◌, ◌≤◌, ◌<◌, ◌+◌, ◌^◌, Err, map, length, IfOk, IfErr};
ghost use Rattle.std.specs.Str.{byte};
ghost use Rattle.dms_text.specs.Words.{parts_of};
ghost use Rattle.dms_device.specs.Objects.{binding_of};
ghost use Rattle.dms_text_values.specs.View.{worded_value};
ghost use Rattle.dms_agent_state.specs.declared.fault.SetError.TheVariants.{Memory};
ghost use Rattle.dms_agent_state.specs.PutBack.{Gives};
ghost use Rattle.dms_agent_state.specs.ValueLines.{in_line, set_of, sets_at, line_after, values_of};

use crate::fault::{SetCause, SetError, SetFault};
use crate::parts::state_parts;
use dms_device::{ManagerAccess, PublishedObject};
use dms_text::{Words, split_once};
use dms_text_values::{NameRead, ValueWords, name, value};
use std::alloc::Global;

/// The values of objects that the text of a state says, in the order of its lines, each in an object that is read
/// alone; or its first line that says none. What stands before the first line `end` is not looked at.
pub fn saved_values(alloc: Global, text: &[u8]) -> Result<Vec<PublishedObject>, SetError>
    ensures { Gives (λ values. map binding_of values.items) result (values_of text.now) }
{
    let (sign, objects) = state_parts(text);
    values(alloc, line_after(sign), objects)
}

/// The line after a text that ends with its line.
fn line_after(text: &[u8]) -> usize
    ensures line { result ≡ line_after text.now }
    ensures few { result ≤ length text.now + 1 }
{
    let mut line = 1;
    for octet in text {
        if *octet == b'\n' {
            line += 1;
        }
    }
    line
}

/// The values of lines, the first of which has this number.
#[tactic(auto, using(crate::proofs::LinesRead::steps))]
fn values(alloc: Global, first: usize, lines: &[u8]) -> Result<Vec<PublishedObject>, SetError>
    requires { first + length lines.now < 2 ^ 64 }
    ensures { Gives (λ values. map binding_of values.items) result (sets_at first (parts_of (byte "\n") lines.now)) }
{
    let mut values = Vec::new(alloc);
    let mut number = first;
    let mut rest = lines;
    while let Some((line, others)) = split_once(rest, b'\n') {
        let value = match set_value(alloc, number, line) {
            Ok(value) => value,
            Err(error) => return Err(error),
        };
        values.push(value)?;
        number += 1;
        rest = others;
    }
    if rest.is_empty() {
        Ok(values)
    } else {
        Err(fault(number, SetCause::Newline))
    }
}

/// The value of the line with this number.
#[tactic(auto, unfolding(crate::specs::ValueLines::set_of))]
fn set_value(alloc: Global, number: usize, line: &[u8]) -> Result<PublishedObject, SetError>
    ensures { Gives (λ value. binding_of value) result (in_line number (set_of line.now)) }
{
    let Some(words) = Words::of(line).keyword(b"set") else {
        return Err(fault(number, SetCause::Keyword));
    };
    let Some((word, words)) = words.next_word() else {
        return Err(fault(number, SetCause::Name));
    };
    let Some(name) = name(word) else {
        return Err(fault(number, SetCause::Name));
    };
    let Some((value, words)) = value(words) else {
        return Err(fault(number, SetCause::Value));
    };
    if !words.is_empty() {
        return Err(fault(number, SetCause::More));
    }
    held(alloc, &name, &value)
}

fn fault(line: usize, cause: SetCause) -> SetError
    ensures { result ≡ SetError.Fault (record { line = line; cause = cause }) }
{
    SetError::Fault(SetFault { line, cause })
}

/// A name and a value that were read, in an object: nothing is wrong with them, so that memory alone can be wanting.
fn held(alloc: Global, name: &NameRead, value: &ValueWords<'_>) -> Result<PublishedObject, SetError>
    ensures held { IfOk result (λ object. binding_of object
        ≡ record { name = name.now; value = worded_value value.now }) }
    ensures memory { IfErr result (λ error. error ≡ Memory) }
{
    let octets = value.octets(alloc)?;
    let value = value.over(octets.as_slice());
    match PublishedObject::new(alloc, name.content(), &value, ManagerAccess::ReadOnly) {
        Ok(object) => Ok(object),
        Err(_) => Err(SetError::Memory),
    }
}
