//! The call that a line spells.

ghost use Rattle.std.specs.Prelude.{◌≡◌, ◌+◌, [], true, false, IfOk, IfErr, OnErr, IsSome, option_map};
ghost use Rattle.std.specs.Result.{result_ok, result_err};
ghost use Rattle.dms_text.specs.Reading.{word_at, is_end};
ghost use Rattle.dms_text_forms.specs.FieldsReading.{last_octets_at};
ghost use Rattle.dms_text_forms.specs.Form.{fault_from};
ghost use Rattle.dms_agent_lines.specs.AgentCall.{receive};
ghost use Rattle.dms_agent_lines.specs.AgentForm.{object_cause, withdraw_cause, binding_cause};
ghost use Rattle.dms_agent_lines.specs.AgentForm.{value_words, words_cause, call_cause};
ghost use Rattle.dms_agent_lines.specs.AgentReading.{call_of, access_at, written_access_at};
ghost use Rattle.dms_agent_lines.specs.AgentReading.{number_access_at, octets_access_at};
ghost use Rattle.dms_agent_lines.specs.AgentReading.{object_at, withdraw_at, binding_at};
ghost use Rattle.dms_text_values.specs.View.{worded_value};
ghost use Rattle.dms_agent_lines.specs.CallView.{call_model};
ghost use Rattle.dms_agent_lines.specs.declared.cause.AgentCallCause.TheVariants.{Word};
ghost use Rattle.dms_agent_lines.specs.declared.keywords.AgentKeyword.TheVariants.{Datagram};

use crate::agent_call::{AgentCall, ObjectWords, SetWords};
use crate::cause::AgentCallCause;
use crate::keywords::AgentKeyword;
use dms_device::ManagerAccess;
use dms_text::{Words, are_same};
use dms_text_forms::fields::two_octets;
use dms_text_forms::{LineWords, WordName};
use dms_text_values::{NameRead, ValueWords, integer, name, value};
use std::alloc::{AllocError, Global};

/// The call that a line spells, or why it spells none. Memory is asked for by a datagram alone, and not where its line
/// is at fault.
#[tactic(auto, unfolding(crate::specs::AgentReading::call_of))]
pub(crate) fn call(
    alloc: Global,
    line: &[u8],
) -> Result<Result<AgentCall<'_>, AgentCallCause>, AllocError>
    ensures read { IfOk result (λ read. option_map call_model (result_ok read) ≡ call_of line.now) }
    ensures cause { IfOk result (λ read. result_err read ≡ call_cause line.now) }
    ensures spelled { OnErr result (IsSome (call_of line.now)) }
{
    let Some((word, words)) = Words::of(line).next_word() else {
        return Ok(Err(AgentCallCause::Keyword));
    };
    let Some(keyword) = AgentKeyword::of(word) else {
        return Ok(Err(AgentCallCause::Keyword));
    };
    match keyword {
        AgentKeyword::Datagram => datagram(alloc, words),
        AgentKeyword::Object => match object(words) {
            Ok(object) => Ok(Ok(AgentCall::Publish(object))),
            Err(cause) => Ok(Err(cause)),
        },
        AgentKeyword::NoObject => match withdrawn(words) {
            Ok(name) => Ok(Ok(AgentCall::Withdraw(name))),
            Err(cause) => Ok(Err(cause)),
        },
        AgentKeyword::Fonts => match end(2, words) {
            Ok(()) => Ok(Ok(AgentCall::ShowFonts)),
            Err(cause) => Ok(Err(cause)),
        },
        AgentKeyword::Objects => match end(2, words) {
            Ok(()) => Ok(Ok(AgentCall::Tell)),
            Err(cause) => Ok(Err(cause)),
        },
        AgentKeyword::Set => match binding(words) {
            Ok(binding) => Ok(Ok(AgentCall::PutBack(binding))),
            Err(cause) => Ok(Err(cause)),
        },
        AgentKeyword::Save => match end(2, words) {
            Ok(()) => Ok(Ok(AgentCall::Save)),
            Err(cause) => Ok(Err(cause)),
        },
    }
}

/// The octets of a datagram, and nothing after them.
fn datagram(
    alloc: Global,
    words: Words<'_>,
) -> Result<Result<AgentCall<'_>, AgentCallCause>, AllocError>
    ensures read { IfOk result (λ read. option_map call_model (result_ok read)
        ≡ option_map receive (last_octets_at words.entry)) }
    ensures cause { IfOk result (λ read. result_err read ≡ words_cause Datagram words.entry) }
    ensures spelled { OnErr result (IsSome (last_octets_at words.entry)) }
{
    let words = LineWords { place: 2, words };
    match words.last_octets(alloc, WordName::Datagram)? {
        Ok(octets) => Ok(Ok(AgentCall::Receive(octets))),
        Err(fault) => Ok(Err(AgentCallCause::Word(fault))),
    }
}

/// An object: its name, its value and its access, or the first of these that is not there.
#[tactic(auto, unfolding(crate::specs::AgentReading::object_at))]
fn object(words: Words<'_>) -> Result<ObjectWords<'_>, AgentCallCause>
    ensures read { result_ok result ≡ object_at words.entry }
    ensures cause { result_err result ≡ object_cause (word_at words.entry) }
{
    let (word, words) = words.next_word().ok_or(AgentCallCause::Name)?;
    let name = name(word).ok_or(AgentCallCause::Name)?;
    let Some((value, words)) = value(words) else {
        return Err(AgentCallCause::Value);
    };
    let access = access(words).ok_or(AgentCallCause::Access)?;
    Ok(ObjectWords {
        name,
        value,
        access,
    })
}

/// A name, and nothing after it.
#[tactic(auto, unfolding(crate::specs::AgentReading::withdraw_at))]
fn withdrawn(words: Words<'_>) -> Result<NameRead, AgentCallCause>
    ensures read { result_ok result ≡ withdraw_at words.entry }
    ensures cause { result_err result ≡ withdraw_cause (word_at words.entry) }
{
    let (word, words) = words.next_word().ok_or(AgentCallCause::Name)?;
    let name = name(word).ok_or(AgentCallCause::Name)?;
    end(3, words)?;
    Ok(name)
}

/// A name and a value, and nothing after them.
#[tactic(auto, unfolding(crate::specs::AgentReading::binding_at))]
fn binding(words: Words<'_>) -> Result<SetWords<'_>, AgentCallCause>
    ensures read { result_ok result ≡ binding_at words.entry }
    ensures cause { result_err result ≡ binding_cause (word_at words.entry) }
{
    let (word, words) = words.next_word().ok_or(AgentCallCause::Name)?;
    let name = name(word).ok_or(AgentCallCause::Name)?;
    let (value, words) = match value(words) {
        Some(found) => found,
        None => return Err(AgentCallCause::Value),
    };
    end(place_after(&value), words)?;
    Ok(SetWords { name, value })
}

/// The place of the word after a value that begins with word 3.
fn place_after(value: &ValueWords<'_>) -> usize
    ensures { result ≡ 3 + value_words (worded_value value.now) }
{
    match value {
        ValueWords::Null => 4,
        ValueWords::Octets(_) => 6,
        ValueWords::Name(_) => 6,
        _ => 5,
    }
}

/// No words are left; the first that is would stand in this place.
fn end(place: usize, words: Words<'_>) -> Result<(), AgentCallCause>
    ensures ended { IfOk result (λ _. is_end words.entry ≡ true) }
    ensures more { IfErr result (λ _. is_end words.entry ≡ false) }
    ensures cause { result_err result ≡ option_map Word (fault_from place [] words.entry) }
{
    match (LineWords { place, words }).end() {
        Ok(()) => Ok(()),
        Err(fault) => Err(AgentCallCause::Word(fault)),
    }
}

/// What a manager may write, to the end of the line.
fn access(words: Words<'_>) -> Option<ManagerAccess>
    ensures { result ≡ access_at words.entry }
{
    if words.is_empty() {
        return Some(ManagerAccess::ReadOnly);
    }
    written_access(words)
}

#[tactic(auto, unfolding(crate::specs::AgentReading::written_access_at))]
fn written_access(words: Words<'_>) -> Option<ManagerAccess>
    ensures { result ≡ written_access_at words.entry }
{
    let (word, words) = words.next_word()?;
    if are_same(word, b"number") {
        number_access(words)
    } else if are_same(word, b"octets") {
        octets_access(words)
    } else {
        None
    }
}

#[tactic(auto, unfolding(crate::specs::AgentReading::number_access_at))]
fn number_access(words: Words<'_>) -> Option<ManagerAccess>
    ensures { result ≡ number_access_at words.entry }
{
    let (least, words) = integer(words)?;
    let (most, words) = integer(words)?;
    if words.is_empty() {
        Some(ManagerAccess::Number { least, most })
    } else {
        None
    }
}

#[tactic(auto, unfolding(crate::specs::AgentReading::octets_access_at))]
fn octets_access(words: Words<'_>) -> Option<ManagerAccess>
    ensures { result ≡ octets_access_at words.entry }
{
    let (least, words) = two_octets(words)?;
    let (most, words) = two_octets(words)?;
    if words.is_empty() {
        Some(ManagerAccess::Octets { least, most })
    } else {
        None
    }
}
