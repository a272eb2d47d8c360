//! The call that a line spells.

ghost use Rattle.std.specs.Prelude.{◌≡◌, [], true, IfOk, OnErr, option_map};
ghost use Rattle.std.specs.Result.{result_ok, result_err};
ghost use Rattle.dms_text_forms.specs.FieldsReading.{if_last, last_octets_at};
ghost use Rattle.dms_centre_lines.specs.Calls.{datagram};
ghost use Rattle.dms_centre_lines.specs.CallForm.{word_cause, status_cause, words_cause, call_cause};
ghost use Rattle.dms_centre_lines.specs.CallReading.{status_after, call_after, call_of, has_octets};
ghost use Rattle.dms_centre_lines.specs.CodeView.{call_model};
ghost use Rattle.dms_centre_lines.specs.declared.keyword.CentreKeyword.TheVariants as keys;

use crate::cause::CentreCallCause;
use crate::keyword::CentreKeyword;
use dms_centre_text::{CommandWord, OwnedCommand, command_after};
use dms_codes::Order;
use dms_text::Words;
use dms_text_forms::{LineWords, WordName};
use std::alloc::{AllocError, Global};

/// What a line asks of a central system.
#[derive(Drop)]
pub(crate) enum CentreCall {
    /// An operator gives it a command.
    Command(OwnedCommand),
    /// A datagram reached it.
    Datagram(Vec<u8>),
    /// Its clock ticks.
    Tick,
    /// It restarts.
    Restart,
    /// How does it stand?
    Status,
    /// How does it stand, without its ledger?
    StatusLast,
    /// What is its state?
    Save,
}

/// What is read of a line: the call, or why it spells none; or there was no memory.
type CallRead = Result<Result<CentreCall, CentreCallCause>, AllocError>;

/// The call that a line spells, or why it spells none. A code is in this order. Memory is asked for by a message and by
/// a datagram alone, and not where their line is at fault.
#[tactic(auto, unfolding(crate::specs::CallReading::call_of))]
pub(crate) fn call(alloc: Global, order: Order, line: &[u8]) -> CallRead
    ensures read { IfOk result (λ read. option_map call_model (result_ok read) ≡ call_of order line.now) }
    ensures cause { IfOk result (λ read. result_err read ≡ call_cause line.now) }
    ensures spelled { OnErr result (has_octets (call_of order line.now) ≡ true) }
{
    let Some((word, words)) = Words::of(line).next_word() else {
        return Ok(Err(CentreCallCause::Keyword));
    };
    match CentreKeyword::of(word) {
        Some(keyword) => call_after(alloc, order, keyword, words),
        None => Ok(Err(CentreCallCause::Keyword)),
    }
}

/// The call that begins with this word and goes on with these, or what is wrong with them.
fn call_after(alloc: Global, order: Order, keyword: CentreKeyword, words: Words<'_>) -> CallRead
    ensures read { IfOk result (λ read. option_map call_model (result_ok read)
        ≡ call_after order keyword words.entry) }
    ensures cause { IfOk result (λ read. result_err read ≡ words_cause keyword words.entry) }
    ensures spelled { OnErr result (has_octets (call_after order keyword words.entry) ≡ true) }
{
    match keyword {
        CentreKeyword::Command(asked) => command(alloc, order, asked, words),
        CentreKeyword::Datagram => datagram(alloc, words),
        CentreKeyword::Tick => Ok(if_last(words, CentreCall::Tick)),
        CentreKeyword::Restart => Ok(if_last(words, CentreCall::Restart)),
        CentreKeyword::Status => Ok(status(words)),
        CentreKeyword::Save => Ok(if_last(words, CentreCall::Save)),
    }
}

/// A command of the operator.
#[tactic(auto, using(crate::proofs::CallMemory::octets_kept))]
fn command(alloc: Global, order: Order, asked: CommandWord, words: Words<'_>) -> CallRead
    ensures read { IfOk result (λ read. option_map call_model (result_ok read)
        ≡ call_after order (keys.Command asked) words.entry) }
    ensures cause { IfOk result (λ read. result_err read ≡ words_cause (keys.Command asked) words.entry) }
    ensures spelled { OnErr result (has_octets (call_after order (keys.Command asked) words.entry) ≡ true) }
{
    match command_after(alloc, order, asked, LineWords { place: 2, words })? {
        Ok(asked) => Ok(Ok(CentreCall::Command(asked))),
        Err(fault) => Ok(Err(CentreCallCause::Word(fault))),
    }
}

/// The octets of a datagram, and nothing after them.
#[tactic(auto, using(crate::proofs::CallMemory::octets_kept))]
fn datagram(alloc: Global, words: Words<'_>) -> CallRead
    ensures read { IfOk result (λ read. option_map call_model (result_ok read)
        ≡ option_map datagram (last_octets_at words.entry)) }
    ensures cause { IfOk result (λ read. result_err read ≡ words_cause keys.Datagram words.entry) }
    ensures spelled { OnErr result (has_octets (option_map datagram (last_octets_at words.entry)) ≡ true) }
{
    let words = LineWords { place: 2, words };
    match words.last_octets(alloc, WordName::Datagram)? {
        Ok(octets) => Ok(Ok(CentreCall::Datagram(octets))),
        Err(fault) => Ok(Err(CentreCallCause::Word(fault))),
    }
}

/// What stands after `status`: nothing, or `last` alone.
#[tactic(auto, unfolding(crate::specs::CallReading::last_alone_at))]
fn status(words: Words<'_>) -> Result<CentreCall, CentreCallCause>
    ensures read { option_map call_model (result_ok result) ≡ status_after words.entry }
    ensures cause { result_err result ≡ status_cause words.entry }
{
    if words.is_empty() {
        return Ok(CentreCall::Status);
    }
    let Some(words) = words.keyword(b"last") else {
        return Err(CentreCallCause::Last);
    };
    match (LineWords { place: 3, words }).end() {
        Ok(()) => Ok(CentreCall::StatusLast),
        Err(fault) => Err(CentreCallCause::Word(fault)),
    }
}

/// The call, where no words are left.
fn if_last(words: Words<'_>, call: CentreCall) -> Result<CentreCall, CentreCallCause>
    ensures call { result_ok result ≡ if_last call words.entry }
    ensures cause { result_err result ≡ word_cause [] words.entry }
{
    match (LineWords { place: 2, words }).end() {
        Ok(()) => Ok(call),
        Err(fault) => Err(CentreCallCause::Word(fault)),
    }
}
