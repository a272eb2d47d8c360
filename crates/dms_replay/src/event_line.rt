//! The lines of a script's events.

ghost use Rattle.std.specs.Prelude.{◌≡◌, ◌<◌, ◌++◌, Some, None, true, codes, IfOk, IfSome, IfNone, OnErr, IsTrue};
ghost use Rattle.std.specs.Prelude.{option_map};
ghost use Rattle.std.specs.Result.{result_ok, result_err};
ghost use Rattle.dms_text_forms.specs.Form.{fault_from};
ghost use Rattle.dms_text.specs.Words.{words_of};
ghost use Rattle.dms_text_forms.specs.FieldsReading.{last_number_at};
ghost use Rattle.dms_world.specs.Event.{EventModel};
ghost use Rattle.dms_replay.specs.EventForm.{form_after, place_cause, event_cause};
ghost use Rattle.dms_replay.specs.EventLine.{SpellsEvent};
ghost use Rattle.dms_replay.specs.EventReading.{event_after, event_of, has_octets};
ghost use Rattle.dms_replay.specs.EventView.{script_event_model};
ghost use Rattle.dms_replay.specs.declared.keyword.EventKeyword.TheVariants.{Command};

use crate::event_cause::EventCause;
use crate::keyword::EventKeyword;
use crate::script_event::ScriptEvent;
use dms_centre_text::{CommandWord, command_after};
use dms_codes::Order;
use dms_text::{Words, number};
use dms_text_causes::if_last;
use dms_text_forms::{LineWords, WordFault, WordName};
use std::alloc::{AllocError, Global};

/// The event that a line spells, or none where it spells none; it spells no other. A code is in this order. Only an
/// event that has octets wants memory, and no line at fault.
#[tactic(auto, using(crate::proofs::EventLaws::events_spelled))]
pub fn event(alloc: Global, order: Order, line: &[u8]) -> Result<Option<ScriptEvent>, AllocError>
    ensures read { IfOk result (λ found. IfSome found (λ event.
        SpellsEvent order (script_event_model event) line.now)) }
    ensures none { IfOk result (λ found. IfNone found ((event : EventModel) → SpellsEvent order event line.now → ⊥)) }
    ensures spelled { OnErr result (has_octets (event_of order line.now) ≡ true) }
{
    match read_event(alloc, order, line)? {
        Ok(event) => Ok(Some(event)),
        Err(_) => Ok(None),
    }
}

/// The event that is read of a line, or why none is. Only one that has octets wants memory. The lines of which scripts
/// have most are told by their octets, before all others.
#[inline(always)]
pub fn read_event(
    alloc: Global,
    order: Order,
    line: &[u8],
) -> Result<Result<ScriptEvent, EventCause>, AllocError>
    ensures read { IfOk result (λ read. option_map script_event_model (result_ok read) ≡ event_of order line.now) }
    ensures cause { IfOk result (λ read. result_err read ≡ event_cause line.now) }
    ensures spelled { OnErr result (has_octets (event_of order line.now) ≡ true) }
{
    match often_event(line) {
        Some(event) => Ok(Ok(event)),
        None => any_event(alloc, order, line),
    }
}

/// The event of a line of a kind that scripts have most of, told by its octets, or none where the line may be another.
#[tactic(auto, using(crate::proofs::OftenLines::often_read))]
#[inline(always)]
fn often_event(line: &[u8]) -> Option<ScriptEvent>
    ensures read { IfSome result (λ event. (order : Order)
        → Some (script_event_model event) ≡ event_of order line.now) }
    ensures cause { IfSome result (λ _. None ≡ event_cause line.now) }
{
    if let Some(rest) = after_to_sign(line) {
        return Some(ScriptEvent::ToSign(short_number(rest)?));
    }
    if let Some(rest) = after_to_centre(line) {
        return Some(ScriptEvent::ToCentre(short_number(rest)?));
    }
    if is_sign_tick(line) {
        return Some(ScriptEvent::SignTick);
    }
    if is_centre_tick(line) {
        return Some(ScriptEvent::CentreTick);
    }
    None
}

/// The number that one to seven digits spell, where nothing else is left of the line.
#[tactic(auto, using(crate::proofs::ShortNumbers::short_numbers))]
#[inline]
fn short_number(rest: &[u8]) -> Option<u32>
    ensures number { IfSome result (λ number. Some number ≡ last_number_at (words_of rest.now)) }
    ensures cause { IfSome result (λ _. None ≡ place_cause rest.now) }
{
    let number = number(rest, 10, 7)?;
    Some(number as u32)
}

/// What stands after `to-sign ` in a line.
#[inline]
fn after_to_sign(line: &[u8]) -> Option<&[u8]>
    ensures { IfSome result (λ rest. line.now ≡ codes "to-sign " ++ rest.now) }
{
    match line {
        [b't', b'o', b'-', b's', b'i', b'g', b'n', b' ', rest @ ..] => Some(rest),
        _ => None,
    }
}

/// What stands after `to-centre ` in a line.
#[inline]
fn after_to_centre(line: &[u8]) -> Option<&[u8]>
    ensures { IfSome result (λ rest. line.now ≡ codes "to-centre " ++ rest.now) }
{
    match line {
        [
            b't',
            b'o',
            b'-',
            b'c',
            b'e',
            b'n',
            b't',
            b'r',
            b'e',
            b' ',
            rest @ ..,
        ] => Some(rest),
        _ => None,
    }
}

#[inline]
fn is_sign_tick(line: &[u8]) -> bool
    ensures { IsTrue result → line.now ≡ codes "sign-tick" }
{
    match line {
        [b's', b'i', b'g', b'n', b'-', rest @ ..] => is_tick(rest),
        _ => false,
    }
}

#[inline]
fn is_centre_tick(line: &[u8]) -> bool
    ensures { IsTrue result → line.now ≡ codes "centre-tick" }
{
    match line {
        [b'c', b'e', b'n', b't', b'r', b'e', b'-', rest @ ..] => is_tick(rest),
        _ => false,
    }
}

#[inline]
fn is_tick(word: &[u8]) -> bool
    ensures { IsTrue result → word.now ≡ codes "tick" }
{
    matches!(word, [b't', b'i', b'c', b'k'])
}

/// The event that is read of any line, word by word, or why none is.
#[tactic(auto, unfolding(crate::specs::EventReading::event_of))]
#[inline(never)]
fn any_event(
    alloc: Global,
    order: Order,
    line: &[u8],
) -> Result<Result<ScriptEvent, EventCause>, AllocError>
    ensures read { IfOk result (λ read. option_map script_event_model (result_ok read) ≡ event_of order line.now) }
    ensures cause { IfOk result (λ read. result_err read ≡ event_cause line.now) }
    ensures spelled { OnErr result (has_octets (event_of order line.now) ≡ true) }
{
    let Some((word, words)) = Words::of(line).next_word() else {
        return Ok(Err(EventCause::Keyword));
    };
    let Some(keyword) = EventKeyword::of(word) else {
        return Ok(Err(EventCause::Keyword));
    };
    match event_after(alloc, order, keyword, LineWords { place: 2, words })? {
        Ok(event) => Ok(Ok(event)),
        Err(fault) => Ok(Err(EventCause::Word(fault))),
    }
}

/// The event that begins with this word and goes on with these, or the first of these that is not what is wanted.
#[tactic(auto, using(crate::proofs::EventMemory::octets_kept))]
fn event_after(
    alloc: Global,
    order: Order,
    keyword: EventKeyword,
    words: LineWords<'_>,
) -> Result<Result<ScriptEvent, WordFault>, AllocError>
    requires { words.place < 8 }
    ensures read { IfOk result (λ read. option_map script_event_model (result_ok read)
        ≡ event_after order keyword words.entry.words) }
    ensures fault { IfOk result (λ read. result_err read
        ≡ fault_from words.entry.place (form_after keyword) words.entry.words) }
    ensures spelled { OnErr result (has_octets (event_after order keyword words.entry.words) ≡ true) }
{
    match keyword {
        EventKeyword::Command(asked) => command(alloc, order, asked, words),
        EventKeyword::SignTick => Ok(if_last(words, ScriptEvent::SignTick)),
        EventKeyword::CentreTick => Ok(if_last(words, ScriptEvent::CentreTick)),
        EventKeyword::ToSign => Ok(words.last_number().map(ScriptEvent::ToSign)),
        EventKeyword::ToCentre => Ok(words.last_number().map(ScriptEvent::ToCentre)),
        EventKeyword::PowerLost => Ok(if_last(words, ScriptEvent::PowerLost)),
        EventKeyword::PowerBack => Ok(words.last_number().map(ScriptEvent::PowerBack)),
        EventKeyword::CentreRestart => Ok(if_last(words, ScriptEvent::CentreRestart)),
        EventKeyword::ForgeSign => Ok(
            words
                .last_octets(alloc, WordName::Datagram)?
                .map(ScriptEvent::ForgeSign),
        ),
        EventKeyword::ForgeCentre => Ok(
            words
                .last_octets(alloc, WordName::Datagram)?
                .map(ScriptEvent::ForgeCentre),
        ),
    }
}

/// A command of the operator.
#[tactic(auto, using(crate::proofs::EventMemory::octets_kept))]
fn command(
    alloc: Global,
    order: Order,
    asked: CommandWord,
    words: LineWords<'_>,
) -> Result<Result<ScriptEvent, WordFault>, AllocError>
    requires { words.place < 8 }
    ensures read { IfOk result (λ read. option_map script_event_model (result_ok read)
        ≡ event_after order (Command asked) words.entry.words) }
    ensures fault { IfOk result (λ read. result_err read
        ≡ fault_from words.entry.place (form_after (Command asked)) words.entry.words) }
    ensures spelled { OnErr result (has_octets (event_after order (Command asked) words.entry.words) ≡ true) }
{
    Ok(command_after(alloc, order, asked, words)?.map(ScriptEvent::Command))
}
