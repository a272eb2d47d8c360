//! The state of a sign and of the objects beside it as text, from C: given, a sign made of it again, and the values of
//! its objects put back.

ghost use Rattle.std.specs.Prelude.{◌≡◌, ◌≤◌, ◌+◌, ◌⊎◌, ◌==◌, false, length, Some, IfOk, IfErr};
ghost use Rattle.std.specs.Str.Lines.{lines};
ghost use Rattle.dms_text.specs.Lines.{kept_lines};
ghost use Rattle.dms_sign.specs.State.{SignState, start};
ghost use Rattle.dms_sign_text.specs.Description.{Description, SpellsSign};
ghost use Rattle.dms_sign_text.specs.RefusedLine.{all_numbered, IsRefusedLine};
ghost use Rattle.dms_sign_state.specs.StateText.{saved_rows, most_saved};
ghost use Rattle.dms_sign_restored.specs.Restored.{IsPut};
ghost use Rattle.dms_text_filling.specs.Filling.{counted};
ghost use Rattle.dms_agent.specs.Promises.{alone};
ghost use Rattle.dms_agent_state.specs.AgentText.{text_of_agent, kept_lines as objects_lines};
ghost use Rattle.dms_agent_state.specs.Parts.{sign_part};
ghost use Rattle.dms_agent_watched.specs.Watched.{unchanged};
ghost use Rattle.wisangub_c.specs.Answers.{done, no_memory, at_fault, given_answer, given_buffer};
ghost use Rattle.wisangub_c.specs.States.{state_refused, IsNoSign, IsRefusedAt, refusal_answer, line_after_refusal};
ghost use Rattle.wisangub_c.specs.States.{ArePutBack, IsSetLine};

use crate::sign_calls::{NewSign, fault_answer};
use dms_agent::Agent;
use dms_agent_state::{SetError, put_saved, saved_values, state_parts};
use dms_agent_watched::Watched;
use dms_sign_restored::{SignStateRefusal, put_state};
use dms_sign_state::most_saved;
use dms_sign_text::{DescriptionFault, Setup, description};
use std::alloc::Global;
use wisangub_c_places::{SignHandle, SignPlace};
use wisangub_c_values::{DONE, NO_MEMORY, STATE_REFUSED, TOO_SMALL};

/// Gives the text of the state of a sign and of the objects beside it.
#[tactic(auto, using(crate::proofs::SavedSizes::sized))]
fn give_state(agent: &Agent, state: &mut [u8], size: &mut usize) -> u32
    ensures answer { result ≡ given_answer (text_of_agent agent.now) (length state.old) }
    ensures size { size.new ≡ counted (length (text_of_agent agent.now)) }
    ensures short { size.new ≤ most_saved (saved_rows agent.now.sign) + length (objects_lines agent.now.device) }
    ensures state { state.new ≡ given_buffer (text_of_agent agent.now) state.old }
{
    let mut none: [u8; 0] = [];
    *size = put_saved(&mut none, agent);
    if state.len() < *size {
        return TOO_SMALL;
    }
    put_saved(state, agent);
    DONE
}

/// The text of the state of the sign and of the objects beside it, which takes no memory.
#[unsafe(no_mangle)]
pub extern "C" fn wisangub_sign_save_at(
    sign: &mut SignHandle,
    state: &mut [u8],
    size: &mut usize,
) -> u32
    ensures same { sign.new.value ≡ sign.old.value }
    ensures answer { result ≡ given_answer (text_of_agent sign.old.value.agent) (length state.old) }
    ensures size { size.new ≡ counted (length (text_of_agent sign.old.value.agent)) }
    ensures short { size.new ≤ most_saved (saved_rows sign.old.value.agent.sign)
        + length (objects_lines sign.old.value.agent.device) }
    ensures state { state.new ≡ given_buffer (text_of_agent sign.old.value.agent) state.old }
{
    give_state(sign.as_mut().agent(), state, size)
}

/// The most octets that the sign's own state ever has, without the lines of objects behind it.
#[unsafe(no_mangle)]
pub extern "C" fn wisangub_sign_save_most_at(sign: &mut SignHandle, size: &mut usize)
    ensures same { sign.new.value ≡ sign.old.value }
    ensures size { size.new ≡ most_saved (saved_rows sign.old.value.agent.sign) }
{
    *size = most_saved(sign.as_mut().sign());
}

/// Why no sign is made in a state.
pub(crate) enum NoSign {
    /// The description is at fault, or there is no memory.
    Description(DescriptionFault),
    /// The state is none of this sign, or there is no memory to read it.
    State(SignStateRefusal),
}

/// The sign of a description in the state of a text, on the heap.
fn restored(alloc: Global, text: &[u8], state: &[u8]) -> Result<NewSign, NoSign>
    ensures made { IfOk result (λ made. (it : Description) × SpellsSign (kept_lines text.now) it
        × ((s : SignState) × IsPut (start it.config it.table) (sign_part state.now) s
        × (made.sign.value ≡ unchanged (alone s))) × (made.first ≡ it.first)) }
    ensures fault { IfErr result (IsNoSign text.now (sign_part state.now)) }
{
    let Setup { sign, first } = match description(alloc, text) {
        Ok(setup) => setup,
        Err(fault) => return Err(NoSign::Description(fault)),
    };
    let (own, _) = state_parts(state);
    let sign = match put_state(alloc, sign, own) {
        Ok(sign) => sign,
        Err(refusal) => return Err(NoSign::State(refusal)),
    };
    match Box::new(alloc, Watched::new(alloc, sign)) {
        Ok(sign) => Ok(NewSign { sign, first }),
        Err(_) => Err(NoSign::Description(DescriptionFault::Memory)),
    }
}

/// Makes the sign of a description in the state of a text, beside which nothing is published, in the place `sign`:
/// `first` is the number of the first request of its centre. Where the description is at fault, or the text is no state
/// of this sign, `line` is the number of the line for which it is refused, from 1. Behind the text's first line `end`
/// nothing is looked at.
#[unsafe(no_mangle)]
pub extern "C" fn wisangub_sign_restore_at(
    alloc: Global,
    text: &[u8],
    state: &[u8],
    sign: &mut SignPlace,
    first: &mut u32,
    line: &mut usize,
) -> u32
    ensures answer { (result ≡ done) ⊎ ((result ≡ at_fault) ⊎ ((result ≡ state_refused) ⊎ (result ≡ no_memory))) }
    ensures made { result ≡ done → (it : Description) × SpellsSign (kept_lines text.now) it
        × ((s : SignState) × IsPut (start it.config it.table) (sign_part state.now) s
        × (sign.new.value ≡ Some (unchanged (alone s)))) × (first.new ≡ it.first) }
    ensures fault { result ≡ at_fault → (it : Description) → SpellsSign (kept_lines text.now) it → ⊥ }
    ensures number { result ≡ at_fault → IsRefusedLine (all_numbered (lines text.now)) line.new }
    ensures refused { result ≡ state_refused → IsRefusedAt text.now (sign_part state.now) line.new }
    ensures unchanged { (result == done) ≡ false → (sign.new ≡ sign.old) × (first.new ≡ first.old) }
    ensures line { (result ≡ done) ⊎ (result ≡ no_memory) → line.new ≡ line.old }
{
    match restored(alloc, text, state) {
        Ok(made) => {
            *first = made.first;
            sign.keep(made.sign);
            DONE
        }
        Err(NoSign::Description(fault)) => fault_answer(fault, line),
        Err(NoSign::State(refusal)) => refusal_answer(&refusal, line),
    }
}

/// What is answered where a state is refused, with the number of its line.
fn refusal_answer(refusal: &SignStateRefusal, line: &mut usize) -> u32
    ensures answer { result ≡ refusal_answer refusal.now }
    ensures line { line.new ≡ line_after_refusal refusal.now line.old }
{
    match refusal.line() {
        Some(number) => refused_at(number, line),
        None => NO_MEMORY,
    }
}

/// What is answered of a line that is refused.
fn refused_at(number: usize, line: &mut usize) -> u32
    ensures answer { result ≡ state_refused }
    ensures line { line.new ≡ number }
{
    *line = number;
    STATE_REFUSED
}

/// Puts the values of objects that a text of a state has behind its first line `end` back to the published objects of
/// their names, each that takes its value. Where a line there is none of an object's value, `line` is its number in the
/// text, from 1, and nothing changes.
#[unsafe(no_mangle)]
pub extern "C" fn wisangub_sign_restore_objects_at(
    alloc: Global,
    sign: &mut SignHandle,
    state: &[u8],
    line: &mut usize,
) -> u32
    ensures answer { (result ≡ done) ⊎ ((result ≡ state_refused) ⊎ (result ≡ no_memory)) }
    ensures put { result ≡ done → ArePutBack sign.old.value state.now sign.new.value }
    ensures refused { result ≡ state_refused → IsSetLine state.now line.new }
    ensures unchanged { (result == done) ≡ false → sign.new.value ≡ sign.old.value }
    ensures line { (result == state_refused) ≡ false → line.new ≡ line.old }
{
    match saved_values(alloc, state) {
        Ok(values) => {
            sign.as_mut().put_back(values.as_slice());
            DONE
        }
        Err(SetError::Memory) => NO_MEMORY,
        Err(SetError::Fault(fault)) => refused_at(fault.line, line),
    }
}
