//! The state of an agent, written as text.

ghost use Rattle.std.specs.Prelude.{◌≡◌, ◌≤◌, ◌+◌, IfOk, length};
ghost use Rattle.dms_text_filling.specs.Filling.{Puts, counted, laid};
ghost use Rattle.dms_sign_state.specs.StateText.{text_of_state, saved_rows, most_saved};
ghost use Rattle.dms_agent_state.specs.AgentText.{value_line, kept_line, kept_lines, text_of_agent};

use crate::words::{put_name, put_value};
use dms_agent::Agent;
use dms_device::PublishedObject;
use dms_sign::Sign;
use dms_text_filling::put_text;
use std::alloc::{AllocError, Global};

/// The text of an agent's state: that of its sign, from `state 1 sign` to `end`, and a line `set NAME VALUE` for each
/// published object whose value a manager set, in the order of names.
pub fn saved(alloc: Global, agent: &Agent) -> Result<Vec<u8>, AllocError>
    ensures { IfOk result (λ text. text.items ≡ text_of_agent agent.now) }
{
    let mut none: [u8; 0] = [];
    let size = put_saved(&mut none, agent);
    if size == usize::MAX {
        return Err(AllocError);
    }
    let mut text = vec![in alloc; 0; size]?;
    put_saved(text.as_mut_slice(), agent);
    Ok(text)
}

/// Puts the text of an agent's state into a buffer, as far as it reaches: how many octets the text has, or the greatest
/// number of a `usize` where it has more. No memory is taken.
pub fn put_saved(buffer: &mut [u8], agent: &Agent) -> usize
    ensures size { result ≡ counted (length (text_of_agent agent.now)) }
    ensures text { buffer.new ≡ laid 0 (text_of_agent agent.now) buffer.old }
    ensures short { result ≤ most_saved (saved_rows agent.now.sign) + length (kept_lines agent.now.device) }
{
    put_state(buffer, agent)
}

fn put_state(buffer: &mut [u8], agent: &Agent) -> usize
    ensures octets { Puts (text_of_agent agent.now) 0 buffer.old result buffer.new }
    ensures short { result ≤ most_saved (saved_rows agent.now.sign) + length (kept_lines agent.now.device) }
{
    let place = put_sign(buffer, agent.sign());
    put_lines(buffer, place, agent.device().objects())
}

fn put_sign(buffer: &mut [u8], sign: &Sign) -> usize
    ensures octets { Puts (text_of_state sign.now) 0 buffer.old result buffer.new }
    ensures short { result ≤ most_saved (saved_rows sign.now) }
{
    dms_sign_state::put_saved(buffer, sign)
}

/// Puts a line for each object whose value a manager set.
#[tactic(auto, using(crate::proofs::Listed::lists))]
fn put_lines(buffer: &mut [u8], place: usize, objects: &[PublishedObject]) -> usize
    ensures { Puts (kept_lines objects.now) place buffer.old result buffer.new }
{
    let mut end = place;
    let mut rest = objects;
    while let [object, others @ ..] = rest {
        end = put_line(buffer, end, object);
        rest = others;
    }
    end
}

/// Puts a line for an object whose value a manager set, and nothing for another.
fn put_line(buffer: &mut [u8], place: usize, object: &PublishedObject) -> usize
    ensures { Puts (kept_line object.now) place buffer.old result buffer.new }
{
    if object.is_by_manager() {
        put_value_line(buffer, place, object)
    } else {
        put_text(buffer, place, "")
    }
}

fn put_value_line(buffer: &mut [u8], place: usize, object: &PublishedObject) -> usize
    ensures { Puts (value_line object.now.name object.now.value) place buffer.old result buffer.new }
{
    let place = put_text(buffer, place, "set ");
    let place = put_name(buffer, place, &object.name());
    let place = put_text(buffer, place, " ");
    let place = put_value(buffer, place, &object.value());
    put_text(buffer, place, "\n")
}
