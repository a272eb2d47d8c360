//! A sign's calls from C.

ghost use Rattle.std.specs.Prelude.{◌≡◌, ◌⊎◌, ◌≤◌, ◌==◌, false, length, Some, None, IfOk, IfErr};
ghost use Rattle.std.specs.Str.Lines.{lines};
ghost use denote.RawPtr.{null_ptr};
ghost use Rattle.dms_wire_ber.specs.Limits.{longest_datagram};
ghost use Rattle.dms_text.specs.Lines.{kept_lines};
ghost use Rattle.dms_sign_text.specs.Description.{Description, SpellsSign};
ghost use Rattle.dms_sign_text.specs.RefusedLine.{all_numbered, IsRefusedLine, NamesLine};
ghost use Rattle.dms_sign.specs.State.{start};
ghost use Rattle.dms_sign.specs.Reply.{after_get};
ghost use Rattle.dms_sign.specs.Events.{after_tick, after_power_loss, after_power_return};
ghost use Rattle.dms_agent.specs.Promises.{alone};
ghost use Rattle.dms_agent.specs.Received.{agent_received};
ghost use Rattle.wisangub_c.specs.Answers.{done, no_memory, at_fault, answer_of, size_of, buffer_with, after_datagram};
ghost use Rattle.wisangub_c.specs.Answers.{fault_answer, line_after};
ghost use Rattle.wisangub_c.specs.Answers.{datagram_answer, datagram_size, datagram_buffer};
ghost use Rattle.dms_agent_watched.specs.Watched.{unchanged, watched};

use dms_agent_watched::Watched;
use dms_sign::Receipt;
use dms_sign_text::{DescriptionFault, Setup, description};
use dms_wire::{MAX_DATAGRAM, Out};
use std::alloc::Global;
use wisangub_c_places::{SignHandle, SignPlace};
use wisangub_c_values::{AT_FAULT, DONE, NO_MEMORY, NOTHING_SENT, TOO_SMALL, put_first};

/// A sign on the heap, beside which nothing is published, and the number of the first request of its centre.
#[derive(Drop)]
pub(crate) struct NewSign {
    pub(crate) sign: Box<Watched>,
    pub(crate) first: u32,
}

/// The sign of a description, on the heap.
fn made(alloc: Global, text: &[u8]) -> Result<NewSign, DescriptionFault>
    ensures made { IfOk result (λ made. (it : Description) × SpellsSign (kept_lines text.now) it
        × (made.sign.value ≡ unchanged (alone (start it.config it.table))) × (made.first ≡ it.first)) }
    ensures fault { IfErr result (λ fault. (fault ≡ DescriptionFault.Memory)
        ⊎ ((it : Description) → SpellsSign (kept_lines text.now) it → ⊥)) }
    ensures number { IfErr result (NamesLine (IsRefusedLine (all_numbered (lines text.now)))) }
{
    let Setup { sign, first } = description(alloc, text)?;
    match Box::new(alloc, Watched::new(alloc, sign)) {
        Ok(sign) => Ok(NewSign { sign, first }),
        Err(_) => Err(DescriptionFault::Memory),
    }
}

/// Makes the sign of a description, beside which nothing is published, in the place `sign`: `first` is the number of
/// the first request of its centre. Where the description is at fault, `line` is the number of the line for which it is
/// refused, from 1.
#[unsafe(no_mangle)]
pub extern "C" fn wisangub_sign_new_at(
    alloc: Global,
    text: &[u8],
    sign: &mut SignPlace,
    first: &mut u32,
    line: &mut usize,
) -> u32
    ensures answer { (result ≡ done) ⊎ ((result ≡ at_fault) ⊎ (result ≡ no_memory)) }
    ensures made { result ≡ done → (it : Description) × SpellsSign (kept_lines text.now) it
        × (sign.new.value ≡ Some (unchanged (alone (start it.config it.table)))) × (first.new ≡ it.first) }
    ensures fault { result ≡ at_fault → (it : Description) → SpellsSign (kept_lines text.now) it → ⊥ }
    ensures number { result ≡ at_fault → IsRefusedLine (all_numbered (lines text.now)) line.new }
    ensures unchanged { (result == done) ≡ false → (sign.new ≡ sign.old) × (first.new ≡ first.old) }
    ensures line { (result == at_fault) ≡ false → line.new ≡ line.old }
{
    match made(alloc, text) {
        Ok(made) => {
            *first = made.first;
            sign.keep(made.sign);
            DONE
        }
        Err(fault) => fault_answer(fault, line),
    }
}

/// What is answered where no sign is made: of a description at fault, with the number of its line.
pub(crate) fn fault_answer(fault: DescriptionFault, line: &mut usize) -> u32
    ensures answer { result ≡ fault_answer fault }
    ensures line { line.new ≡ line_after fault line.old }
{
    match fault {
        DescriptionFault::Line(number) => {
            *line = number;
            AT_FAULT
        }
        DescriptionFault::Memory => NO_MEMORY,
    }
}

/// Hands a datagram to the sign and the objects beside it, where there is room for every reply.
fn hear(sign: &mut Watched, datagram: &[u8], reply: &mut [u8], size: &mut usize) -> u32
    requires { longest_datagram ≤ length reply.old }
    ensures after { sign.new ≡ watched sign.old (agent_received sign.old.agent datagram.now).after }
    ensures answer { result ≡ answer_of (agent_received sign.old.agent datagram.now).reply }
    ensures size { size.new ≡ size_of (agent_received sign.old.agent datagram.now).reply }
    ensures reply { reply.new ≡ buffer_with (agent_received sign.old.agent datagram.now).reply reply.old }
{
    let mut out = Out::new();
    match sign.receive(datagram, &mut out) {
        Receipt::Dropped => {
            *size = 0;
            NOTHING_SENT
        }
        Receipt::Replied | Receipt::Accepted(_) => {
            *size = out.len();
            put_first(out.as_slice(), reply);
            DONE
        }
    }
}

/// Hands a datagram to the sign and the objects beside it. The reply stands first in `reply`, `size` octets; with fewer
/// than 1472 octets of room they hear nothing.
#[unsafe(no_mangle)]
pub extern "C" fn wisangub_sign_receive_at(
    sign: &mut SignHandle,
    datagram: &[u8],
    reply: &mut [u8],
    size: &mut usize,
) -> u32
    ensures after { sign.new.value ≡ after_datagram sign.old.value datagram.now (length reply.old) }
    ensures answer { result ≡ datagram_answer sign.old.value.agent datagram.now (length reply.old) }
    ensures size { size.new ≡ datagram_size sign.old.value.agent datagram.now (length reply.old) }
    ensures reply { reply.new ≡ datagram_buffer sign.old.value.agent datagram.now reply.old }
{
    if reply.len() < MAX_DATAGRAM {
        *size = MAX_DATAGRAM;
        return TOO_SMALL;
    }
    hear(sign.as_mut(), datagram, reply, size)
}

/// A second passes.
#[unsafe(no_mangle)]
pub extern "C" fn wisangub_sign_tick_at(sign: &mut SignHandle)
    ensures { sign.new.value ≡ watched sign.old.value
        (record sign.old.value.agent { sign = after_tick sign.old.value.agent.sign }) }
{
    sign.as_mut().tick();
}

/// The silence is over, as after a Get that was answered: of a Get that was recorded so (docs/JOURNAL.md).
#[unsafe(no_mangle)]
pub extern "C" fn wisangub_sign_heard_at(sign: &mut SignHandle)
    ensures { sign.new.value ≡ watched sign.old.value
        (record sign.old.value.agent { sign = after_get sign.old.value.agent.sign }) }
{
    sign.as_mut().heard();
}

/// The power is lost.
#[unsafe(no_mangle)]
pub extern "C" fn wisangub_sign_power_lost_at(sign: &mut SignHandle)
    ensures { sign.new.value ≡ watched sign.old.value
        (record sign.old.value.agent { sign = after_power_loss sign.old.value.agent.sign }) }
{
    sign.as_mut().power_lost();
}

/// The power is back after so many seconds.
#[unsafe(no_mangle)]
pub extern "C" fn wisangub_sign_power_back_at(sign: &mut SignHandle, seconds: u32)
    ensures { sign.new.value ≡ watched sign.old.value
        (record sign.old.value.agent { sign = after_power_return sign.old.value.agent.sign seconds }) }
{
    sign.as_mut().power_back(seconds);
}

/// Gives the sign's memory back: its place has no sign then, and its pointer is null.
#[unsafe(no_mangle)]
pub extern "C" fn wisangub_sign_free_at(alloc: Global, sign: &mut SignPlace)
    ensures sign { sign.new.value ≡ None }
    ensures pointer { sign.new.at ≡ null_ptr }
{
    sign.clear(alloc);
}
