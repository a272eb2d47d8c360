//! The state of a central system as text, from C: given, and a central system made of it again.

ghost use Rattle.std.specs.Prelude.{◌≡◌, ◌⊎◌, ◌==◌, ◌&&◌, not, false, length, IsTrue, IfOk, IfErr, IfSome};
ghost use Rattle.std.specs.Prelude.{is_none, is_some};
ghost use Rattle.dms_text_filling.specs.Filling.{counted};
ghost use Rattle.dms_codes.specs.Limits.{has_community_size};
ghost use Rattle.dms_centre.specs.CodeView.{settings_model};
ghost use Rattle.dms_centre_state.specs.CentreText.{text_of_state};
ghost use Rattle.dms_centre_restored.specs.Restored.{IsRestored, IsLineOf, IsLineFaultOf, is_of_settings};
ghost use Rattle.dms_centre_restored.specs.Faults.{IsWrong};
ghost use Rattle.dms_centre_restored.specs.FirstFault.{IsFirstFault};
ghost use Rattle.wisangub_c_values.specs.Codes.{order_of};
ghost use Rattle.wisangub_c.specs.Answers.{done, no_memory, at_fault, out_of_range, given_answer, given_buffer};
ghost use Rattle.wisangub_c.specs.States.{state_refused};
ghost use Rattle.wisangub_c.specs.CentreStates.{IsPlacedIn, IsRefusedAt, restore_answer, line_after_restore};

use dms_centre::{Centre, Settings};
use dms_centre_restored::{CentreRestoreFault, CentreStateRefusal, restored};
use dms_centre_state::put_saved;
use std::alloc::Global;
use wisangub_c_places::{CentreHandle, CentrePlace};
use wisangub_c_values::{
    AT_FAULT, DONE, NO_MEMORY, OUT_OF_RANGE, STATE_REFUSED, TOO_SMALL, order_of,
};

/// How many octets the text of a central system's state has.
fn saved_size(centre: &Centre) -> usize
    ensures { result ≡ counted (length (text_of_state centre.now.state)) }
{
    let mut none: [u8; 0] = [];
    put_saved(&mut none, centre)
}

/// Gives the text of a central system's state.
#[tactic(auto, using(crate::proofs::SavedSizes::sized))]
fn give_state(centre: &Centre, state: &mut [u8], size: &mut usize) -> u32
    ensures answer { result ≡ given_answer (text_of_state centre.now.state) (length state.old) }
    ensures size { size.new ≡ counted (length (text_of_state centre.now.state)) }
    ensures state { state.new ≡ given_buffer (text_of_state centre.now.state) state.old }
{
    *size = saved_size(centre);
    if state.len() < *size {
        return TOO_SMALL;
    }
    put_saved(state, centre);
    DONE
}

/// The text of the central system's state, which takes no memory.
#[unsafe(no_mangle)]
pub extern "C" fn wisangub_centre_save_at(
    centre: &mut CentreHandle,
    state: &mut [u8],
    size: &mut usize,
) -> u32
    ensures same { centre.new.value ≡ centre.old.value }
    ensures answer { result ≡ given_answer (text_of_state centre.old.value.state) (length state.old) }
    ensures size { size.new ≡ counted (length (text_of_state centre.old.value.state)) }
    ensures state { state.new ≡ given_buffer (text_of_state centre.old.value.state) state.old }
{
    give_state(centre.as_mut(), state, size)
}

/// How many octets the text of the central system's state has, as it is now.
#[unsafe(no_mangle)]
pub extern "C" fn wisangub_centre_save_size_at(centre: &mut CentreHandle, size: &mut usize)
    ensures same { centre.new.value ≡ centre.old.value }
    ensures size { size.new ≡ counted (length (text_of_state centre.old.value.state)) }
{
    *size = saved_size(centre.as_mut());
}

/// A central system of the settings in the state of a text, on the heap.
fn gone_on(
    alloc: Global,
    settings: Settings<'_>,
    state: &[u8],
) -> Result<Box<Centre>, CentreRestoreFault>
    ensures made { IfOk result (λ centre. IsRestored (settings_model settings.entry) state.now centre.value.state) }
    ensures community { IfOk result (λ centre. IsTrue (has_community_size settings.entry.community.now)) }
    ensures fault { IfErr result
        (λ fault. is_of_settings fault ≡ not (has_community_size settings.entry.community.now)) }
    ensures line { IfErr result (IsLineFaultOf state.now) }
    ensures first { IfErr result (IsFirstFault (settings_model settings.entry) state.now) }
    ensures wrong { IfErr result (IsWrong (settings_model settings.entry) state.now) }
{
    let centre = restored(alloc, settings, state)?;
    match Box::new(alloc, centre) {
        Ok(centre) => Ok(centre),
        Err(_) => Err(CentreRestoreFault::State(CentreStateRefusal::Memory)),
    }
}

/// Makes a central system as `wisangub_centre_new_at` does, but in the state of a text, in the place `centre`. An order
/// that is none is found first, and then a community that is none. Where the text is no state of a central system,
/// `line` is the number of its first line that is not as it must be, from 1.
#[unsafe(no_mangle)]
pub extern "C" fn wisangub_centre_restore_at(
    alloc: Global,
    community: &[u8],
    order: u8,
    state: &[u8],
    centre: &mut CentrePlace,
    line: &mut usize,
) -> u32
    ensures answer { (result ≡ done) ⊎ ((result ≡ at_fault) ⊎ ((result ≡ state_refused)
        ⊎ ((result ≡ no_memory) ⊎ (result ≡ out_of_range)))) }
    ensures range { (result == out_of_range) ≡ is_none (order_of order) }
    ensures fault { (result == at_fault)
        ≡ (is_some (order_of order) && not (has_community_size community.now)) }
    ensures made { result ≡ done → IfSome (order_of order)
        (λ which. IsPlacedIn (record { community = community.now; order = which }) state.now centre.new.value) }
    ensures refused { result ≡ state_refused → IsLineOf state.now line.new }
    ensures first { result ≡ state_refused → IfSome (order_of order)
        (λ which. IsRefusedAt (record { community = community.now; order = which }) state.now line.new) }
    ensures unchanged { (result == done) ≡ false → centre.new ≡ centre.old }
    ensures line { (result == state_refused) ≡ false → line.new ≡ line.old }
{
    let Some(order) = order_of(order) else {
        return OUT_OF_RANGE;
    };
    match gone_on(alloc, Settings { community, order }, state) {
        Ok(made) => {
            centre.keep(made);
            DONE
        }
        Err(fault) => fault_answer(fault, line),
    }
}

/// What is answered where no central system goes on, with the number of the line for which its state is refused.
fn fault_answer(fault: CentreRestoreFault, line: &mut usize) -> u32
    ensures answer { result ≡ restore_answer fault }
    ensures line { line.new ≡ line_after_restore fault line.old }
    ensures settings { (result == at_fault) ≡ is_of_settings fault }
{
    let refusal = match fault {
        CentreRestoreFault::Settings(_) => return AT_FAULT,
        CentreRestoreFault::State(refusal) => refusal,
    };
    match refusal.line() {
        Some(number) => {
            *line = number;
            STATE_REFUSED
        }
        None => NO_MEMORY,
    }
}
