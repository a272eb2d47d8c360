//! A central system's calls from C.

ghost use Rattle.std.specs.Prelude.{◌≡◌, ◌⊎◌, ◌≤◌, ◌<◌, ◌==◌, true, false, length, IsTrue, slice_get};
ghost use Rattle.std.specs.Prelude.{None, IfOk, IfErr, IfSome, is_none};
ghost use denote.RawPtr.{null_ptr};
ghost use Rattle.dms_wire_ber.specs.Limits.{longest_datagram};
ghost use Rattle.dms_codes.specs.Limits.{has_community_size};
ghost use Rattle.dms_centre.specs.State.{start};
ghost use Rattle.dms_centre.specs.Inputs.{received, ticked, restarted};
ghost use Rattle.dms_centre.specs.Room.{enters_at_tick};
ghost use Rattle.dms_centre.specs.Commands.{commanded, refusal_of};
ghost use Rattle.dms_centre_jobs.specs.CodeView.{command_model};
ghost use Rattle.dms_centre.specs.CodeView.{settings_model, sent_in};
ghost use Rattle.wisangub_c.specs.Answers.{done, no_memory, too_small, at_fault, unless_memory, answer_of, size_of};
ghost use Rattle.wisangub_c.specs.Answers.{buffer_with, out_of_range};
ghost use Rattle.wisangub_c_values.specs.Codes.{order_of};
ghost use Rattle.dms_centre.specs.Room.{enters_by};
ghost use Rattle.dms_centre_text.specs.CommandReading.{command_of, has_octets, IsOfOctets};
ghost use Rattle.wisangub_c.specs.Centre.{IsPlaced, command_in, refusal_answer, given_command_answer};
ghost use Rattle.wisangub_c.specs.Centre.{given_command_size, given_command_buffer, command_answer, command_size};
ghost use Rattle.wisangub_c.specs.Centre.{command_buffer, after_command, enters_by_call};
ghost use Rattle.wisangub_c.specs.Centre.{entry_answer, entry_after};
ghost use Rattle.wisangub_c_values.specs.Ledger.{centre_status};

use dms_centre::{Centre, CentreFault, Command, CommandFault, Settings};
use dms_centre_text::read_command;
use dms_wire::{MAX_DATAGRAM, Out};
use std::alloc::Global;
use wisangub_c_places::{CentreHandle, CentrePlace};
use wisangub_c_values::{
    AT_FAULT, BUSY, CentreStatus, DONE, LedgerEntry, NO_MEMORY, NOTHING_SENT, NUMBERS_USED_UP,
    OUT_OF_RANGE, TOO_SMALL, centre_status, ledger_entry, order_of, put_first,
};

/// Why no central system was made.
enum MakeFault {
    Community,
    Memory,
}

/// A central system on the heap.
fn made(alloc: Global, settings: Settings<'_>, first: u32) -> Result<Box<Centre>, MakeFault>
    ensures made { IfOk result (λ centre. centre.value.state ≡ start (settings_model settings.entry) first) }
    ensures community { IfOk result (λ centre. IsTrue (has_community_size settings.entry.community.now)) }
    ensures fault { IfErr result (λ fault. fault ≡ MakeFault.Community
        → has_community_size settings.entry.community.now ≡ false) }
    ensures memory { IfErr result (λ fault. fault ≡ MakeFault.Memory
        → IsTrue (has_community_size settings.entry.community.now)) }
{
    let centre = match Centre::new(alloc, settings, first) {
        Ok(centre) => centre,
        Err(CentreFault::Community) => return Err(MakeFault::Community),
    };
    match Box::new(alloc, centre) {
        Ok(centre) => Ok(centre),
        Err(_) => Err(MakeFault::Memory),
    }
}

/// Makes a central system, in the place `centre`: its requests have this community and begin with the number `first`.
/// An order that is none is found first.
#[unsafe(no_mangle)]
pub extern "C" fn wisangub_centre_new_at(
    alloc: Global,
    community: &[u8],
    order: u8,
    first: u32,
    centre: &mut CentrePlace,
) -> u32
    ensures answer { (result ≡ done) ⊎ ((result ≡ at_fault) ⊎ ((result ≡ no_memory) ⊎ (result ≡ out_of_range))) }
    ensures range { (result == out_of_range) ≡ is_none (order_of order) }
    ensures made { result ≡ done → IfSome (order_of order)
        (λ which. IsPlaced (start (record { community = community.now; order = which }) first) centre.new.value) }
    ensures community { result ≡ done → IsTrue (has_community_size community.now) }
    ensures fault { result ≡ at_fault → has_community_size community.now ≡ false }
    ensures memory { result ≡ no_memory → IsTrue (has_community_size community.now) }
    ensures unchanged { (result == done) ≡ false → centre.new ≡ centre.old }
{
    let Some(order) = order_of(order) else {
        return OUT_OF_RANGE;
    };
    let settings = Settings { community, order };
    match made(alloc, settings, first) {
        Ok(made) => {
            centre.keep(made);
            DONE
        }
        Err(MakeFault::Community) => AT_FAULT,
        Err(MakeFault::Memory) => NO_MEMORY,
    }
}

/// Gives what is sent into a buffer that has room for every datagram.
fn give_sent(out: &Out, request: &mut [u8], size: &mut usize) -> u32
    requires { longest_datagram ≤ length request.old }
    ensures answer { result ≡ answer_of (sent_in out.now.items) }
    ensures some_memory { (result == no_memory) ≡ false }
    ensures size { size.new ≡ size_of (sent_in out.now.items) }
    ensures request { request.new ≡ buffer_with (sent_in out.now.items) request.old }
{
    *size = out.len();
    if out.is_empty() {
        return NOTHING_SENT;
    }
    put_first(out.as_slice(), request);
    DONE
}

fn refusal_answer(fault: CommandFault) -> u32
    ensures { result ≡ refusal_answer fault }
{
    match fault {
        CommandFault::Busy => BUSY,
        CommandFault::NumbersUsedUp => NUMBERS_USED_UP,
        CommandFault::BadCommand => OUT_OF_RANGE,
        CommandFault::Memory => NO_MEMORY,
    }
}

/// Gives it a command.
#[tactic(auto, unfolding(dms_centre::specs::Commands::commanded))]
fn give_command(
    centre: &mut Centre,
    asked: Command<'_>,
    request: &mut [u8],
    size: &mut usize,
) -> u32
    requires { longest_datagram ≤ length request.old }
    ensures state { centre.new.state ≡ unless_memory result centre.old.state
        (commanded centre.old.state (command_model asked.entry)).state }
    ensures answer { result ≡ unless_memory result no_memory
        (given_command_answer centre.old.state (command_model asked.entry)
        (refusal_of centre.old.state (command_model asked.entry))) }
    ensures size { size.new ≡ unless_memory result size.old
        (given_command_size centre.old.state (command_model asked.entry)
        (refusal_of centre.old.state (command_model asked.entry)) size.old) }
    ensures request { request.new ≡ unless_memory result request.old
        (given_command_buffer centre.old.state (command_model asked.entry)
        (refusal_of centre.old.state (command_model asked.entry)) request.old) }
    ensures memory { result ≡ no_memory → IsTrue (enters_by centre.old.state (command_model asked.entry))
        × (centre.old.spare ≡ 0) }
{
    if let Some(fault) = centre.refusal(&asked) {
        return refusal_answer(fault);
    }
    let mut out = Out::new();
    match centre.command(asked, &mut out) {
        Ok(()) => give_sent(&out, request, size),
        Err(_) => NO_MEMORY,
    }
}

/// Gives it the command that a line spells.
fn command(
    alloc: Global,
    centre: &mut Centre,
    line: &[u8],
    request: &mut [u8],
    size: &mut usize,
) -> u32
    requires { longest_datagram ≤ length request.old }
    ensures state { centre.new.state ≡ unless_memory result centre.old.state
        (after_command centre.old.state (command_in centre.old.state line.now)) }
    ensures answer { result ≡ unless_memory result no_memory
        (command_answer centre.old.state (command_in centre.old.state line.now)) }
    ensures size { size.new ≡ unless_memory result size.old
        (command_size centre.old.state (command_in centre.old.state line.now) size.old) }
    ensures request { request.new ≡ unless_memory result request.old
        (command_buffer centre.old.state (command_in centre.old.state line.now) request.old) }
    ensures memory { result ≡ no_memory → IsOfOctets line.now
        ⊎ (IsTrue (enters_by_call centre.old.state (command_in centre.old.state line.now)) × (centre.old.spare ≡ 0)) }
    ensures spelled { result ≡ no_memory → (has_octets (command_of centre.old.state.settings.order line.now) ≡ true)
        ⊎ (IsTrue (enters_by_call centre.old.state (command_in centre.old.state line.now)) × (centre.old.spare ≡ 0)) }
{
    match read_command(alloc, centre.order(), line) {
        Ok(Ok(asked)) => give_command(centre, asked.lent(), request, size),
        Ok(Err(_)) => AT_FAULT,
        Err(_) => NO_MEMORY,
    }
}

/// Gives the central system the command that a line of a script spells. The request stands first in `request`, `size`
/// octets; with fewer than 1472 octets of room nothing is done.
#[unsafe(no_mangle)]
pub extern "C" fn wisangub_centre_command_at(
    alloc: Global,
    centre: &mut CentreHandle,
    line: &[u8],
    request: &mut [u8],
    size: &mut usize,
) -> u32
    ensures short { length request.old < longest_datagram
        → (result ≡ too_small) × (centre.new.value ≡ centre.old.value)
        × (size.new ≡ longest_datagram) × (request.new ≡ request.old) }
    ensures state { longest_datagram ≤ length request.old
        → centre.new.value.state ≡ unless_memory result centre.old.value.state
        (after_command centre.old.value.state (command_in centre.old.value.state line.now)) }
    ensures answer { longest_datagram ≤ length request.old
        → result ≡ unless_memory result no_memory
        (command_answer centre.old.value.state (command_in centre.old.value.state line.now)) }
    ensures size { longest_datagram ≤ length request.old
        → size.new ≡ unless_memory result size.old
        (command_size centre.old.value.state (command_in centre.old.value.state line.now) size.old) }
    ensures request { longest_datagram ≤ length request.old
        → request.new ≡ unless_memory result request.old
        (command_buffer centre.old.value.state (command_in centre.old.value.state line.now) request.old) }
    ensures memory { result ≡ no_memory → IsOfOctets line.now
        ⊎ (IsTrue (enters_by_call centre.old.value.state (command_in centre.old.value.state line.now))
        × (centre.old.value.spare ≡ 0)) }
    ensures spelled { result ≡ no_memory
        → (has_octets (command_of centre.old.value.state.settings.order line.now) ≡ true)
        ⊎ (IsTrue (enters_by_call centre.old.value.state (command_in centre.old.value.state line.now))
        × (centre.old.value.spare ≡ 0)) }
{
    if request.len() < MAX_DATAGRAM {
        *size = MAX_DATAGRAM;
        return TOO_SMALL;
    }
    command(alloc, centre.as_mut(), line, request, size)
}

/// Hands it a datagram.
fn hear(centre: &mut Centre, datagram: &[u8], request: &mut [u8], size: &mut usize) -> u32
    requires { longest_datagram ≤ length request.old }
    ensures state { centre.new.state ≡ (received centre.old.state datagram.now).state }
    ensures answer { result ≡ answer_of (received centre.old.state datagram.now).sent }
    ensures size { size.new ≡ size_of (received centre.old.state datagram.now).sent }
    ensures request { request.new ≡ buffer_with (received centre.old.state datagram.now).sent request.old }
    ensures room { centre.new.spare ≡ centre.old.spare }
{
    let mut out = Out::new();
    centre.receive(datagram, &mut out);
    give_sent(&out, request, size)
}

/// Hands the central system a datagram. The request that it sends next stands first in `request`, `size` octets; with
/// fewer than 1472 octets of room nothing is done.
#[unsafe(no_mangle)]
pub extern "C" fn wisangub_centre_receive_at(
    centre: &mut CentreHandle,
    datagram: &[u8],
    request: &mut [u8],
    size: &mut usize,
) -> u32
    ensures short { length request.old < longest_datagram
        → (result ≡ too_small) × (centre.new.value ≡ centre.old.value)
        × (size.new ≡ longest_datagram) × (request.new ≡ request.old) }
    ensures state { longest_datagram ≤ length request.old
        → centre.new.value.state ≡ (received centre.old.value.state datagram.now).state }
    ensures answer { longest_datagram ≤ length request.old
        → result ≡ answer_of (received centre.old.value.state datagram.now).sent }
    ensures size { longest_datagram ≤ length request.old
        → size.new ≡ size_of (received centre.old.value.state datagram.now).sent }
    ensures request { longest_datagram ≤ length request.old
        → request.new ≡ buffer_with (received centre.old.value.state datagram.now).sent request.old }
    ensures room { centre.new.value.spare ≡ centre.old.value.spare }
{
    if request.len() < MAX_DATAGRAM {
        *size = MAX_DATAGRAM;
        return TOO_SMALL;
    }
    hear(centre.as_mut(), datagram, request, size)
}

/// Its clock ticks.
fn tick(centre: &mut Centre, request: &mut [u8], size: &mut usize) -> u32
    requires { longest_datagram ≤ length request.old }
    ensures state { centre.new.state ≡ unless_memory result centre.old.state (ticked centre.old.state).state }
    ensures answer { result ≡ unless_memory result no_memory (answer_of (ticked centre.old.state).sent) }
    ensures size { size.new ≡ unless_memory result size.old (size_of (ticked centre.old.state).sent) }
    ensures request { request.new ≡ unless_memory result request.old
        (buffer_with (ticked centre.old.state).sent request.old) }
    ensures memory { result ≡ no_memory → (enters_at_tick centre.old.state ≡ true) × (centre.old.spare ≡ 0) }
    ensures room { enters_at_tick centre.old.state ≡ false → centre.new.spare ≡ centre.old.spare }
{
    let mut out = Out::new();
    match centre.tick(&mut out) {
        Ok(()) => give_sent(&out, request, size),
        Err(_) => NO_MEMORY,
    }
}

/// The central system's clock ticks. What it sends stands first in `request`, `size` octets; with fewer than 1472
/// octets of room nothing is done.
#[unsafe(no_mangle)]
pub extern "C" fn wisangub_centre_tick_at(
    centre: &mut CentreHandle,
    request: &mut [u8],
    size: &mut usize,
) -> u32
    ensures short { length request.old < longest_datagram
        → (result ≡ too_small) × (centre.new.value ≡ centre.old.value)
        × (size.new ≡ longest_datagram) × (request.new ≡ request.old) }
    ensures state { longest_datagram ≤ length request.old
        → centre.new.value.state ≡ unless_memory result centre.old.value.state (ticked centre.old.value.state).state }
    ensures answer { longest_datagram ≤ length request.old
        → result ≡ unless_memory result no_memory (answer_of (ticked centre.old.value.state).sent) }
    ensures size { longest_datagram ≤ length request.old
        → size.new ≡ unless_memory result size.old (size_of (ticked centre.old.value.state).sent) }
    ensures request { longest_datagram ≤ length request.old
        → request.new ≡ unless_memory result request.old
        (buffer_with (ticked centre.old.value.state).sent request.old) }
    ensures memory { result ≡ no_memory
        → (enters_at_tick centre.old.value.state ≡ true) × (centre.old.value.spare ≡ 0) }
    ensures room { enters_at_tick centre.old.value.state ≡ false → centre.new.value.spare ≡ centre.old.value.spare }
{
    if request.len() < MAX_DATAGRAM {
        *size = MAX_DATAGRAM;
        return TOO_SMALL;
    }
    tick(centre.as_mut(), request, size)
}

/// The central system starts again, as after a loss of power.
#[unsafe(no_mangle)]
pub extern "C" fn wisangub_centre_restart_at(centre: &mut CentreHandle)
    ensures state { centre.new.value.state ≡ restarted centre.old.value.state }
    ensures room { centre.new.value.spare ≡ centre.old.value.spare }
{
    centre.as_mut().restart();
}

/// How the central system stands.
#[unsafe(no_mangle)]
pub extern "C" fn wisangub_centre_status_at(centre: &mut CentreHandle, status: &mut CentreStatus)
    ensures same { centre.new.value ≡ centre.old.value }
    ensures status { status.new ≡ centre_status centre.old.value.state }
{
    *status = centre_status(centre.as_mut());
}

fn put_entry(centre: &Centre, index: usize, entry: &mut LedgerEntry) -> u32
    ensures answer { result ≡ entry_answer (slice_get centre.now.state.ledger index) }
    ensures entry { entry.new ≡ entry_after (slice_get centre.now.state.ledger index) entry.old }
{
    match centre.ledger().get_index(index) {
        Some((number, found)) => {
            *entry = ledger_entry(*number, found);
            DONE
        }
        None => AT_FAULT,
    }
}

/// The entry of this index, from 0, of the codes that the central system sent.
#[unsafe(no_mangle)]
pub extern "C" fn wisangub_centre_entry_at(
    centre: &mut CentreHandle,
    index: usize,
    entry: &mut LedgerEntry,
) -> u32
    ensures same { centre.new.value ≡ centre.old.value }
    ensures answer { result ≡ entry_answer (slice_get centre.old.value.state.ledger index) }
    ensures entry { entry.new ≡ entry_after (slice_get centre.old.value.state.ledger index) entry.old }
{
    put_entry(centre.as_mut(), index, entry)
}

/// Gives the central system's memory back: its place has none then, and its pointer is null.
#[unsafe(no_mangle)]
pub extern "C" fn wisangub_centre_free_at(alloc: Global, centre: &mut CentrePlace)
    ensures centre { centre.new.value ≡ None }
    ensures pointer { centre.new.at ≡ null_ptr }
{
    centre.clear(alloc);
}
