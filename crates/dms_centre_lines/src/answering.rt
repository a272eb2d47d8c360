//! A line to a central system, and its answer.

ghost use Rattle.std.specs.Prelude.{◌≡◌, ◌++◌, IfOk, OnOk, OnErr, Some};
ghost use Rattle.dms_centre_jobs.specs.CodeView.{command_model};
ghost use Rattle.dms_centre.specs.Commands.{commanded, refusal_of};
ghost use Rattle.dms_centre.specs.Inputs.{received, ticked, restarted};
ghost use Rattle.dms_centre_state.specs.CentreText.{text_of_state};
ghost use Rattle.dms_text_streams.specs.Conversation.{ok_line};
ghost use Rattle.dms_centre_lines.specs.Answers.{answer_text, after_line, call_text, after_call, command_line};
ghost use Rattle.dms_centre_lines.specs.Answers.{sent_line};
ghost use Rattle.dms_centre_lines.specs.CodeView.{call_model};

use crate::reading::{CentreCall, call};
use crate::status::{status, status_last};
use crate::text::{put_sent, refused, room};
use dms_centre::{Centre, Command};
use dms_centre_state::saved;
use dms_text_causes::bad_line;
use dms_text_streams::ok_line;
use dms_wire::Out;
use std::alloc::{AllocError, Global};

/// Does what a line asks of the central system, and answers it: one line or more, each with a newline at its end. The
/// line comes without its newline; a carriage return at its end belongs to its last word.
///
/// - `publish ..`, `blank ..` and `activate ..`, as in a script, give it a command: `send OCTETS`, with what goes out
///   in hexadecimal digits, or `refused` and why, with the name of a value that is out of its range.
/// - `datagram OCTETS` hands it a datagram, and `tick` is a tick of its clock: `send OCTETS`, or `ok` where nothing
///   goes out.
/// - `restart` restarts it: `ok`.
/// - `status`: `busy` or `idle`, `last` and how the last job ended, the ledger's lines of a report, and `ok`.
/// - `status last`: the same without the ledger's lines.
/// - `save`: the text of its state, and `ok`.
/// - Any other line is answered `bad line` and why it is none of these, as `bad line word 2: no more words are wanted`,
///   and changes nothing.
///
/// Where it runs out of memory, nothing has changed: what an answer needs is reserved before the central system is
/// called.
pub fn answer(alloc: Global, centre: &mut Centre, line: &[u8]) -> Result<Vec<u8>, AllocError>
    ensures text { IfOk result (λ text. text.items ≡ answer_text centre.old.state line.now) }
    ensures state { OnOk result (centre.new.state ≡ after_line centre.old.state line.now) }
    ensures unchanged { OnErr result (centre.new.state ≡ centre.old.state) }
{
    match call(alloc, centre.order(), line)? {
        Ok(call) => carry_out(alloc, centre, &call),
        Err(cause) => bad_line(alloc, cause),
    }
}

/// Carries out a call, and gives its answer.
fn carry_out(alloc: Global, centre: &mut Centre, call: &CentreCall) -> Result<Vec<u8>, AllocError>
    ensures text { IfOk result (λ text. text.items ≡ call_text centre.old.state (call_model call.now)) }
    ensures state { OnOk result (centre.new.state ≡ after_call centre.old.state (Some (call_model call.now))) }
    ensures unchanged { OnErr result (centre.new.state ≡ centre.old.state) }
{
    match call {
        CentreCall::Command(asked) => give(alloc, centre, asked.lent()),
        CentreCall::Datagram(octets) => receive(alloc, centre, octets.as_slice()),
        CentreCall::Tick => tick(alloc, centre),
        CentreCall::Restart => restart(alloc, centre),
        CentreCall::Status => status(alloc, centre),
        CentreCall::StatusLast => status_last(alloc, centre),
        CentreCall::Save => save(alloc, centre),
    }
}

/// The operator gives a command.
#[tactic(auto, unfolding(dms_centre::specs::Commands::commanded))]
fn give(alloc: Global, centre: &mut Centre, asked: Command<'_>) -> Result<Vec<u8>, AllocError>
    ensures text { IfOk result (λ text. text.items ≡ command_line centre.old.state (command_model asked.entry)
        (refusal_of centre.old.state (command_model asked.entry))) }
    ensures state { OnOk result (centre.new.state ≡ (commanded centre.old.state (command_model asked.entry)).state) }
    ensures unchanged { OnErr result (centre.new.state ≡ centre.old.state) }
{
    if let Some(fault) = centre.refusal(&asked) {
        return refused(alloc, fault, &asked);
    }
    let mut text = room(alloc)?;
    let mut request = Out::new();
    match centre.command(asked, &mut request) {
        Ok(()) => {
            put_sent(&mut text, &request);
            Ok(text)
        }
        Err(_) => Err(AllocError),
    }
}

/// A datagram reaches it.
fn receive(alloc: Global, centre: &mut Centre, datagram: &[u8]) -> Result<Vec<u8>, AllocError>
    ensures text { IfOk result (λ text. text.items ≡ sent_line (received centre.old.state datagram.now).sent) }
    ensures state { OnOk result (centre.new.state ≡ (received centre.old.state datagram.now).state) }
    ensures unchanged { OnErr result (centre.new.state ≡ centre.old.state) }
{
    let mut text = room(alloc)?;
    let mut request = Out::new();
    centre.receive(datagram, &mut request);
    put_sent(&mut text, &request);
    Ok(text)
}

/// Its clock ticks.
fn tick(alloc: Global, centre: &mut Centre) -> Result<Vec<u8>, AllocError>
    ensures text { IfOk result (λ text. text.items ≡ sent_line (ticked centre.old.state).sent) }
    ensures state { OnOk result (centre.new.state ≡ (ticked centre.old.state).state) }
    ensures unchanged { OnErr result (centre.new.state ≡ centre.old.state) }
{
    let mut text = room(alloc)?;
    let mut request = Out::new();
    match centre.tick(&mut request) {
        Ok(()) => {
            put_sent(&mut text, &request);
            Ok(text)
        }
        Err(_) => Err(AllocError),
    }
}

/// It restarts.
fn restart(alloc: Global, centre: &mut Centre) -> Result<Vec<u8>, AllocError>
    ensures text { IfOk result (λ text. text.items ≡ ok_line) }
    ensures state { OnOk result (centre.new.state ≡ restarted centre.old.state) }
    ensures unchanged { OnErr result (centre.new.state ≡ centre.old.state) }
{
    let text = ok_line(alloc)?;
    centre.restart();
    Ok(text)
}

/// The text of its state.
fn save(alloc: Global, centre: &Centre) -> Result<Vec<u8>, AllocError>
    ensures { IfOk result (λ text. text.items ≡ text_of_state centre.now.state ++ ok_line) }
{
    let mut text = saved(alloc, centre)?;
    text.extend_from_slice(b"ok\n")?;
    Ok(text)
}
