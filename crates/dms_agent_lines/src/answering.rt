//! The answer of a live sign, and of the objects beside it, to a line.

ghost use Rattle.std.specs.Prelude.{◌≡◌, ◌∷◌, [], ◌++◌, true, false, None, map, IfOk, IfErr, OnOk, OnErr};
ghost use Rattle.dms_wire.specs.View.{object_value};
ghost use Rattle.dms_device.specs.Object.{can_be_sent, fits};
ghost use Rattle.dms_device.specs.declared.fault.ObjectFault.TheVariants.{OutOfMemory};
ghost use Rattle.dms_device.specs.Objects.{binding_of};
ghost use Rattle.dms_device.specs.Publishing.{published};
ghost use Rattle.dms_device.specs.Taken.{told};
ghost use Rattle.dms_agent.specs.Values.{own_value, showing_fonts};
ghost use Rattle.dms_agent.specs.Received.{agent_received};
ghost use Rattle.dms_text_streams.specs.Conversation.{ok_line};
ghost use Rattle.dms_agent_lines.specs.CallView.{call_model};
ghost use Rattle.dms_agent_lines.specs.AgentAnswer.{answer_text, after_line, call_text, after_call, received_text};
ghost use Rattle.dms_agent_lines.specs.AgentAnswer.{publish_text, after_publish, withdraw_text, after_withdraw};
ghost use Rattle.dms_agent_state.specs.AgentText.{value_line, text_of_agent};
ghost use Rattle.dms_agent_state.specs.PutBack.{with_values};
ghost use Rattle.dms_agent_lines.specs.AgentAnswer.{fonts_text, refused, set_line, set_lines};
ghost use Rattle.dms_agent_lines.specs.AgentAnswer.{access_of, put_text, after_put};

use crate::agent_call::{AgentCall, ObjectWords, SetWords};
use crate::cause::AgentCallCause;
use crate::reading::call;
use dms_agent::{Agent, PublishFault};
use dms_agent_state::saved;
use dms_device::{Device, ManagerAccess, ObjectFault, PublishedObject};
use dms_mib_replies::Objects;
use dms_sign_lines::{LONGEST_RECEIPT, put_receipt};
use dms_text_causes::bad_line;
use dms_text_streams::ok_line;
use dms_text_values::{NameRead, put_value};
use dms_wire::{Oid, Out, Value};
use std::alloc::{AllocError, Global};
use std::io;
use std::io::Write;

/// The answer to a line, which is given without its newline; each line of the answer ends in one.
///
/// ```text
/// datagram OCTETS            the sign and the objects receive it: `reply OCTETS`, `accepted CODE OCTETS` or `dropped`
/// object NAME VALUE ACCESS   an object is published: `ok`, or `refused` and why
/// no-object NAME             the object of a name is withdrawn: `ok`, or `refused there is no object of this name`
/// fonts                      the sign's fonts can be read: `ok`, or `refused objects are published already`
/// objects                    firmware is told which objects a manager set: a line `set NAME VALUE` for each, and `ok`
/// set NAME VALUE             a value that a manager had set is put back: `ok`, or `refused` and why
/// save                       the text of the state, of the sign and of what managers set, and `ok`
/// ```
///
/// A line that begins with none of these words is the sign's (`dms_sign_lines::answer`). One that does, and has no such
/// form, is answered `bad line` and why, as `bad line word 3: a value is wanted, as INTEGER 7`, and changes nothing.
/// Out of memory nothing changes either.
pub fn answer(alloc: Global, agent: &mut Agent, line: &[u8]) -> Result<Vec<u8>, AllocError>
    ensures text { IfOk result (λ text. text.items ≡ answer_text agent.old line.now) }
    ensures after { OnOk result (agent.new ≡ after_line agent.old line.now) }
    ensures memory { OnErr result (agent.new ≡ agent.old) }
{
    match call(alloc, line)? {
        Ok(call) => carry_out(alloc, agent, &call),
        Err(AgentCallCause::Keyword) => dms_sign_lines::answer(alloc, agent.sign_mut(), line),
        Err(cause) => bad_line(alloc, cause),
    }
}

/// Carries out a call, and gives its answer.
fn carry_out(alloc: Global, agent: &mut Agent, call: &AgentCall<'_>) -> Result<Vec<u8>, AllocError>
    ensures text { IfOk result (λ text. text.items ≡ call_text agent.old (call_model call.now)) }
    ensures after { OnOk result (agent.new ≡ after_call agent.old (call_model call.now)) }
    ensures memory { OnErr result (agent.new ≡ agent.old) }
{
    match call {
        AgentCall::Receive(octets) => receive(alloc, agent, octets.as_slice()),
        AgentCall::Publish(object) => publish(alloc, agent, object),
        AgentCall::Withdraw(name) => withdraw(alloc, agent, name),
        AgentCall::ShowFonts => show_fonts(alloc, agent),
        AgentCall::Tell => tell(alloc, agent),
        AgentCall::PutBack(binding) => put_back(alloc, agent, binding),
        AgentCall::Save => save(alloc, agent),
    }
}

/// The agent receives a datagram. The memory of the longest answer is reserved before that.
fn receive(alloc: Global, agent: &mut Agent, datagram: &[u8]) -> Result<Vec<u8>, AllocError>
    ensures text { IfOk result (λ text. text.items
        ≡ received_text agent.old.sign.table.order (agent_received agent.old datagram.now)) }
    ensures after { OnOk result (agent.new ≡ (agent_received agent.old datagram.now).after) }
    ensures memory { OnErr result (agent.new ≡ agent.old) }
{
    let order = agent.sign().order();
    let mut text = Vec::with_capacity(alloc, LONGEST_RECEIPT)?;
    let mut reply = Out::new();
    let receipt = agent.receive(datagram, &mut reply);
    put_receipt(&mut text, order, receipt, reply.as_slice());
    Ok(text)
}

/// Publishes an object, or says why not. Nothing is refused then but memory.
fn publish(
    alloc: Global,
    agent: &mut Agent,
    object: &ObjectWords<'_>,
) -> Result<Vec<u8>, AllocError>
    ensures text { IfOk result (λ text. text.items ≡ publish_text agent.old object.now) }
    ensures after { OnOk result (agent.new ≡ after_publish agent.old object.now) }
    ensures memory { OnErr result (agent.new ≡ agent.old) }
{
    let octets = object.value.octets(alloc)?;
    let value = object.value.over(octets.as_slice());
    if object.access.is_written() && !object.access.admits(&value) {
        return refused(alloc, "the value is not one that its access takes");
    }
    let name = object.name.oid();
    if agent.own_value(&name).is_some() {
        return refused(alloc, "the sign has an object of this name");
    }
    let done = ok_line(alloc)?;
    match made(alloc, &name, &value, object.access) {
        Ok(object) => published(agent, object, done),
        Err(_) => Err(AllocError),
    }
}

/// The object with a name and a value that were judged: nothing is wrong with it, so that memory alone can be wanting.
fn made(
    alloc: Global,
    name: &Oid<'_>,
    value: &Value<'_>,
    access: ManagerAccess,
) -> Result<PublishedObject, ObjectFault>
    requires sent { can_be_sent (object_value value.now) ≡ true }
    requires fit { fits access (object_value value.now) ≡ true }
    ensures made { IfOk result (λ object. object
        ≡ record {
          name = name.now;
          value = object_value value.now;
          access = access;
          is_set = false;
          by_manager = false;
        }) }
    ensures memory { IfErr result (λ fault. fault ≡ OutOfMemory) }
{
    // the limits of a name are known where its numbers are looked at
    let _ = name.numbers();
    PublishedObject::new(alloc, name.content(), value, access)
}

/// Publishes an object whose name the sign has not, and gives the answer.
fn published(
    agent: &mut Agent,
    object: PublishedObject,
    done: Vec<u8>,
) -> Result<Vec<u8>, AllocError>
    requires { own_value agent.old object.name ≡ None }
    ensures text { IfOk result (λ text. text ≡ done) }
    ensures after { OnOk result
        (agent.new ≡ record agent.old { device = published agent.old.device object }) }
    ensures memory { OnErr result (agent.new ≡ agent.old) }
{
    match agent.publish(object) {
        Ok(()) => Ok(done),
        Err(PublishFault::OutOfMemory) => Err(AllocError),
        Err(PublishFault::OfTheSign) => unreachable!(),
    }
}

/// Withdraws the object of a name, or says that there is none.
fn withdraw(alloc: Global, agent: &mut Agent, name: &NameRead) -> Result<Vec<u8>, AllocError>
    ensures text { IfOk result (λ text. text.items ≡ withdraw_text agent.old name.now) }
    ensures after { OnOk result (agent.new ≡ after_withdraw agent.old name.now) }
    ensures memory { OnErr result (agent.new ≡ agent.old) }
{
    let done = ok_line(alloc)?;
    let name = name.oid();
    if agent.device().value(&name).is_none() {
        return refused(alloc, "there is no object of this name");
    }
    agent.withdraw(&name);
    Ok(done)
}

/// From here on the objects of fonts can be read, or it says why not.
fn show_fonts(alloc: Global, agent: &mut Agent) -> Result<Vec<u8>, AllocError>
    ensures text { IfOk result (λ text. text.items ≡ fonts_text agent.old) }
    ensures after { OnOk result (agent.new ≡ showing_fonts agent.old) }
    ensures memory { OnErr result (agent.new ≡ agent.old) }
{
    let done = ok_line(alloc)?;
    if agent.show_fonts() {
        Ok(done)
    } else {
        refused(alloc, "objects are published already")
    }
}

/// Tells firmware which objects a manager set.
fn tell(alloc: Global, agent: &mut Agent) -> Result<Vec<u8>, AllocError>
    ensures text { IfOk result (λ text. text.items ≡ set_lines agent.old.device ++ ok_line) }
    ensures after { OnOk result (agent.new ≡ record agent.old { device = map told agent.old.device }) }
    ensures memory { OnErr result (agent.new ≡ agent.old) }
{
    let text = set_text(alloc, agent.device())?;
    agent.tell_all();
    Ok(text)
}

/// A line for each object that a manager set, and `ok`.
fn set_text(alloc: Global, device: &Device) -> Result<Vec<u8>, AllocError>
    ensures { IfOk result (λ text. text.items ≡ set_lines device.now ++ ok_line) }
{
    let mut text = Vec::new(alloc);
    match put_set_lines(alloc, device.objects(), &mut text) {
        Ok(()) => {
            text.extend_from_slice(b"ok\n")?;
            Ok(text)
        }
        Err(_) => Err(AllocError),
    }
}

/// Appends a line for each object that a manager set.
#[tactic(auto, using(crate::proofs::SetLines::lines))]
fn put_set_lines(alloc: Global, objects: &[PublishedObject], text: &mut Vec<u8>) -> io::Result<()>
    ensures { OnOk result (text.new.items ≡ text.old.items ++ set_lines objects.now) }
{
    let mut rest = objects;
    while let [object, others @ ..] = rest {
        put_set_line(alloc, object, text)?;
        rest = others;
    }
    Ok(())
}

/// Appends a line for an object that a manager set, and nothing for another.
fn put_set_line(alloc: Global, object: &PublishedObject, text: &mut Vec<u8>) -> io::Result<()>
    ensures { OnOk result (text.new.items ≡ text.old.items ++ set_line object.now) }
{
    if !object.is_set() {
        return Ok(());
    }
    put_set(alloc, object, text)
}

#[tactic(auto, using(crate::proofs::SetLines::parts))]
fn put_set(alloc: Global, object: &PublishedObject, text: &mut Vec<u8>) -> io::Result<()>
    ensures { OnOk result (text.new.items ≡ text.old.items ++ value_line object.now.name object.now.value) }
{
    write!(text, "set {} ", object.name())?;
    put_value(alloc, &object.value(), text)?;
    writeln!(text)
}

/// Puts a value back that a manager had set, or says why not. Nothing is refused then but memory.
fn put_back(alloc: Global, agent: &mut Agent, binding: &SetWords<'_>) -> Result<Vec<u8>, AllocError>
    ensures text { IfOk result (λ text. text.items ≡ put_text agent.old binding.now) }
    ensures after { OnOk result (agent.new ≡ after_put agent.old binding.now) }
    ensures memory { OnErr result (agent.new ≡ agent.old) }
{
    let octets = binding.value.octets(alloc)?;
    let value = binding.value.over(octets.as_slice());
    let name = binding.name.oid();
    let Some(access) = access_of(agent.device().objects(), &name) else {
        return refused(alloc, "there is no object of this name");
    };
    if !access.admits(&value) {
        return refused(alloc, "the object does not take this value");
    }
    let done = ok_line(alloc)?;
    match made(alloc, &name, &value, ManagerAccess::ReadOnly) {
        Ok(object) => {
            put_value_back(agent, object);
            Ok(done)
        }
        Err(_) => Err(AllocError),
    }
}

/// What a manager may write to the object of a name, if there is one.
#[tactic(auto, using(crate::proofs::Named::steps))]
fn access_of(objects: &[PublishedObject], name: &Oid<'_>) -> Option<ManagerAccess>
    ensures { result ≡ access_of objects.now name.now }
{
    let mut rest = objects;
    while let [object, others @ ..] = rest {
        if object.name() == *name {
            return Some(object.access());
        }
        rest = others;
    }
    None
}

/// Puts back the value of an object to the published one that has its name.
fn put_value_back(agent: &mut Agent, object: PublishedObject)
    ensures { agent.new ≡ with_values agent.old (binding_of object ∷ []) }
{
    agent.put_back(&[object]);
}

/// The text of the state.
fn save(alloc: Global, agent: &Agent) -> Result<Vec<u8>, AllocError>
    ensures { IfOk result (λ text. text.items ≡ text_of_agent agent.now ++ ok_line) }
{
    let mut text = saved(alloc, agent)?;
    text.extend_from_slice(b"ok\n")?;
    Ok(text)
}

/// The line that says why a line is refused.
fn refused(alloc: Global, why: &str) -> Result<Vec<u8>, AllocError>
    ensures { IfOk result (λ text. text.items ≡ refused why.now) }
{
    let mut text = Vec::new(alloc);
    match writeln!(text, "refused {why}") {
        Ok(()) => Ok(text),
        Err(_) => Err(AllocError),
    }
}
