//! The reply to a datagram.

ghost use Rattle.std.specs.Prelude.{◌≡◌, []};
ghost use Rattle.dms_wire.specs.declared.message.Kind.TheVariants.{Set};
ghost use Rattle.dms_wire.specs.View.{snmp_message};
ghost use Rattle.dms_sign.specs.ReplyView.{IsRead, sent, accepted_by};
ghost use Rattle.dms_sign.specs.declared.sign.reply.Receipt.TheVariants.{Dropped};
ghost use Rattle.dms_device.specs.View.{refusal_in};
ghost use Rattle.dms_agent.specs.Received.{set_reply, agent_set};
ghost use Rattle.dms_agent.specs.Received.{agent_answered, agent_received};

use crate::agent::Agent;
use dms_device::BindingFault;
use dms_mib_replies::{answer_get, answer_next, repeat};
use dms_sign::Receipt;
use dms_wire::{ErrorStatus, Kind, Message, Out, heard};

impl Agent {
    /// What comes of a datagram: the reply is left in `out`, which is empty where nothing is sent. What the sign drops
    /// is dropped, and nothing changes.
    #[tactic(auto, unfolding(crate::specs::Received::agent_received))]
    pub fn receive(&mut self, datagram: &[u8], out: &mut Out) -> Receipt
        ensures after { self.new ≡ (agent_received self.old datagram.now).after }
        ensures reply { sent result out.new.items ≡ (agent_received self.old datagram.now).reply }
        ensures accepted { accepted_by result ≡ (agent_received self.old datagram.now).accepted }
        ensures empty { result ≡ Dropped → out.new.items ≡ [] }
    {
        out.clear();
        match heard(datagram) {
            Some(message) if self.sign.is_addressed(&message) => self.answer(&message, out),
            _ => Receipt::Dropped,
        }
    }

    /// Answers a request; a Response is dropped.
    fn answer(&mut self, message: &Message<'_>, out: &mut Out) -> Receipt
        requires read { IsRead (snmp_message message.now) }
        requires cleared { out.old.items ≡ [] }
        ensures after { self.new ≡ (agent_answered self.old (snmp_message message.now) message.now.kind).after }
        ensures reply { sent result out.new.items
            ≡ (agent_answered self.old (snmp_message message.now) message.now.kind).reply }
        ensures accepted { accepted_by result
            ≡ (agent_answered self.old (snmp_message message.now) message.now.kind).accepted }
        ensures empty { result ≡ Dropped → out.new.items ≡ [] }
    {
        match message.kind {
            Kind::Response => Receipt::Dropped,
            Kind::Get => {
                answer_get(&*self, message, out);
                self.sign.heard();
                Receipt::Replied
            }
            Kind::GetNext => {
                answer_next(&*self, message, out);
                self.sign.heard();
                Receipt::Replied
            }
            Kind::Set => self.answer_set(message, out),
        }
    }

    /// Answers a Set.
    fn answer_set(&mut self, message: &Message<'_>, out: &mut Out) -> Receipt
        requires read { IsRead (snmp_message message.now) }
        requires cleared { out.old.items ≡ [] }
        requires set { message.now.kind ≡ Set }
        ensures after { self.new ≡ (agent_set self.old (snmp_message message.now)).after }
        ensures reply { sent result out.new.items ≡ (agent_set self.old (snmp_message message.now)).reply }
        ensures accepted { accepted_by result ≡ (agent_set self.old (snmp_message message.now)).accepted }
        ensures empty { result ≡ Dropped → out.new.items ≡ [] }
    {
        let may_write = self.sign.may_write(message);
        match self.device.set_own(may_write, &message.binds) {
            None => self.sign.answer(message, out),
            Some(done) => {
                reply_to_set(done, message, out);
                self.sign.heard();
                Receipt::Replied
            }
        }
    }
}

/// Writes the reply to a Set of the device's.
fn reply_to_set(done: Result<(), BindingFault>, message: &Message<'_>, out: &mut Out)
    requires { IsRead (snmp_message message.now) }
    ensures { out.new.items ≡ set_reply (snmp_message message.now) (refusal_in done) }
{
    match done {
        Ok(()) => repeat(message, ErrorStatus::NoError, 0, out),
        Err(refusal) => repeat(message, refusal.status, refusal.index, out),
    }
}
