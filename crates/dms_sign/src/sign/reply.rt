//! The reply to a datagram.

ghost use Rattle.std.specs.Prelude.{◌≡◌, []};
ghost use Rattle.dms_wire.specs.View.{snmp_message};
ghost use Rattle.dms_sign.specs.Requests.{set, is_community, may_write};
ghost use Rattle.dms_sign.specs.Reply.{reply_to, received};
ghost use Rattle.dms_sign.specs.ReplyView.{IsRead, IsAnswered, sent, accepted_by, is_addressed, answered};
ghost use Rattle.dms_sign.specs.declared.sign.reply.Receipt.TheVariants.{Dropped};

use crate::sign::Sign;
use dms_codes::Activation;
use dms_mib_replies::{answer_get, answer_next, repeat};
use dms_wire::{ErrorStatus, Kind, Message, Out, read};

/// What came of a datagram.
#[derive(Clone, Copy, Debug, PartialEq, Eq)]
pub enum Receipt {
    /// Nothing is sent, and nothing changed.
    Dropped,
    /// There is a reply.
    Replied,
    /// There is a reply, and this activation was accepted.
    Accepted(Activation),
}

impl Sign {
    /// What comes of a datagram: the reply is left in `out`, which is empty where nothing is sent. Octets that spell no
    /// message, a Response, a message of another community and all that comes while the power is off are dropped, and
    /// nothing changes.
    #[tactic(auto, unfolding(crate::specs::Reply::received), using(crate::proofs::Addressed::by_address))]
    pub fn receive(&mut self, datagram: &[u8], out: &mut Out) -> Receipt
        ensures after { self.new ≡ (received self.old datagram.now).after }
        ensures reply { sent result out.new.items ≡ (received self.old datagram.now).reply }
        ensures accepted { accepted_by result ≡ (received self.old datagram.now).accepted }
        ensures empty { result ≡ Dropped → out.new.items ≡ [] }
    {
        out.clear();
        match &read(datagram) {
            Ok(message) if self.is_addressed(message) => self.answer(message, out),
            _ => Receipt::Dropped,
        }
    }

    /// Answers a request that is for the sign; a Response is dropped.
    #[tactic(auto, unfolding(crate::specs::Requests::answer_of_any_size), using(crate::proofs::Sending::says))]
    pub fn answer(&mut self, message: &Message<'_>, out: &mut Out) -> Receipt
        requires read { IsRead (snmp_message message.now) }
        requires cleared { out.old.items ≡ [] }
        ensures after { self.new ≡ (answered self.old (snmp_message message.now) message.now.kind).after }
        ensures reply { sent result out.new.items
            ≡ (answered self.old (snmp_message message.now) message.now.kind).reply }
        ensures accepted { accepted_by result
            ≡ (answered self.old (snmp_message message.now) message.now.kind).accepted }
        ensures empty { result ≡ Dropped → out.new.items ≡ [] }
    {
        let receipt = match message.kind {
            Kind::Response => return Receipt::Dropped,
            Kind::Get => {
                answer_get(&*self, message, out);
                Receipt::Replied
            }
            Kind::GetNext => {
                answer_next(&*self, message, out);
                Receipt::Replied
            }
            Kind::Set => self.answer_set(message, out),
        };
        self.set_silent_seconds(0);
        receipt
    }

    /// Answers a Set: out of line, so that a Get needs no room for what a Set keeps.
    #[inline(never)]
    fn answer_set(&mut self, message: &Message<'_>, out: &mut Out) -> Receipt
        requires { IsRead (snmp_message message.now) }
        ensures after { self.new
            ≡ (set self.old (may_write self.old (snmp_message message.now)) message.now.binds).after }
        ensures reply { out.new.items ≡ reply_to (snmp_message message.now)
            (set self.old (may_write self.old (snmp_message message.now)) message.now.binds) }
        ensures accepted { accepted_by result
            ≡ (set self.old (may_write self.old (snmp_message message.now)) message.now.binds).accepted }
        ensures answered { IsAnswered result }
    {
        match self.set(self.may_write(message), &message.binds) {
            Ok(accepted) => {
                repeat(message, ErrorStatus::NoError, 0, out);
                receipt_of(accepted)
            }
            Err(refusal) => {
                repeat(message, refusal.status, refusal.index, out);
                Receipt::Replied
            }
        }
    }

    /// Whether the sign has power, and the message is of one of its two communities.
    pub fn is_addressed(&self, message: &Message<'_>) -> bool
        ensures { result ≡ is_addressed self.now (snmp_message message.now) }
    {
        self.powered && (message.community == self.reader.as_slice() || self.may_write(message))
    }

    /// Whether the message is of the community that may write.
    pub fn may_write(&self, message: &Message<'_>) -> bool
        ensures { result ≡ is_community message.now.community.now self.now.config.writer }
    {
        message.community == self.writer.as_slice()
    }
}

fn receipt_of(accepted: Option<Activation>) -> Receipt
    ensures accepted { accepted_by result ≡ accepted }
    ensures answered { IsAnswered result }
{
    match accepted {
        Some(activation) => Receipt::Accepted(activation),
        None => Receipt::Replied,
    }
}
