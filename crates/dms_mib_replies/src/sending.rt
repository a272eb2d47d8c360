//! Replies, each of them itself where it fits a datagram, or tooBig.

ghost use Rattle.std.specs.Prelude.{◌≡◌, List, [], ◌∷◌};
ghost use Rattle.dms_wire.specs.ErrorStatus.{error_status_number};
ghost use Rattle.dms_wire.specs.Message.{VarBind};
ghost use Rattle.dms_wire.specs.View.{snmp_message, binding_of};
ghost use Rattle.dms_wire.specs.Canonical.{canonical};
ghost use Rattle.dms_wire.specs.Response.{response_to};
ghost use Rattle.dms_wire.specs.Written.{octets_of_bindings};
ghost use Rattle.dms_mib_replies.specs.Replies.{too_big, reply_with, IsRead};

use dms_wire::{
    BindingOctets, ErrorStatus, Message, Oid, Out, Value, write_around, write_response, write_value,
};

/// Writes the reply that has the binding of this name and this value alone, or tooBig where it does not fit a datagram:
/// neither is moved.
pub(crate) fn reply_value(message: &Message<'_>, name: &Oid<'_>, value: &Value<'_>, out: &mut Out)
    requires { IsRead (snmp_message message.now) }
    ensures { out.new.items ≡ reply_with (snmp_message message.now) 0 0 (binding_of name.now value.now ∷ []) }
{
    match write_value(&message.response(ErrorStatus::NoError, 0), name, value, out) {
        Ok(()) => {}
        Err(_) => refuse_too_big(message, out),
    }
}

/// Writes the reply that has these bindings, or tooBig where it does not fit a datagram.
pub fn reply(message: &Message<'_>, octets: &BindingOctets, out: &mut Out)
    requires { IsRead (snmp_message message.now) }
    ensures { (bindings : List VarBind) → octets.now ≡ octets_of_bindings bindings
        → out.new.items ≡ reply_with (snmp_message message.now) 0 0 bindings }
{
    match write_around(&message.response(ErrorStatus::NoError, 0), octets, out) {
        Ok(()) => {}
        Err(_) => refuse_too_big(message, out),
    }
}

/// Writes the reply that repeats the request's bindings, or tooBig where it does not fit a datagram.
pub fn repeat(message: &Message<'_>, status: ErrorStatus, index: u32, out: &mut Out)
    requires { IsRead (snmp_message message.now) }
    ensures { out.new.items
        ≡ reply_with (snmp_message message.now) (error_status_number status) index message.now.binds }
{
    match write_response(message, status, index, out) {
        Ok(()) => {}
        Err(_) => refuse_too_big(message, out),
    }
}

/// Writes tooBig, which fits a datagram as the request did.
fn refuse_too_big(message: &Message<'_>, out: &mut Out)
    requires { IsRead (snmp_message message.now) }
    ensures { out.new.items ≡ canonical (response_to (snmp_message message.now) too_big 0) }
{
    let _ = write_response(message, ErrorStatus::TooBig, 0, out);
}
