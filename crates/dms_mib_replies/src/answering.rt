//! The replies to a Get and to a GetNext.

ghost use Rattle.std.specs.Prelude.{◌≡◌, ◌≤◌, [], None, Some, length, map, IfErr, OnOk};
ghost use Rattle.std.specs.List.{position_from};
ghost use Rattle.dms_wire.specs.Limits.{most_bindings};
ghost use Rattle.dms_wire.specs.View.{snmp_message};
ghost use Rattle.dms_wire.specs.Written.{octets_of_bindings};
ghost use Rattle.dms_mib_replies.specs.Replies.{IsRead, get_reply, get_next_reply};
ghost use Rattle.dms_mib_replies.specs.Replies.{has_no_value_by, with_value_by, is_last_by, next_after_by};

use crate::objects::Objects;
use crate::sending::{repeat, reply, reply_value};
use dms_wire::{BindingOctets, Binds, ErrorStatus, Message, Out};

/// Answers a Get. One binding needs no room for several, which is cleared where it is made.
#[tactic(auto, unfolding(crate::specs::Replies::get_reply))]
pub fn answer_get<O: Objects>(objects: &O, message: &Message<'_>, out: &mut Out)
    requires { IsRead (snmp_message message.now) }
    ensures { out.new.items ≡ get_reply (O.reads objects.now) (snmp_message message.now) }
{
    let Some(name) = message.binds.only_name() else {
        return answer_get_of_several(objects, message, out);
    };
    match &objects.value(&name) {
        Some(value) => reply_value(message, &name, value, out),
        None => repeat(message, ErrorStatus::NoSuchName, 1, out),
    }
}

/// Answers a Get of any number of bindings.
#[inline(never)]
#[tactic(auto, unfolding(crate::specs::Replies::get_reply))]
fn answer_get_of_several<O: Objects>(objects: &O, message: &Message<'_>, out: &mut Out)
    requires { IsRead (snmp_message message.now) }
    ensures { out.new.items ≡ get_reply (O.reads objects.now) (snmp_message message.now) }
{
    let mut octets = BindingOctets::new();
    match values_of(objects, &message.binds, &mut octets) {
        Ok(()) => reply(message, &octets, out),
        Err(index) => repeat(message, ErrorStatus::NoSuchName, index, out),
    }
}

/// Answers a GetNext. One binding needs no room for several, which is cleared where it is made.
#[tactic(auto, unfolding(crate::specs::Replies::get_next_reply))]
pub fn answer_next<O: Objects>(objects: &O, message: &Message<'_>, out: &mut Out)
    requires { IsRead (snmp_message message.now) }
    ensures { out.new.items ≡ get_next_reply (O.follows objects.now) (snmp_message message.now) }
{
    let Some(name) = message.binds.only_name() else {
        return answer_next_of_several(objects, message, out);
    };
    match &objects.next(&name) {
        Some(next) => reply_value(message, &next.name.oid(), &next.value, out),
        None => repeat(message, ErrorStatus::NoSuchName, 1, out),
    }
}

/// Answers a GetNext of any number of bindings.
#[inline(never)]
#[tactic(auto, unfolding(crate::specs::Replies::get_next_reply))]
fn answer_next_of_several<O: Objects>(objects: &O, message: &Message<'_>, out: &mut Out)
    requires { IsRead (snmp_message message.now) }
    ensures { out.new.items ≡ get_next_reply (O.follows objects.now) (snmp_message message.now) }
{
    let mut octets = BindingOctets::new();
    match values_after(objects, &message.binds, &mut octets) {
        Ok(()) => reply(message, &octets, out),
        Err(index) => repeat(message, ErrorStatus::NoSuchName, index, out),
    }
}

/// Appends these bindings with what their names read, or answers the index of the first name that is that of no
/// instance.
fn values_of<O: Objects>(
    objects: &O,
    binds: &Binds<'_>,
    octets: &mut BindingOctets,
) -> Result<(), u32>
    requires few { length binds.now ≤ most_bindings }
    requires none_yet { octets.old ≡ octets_of_bindings [] }
    ensures found { OnOk result
        (octets.new ≡ octets_of_bindings (map (with_value_by (O.reads objects.now)) binds.now)) }
    ensures none_missing { OnOk result (position_from (has_no_value_by (O.reads objects.now)) 1 binds.now ≡ None) }
    ensures missing { IfErr result (λ index.
        position_from (has_no_value_by (O.reads objects.now)) 1 binds.now ≡ Some index) }
{
    let mut index = 0;
    let mut rest = binds.again();
    while let Some(name) = rest.next_name() {
        index += 1;
        match &objects.value(&name) {
            Some(value) => octets.push_value(&name, value),
            None => return Err(index),
        }
    }
    Ok(())
}

/// Appends the bindings that come after these names, or answers the index of the first name after which none comes.
fn values_after<O: Objects>(
    objects: &O,
    binds: &Binds<'_>,
    octets: &mut BindingOctets,
) -> Result<(), u32>
    requires few { length binds.now ≤ most_bindings }
    requires none_yet { octets.old ≡ octets_of_bindings [] }
    ensures found { OnOk result
        (octets.new ≡ octets_of_bindings (map (next_after_by (O.follows objects.now)) binds.now)) }
    ensures none_last { OnOk result (position_from (is_last_by (O.follows objects.now)) 1 binds.now ≡ None) }
    ensures last { IfErr result (λ index.
        position_from (is_last_by (O.follows objects.now)) 1 binds.now ≡ Some index) }
{
    let mut index = 0;
    let mut rest = binds.again();
    while let Some(name) = rest.next_name() {
        index += 1;
        match &objects.next(&name) {
            Some(next) => octets.push_value(&next.name.oid(), &next.value),
            None => return Err(index),
        }
    }
    Ok(())
}
