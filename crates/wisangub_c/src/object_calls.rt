//! The objects that firmware publishes beside a sign's, from C.

ghost use Rattle.std.specs.Prelude.{◌≡◌, length, if◌then◌else◌, Some, None, is_some, option_map, IfOk, IfErr, IsSome};
ghost use Rattle.dms_wire.specs.View.{object_value, var_bind};
ghost use Rattle.dms_device.specs.Publishing.{published};
ghost use Rattle.dms_agent.specs.Values.{own_value, showing_fonts};
ghost use Rattle.wisangub_c.specs.Answers.{done, no_memory, at_fault, unless_memory, given_answer, given_buffer};
ghost use Rattle.wisangub_c_values.specs.ObjectValues.{name_given, value_given, access_given, octets_of};
ghost use Rattle.wisangub_c.specs.Objects.{is_free, object_given, publish_answer, after_publish};
ghost use Rattle.wisangub_c.specs.Objects.{fonts_answer, withdraw_answer, after_withdraw};
ghost use Rattle.wisangub_c.specs.Objects.{value_read, read_answer, read_size, read_buffer, read_parts};
ghost use Rattle.wisangub_c.specs.Objects.{next_set, taken_answer, taken_name_size, taken_size, taken_name};
ghost use Rattle.wisangub_c.specs.Objects.{taken_octets, taken_parts, after_taken};

use dms_agent::{Agent, PublishFault};
use dms_agent_watched::Watched;
use dms_device::{Device, ManagerAccess, ObjectFault, PublishedObject};
use dms_mib_replies::Objects;
use dms_wire::{Bind, Value};
use std::alloc::Global;
use wisangub_c_places::SignHandle;
use wisangub_c_values::{
    AT_FAULT, AccessParts, DONE, NO_MEMORY, NOTHING_SENT, OUT_OF_RANGE, TOO_SMALL, ValueParts,
    access_given, give, name_given, octets_of, parts_of, put_first, value_given,
};

/// Whether the octets are a name, by which the sign reads nothing.
fn is_free(agent: &Agent, name: &[u8]) -> bool
    ensures { result ≡ is_free agent.now name.now }
{
    match name_given(name) {
        Some(name) => agent.own_value(&name).is_none(),
        None => false,
    }
}

/// Why there is no object.
enum NoObject {
    /// Something is wrong with what was given.
    Wrong,
    /// There is no memory for it.
    Memory,
}

/// The object with this name, value and access.
fn made(
    alloc: Global,
    name: &[u8],
    value: Option<Value<'_>>,
    access: Option<ManagerAccess>,
) -> Result<PublishedObject, NoObject>
    ensures made { IfOk result (λ object.
        object_given name.now (option_map object_value value.entry) access ≡ Some object) }
    ensures wrong { IfErr result (λ fault. fault ≡ NoObject.Wrong
        → object_given name.now (option_map object_value value.entry) access ≡ None) }
    ensures memory { IfErr result (λ fault. fault ≡ NoObject.Memory
        → IsSome (object_given name.now (option_map object_value value.entry) access)) }
{
    let Some(value) = value else {
        return Err(NoObject::Wrong);
    };
    let Some(access) = access else {
        return Err(NoObject::Wrong);
    };
    match PublishedObject::new(alloc, name, &value, access) {
        Ok(object) => Ok(object),
        Err(ObjectFault::OutOfMemory) => Err(NoObject::Memory),
        Err(_) => Err(NoObject::Wrong),
    }
}

/// Publishes an object, unless its name is the sign's.
fn published(sign: &mut Watched, object: PublishedObject) -> u32
    ensures answer { result ≡ unless_memory result no_memory
        (if is_some (own_value sign.old.agent object.name) then at_fault else done) }
    ensures after { sign.new ≡ record sign.old {
      agent = unless_memory result sign.old.agent
          (if is_some (own_value sign.old.agent object.name) then sign.old.agent
          else record sign.old.agent { device = published sign.old.agent.device object });
    } }
{
    match sign.publish(object) {
        Ok(()) => DONE,
        Err(PublishFault::OfTheSign) => AT_FAULT,
        Err(PublishFault::OutOfMemory) => NO_MEMORY,
    }
}

/// Publishes an object.
fn publish(
    alloc: Global,
    sign: &mut Watched,
    name: &[u8],
    value: Option<Value<'_>>,
    access: Option<ManagerAccess>,
) -> u32
    ensures answer { result ≡ unless_memory result no_memory (publish_answer sign.old.agent name.now
        (object_given name.now (option_map object_value value.entry) access)) }
    ensures after { sign.new ≡ record sign.old {
      agent = unless_memory result sign.old.agent
          (after_publish sign.old.agent name.now
          (object_given name.now (option_map object_value value.entry) access));
    } }
    ensures memory { result ≡ no_memory → publish_answer sign.old.agent name.now
        (object_given name.now (option_map object_value value.entry) access) ≡ done }
{
    if !is_free(sign.agent(), name) {
        return AT_FAULT;
    }
    match made(alloc, name, value, access) {
        Ok(object) => published(sign, object),
        Err(NoObject::Wrong) => OUT_OF_RANGE,
        Err(NoObject::Memory) => NO_MEMORY,
    }
}

/// Publishes an object beside the sign's, in place of the one that has its name: its name as content octets (X.690,
/// 8.19), its value by its parts or its octets, and what a manager may write.
#[unsafe(no_mangle)]
pub extern "C" fn wisangub_sign_publish_at(
    alloc: Global,
    sign: &mut SignHandle,
    name: &[u8],
    value: &ValueParts,
    octets: &[u8],
    access: &AccessParts,
) -> u32
    ensures answer { result ≡ unless_memory result no_memory (publish_answer sign.old.value.agent name.now
        (object_given name.now (value_given value.now octets.now) (access_given access.now))) }
    ensures after { sign.new.value ≡ record sign.old.value {
      agent = unless_memory result sign.old.value.agent
          (after_publish sign.old.value.agent name.now
          (object_given name.now (value_given value.now octets.now) (access_given access.now)));
    } }
    ensures memory { result ≡ no_memory → publish_answer sign.old.value.agent name.now
        (object_given name.now (value_given value.now octets.now) (access_given access.now)) ≡ done }
{
    let value = value_given(value, octets);
    let access = access_given(access);
    publish(alloc, sign.as_mut(), name, value, access)
}

/// Withdraws the object of a name that is published.
#[unsafe(no_mangle)]
pub extern "C" fn wisangub_sign_withdraw_at(sign: &mut SignHandle, name: &[u8]) -> u32
    ensures answer { result ≡ withdraw_answer sign.old.value.agent.device (name_given name.now) }
    ensures after { sign.new.value ≡ record sign.old.value {
      agent = after_withdraw sign.old.value.agent (name_given name.now);
    } }
{
    let sign = sign.as_mut();
    let Some(name) = name_given(name) else {
        return AT_FAULT;
    };
    if sign.agent().device().value(&name).is_none() {
        return AT_FAULT;
    }
    sign.withdraw(&name);
    DONE
}

/// From here on the objects of the sign's fonts can be read, unless an object is published already.
#[unsafe(no_mangle)]
pub extern "C" fn wisangub_sign_show_fonts_at(sign: &mut SignHandle) -> u32
    ensures answer { result ≡ fonts_answer sign.old.value.agent }
    ensures after { sign.new.value ≡ record sign.old.value { agent = showing_fonts sign.old.value.agent } }
{
    let are_shown = sign.as_mut().show_fonts();
    if are_shown { DONE } else { AT_FAULT }
}

/// Gives a value, where there is room for its octets.
fn give_value(found: &Value<'_>, value: &mut ValueParts, octets: &mut [u8], size: &mut usize) -> u32
    ensures answer { result ≡ given_answer (octets_of (object_value found.now)) (length octets.old) }
    ensures value { value.new ≡ read_parts (Some (object_value found.now)) (length octets.old) value.old }
    ensures octets { octets.new ≡ given_buffer (octets_of (object_value found.now)) octets.old }
    ensures size { size.new ≡ length (octets_of (object_value found.now)) }
{
    let answer = give(octets_of(found), octets, size);
    if answer == DONE {
        *value = parts_of(found);
    }
    answer
}

/// What a name reads, of the sign's objects and those that are published.
fn read(
    agent: &Agent,
    name: &[u8],
    value: &mut ValueParts,
    octets: &mut [u8],
    size: &mut usize,
) -> u32
    ensures answer { result ≡ read_answer (value_read agent.now (name_given name.now)) (length octets.old) }
    ensures value { value.new ≡ read_parts (value_read agent.now (name_given name.now)) (length octets.old) value.old }
    ensures octets { octets.new ≡ read_buffer (value_read agent.now (name_given name.now)) octets.old }
    ensures size { size.new ≡ read_size (value_read agent.now (name_given name.now)) size.old }
{
    let Some(name) = name_given(name) else {
        return AT_FAULT;
    };
    match agent.value(&name) {
        Some(found) => give_value(&found, value, octets, size),
        None => AT_FAULT,
    }
}

/// What a name reads, of the sign's objects and those that are published, as a Get of it would answer.
#[unsafe(no_mangle)]
pub extern "C" fn wisangub_sign_object_at(
    sign: &mut SignHandle,
    name: &[u8],
    value: &mut ValueParts,
    octets: &mut [u8],
    size: &mut usize,
) -> u32
    ensures same { sign.new.value ≡ sign.old.value }
    ensures answer { result ≡ read_answer (value_read sign.old.value.agent (name_given name.now)) (length octets.old) }
    ensures value { value.new
        ≡ read_parts (value_read sign.old.value.agent (name_given name.now)) (length octets.old) value.old }
    ensures octets { octets.new ≡ read_buffer (value_read sign.old.value.agent (name_given name.now)) octets.old }
    ensures size { size.new ≡ read_size (value_read sign.old.value.agent (name_given name.now)) size.old }
{
    read(sign.as_mut().agent(), name, value, octets, size)
}

/// Gives the name and the value of a binding, where there is room for both.
fn give_binding(
    bind: &Bind<'_>,
    name: &mut [u8],
    name_size: &mut usize,
    value: &mut ValueParts,
    octets: &mut [u8],
    size: &mut usize,
) -> u32
    ensures answer { result ≡ taken_answer (Some (var_bind bind.now)) (length name.old) (length octets.old) }
    ensures name { name.new ≡ taken_name (Some (var_bind bind.now)) (length octets.old) name.old }
    ensures name_size { name_size.new ≡ taken_name_size (Some (var_bind bind.now)) }
    ensures value { value.new
        ≡ taken_parts (Some (var_bind bind.now)) (length name.old) (length octets.old) value.old }
    ensures octets { octets.new ≡ taken_octets (Some (var_bind bind.now)) (length name.old) octets.old }
    ensures size { size.new ≡ taken_size (Some (var_bind bind.now)) }
{
    let spelled = bind.name.content();
    let content = octets_of(&bind.value);
    *name_size = spelled.len();
    *size = content.len();
    if spelled.len() <= name.len() && content.len() <= octets.len() {
        put_first(spelled, name);
        put_first(content, octets);
        *value = parts_of(&bind.value);
        DONE
    } else {
        TOO_SMALL
    }
}

/// Gives the first object that a manager set and of which firmware was not told.
fn give_set(
    device: &Device,
    name: &mut [u8],
    name_size: &mut usize,
    value: &mut ValueParts,
    octets: &mut [u8],
    size: &mut usize,
) -> u32
    ensures answer { result ≡ taken_answer (next_set device.now) (length name.old) (length octets.old) }
    ensures name { name.new ≡ taken_name (next_set device.now) (length octets.old) name.old }
    ensures name_size { name_size.new ≡ taken_name_size (next_set device.now) }
    ensures value { value.new ≡ taken_parts (next_set device.now) (length name.old) (length octets.old) value.old }
    ensures octets { octets.new ≡ taken_octets (next_set device.now) (length name.old) octets.old }
    ensures size { size.new ≡ taken_size (next_set device.now) }
{
    match device.first_set() {
        Some(bind) => give_binding(&bind, name, name_size, value, octets, size),
        None => {
            *name_size = 0;
            *size = 0;
            NOTHING_SENT
        }
    }
}

/// Hands out what a manager set first, by the order of names, of what firmware was not told, and notes that it was.
#[unsafe(no_mangle)]
pub extern "C" fn wisangub_sign_taken_at(
    sign: &mut SignHandle,
    name: &mut [u8],
    name_size: &mut usize,
    value: &mut ValueParts,
    octets: &mut [u8],
    size: &mut usize,
) -> u32
    ensures answer { result
        ≡ taken_answer (next_set sign.old.value.agent.device) (length name.old) (length octets.old) }
    ensures after { sign.new.value ≡ record sign.old.value { agent = after_taken sign.old.value.agent result } }
    ensures name { name.new ≡ taken_name (next_set sign.old.value.agent.device) (length octets.old) name.old }
    ensures name_size { name_size.new ≡ taken_name_size (next_set sign.old.value.agent.device) }
    ensures value { value.new
        ≡ taken_parts (next_set sign.old.value.agent.device) (length name.old) (length octets.old) value.old }
    ensures octets { octets.new ≡ taken_octets (next_set sign.old.value.agent.device) (length name.old) octets.old }
    ensures size { size.new ≡ taken_size (next_set sign.old.value.agent.device) }
{
    let sign = sign.as_mut();
    let answer = give_set(sign.agent().device(), name, name_size, value, octets, size);
    if answer == DONE {
        sign.tell_first();
    }
    answer
}
