//! The names that the bindings of a SET gave so far, each marked in its slot: so a name is not compared with every
//! earlier one.

ghost use Rattle.std.specs.Prelude.{◌≡◌, ◌≢◌, ◌<◌, ◌++◌, ℕ, List, [], ◌∷◌, take};
ghost use Rattle.dms_wire.specs.Message.{VarBind};
ghost use Rattle.dms_sign_access.specs.MetNames.{is_among};
ghost use Rattle.dms_sign_access.specs.Slots.{content_slot, slot_of, is_taken, AreTaken};

use dms_wire::{Binds, Oid};

/// How many slots there are: about two for each of the 498 names that can be set where a sign has its most rows, 64
/// changeable and 16 volatile.
const SLOTS: usize = 1024;

/// What the last octet but two of a name is multiplied by to give its slot: a group or a column. With `OBJECT_FACTOR`
/// it is the first pair of numbers, tried from 0 and 0 upwards, by which no two of those names share a slot.
const GROUP_FACTOR: usize = 108;

/// What the last octet but one is multiplied by: an object, or a type of memory.
const OBJECT_FACTOR: usize = 305;

/// A bit for each slot.
pub type Slots = [u64; SLOTS / 64];

/// Whether the name is that of one of the first `count` bindings, whose names must have their slots taken: they
/// are looked at only where its slot is.
pub fn was_given(slots: &Slots, name: &Oid<'_>, before: &Binds<'_>, count: u32) -> bool
    requires { AreTaken slots.now (take count before.now) }
    ensures { result ≡ is_among name.now (take count before.now) }
{
    is_taken(slots, name) && is_among(name, before.again(), count)
}

/// The name is that of one of the first `count` bindings.
fn is_among(name: &Oid<'_>, binds: Binds<'_>, count: u32) -> bool
    ensures { result ≡ is_among name.now (take count binds.entry) }
{
    let mut rest = binds;
    let mut left = count;
    while left > 0 {
        match rest.next() {
            None => return false,
            Some(binding) => {
                if binding.name == *name {
                    return true;
                }
            }
        }
        left -= 1;
    }
    false
}

/// The slot of a name with these content octets. No two names that can be set share a slot; other names may.
#[tactic(auto, unfolding(crate::specs::Slots::content_slot))]
fn content_slot(content: &[u8]) -> usize
    ensures slot { result ≡ content_slot content.now }
    ensures few { result < 1024 }
{
    let size = content.len();
    if size < 3 {
        return 0;
    }
    let group = usize::from(content[size - 3]);
    let object = usize::from(content[size - 2]);
    let number = usize::from(content[size - 1]);
    (group * GROUP_FACTOR + object * OBJECT_FACTOR + number) % SLOTS
}

/// Whether the slot of a name is marked.
fn is_taken(slots: &Slots, name: &Oid<'_>) -> bool
    ensures { result ≡ is_taken slots.now (slot_of name.now) }
{
    let slot = content_slot(name.content());
    (slots[slot / 64] >> (slot % 64)) & 1 == 1
}

/// Marks the slot of a binding's name, and no other.
pub fn mark_name(slots: &mut Slots, name: &Oid<'_>)
    ensures taken { (bindings : List VarBind) (binding : VarBind) → binding.name ≡ name.now
        → AreTaken slots.old bindings → AreTaken slots.new (bindings ++ binding ∷ []) }
    ensures others { (slot : ℕ) → slot ≢ slot_of name.now → is_taken slots.new slot ≡ is_taken slots.old slot }
{
    let slot = content_slot(name.content());
    slots[slot / 64] |= 1 << (slot % 64);
}
