//! The message that a code names.

ghost use Rattle.std.specs.Prelude.{◌≡◌, ◌≤◌, IfSome, IfNone};

/// A message as a code names it beside its checksum, by its memory and its number. Whether a sign has it is not asked.
#[derive(Clone, Copy, Debug, PartialEq, Eq)]
pub struct MessageName {
    /// The type of its memory: 2 permanent, 3 changeable, 4 volatile, 5 what is shown, 7 blank.
    pub memory: u8,
    /// Its number, from 1.
    pub number: u16,
    ghost memory_in_range: { (2 ≤ memory) × (memory ≤ 7) },
    ghost memory_not_between: { memory ≡ 6 → ⊥ },
    ghost number_in_range: { (1 ≤ number) × (number ≤ 65535) },
}

impl MessageName {
    /// The message of these numbers, where a code can name one.
    pub fn of(memory: u8, number: u16) -> Option<MessageName>
        ensures name { IfSome result (λ name. (name.memory ≡ memory) × (name.number ≡ number)) }
        ensures none { IfNone result (2 ≤ memory → memory ≤ 7 → (memory ≡ 6 → ⊥) → 1 ≤ number → ⊥) }
    {
        if memory < 2 || memory == 6 || 7 < memory || number == 0 {
            return None;
        }
        Some(MessageName { memory, number })
    }
}
