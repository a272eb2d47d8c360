//! The row of the message table that a call names.

ghost use Rattle.std.specs.Prelude.{◌≡◌, ◌≤◌, IfSome, IfNone};

/// A row of the message table that has a text of its own, by its memory and its number.
#[derive(Clone, Copy, Debug, PartialEq, Eq)]
pub struct TableRow {
    /// The type of its memory: 2 permanent, 3 changeable, 4 volatile.
    pub memory: u8,
    /// Its number, from 1.
    pub number: u16,
    ghost memory_in_range: { (2 ≤ memory) × (memory ≤ 4) },
    ghost number_in_range: { (1 ≤ number) × (number ≤ 65535) },
}

impl TableRow {
    /// The row of these numbers, where a table can have one.
    pub fn of(memory: u8, number: u16) -> Option<TableRow>
        ensures row { IfSome result (λ row. (row.memory ≡ memory) × (row.number ≡ number)) }
        ensures none { IfNone result (2 ≤ memory → memory ≤ 4 → 1 ≤ number → ⊥) }
    {
        if memory < 2 || 4 < memory || number == 0 {
            return None;
        }
        Some(TableRow { memory, number })
    }
}
