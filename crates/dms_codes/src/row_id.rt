//! What a row of the message table is named by.

ghost use Rattle.std.specs.Prelude.{◌≡◌};
ghost use Rattle.dms_codes.specs.Memory.{memory_of};

use crate::memory::Memory;

/// Names a row: the index of dmsMessageTable (NTCIP 1203).
#[derive(Clone, Copy, Debug, PartialEq, Eq)]
pub struct RowId {
    /// The type of its memory: the numbers of `memory`.
    pub memory: u8,
    /// Its number in that memory, from 1.
    pub number: u16,
}

impl RowId {
    /// The type of its memory; none where its number is no type of memory.
    pub fn memory(&self) -> Option<Memory>
        ensures { result ≡ memory_of self.now.memory }
    {
        Memory::of(self.memory)
    }
}
