//! The rows that can be changed.

ghost use Rattle.std.specs.Prelude.{◌≡◌};
ghost use Rattle.std.specs.Borrow.{sem};
ghost use Rattle.dms_table.specs.PlaceView.{writable, of_type};
ghost use Rattle.dms_table.specs.WritableView.{LendsRows};

use crate::table::CountedRows;
use dms_codes::Memory;

/// A type of memory whose rows can be changed.
#[derive(Clone, Copy, Debug, PartialEq, Eq)]
pub enum Writable {
    /// Rows that are kept over a loss of power.
    Changeable,
    /// Rows that a loss of power empties.
    Volatile,
}

/// Where a row stands that can be changed.
#[derive(Clone, Copy, Debug, PartialEq, Eq)]
pub struct RowPlace {
    /// The type of its memory.
    pub memory: Writable,
    /// Its index among the rows of that memory: that of number 1 stands at 0.
    pub index: usize,
}

/// The rows that can be changed, by their type of memory.
#[derive(Drop)]
pub(crate) struct WritableRows {
    pub changeable: CountedRows,
    pub volatile: CountedRows,
}

impl Writable {
    /// The type of memory of a number, where its rows can be changed.
    pub fn of(number: u8) -> Option<Writable>
        ensures { result ≡ writable number }
    {
        match Memory::of(number) {
            Some(Memory::Changeable) => Some(Writable::Changeable),
            Some(Memory::Volatile) => Some(Writable::Volatile),
            _ => None,
        }
    }
}

impl WritableRows {
    /// The rows of a type of memory, to be changed.
    pub(crate) fn of_mut(&mut self, memory: Writable) -> &mut CountedRows
        ensures* writes_back { sem 𝓛 (LendsRows self.entry memory result) }
        ensures value { result.now ≡ of_type memory self.old.changeable self.old.volatile }
    {
        match memory {
            Writable::Changeable => &mut self.changeable,
            Writable::Volatile => &mut self.volatile,
        }
    }
}
