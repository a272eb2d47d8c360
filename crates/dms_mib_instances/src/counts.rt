//! The instances that a sign has by how many rows it has: no list of them is made. Which one a name names, and which
//! comes next, follows from where the octets of the name first differ from those of names that there are; nothing is
//! searched for.

ghost use Rattle.std.specs.Prelude.{◌≡◌, ◌≤◌, ◌<◌, ◌+◌, ◌==◌, ◌&&◌, ◌∷◌, [], ℕ, List, length};
ghost use Rattle.std.specs.Prelude.{true, false, IfSome, IfNone};
ghost use Rattle.std.specs.List.{find};
ghost use Rattle.dms_codes.specs.Memory.{memory_number};
ghost use Rattle.dms_codes.specs.declared.row_id.RowId.{RowId};
ghost use Rattle.dms_table.specs.Rows.{TableModel};
ghost use Rattle.dms_mib.specs.Names.{below_dms, cell_name, column_number};
ghost use Rattle.dms_mib_instances.specs.Objects.{every_memory, instance_named, next_instance, IsInstance};
ghost use Rattle.dms_mib_instances.specs.Places.{HasCounts, AreOctets, IsRow, IsFirstRow};
ghost use Rattle.dms_mib_instances.specs.Places.{last_number, is_past, row_place};
ghost use Rattle.dms_mib_instances.specs.NameReading.{octets_below};

use crate::names::{comes_before_dms, known_below_dms, known_by_octets};
use crate::octets::{
    self, column_of, first_octet, last_object, number_after, row_number, scalar_of,
};
use dms_codes::{Memory, RowId, memory};
use dms_mib::{Column, Instance, Scalar};
use dms_table::Table;
use dms_wire_ber::{Oid, below_dms};

/// The types of memory, in the order of their numbers.
const EVERY_MEMORY: [Memory; 5] = [
    Memory::Permanent,
    Memory::Changeable,
    Memory::Volatile,
    Memory::CurrentBuffer,
    Memory::Blank,
];

/// How many rows a sign has of each type of memory that it stores. They say which instances it has.
#[derive(Clone, Copy, Debug, PartialEq, Eq)]
pub struct Counts {
    /// Permanent rows.
    pub permanent: u8,
    /// Changeable rows.
    pub changeable: u8,
    /// Volatile rows.
    pub volatile: u8,
}

impl Counts {
    /// Those of a table, which must have at most 255 rows of each type of memory.
    pub fn of(table: &Table) -> Counts
        requires permanent { length table.now.permanent ≤ 255 }
        requires changeable { length table.now.changeable ≤ 255 }
        requires volatile { length table.now.volatile ≤ 255 }
        ensures { HasCounts table.now result }
    {
        Counts {
            permanent: table.row_count(memory::PERMANENT) as u8,
            changeable: table.row_count(memory::CHANGEABLE) as u8,
            volatile: table.row_count(memory::VOLATILE) as u8,
        }
    }

    /// The instance of this name, where a table of as many rows has it: its octets say which.
    #[inline(always)]
    pub fn named(&self, name: &Oid<'_>) -> Option<Instance>
        ensures { (table : TableModel) → HasCounts table self.now → result ≡ instance_named table name.now }
    {
        are_octets(self.permanent, self.changeable, self.volatile);
        let instance = octets::instance(name.content())?;
        known_by_octets(name, instance);
        if self.has(instance) {
            Some(instance)
        } else {
            None
        }
    }

    /// Whether a table of as many rows has the instance.
    fn has(&self, instance: Instance) -> bool
        ensures is { result ≡ true → (table : TableModel) → HasCounts table self.now → IsInstance table instance }
        ensures each { (table : TableModel) → HasCounts table self.now → IsInstance table instance → result ≡ true }
    {
        match instance {
            Instance::Scalar(_) => true,
            Instance::Cell(_, row) => self.has_row(row),
        }
    }

    /// Whether there is the row.
    fn has_row(&self, row: RowId) -> bool
        ensures is { result ≡ true → IsRow self.now row }
        ensures each { IsRow self.now row → result ≡ true }
        ensures past { result ≡ false → 1 ≤ row.number → (other : RowId) → IsRow self.now other
            → other.memory ≡ row.memory → other.number < row.number }
    {
        let last = match row.memory() {
            Some(memory) => self.last_number(memory),
            None => 0,
        };
        1 <= row.number && row.number <= last
    }

    /// The last number of a row of a type of memory, or 0 where it has no row.
    fn last_number(&self, memory: Memory) -> u16
        ensures { result ≡ last_number self.now memory }
    {
        match memory {
            Memory::Permanent => u16::from(self.permanent),
            Memory::Changeable => u16::from(self.changeable),
            Memory::Volatile => u16::from(self.volatile),
            Memory::CurrentBuffer => 1,
            Memory::Blank => 255,
        }
    }

    /// The first instance after this name, where a table of as many rows has one (RFC 1157, 4.1.3).
    pub fn next(&self, name: &Oid<'_>) -> Option<Instance>
        ensures { (table : TableModel) → HasCounts table self.now → result ≡ next_instance table name.now }
    {
        match below_dms(name.content()) {
            Some(octets) => {
                known_below_dms(name, octets);
                self.next_below(octets)
            }
            None => {
                if comes_before_dms(name) {
                    self.first()
                } else {
                    None
                }
            }
        }
    }

    /// The first instance after the name whose numbers below dms have these octets.
    #[inline]
    fn next_below(&self, octets: &[u8]) -> Option<Instance>
        ensures { (numbers : List ℕ) → octets_below numbers ≡ octets.now → (table : TableModel)
            → HasCounts table self.now → result ≡ next_instance table (below_dms numbers) }
    {
        match first_octet(octets) {
            Some((group, rest)) => self.next_in_group(group, rest),
            None => self.first(),
        }
    }

    /// The first instance after a name below the group of this first octet, or of a number of 128 or more, which no
    /// group has.
    #[inline]
    fn next_in_group(&self, group: u8, octets: &[u8]) -> Option<Instance>
        ensures { (numbers : List ℕ) → octets_below numbers ≡ group ∷ octets.now → (table : TableModel)
            → HasCounts table self.now → result ≡ next_instance table (below_dms numbers) }
    {
        match first_octet(octets) {
            Some((number, rest)) => self.next_in_object(group, number, rest),
            None => self.from_object(group, 0),
        }
    }

    /// The first instance after a name below the object of this number in the group.
    #[inline]
    fn next_in_object(&self, group: u8, number: u8, octets: &[u8]) -> Option<Instance>
        ensures { (numbers : List ℕ) → octets_below numbers ≡ group ∷ number ∷ octets.now → (table : TableModel)
            → HasCounts table self.now → result ≡ next_instance table (below_dms numbers) }
    {
        if is_table(group, number) {
            return self.next_in_table(octets);
        }
        match first_octet(octets) {
            Some(_) => self.from_object(group, number_after(number)),
            None => self.from_object(group, number),
        }
    }

    /// The first instance after a name below dmsMessageTable, 5.8.
    #[inline]
    fn next_in_table(&self, octets: &[u8]) -> Option<Instance>
        ensures { (numbers : List ℕ) → octets_below numbers ≡ octets.now → (table : TableModel)
            → HasCounts table self.now → result ≡ next_instance table (below_dms (5 ∷ 8 ∷ numbers)) }
    {
        match first_octet(octets) {
            Some((entry, rest)) => {
                if entry == 1 {
                    self.next_in_entry(rest)
                } else if entry == 0 {
                    self.from_object(5, 8)
                } else {
                    self.from_object(5, 9)
                }
            }
            None => self.from_object(5, 8),
        }
    }

    /// The first instance after a name below dmsMessageEntry, 5.8.1.
    #[inline]
    fn next_in_entry(&self, octets: &[u8]) -> Option<Instance>
        ensures { (numbers : List ℕ) → octets_below numbers ≡ octets.now → (table : TableModel)
            → HasCounts table self.now → result ≡ next_instance table (below_dms (5 ∷ 8 ∷ 1 ∷ numbers)) }
    {
        let Some((number, rest)) = first_octet(octets) else {
            return self.from_object(5, 8);
        };
        match column_of(number) {
            Some(column) => self.next_in_column(column, rest),
            None => {
                if number == 0 {
                    self.from_object(5, 8)
                } else {
                    self.from_object(5, 9)
                }
            }
        }
    }

    /// The first instance after a name below a column of it.
    #[inline]
    fn next_in_column(&self, column: Column, octets: &[u8]) -> Option<Instance>
        ensures { (numbers : List ℕ) → octets_below numbers ≡ octets.now
            → (table : TableModel) → HasCounts table self.now
            → result ≡ next_instance table (below_dms (5 ∷ 8 ∷ 1 ∷ column_number column ∷ numbers)) }
    {
        are_octets(self.permanent, self.changeable, self.volatile);
        match first_octet(octets) {
            Some((memory, rest)) => self.after_cell(column, memory, row_number(rest)),
            None => self.after_cell(column, 0, 0),
        }
    }

    /// The first instance after the name of this cell, whether there is such a row or not.
    #[inline]
    fn after_cell(&self, column: Column, memory: u8, number: u8) -> Option<Instance>
        ensures { (table : TableModel) → HasCounts table self.now
            → result ≡ next_instance table (cell_name column (record { memory = memory; number = number })) }
    {
        are_octets(self.permanent, self.changeable, self.volatile);
        match self.row_after(memory, number) {
            Some(row) => Some(Instance::Cell(column, row)),
            None => self.after_column(column),
        }
    }

    /// The first instance after those of a column.
    fn after_column(&self, column: Column) -> Option<Instance>
        ensures { (table : TableModel) → HasCounts table self.now
            → result ≡ next_instance table (below_dms (5 ∷ 8 ∷ 1 ∷ (column_number column + 1) ∷ [])) }
    {
        match column_of(column.number() + 1) {
            Some(column) => self.first_of(column),
            None => self.from_object(5, 9),
        }
    }

    /// The first instance of a column.
    fn first_of(&self, column: Column) -> Option<Instance>
        ensures { (table : TableModel) → HasCounts table self.now
            → result ≡ next_instance table (below_dms (5 ∷ 8 ∷ 1 ∷ column_number column ∷ [])) }
    {
        are_octets(self.permanent, self.changeable, self.volatile);
        let row = self.row_past(0)?;
        Some(Instance::Cell(column, row))
    }

    /// The first row after this type of memory and number.
    #[inline]
    fn row_after(&self, memory: u8, number: u8) -> Option<RowId>
        ensures some { IfSome result (λ row. IsFirstRow self.now (row_place memory number) row) }
        ensures none { IfNone result
            ((row : RowId) → IsRow self.now row → row_place row.memory row.number ≤ row_place memory number) }
    {
        are_octets(self.permanent, self.changeable, self.volatile);
        let number = u16::from(number) + 1;
        let next = RowId { memory, number };
        if self.has_row(next) {
            Some(next)
        } else {
            self.row_past(memory)
        }
    }

    /// The first row of a type of memory above this number.
    fn row_past(&self, number: u8) -> Option<RowId>
        ensures some { IfSome result (λ row. IsFirstRow self.now (row_place number 255) row) }
        ensures none { IfNone result ((row : RowId) → IsRow self.now row → row.memory ≤ number) }
    {
        are_octets(self.permanent, self.changeable, self.volatile);
        let memory = self.memory_past(number)?;
        Some(first_row(memory))
    }

    /// The first type of memory that is above this number and has a row.
    #[inline]
    fn memory_past(&self, number: u8) -> Option<Memory>
        ensures { result ≡ find (is_past self.now number) every_memory }
    {
        for memory in EVERY_MEMORY {
            if self.is_past(memory, number) {
                return Some(memory);
            }
        }
        None
    }

    /// Whether the type of memory is above this number and has a row.
    #[inline]
    fn is_past(&self, memory: Memory, number: u8) -> bool
        ensures { result ≡ is_past self.now number memory }
    {
        number < memory.number() && self.last_number(memory) != 0
    }

    /// The first instance of all.
    #[inline]
    fn first(&self) -> Option<Instance>
        ensures { (table : TableModel) → HasCounts table self.now
            → result ≡ next_instance table (below_dms (0 ∷ 0 ∷ [])) }
    {
        Some(Instance::Scalar(Scalar::SignHeightPixels))
    }

    /// The first instance of an object, or of the table, that does not come before this group and number: at most six
    /// pairs of numbers are looked at.
    fn from_object(&self, group: u8, number: u8) -> Option<Instance>
        ensures { (table : TableModel) → HasCounts table self.now
            → result ≡ next_instance table (below_dms (group ∷ number ∷ [])) }
    {
        let mut group = group;
        let mut number = number;
        while group <= 6 {
            if is_table(group, number) {
                return self.first_of(Column::MemoryType);
            }
            if let Some(object) = scalar_of(group, number) {
                return Some(Instance::Scalar(object));
            }
            if number < last_object(group) {
                number += 1;
            } else {
                group += 1;
                number = 0;
            }
        }
        None
    }
}

/// The first row of a type of memory.
fn first_row(memory: Memory) -> RowId
    ensures { result ≡ record { memory = memory_number memory; number = 1 } }
{
    RowId {
        memory: memory.number(),
        number: 1,
    }
}

/// The numbers of rows are below 256: for the proof alone, nothing runs.
#[inline]
fn are_octets(permanent: u8, changeable: u8, volatile: u8)
    ensures { AreOctets (record { permanent = permanent; changeable = changeable; volatile = volatile }) }
{}

/// Whether these are the numbers of dmsMessageTable below dms.
#[inline]
fn is_table(group: u8, number: u8) -> bool
    ensures { result ≡ ((group == 5) && (number == 8)) }
{
    group == 5 && number == 8
}
