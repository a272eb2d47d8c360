//! The message table.

ghost use Rattle.std.specs.Prelude.{◌≡◌, ◌⊎◌, ◌<◌, ◌+◌, IfNone, map, find, All, IsTrue, IfOk, IfErr, OnOk, OnErr};
ghost use Rattle.std.specs.Prelude.{Some, None, IfSome, option_map, is_some, replicate};
ghost use Rattle.std.specs.Option.{option_copied};
ghost use Rattle.dms_table.specs.Rows.{unused, row_is_validating, rows_of, numbered, row_read, valid_count};
ghost use Rattle.dms_table.specs.Rows.{unused_count, row_count, is_settling, may_ask, changed, changed_in, asked_row};
ghost use Rattle.dms_table.specs.Rows.{asked, written_row, written, interrupted, released, after_power, IsTable};
ghost use Rattle.dms_table.specs.RowsView.{field_of, reading_of, IsShort};
ghost use Rattle.dms_codes.specs.declared.row_id.RowId.{RowId};
ghost use Rattle.dms_codes.specs.declared.status.Ask.{Ask};
ghost use Rattle.dms_codes.specs.Status.{is_validate};
ghost use Rattle.dms_table.specs.CountsView.{valid_among};
ghost use Rattle.dms_face.specs.Face.{fit};
ghost use Rattle.dms_face.specs.Layout.{under};
ghost use Rattle.dms_table.specs.Validation.{settled, verdict, ValidRowsAreGood};
ghost use Rattle.dms_table.specs.SavedRows.{row_saved, put_over, place_fault, may_put, row_fault};
ghost use Rattle.dms_table.specs.SavedRows.{AreEmptyWhereUnused};
ghost use Rattle.dms_table.specs.TableView.{FitsARow};
ghost use Rattle.dms_table.specs.PlaceView.{IsOnly, IsPlaced, validating_if};
ghost use Rattle.dms_table.specs.ValidatorView.{settled_by, verdict_by, IsJudged};
ghost use Rattle.dms_table.specs.Stock.{permanent_row, has_ranges, stock_fault, table_of, IsFirstFault};
ghost use Rattle.dms_table.specs.Stock.{PermanentRowsAreGood, HasOctets};

use crate::row::{Field, Refused, Row, RowView, Services};
use crate::saved_row::{RowFault, SavedRow};
use crate::stock::{Stock, TableFault, permanent_rows};
use crate::validation::{Validator, Verdict};
use crate::writable::{RowPlace, Writable, WritableRows};
use dms_codes::{Ask, Memory, Order, RowId, Status, memory};
use dms_face::{Defaults, Face};
use std::alloc::{AllocError, Global};
use std::marker::Model;

/// The rows of a sign.
#[derive(Drop)]
pub struct Table {
    permanent: Vec<Row>,
    writable: WritableRows,
    services: Services,
    order: Order,
    /// The row that is being validated.
    validating: Option<RowPlace>,
}

impl Model for Table {
    ghost use Rattle.dms_table.specs.Rows.{TableModel};
    ghost use Rattle.dms_table.specs.TableView.{IsTableKept};

    ghost Value = { TableModel };

    ghost view = { λ t. record {
      permanent = t.permanent.items;
      changeable = t.writable.changeable;
      volatile = t.writable.volatile;
      services = t.services;
      order = t.order;
    } };

    ghost invariant = { λ t. IsTableKept t.validating t.writable.changeable t.writable.volatile };
}

impl Table {
    /// The table of a stock, or the first thing that is wrong with it; it runs out of memory only where nothing is.
    pub fn new(alloc: Global, stock: Stock<'_>, face: &Face) -> Result<Table, TableFault>
        ensures made { IfOk result (λ table. table ≡ table_of stock.entry) }
        ensures faultless { OnOk result (stock_fault face.now stock.entry ≡ None) }
        ensures good { IfOk result (λ table. PermanentRowsAreGood face.now table) }
        ensures octets { IfOk result (λ table. All HasOctets table.permanent) }
        ensures fault { IfErr result (λ fault. IsFirstFault (stock_fault face.now stock.entry) fault) }
    {
        if let Some(fault) = stock.fault(face) {
            return Err(fault);
        }
        match Table::of_stock(alloc, &stock) {
            Ok(table) => Ok(table),
            Err(_) => Err(TableFault::Memory),
        }
    }

    fn of_stock(alloc: Global, stock: &Stock<'_>) -> Result<Table, AllocError>
        requires { All (λ message. IsTrue (has_ranges (permanent_row message))) stock.now.permanent.now }
        ensures made { IfOk result (λ table. table ≡ table_of stock.now) }
        ensures octets { IfOk result (λ table. All HasOctets table.permanent) }
    {
        Ok(Table {
            permanent: permanent_rows(alloc, stock.permanent)?,
            writable: WritableRows {
                changeable: CountedRows::unused(alloc, stock.changeable)?,
                volatile: CountedRows::unused(alloc, stock.volatile)?,
            },
            services: stock.services(),
            order: stock.order,
            validating: None,
        })
    }

    /// The order of the octets of a checksum in the codes of the sign.
    pub fn order(&self) -> Order
        ensures { result ≡ self.now.order }
    {
        self.order
    }

    /// What the sign has.
    pub fn services(&self) -> Services
        ensures { result ≡ self.now.services }
    {
        self.services
    }

    /// What holds of every table, by its type.
    pub(crate) fn limits(&self)
        ensures one { IsTable self.now }
        ensures changeable { AreEmptyWhereUnused self.now.changeable }
        ensures volatile { AreEmptyWhereUnused self.now.volatile }
    {
        let _ = &self.writable;
    }

    /// A row as it is read; blank messages are rows too.
    pub fn row(&self, id: RowId) -> Option<RowView<'_>>
        ensures read { option_map reading_of result ≡ row_read self.now id }
        ensures short { IfSome result (λ view. IsShort view) }
    {
        if id.memory == memory::BLANK {
            return RowView::blank(id.number);
        }
        let row = numbered(self.rows(id.memory), id.number)?;
        Some(row.view())
    }

    /// How many rows of a type of memory are valid.
    pub fn valid_count(&self, kind: u8) -> usize
        ensures { result ≡ valid_count self.now kind }
    {
        match Memory::of(kind) {
            Some(Memory::Changeable) => self.writable.changeable.valid_count(),
            Some(Memory::Volatile) => self.writable.volatile.valid_count(),
            _ => self.rows(kind).iter().filter(|row| row.is_valid()).count(),
        }
    }

    /// How many rows of a type of memory are not used.
    pub fn unused_count(&self, kind: u8) -> usize
        ensures { result ≡ unused_count self.now kind }
    {
        self.rows(kind)
            .iter()
            .filter(|row| row.is_not_used())
            .count()
    }

    /// How many rows a type of memory has.
    pub fn row_count(&self, kind: u8) -> usize
        ensures { result ≡ row_count self.now kind }
    {
        self.rows(kind).len()
    }

    fn rows(&self, kind: u8) -> &[Row]
        ensures { result.now ≡ rows_of self.now kind }
    {
        match Memory::of(kind) {
            Some(Memory::Permanent) => self.permanent.as_slice(),
            Some(Memory::Changeable) => self.writable.changeable.as_slice(),
            Some(Memory::Volatile) => self.writable.volatile.as_slice(),
            _ => &[],
        }
    }

    /// Where the row stands that the next `settle` settles.
    pub fn settling(&self) -> Option<RowPlace>
        ensures { IsPlaced result self.now.changeable self.now.volatile }
    {
        self.validating
    }

    /// Whether a row is being validated.
    fn is_settling(&self) -> bool
        ensures { result ≡ is_settling self.now }
    {
        self.validating.is_some()
    }

    /// One row is validated at a time.
    fn may_ask(&self, ask: Ask) -> bool
        ensures { result ≡ may_ask self.now ask }
    {
        !is_validate(ask) || !self.is_settling()
    }

    /// Whether `ask` would take this now.
    pub fn takes(&self, id: RowId, ask: Ask) -> bool
        ensures { result ≡ is_some (asked self.now id ask) }
    {
        self.may_ask(ask)
            && Writable::of(id.memory).is_some()
            && takes_in(self.rows(id.memory), id.number, ask)
    }

    /// Asks a row for another status.
    pub fn ask(&mut self, id: RowId, ask: Ask) -> Result<(), Refused>
        ensures ok { OnOk result (asked self.old id ask ≡ Some self.new) }
        ensures refused { OnErr result (asked self.old id ask ≡ None) }
        ensures unchanged { OnErr result (self.new ≡ self.old) }
    {
        if !self.may_ask(ask) {
            return Err(Refused);
        }
        let Some(memory) = Writable::of(id.memory) else {
            return Err(Refused);
        };
        let index = self.writable.of_mut(memory).ask(id.number, ask)?;
        let place = RowPlace { memory, index };
        note_validating(&mut self.validating, is_validate(ask), place);
        Ok(())
    }

    /// Writes a field of a row that is being modified.
    pub fn write(&mut self, id: RowId, field: Field<'_>) -> Result<(), Refused>
        ensures ok { OnOk result (written self.old id (field_of field.entry) ≡ Some self.new) }
        ensures refused { OnErr result (written self.old id (field_of field.entry) ≡ None) }
        ensures unchanged { OnErr result (self.new ≡ self.old) }
    {
        match Writable::of(id.memory) {
            Some(memory) => self.writable.of_mut(memory).write(id.number, field),
            None => Err(Refused),
        }
    }

    /// One row is validated at a time.
    fn may_put(&self, status: Status) -> bool
        ensures { result ≡ may_put self.now status }
    {
        status != Status::Validating || !self.is_settling()
    }

    /// Puts a row of a saved state where one is that is not used.
    pub fn put_row(&mut self, id: RowId, row: &SavedRow<'_>) -> Result<(), RowFault>
        ensures ok { OnOk result (changed self.old id (put_over (row_saved row.now)) ≡ Some self.new) }
        ensures faultless { OnOk result (row_fault self.old id (row_saved row.now) ≡ None) }
        ensures fault { IfErr result (λ fault. row_fault self.old id (row_saved row.now) ≡ Some fault) }
        ensures unchanged { OnErr result (self.new ≡ self.old) }
    {
        if let Some(fault) = row.fault(self.services) {
            return Err(fault);
        }
        if !self.may_put(row.status) {
            return Err(RowFault::Validating);
        }
        let Some(memory) = Writable::of(id.memory) else {
            return Err(RowFault::Place);
        };
        let index = self.writable.of_mut(memory).put(id.number, row)?;
        let is_validating = row.status == Status::Validating;
        let place = RowPlace { memory, index };
        note_validating(&mut self.validating, is_validating, place);
        Ok(())
    }

    /// Ends a validation: its row becomes valid, or an error; no verdict without one. The defaults must fit the face.
    #[inline(always)]
    pub fn settle(&mut self, face: &Face, defaults: &Defaults) -> Option<Verdict>
        requires { IsTrue (fit face.now.fonts defaults.now) }
        ensures rows { self.new ≡ settled (under face.now defaults.now) self.old }
        ensures verdict { result ≡ verdict (under face.now defaults.now) self.old }
        ensures good { ValidRowsAreGood (under face.now defaults.now) self.old self.new }
    {
        let validator = Validator {
            services: self.services,
            face,
            defaults,
        };
        let place = self.validating?;
        self.validating = None;
        let rows = self.writable.of_mut(place.memory);
        let verdict = rows.settle(place.index, &validator);
        Some(verdict)
    }

    /// What a loss of power leaves: volatile rows are not used, and a validation has to be asked for again.
    pub fn after_power(&mut self)
        ensures { self.new ≡ after_power self.old }
    {
        self.writable.changeable.interrupt();
        self.writable.volatile.release();
        self.validating = None;
    }
}

fn is_validate(ask: Ask) -> bool
    ensures { result ≡ is_validate ask }
{
    ask == Ask::Validate
}

/// The row at a place may be the one that is being validated from now on.
fn note_validating(validating: &mut Option<RowPlace>, is_validating: bool, place: RowPlace)
    ensures { validating.new ≡ validating_if is_validating place validating.old }
{
    if is_validating {
        *validating = Some(place);
    }
}

/// The row of a number, from 1.
fn numbered(rows: &[Row], number: u16) -> Option<&Row>
    ensures { option_copied result ≡ numbered rows.now number }
{
    rows.get(index_of_number(number, rows.len())?)
}

/// The index of the row of a number, from 1, among so many.
fn index_of_number(number: u16, count: usize) -> Option<usize>
    ensures some { IfSome result (λ index. (index + 1 ≡ number) × (index < count)) }
    ensures none { IfNone result ((number ≡ 0) ⊎ (count < number)) }
{
    let index = usize::from(number).checked_sub(1)?;
    if index < count { Some(index) } else { None }
}

fn takes_in(rows: &[Row], number: u16, ask: Ask) -> bool
    ensures { result ≡ is_some (changed_in rows.now number (asked_row ask)) }
{
    match numbered(rows, number) {
        Some(row) => row.takes(ask),
        None => false,
    }
}

/// Rows that can be changed, at most 255. How many are valid is kept, since it is asked for more often than it changes.
#[derive(Drop)]
pub(crate) struct CountedRows {
    rows: Vec<Row>,
    valid: usize,
}

impl Model for CountedRows {
    ghost use Rattle.std.specs.Prelude.{List};
    ghost use Rattle.dms_table.specs.Rows.{RowModel};
    ghost use Rattle.dms_table.specs.CountsView.{AreCounted};

    ghost Value = { List RowModel };

    ghost view = { λ r. r.rows.items };

    ghost invariant = { λ r. AreCounted r.rows.items r.valid };
}

impl CountedRows {
    /// So many rows that are not used.
    fn unused(alloc: Global, count: u8) -> Result<CountedRows, AllocError>
        ensures { IfOk result (λ rows. rows ≡ replicate count unused) }
    {
        let mut rows = Vec::with_capacity(alloc, usize::from(count))?;
        'rows: for _ in 0..count {
            rows.push(Row::unused())?;
        }
        Ok(CountedRows { rows, valid: 0 })
    }

    pub(crate) fn as_slice(&self) -> &[Row]
        ensures { result.now ≡ self.now }
    {
        self.rows.as_slice()
    }

    fn valid_count(&self) -> usize
        ensures { result ≡ valid_among self.now }
    {
        self.valid
    }

    /// Asks the row of a number, from 1, and says at which index it stands.
    fn ask(&mut self, number: u16, ask: Ask) -> Result<usize, Refused>
        ensures ok { OnOk result (changed_in self.old number (asked_row ask) ≡ Some self.new) }
        ensures index { IfOk result (λ index. index + 1 ≡ number) }
        ensures refused { OnErr result (changed_in self.old number (asked_row ask) ≡ None) }
        ensures unchanged { OnErr result (self.new ≡ self.old) }
    {
        let Some(index) = index_of_number(number, self.rows.len()) else {
            return Err(Refused);
        };
        let row = &mut self.rows[index];
        let was_valid = row.is_valid();
        row.ask(ask)?;
        self.valid -= usize::from(was_valid);
        Ok(index)
    }

    /// Writes a field of the row of a number, from 1.
    fn write(&mut self, number: u16, field: Field<'_>) -> Result<(), Refused>
        ensures ok { OnOk result (changed_in self.old number (written_row (field_of field.entry)) ≡ Some self.new) }
        ensures refused { OnErr result (changed_in self.old number (written_row (field_of field.entry)) ≡ None) }
        ensures unchanged { OnErr result (self.new ≡ self.old) }
    {
        let Some(index) = index_of_number(number, self.rows.len()) else {
            return Err(Refused);
        };
        let row = &mut self.rows[index];
        row.write(field)
    }

    /// Puts a row in the place of the one of a number, from 1, and says at which index it stands.
    fn put(&mut self, number: u16, row: &SavedRow<'_>) -> Result<usize, RowFault>
        requires { FitsARow row.now }
        ensures ok { OnOk result (changed_in self.old number (put_over (row_saved row.now)) ≡ Some self.new) }
        ensures index { IfOk result (λ index. index + 1 ≡ number) }
        ensures free { OnOk result (place_fault (numbered self.old number) ≡ None) }
        ensures fault { IfErr result (λ fault. place_fault (numbered self.old number) ≡ Some fault) }
        ensures unchanged { OnErr result (self.new ≡ self.old) }
    {
        let Some(index) = index_of_number(number, self.rows.len()) else {
            return Err(RowFault::Place);
        };
        let there = &mut self.rows[index];
        there.put(row)?;
        let is_valid = there.is_valid();
        self.valid += usize::from(is_valid);
        Ok(index)
    }

    /// Ends the validation of the row at this index, the only one that is being validated.
    fn settle(&mut self, index: usize, validator: &Validator<'_>) -> Verdict
        requires fit { IsTrue (fit validator.now.face.now.fonts validator.now.defaults.now) }
        requires only { IsOnly index self.old }
        ensures rows { self.new ≡ map (settled_by validator.now) self.old }
        ensures verdict { Some result ≡ option_map (verdict_by validator.now) (find row_is_validating self.old) }
        ensures judged { All (IsJudged validator.now) self.old }
    {
        let row = &mut self.rows[index];
        let verdict = row.settle(validator);
        self.valid += usize::from(verdict.passes());
        verdict
    }

    fn interrupt(&mut self)
        ensures { self.new ≡ map interrupted self.old }
    {
        interrupt_all(self.rows.as_mut_slice());
    }

    fn release(&mut self)
        ensures { self.new ≡ map released self.old }
    {
        release_all(self.rows.as_mut_slice());
        self.valid = 0;
    }
}

fn interrupt_all(rows: &mut [Row])
    ensures { rows.new ≡ map interrupted rows.old }
{
    for row in rows.iter_mut() {
        row.interrupt();
    }
}

fn release_all(rows: &mut [Row])
    ensures { rows.new ≡ map released rows.old }
{
    for row in rows.iter_mut() {
        row.release();
    }
}
