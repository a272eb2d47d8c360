//! Laws over the definitions of specs/ alone, stated as functions with nothing to run.

ghost use Rattle.std.specs.Prelude.{◌≡◌, Some};
ghost use Rattle.dms_codes.specs.declared.row_id.RowId.{RowId};
ghost use Rattle.dms_codes.specs.declared.status.Ask.{Ask};
ghost use Rattle.dms_face.specs.Face.{FaceModel};
ghost use Rattle.dms_table.specs.Rows.{asked, written, changed, after_power, IsTable, TableModel, FieldModel, RowModel};
ghost use Rattle.dms_table.specs.SavedRows.{put_over, AreEmptyWhereUnused};
ghost use Rattle.dms_table.specs.Validation.{settled};
ghost use Rattle.dms_table.specs.Stock.{PermanentRowsAreGood, KeepsPermanentRows};

use crate::table::Table;

/// At most one row of a table is being validated, whatever was asked of it.
pub fn one_row_is_validating(table: &Table)
    ensures { IsTable table.now }
{
    table.limits();
}

/// A row that is not used is empty, whatever was done with it.
pub fn unused_rows_are_empty(table: &Table)
    ensures changeable { AreEmptyWhereUnused table.now.changeable }
    ensures volatile { AreEmptyWhereUnused table.now.volatile }
{
    table.limits();
}

/// What a table does leaves its permanent rows as they are, so they stay good on the face that it was made for.
pub fn permanent_rows_stay()
    ensures asked { (old new : TableModel) (id : RowId) (ask : Ask) → asked old id ask ≡ Some new
        → KeepsPermanentRows old new }
    ensures written { (old new : TableModel) (id : RowId) (field : FieldModel) → written old id field ≡ Some new
        → KeepsPermanentRows old new }
    ensures put { (old new : TableModel) (id : RowId) (row : RowModel) → changed old id (put_over row) ≡ Some new
        → KeepsPermanentRows old new }
    ensures settled { (face : FaceModel) (table : TableModel) → KeepsPermanentRows table (settled face table) }
    ensures after_power { (table : TableModel) → KeepsPermanentRows table (after_power table) }
    ensures good { (face : FaceModel) (old new : TableModel) → KeepsPermanentRows old new
        → PermanentRowsAreGood face old → PermanentRowsAreGood face new }
{}
