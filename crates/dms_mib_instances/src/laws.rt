//! Laws over the definitions of specs/ alone, stated as functions with nothing to run.

ghost use Rattle.std.specs.Prelude.{◌≡◌, ◌↔◌, ℕ, List, Some, IsSome};
ghost use Rattle.dms_codes.specs.declared.row_id.RowId.{RowId};
ghost use Rattle.dms_mib.specs.declared.column.Column.{Column};
ghost use Rattle.dms_mib.specs.declared.instance.Instance.{Instance};
ghost use Rattle.dms_mib.specs.declared.instance.Instance.TheVariants as kinds;
ghost use Rattle.dms_mib.specs.declared.scalar.Scalar.{Scalar};
ghost use Rattle.dms_mib.specs.Names.{name_of};
ghost use Rattle.dms_table.specs.Rows.{TableModel};
ghost use Rattle.dms_table.specs.Activation.{ShownModel, message_at};
ghost use Rattle.dms_mib_instances.specs.Objects.{instance_named, next_instance, IsInstance, FirstAfter};

/// Each object has its instance, and each column one for each row that can be read, and for no other row.
pub fn each_has_its_instances()
    ensures object { (table : TableModel) (object : Scalar) → IsInstance table (kinds.Scalar object) }
    ensures cell { (table : TableModel) (shown : ShownModel) (column : Column) (row : RowId)
        → IsInstance table (kinds.Cell column row) ↔ IsSome (message_at table shown row) }
{}

/// The instances stand in the strict order of their names: the one that comes next after a name is the least of those
/// that come after it, and an instance is found by its name, and by no other.
pub fn objects_in_order()
    ensures next { (table : TableModel) (name : List ℕ) → FirstAfter table name (next_instance table name) }
    ensures named { (table : TableModel) (i : Instance) → IsInstance table i
        → instance_named table (name_of i) ≡ Some i }
    ensures found { (table : TableModel) (name : List ℕ) (i : Instance) → instance_named table name ≡ Some i
        → (name_of i ≡ name) × IsInstance table i }
{}
