//! Laws over the definitions of specs/ alone, stated as functions with nothing to run.

ghost use Rattle.std.specs.Prelude.{◌≡◌, true, map};
ghost use Rattle.dms_codes.specs.declared.row_id.RowId.{RowId};
ghost use Rattle.dms_mib.specs.declared.column.Column.{Column};
ghost use Rattle.dms_mib.specs.declared.objects.Instances.{Instances};
ghost use Rattle.dms_mib.specs.declared.instance.Instance.TheVariants.{Scalar, Cell};
ghost use Rattle.dms_mib.specs.declared.scalar.Scalar.TheVariants.{ActivateMessage, ActivateMsgError};
ghost use Rattle.dms_mib.specs.Names.{activate_message, activate_message_error, cell_name, name_of};
ghost use Rattle.dms_mib.specs.Objects.{objects, listed, numbers_of};
ghost use Rattle.dms_mib.specs.TableLaws.{numbers_below_dms, HasRow, is_rising};
ghost use Rattle.dms_mib.specs.declared.objects.Object.{Object};

use crate::objects::OBJECTS;

/// The names that the central system uses are those of these objects.
#[tactic(auto, unfolding(crate::specs::Names::name_of))]
pub fn names_are_shared()
    ensures activate { name_of (Scalar ActivateMessage) ≡ activate_message }
    ensures error { name_of (Scalar ActivateMsgError) ≡ activate_message_error }
    ensures cell { (column : Column) (row : RowId) → name_of (Cell column row) ≡ cell_name column row }
{}

/// The table of the code is that of the definitions.
pub fn objects_are_the_table()
    ensures { map (λ row. (row.0.now, row.1)) OBJECTS ≡ objects }
{}

/// Names have the numbers of the table, which has a row for each object, in the order of names.
pub fn numbers_are_those_of_the_table()
    ensures numbers { map (λ (object : Object). numbers_below_dms object.instances) listed ≡ map numbers_of listed }
    ensures each { (instances : Instances) → HasRow instances }
    ensures order { is_rising (map numbers_of listed) ≡ true }
{}
