//! What holds of every sign, stated as functions with nothing to run.

ghost use Rattle.std.specs.Prelude.{◌≡◌, ℕ, List, [], ◌∷◌, IsTrue};
ghost use Rattle.dms_wire.specs.Message.{octet_string};
ghost use Rattle.dms_mib.specs.declared.scalar.Scalar.{Scalar};
ghost use Rattle.dms_mib.specs.declared.objects.Access.TheVariants.{Write};
ghost use Rattle.dms_mib.specs.declared.objects.Syntax.TheVariants.{Range, Octets};
ghost use Rattle.dms_mib.specs.Objects.{scalar_row};
ghost use Rattle.dms_sign_access.specs.Access.{SetNumber, SetCode};
ghost use Rattle.dms_sign_access.specs.Cells.{number_value};
ghost use Rattle.dms_sign.specs.State.{SignState};
ghost use Rattle.dms_sign.specs.Values.{scalar_value};
ghost use Rattle.dms_sign.specs.SetRequest.{assigned};
ghost use Rattle.dms_sign.specs.Communities.{are_communities};
ghost use Rattle.dms_sign.specs.InRange.{IsSignInRange};
ghost use Rattle.dms_sign.specs.Transitions.{HasFitDefaults};

use crate::sign::Sign;

/// What holds of every sign: its values are in range, its defaults fit its face, and its communities have 1 to 32
/// octets and differ.
pub fn signs_are_kept(sign: &Sign)
    ensures in_range { IsSignInRange sign.now }
    ensures fit { HasFitDefaults sign.now }
    ensures communities { IsTrue (are_communities sign.now.config.reader sign.now.config.writer) }
{
    sign.invariant();
}

/// What was assigned is what is read: of an object that the table of objects says is assigned, the number or the code.
pub fn what_was_set_is_read()
    ensures number { (s : SignState) (object : Scalar) (low high number : ℕ) → (scalar_row object).access ≡ Write
        → (scalar_row object).syntax ≡ Range low high
        → scalar_value (assigned s (SetNumber object number ∷ [])) object ≡ number_value number }
    ensures code { (s : SignState) (object : Scalar) (low high : ℕ) (octets : List ℕ)
        → (scalar_row object).access ≡ Write → (scalar_row object).syntax ≡ Octets low high
        → scalar_value (assigned s (SetCode object octets ∷ [])) object ≡ octet_string octets }
{}
