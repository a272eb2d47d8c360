//! What a name's octets say of its numbers.

ghost use Rattle.std.specs.Prelude.{◌≡◌, ◌∷◌, [], ℕ, List, true};
ghost use Rattle.dms_wire_ber.specs.NameOrder.{is_before};
ghost use Rattle.dms_wire_ber.specs.ObjectIdentifier.{name_octets, under_dms};
ghost use Rattle.dms_mib.specs.NameOctets.{IsNamed};
ghost use Rattle.dms_mib.specs.Names.{below_dms};
ghost use Rattle.dms_mib_instances.specs.Objects.{has_name};
ghost use Rattle.dms_mib_instances.specs.NameReading.{octets_below};

use dms_mib::Instance;
use dms_wire_ber::{DMS, Oid, oid_cmp};
use std::cmp::Ordering;

/// The name is that of the instance, since its octets are those of the instance's name: for the proof alone, nothing
/// runs.
#[inline]
pub(crate) fn known_by_octets(name: &Oid<'_>, instance: Instance)
    requires { IsNamed instance (name_octets name.now) }
    ensures { has_name name.now instance ≡ true }
{
    let _ = name.numbers();
}

/// The name is that of numbers below dms, which have the octets after those of dms: for the proof alone, nothing runs.
#[inline]
pub(crate) fn known_below_dms(name: &Oid<'_>, octets: &[u8])
    requires { name_octets name.now ≡ under_dms octets.now }
    ensures { (numbers : List ℕ) × (name.now ≡ below_dms numbers) × (octets_below numbers ≡ octets.now) }
{
    let _ = name.numbers();
}

/// The name comes before that of dms.
pub(crate) fn comes_before_dms(name: &Oid<'_>) -> bool
    ensures { result ≡ is_before name.now (below_dms []) }
{
    precedes(name, &Oid::known(&DMS))
}

#[inline]
fn precedes(first: &Oid<'_>, second: &Oid<'_>) -> bool
    ensures { result ≡ is_before first.now second.now }
{
    oid_cmp(first, second) == Ordering::Less
}
