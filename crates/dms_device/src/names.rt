//! The order of names, by their octets: as a rule the first octet that differs decides. Eight octets are compared at
//! once.

ghost use Rattle.std.specs.Prelude.{◌≡◌, ◌+◌, ◌≤◌, take, length, nat_eq, IfSome};
ghost use Rattle.std.specs.Cmp.Lexicographic.{pointwise};
ghost use Rattle.dms_wire_ber.specs.NameOrder.{is_before};
ghost use Rattle.dms_wire_ber.specs.ObjectIdentifier.{IsName};
ghost use Rattle.dms_wire_ber.specs.NameReading.{numbers_of};
ghost use Rattle.dms_device.specs.View.{eight_octets};

use crate::held::content_of;
use dms_wire::{Oid, oid_cmp};

/// The highest bit of each of eight octets: it says that the number that an octet is of goes on.
const HIGH_BITS: u64 = 0x8080_8080_8080_8080;

/// Whether the first name comes before the second.
#[inline(always)]
pub(crate) fn is_before(first: &Oid<'_>, second: &Oid<'_>) -> bool
    ensures { result ≡ is_before first.now second.now }
{
    comes_first(content_of(first), content_of(second))
}

/// Whether two names are the same.
#[inline(always)]
pub(crate) fn is_same(first: &Oid<'_>, second: &Oid<'_>) -> bool
    ensures { result ≡ pointwise nat_eq first.now second.now }
{
    are_same(content_of(first), content_of(second))
}

/// Whether the octets of two names are the same. The last eight are compared too, so that fewer are never left.
#[inline(always)]
fn are_same(first: &[u8], second: &[u8]) -> bool
    requires first { IsName (numbers_of first.now) first.now }
    requires second { IsName (numbers_of second.now) second.now }
    ensures { result ≡ pointwise nat_eq first.now second.now }
{
    let size = first.len();
    if size < 8 || size != second.len() {
        return first == second;
    }
    let mut at = 0;
    while 8 <= size - at {
        if eight_octets(first, at) != eight_octets(second, at) {
            return false;
        }
        at += 8;
    }
    eight_octets(first, size - 8) == eight_octets(second, size - 8)
}

/// Whether the first of two names, by their octets, comes before the second. Most have sixteen or more, and begin with
/// the same eight.
#[inline(always)]
fn comes_first(first: &[u8], second: &[u8]) -> bool
    requires first { IsName (numbers_of first.now) first.now }
    requires second { IsName (numbers_of second.now) second.now }
    ensures { result ≡ is_before (numbers_of first.now) (numbers_of second.now) }
{
    if 16 <= first.len()
        && 16 <= second.len()
        && eight_octets(first, 0) == eight_octets(second, 0)
    {
        let one = eight_octets(first, 8);
        let other = eight_octets(second, 8);
        if one != other && one & other & HIGH_BITS == 0 {
            return one < other;
        }
    }
    comes_first_by_eights(first, second)
}

/// The same, eight octets after eight. They are compared as one number, which decides where at none of their places the
/// numbers of both names go on.
#[inline(never)]
fn comes_first_by_eights(first: &[u8], second: &[u8]) -> bool
    requires first { IsName (numbers_of first.now) first.now }
    requires second { IsName (numbers_of second.now) second.now }
    ensures { result ≡ is_before (numbers_of first.now) (numbers_of second.now) }
{
    let few = first.len().min(second.len());
    let mut at = 0;
    while 8 <= few - at {
        let one = eight_octets(first, at);
        let other = eight_octets(second, at);
        if one != other {
            if one & other & HIGH_BITS == 0 {
                return one < other;
            }
            return comes_first_from(first, second, at);
        }
        at += 8;
    }
    comes_first_from(first, second, at)
}

/// The number that eight octets are, the first of them its highest.
#[inline(always)]
fn eight_octets(octets: &[u8], at: usize) -> u64
    requires { at + 8 ≤ length octets.now }
    ensures { result ≡ eight_octets octets.now at }
{
    u64::from_be_bytes([
        octets[at],
        octets[at + 1],
        octets[at + 2],
        octets[at + 3],
        octets[at + 4],
        octets[at + 5],
        octets[at + 6],
        octets[at + 7],
    ])
}

/// The same octet by octet, where so many first octets are the same.
#[inline(always)]
fn comes_first_from(first: &[u8], second: &[u8], from: usize) -> bool
    requires first { IsName (numbers_of first.now) first.now }
    requires second { IsName (numbers_of second.now) second.now }
    requires within_first { from ≤ length first.now }
    requires within_second { from ≤ length second.now }
    requires same { take from first.now ≡ take from second.now }
    ensures { result ≡ is_before (numbers_of first.now) (numbers_of second.now) }
{
    match octets_say(first, second, from) {
        Some(said) => said,
        None => oid_cmp(&Oid::known(first), &Oid::known(second)).is_lt(),
    }
}

/// What the first octets that differ say: the smaller octet is that of the name that comes before. Nothing, where the
/// numbers go on behind both: the longer number is the greater one.
fn octets_say(first: &[u8], second: &[u8], from: usize) -> Option<bool>
    requires first { IsName (numbers_of first.now) first.now }
    requires second { IsName (numbers_of second.now) second.now }
    requires within_first { from ≤ length first.now }
    requires within_second { from ≤ length second.now }
    requires same { take from first.now ≡ take from second.now }
    ensures { IfSome result (λ said. said ≡ is_before (numbers_of first.now) (numbers_of second.now)) }
{
    let few = first.len().min(second.len());
    let mut at = from;
    while at < few {
        let one = first[at];
        let other = second[at];
        if one != other {
            return if one < 128 || other < 128 {
                Some(one < other)
            } else {
                None
            };
        }
        at += 1;
    }
    Some(first.len() < second.len())
}
