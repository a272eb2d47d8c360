//! The length of an element's content: reading it in any form, writing it in the shortest (X.690, 8.1.3).

ghost use Rattle.std.specs.Prelude.{◌≡◌, ℕ, ◌+◌, ◌-◌, ◌<◌, ◌≤◌, ◌++◌, ◌∷◌, length, drop, Ok, Err};
ghost use Rattle.std.specs.Prelude.{IfOk, IfSome, IfNone};
ghost use Rattle.arrayvec.specs.ArrayVec.{array_vec_len};
ghost use Rattle.std.specs.Int.Digits.{number_from_digits, digits_of};
ghost use Rattle.dms_wire_ber.specs.Length.{short_length};
ghost use Rattle.dms_wire_ber.specs.Reading.{Gives, length_at};
ghost use Rattle.dms_wire_ber.specs.Limits.{longest_datagram};

use crate::Out;
use crate::fault::{FaultKind, WireFault, fault_at, offset_of};
use crate::integer::big_endian;

/// The length that follows a tag, in any accepted form, and the octets after it. `Truncated` at the end where octets of
/// the length are missing, `BadLength` at a first octet of 128 or of more than 132 (the indefinite form, and more than
/// four octets). The octets must end at the offset `end`.
#[inline]
#[tactic(auto, unfolding(crate::specs::Reading::length_at))]
pub fn read_length(octets: &[u8], end: usize) -> Result<(usize, &[u8]), WireFault>
    requires { length octets.now ≤ end }
    ensures exact { Gives (λ x. (x.0, x.1.now)) result (length_at end octets.now) }
    ensures rest { IfOk result (λ x. length x.1.now < length octets.now) }
{
    match octets {
        [] => Err(fault_at(FaultKind::Truncated, end)),
        [first, rest @ ..] => {
            if *first < 128 {
                return Ok((*first as usize, rest));
            }
            let Some(count) = long_length(*first, rest) else {
                return Err(length_fault(*first, rest, end));
            };
            Ok((count, &rest[usize::from(*first - 128)..]))
        }
    }
}

/// The length of which the first octet is 128 or more, where its form is accepted; `rest` follows that octet and begins
/// with as many digits as it says. Such lengths are rare: out of line, and answered as a number alone, they cost the
/// others nothing.
#[cold]
#[inline(never)]
#[tactic(auto, unfolding(crate::specs::Reading::length_at))]
fn long_length(first: u8, rest: &[u8]) -> Option<usize>
    requires { 128 ≤ first }
    ensures found { IfSome result (λ n. (end : ℕ) → length_at end (first ∷ rest.now)
        ≡ Ok (n, drop (first - 128) rest.now)) }
    ensures digits { IfSome result (λ _. first - 128 ≤ length rest.now) }
    ensures none { IfNone result (128 < first → first ≤ 132 → length rest.now < first - 128) }
{
    if first > 132 || first == 128 {
        return None;
    }
    let count = usize::from(first - 128);
    if rest.len() < count {
        return None;
    }
    let (digits, _) = rest.split_at(count);
    Some(big_endian(digits) as usize)
}

/// What is wrong with a length of which `long_length` is none.
#[cold]
#[inline(never)]
#[tactic(auto, unfolding(crate::specs::Reading::length_at))]
fn length_fault(first: u8, rest: &[u8], end: usize) -> WireFault
    requires within { length rest.now < end }
    requires long { 128 ≤ first }
    requires none { 128 < first → first ≤ 132 → length rest.now < first - 128 }
    ensures { length_at end (first ∷ rest.now) ≡ Err result }
{
    if first > 132 || first == 128 {
        return fault_at(FaultKind::BadLength, offset_of(rest, end) - 1);
    }
    fault_at(FaultKind::Truncated, end)
}

/// How many octets the shortest form of the length of a content takes.
#[inline]
#[tactic(auto, using(crate::proofs::Shortest::length_sizes))]
pub(crate) fn size_of_length(size: usize) -> usize
    ensures exact { result ≡ length (short_length size) }
    ensures small { result ≤ 9 }
{
    match size {
        0..128 => 1,
        128..256 => 2,
        256..65536 => 3,
        _ => 1 + count_digits(size),
    }
}

/// How many octets a number has in base 256.
#[cold]
#[tactic(auto, using(crate::proofs::Shortest::digit_sizes))]
fn count_digits(number: usize) -> usize
    requires { 0 < number }
    ensures exact { result ≡ length (digits_of 256 number) }
    ensures small { result ≤ 8 }
{
    if number < 256 {
        1
    } else {
        count_digits(number / 256) + 1
    }
}
