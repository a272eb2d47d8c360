//! Integers in two's complement: their content octets and their elements (X.690, 8.3).

ghost use Rattle.std.specs.Prelude.{◌≡◌, ◌↔◌, ℕ, ◌+◌, ◌*◌, ◌^◌, ◌<◌, ◌≤◌, ◌++◌, ◌<ℤ◌, List};
ghost use Rattle.std.specs.Prelude.{[], ◌∷◌, pos, length, slice_index, IfOk, IfSome, IsTrue};
ghost use Rattle.arrayvec.specs.ArrayVec.{array_vec_len};
ghost use Rattle.std.specs.Int.Digits.{number_from_digits};
ghost use Rattle.dms_wire_ber.specs.Integer.{is_shortest, inverted, signed_value, positive_octets, integer_octets};
ghost use Rattle.dms_wire_ber.specs.Element.{element};
ghost use Rattle.dms_wire_ber.specs.Reading.{Gives, integer_value, natural_value, integer_at};
ghost use Rattle.dms_wire_ber.specs.Limits.{longest_datagram};

use crate::element::{put_content, put_head, read_element, size_of_element};
use crate::fault::{FaultKind, WireFault, fault_at, offset_of};
use crate::{Out, tag};

/// The most octets of an integer in range.
const MAX_INTEGER_OCTETS: usize = 5;

/// The number whose digits in base 256 are the octets, the highest first.
pub(crate) fn big_endian(octets: &[u8]) -> u64
    requires { length octets.now ≤ 5 }
    ensures value { result ≡ number_from_digits 256 octets.now }
    ensures small { result < 2 ^ (8 * length octets.now) }
{
    let mut number = 0;
    for octet in octets {
        number = (number << 8) + *octet as u64;
    }
    number
}

/// The number whose digits in base 256 are the octets with each bit inverted.
fn inverted_big_endian(octets: &[u8]) -> u64
    requires { length octets.now ≤ 5 }
    ensures value { result ≡ number_from_digits 256 (inverted octets.now) }
    ensures small { result < 2 ^ (8 * length octets.now) }
{
    (1 << (8 * octets.len())) - 1 - big_endian(octets)
}

/// Whether the octets are the shortest form of an integer: where there are two or more, the first nine bits differ.
#[inline]
fn is_short(content: &[u8]) -> bool
    ensures { IsTrue result ↔ IsTrue (is_shortest content.now) }
{
    match content {
        [] => false,
        [_] => true,
        [0, second, ..] => *second >= 128,
        [255, second, ..] => *second < 128,
        _ => true,
    }
}

/// The number in two's complement.
#[inline]
fn signed(content: &[u8]) -> i64
    requires { length content.now ≤ 5 }
    ensures { result ≡ signed_value content.now }
{
    match content {
        [only] if *only < 128 => i64::from(*only),
        [first, ..] if *first >= 128 => -1 - inverted_big_endian(content) as i64,
        _ => big_endian(content) as i64,
    }
}

/// The integer with this content (X.690, 8.3), or none where the content is not in the shortest form, or the integer is
/// not from -2^31 to 2^32 - 1 (this profile).
#[inline]
#[tactic(auto, unfolding(crate::specs::Reading::integer_value))]
pub fn integer_of(content: &[u8]) -> Option<i64>
    ensures exact { result ≡ integer_value content.now }
    ensures range { IfSome result (λ z. z <ℤ pos (2 ^ 32)) }
{
    if content.len() > MAX_INTEGER_OCTETS || !is_short(content) {
        return None;
    }
    let value = signed(content);
    if value < -(1 << 31) || value >= 1 << 32 {
        return None;
    }
    Some(value)
}

/// The integer with this content where it is from 0 to 2^32 - 1 (Counter, Gauge and TimeTicks: RFC 1155, 3.2.3).
#[inline]
pub fn natural_of(content: &[u8]) -> Option<u32>
    ensures { result ≡ natural_value content.now }
{
    let value = integer_of(content)?;
    u32::try_from(value).ok()
}

/// An INTEGER, and the octets after it; `BadInteger` at its content where `integer_of` is none. Most have one octet.
/// The octets must end at the offset `end`.
#[inline(always)]
pub fn read_integer(octets: &[u8], end: usize) -> Result<(i64, &[u8]), WireFault>
    requires { length octets.now ≤ end }
    ensures exact { Gives (λ x. (x.0, x.1.now)) result (integer_at end octets.now) }
    ensures rest { IfOk result (λ x. length x.1.now < length octets.now) }
{
    match octets {
        [tag::INTEGER, 1, octet, rest @ ..] if *octet < 128 => Ok((i64::from(*octet), rest)),
        _ => read_any_integer(octets, end),
    }
}

/// An INTEGER in any form, and the octets after it, as `read_integer`.
#[inline]
#[tactic(auto, unfolding(crate::specs::Reading::integer_at))]
fn read_any_integer(octets: &[u8], end: usize) -> Result<(i64, &[u8]), WireFault>
    requires { length octets.now ≤ end }
    ensures exact { Gives (λ x. (x.0, x.1.now)) result (integer_at end octets.now) }
    ensures rest { IfOk result (λ x. length x.1.now < length octets.now) }
{
    let (content, rest) = read_element(tag::INTEGER, octets, end)?;
    let place = offset_of(content, offset_of(rest, end));
    let value = integer_of(content).ok_or(fault_at(FaultKind::BadInteger, place))?;
    Ok((value, rest))
}

/// How many octets a number not below 0 takes: one more than its bits fill, since the first bit is the sign's.
#[inline]
#[tactic(auto, using(crate::proofs::Shortest::number_size))]
fn size_of_number(number: u64) -> usize
    ensures exact { result ≡ length (positive_octets number) }
    ensures small { result ≤ 9 }
{
    (64 - number.leading_zeros()) as usize / 8 + 1
}

/// How many octets the content of an INTEGER takes.
#[inline]
#[tactic(auto, unfolding(crate::specs::Integer::integer_octets))]
fn size_of_integer_content(number: &i64) -> usize
    ensures exact { result ≡ length (integer_octets number.now) }
    ensures small { result ≤ 9 }
{
    if *number < 0 {
        size_of_number((-1 - *number) as u64)
    } else {
        size_of_number(*number as u64)
    }
}

/// Appends the octets of a number not below 0, one after the other.
#[tactic(auto, using(crate::proofs::Shortest::number_steps))]
fn put_number(out: &mut Out, number: u64)
    requires { array_vec_len out.old + length (positive_octets number) ≤ longest_datagram }
    ensures { out.new.items ≡ out.old.items ++ positive_octets number }
{
    if number < 128 {
        out.push(number as u8);
    } else {
        put_number(out, number / 256);
        out.push((number % 256) as u8);
    }
}

/// Appends the octets of a number not below 0, each inverted.
#[tactic(auto, using(crate::proofs::Shortest::number_steps))]
fn put_inverted(out: &mut Out, number: u64)
    requires { array_vec_len out.old + length (positive_octets number) ≤ longest_datagram }
    ensures { out.new.items ≡ out.old.items ++ inverted (positive_octets number) }
{
    if number < 128 {
        out.push(255 - number as u8);
    } else {
        put_inverted(out, number / 256);
        out.push(255 - (number % 256) as u8);
    }
}

/// Appends the shortest element of a number not below 0, with this tag.
#[inline]
#[tactic(auto, using(crate::proofs::Shortest::natural_elements))]
fn put_natural(out: &mut Out, tag: u8, number: u64)
    requires { array_vec_len out.old + length (element tag (positive_octets number)) ≤ longest_datagram }
    ensures { out.new.items ≡ out.old.items ++ element tag (positive_octets number) }
{
    if number < 128 {
        put_content(out, &[tag, 1, number as u8]);
    } else {
        put_long_natural(out, tag, number);
    }
}

/// Appends the shortest element of a number of two octets or more, with this tag: up to four at once.
#[inline(never)]
#[tactic(auto, using(crate::proofs::Shortest::natural_elements))]
fn put_long_natural(out: &mut Out, tag: u8, number: u64)
    requires large { 128 ≤ number }
    requires room { array_vec_len out.old + length (element tag (positive_octets number)) ≤ longest_datagram }
    ensures { out.new.items ≡ out.old.items ++ element tag (positive_octets number) }
{
    let (low, second) = ((number % 256) as u8, (number / 256 % 256) as u8);
    let (third, fourth) = (
        (number / 65536 % 256) as u8,
        (number / 16777216 % 256) as u8,
    );
    if number < 1 << 15 {
        put_content(out, &[tag, 2, second, low]);
    } else if number < 1 << 23 {
        put_content(out, &[tag, 3, third, second, low]);
    } else if number < 1 << 31 {
        put_content(out, &[tag, 4, fourth, third, second, low]);
    } else {
        put_large_natural(out, tag, number);
    }
}

/// Appends the shortest INTEGER -1 - `number`: up to four octets at once.
#[inline(never)]
#[tactic(auto, using(crate::proofs::Shortest::negative_elements))]
fn put_negative(out: &mut Out, number: u64)
    requires { array_vec_len out.old + length (element 2 (inverted (positive_octets number))) ≤ longest_datagram }
    ensures { out.new.items ≡ out.old.items ++ element 2 (inverted (positive_octets number)) }
{
    let (low, second) = (255 - (number % 256) as u8, 255 - (number / 256 % 256) as u8);
    let (third, fourth) = (
        255 - (number / 65536 % 256) as u8,
        255 - (number / 16777216 % 256) as u8,
    );
    if number < 1 << 7 {
        put_content(out, &[tag::INTEGER, 1, low]);
    } else if number < 1 << 15 {
        put_content(out, &[tag::INTEGER, 2, second, low]);
    } else if number < 1 << 23 {
        put_content(out, &[tag::INTEGER, 3, third, second, low]);
    } else if number < 1 << 31 {
        put_content(out, &[tag::INTEGER, 4, fourth, third, second, low]);
    } else {
        put_large_negative(out, number);
    }
}

/// Appends the shortest element of any number not below 0, octet by octet.
#[cold]
#[tactic(auto, using(crate::proofs::Shortest::element_steps), unfolding(crate::specs::Element::element))]
fn put_large_natural(out: &mut Out, tag: u8, number: u64)
    requires { array_vec_len out.old + length (element tag (positive_octets number)) ≤ longest_datagram }
    ensures { out.new.items ≡ out.old.items ++ element tag (positive_octets number) }
{
    put_head(out, tag, size_of_number(number));
    put_number(out, number);
}

/// Appends the shortest INTEGER -1 - `number`, octet by octet.
#[cold]
#[tactic(auto, using(crate::proofs::Shortest::inverted_steps), unfolding(crate::specs::Element::element))]
fn put_large_negative(out: &mut Out, number: u64)
    requires { array_vec_len out.old + length (element 2 (inverted (positive_octets number))) ≤ longest_datagram }
    ensures { out.new.items ≡ out.old.items ++ element 2 (inverted (positive_octets number)) }
{
    put_head(out, tag::INTEGER, size_of_number(number));
    put_inverted(out, number);
}

/// How many octets the shortest element of an INTEGER takes.
#[inline]
#[tactic(auto, using(crate::proofs::Shortest::sizes))]
pub fn size_of_integer(number: &i64) -> usize
    ensures exact { result ≡ length (element 2 (integer_octets number.now)) }
    ensures small { result < 20 }
{
    size_of_element(size_of_integer_content(number))
}

/// Appends the shortest element of an INTEGER, for which there must be room.
#[inline]
#[tactic(auto, unfolding(crate::specs::Integer::integer_octets))]
pub fn put_integer(out: &mut Out, number: &i64)
    requires { array_vec_len out.old + length (element 2 (integer_octets number.now)) ≤ longest_datagram }
    ensures { out.new.items ≡ out.old.items ++ element 2 (integer_octets number.now) }
{
    if *number < 0 {
        put_negative(out, (-1 - *number) as u64);
    } else {
        put_natural(out, tag::INTEGER, *number as u64);
    }
}

/// Appends the shortest elements of two INTEGERs: at once where each has one octet and is not below 0.
/// There must be room for them.
#[inline]
#[tactic(auto, using(crate::proofs::Shortest::element_steps), unfolding(crate::specs::Integer::integer_octets))]
pub fn put_integers(out: &mut Out, first: &i64, second: &i64)
    requires { array_vec_len out.old + length (element 2 (integer_octets first.now)
        ++ element 2 (integer_octets second.now)) ≤ longest_datagram }
    ensures { out.new.items ≡ out.old.items ++ (element 2 (integer_octets first.now)
        ++ element 2 (integer_octets second.now)) }
{
    if 0 <= *first && *first < 128 && 0 <= *second && *second < 128 {
        put_small_naturals(out, *first as u64, *second as u64);
    } else {
        put_integer(out, first);
        put_integer(out, second);
    }
}

/// Appends the shortest INTEGERs of two numbers below 128.
#[inline]
#[tactic(auto, using(crate::proofs::Shortest::natural_elements))]
fn put_small_naturals(out: &mut Out, first: u64, second: u64)
    requires first { first < 128 }
    requires second { second < 128 }
    requires room { array_vec_len out.old + length (element 2 (positive_octets first)
        ++ element 2 (positive_octets second)) ≤ longest_datagram }
    ensures { out.new.items ≡ out.old.items ++ (element 2 (positive_octets first)
        ++ element 2 (positive_octets second)) }
{
    put_content(
        out,
        &[tag::INTEGER, 1, first as u8, tag::INTEGER, 1, second as u8],
    );
}

/// How many octets the shortest element of a number from 0 to 2^32 - 1 takes, whatever its tag.
#[inline]
#[tactic(auto, using(crate::proofs::Shortest::sizes), unfolding(crate::specs::Integer::integer_octets))]
pub fn size_of_unsigned(number: u32) -> usize
    ensures { (tag : ℕ) → result ≡ length (element tag (integer_octets (pos number))) }
{
    size_of_element(size_of_number(u64::from(number)))
}

/// Appends the shortest element of a number from 0 to 2^32 - 1, with this tag (Counter, Gauge, TimeTicks).
/// There must be room for it.
#[inline]
#[tactic(auto, unfolding(crate::specs::Integer::integer_octets))]
pub fn put_unsigned(out: &mut Out, tag: u8, number: u32)
    requires { array_vec_len out.old + length (element tag (integer_octets (pos number))) ≤ longest_datagram }
    ensures { out.new.items ≡ out.old.items ++ element tag (integer_octets (pos number)) }
{
    put_natural(out, tag, u64::from(number));
}
