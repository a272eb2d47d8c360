//! Elements: a tag, the length of the content, and the content (X.690, 8.1.1).
//!
//! Each reader is given the octets that are left of an element and `end`, the element's end as an offset in the
//! datagram: what it reads begins at `end - octets.len()`.

ghost use Rattle.std.specs.Prelude.{◌≡◌, ℕ, ◌+◌, ◌^◌, ◌<◌, ◌≤◌, ◌++◌, [], ◌∷◌, length, IfOk};
ghost use Rattle.arrayvec.specs.ArrayVec.{array_vec_len};
ghost use Rattle.dms_wire_ber.specs.Length.{short_length};
ghost use Rattle.dms_wire_ber.specs.Element.{element};
ghost use Rattle.dms_wire_ber.specs.Reading.{Gives, content_at, element_at, ended};
ghost use Rattle.dms_wire_ber.specs.Limits.{longest_datagram};

use crate::Out;
use crate::fault::{FaultKind, WireFault, fault_at, offset_of};
use crate::length::{read_length, size_of_length};

/// What follows a tag: a content, and the octets after it. `LengthPast` at the length where the content passes the
/// octets, or the fault of `read_length`. The octets must end at the offset `end` of the datagram.
#[inline]
#[tactic(auto, unfolding(crate::specs::Reading::content_at))]
pub fn read_content(octets: &[u8], end: usize) -> Result<(&[u8], &[u8]), WireFault>
    requires { length octets.now ≤ end }
    ensures exact { Gives (λ x. (x.0.now, x.1.now)) result (content_at end octets.now) }
    ensures parts { IfOk result (λ x. length x.0.now + length x.1.now < length octets.now) }
{
    let (count, rest) = read_length(octets, end)?;
    if rest.len() < count {
        return Err(fault_at(FaultKind::LengthPast, offset_of(octets, end)));
    }
    Ok(rest.split_at(count))
}

/// The content of an element with this tag, and the octets after it. `Truncated` at the end where there is no octet,
/// `BadTag` at another tag, or the fault of `read_content`. The octets must end at the offset `end`.
#[inline]
#[tactic(auto, unfolding(crate::specs::Reading::element_at))]
pub fn read_element(tag: u8, octets: &[u8], end: usize) -> Result<(&[u8], &[u8]), WireFault>
    requires { length octets.now ≤ end }
    ensures exact { Gives (λ x. (x.0.now, x.1.now)) result (element_at tag end octets.now) }
    ensures parts { IfOk result (λ x. length x.0.now + length x.1.now < length octets.now) }
{
    match octets {
        [] => Err(fault_at(FaultKind::Truncated, end)),
        [first, rest @ ..] => {
            if *first == tag {
                read_content(rest, end)
            } else {
                Err(fault_at(FaultKind::BadTag, offset_of(octets, end)))
            }
        }
    }
}

/// Whether nothing is left after the last member of an element: `TrailingBytes` at the first octet that is. They must
/// end at the offset `end`.
#[inline]
#[tactic(auto, unfolding(crate::specs::Reading::ended))]
pub fn ended(octets: &[u8], end: usize) -> Result<(), WireFault>
    requires { length octets.now ≤ end }
    ensures { Gives (λ _. tt) result (ended end octets.now) }
{
    match octets {
        [] => Ok(()),
        _ => Err(fault_at(FaultKind::TrailingBytes, offset_of(octets, end))),
    }
}

/// How many octets an element with a content of `size` octets takes, its length in the shortest form;
/// `size` must be below 2^63.
#[inline]
pub fn size_of_element(size: usize) -> usize
    requires { size < 2 ^ 63 }
    ensures exact { result ≡ 1 + length (short_length size) + size }
    ensures small { result ≤ size + 10 }
{
    1 + size_of_length(size) + size
}

/// Appends a tag and the shortest form of the length of a content of `size` octets: below 128 one octet, else 128 more
/// than the number of its octets, and those. There must be room for them and for the content.
#[inline]
#[tactic(auto, using(crate::proofs::Shortest::length_steps))]
pub fn put_head(out: &mut Out, tag: u8, size: usize)
    requires { array_vec_len out.old + (1 + length (short_length size) + size) ≤ longest_datagram }
    ensures { out.new.items ≡ out.old.items ++ tag ∷ short_length size }
{
    if size < 128 {
        put_content(out, &[tag, size as u8]);
    } else if size < 256 {
        put_content(out, &[tag, 129, size as u8]);
    } else {
        put_content(out, &[tag, 130, (size / 256) as u8, (size % 256) as u8]);
    }
}

/// Appends the element with this tag and no content, for which there must be room.
#[inline]
#[tactic(auto, unfolding(crate::specs::Element::element))]
pub fn put_empty(out: &mut Out, tag: u8)
    requires { array_vec_len out.old + length (element tag []) ≤ longest_datagram }
    ensures { out.new.items ≡ out.old.items ++ element tag [] }
{
    put_content(out, &[tag, 0]);
}

/// Appends the octets of a content, for which there must be room.
#[inline(always)]
pub fn put_content(out: &mut Out, content: &[u8])
    requires { array_vec_len out.old + length content.now ≤ longest_datagram }
    ensures { out.new.items ≡ out.old.items ++ content.now }
{
    let _ = out.try_extend_from_slice(content);
}

/// How many octets an element with this content takes, whatever its tag.
#[inline]
#[tactic(auto, using(crate::proofs::Shortest::sizes))]
pub fn size_of_octets(content: &[u8]) -> usize
    ensures exact { (tag : ℕ) → result ≡ length (element tag content.now) }
    ensures small { result ≤ length content.now + 10 }
{
    size_of_element(content.len())
}

/// Appends the element with this tag and this content, its length in the shortest form. There must be room for it.
#[inline]
#[tactic(auto, using(crate::proofs::Shortest::element_steps), unfolding(crate::specs::Element::element))]
pub fn put_octets(out: &mut Out, tag: u8, content: &[u8])
    requires { array_vec_len out.old + length (element tag content.now) ≤ longest_datagram }
    ensures { out.new.items ≡ out.old.items ++ element tag content.now }
{
    put_head(out, tag, content.len());
    put_content(out, content);
}
