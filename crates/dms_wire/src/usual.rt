//! Messages as most are: each length outside the bindings is one octet, and so are error-status and error-index. They
//! are read straight on, and nothing is kept for a fault; any other message is read from its beginning.

ghost use Rattle.std.specs.Prelude.{◌≡◌, ℕ, ◌+◌, ◌<◌, ◌≤◌, ◌++◌, ◌∷◌, length, Ok, IfSome};
ghost use Rattle.dms_wire_ber.specs.Reading.{integer_value, integer_at};
ghost use Rattle.dms_wire.specs.Reading.{bindings_at, datagram_at};
ghost use Rattle.dms_wire.specs.UnreadView.{unread_message, with_bindings};

use crate::message::{Kind, kind_of};
use dms_wire_ber::{integer_of, tag as universal};

/// A message of which the bindings are still to be read.
#[derive(Drop)]
pub(crate) struct Unread<'a> {
    pub(crate) community: &'a [u8],
    pub(crate) kind: Kind,
    pub(crate) request: i64,
    pub(crate) status: u8,
    pub(crate) index: u8,
    /// The octets of the bindings, which are the last ones of the datagram.
    pub(crate) bindings: &'a [u8],
}

/// The message that the octets of a datagram are, up to its bindings, where it is as most are.
#[inline(always)]
pub(crate) fn read_usual(octets: &[u8]) -> Option<Unread<'_>>
    ensures found { IfSome result (λ u. datagram_at octets.now
        ≡ with_bindings (unread_message u) (bindings_at (length octets.now) u.bindings.now)) }
    ensures fewer { IfSome result (λ u. length u.bindings.now ≤ length octets.now) }
{
    let members = after_version(octets)?;
    let (community, after) = short_content(members)?;
    let (tag, pdu) = last_element(after)?;
    let kind = kind_of(tag)?;
    let (request, numbers) = short_integer(pdu)?;
    let (status, index, bindings) = status_and_index(numbers)?;
    Some(Unread {
        community,
        kind,
        request,
        status,
        index,
        bindings,
    })
}

/// What follows the tag of the community in a datagram that is one element, and of which the version is 0.
#[inline(always)]
fn after_version(octets: &[u8]) -> Option<&[u8]>
    ensures parts { IfSome result (λ rest. octets.now ≡ 48 ∷ (length rest.now + 4) ∷ 2 ∷ 1 ∷ 0 ∷ 4 ∷ rest.now) }
    ensures short { IfSome result (λ rest. length rest.now + 4 < 128) }
{
    match octets {
        [
            universal::SEQUENCE,
            size,
            universal::INTEGER,
            1,
            0,
            universal::OCTET_STRING,
            rest @ ..,
        ] if *size < 128 && usize::from(*size) == rest.len() + 4 => Some(rest),
        _ => None,
    }
}

/// The content that a length of one octet says, and the octets after it.
#[inline(always)]
fn short_content(octets: &[u8]) -> Option<(&[u8], &[u8])>
    ensures parts { IfSome result (λ x. octets.now ≡ length x.0.now ∷ (x.0.now ++ x.1.now)) }
    ensures short { IfSome result (λ x. length x.0.now < 128) }
{
    match octets {
        [size, rest @ ..] if *size < 128 && usize::from(*size) <= rest.len() => {
            Some(rest.split_at(usize::from(*size)))
        }
        _ => None,
    }
}

/// The tag and the content of an element that is all that is left, its length one octet.
#[inline(always)]
fn last_element(octets: &[u8]) -> Option<(u8, &[u8])>
    ensures parts { IfSome result (λ x. octets.now ≡ x.0 ∷ length x.1.now ∷ x.1.now) }
    ensures short { IfSome result (λ x. length x.1.now < 128) }
{
    match octets {
        [tag, size, content @ ..] if *size < 128 && usize::from(*size) == content.len() => {
            Some((*tag, content))
        }
        _ => None,
    }
}

/// An INTEGER, its length one octet, and the octets after it.
#[inline(always)]
fn short_integer(octets: &[u8]) -> Option<(i64, &[u8])>
    ensures found { IfSome result (λ x. (end : ℕ) → integer_at end octets.now ≡ Ok (x.0, x.1.now)) }
    ensures fewer { IfSome result (λ x. length x.1.now ≤ length octets.now) }
{
    let after = after_integer_tag(octets)?;
    let (content, rest) = short_content(after)?;
    let number = number_of(content)?;
    Some((number, rest))
}

/// What follows the tag of an INTEGER.
#[inline(always)]
fn after_integer_tag(octets: &[u8]) -> Option<&[u8]>
    ensures { IfSome result (λ rest. octets.now ≡ 2 ∷ rest.now) }
{
    match octets {
        [universal::INTEGER, rest @ ..] => Some(rest),
        _ => None,
    }
}

/// The integer with this content, as `integer_of`: most have one octet.
#[inline(always)]
fn number_of(content: &[u8]) -> Option<i64>
    ensures { result ≡ integer_value content.now }
{
    match content {
        [octet] if *octet < 128 => Some(i64::from(*octet)),
        _ => integer_of(content),
    }
}

/// Error-status, error-index and the octets of the bindings, with which the datagram ends.
#[inline(always)]
fn status_and_index(octets: &[u8]) -> Option<(u8, u8, &[u8])>
    ensures parts { IfSome result (λ x. octets.now
        ≡ 2 ∷ 1 ∷ x.0 ∷ 2 ∷ 1 ∷ x.1 ∷ 48 ∷ length x.2.now ∷ x.2.now) }
    ensures status { IfSome result (λ x. x.0 < 128) }
    ensures index { IfSome result (λ x. x.1 < 128) }
    ensures short { IfSome result (λ x. length x.2.now < 128) }
{
    match octets {
        [
            universal::INTEGER,
            1,
            status,
            universal::INTEGER,
            1,
            index,
            universal::SEQUENCE,
            size,
            bindings @ ..,
        ] if *status < 128 && *index < 128 && *size < 128 && usize::from(*size) == bindings.len() =>
            Some((*status, *index, bindings)),
        _ => None,
    }
}
