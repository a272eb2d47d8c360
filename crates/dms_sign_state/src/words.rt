//! Words read from a text's front: each answers what it reads and the rest, or says what lacks.

ghost use Rattle.std.specs.Prelude.{◌≡◌, ◌≤◌, IfOk};
ghost use Rattle.dms_text_exact.specs.Fronts.{cut_at};
ghost use Rattle.dms_sign_state.specs.WordReading.{Gives, or_lack, named_at, number, small, octets, code, address};

use crate::field::{SignFieldLack, UnreadSignField};
use dms_text_exact::behind;
use std::alloc::Global;

/// The text after these octets.
#[tactic(auto, unfolding(crate::specs::WordReading::named_at))]
pub(crate) fn named<'a>(
    name: &[u8],
    lack: SignFieldLack,
    text: &'a [u8],
) -> Result<&'a [u8], UnreadSignField>
    ensures { Gives (λ x. x.now) result (named_at name.now lack text.now) }
{
    match behind(name, text) {
        Some(rest) => Ok(rest),
        None => Err(UnreadSignField::Lacks(lack)),
    }
}

/// What stands before the first such octet, and after it.
fn cut(end: u8, lack: SignFieldLack, text: &[u8]) -> Result<(&[u8], &[u8]), UnreadSignField>
    ensures { Gives (λ x. (x.0.now, x.1.now)) result (or_lack lack (cut_at end text.now)) }
{
    match dms_text_exact::cut(end, text) {
        Some(parts) => Ok(parts),
        None => Err(UnreadSignField::Lacks(lack)),
    }
}

/// A number, and what stands after the octet that ends it.
pub(crate) fn number(
    low: u32,
    high: u32,
    end: u8,
    lack: SignFieldLack,
    text: &[u8],
) -> Result<(u32, &[u8]), UnreadSignField>
    ensures value { Gives (λ x. (x.0, x.1.now)) result (number low high end lack text.now) }
    ensures most { IfOk result (λ x. x.0 ≤ high) }
{
    let (word, rest) = cut(end, lack, text)?;
    match dms_text_exact::number(low, high, word) {
        Some(number) => Ok((number, rest)),
        None => Err(UnreadSignField::Lacks(lack)),
    }
}

/// A number of one octet.
pub(crate) fn small(
    end: u8,
    lack: SignFieldLack,
    text: &[u8],
) -> Result<(u8, &[u8]), UnreadSignField>
    ensures { Gives (λ x. (x.0, x.1.now)) result (small end lack text.now) }
{
    let (number, rest) = number(0, 255, end, lack, text)?;
    Ok((number as u8, rest))
}

/// At most so many octets.
pub(crate) fn octets(
    alloc: Global,
    most: usize,
    end: u8,
    lack: SignFieldLack,
    text: &[u8],
) -> Result<(Vec<u8>, &[u8]), UnreadSignField>
    ensures { Gives (λ x. (x.0.items, x.1.now)) result (octets most end lack text.now) }
{
    let (word, rest) = cut(end, lack, text)?;
    match dms_text_exact::octets(alloc, most, word)? {
        Some(octets) => Ok((octets, rest)),
        None => Err(UnreadSignField::Lacks(lack)),
    }
}

/// Just as many octets as are asked for.
pub(crate) fn code<const N: usize>(
    end: u8,
    lack: SignFieldLack,
    text: &[u8],
) -> Result<([u8; N], &[u8]), UnreadSignField>
    ensures { Gives (λ x. (x.0, x.1.now)) result (code N end lack text.now) }
{
    let (word, rest) = cut(end, lack, text)?;
    match dms_text_exact::code(word) {
        Some(octets) => Ok((octets, rest)),
        None => Err(UnreadSignField::Lacks(lack)),
    }
}

/// An address of four numbers.
pub(crate) fn address(
    end: u8,
    lack: SignFieldLack,
    text: &[u8],
) -> Result<([u8; 4], &[u8]), UnreadSignField>
    ensures { Gives (λ x. (x.0, x.1.now)) result (address end lack text.now) }
{
    let (word, rest) = cut(end, lack, text)?;
    match dms_text_exact::address(word) {
        Some(address) => Ok((address, rest)),
        None => Err(UnreadSignField::Lacks(lack)),
    }
}
