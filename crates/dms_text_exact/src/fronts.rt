//! The front of a text: a name, or what an octet ends.

ghost use Rattle.std.specs.Prelude.{◌≡◌, ◌≤◌, length, take, option_map};
ghost use Rattle.dms_text.specs.Words.{index_of};
ghost use Rattle.dms_text_exact.specs.Fronts.{starts_with, behind, cut_at, IsFree};

use dms_text::{are_same, index_of};

/// Whether a text begins with a name.
pub fn starts_with(name: &[u8], text: &[u8]) -> bool
    ensures { result ≡ starts_with name.now text.now }
{
    let size = name.len().min(text.len());
    are_same(&text[..size], name)
}

/// What stands behind a name at the front of a text.
#[tactic(auto, unfolding(crate::specs::Fronts::behind))]
pub fn behind<'a>(name: &[u8], text: &'a [u8]) -> Option<&'a [u8]>
    ensures { option_map (λ x. x.now) result ≡ behind name.now text.now }
{
    let size = name.len().min(text.len());
    let (front, rest) = text.split_at(size);
    if are_same(front, name) {
        Some(rest)
    } else {
        None
    }
}

/// How many octets are looked through at once.
const MANY: usize = 64;

/// How many octets at the front are passed, many at a time: no such octet is among them.
fn passed(end: u8, text: &[u8]) -> usize
    ensures few { result ≤ length text.now }
    ensures free { IsFree end (take result text.now) }
{
    let mut place = 0;
    'runs: while MANY <= text.len() - place {
        if text[place..place + MANY].contains(&end) {
            return place;
        }
        place += MANY;
    }
    place
}

/// The index of the first such octet: what stands before it may be long.
fn first_index(end: u8, text: &[u8]) -> Option<usize>
    ensures { result ≡ index_of end text.now }
{
    let place = passed(end, text);
    let index = index_of(&text[place..], end)?;
    Some(place + index)
}

/// What stands before the first such octet, and after it.
#[tactic(auto, unfolding(crate::specs::Fronts::cut_at))]
pub fn cut(end: u8, text: &[u8]) -> Option<(&[u8], &[u8])>
    ensures { option_map (λ x. (x.0.now, x.1.now)) result ≡ cut_at end text.now }
{
    let index = first_index(end, text)?;
    Some((&text[..index], &text[index + 1..]))
}
