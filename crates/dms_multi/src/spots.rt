//! Reading a text as the spots of its items.
ghost use Rattle.std.specs.Prelude.{◌≡◌, ◌∷◌, [], ◌<◌, ◌≤◌, length, IfSome, IfNone};
ghost use Rattle.std.specs.Iterator.{YieldsFirst, item_count};
ghost use Rattle.dms_multi.specs.Grammar.{IsReading};
ghost use Rattle.dms_multi.specs.Outcomes.{outcomes_from, outcomes_of};
ghost use Rattle.dms_multi.specs.TagReading.{Gives, item_with_rest, tag_at};
ghost use Rattle.dms_multi.specs.TagReading.{item_after_opening, item_after_closing, item_at};

use crate::fault::{FaultCode, SyntaxFault};
use crate::item::Item;
use crate::tag::body_item;
use crate::value::cut_at;
use std::marker::Model;

/// An item, and the octets of the text that spell it.
#[derive(Clone, Copy, Debug, PartialEq, Eq)]
pub struct Spot {
    /// The item.
    pub item: Item,
    /// The offset in octets, from 0, of its first octet.
    pub first: usize,
    /// The offset after its last octet.
    pub past: usize,
}

/// The spots of a text in order, and then its fault, if it has one.
#[derive(Drop)]
pub struct Spots<'a> {
    rest: &'a [u8],
    end: usize,
}

impl<'a> Model for Spots<'a> {
    ghost use Rattle.std.specs.Prelude.{List, Result, length, ◌≤◌};
    ghost use Rattle.dms_multi.specs.declared.spots.Spot.{Spot};
    ghost use Rattle.dms_multi.specs.declared.fault.SyntaxFault.{SyntaxFault};
    ghost use Rattle.dms_multi.specs.Outcomes.{outcomes_from};

    ghost Value = { List (Result Spot SyntaxFault) };

    ghost view = { λ s. outcomes_from s.end s.rest.now };

    ghost invariant = { λ s. length s.rest.now ≤ s.end };
}

/// The item of the tag that an opening bracket before this text begins, and what follows it.
#[tactic(auto, unfolding(crate::specs::TagReading::tag_at))]
#[inline(never)]
fn tag_at(text: &[u8]) -> Result<(Item, &[u8]), FaultCode>
    ensures { Gives item_with_rest result (tag_at text.now) }
{
    let (body, rest) = cut_at(text, b']').ok_or(FaultCode::UnsupportedTag)?;
    Ok((body_item(body)?, rest))
}

/// The item after an opening bracket, and what follows it.
#[tactic(auto, unfolding(crate::specs::TagReading::item_after_opening))]
fn item_after_opening(text: &[u8]) -> Result<(Item, &[u8]), FaultCode>
    ensures { Gives item_with_rest result (item_after_opening text.now) }
{
    match text {
        [] => Err(FaultCode::UnsupportedTag),
        [b'[', rest @ ..] => Ok((Item::Char(u16::from(b'[')), rest)),
        [_, ..] => tag_at(text),
    }
}

/// The item after a closing bracket, and what follows it.
#[tactic(auto, unfolding(crate::specs::TagReading::item_after_closing))]
fn item_after_closing(text: &[u8]) -> Result<(Item, &[u8]), FaultCode>
    ensures { Gives item_with_rest result (item_after_closing text.now) }
{
    match text {
        [b']', rest @ ..] => Ok((Item::Char(u16::from(b']')), rest)),
        _ => Err(FaultCode::UnsupportedTag),
    }
}

/// The item at the beginning of a text, and what follows it.
#[tactic(auto, unfolding(crate::specs::TagReading::item_at))]
#[inline]
fn item_at(text: &[u8]) -> Result<(Item, &[u8]), FaultCode>
    ensures { Gives item_with_rest result (item_at text.now) }
{
    match text {
        [b'[', rest @ ..] => item_after_opening(rest),
        [b']', rest @ ..] => item_after_closing(rest),
        [octet, rest @ ..] => Ok((Item::Char(u16::from(*octet)), rest)),
        [] => Err(FaultCode::UnsupportedTag),
    }
}

/// The first outcome of a text that ends at the offset `end`, and the text after it: none where the text is empty, and
/// no text after a fault.
#[inline]
pub fn outcome_at(text: &[u8], end: usize) -> Option<(Result<Spot, SyntaxFault>, &[u8])>
    requires { length text.now ≤ end }
    ensures none { IfNone result (outcomes_from end text.now ≡ []) }
    ensures some { IfSome result (λ x. outcomes_from end text.now ≡ x.0 ∷ outcomes_from end x.1.now) }
    ensures rest { IfSome result (λ x. length x.1.now < length text.now) }
{
    if text.is_empty() {
        return None;
    }
    let first = end - text.len();
    match item_at(text) {
        Ok((item, rest)) => {
            let past = end - rest.len();
            Some((Ok(Spot { item, first, past }), rest))
        }
        Err(code) => Some((Err(SyntaxFault { code, place: first }), &[])),
    }
}

impl<'a> Iterator for Spots<'a> {
    type Item = Result<Spot, SyntaxFault>;

    ghost next_gives = { YieldsFirst (λ s. s) };

    ghost remaining = { item_count (λ s. s) };

    #[inline]
    fn next(&mut self) -> Option<Result<Spot, SyntaxFault>> {
        let (outcome, rest) = outcome_at(self.rest, self.end)?;
        self.rest = rest;
        Some(outcome)
    }
}

/// The spots of a text in order, and then its fault, if it has one.
pub fn items(text: &[u8]) -> Spots<'_>
    ensures exact { result ≡ outcomes_of text.now }
    ensures spelled { IsReading text.now result }
{
    Spots {
        rest: text,
        end: text.len(),
    }
}
