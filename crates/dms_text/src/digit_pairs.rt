//! Octets as pairs of hexadecimal digits.

ghost use Rattle.std.specs.Prelude.{◌≡◌, ◌<◌, ◌%◌, ◌==◌, ◌&&◌, IfOk, OnErr, IsSome, length, nat_lt};
ghost use Rattle.std.specs.List.{list_all};
ghost use Rattle.hex.specs.Hex.{decode_of, is_hex_digit};
ghost use Rattle.dms_text.specs.Reading.{octets_of, octets_decoded, is_dash, are_pairs};
ghost use Rattle.dms_text.specs.Views.{octets_found};

use crate::digit_values::{is_digit, put_pairs};
use std::alloc::{AllocError, Global};

/// The octets that a word spells as pairs of hexadecimal digits, or no octets as `-`. Where it spells none, `Ok(None)`:
/// only a word that spells octets can be out of memory.
#[tactic(auto, unfolding(crate::specs::Reading::octets_of))]
pub fn octets(alloc: Global, word: &[u8]) -> Result<Option<Vec<u8>>, AllocError>
    ensures octets { IfOk result (λ found. octets_found found ≡ octets_of word.now) }
    ensures memory { OnErr result (IsSome (octets_of word.now)) }
{
    if is_dash(word) {
        Ok(Some(Vec::new(alloc)))
    } else if are_even(word) {
        octets_of_pairs(alloc, word)
    } else {
        Ok(None)
    }
}

/// The octets of one pair of digits or more.
fn octets_of_pairs(alloc: Global, word: &[u8]) -> Result<Option<Vec<u8>>, AllocError>
    requires some { 0 < length word.now }
    requires even { length word.now % 2 ≡ 0 }
    ensures octets { IfOk result (λ found. octets_found found ≡ octets_decoded (decode_of word.now)) }
    ensures memory { OnErr result (IsSome (octets_decoded (decode_of word.now))) }
{
    let mut octets = match vec![in alloc; 0; word.len() / 2] {
        Ok(octets) => octets,
        Err(_) => return unless_at_fault(word),
    };
    if put_pairs(word, octets.as_mut_slice()) {
        Ok(Some(octets))
    } else {
        Ok(None)
    }
}

/// Whether a word is `-`, which is no octets.
pub fn is_dash(word: &[u8]) -> bool
    ensures { result ≡ is_dash word.now }
{
    matches!(word, [b'-'])
}

/// What is answered where there is no memory for a word's octets: `Ok(None)` where it has none.
fn unless_at_fault(word: &[u8]) -> Result<Option<Vec<u8>>, AllocError>
    ensures none { IfOk result (λ found. octets_found found ≡ octets_decoded (decode_of word.now)) }
    ensures memory { OnErr result (IsSome (octets_decoded (decode_of word.now))) }
{
    if are_pairs(word) {
        Err(AllocError)
    } else {
        Ok(None)
    }
}

/// Whether a word is one pair of hexadecimal digits or more. It takes no memory.
pub fn are_pairs(word: &[u8]) -> bool
    ensures { result ≡ are_pairs word.now }
{
    are_even(word) && are_digits(word)
}

/// Whether a word has as many octets as pairs have, one pair or more.
fn are_even(word: &[u8]) -> bool
    ensures { result ≡ (nat_lt 0 (length word.now) && length word.now % 2 == 0) }
{
    !word.is_empty() && word.len() % 2 == 0
}

fn are_digits(word: &[u8]) -> bool
    ensures { result ≡ list_all is_hex_digit word.now }
{
    for octet in word {
        if !is_digit(*octet) {
            return false;
        }
    }
    true
}
