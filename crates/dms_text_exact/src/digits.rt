//! Octets as pairs of small hexadecimal digits.

ghost use Rattle.std.specs.Prelude.{◌≡◌, ◌<◌, ◌%◌, ◌==◌, ◌&&◌, IfOk, IsSome, OnErr};
ghost use Rattle.std.specs.Prelude.{is_some, length, nat_lt};
ghost use Rattle.std.specs.List.{list_all};
ghost use Rattle.dms_text.specs.Views.{octets_found};
ghost use Rattle.dms_text_exact.specs.ExactWords.{is_small_digit, are_written, octets_in, small_decoded, code_in};

use crate::pairs::put_pairs;
use dms_text::is_dash;
use std::alloc::{AllocError, Global};

fn are_small_digits(word: &[u8]) -> bool
    ensures { result ≡ list_all is_small_digit word.now }
{
    for octet in word {
        if !matches!(*octet, b'0'..=b'9' | b'a'..=b'f') {
            return false;
        }
    }
    true
}

fn are_written(most: usize, word: &[u8]) -> bool
    ensures { result ≡ are_written most word.now }
{
    word.len() / 2 <= most && (is_dash(word) || are_small_digits(word))
}

/// What is answered where there is no memory for the octets of a word.
fn unless_at_fault(word: &[u8]) -> Result<Option<Vec<u8>>, AllocError>
    requires some { 0 < length word.now }
    requires even { length word.now % 2 ≡ 0 }
    ensures none { IfOk result (λ found. octets_found found ≡ small_decoded word.now) }
    ensures memory { OnErr result (IsSome (small_decoded word.now)) }
{
    if are_small_digits(word) {
        Err(AllocError)
    } else {
        Ok(None)
    }
}

/// The octets of one pair of small digits or more.
fn octets_of_pairs(alloc: Global, word: &[u8]) -> Result<Option<Vec<u8>>, AllocError>
    requires some { 0 < length word.now }
    requires even { length word.now % 2 ≡ 0 }
    ensures octets { IfOk result (λ found. octets_found found ≡ small_decoded word.now) }
    ensures memory { OnErr result (IsSome (small_decoded word.now)) }
{
    let mut octets = match vec![in alloc; 0; word.len() / 2] {
        Ok(octets) => octets,
        Err(_) => return unless_at_fault(word),
    };
    if put_pairs(word, octets.as_mut_slice()) {
        Ok(Some(octets))
    } else {
        Ok(None)
    }
}

/// The octets that a word is, at most `most`; `-` is none. Only for octets can memory be wanting.
#[tactic(auto, unfolding(crate::specs::ExactWords::octets_in))]
pub fn octets(alloc: Global, most: usize, word: &[u8]) -> Result<Option<Vec<u8>>, AllocError>
    ensures octets { IfOk result (λ found. octets_found found ≡ octets_in most word.now) }
    ensures memory { OnErr result (IsSome (octets_in most word.now)) }
{
    if is_dash(word) {
        Ok(Some(Vec::new(alloc)))
    } else if are_even(word) && word.len() / 2 <= most {
        octets_of_pairs(alloc, word)
    } else {
        Ok(None)
    }
}

/// Whether a word has as many digits as pairs have, one pair or more.
fn are_even(word: &[u8]) -> bool
    ensures { result ≡ (nat_lt 0 (length word.now) && length word.now % 2 == 0) }
{
    !word.is_empty() && word.len() % 2 == 0
}

/// Whether a word is at most `most` octets; `-` is none. It takes no memory.
#[tactic(auto, using(crate::proofs::DigitLaws::tested))]
pub fn are_octets(most: usize, word: &[u8]) -> bool
    ensures { result ≡ is_some (octets_in most word.now) }
{
    are_written(most, word) && (is_dash(word) || are_even(word))
}

/// Just as many octets as are asked for.
#[tactic(auto, unfolding(crate::specs::ExactWords::code_in))]
pub fn code<const N: usize>(word: &[u8]) -> Option<[u8; N]>
    ensures { result ≡ code_in N word.now }
{
    if word.len() % 2 != 0 || word.len() / 2 != N {
        return None;
    }
    let mut octets = [0; N];
    if put_pairs(word, &mut octets) {
        Some(octets)
    } else {
        None
    }
}
