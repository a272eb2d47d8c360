//! What words of a line spell: numbers of one, two and four octets, and octets.

ghost use Rattle.std.specs.Prelude.{◌≡◌, IfOk, IfSome, OnErr, IsSome, option_map};
ghost use Rattle.dms_text.specs.Reading.{octets_of, word_at};
ghost use Rattle.dms_text_forms.specs.FieldsReading.{octet_at, two_octets_at, last_number_at};
ghost use Rattle.dms_text_forms.specs.FieldsReading.{octets_at, last_octets_at};
ghost use Rattle.dms_text.specs.Views.{octets_found};
ghost use Rattle.dms_text_forms.specs.FieldsView.{octets_and_rest};

use crate::digits::are_octets;
use dms_text::{Words, octets};
use std::alloc::{AllocError, Global};

/// A number of one octet, and the words after it.
pub fn octet(words: Words<'_>) -> Option<(u8, Words<'_>)>
    ensures { result ≡ octet_at words.entry }
{
    words.octet(5, 0, u8::MAX)
}

/// A number of two octets, and the words after it.
pub fn two_octets(words: Words<'_>) -> Option<(u16, Words<'_>)>
    ensures { result ≡ two_octets_at words.entry }
{
    words.two_octets(5, 0, u16::MAX)
}

/// A number of four octets, and nothing after it.
#[tactic(auto, unfolding(crate::specs::FieldsReading::last_number_at))]
pub fn last_number(words: Words<'_>) -> Option<u32>
    ensures { result ≡ last_number_at words.entry }
{
    let (number, rest) = words.four_octets(10, 0, u32::MAX)?;
    if rest.is_empty() { Some(number) } else { None }
}

/// The word of octets as pairs of hexadecimal digits, and the words after it. It takes no memory: `octets` has them.
#[tactic(auto, unfolding(crate::specs::FieldsReading::octets_at))]
pub fn octets_word(words: Words<'_>) -> Option<(&[u8], Words<'_>)>
    ensures octets { option_map octets_and_rest result ≡ octets_at words.entry }
    ensures spelled { IfSome result (λ found. IsSome (octets_of found.0.now)) }
{
    let (word, rest) = words.next_word()?;
    if are_octets(word) {
        Some((word, rest))
    } else {
        None
    }
}

/// Octets as pairs of hexadecimal digits, and nothing after them. Only where just these are spelled can it be out of
/// memory.
#[tactic(auto, unfolding(crate::specs::FieldsReading::last_octets_at, crate::specs::FieldsReading::octets_at))]
pub fn last_octets(alloc: Global, words: Words<'_>) -> Result<Option<Vec<u8>>, AllocError>
    ensures octets { IfOk result (λ found. octets_found found ≡ last_octets_at words.entry) }
    ensures memory { OnErr result (IsSome (word_at words.entry)) }
    ensures spelled { OnErr result (IsSome (last_octets_at words.entry)) }
{
    let Some((word, after)) = words.next_word() else {
        return Ok(None);
    };
    if !after.is_empty() {
        return Ok(None);
    }
    octets(alloc, word)
}
