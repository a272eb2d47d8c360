//! The first word of a line that is not what is wanted there.

ghost use Rattle.std.specs.Prelude.{◌≡◌, ◌+◌, ◌<◌, ◌≤◌, ◌^◌, [], length, IfSome};
ghost use Rattle.dms_text.specs.Words.{words_of};
ghost use Rattle.dms_text_forms.specs.Form.{is_wanted, is_number, is_address, word_fault};
ghost use Rattle.dms_text_forms.specs.Form.{fault_from};
ghost use Rattle.dms_text_forms.specs.LineReading.{number_within};

use crate::addresses::address;
use crate::digits::{are_octets, is_code};
use crate::fault::{WordFault, WordFaultKind};
use crate::wanted::Wanted;
use dms_text::{Words, are_same, number, version};

/// The first word of a line that is not what is wanted there, where these are wanted and no more.
pub fn word_fault(form: &[Wanted], line: &[u8]) -> Option<WordFault>
    ensures { result ≡ word_fault form.now (words_of line.now) }
{
    fault_from(1, form, Words::of(line))
}

/// The first of these words, that of this place first, that is not what is wanted.
#[tactic(auto, unfolding(crate::specs::Form::fault_from))]
fn fault_from(place: usize, form: &[Wanted], words: Words<'_>) -> Option<WordFault>
    requires { place + length form.now < 2 ^ 64 }
    ensures { result ≡ fault_from place form.now words.entry }
{
    match form {
        [] => fault_at_end(place, words),
        [wanted, more @ ..] => {
            if words.is_empty() {
                return fault_at(place, WordFaultKind::Missing(*wanted));
            }
            let Some((word, rest)) = words.next_word() else {
                return fault_at(place, WordFaultKind::Empty);
            };
            if is_wanted(*wanted, word) {
                fault_from(place + 1, more, rest)
            } else {
                fault_at(place, WordFaultKind::Not(*wanted))
            }
        }
    }
}

fn fault_at(place: usize, kind: WordFaultKind) -> Option<WordFault>
    ensures { result ≡ Some (record { place = place; kind = kind }) }
{
    Some(WordFault { place, kind })
}

/// The word that stands where no more words are wanted.
#[tactic(auto, unfolding(crate::specs::Form::fault_from))]
pub(crate) fn fault_at_end(place: usize, words: Words<'_>) -> Option<WordFault>
    ensures { result ≡ fault_from place [] words.entry }
{
    if words.is_empty() {
        return None;
    }
    match words.next_word() {
        Some(_) => fault_at(place, WordFaultKind::More),
        None => fault_at(place, WordFaultKind::Empty),
    }
}

/// Whether a word is what is wanted.
pub(crate) fn is_wanted(wanted: Wanted, word: &[u8]) -> bool
    ensures { result ≡ is_wanted wanted word.now }
{
    match wanted {
        Wanted::Keyword(keyword) => are_same(word, keyword.text().as_bytes()),
        Wanted::Either(one, other) => {
            are_same(word, one.text().as_bytes()) || are_same(word, other.text().as_bytes())
        }
        Wanted::Name(_) => true,
        Wanted::Number(low, high) => is_number(word, 5, u64::from(low), u64::from(high)),
        Wanted::FourOctets => is_number(word, 10, 0, 4_294_967_295),
        Wanted::Octets(_) => are_octets(word),
        Wanted::Version => version(word).is_some(),
        Wanted::Address => is_address(word),
        Wanted::Code => is_code(word),
    }
}

/// Whether a word is a number of one to `most` decimal digits, from `low` to `high`.
fn is_number(word: &[u8], most: usize, low: u64, high: u64) -> bool
    requires { most < 16 }
    ensures { result ≡ is_number most low high word.now }
{
    match number(word, 10, most) {
        Some(number) => low <= number && number <= high,
        None => false,
    }
}

/// The number of one to `most` decimal digits that a word is, from `low` to `high`.
pub(crate) fn number_within(word: &[u8], most: usize, low: u64, high: u64) -> Option<u64>
    requires { most < 16 }
    ensures value { result ≡ number_within most low high word.now }
    ensures least { IfSome result (λ number. low ≤ number) }
    ensures greatest { IfSome result (λ number. number ≤ high) }
{
    let number = number(word, 10, most)?;
    if low <= number && number <= high {
        Some(number)
    } else {
        None
    }
}

/// Whether a word is four numbers with dots between them.
fn is_address(word: &[u8]) -> bool
    ensures { result ≡ is_address word.now }
{
    address(word).is_some()
}
