//! Words of a state's lines: what each is, and what is left.

ghost use Rattle.std.specs.Prelude.{◌≡◌};
ghost use Rattle.dms_centre_restored.specs.WordReading.{after_number, after_octets, after_address, code_in};

use dms_codes::{Activation, Order};
use dms_text::Words;
use dms_text_exact::{address, are_octets, number};

/// The words after a number from low to high.
#[tactic(auto, unfolding(crate::specs::WordReading::after_number))]
pub(crate) fn after_number(words: Words<'_>, low: u32, high: u32) -> Option<Words<'_>>
    ensures { result ≡ after_number low high words.entry }
{
    let (word, words) = words.next_word()?;
    number(low, high, word)?;
    Some(words)
}

/// The words after at most so many octets.
#[tactic(auto, unfolding(crate::specs::WordReading::after_octets))]
pub(crate) fn after_octets(words: Words<'_>, most: usize) -> Option<Words<'_>>
    ensures { result ≡ after_octets most words.entry }
{
    let (word, words) = words.next_word()?;
    if are_octets(most, word) {
        Some(words)
    } else {
        None
    }
}

/// The words after an address of four numbers.
#[tactic(auto, unfolding(crate::specs::WordReading::after_address))]
pub(crate) fn after_address(words: Words<'_>) -> Option<Words<'_>>
    ensures { result ≡ after_address words.entry }
{
    let (word, words) = words.next_word()?;
    address(word)?;
    Some(words)
}

/// The code that twenty-four digits are.
#[tactic(auto, unfolding(crate::specs::WordReading::code_in))]
pub(crate) fn code(order: Order, word: &[u8]) -> Option<Activation>
    ensures { result ≡ code_in order word.now }
{
    let octets: [u8; 12] = dms_text_exact::code(word)?;
    Some(Activation::of_octets(order, &octets))
}
