//! Words that are told by their hexadecimal digits: octets and codes.

ghost use Rattle.std.specs.Prelude.{◌≡◌, is_some};
ghost use Rattle.dms_text.specs.Reading.{octets_of};
ghost use Rattle.dms_text_forms.specs.Form.{is_code};

use dms_text::{are_pairs, is_dash};

/// Whether a word is octets in hexadecimal digits; `-` is no octets.
#[tactic(auto, using(crate::proofs::WordTests::dash_is_octets, crate::proofs::WordTests::octets_without_dash))]
pub(crate) fn are_octets(word: &[u8]) -> bool
    ensures { result ≡ is_some (octets_of word.now) }
{
    is_dash(word) || are_pairs(word)
}

/// Whether a word is the twelve octets of a code in hexadecimal digits.
#[tactic(auto, using(crate::proofs::WordTests::code_of_pairs, crate::proofs::WordTests::no_code))]
pub(crate) fn is_code(word: &[u8]) -> bool
    ensures { result ≡ is_code word.now }
{
    word.len() == 24 && are_pairs(word)
}
