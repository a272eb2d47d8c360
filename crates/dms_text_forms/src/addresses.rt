//! The address that a word spells.

ghost use Rattle.std.specs.Prelude.{◌≡◌};
ghost use Rattle.dms_text_forms.specs.FieldsReading.{address_of, address_at};

use dms_text::Words;

/// Four numbers of one to three decimal digits, each at most 255, with a dot between two.
#[tactic(auto, unfolding(crate::specs::FieldsReading::address_at))]
pub fn address(word: &[u8]) -> Option<[u8; 4]>
    ensures { result ≡ address_of word.now }
{
    let (first, parts) = Words::split(word, b'.').octet(3, 0, u8::MAX)?;
    let (second, parts) = parts.octet(3, 0, u8::MAX)?;
    let (third, parts) = parts.octet(3, 0, u8::MAX)?;
    let (fourth, parts) = parts.octet(3, 0, u8::MAX)?;
    if parts.is_empty() {
        Some([first, second, third, fourth])
    } else {
        None
    }
}
