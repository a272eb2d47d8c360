//! The word with which a value begins.

use dms_text::are_same;

/// The word with which a value begins: its type, or the first of two.
#[derive(Clone, Copy)]
pub(crate) enum TypeWord {
    Integer,
    Octet,
    Null,
    Object,
    Address,
    Counter,
    Gauge,
    Ticks,
    Opaque,
}

impl TypeWord {
    ghost use Rattle.std.specs.Prelude.{◌≡◌};
    ghost use Rattle.dms_text_values.specs.ValueReading.{type_word, application_word};

    /// The word that begins a value, if it is any.
    #[tactic(auto, unfolding(crate::specs::ValueReading::type_word))]
    pub(crate) fn of(word: &[u8]) -> Option<TypeWord>
        ensures { result ≡ type_word word.now }
    {
        if are_same(word, b"INTEGER") {
            Some(TypeWord::Integer)
        } else if are_same(word, b"OCTET") {
            Some(TypeWord::Octet)
        } else if are_same(word, b"NULL") {
            Some(TypeWord::Null)
        } else if are_same(word, b"OBJECT") {
            Some(TypeWord::Object)
        } else {
            TypeWord::application(word)
        }
    }

    /// The type of RFC 1155 that a word is, if any.
    #[tactic(auto, unfolding(crate::specs::ValueReading::application_word))]
    fn application(word: &[u8]) -> Option<TypeWord>
        ensures { result ≡ application_word word.now }
    {
        if are_same(word, b"IpAddress") {
            Some(TypeWord::Address)
        } else if are_same(word, b"Counter") {
            Some(TypeWord::Counter)
        } else if are_same(word, b"Gauge") {
            Some(TypeWord::Gauge)
        } else if are_same(word, b"TimeTicks") {
            Some(TypeWord::Ticks)
        } else if are_same(word, b"Opaque") {
            Some(TypeWord::Opaque)
        } else {
            None
        }
    }
}
