//! The words with which the lines to a live sign begin.

use dms_text::are_same;

/// The word with which a line begins.
#[derive(Clone, Copy)]
pub(crate) enum SignKeyword {
    Datagram,
    Tick,
    Ticks,
    Heard,
    PowerLost,
    PowerBack,
    Show,
    State,
    Save,
}

impl SignKeyword {
    ghost use Rattle.std.specs.Prelude.{◌≡◌};
    ghost use Rattle.dms_sign_lines.specs.SignReading.{keyword_of, asking_keyword};

    /// The keyword that a word is, if any.
    #[tactic(auto, unfolding(crate::specs::SignReading::keyword_of))]
    pub(crate) fn of(word: &[u8]) -> Option<SignKeyword>
        ensures { result ≡ keyword_of word.now }
    {
        if are_same(word, b"datagram") {
            Some(SignKeyword::Datagram)
        } else if are_same(word, b"tick") {
            Some(SignKeyword::Tick)
        } else if are_same(word, b"ticks") {
            Some(SignKeyword::Ticks)
        } else if are_same(word, b"heard") {
            Some(SignKeyword::Heard)
        } else if are_same(word, b"power-lost") {
            Some(SignKeyword::PowerLost)
        } else if are_same(word, b"power-back") {
            Some(SignKeyword::PowerBack)
        } else {
            SignKeyword::asking(word)
        }
    }

    /// The keyword of a line that asks for what is shown, or for the state.
    fn asking(word: &[u8]) -> Option<SignKeyword>
        ensures { result ≡ asking_keyword word.now }
    {
        if are_same(word, b"show") {
            Some(SignKeyword::Show)
        } else if are_same(word, b"state") {
            Some(SignKeyword::State)
        } else if are_same(word, b"save") {
            Some(SignKeyword::Save)
        } else {
            None
        }
    }
}
