//! The words with which the lines after the first seven begin.

ghost use Rattle.std.specs.Prelude.{◌≡◌};

use dms_text::{Words, are_same};

/// The word with which a line after the first seven begins.
#[derive(Clone, Copy)]
pub(crate) enum BodyWord {
    Permanent,
    Font,
    Glyph,
    End,
}

impl BodyWord {
    ghost use Rattle.std.specs.Prelude.{◌≡◌};
    ghost use Rattle.dms_sign_text.specs.Causes.{body_word, word_named};

    /// The word with which a line begins, if it is one of these.
    pub(crate) fn of(line: &[u8]) -> Option<BodyWord>
        ensures { result ≡ body_word line.now }
    {
        let (word, _) = Words::of(line).next_word()?;
        BodyWord::named(word)
    }

    fn named(word: &[u8]) -> Option<BodyWord>
        ensures { result ≡ word_named word.now }
    {
        if are_same(word, b"permanent") {
            Some(BodyWord::Permanent)
        } else if are_same(word, b"font") {
            Some(BodyWord::Font)
        } else if are_same(word, b"glyph") {
            Some(BodyWord::Glyph)
        } else if are_same(word, b"end") {
            Some(BodyWord::End)
        } else {
            None
        }
    }
}
