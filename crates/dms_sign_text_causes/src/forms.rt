//! What each word of a description's lines after the first seven is to be.

use dms_text_forms::{Keyword, Wanted, WordName};

/// A line of a description after the first seven.
#[derive(Clone, Copy)]
pub enum DescriptionLine {
    /// A permanent row.
    Permanent,
    /// The first line of a font.
    Font,
    /// A character of a font.
    Glyph,
    /// The last line.
    End,
}

impl DescriptionLine {
    ghost use Rattle.std.specs.Prelude.{◌≡◌};
    ghost use Rattle.dms_sign_text_causes.specs.Forms.{form_words};

    /// What its words are to be.
    pub fn words(self) -> &'static [Wanted]
        ensures { result.now ≡ form_words self }
    {
        match self {
            DescriptionLine::Permanent => &[
                Wanted::Keyword(Keyword::Permanent),
                Wanted::Octets(WordName::Text),
                Wanted::Octets(WordName::Owner),
                Wanted::Number(0, 255),
                Wanted::Number(0, 255),
                Wanted::Number(0, 255),
            ],
            DescriptionLine::Font => &[
                Wanted::Keyword(Keyword::Font),
                Wanted::Number(1, 255),
                Wanted::Keyword(Keyword::Height),
                Wanted::Number(1, 32),
                Wanted::Keyword(Keyword::Space),
                Wanted::Number(0, 32),
                Wanted::Keyword(Keyword::Line),
                Wanted::Number(0, 32),
                Wanted::Keyword(Keyword::Version),
                Wanted::Version,
            ],
            DescriptionLine::Glyph => &[
                Wanted::Keyword(Keyword::Glyph),
                Wanted::Number(1, 65535),
                Wanted::Number(1, 32),
                Wanted::Octets(WordName::Picture),
            ],
            DescriptionLine::End => &[Wanted::Keyword(Keyword::End)],
        }
    }
}
