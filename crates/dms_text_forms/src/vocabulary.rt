//! The words that stand as they are in the lines of descriptions and scripts, and the names of the others.

/// A word that stands as it is in lines.
#[derive(Clone, Copy, Debug, PartialEq, Eq)]
pub enum Keyword {
    Size,
    Communities,
    Rows,
    Order,
    High,
    Swapped,
    Has,
    Defaults,
    First,
    Permanent,
    Font,
    Height,
    Space,
    Line,
    Version,
    Glyph,
    End,
    Publish,
    Blank,
    Activate,
    SignTick,
    CentreTick,
    ToSign,
    ToCentre,
    PowerLost,
    PowerBack,
    CentreRestart,
    ForgeSign,
    ForgeCentre,
}

impl Keyword {
    ghost use Rattle.std.specs.Prelude.{◌≡◌};
    ghost use Rattle.dms_text_forms.specs.Vocabulary.{keyword_text};

    /// How it is spelled.
    pub fn text(self) -> &'static str
        ensures { result.now ≡ keyword_text self }
    {
        match self {
            Keyword::Size => "size",
            Keyword::Communities => "communities",
            Keyword::Rows => "rows",
            Keyword::Order => "order",
            Keyword::High => "high",
            Keyword::Swapped => "swapped",
            Keyword::Has => "has",
            Keyword::Defaults => "defaults",
            Keyword::First => "first",
            Keyword::Permanent => "permanent",
            Keyword::Font => "font",
            Keyword::Height => "height",
            Keyword::Space => "space",
            Keyword::Line => "line",
            Keyword::Version => "version",
            Keyword::Glyph => "glyph",
            Keyword::End => "end",
            Keyword::Publish => "publish",
            Keyword::Blank => "blank",
            Keyword::Activate => "activate",
            Keyword::SignTick => "sign-tick",
            Keyword::CentreTick => "centre-tick",
            Keyword::ToSign => "to-sign",
            Keyword::ToCentre => "to-centre",
            Keyword::PowerLost => "power-lost",
            Keyword::PowerBack => "power-back",
            Keyword::CentreRestart => "centre-restart",
            Keyword::ForgeSign => "forge-sign",
            Keyword::ForgeCentre => "forge-centre",
        }
    }
}

/// What a word is, where any word or any octets will do.
#[derive(Clone, Copy, Debug, PartialEq, Eq)]
pub enum WordName {
    Reader,
    Writer,
    Text,
    Owner,
    Picture,
    Datagram,
}

impl WordName {
    ghost use Rattle.std.specs.Prelude.{◌≡◌};
    ghost use Rattle.dms_text_forms.specs.Vocabulary.{name_text};

    /// How it is said.
    pub fn text(self) -> &'static str
        ensures { result.now ≡ name_text self }
    {
        match self {
            WordName::Reader => "the first community",
            WordName::Writer => "the second community",
            WordName::Text => "a text",
            WordName::Owner => "an owner",
            WordName::Picture => "a picture",
            WordName::Datagram => "a datagram",
        }
    }
}
