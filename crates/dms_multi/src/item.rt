//! The items of a message's markup.
ghost use Rattle.std.specs.Prelude.{IsTrue, ◌↔◌};

/// Which of its two times a flash begins with.
#[derive(Clone, Copy, Debug, PartialEq, Eq)]
pub enum Lead {
    /// With the time for which characters are lit: `[flt..o..]`.
    Lit,
    /// With the time for which they are dark: `[flo..t..]`.
    Dark,
}

/// One item of a message's markup. A value that is missing stands for the sign's default.
#[derive(Clone, Copy, Debug, PartialEq, Eq)]
pub enum Item {
    /// A character.
    Char(u16),
    /// The background's colour, 0 to 9.
    Background(Option<u8>),
    /// The colour of the characters, 0 to 9.
    Foreground(Option<u8>),
    /// A font's number, 1 to 255, and perhaps the version that it is to have.
    Font(Option<(u8, Option<u16>)>),
    /// The characters from here on flash; the times are 0 to 99 tenths of a second.
    FlashOn {
        /// The time that comes first.
        first: Lead,
        /// How long the characters are lit.
        lit: Option<u8>,
        /// How long they are dark.
        dark: Option<u8>,
    },
    /// The characters from here on do not flash.
    FlashEnd,
    /// Where in the line characters stand: left 2, centre 3, right 4.
    JustLine(Option<u8>),
    /// Where on the page lines stand: top 2, middle 3, bottom 4.
    JustPage(Option<u8>),
    /// A new line, with a gap of 0 to 9 pixels above it.
    NewLine(Option<u8>),
    /// A new page.
    NewPage,
    /// How long the page is shown, and how long it is blank, in tenths of a second.
    PageTime {
        /// How long the page is shown, 0 to 255 tenths.
        lit: Option<u8>,
        /// How long it is blank, 0 to 255 tenths.
        dark: Option<u8>,
    },
}

impl Item {
    ghost use Rattle.dms_multi.specs.Item.{IsInRange};

    /// Whether the item's values are in the ranges of their tag.
    pub fn in_range(self) -> bool
        ensures { IsTrue result ↔ IsInRange self }
    {
        match self {
            Item::Char(_) | Item::FlashEnd | Item::NewPage => true,
            Item::Background(value) | Item::Foreground(value) | Item::NewLine(value) => {
                is_within(value, 0, 9)
            }
            Item::JustLine(value) | Item::JustPage(value) => is_within(value, 2, 4),
            Item::Font(font) => match font {
                Some((number, _)) => number >= 1,
                None => true,
            },
            Item::FlashOn {
                first: _,
                lit,
                dark,
            } => is_within(lit, 0, 99) && is_within(dark, 0, 99),
            Item::PageTime { lit, dark } => is_within(lit, 0, 255) && is_within(dark, 0, 255),
        }
    }
}

ghost use Rattle.dms_multi.specs.Range.{IsWithin};

fn is_within(value: Option<u8>, low: u8, high: u8) -> bool
    ensures { IsTrue result ↔ IsWithin low high value }
{
    match value {
        Some(number) => low <= number && number <= high,
        None => true,
    }
}
