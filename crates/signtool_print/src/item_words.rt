//! What the items of a text are, in words, with their values.

ghost use Rattle.std.specs.Prelude.{◌≡◌, ◌++◌, [], None, codes};
ghost use Rattle.signtool_print.specs.ItemLines.{flash_name, font_number, font_version, value_text};
ghost use Rattle.signtool_print.specs.ItemWords.{text_of_values};

use dms_multi::{Item, Lead};

/// What an item is, and its values, of which none is the sign's default.
#[derive(Clone, Copy)]
pub(crate) struct ItemWords {
    pub name: &'static str,
    pub values: Values,
    /// The version of a font.
    pub version: Option<u16>,
}

/// The values of an item.
#[derive(Clone, Copy)]
pub(crate) enum Values {
    Nothing,
    One(Option<u16>),
    Two(Option<u16>, Option<u16>),
}

impl ItemWords {
    ghost use Rattle.std.specs.Prelude.{◌≡◌};
    ghost use Rattle.signtool_print.specs.ItemLines.{item_name, values_text, item_version};
    ghost use Rattle.signtool_print.specs.ItemWords.{text_of_values};

    /// The words of an item.
    pub(crate) fn of(item: Item) -> ItemWords
        ensures name { result.name.now ≡ item_name item }
        ensures values { text_of_values result.values ≡ values_text item }
        ensures version { result.version ≡ item_version item }
    {
        match item {
            Item::Char(character) => one("character", Some(character)),
            Item::Background(colour) => one("background", wide(colour)),
            Item::Foreground(colour) => one("foreground", wide(colour)),
            Item::Font(font) => of_font(font),
            Item::FlashOn { first, lit, dark } => two(flash_name(first), lit, dark),
            Item::FlashEnd => without_values("end of flash"),
            Item::JustLine(side) => one("line", wide(side)),
            Item::JustPage(part) => one("page", wide(part)),
            Item::NewLine(gap) => one("new line", wide(gap)),
            Item::NewPage => without_values("new page"),
            Item::PageTime { lit, dark } => two("page time", lit, dark),
        }
    }
}

fn of_font(font: Option<(u8, Option<u16>)>) -> ItemWords
    ensures name { result.name.now ≡ codes "font" }
    ensures values { text_of_values result.values ≡ value_text (font_number font) }
    ensures version { result.version ≡ font_version font }
{
    let (number, version) = match font {
        Some((number, version)) => (Some(u16::from(number)), version),
        None => (None, None),
    };
    ItemWords {
        name: "font",
        values: Values::One(number),
        version,
    }
}

/// The name of a flash that begins with this time.
fn flash_name(first: Lead) -> &'static str
    ensures { result.now ≡ flash_name first }
{
    match first {
        Lead::Lit => "flash lit",
        Lead::Dark => "flash dark",
    }
}

fn without_values(name: &'static str) -> ItemWords
    ensures name { result.name.now ≡ name.now }
    ensures values { text_of_values result.values ≡ [] }
    ensures version { result.version ≡ None }
{
    ItemWords {
        name,
        values: Values::Nothing,
        version: None,
    }
}

fn one(name: &'static str, value: Option<u16>) -> ItemWords
    ensures name { result.name.now ≡ name.now }
    ensures values { text_of_values result.values ≡ value_text value }
    ensures version { result.version ≡ None }
{
    ItemWords {
        name,
        values: Values::One(value),
        version: None,
    }
}

fn two(name: &'static str, lit: Option<u8>, dark: Option<u8>) -> ItemWords
    ensures name { result.name.now ≡ name.now }
    ensures values { text_of_values result.values ≡ value_text lit ++ value_text dark }
    ensures version { result.version ≡ None }
{
    ItemWords {
        name,
        values: Values::Two(wide(lit), wide(dark)),
        version: None,
    }
}

fn wide(value: Option<u8>) -> Option<u16>
    ensures { result ≡ value }
{
    match value {
        Some(value) => Some(u16::from(value)),
        None => None,
    }
}
