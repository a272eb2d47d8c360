//! The tags of the markup: their names, and the items that their bodies spell.
ghost use Rattle.std.specs.Prelude.{◌≡◌, option_map};
ghost use Rattle.dms_multi.specs.TagReading.{letters_name, end_name, name_at, name_with_rest};
ghost use Rattle.dms_multi.specs.TagReading.{flash_of, page_time_of, item_of, item_alone, body_item};

use crate::fault::FaultCode;
use crate::item::{Item, Lead};
use crate::value::{font, times, value};
use dms_text::hexadecimal;

/// The names of the tags, as the markup writes them; `EndFl` is `/fl`.
#[derive(Clone, Copy)]
pub(crate) enum TagName {
    Cb,
    Pb,
    Cf,
    Fo,
    Fl,
    EndFl,
    Hc,
    Jl,
    Jp,
    Nl,
    Np,
    Pt,
}

/// The name of two small letters.
#[tactic(auto, unfolding(crate::specs::TagReading::letters_name))]
fn letters_name(first: u8, second: u8) -> Option<TagName>
    ensures { result ≡ letters_name first second }
{
    match (first, second) {
        (b'c', b'b') => Some(TagName::Cb),
        (b'p', b'b') => Some(TagName::Pb),
        (b'c', b'f') => Some(TagName::Cf),
        (b'f', b'o') => Some(TagName::Fo),
        (b'f', b'l') => Some(TagName::Fl),
        (b'h', b'c') => Some(TagName::Hc),
        (b'j', b'l') => Some(TagName::Jl),
        (b'j', b'p') => Some(TagName::Jp),
        (b'n', b'l') => Some(TagName::Nl),
        (b'n', b'p') => Some(TagName::Np),
        (b'p', b't') => Some(TagName::Pt),
        _ => None,
    }
}

/// The name after a slash, and what follows it.
#[tactic(auto, unfolding(crate::specs::TagReading::end_name))]
fn end_name(text: &[u8]) -> Option<(TagName, &[u8])>
    ensures { option_map name_with_rest result ≡ end_name text.now }
{
    match text {
        [first, second, rest @ ..] => {
            if first.to_ascii_lowercase() == b'f' && second.to_ascii_lowercase() == b'l' {
                Some((TagName::EndFl, rest))
            } else {
                None
            }
        }
        _ => None,
    }
}

/// The name with which a tag's body begins, and what follows it.
#[tactic(auto, unfolding(crate::specs::TagReading::name_at))]
fn name_at(body: &[u8]) -> Option<(TagName, &[u8])>
    ensures { option_map name_with_rest result ≡ name_at body.now }
{
    match body {
        [first, second, rest @ ..] => {
            if *first == b'/' {
                return end_name(&body[1..]);
            }
            let name = letters_name(first.to_ascii_lowercase(), second.to_ascii_lowercase())?;
            Some((name, rest))
        }
        _ => None,
    }
}

/// The item of a tag `fl` with these values.
#[tactic(auto, unfolding(crate::specs::TagReading::flash_of))]
fn flash(text: &[u8]) -> Option<Item>
    ensures { result ≡ flash_of text.now }
{
    match text {
        [] => Some(Item::FlashOn {
            first: Lead::Lit,
            lit: None,
            dark: None,
        }),
        [letter, rest @ ..] => match letter.to_ascii_lowercase() {
            b't' => {
                let times = times(rest, b'o', 99)?;
                Some(Item::FlashOn {
                    first: Lead::Lit,
                    lit: times.first,
                    dark: times.second,
                })
            }
            b'o' => {
                let times = times(rest, b't', 99)?;
                Some(Item::FlashOn {
                    first: Lead::Dark,
                    lit: times.second,
                    dark: times.first,
                })
            }
            _ => None,
        },
    }
}

/// The item of a tag `pt` with these values.
#[tactic(auto, unfolding(crate::specs::TagReading::page_time_of))]
fn page_time(text: &[u8]) -> Option<Item>
    ensures { result ≡ page_time_of text.now }
{
    let times = times(text, b'o', 255)?;
    Some(Item::PageTime {
        lit: times.first,
        dark: times.second,
    })
}

/// The item of a tag with this name and these values.
#[tactic(auto, unfolding(crate::specs::TagReading::item_of))]
fn item(name: TagName, text: &[u8]) -> Option<Item>
    ensures { result ≡ item_of name text.now }
{
    match name {
        TagName::Cb | TagName::Pb => value(text, 0, 9).map(Item::Background),
        TagName::Cf => value(text, 0, 9).map(Item::Foreground),
        TagName::Fo => font(text).map(Item::Font),
        TagName::Fl => flash(text),
        TagName::EndFl => item_alone(Item::FlashEnd, text),
        TagName::Hc => hexadecimal(text).map(Item::Char),
        TagName::Jl => value(text, 2, 4).map(Item::JustLine),
        TagName::Jp => value(text, 2, 4).map(Item::JustPage),
        TagName::Nl => value(text, 0, 9).map(Item::NewLine),
        TagName::Np => item_alone(Item::NewPage, text),
        TagName::Pt => page_time(text),
    }
}

/// The item, where its tag has no value.
fn item_alone(item: Item, text: &[u8]) -> Option<Item>
    ensures { result ≡ item_alone item text.now }
{
    if text.is_empty() { Some(item) } else { None }
}

/// The item that a tag's body spells.
#[tactic(auto, unfolding(crate::specs::TagReading::body_item))]
pub(crate) fn body_item(body: &[u8]) -> Result<Item, FaultCode>
    ensures { result ≡ body_item body.now }
{
    let (name, text) = name_at(body).ok_or(FaultCode::UnsupportedTag)?;
    item(name, text).ok_or(FaultCode::UnsupportedTagValue)
}
