//! Lines read from a text's front.

ghost use Rattle.std.specs.Prelude.{◌≡◌, ◌≤◌, ◌++◌, IfOk, codes};
ghost use Rattle.dms_sign_state.specs.FieldFaults.{put_name, stored_name, most_rows};
ghost use Rattle.dms_sign_state.specs.WordReading.{Gives};
ghost use Rattle.dms_sign_state.specs.FieldReading.{number_field, code_field, defaults_field, message_field};
ghost use Rattle.dms_sign_state.specs.FieldReading.{address_field};
ghost use Rattle.dms_sign_state.specs.FieldReading.{number_line_at, colours_at, layouts_at};
ghost use Rattle.dms_sign_state.specs.FieldReading.{times_at, defaults_at, message_at, used_status};
ghost use Rattle.dms_sign_state.specs.FieldReading.{status_at, row_at, has_row};

use crate::field::{Put, SignFieldLack, SignStateField, Stored, UnreadSignField};
use crate::fields::{MessageFields, UsedRowFields};
use crate::words::{address, code, named, number, octets, small};
use dms_codes::{MAX_CHANGEABLE, MAX_OWNER, MAX_TEXT, MAX_VOLATILE, Status};
use dms_face::Defaults;
use dms_text_exact::starts_with;
use std::alloc::Global;

/// What the names of its lines begin with.
pub(crate) fn put_name(put: Put) -> &'static str
    ensures { result.now ≡ put_name put }
{
    match put {
        Put::Shown => "shown",
        Put::Kept => "kept",
    }
}

pub(crate) fn stored_name(stored: Stored) -> &'static str
    ensures { result.now ≡ stored_name stored }
{
    match stored {
        Stored::Changeable => "changeable",
        Stored::Volatile => "volatile",
    }
}

/// The most rows of a type of memory.
pub(crate) fn most_rows(stored: Stored) -> u16
    ensures rows { result ≡ most_rows stored }
    ensures few { result ≤ 64 }
{
    match stored {
        Stored::Changeable => u16::from(MAX_CHANGEABLE),
        Stored::Volatile => u16::from(MAX_VOLATILE),
    }
}

/// A number after a name of two parts.
fn number_after<'a>(
    name: &str,
    part: &str,
    high: u32,
    lack: SignFieldLack,
    text: &'a [u8],
) -> Result<(u32, &'a [u8]), UnreadSignField>
    ensures value { Gives (λ x. (x.0, x.1.now)) result (number_line_at name.now part.now high lack text.now) }
    ensures most { IfOk result (λ x. x.0 ≤ high) }
{
    let rest = named(name.as_bytes(), lack, text)?;
    let rest = named(part.as_bytes(), lack, rest)?;
    number(0, high, b'\n', lack, rest)
}

#[tactic(auto, unfolding(crate::specs::FieldReading::number_field))]
pub(crate) fn number_line<'a>(
    wanted: SignStateField,
    name: &str,
    part: &str,
    high: u32,
    text: &'a [u8],
) -> Result<(u32, &'a [u8]), UnreadSignField>
    ensures value { Gives (λ x. (x.0, x.1.now)) result
        (number_field wanted name.now part.now high text.now) }
    ensures most { IfOk result (λ x. x.0 ≤ high) }
{
    let lack = SignFieldLack {
        wanted,
        left: text.len(),
    };
    number_after(name, part, high, lack, text)
}

/// A number of one octet.
pub(crate) fn octet_line<'a>(
    wanted: SignStateField,
    name: &str,
    part: &str,
    text: &'a [u8],
) -> Result<(u8, &'a [u8]), UnreadSignField>
    ensures { Gives (λ x. (x.0, x.1.now)) result
        (number_field wanted name.now part.now 255 text.now) }
{
    let (number, rest) = number_line(wanted, name, part, 255, text)?;
    Ok((number as u8, rest))
}

/// A number of two octets.
pub(crate) fn two_octets_line<'a>(
    wanted: SignStateField,
    name: &str,
    part: &str,
    text: &'a [u8],
) -> Result<(u16, &'a [u8]), UnreadSignField>
    ensures { Gives (λ x. (x.0, x.1.now)) result
        (number_field wanted name.now part.now 65535 text.now) }
{
    let (number, rest) = number_line(wanted, name, part, 65535, text)?;
    Ok((number as u16, rest))
}

/// A code after a name of two parts.
#[tactic(auto, unfolding(crate::specs::FieldReading::code_field))]
pub(crate) fn code_line<'a, const N: usize>(
    wanted: SignStateField,
    name: &str,
    part: &str,
    text: &'a [u8],
) -> Result<([u8; N], &'a [u8]), UnreadSignField>
    ensures { Gives (λ x. (x.0, x.1.now)) result
        (code_field wanted name.now part.now N text.now) }
{
    let lack = SignFieldLack {
        wanted,
        left: text.len(),
    };
    let rest = named(name.as_bytes(), lack, text)?;
    let rest = named(part.as_bytes(), lack, rest)?;
    code(b'\n', lack, rest)
}

/// The colours and flash times of defaults.
#[derive(Drop)]
struct ColourParts {
    background: u8,
    foreground: u8,
    on: u8,
    off: u8,
}

/// The font and justifications of defaults.
#[derive(Drop)]
struct LayoutParts {
    font: u8,
    line: u8,
    page: u8,
}

/// The times of a page.
#[derive(Drop)]
struct TimeParts {
    on: u8,
    off: u8,
}

fn colours(lack: SignFieldLack, text: &[u8]) -> Result<(ColourParts, &[u8]), UnreadSignField>
    ensures { Gives (λ x. ((x.0.background, (x.0.foreground, (x.0.on, x.0.off))), x.1.now)) result
        (colours_at lack text.now) }
{
    let (background, rest) = small(b' ', lack, text)?;
    let (foreground, rest) = small(b' ', lack, rest)?;
    let (on, rest) = small(b' ', lack, rest)?;
    let (off, rest) = small(b' ', lack, rest)?;
    let colours = ColourParts {
        background,
        foreground,
        on,
        off,
    };
    Ok((colours, rest))
}

fn layout(lack: SignFieldLack, text: &[u8]) -> Result<(LayoutParts, &[u8]), UnreadSignField>
    ensures { Gives (λ x. ((x.0.font, (x.0.line, x.0.page)), x.1.now)) result (layouts_at lack text.now) }
{
    let (font, rest) = small(b' ', lack, text)?;
    let (line, rest) = small(b' ', lack, rest)?;
    let (page, rest) = small(b' ', lack, rest)?;
    Ok((LayoutParts { font, line, page }, rest))
}

fn times(lack: SignFieldLack, text: &[u8]) -> Result<(TimeParts, &[u8]), UnreadSignField>
    ensures { Gives (λ x. ((x.0.on, x.0.off), x.1.now)) result (times_at lack text.now) }
{
    let (on, rest) = small(b' ', lack, text)?;
    let (off, rest) = small(b'\n', lack, rest)?;
    Ok((TimeParts { on, off }, rest))
}

#[tactic(auto, unfolding(crate::specs::FieldReading::defaults_at))]
fn defaults(lack: SignFieldLack, text: &[u8]) -> Result<(Defaults, &[u8]), UnreadSignField>
    ensures { Gives (λ x. (x.0, x.1.now)) result (defaults_at lack text.now) }
{
    let (colours, rest) = colours(lack, text)?;
    let (layout, rest) = layout(lack, rest)?;
    let (times, rest) = times(lack, rest)?;
    let defaults = Defaults {
        background: colours.background,
        foreground: colours.foreground,
        flash_on: colours.on,
        flash_off: colours.off,
        font: layout.font,
        line: layout.line,
        page: layout.page,
        on: times.on,
        off: times.off,
    };
    Ok((defaults, rest))
}

/// The nine defaults after a name of two parts.
#[tactic(auto, unfolding(crate::specs::FieldReading::defaults_field))]
pub(crate) fn defaults_line<'a>(
    wanted: SignStateField,
    name: &str,
    part: &str,
    text: &'a [u8],
) -> Result<(Defaults, &'a [u8]), UnreadSignField>
    ensures { Gives (λ x. (x.0, x.1.now)) result
        (defaults_field wanted name.now part.now text.now) }
{
    let lack = SignFieldLack {
        wanted,
        left: text.len(),
    };
    let rest = named(name.as_bytes(), lack, text)?;
    let rest = named(part.as_bytes(), lack, rest)?;
    defaults(lack, rest)
}

#[tactic(auto, unfolding(crate::specs::FieldReading::message_at))]
fn message(
    alloc: Global,
    lack: SignFieldLack,
    text: &[u8],
) -> Result<(MessageFields, &[u8]), UnreadSignField>
    ensures { Gives (λ x. (x.0, x.1.now)) result (message_at lack text.now) }
{
    let (message, rest) = octets(alloc, MAX_TEXT, b' ', lack, text)?;
    let (owner, rest) = octets(alloc, MAX_OWNER, b' ', lack, rest)?;
    let (beacon, rest) = small(b' ', lack, rest)?;
    let (pixel, rest) = small(b' ', lack, rest)?;
    let (priority, rest) = small(b'\n', lack, rest)?;
    let message = MessageFields {
        text: message,
        owner,
        beacon,
        pixel,
        priority,
    };
    Ok((message, rest))
}

#[tactic(auto, unfolding(crate::specs::FieldReading::message_field))]
pub(crate) fn message_line(
    alloc: Global,
    put: Put,
    text: &[u8],
) -> Result<(MessageFields, &[u8]), UnreadSignField>
    ensures { Gives (λ x. (x.0, x.1.now)) result (message_field put text.now) }
{
    let lack = SignFieldLack {
        wanted: SignStateField::Message(put),
        left: text.len(),
    };
    let rest = named(put_name(put).as_bytes(), lack, text)?;
    let rest = named(b" ", lack, rest)?;
    message(alloc, lack, rest)
}

fn used_status(number: u32) -> Status
    ensures { result ≡ used_status number }
{
    match number {
        2 => Status::Modifying,
        3 => Status::Validating,
        4 => Status::Valid,
        _ => Status::Error,
    }
}

fn status(lack: SignFieldLack, text: &[u8]) -> Result<(Status, &[u8]), UnreadSignField>
    ensures { Gives (λ x. (x.0, x.1.now)) result (status_at lack text.now) }
{
    let (number, rest) = number(2, 5, b' ', lack, text)?;
    Ok((used_status(number), rest))
}

/// A row of this number or a greater one.
#[tactic(auto, unfolding(crate::specs::FieldReading::row_at))]
pub(crate) fn row(
    alloc: Global,
    stored: Stored,
    least: u16,
    lack: SignFieldLack,
    text: &[u8],
) -> Result<(UsedRowFields, &[u8]), UnreadSignField>
    ensures value { Gives (λ x. (x.0, x.1.now)) result (row_at stored least lack text.now) }
    ensures few { IfOk result (λ x. x.0.number ≤ 64) }
{
    let rest = named(stored_name(stored).as_bytes(), lack, text)?;
    let rest = named(b" ", lack, rest)?;
    let (number, rest) = number(
        u32::from(least),
        u32::from(most_rows(stored)),
        b' ',
        lack,
        rest,
    )?;
    let (status, rest) = status(lack, rest)?;
    let (message, rest) = message(alloc, lack, rest)?;
    let row = UsedRowFields {
        number: number as u16,
        status,
        message,
    };
    Ok((row, rest))
}

/// Whether a row of this number or a greater one is next.
pub(crate) fn has_row(stored: Stored, least: u16, text: &[u8]) -> bool
    ensures { result ≡ has_row stored least text.now }
{
    least <= most_rows(stored) && starts_with(row_name(stored).as_bytes(), text)
}

fn row_name(stored: Stored) -> &'static str
    ensures { result.now ≡ stored_name stored ++ codes " " }
{
    match stored {
        Stored::Changeable => "changeable ",
        Stored::Volatile => "volatile ",
    }
}

/// Who put up what is shown or was kept.
#[tactic(auto, unfolding(crate::specs::FieldReading::address_field, crate::specs::FieldReading::address_at))]
pub(crate) fn address_line(put: Put, text: &[u8]) -> Result<([u8; 4], &[u8]), UnreadSignField>
    ensures { Gives (λ x. (x.0, x.1.now)) result (address_field put text.now) }
{
    let lack = SignFieldLack {
        wanted: SignStateField::Address(put),
        left: text.len(),
    };
    let rest = named(put_name(put).as_bytes(), lack, text)?;
    let rest = named(b"-address ", lack, rest)?;
    address(b'\n', lack, rest)
}
