//! Why the parts of a sign are no sign.

ghost use Rattle.std.specs.Prelude.{◌≡◌, ◌+◌, ◌<◌, ◌^◌, length, map};
ghost use Rattle.dms_face.specs.Face.{has_font};
ghost use Rattle.dms_table.specs.Stock.{permanent_row};
ghost use Rattle.dms_sign_text_causes.specs.SignCauses.{matrix_cause, fonts_cause, number_twice, defaults_cause};
ghost use Rattle.dms_sign_text_causes.specs.SignCauses.{face_cause, communities_cause, counts_cause, rows_cause};

use crate::row_causes::row_cause;
use crate::sign_causes::SignCause;
use dms_codes::{
    MAX_CHANGEABLE, MAX_MATRIX_HEIGHT, MAX_MATRIX_WIDTH, MAX_PERMANENT, MAX_VOLATILE,
    has_community_size,
};
use dms_face::{Defaults, Face, MAX_FONTS};
use dms_face_font::Font;
use dms_table::{Permanent, Services};

/// The first reason why these are no face: its matrix, its fonts, its defaults.
pub fn face_cause(width: u16, height: u16, fonts: &[Font], defaults: Defaults) -> Option<SignCause>
    ensures { result ≡ face_cause (record { width = width; height = height; fonts = fonts.now; defaults = defaults }) }
{
    if let Some(cause) = matrix_cause(width, height) {
        return Some(cause);
    }
    if let Some(cause) = fonts_cause(fonts) {
        return Some(cause);
    }
    defaults_cause(fonts, defaults)
}

fn matrix_cause(width: u16, height: u16) -> Option<SignCause>
    ensures { result ≡ matrix_cause width height }
{
    if width < 1 {
        Some(SignCause::NoColumns)
    } else if width > MAX_MATRIX_WIDTH {
        Some(SignCause::Wide)
    } else if height < 1 {
        Some(SignCause::NoRows)
    } else if height > MAX_MATRIX_HEIGHT {
        Some(SignCause::High)
    } else {
        None
    }
}

fn fonts_cause(fonts: &[Font]) -> Option<SignCause>
    ensures { result ≡ fonts_cause fonts.now }
{
    if fonts.is_empty() {
        return Some(SignCause::NoFont);
    }
    if fonts.len() > MAX_FONTS {
        return Some(SignCause::FifthFont);
    }
    number_twice(fonts).map(SignCause::FontTwice)
}

/// The first number that two of the fonts have.
fn number_twice(fonts: &[Font]) -> Option<u8>
    ensures { result ≡ number_twice fonts.now }
{
    match fonts {
        [] => None,
        [font, others @ ..] => {
            if has_font(others, font.number()) {
                Some(font.number())
            } else {
                number_twice(others)
            }
        }
    }
}

fn has_font(fonts: &[Font], number: u8) -> bool
    ensures { result ≡ has_font fonts.now number }
{
    fonts.iter().any(|font| font.number() == number)
}

fn defaults_cause(fonts: &[Font], defaults: Defaults) -> Option<SignCause>
    ensures { result ≡ defaults_cause fonts.now defaults }
{
    if defaults.background > 9 {
        Some(SignCause::Background(defaults.background))
    } else if defaults.foreground > 9 {
        Some(SignCause::Foreground(defaults.foreground))
    } else if defaults.line < 2 || defaults.line > 4 {
        Some(SignCause::Line(defaults.line))
    } else if defaults.page < 2 || defaults.page > 4 {
        Some(SignCause::Page(defaults.page))
    } else if !has_font(fonts, defaults.font) {
        Some(SignCause::Font(defaults.font))
    } else {
        None
    }
}

/// The first reason why these are no communities of a sign.
pub fn communities_cause(reader: &[u8], writer: &[u8]) -> Option<SignCause>
    ensures { result ≡ communities_cause reader.now writer.now }
{
    if !has_community_size(reader) {
        Some(SignCause::Reader)
    } else if !has_community_size(writer) {
        Some(SignCause::Writer)
    } else if reader == writer {
        Some(SignCause::SameCommunities)
    } else {
        None
    }
}

/// The first reason why a table has not so many rows.
pub fn counts_cause(permanent: usize, changeable: u8, volatile: u8) -> Option<SignCause>
    ensures { result ≡ counts_cause permanent changeable volatile }
{
    if permanent > MAX_PERMANENT {
        Some(SignCause::PermanentRows)
    } else if changeable > MAX_CHANGEABLE {
        Some(SignCause::ChangeableRows)
    } else if volatile > MAX_VOLATILE {
        Some(SignCause::VolatileRows)
    } else {
        None
    }
}

/// The first of these rows that can not stand on this face, and why. The first of them has this number; the
/// number of the last must be below 2^64.
pub fn rows_cause(
    services: Services,
    face: &Face,
    number: usize,
    rows: &[Permanent<'_>],
) -> Option<SignCause>
    requires { number + length rows.now < 2 ^ 64 }
    ensures { result ≡ rows_cause services face.now number (map permanent_row rows.now) }
{
    match rows {
        [] => None,
        [row, others @ ..] => match row_cause(services, face, row) {
            Some(cause) => Some(SignCause::Row(number, cause)),
            None => rows_cause(services, face, number + 1, others),
        },
    }
}
