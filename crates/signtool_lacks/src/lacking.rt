//! What a sign lacks for a text, in words.

ghost use Rattle.std.specs.Prelude.{◌≡◌, ◌-◌, ◌<◌, length, IfSome, Some};
ghost use Rattle.dms_codes.specs.Limits.{longest_text};
ghost use Rattle.dms_face.specs.declared.multi_fault.MultiFaultCode.TheVariants.{TextTooBig};
ghost use Rattle.signtool_lacks.specs.LackText.{excess_text, plural_ending, text_of_excess};
ghost use Rattle.signtool_lacks.specs.LackText.{LacksFor, IsOfItem, IsRoom};
ghost use Rattle.signtool_lacks.specs.declared.lacking.FaceLack.TheVariants.{Octets};

use dms_codes::MAX_TEXT;
use dms_face::{Face, Font, Glyph, MultiFault, MultiFaultCode, check};
use dms_multi::{Item, items};
use std::alloc::{AllocError, Global};
use std::fmt;
use std::io::Write;

/// The most columns and rows of a matrix.
const WIDEST: u16 = 256;

const HIGHEST: u16 = 64;

/// The powers of two that make up each number below 256.
const STEPS: [u16; 8] = [128, 64, 32, 16, 8, 4, 2, 1];

/// What a sign lacks for a text that it refuses.
#[derive(Clone, Copy)]
pub enum FaceLack {
    /// A picture of a character.
    Character { character: u16, font: u8 },
    /// A font of this number.
    Font(u8),
    /// So many columns, for the line that does not fit.
    Columns(u16),
    /// So many rows, for the page that does not fit.
    Rows(u16),
    /// Room for so many octets.
    Octets(usize),
}

impl fmt::Display for FaceLack {
    ghost use Rattle.std.specs.Prelude.{Some};
    ghost use Rattle.signtool_lacks.specs.LackText.{lack_text};

    ghost output = { λ lack. Some (lack_text lack) };

    fn fmt<W: fmt::Write>(&self, f: &mut fmt::Formatter<W>) -> fmt::Result {
        match self {
            FaceLack::Character { character, font } => {
                write!(f, "character {character}{}", OutsideFont { font: *font })
            }
            FaceLack::Font(font) => write!(f, "the sign has no font {font}"),
            FaceLack::Columns(count) => {
                let excess = too_much("wider than the matrix", usize::from(*count), "column");
                write!(f, "{excess}")
            }
            FaceLack::Rows(count) => {
                let excess = too_much("higher than the matrix", usize::from(*count), "row");
                write!(f, "{excess}")
            }
            FaceLack::Octets(count) => {
                let excess = too_much("longer than a text may be", *count, "octet");
                write!(f, "{excess}")
            }
        }
    }
}

/// That a character is not in a font.
#[derive(Clone, Copy)]
struct OutsideFont {
    font: u8,
}

impl fmt::Display for OutsideFont {
    ghost use Rattle.std.specs.Prelude.{Some};
    ghost use Rattle.signtool_lacks.specs.LackText.{text_of_outside};

    ghost output = { λ it. Some (text_of_outside it) };

    fn fmt<W: fmt::Write>(&self, f: &mut fmt::Formatter<W>) -> fmt::Result {
        write!(f, " is not in font {}", self.font)
    }
}

/// By how many of a unit something is too much.
#[derive(Clone, Copy)]
struct Excess {
    what: &'static str,
    count: usize,
    unit: &'static str,
}

impl fmt::Display for Excess {
    ghost use Rattle.std.specs.Prelude.{Some};
    ghost use Rattle.signtool_lacks.specs.LackText.{text_of_excess};

    ghost output = { λ it. Some (text_of_excess it) };

    fn fmt<W: fmt::Write>(&self, f: &mut fmt::Formatter<W>) -> fmt::Result {
        let ending = plural_ending(self.count);
        write!(f, "{} by {} {}{ending}", self.what, self.count, self.unit)
    }
}

fn too_much(what: &'static str, count: usize, unit: &'static str) -> Excess
    ensures { text_of_excess result ≡ excess_text what.now count unit.now }
{
    Excess { what, count, unit }
}

fn plural_ending(count: usize) -> &'static str
    ensures { result.now ≡ plural_ending count }
{
    if count == 1 { "" } else { "s" }
}

/// What a face lacks for a text with this fault, where that is a character, a font or room. `None` where no matrix has
/// the room, and where there is no memory to look.
pub fn what_lacks(alloc: Global, face: &Face, text: &[u8], fault: MultiFault) -> Option<FaceLack>
    ensures kind { IfSome result (LacksFor fault.code text.now) }
    ensures octets { fault.code ≡ TextTooBig → longest_text < length text.now
        → result ≡ Some (Octets (length text.now - longest_text)) }
{
    match fault.code {
        MultiFaultCode::CharacterNotDefined | MultiFaultCode::FontNotDefined => {
            missing_item(face, text, fault.place)
        }
        MultiFaultCode::TextTooBig => match text.len().saturating_sub(MAX_TEXT) {
            0 => missing_room(alloc, face, text, fault.place),
            count => Some(FaceLack::Octets(count)),
        },
        _ => None,
    }
}

/// The character that begins at this octet and the font that it is looked for in, or the font that is asked for there.
fn missing_item(face: &Face, text: &[u8], place: usize) -> Option<FaceLack>
    ensures { IfSome result IsOfItem }
{
    let mut font = face.defaults().font;
    for spot in items(text) {
        let spot = spot.ok()?;
        let is_there = spot.first == place;
        match spot.item {
            Item::Char(character) if is_there => return Some(FaceLack::Character {
                character,
                font,
            }),
            Item::Font(Some((number, _))) if is_there => return Some(FaceLack::Font(number)),
            Item::Font(Some((number, _))) => font = number,
            Item::Font(None) => font = face.defaults().font,
            _ => {}
        }
    }
    None
}

/// The columns or the rows that a matrix has to have more, for the item at this octet and those after it on its line or
/// its page.
fn missing_room(alloc: Global, face: &Face, text: &[u8], place: usize) -> Option<FaceLack>
    ensures { IfSome result IsRoom }
{
    let past = place.saturating_add(1);
    if takes(alloc, face, (face.width(), HIGHEST), text, past).ok()? {
        let count = more_rows(alloc, face, text, end_of_page(text, place)).ok()?;
        let is_of_a_matrix = face.height().saturating_add(count) <= HIGHEST;
        is_of_a_matrix.then_some(FaceLack::Rows(count))
    } else {
        let count = more_columns(alloc, face, text, end_of_line(text, place)).ok()?;
        let is_of_a_matrix = face.width().saturating_add(count) <= WIDEST;
        is_of_a_matrix.then_some(FaceLack::Columns(count))
    }
}

/// How many columns more a matrix has to have, to take the items before an octet.
fn more_columns(alloc: Global, face: &Face, text: &[u8], end: usize) -> Result<u16, AllocError> {
    let mut too_few = 0_u16;
    for step in STEPS {
        let tried = too_few.saturating_add(step);
        let width = face.width().saturating_add(tried);
        if !takes(alloc, face, (width, HIGHEST), text, end)? {
            too_few = tried;
        }
    }
    Ok(too_few.saturating_add(1))
}

/// How many rows more a matrix has to have, to take the items before an octet.
fn more_rows(alloc: Global, face: &Face, text: &[u8], end: usize) -> Result<u16, AllocError> {
    let mut too_few = 0_u16;
    for step in STEPS {
        let tried = too_few.saturating_add(step);
        let height = face.height().saturating_add(tried);
        if !takes(alloc, face, (WIDEST, height), text, end)? {
            too_few = tried;
        }
    }
    Ok(too_few.saturating_add(1))
}

/// Whether a matrix of this size has room for the items of a text that begin before an octet. One that is larger than
/// any has.
fn takes(
    alloc: Global,
    face: &Face,
    size: (u16, u16),
    text: &[u8],
    end: usize,
) -> Result<bool, AllocError> {
    let (width, height) = size;
    if width > WIDEST || height > HIGHEST {
        return Ok(true);
    }
    let fonts = unlit_fonts(alloc, face)?;
    match Face::new(width, height, fonts, face.defaults()) {
        Ok(larger) => Ok(has_room(&larger, text, end)),
        Err(_) => Ok(true),
    }
}

/// Whether a face has room for the items of a text that begin before an octet.
fn has_room(face: &Face, text: &[u8], end: usize) -> bool {
    match check(face, text) {
        Ok(_) => true,
        Err(fault) => fault.place >= end,
    }
}

/// The fonts of a face, with pictures of which none has a lit lamp.
fn unlit_fonts(alloc: Global, face: &Face) -> Result<Vec<Font>, AllocError> {
    let mut fonts = Vec::new(alloc);
    for font in face.fonts() {
        fonts.push(unlit(alloc, font)?)?;
    }
    Ok(fonts)
}

/// A font with the sizes of this one, of which no picture has a lit lamp.
fn unlit(alloc: Global, font: &Font) -> Result<Font, AllocError> {
    let mut text = Vec::new(alloc);
    put_header(&mut text, font)?;
    for glyph in font.glyphs() {
        put_unlit(&mut text, glyph)?;
    }
    Font::from_text(alloc, text.as_slice()).or(Err(AllocError))
}

/// Appends the first line of a font.
fn put_header(text: &mut Vec<u8>, font: &Font) -> Result<(), AllocError> {
    writeln!(
        text,
        "font {} height {} space {} line {} version {:04x}",
        font.number(),
        font.height(),
        font.character_spacing(),
        font.line_spacing(),
        font.version()
    )
    .or(Err(AllocError))
}

/// Appends the line of a picture of this size without a lit lamp.
fn put_unlit(text: &mut Vec<u8>, glyph: &Glyph) -> Result<(), AllocError> {
    let (character, width) = (glyph.character(), glyph.width());
    write!(text, "glyph {character} {width} ").or(Err(AllocError))?;
    let lamps = u32::from(width) * u32::from(glyph.height());
    for _ in 0..lamps.div_ceil(8) {
        text.extend_from_slice(b"00")?;
    }
    text.push(b'\n')?;
    Ok(())
}

/// Where the line of an octet ends: the first octet of the next item that closes a line, or the octet after the text's
/// end.
fn end_of_line(text: &[u8], place: usize) -> usize {
    for spot in items(text) {
        match spot {
            Ok(spot) if spot.first > place && closes_line(spot.item) => return spot.first,
            Ok(_) => {}
            Err(_) => break,
        }
    }
    text.len().saturating_add(1)
}

fn closes_line(item: Item) -> bool {
    matches!(item, Item::NewLine(_) | Item::NewPage | Item::JustPage(_))
}

/// Where the page of an octet ends: the octet after the first one of the next item that closes a page, or that after
/// the text's end.
fn end_of_page(text: &[u8], place: usize) -> usize {
    for spot in items(text) {
        match spot {
            Ok(spot) if spot.first >= place && matches!(spot.item, Item::NewPage) => {
                return spot.first.saturating_add(1);
            }
            Ok(_) => {}
            Err(_) => break,
        }
    }
    text.len().saturating_add(1)
}
