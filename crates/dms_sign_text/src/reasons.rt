//! Why a description is refused: the cause that its line is at fault.

ghost use Rattle.std.specs.Prelude.{◌≡◌, IfOk, IfSome, IfNone, map};
ghost use Rattle.std.specs.Str.Lines.{lines};
ghost use Rattle.dms_text.specs.Lines.{kept_lines};
ghost use Rattle.dms_sign_text.specs.Description.{Description, SpellsSign};
ghost use Rattle.dms_sign_text.specs.RefusedLine.{octets_of, all_numbered, IsRefusedLine};
ghost use Rattle.dms_sign_text.specs.Setups.{octets_left};
ghost use Rattle.dms_sign_text.specs.Views.{head_seen, row_seen, after};
ghost use Rattle.dms_sign_text.specs.Causes.{form_cause, glyph_cause, last_font, is_no_glyph};
ghost use Rattle.dms_sign_text.specs.Causes.{line_cause, after_cause, stop_cause, body_cause, first_cause};

use crate::body_word::BodyWord;
use crate::fault::DescriptionFault;
use crate::fonts::fonts;
use crate::head::Head;
use crate::reader::description;
use crate::rows::{OwnedRow, rows};
use crate::sign_reasons::sign_cause;
use crate::upcoming::Upcoming;
use dms_face_font::{Font, FontFaultKind};
use dms_sign_text_causes::{DescriptionLine, LineCause};
use dms_text::{Lines, are_same};
use dms_text_forms::word_fault;
use std::alloc::{AllocError, Global};

/// Why the line of this number is the one for which the description is refused. There is a cause of each such line;
/// none is said of any other line, and none where the description is a sign's.
pub fn cause_of_line(
    alloc: Global,
    octets: &[u8],
    number: usize,
) -> Result<Option<LineCause>, AllocError>
    ensures cause { IfOk result (λ found. IfSome found (λ cause. first_cause (kept_lines octets.now) ≡ Some cause)) }
    ensures refused { IfOk result
        (λ found. IfSome found (λ cause. (it : Description) → SpellsSign (kept_lines octets.now) it → ⊥)) }
    ensures number { IfOk result
        (λ found. IfSome found (λ cause. IsRefusedLine (all_numbered (lines octets.now)) number)) }
    ensures told { IfOk result
        (λ found. IfNone found (IsRefusedLine (all_numbered (lines octets.now)) number → ⊥)) }
{
    let Err(fault) = description(alloc, octets) else {
        return Ok(None);
    };
    match fault {
        DescriptionFault::Line(line) if line == number => first_cause(alloc, octets),
        DescriptionFault::Line(_) => Ok(None),
        DescriptionFault::Memory => Err(AllocError),
    }
}

/// The first cause for which these octets are no sign's description: none only where they are one.
pub fn first_cause(alloc: Global, octets: &[u8]) -> Result<Option<LineCause>, AllocError>
    ensures cause { IfOk result (λ found. found ≡ first_cause (kept_lines octets.now)) }
    ensures told { IfOk result
        (λ found. IfNone found ((it : Description) × SpellsSign (kept_lines octets.now) it)) }
{
    cause_of(alloc, octets)
}

/// What is wrong with the lines that are left of a text.
fn cause_of(alloc: Global, octets: &[u8]) -> Result<Option<LineCause>, AllocError>
    ensures cause { IfOk result
        (λ found. found ≡ first_cause (octets_left (record { number = 1; text = octets.now }))) }
    ensures told { IfOk result (λ found. IfNone found
        ((it : Description) × SpellsSign (octets_left (record { number = 1; text = octets.now })) it)) }
{
    match Head::read(Lines::of(octets)) {
        Ok((head, lines)) => body_cause(alloc, &head, lines),
        Err(fault) => Ok(Some(fault.cause)),
    }
}

/// Why the lines after the first seven end no sign.
fn body_cause(
    alloc: Global,
    head: &Head<'_>,
    lines: Lines<'_>,
) -> Result<Option<LineCause>, AllocError>
    ensures { IfOk result (λ found. found ≡ body_cause (Some (head_seen head.now, octets_left lines.entry))) }
{
    let (rows, upcoming) = rows(alloc, Upcoming::of(lines))?;
    let (fonts, upcoming) = fonts(alloc, upcoming)?;
    stop_cause(alloc, head, rows.as_slice(), fonts, upcoming)
}

/// The first word of a line that is not of its form.
fn form_cause(form: DescriptionLine, line: &[u8]) -> Option<LineCause>
    ensures { result ≡ form_cause form line.now }
{
    word_fault(form.words(), line).map(LineCause::Word)
}

/// Why the line that comes next ends no sign of these parts.
fn stop_cause(
    alloc: Global,
    head: &Head<'_>,
    rows: &[OwnedRow],
    fonts: Vec<Font>,
    lines: Upcoming<'_>,
) -> Result<Option<LineCause>, AllocError>
    ensures { IfOk result
        (λ found. found ≡ stop_cause (head_seen head.now) (map row_seen rows.now) fonts.items
        (octets_of lines.entry.lines)) }
{
    let Some(line) = lines.peek() else {
        return Ok(Some(LineCause::NoEnd));
    };
    if !are_same(line, b"end") {
        return line_cause(alloc, fonts, line);
    }
    if let Some(cause) = sign_cause(alloc, head, rows, fonts)? {
        return Ok(Some(LineCause::Sign(cause)));
    }
    Ok(after_cause(lines))
}

/// A line stands after the line `end`, which comes next.
fn after_cause(lines: Upcoming<'_>) -> Option<LineCause>
    ensures { result ≡ after_cause (after (octets_of lines.entry.lines)) }
{
    let mut lines = lines;
    lines.advance();
    match lines.peek() {
        Some(_) => Some(LineCause::AfterEnd),
        None => None,
    }
}

/// Why a line may not stand after these fonts.
fn line_cause(alloc: Global, fonts: Vec<Font>, line: &[u8]) -> Result<Option<LineCause>, AllocError>
    ensures { IfOk result (λ found. found ≡ line_cause fonts.items line.now) }
{
    match BodyWord::of(line) {
        Some(BodyWord::Permanent) if fonts.is_empty() => Ok(form_cause(
            DescriptionLine::Permanent,
            line,
        )),
        Some(BodyWord::Permanent) => Ok(Some(LineCause::RowAfterFont)),
        Some(BodyWord::Font) => Ok(form_cause(DescriptionLine::Font, line)),
        Some(BodyWord::Glyph) => glyph_cause(alloc, fonts, line),
        Some(BodyWord::End) => Ok(form_cause(DescriptionLine::End, line)),
        None => Ok(Some(LineCause::Keyword)),
    }
}

/// Why a line is no character of the last of these fonts.
fn glyph_cause(
    alloc: Global,
    fonts: Vec<Font>,
    line: &[u8],
) -> Result<Option<LineCause>, AllocError>
    ensures { IfOk result (λ found. found ≡ glyph_cause fonts.items line.now) }
{
    let Some(mut font) = last_font(fonts) else {
        return Ok(Some(LineCause::GlyphBeforeFont));
    };
    match font.add_glyph(alloc, line) {
        Ok(()) => Ok(None),
        Err(FontFaultKind::Memory) => Err(AllocError),
        Err(kind) => {
            if is_no_glyph(kind) {
                Ok(form_cause(DescriptionLine::Glyph, line))
            } else {
                Ok(Some(LineCause::Glyph(kind)))
            }
        }
    }
}

fn last_font(fonts: Vec<Font>) -> Option<Font>
    ensures { result ≡ last_font fonts.items }
{
    let mut fonts = fonts;
    match fonts.pop() {
        Some(font) => Some(font),
        None => None,
    }
}

fn is_no_glyph(kind: FontFaultKind) -> bool
    ensures { result ≡ is_no_glyph kind }
{
    matches!(kind, FontFaultKind::Glyph)
}
