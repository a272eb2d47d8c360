//! The fonts of a description.

ghost use Rattle.std.specs.Prelude.{◌≡◌, [], IfOk};
ghost use Rattle.dms_sign_text.specs.DescriptionReading.{fonts_from, fonts_at};
ghost use Rattle.dms_sign_text.specs.RefusedLine.{octets_of, Leaves};

use crate::upcoming::Upcoming;
use dms_face_font::{Font, FontFaultKind};
use std::alloc::{AllocError, Global};

/// The fonts that come next, and the lines after them.
#[tactic(auto, unfolding(crate::specs::DescriptionReading::fonts_at), using(crate::proofs::LastLines::last))]
pub(crate) fn fonts<'a>(
    alloc: Global,
    lines: Upcoming<'a>,
) -> Result<(Vec<Font>, Upcoming<'a>), AllocError>
    ensures fonts { IfOk result (λ x. x.0.items ≡ (fonts_at (octets_of lines.entry.lines)).0) }
    ensures rest { IfOk result (λ x. octets_of x.1.lines ≡ (fonts_at (octets_of lines.entry.lines)).1) }
    ensures last { IfOk result (λ x. Leaves lines.entry x.1) }
{
    let mut lines = lines;
    let Some(line) = lines.peek() else {
        return Ok((Vec::new(alloc), lines));
    };
    match Font::from_header(alloc, line) {
        Some(font) => {
            lines.advance();
            fonts_from(alloc, font, lines)
        }
        None => Ok((Vec::new(alloc), lines)),
    }
}

/// The fonts that come next after the first line of one, and the lines after them.
#[tactic(auto, unfolding(crate::specs::DescriptionReading::fonts_from), using(crate::proofs::LastLines::last))]
fn fonts_from<'a>(
    alloc: Global,
    first: Font,
    lines: Upcoming<'a>,
) -> Result<(Vec<Font>, Upcoming<'a>), AllocError>
    ensures fonts { IfOk result (λ x. x.0.items ≡ (fonts_from [] first (octets_of lines.entry.lines)).0) }
    ensures rest { IfOk result
        (λ x. octets_of x.1.lines ≡ (fonts_from [] first (octets_of lines.entry.lines)).1) }
    ensures last { IfOk result (λ x. Leaves lines.entry x.1) }
{
    let mut lines = lines;
    let mut fonts = Vec::new(alloc);
    let mut font = first;
    while let Some(line) = lines.peek() {
        match font.add_glyph(alloc, line) {
            Ok(()) => {}
            Err(FontFaultKind::Memory) => return Err(AllocError),
            Err(_) => match Font::from_header(alloc, line) {
                Some(next) => {
                    fonts.push(font)?;
                    font = next;
                }
                None => break,
            },
        }
        lines.advance();
    }
    fonts.push(font)?;
    Ok((fonts, lines))
}
