//! A line of a description that is at fault, in numbers.

ghost use Rattle.std.specs.Prelude.{◌≡◌};
ghost use Rattle.wisangub_c_causes.specs.LineCauses.{glyph_kind, of_first_word, description_cause};

use crate::cause::{CauseNumbers, of_line};
use crate::sign_causes::of_sign;
use crate::word_causes::of_word;
use dms_face_font::FontFaultKind;
use dms_sign_text_causes::LineCause;

/// Why a font does not take a character: 9 its picture does not fit, 10 it is there already, 11 there are 255. No other
/// fault is a character's.
fn glyph_kind(kind: FontFaultKind) -> u8
    ensures { result ≡ glyph_kind kind }
{
    match kind {
        FontFaultKind::Bitmap => 9,
        FontFaultKind::Twice => 10,
        FontFaultKind::TooMany => 11,
        FontFaultKind::Header | FontFaultKind::Glyph | FontFaultKind::Memory => 0,
    }
}

/// The line begins with no word that may stand there.
pub(crate) fn of_first_word(line: usize) -> CauseNumbers
    ensures { result ≡ of_first_word line }
{
    let mut cause = of_line(line, 6);
    cause.word = 1;
    cause
}

/// Why a description is refused at this line.
pub fn description_cause(line: usize, cause: LineCause) -> CauseNumbers
    ensures { result ≡ description_cause line cause }
{
    match cause {
        LineCause::Word(fault) => of_word(line, fault),
        LineCause::NoEnd => of_line(line, 5),
        LineCause::Keyword => of_first_word(line),
        LineCause::RowAfterFont => of_line(line, 7),
        LineCause::GlyphBeforeFont => of_line(line, 8),
        LineCause::Glyph(kind) => of_line(line, glyph_kind(kind)),
        LineCause::AfterEnd => of_line(line, 12),
        LineCause::Sign(cause) => of_sign(line, cause),
    }
}
