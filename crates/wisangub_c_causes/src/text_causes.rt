//! A text that can not be shown: what is wrong with it, and what the sign lacks for it.

ghost use Rattle.std.specs.Prelude.{◌≡◌, ◌<◌, ◌-◌, length, Some, IfSome, option_map};
ghost use Rattle.std.specs.Result.{result_err};
ghost use Rattle.dms_codes.specs.Limits.{longest_text};
ghost use Rattle.dms_face.specs.Fit.{checked_text};
ghost use Rattle.dms_face.specs.declared.multi_fault.MultiFaultCode.TheVariants.{TextTooBig};
ghost use Rattle.signtool_lacks.specs.LackText.{LacksFor};
ghost use Rattle.signtool_lacks.specs.declared.lacking.FaceLack.TheVariants.{Octets};
ghost use Rattle.wisangub_c_causes.specs.TextCauses.{lack_number, lack_count, lack_character, lack_font, text_cause};
ghost use Rattle.wisangub_c_causes.specs.TextCauses.{fault_in};

use dms_face::{Face, MultiFault, check};
use signtool_lacks::{FaceLack, what_lacks};
use std::alloc::Global;

/// Why a text can not be shown, and what the sign lacks for it. A number that says nothing of a cause is 0.
#[repr(C)]
#[derive(Clone, Copy)]
pub struct TextCause {
    /// The offset in octets of what is wrong.
    pub place: usize,
    /// How many columns, rows or octets of room are lacking.
    pub count: usize,
    /// The character of which no picture is there.
    pub character: u16,
    /// The font that is not there, or has no picture of it.
    pub font: u8,
    /// What is wrong (dmsMultiSyntaxError).
    pub code: u8,
    /// What is lacking, 1 to 5.
    pub lack: u8,
}

/// What is wrong with a text, and what a face lacks for it.
#[derive(Clone, Copy)]
pub struct TextRefusal {
    pub fault: MultiFault,
    pub lack: Option<FaceLack>,
}

/// Why a text can not be shown on a face: nothing where it can. What is lacking is left out where no face has it, and
/// where there is no memory to look.
pub fn text_refusal(alloc: Global, face: &Face, text: &[u8]) -> Option<TextRefusal>
    ensures fault { option_map fault_in result ≡ result_err (checked_text face.now text.now) }
    ensures lack { IfSome result (λ why. IfSome why.lack (LacksFor why.fault.code text.now)) }
    ensures octets { IfSome result (λ why. why.fault.code ≡ TextTooBig → longest_text < length text.now
        → why.lack ≡ Some (Octets (length text.now - longest_text))) }
{
    match check(face, text) {
        Ok(_) => None,
        Err(fault) => {
            let lack = what_lacks(alloc, face, text, fault);
            Some(TextRefusal { fault, lack })
        }
    }
}

/// What is lacking: 1 a character, 2 a font, 3 columns, 4 rows, 5 room for octets.
fn lack_number(lack: Option<FaceLack>) -> u8
    ensures { result ≡ lack_number lack }
{
    match lack {
        None => 0,
        Some(FaceLack::Character { .. }) => 1,
        Some(FaceLack::Font(_)) => 2,
        Some(FaceLack::Columns(_)) => 3,
        Some(FaceLack::Rows(_)) => 4,
        Some(FaceLack::Octets(_)) => 5,
    }
}

fn lack_count(lack: Option<FaceLack>) -> usize
    ensures { result ≡ lack_count lack }
{
    match lack {
        Some(FaceLack::Columns(count) | FaceLack::Rows(count)) => usize::from(count),
        Some(FaceLack::Octets(count)) => count,
        _ => 0,
    }
}

fn lack_character(lack: Option<FaceLack>) -> u16
    ensures { result ≡ lack_character lack }
{
    match lack {
        Some(FaceLack::Character { character, .. }) => character,
        _ => 0,
    }
}

fn lack_font(lack: Option<FaceLack>) -> u8
    ensures { result ≡ lack_font lack }
{
    match lack {
        Some(FaceLack::Character { font, .. } | FaceLack::Font(font)) => font,
        _ => 0,
    }
}

/// Why a text can not be shown, in numbers.
pub fn text_cause(why: TextRefusal) -> TextCause
    ensures { result ≡ text_cause why }
{
    TextCause {
        place: why.fault.place,
        count: lack_count(why.lack),
        character: lack_character(why.lack),
        font: lack_font(why.lack),
        code: why.fault.code.number(),
        lack: lack_number(why.lack),
    }
}
