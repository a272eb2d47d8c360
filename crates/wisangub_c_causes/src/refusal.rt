//! A description that is refused: its line, and why.

ghost use Rattle.std.specs.Prelude.{◌≡◌, Some, IfOk, IfSome, IfNone};
ghost use Rattle.std.specs.Str.Lines.{lines};
ghost use Rattle.dms_text.specs.Lines.{kept_lines};
ghost use Rattle.dms_sign_text.specs.Causes.{first_cause};
ghost use Rattle.dms_sign_text.specs.Description.{Description, SpellsSign};
ghost use Rattle.dms_sign_text.specs.RefusedLine.{all_numbered, IsRefusedLine};

use dms_sign_text::{DescriptionFault, description, first_cause};
use dms_sign_text_causes::LineCause;
use std::alloc::{AllocError, Global};

/// The line for which a description is refused, from 1, and why.
#[derive(Clone, Copy)]
pub struct DescriptionRefusal {
    pub line: usize,
    pub cause: LineCause,
}

/// Why these octets are no sign's description: nothing where they are one.
pub fn refusal_of(alloc: Global, octets: &[u8]) -> Result<Option<DescriptionRefusal>, AllocError>
    ensures line { IfOk result
        (λ found. IfSome found (λ why. IsRefusedLine (all_numbered (lines octets.now)) why.line)) }
    ensures cause { IfOk result
        (λ found. IfSome found (λ why. first_cause (kept_lines octets.now) ≡ Some why.cause)) }
    ensures sign { IfOk result
        (λ found. IfNone found ((it : Description) × SpellsSign (kept_lines octets.now) it)) }
{
    let Some(cause) = first_cause(alloc, octets)? else {
        return Ok(None);
    };
    match description(alloc, octets) {
        Ok(_) => Ok(None),
        Err(DescriptionFault::Line(line)) => Ok(Some(DescriptionRefusal { line, cause })),
        Err(DescriptionFault::Memory) => Err(AllocError),
    }
}
