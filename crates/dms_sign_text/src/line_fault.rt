//! The line for which a description is refused.

use crate::fault::DescriptionFault;
use dms_sign_text_causes::LineCause;
use dms_text_forms::WordFault;

/// A line that is not as it should be, and why.
#[derive(Clone, Copy)]
pub(crate) struct LineFault {
    /// Its number, from 1; where it is missing, the number after the last line.
    pub line: usize,
    pub cause: LineCause,
}

impl LineFault {
    ghost use Rattle.std.specs.Prelude.{◌≡◌};
    ghost use Rattle.dms_sign_text_causes.specs.declared.cause.LineCause.TheVariants as causes;

    /// A word of this line is at fault.
    pub(crate) fn of_word(line: usize, fault: WordFault) -> LineFault
        ensures line { result.line ≡ line }
        ensures cause { result.cause ≡ causes.Word fault }
    {
        LineFault {
            line,
            cause: LineCause::Word(fault),
        }
    }
}

impl From<LineFault> for DescriptionFault {
    ghost use Rattle.std.specs.Prelude.{◌≡◌};
    ghost use Rattle.dms_sign_text.specs.declared.fault.DescriptionFault.TheVariants as faults;

    ghost from_gives = { λ fault made. made ≡ faults.Line fault.line };

    fn from(fault: LineFault) -> DescriptionFault {
        DescriptionFault::Line(fault.line)
    }
}
