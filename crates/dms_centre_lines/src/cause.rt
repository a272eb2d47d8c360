//! Why a line is no call of a central system.

use dms_text_forms::WordFault;
use std::fmt;

/// Why a line is no call.
#[derive(Clone, Copy, Debug, PartialEq, Eq)]
pub enum CentreCallCause {
    /// It begins with no word of a call.
    Keyword,
    /// Another word than `last` stands after `status`.
    Last,
    /// A word of it is not what is wanted there.
    Word(WordFault),
}

impl fmt::Display for CentreCallCause {
    ghost use Rattle.std.specs.Prelude.{Some};
    ghost use Rattle.dms_centre_lines.specs.CallForm.{call_cause_text};

    ghost output = { λ cause. Some (call_cause_text cause) };

    fn fmt<W: fmt::Write>(&self, f: &mut fmt::Formatter<W>) -> fmt::Result {
        match self {
            CentreCallCause::Keyword => f.write_str("no call begins with this word"),
            CentreCallCause::Last => {
                f.write_str("word 2: the word last, or the end of the line, is wanted")
            }
            CentreCallCause::Word(fault) => write!(f, "{fault}"),
        }
    }
}
