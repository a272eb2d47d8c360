//! Why a line is no call of a live sign.

use dms_text_forms::WordFault;
use std::fmt;

/// Why a line is no call.
#[derive(Clone, Copy, Debug, PartialEq, Eq)]
pub enum SignCallCause {
    /// It begins with no word of a call.
    Keyword,
    /// A word of it is not what is wanted there.
    Word(WordFault),
}

impl fmt::Display for SignCallCause {
    ghost use Rattle.std.specs.Prelude.{Some};
    ghost use Rattle.dms_sign_lines.specs.SignForm.{call_cause_text};

    ghost output = { λ cause. Some (call_cause_text cause) };

    fn fmt<W: fmt::Write>(&self, f: &mut fmt::Formatter<W>) -> fmt::Result {
        match self {
            SignCallCause::Keyword => f.write_str("no call begins with this word"),
            SignCallCause::Word(fault) => write!(f, "{fault}"),
        }
    }
}
