//! Why a line is no command.

use dms_text_forms::WordFault;
use std::fmt;

/// Why a line is no command.
#[derive(Clone, Copy, Debug, PartialEq, Eq)]
pub enum CommandCause {
    /// It begins with no word of a command.
    Keyword,
    /// A word of it is not what is wanted there.
    Word(WordFault),
}

impl fmt::Display for CommandCause {
    ghost use Rattle.std.specs.Prelude.{Some};
    ghost use Rattle.dms_centre_text.specs.CommandForm.{command_cause_text};

    ghost output = { λ cause. Some (command_cause_text cause) };

    fn fmt<W: fmt::Write>(&self, f: &mut fmt::Formatter<W>) -> fmt::Result {
        match self {
            CommandCause::Keyword => f.write_str("no command begins with this word"),
            CommandCause::Word(fault) => write!(f, "{fault}"),
        }
    }
}
