//! Why a line is no event.

use dms_text_forms::WordFault;
use std::fmt;

/// Why the line of an event is refused.
#[derive(Clone, Copy, Debug, PartialEq, Eq)]
pub enum EventCause {
    /// It begins with no word of an event.
    Keyword,
    /// A word of it is not what is wanted there.
    Word(WordFault),
}

impl fmt::Display for EventCause {
    ghost use Rattle.std.specs.Prelude.{Some};
    ghost use Rattle.dms_replay.specs.EventForm.{event_cause_text};

    ghost output = { λ cause. Some (event_cause_text cause) };

    fn fmt<W: fmt::Write>(&self, f: &mut fmt::Formatter<W>) -> fmt::Result {
        match self {
            EventCause::Keyword => f.write_str("no event begins with this word"),
            EventCause::Word(fault) => write!(f, "{fault}"),
        }
    }
}
