//! Why a line is no call of an agent.

use dms_text_forms::WordFault;
use std::fmt;

/// Why a line is no call.
#[derive(Clone, Copy, Debug, PartialEq, Eq)]
pub enum AgentCallCause {
    /// It begins with no word of a call: it is the sign's.
    Keyword,
    /// No name of an object stands where one is wanted.
    Name,
    /// No value stands after the name.
    Value,
    /// What stands after the value is no access.
    Access,
    /// A word of it is not what is wanted there.
    Word(WordFault),
}

impl fmt::Display for AgentCallCause {
    ghost use Rattle.std.specs.Prelude.{Some};
    ghost use Rattle.dms_agent_lines.specs.AgentForm.{call_cause_text};

    ghost output = { λ cause. Some (call_cause_text cause) };

    fn fmt<W: fmt::Write>(&self, f: &mut fmt::Formatter<W>) -> fmt::Result {
        match self {
            AgentCallCause::Keyword => f.write_str("no call begins with this word"),
            AgentCallCause::Name => f.write_str(
                "word 2: the name of an object is wanted, as 1.3.6.1",
            ),
            AgentCallCause::Value => f.write_str("word 3: a value is wanted, as INTEGER 7"),
            AgentCallCause::Access => {
                f.write_str(
                    "after the value an access is wanted, as number 0 7, or the end of the line",
                )
            }
            AgentCallCause::Word(fault) => write!(f, "{fault}"),
        }
    }
}
