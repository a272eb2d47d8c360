//! What became of an activation.

use std::fmt;

/// What became of an activation that the centre sent.
#[derive(Clone, Copy, Debug, PartialEq, Eq)]
pub enum Outcome {
    /// No reply came yet.
    Waiting,
    /// The sign accepted it.
    Accepted,
    /// The sign refused it, with this error-status (RFC 1157, 4.1.1).
    Refused(i64),
    /// No reply came to any of its sends.
    NoReply,
    /// The centre was restarted while it waited.
    Unknown,
}

/// In the word of the report.
impl fmt::Display for Outcome {
    ghost use Rattle.std.specs.Prelude.{Some};
    ghost use Rattle.dms_centre.specs.Texts.{outcome_text};

    ghost output = { λ outcome. Some (outcome_text outcome) };

    fn fmt<W: fmt::Write>(&self, f: &mut fmt::Formatter<W>) -> fmt::Result {
        match self {
            Outcome::Waiting => f.write_str("waiting"),
            Outcome::Accepted => f.write_str("accepted"),
            Outcome::Refused(status) => write!(f, "refused {status}"),
            Outcome::NoReply => f.write_str("noreply"),
            Outcome::Unknown => f.write_str("unknown"),
        }
    }
}
