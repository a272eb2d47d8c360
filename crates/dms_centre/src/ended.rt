//! How a job ends.

use std::fmt;

/// How the last job ended.
#[derive(Clone, Copy, Debug, PartialEq, Eq)]
pub enum Ended {
    /// No job ended yet.
    Never,
    /// The sign accepted the activation.
    Accepted,
    /// It failed at this step, 1 to 8.
    Failed(u8, Why),
}

/// Why a job failed.
#[derive(Clone, Copy, Debug, PartialEq, Eq)]
pub enum Why {
    /// The reply has this error-status (RFC 1157, 4.1.1).
    Status(i64),
    /// The row is in this status (dmsMessageStatus), which is not the one that was to come.
    WrongStatus(i64),
    /// The row was still being validated at the tenth poll.
    StillValidating,
    /// The sign's message has another checksum than the operator's.
    OtherChecksum,
    /// No reply came to any of three sends.
    NoReply,
    /// No request number is left.
    NumbersUsedUp,
    /// The reply does not answer what was asked.
    OddReply,
    /// The sign refused the activation for this cause (dmsActivateMsgError).
    Cause(i64),
    /// The centre was restarted.
    Restarted,
}

impl fmt::Display for Ended {
    ghost use Rattle.std.specs.Prelude.{Some};
    ghost use Rattle.dms_centre.specs.Texts.{ended_text};

    ghost output = { λ ended. Some (ended_text ended) };

    fn fmt<W: fmt::Write>(&self, f: &mut fmt::Formatter<W>) -> fmt::Result {
        match self {
            Ended::Never => f.write_str("no job has ended"),
            Ended::Accepted => f.write_str("accepted"),
            Ended::Failed(step, why) => write!(f, "failed at step {step}: {why}"),
        }
    }
}

impl fmt::Display for Why {
    ghost use Rattle.std.specs.Prelude.{Some};
    ghost use Rattle.dms_centre.specs.Texts.{why_text};

    ghost output = { λ why. Some (why_text why) };

    fn fmt<W: fmt::Write>(&self, f: &mut fmt::Formatter<W>) -> fmt::Result {
        match self {
            Why::Status(status) => write!(f, "error-status {status}"),
            Why::WrongStatus(status) => write!(f, "the row has status {status}"),
            Why::StillValidating => f.write_str("the row is still being validated"),
            Why::OtherChecksum => f.write_str("the row has another checksum"),
            Why::NoReply => f.write_str("no reply"),
            Why::NumbersUsedUp => f.write_str("no request number is left"),
            Why::OddReply => f.write_str("the reply does not answer what was asked"),
            Why::Cause(cause) => { write!(f, "the sign refused the activation for cause {cause}") }
            Why::Restarted => f.write_str("the central system was restarted"),
        }
    }
}
