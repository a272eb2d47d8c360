//! How the last job of a central system ended, as C gives it.

ghost use Rattle.std.specs.Prelude.{◌≡◌};
ghost use Rattle.wisangub_c_values.specs.Endings.{ended_number, ended_step, ended_why, ended_value, why_number};
ghost use Rattle.wisangub_c_values.specs.Endings.{why_value};

use dms_centre::{Ended, Why};

/// How a job ended: 0 none did, 1 it did all, 2 it failed.
pub fn ended_number(ended: Ended) -> u8
    ensures { result ≡ ended_number ended }
{
    match ended {
        Ended::Never => 0,
        Ended::Accepted => 1,
        Ended::Failed(..) => 2,
    }
}

/// The step at which it failed, else 0.
pub fn ended_step(ended: Ended) -> u8
    ensures { result ≡ ended_step ended }
{
    match ended {
        Ended::Failed(step, _) => step,
        Ended::Never | Ended::Accepted => 0,
    }
}

/// Why it failed, from 1, else 0.
pub fn ended_why(ended: Ended) -> u8
    ensures { result ≡ ended_why ended }
{
    match ended {
        Ended::Failed(_, why) => why_number(why),
        Ended::Never | Ended::Accepted => 0,
    }
}

/// The error-status, the status of the row, or the cause, of a failure that has one, else 0.
pub fn ended_value(ended: Ended) -> i64
    ensures { result ≡ ended_value ended }
{
    match ended {
        Ended::Failed(_, why) => why_value(why),
        Ended::Never | Ended::Accepted => 0,
    }
}

fn why_number(why: Why) -> u8
    ensures { result ≡ why_number why }
{
    match why {
        Why::Status(_) => 1,
        Why::WrongStatus(_) => 2,
        Why::StillValidating => 3,
        Why::OtherChecksum => 4,
        Why::NoReply => 5,
        Why::NumbersUsedUp => 6,
        Why::OddReply => 7,
        Why::Cause(_) => 8,
        Why::Restarted => 9,
    }
}

fn why_value(why: Why) -> i64
    ensures { result ≡ why_value why }
{
    match why {
        Why::Status(value) => value,
        Why::WrongStatus(value) => value,
        Why::Cause(value) => value,
        _ => 0,
    }
}
