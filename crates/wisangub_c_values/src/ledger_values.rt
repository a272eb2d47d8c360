//! The ledger of a central system and how it stands, as C gives them.

ghost use Rattle.std.specs.Prelude.{◌≡◌};
ghost use Rattle.dms_centre.specs.CodeView.{entry_model};
ghost use Rattle.wisangub_c_values.specs.Ledger.{outcome_number, outcome_status, ledger_entry, busy_number};
ghost use Rattle.wisangub_c_values.specs.Ledger.{centre_status};

use crate::centre_values::{ended_number, ended_step, ended_value, ended_why};
use crate::code_values::{CodeParts, code_parts};
use dms_centre::{Centre, Entry, Outcome};

/// A code that was sent, the number of its request, and what became of it.
#[repr(C)]
#[derive(Clone, Copy)]
pub struct LedgerEntry {
    /// The error-status of a refusal (RFC 1157, 4.1.1), else 0.
    pub status: i64,
    /// The number of the request.
    pub number: u32,
    /// 0 it waits, 1 the sign accepted it, 2 the sign refused it, 3 no reply came, 4 the centre was restarted while it
    /// waited.
    pub outcome: u8,
    /// The code, as the request carried it.
    pub code: CodeParts,
}

/// How a central system stands.
#[repr(C)]
#[derive(Clone, Copy)]
pub struct CentreStatus {
    /// The error-status, the status of the row, or the cause of a job that failed for one, else 0.
    pub value: i64,
    /// How many codes it sent.
    pub entries: usize,
    /// 1 while a job is on, else 0.
    pub busy: u8,
    /// How the last job ended: 0 none did, 1 it was accepted, 2 it failed.
    pub last: u8,
    /// The step at which it failed, 1 to 8, else 0.
    pub step: u8,
    /// Why it failed, 1 to 9, else 0.
    pub why: u8,
}

fn outcome_number(outcome: Outcome) -> u8
    ensures { result ≡ outcome_number outcome }
{
    match outcome {
        Outcome::Waiting => 0,
        Outcome::Accepted => 1,
        Outcome::Refused(_) => 2,
        Outcome::NoReply => 3,
        Outcome::Unknown => 4,
    }
}

fn outcome_status(outcome: Outcome) -> i64
    ensures { result ≡ outcome_status outcome }
{
    match outcome {
        Outcome::Refused(status) => status,
        _ => 0,
    }
}

/// An entry of the ledger: the number of its request, and what became of it.
pub fn ledger_entry(number: u32, entry: &Entry) -> LedgerEntry
    ensures { result ≡ ledger_entry (entry_model (number, entry.now)) }
{
    LedgerEntry {
        status: outcome_status(entry.outcome),
        number,
        outcome: outcome_number(entry.outcome),
        code: code_parts(entry.code),
    }
}

fn busy_number(busy: bool) -> u8
    ensures { result ≡ busy_number busy }
{
    if busy { 1 } else { 0 }
}

/// How a central system stands.
pub fn centre_status(centre: &Centre) -> CentreStatus
    ensures { result ≡ centre_status centre.now.state }
{
    let last = centre.last();
    CentreStatus {
        value: ended_value(last),
        entries: centre.ledger().len(),
        busy: busy_number(centre.busy()),
        last: ended_number(last),
        step: ended_step(last),
        why: ended_why(last),
    }
}
