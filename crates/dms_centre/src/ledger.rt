//! The ledger: the codes that were sent, by the numbers of their requests.

ghost use Rattle.std.specs.Prelude.{◌≡◌, ◌<◌, ◌++◌, ◌∷◌, [], map, true, false};
ghost use Rattle.indexmap.specs.IndexMap.{spare};
ghost use Rattle.dms_centre_jobs.specs.Steps.{is_activating};
ghost use Rattle.dms_centre.specs.Sending.{entered};
ghost use Rattle.dms_centre.specs.Replies.{with_outcome};
ghost use Rattle.dms_centre.specs.Resending.{given_up};
ghost use Rattle.dms_centre.specs.Restoring.{number_after};
ghost use Rattle.dms_centre_jobs.specs.CodeView.{job_model};
ghost use Rattle.dms_centre.specs.CodeView.{ledger_model};
ghost use Rattle.dms_centre.specs.Invariant.{AllBelow, OnlyLastWaits};

use crate::outcome::Outcome;
use dms_centre_jobs::Job;
use dms_codes::Activation;
use indexmap::IndexMap;
use std::fmt;

/// A code that was sent, and what became of it.
#[derive(Clone, Copy, Debug, PartialEq, Eq)]
pub struct Entry {
    /// The code, as the request carried it.
    pub code: Activation,
    /// What is known of it.
    pub outcome: Outcome,
}

impl fmt::Display for Entry {
    ghost use Rattle.std.specs.Prelude.{Some};
    ghost use Rattle.dms_centre.specs.Texts.{entry_text};

    ghost output = { λ entry. Some (entry_text entry) };

    fn fmt<W: fmt::Write>(&self, f: &mut fmt::Formatter<W>) -> fmt::Result {
        let id = self.code.id;
        write!(
            f,
            "memory {} number {} checksum {}: {}",
            id.memory, id.number, id.crc, self.outcome
        )
    }
}

impl Entry {
    ghost use Rattle.std.specs.Prelude.{◌≡◌};
    ghost use Rattle.dms_centre.specs.CodeView.{entry_given_up};

    /// Has this outcome, if it waits.
    fn give_up(&mut self, outcome: Outcome)
        ensures { self.new ≡ entry_given_up outcome self.old }
    {
        if self.outcome == Outcome::Waiting {
            self.outcome = outcome;
        }
    }
}

/// A code enters the ledger, under the number of its request.
pub(crate) fn enter(
    ledger: &mut IndexMap<u32, Entry>,
    number: u32,
    code: Activation,
    outcome: Outcome,
)
    requires room { 0 < spare ledger.old }
    requires below { AllBelow number (ledger_model ledger.old.entries) }
    ensures { ledger_model ledger.new.entries
        ≡ ledger_model ledger.old.entries ++ record { number = number; code = code; outcome = outcome } ∷ [] }
{
    ledger.insert(number, Entry { code, outcome }).unwrap();
}

/// The least number that a new entry can have: the numbers of entries rise.
pub(crate) fn number_after(ledger: &IndexMap<u32, Entry>) -> u64
    ensures { result ≡ number_after (ledger_model ledger.now.entries) }
{
    match ledger.last() {
        Some((number, _)) => u64::from(*number) + 1,
        None => 0,
    }
}

/// The request of a job is sent: where it puts a message up, the code enters the ledger.
pub(crate) fn enter_job(ledger: &mut IndexMap<u32, Entry>, number: u32, job: &Job)
    requires room { is_activating job.now.step ≡ true → 0 < spare ledger.old }
    requires below { is_activating job.now.step ≡ true → AllBelow number (ledger_model ledger.old.entries) }
    ensures entries { ledger_model ledger.new.entries
        ≡ entered (ledger_model ledger.old.entries) number (job_model job.now) }
    ensures spare { is_activating job.now.step ≡ false → spare ledger.new ≡ spare ledger.old }
{
    if job.step.is_activating() {
        enter(ledger, number, job.work.code(), Outcome::Waiting);
    }
}

/// The entry of this number, if there is one, has this outcome.
pub(crate) fn decide(ledger: &mut IndexMap<u32, Entry>, number: u32, outcome: Outcome)
    ensures entries { ledger_model ledger.new.entries
        ≡ map (with_outcome number outcome) (ledger_model ledger.old.entries) }
    ensures room { spare ledger.new ≡ spare ledger.old }
{
    if let Some(index) = ledger.get_index_of(&number) {
        ledger[index].outcome = outcome;
    }
}

/// Every entry that waits has this outcome: only the last can wait.
pub(crate) fn give_up(ledger: &mut IndexMap<u32, Entry>, outcome: Outcome)
    requires last { OnlyLastWaits (ledger_model ledger.old.entries) }
    ensures entries { ledger_model ledger.new.entries ≡ map (given_up outcome) (ledger_model ledger.old.entries) }
    ensures room { spare ledger.new ≡ spare ledger.old }
{
    let entries = ledger.len();
    if entries > 0 {
        ledger[entries - 1].give_up(outcome);
    }
}
