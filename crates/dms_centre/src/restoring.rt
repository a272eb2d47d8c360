//! What a central system takes up of a saved state: the entries of its ledger, the job that is on, and how the last one
//! ended.

ghost use Rattle.std.specs.Prelude.{◌≡◌, ◌≤◌, ◌<◌, ◌+◌, ◌⊎◌, true, false, Some, None, Err, IfErr, OnOk, OnErr};
ghost use Rattle.dms_wire_ber.specs.Integer.{in_range};
ghost use Rattle.dms_centre_jobs.specs.Job.{Work};
ghost use Rattle.dms_centre_jobs.specs.Steps.{last_number};
ghost use Rattle.dms_centre_jobs.specs.Commands.{job_of};
ghost use Rattle.dms_centre_jobs.specs.CodeView.{command_model};
ghost use Rattle.dms_centre.specs.declared.restoring.EntryFault.TheVariants as entries;
ghost use Rattle.dms_centre.specs.declared.restoring.JobFault.TheVariants as jobs;
ghost use Rattle.dms_centre.specs.State.{is_busy};
ghost use Rattle.dms_centre.specs.ByPhase.{awaits_activation};
ghost use Rattle.dms_centre.specs.Restoring.{number_after, has_its_status, entry_fault, with_entry};
ghost use Rattle.dms_centre.specs.Restoring.{suits, is_sent_by_ticks, stage_fault, work_fault, job_fault};
ghost use Rattle.dms_centre.specs.Restoring.{job_saved, waits_for_activation, with_job, with_request_of};
ghost use Rattle.dms_centre.specs.Restoring.{is_of_activation, has_its_number, end_fault, with_last};

use crate::answering::MOST_POLLS;
use crate::centre::{Centre, LAST_NUMBER};
use crate::ended::{Ended, Why};
use crate::fault::NoMemory;
use crate::ledger::{enter, enter_job, number_after};
use crate::outcome::Outcome;
use crate::pending::{MOST_SENDS, TICKS_TO_WAIT};
use crate::stage::Stage;
use dms_centre_jobs::{Command, Step, put_request};
use dms_codes::Activation;
use dms_wire::Out;
use std::error::Error;
use std::fmt;

/// How a saved job goes on.
#[derive(Clone, Copy, Debug, PartialEq, Eq)]
pub enum SavedStage {
    /// Its request waits for its reply, under the number before the next one.
    Waits {
        /// How many times it went out.
        sends: u8,
        /// The ticks since it went out last.
        ticks: u8,
    },
    /// The next tick sends its request.
    Due,
}

/// A saved job.
#[derive(Clone, Copy, Debug)]
pub struct SavedJob<'a> {
    /// What it is to activate, as an operator commands it.
    pub command: Command<'a>,
    /// The step that it is on.
    pub step: Step,
    /// How many replies said that the row is still being validated.
    pub polls: u8,
    pub stage: SavedStage,
}

/// Why an entry is not put: the first that applies.
#[derive(Clone, Copy, Debug, PartialEq, Eq)]
pub enum EntryFault {
    /// A job is on.
    Busy,
    /// Its number is not above that of the last entry, or not below the next one.
    Number,
    /// It waits: an entry that waits comes with its job.
    Waiting,
    /// No reply has this error-status.
    Status,
    /// There is no memory for it.
    Memory,
}

/// Why a job is not put: the first that applies.
#[derive(Clone, Copy, Debug, PartialEq, Eq)]
pub enum JobFault {
    /// A job is on.
    Busy,
    /// No request has the number before the next one.
    Number,
    /// Its request was not sent one to three times.
    Sends,
    /// Its request waits for more than two ticks.
    Ticks,
    /// A value of its command is out of its range.
    Command,
    /// It does not come to this step, or no tick sends the request of this step.
    Step,
    /// Ten or more polls were answered.
    Polls,
    /// An entry of the ledger has the number of its activation, or a higher one.
    Entry,
    /// There is no memory for an entry of the ledger.
    Memory,
}

/// Why the end of the last job is not taken up.
#[derive(Clone, Copy, Debug, PartialEq, Eq)]
pub enum EndFault {
    /// A job has the steps 1 to 8.
    Step,
    /// No reply reports this number.
    Number,
}

impl fmt::Display for EntryFault {
    ghost use Rattle.std.specs.Prelude.{Some};
    ghost use Rattle.dms_centre.specs.RestoringTexts.{entry_fault_text};

    ghost output = { λ fault. Some (entry_fault_text fault) };

    fn fmt<W: fmt::Write>(&self, f: &mut fmt::Formatter<W>) -> fmt::Result {
        match self {
            EntryFault::Busy => f.write_str("a job is on"),
            EntryFault::Number => {
                f.write_str("its number is not above the last one's and below the next")
            }
            EntryFault::Waiting => f.write_str("it waits"),
            EntryFault::Status => f.write_str("no reply has this error-status"),
            EntryFault::Memory => f.write_str("out of memory"),
        }
    }
}

impl Error for EntryFault {}

impl fmt::Display for JobFault {
    ghost use Rattle.std.specs.Prelude.{Some};
    ghost use Rattle.dms_centre.specs.RestoringTexts.{job_fault_text};

    ghost output = { λ fault. Some (job_fault_text fault) };

    fn fmt<W: fmt::Write>(&self, f: &mut fmt::Formatter<W>) -> fmt::Result {
        match self {
            JobFault::Busy => f.write_str("a job is on"),
            JobFault::Number => f.write_str("no request has the number before the next"),
            JobFault::Sends => f.write_str("a request is sent one to three times"),
            JobFault::Ticks => f.write_str("a request waits for at most two ticks"),
            JobFault::Command => f.write_str("a value of its command is out of its range"),
            JobFault::Step => f.write_str("it does not come to this step"),
            JobFault::Polls => f.write_str("at most nine polls are answered before it goes on"),
            JobFault::Entry => f.write_str("the ledger has an entry of its number"),
            JobFault::Memory => f.write_str("out of memory"),
        }
    }
}

impl Error for JobFault {}

impl fmt::Display for EndFault {
    ghost use Rattle.std.specs.Prelude.{Some};
    ghost use Rattle.dms_centre.specs.RestoringTexts.{end_fault_text};

    ghost output = { λ fault. Some (end_fault_text fault) };

    fn fmt<W: fmt::Write>(&self, f: &mut fmt::Formatter<W>) -> fmt::Result {
        match self {
            EndFault::Step => f.write_str("a job has the steps 1 to 8"),
            EndFault::Number => f.write_str("no reply reports this number"),
        }
    }
}

impl Error for EndFault {}

impl Centre {
    /// Puts an entry that does not wait behind those of the ledger, while no job is on. Memory is taken where the
    /// ledger has no room.
    pub fn put_entry(
        &mut self,
        number: u32,
        code: Activation,
        outcome: Outcome,
    ) -> Result<(), EntryFault>
        ensures ok { OnOk result (self.new.state
            ≡ with_entry self.old.state (record { number = number; code = code; outcome = outcome })) }
        ensures faultless { OnOk result (entry_fault self.old.state number outcome ≡ None) }
        ensures fault { IfErr result (λ fault. (fault ≡ entries.Memory)
            ⊎ (entry_fault self.old.state number outcome ≡ Some fault)) }
        ensures memory { result ≡ Err entries.Memory
            → (entry_fault self.old.state number outcome ≡ None) × (self.old.spare ≡ 0) }
        ensures unchanged { OnErr result (self.new.state ≡ self.old.state) }
    {
        if let Some(fault) = self.entry_fault(number, outcome) {
            return Err(fault);
        }
        if self.make_room().is_err() {
            return Err(EntryFault::Memory);
        }
        self.enter(number, code, outcome);
        Ok(())
    }

    /// Puts the job that is on, while none is. The request that waits has the number before the next one; where it is
    /// an activation its entry comes last in the ledger, for which memory is taken where there is no room.
    pub fn put_job(&mut self, saved: &SavedJob<'_>) -> Result<(), JobFault>
        ensures ok { OnOk result (self.new.state ≡ with_job self.old.state (job_saved saved.now) saved.now.stage) }
        ensures faultless { OnOk result (job_fault self.old.state saved.now ≡ None) }
        ensures fault { IfErr result (λ fault. (fault ≡ jobs.Memory)
            ⊎ (job_fault self.old.state saved.now ≡ Some fault)) }
        ensures memory { result ≡ Err jobs.Memory → (job_fault self.old.state saved.now ≡ None)
            × (waits_for_activation saved.now.stage saved.now.step ≡ true) × (self.old.spare ≡ 0) }
        ensures unchanged { OnErr result (self.new.state ≡ self.old.state) }
    {
        if let Some(fault) = self.job_fault(saved) {
            return Err(fault);
        }
        if self.make_room_for(saved).is_err() {
            return Err(JobFault::Memory);
        }
        self.take_job(saved);
        Ok(())
    }

    /// Takes up how the last job ended.
    pub fn put_last(&mut self, ended: Ended) -> Result<(), EndFault>
        ensures ok { OnOk result (self.new.state ≡ with_last self.old.state ended) }
        ensures faultless { OnOk result (end_fault ended ≡ None) }
        ensures fault { IfErr result (λ fault. end_fault ended ≡ Some fault) }
        ensures room { self.new.spare ≡ self.old.spare }
        ensures unchanged { OnErr result (self.new.state ≡ self.old.state) }
    {
        match end_fault(ended) {
            Some(fault) => Err(fault),
            None => {
                self.last = ended;
                Ok(())
            }
        }
    }

    /// An entry comes behind those of the ledger.
    fn enter(&mut self, number: u32, code: Activation, outcome: Outcome)
        requires taken { entry_fault self.old.state number outcome ≡ None }
        requires room { 0 < self.old.spare }
        ensures { self.new.state
            ≡ with_entry self.old.state (record { number = number; code = code; outcome = outcome }) }
    {
        enter(&mut self.ledger, number, code, outcome);
    }

    /// Makes room for the entry of a job whose activation waits.
    fn make_room_for(&mut self, saved: &SavedJob<'_>) -> Result<(), NoMemory>
        ensures made { OnOk result (waits_for_activation saved.now.stage saved.now.step ≡ true → 0 < self.new.spare) }
        ensures none { OnErr result
            ((waits_for_activation saved.now.stage saved.now.step ≡ true) × (self.old.spare ≡ 0)) }
        ensures state { self.new.state ≡ self.old.state }
    {
        if saved.waits_for_activation() {
            self.make_room()
        } else {
            Ok(())
        }
    }

    /// A job is on.
    fn take_job(&mut self, saved: &SavedJob<'_>)
        requires taken { job_fault self.old.state saved.now ≡ None }
        requires room { waits_for_activation saved.now.stage saved.now.step ≡ true → 0 < self.old.spare }
        ensures { self.new.state ≡ with_job self.old.state (job_saved saved.now) saved.now.stage }
    {
        self.job.begin(&saved.command);
        self.job.step = saved.step;
        self.job.polls = saved.polls;
        self.stage = Stage::Due;
        if let SavedStage::Waits { sends, ticks } = saved.stage {
            self.wait_since(sends, ticks);
        }
    }

    /// The first reason not to put an entry, other than out of memory.
    fn entry_fault(&self, number: u32, outcome: Outcome) -> Option<EntryFault>
        ensures { result ≡ entry_fault self.now.state number outcome }
    {
        if self.busy() {
            Some(EntryFault::Busy)
        } else if u64::from(number) < number_after(&self.ledger) || number >= self.next {
            Some(EntryFault::Number)
        } else if outcome == Outcome::Waiting {
            Some(EntryFault::Waiting)
        } else if !has_its_status(outcome) {
            Some(EntryFault::Status)
        } else {
            None
        }
    }

    /// The first reason not to put a job, other than out of memory.
    fn job_fault(&self, saved: &SavedJob<'_>) -> Option<JobFault>
        ensures { result ≡ job_fault self.now.state saved.now }
    {
        if self.busy() {
            return Some(JobFault::Busy);
        }
        if let Some(fault) = stage_fault(self.next, saved.step, saved.stage) {
            return Some(fault);
        }
        if let Some(fault) = saved.work_fault() {
            return Some(fault);
        }
        if saved.waits_for_activation() && number_after(&self.ledger) >= u64::from(self.next) {
            Some(JobFault::Entry)
        } else {
            None
        }
    }

    /// The request of the job waits, under the number before the next one: it was sent so many times, the last time so
    /// many ticks ago.
    fn wait_since(&mut self, sends: u8, ticks: u8)
        requires busy { is_busy self.old.state.phase ≡ true }
        requires other { awaits_activation self.old.state.phase ≡ false }
        requires least { 1 ≤ self.old.state.next }
        requires most { self.old.state.next ≤ last_number + 1 }
        requires ticks { ticks ≤ 3 }
        requires free { is_of_activation self.old.state.phase ≡ true
            → number_after self.old.state.ledger < self.old.state.next }
        requires room { is_of_activation self.old.state.phase ≡ true → 0 < self.old.spare }
        ensures { self.new.state ≡ with_request_of self.old.state self.old.state.phase sends ticks }
    {
        let number = self.next - 1;
        let mut request = Out::new();
        put_request(
            self.community.as_slice(),
            self.order,
            number,
            &self.job.work,
            self.job.step,
            &mut request,
        );
        enter_job(&mut self.ledger, number, &self.job);
        self.pending.put(number, &request, sends, ticks);
        self.stage = Stage::Awaits;
    }
}

impl SavedJob<'_> {
    /// Whether an activation waits.
    fn waits_for_activation(&self) -> bool
        ensures { result ≡ waits_for_activation self.now.stage self.now.step }
    {
        match self.stage {
            SavedStage::Waits { .. } => self.step.is_activating(),
            SavedStage::Due => false,
        }
    }

    /// The first thing that is wrong with the job.
    fn work_fault(&self) -> Option<JobFault>
        ensures { result ≡ work_fault self.now }
    {
        if !self.command.is_good() {
            Some(JobFault::Command)
        } else if !suits(&self.command, self.step) {
            Some(JobFault::Step)
        } else if self.polls >= MOST_POLLS {
            Some(JobFault::Polls)
        } else {
            None
        }
    }
}

/// The first thing that is wrong with how a job goes on, while the next request has this number.
fn stage_fault(next: u32, step: Step, stage: SavedStage) -> Option<JobFault>
    ensures { result ≡ stage_fault next step stage }
{
    match stage {
        SavedStage::Due => {
            if is_sent_by_ticks(step) {
                None
            } else {
                Some(JobFault::Step)
            }
        }
        SavedStage::Waits { sends, ticks } => {
            if next < 1 || next > LAST_NUMBER + 1 {
                Some(JobFault::Number)
            } else if sends < 1 || sends > MOST_SENDS {
                Some(JobFault::Sends)
            } else if ticks >= TICKS_TO_WAIT {
                Some(JobFault::Ticks)
            } else {
                None
            }
        }
    }
}

/// Whether a job of the command comes to the step.
fn suits(command: &Command<'_>, step: Step) -> bool
    ensures { result ≡ suits (job_of (command_model command.now)).work step }
{
    match command {
        Command::Publish { .. } => true,
        Command::Blank { .. } | Command::Activate(_) => {
            matches!(step, Step::Activating | Step::Explaining)
        }
    }
}

/// Whether a tick sends the request of the step.
fn is_sent_by_ticks(step: Step) -> bool
    ensures { result ≡ is_sent_by_ticks step }
{
    matches!(step, Step::Polling | Step::Activating)
}

/// Whether a reply can have the number of the outcome's error-status.
fn has_its_status(outcome: Outcome) -> bool
    ensures { result ≡ has_its_status outcome }
{
    match outcome {
        Outcome::Refused(status) => in_range(status),
        _ => true,
    }
}

/// Whether a reply can report the number of why a job failed.
fn has_its_number(why: Why) -> bool
    ensures { result ≡ has_its_number why }
{
    match why {
        Why::Status(status) => in_range(status),
        Why::WrongStatus(status) => in_range(status),
        Why::Cause(cause) => in_range(cause),
        _ => true,
    }
}

/// The first reason not to take up how the last job ended.
fn end_fault(ended: Ended) -> Option<EndFault>
    ensures { result ≡ end_fault ended }
{
    match ended {
        Ended::Never | Ended::Accepted => None,
        Ended::Failed(step, why) => {
            if step < 1 || step > 8 {
                Some(EndFault::Step)
            } else if !has_its_number(why) {
                Some(EndFault::Number)
            } else {
                None
            }
        }
    }
}

/// Whether a reply can have the number.
fn in_range(number: i64) -> bool
    ensures { result ≡ in_range number }
{
    -2_147_483_648 <= number && number <= 4_294_967_295
}
