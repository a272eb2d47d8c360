//! The central system.

ghost use Rattle.std.specs.Prelude.{◌≡◌, ◌≤◌, ◌<◌, ◌↔◌, ◌⊎◌, [], true, false, length};
ghost use Rattle.std.specs.Prelude.{Some, None, Err, IsTrue, IsOk, IfOk, IfErr, OnOk, OnErr};
ghost use Rattle.std.specs.Int.Digits.{AllBelowBase};
ghost use Rattle.dms_centre.specs.declared.fault.CommandFault.TheVariants as faults;
ghost use Rattle.dms_codes.specs.Limits.{has_community_size};
ghost use Rattle.dms_centre.specs.State.{start, is_busy};
ghost use Rattle.dms_centre_jobs.specs.Steps.{is_activating};
ghost use Rattle.dms_centre_jobs.specs.Commands.{job_of};
ghost use Rattle.dms_centre.specs.Commands.{commanded, refusal_of};
ghost use Rattle.dms_centre_jobs.specs.Requests.{AreSettings};
ghost use Rattle.dms_centre.specs.Inputs.{ticked, restarted};
ghost use Rattle.dms_centre.specs.Sending.{ends};
ghost use Rattle.dms_centre.specs.Room.{enters_at_tick, enters_by};
ghost use Rattle.dms_centre.specs.ByPhase.{is_awaiting, awaits_activation, sends_job, adds_entry};
ghost use Rattle.dms_centre_jobs.specs.CodeView.{command_model};
ghost use Rattle.dms_centre.specs.CodeView.{settings_model, ledger_model, lent_phase, sent_in};

use crate::ended::{Ended, Why};
use crate::fault::{CommandFault, NoMemory};
use crate::ledger::{Entry, enter_job, give_up};
use crate::outcome::Outcome;
use crate::pending::{MOST_SENDS, Pending, TICKS_TO_WAIT};
use crate::settings::{CentreFault, Settings};
use crate::stage::{Phase, Stage};
use arrayvec::ArrayVec;
use dms_centre_jobs::{Command, Job, put_request};
use dms_codes::{MAX_COMMUNITY, Order, has_community_size};
use dms_wire::Out;
use indexmap::IndexMap;
use std::alloc::Global;
use std::marker::Model;

/// The last number that a request can have (this profile).
pub(crate) const LAST_NUMBER: u32 = 2_147_483_647;

/// The central system of one sign.
///
/// It does one command at a time, by a job of up to eight requests, and keeps a ledger of the codes that it sent. A
/// contract sees the state of the definitions, and how many more entries the ledger takes without memory.
#[derive(Drop)]
pub struct Centre {
    pub(crate) community: ArrayVec<u8, MAX_COMMUNITY>,
    pub(crate) order: Order,
    /// The number that the next request takes.
    pub(crate) next: u32,
    pub(crate) stage: Stage,
    /// Of no meaning where no job is on.
    pub(crate) job: Job,
    /// Of no meaning where no request waits.
    pub(crate) pending: Pending,
    pub(crate) ledger: IndexMap<u32, Entry>,
    pub(crate) last: Ended,
}

impl Model for Centre {
    ghost use Rattle.indexmap.specs.IndexMap.{spare};
    ghost use Rattle.dms_centre.specs.Room.{CentreModel};
    ghost use Rattle.dms_centre.specs.CodeView.{phase_model, ledger_model};
    ghost use Rattle.dms_centre.specs.Invariant.{IsState};

    ghost Value = { CentreModel };

    ghost view = { λ c. record {
      state = record {
        settings = record { community = c.community.items; order = c.order };
        next = c.next;
        phase = phase_model c.stage c.job c.pending;
        ledger = ledger_model c.ledger.entries;
        last = c.last;
      };
      spare = spare c.ledger;
    } };

    ghost invariant = { λ c. IsState (record {
      settings = record { community = c.community.items; order = c.order };
      next = c.next;
      phase = phase_model c.stage c.job c.pending;
      ledger = ledger_model c.ledger.entries;
      last = c.last;
    }) };
}

/// A copy of octets.
fn copied<const N: usize>(octets: &[u8]) -> ArrayVec<u8, N>
    requires { length octets.now ≤ N }
    ensures copy { result.items ≡ octets.now }
    ensures octets { AllBelowBase 256 octets.now }
{
    ArrayVec::try_from(octets).unwrap()
}

impl Centre {
    /// A central system with no job, whose first request has the number `first`. Its ledger takes memory from `alloc`
    /// as it grows.
    #[tactic(auto, using(crate::proofs::Fine::begins, crate::proofs::Fine::begins_rising))]
    pub fn new(alloc: Global, settings: Settings<'_>, first: u32) -> Result<Centre, CentreFault>
        ensures made { IfOk result (λ centre. centre.state ≡ start (settings_model settings.entry) first) }
        ensures community { IsOk result ↔ IsTrue (has_community_size settings.entry.community.now) }
    {
        let community = settings.community;
        if !has_community_size(community) {
            return Err(CentreFault::Community);
        }
        Ok(Centre {
            community: copied(community),
            order: settings.order,
            next: first,
            stage: Stage::Idle,
            job: Job::none(),
            pending: Pending::none(),
            ledger: IndexMap::new(alloc),
            last: Ended::Never,
        })
    }

    /// Whether a job is on.
    pub fn busy(&self) -> bool
        ensures { result ≡ is_busy self.now.state.phase }
    {
        self.stage != Stage::Idle
    }

    /// The number that the next request takes.
    pub fn next_number(&self) -> u32
        ensures { result ≡ self.now.state.next }
    {
        self.next
    }

    /// Whether a job is on, and what comes next.
    pub fn phase(&self) -> Phase<'_>
        ensures { lent_phase result ≡ self.now.state.phase }
    {
        match self.stage {
            Stage::Idle => Phase::Idle,
            Stage::Awaits => Phase::Awaits(&self.job, &self.pending),
            Stage::Due => Phase::Due(&self.job),
        }
    }

    /// How the last job ended.
    pub fn last(&self) -> Ended
        ensures { result ≡ self.now.state.last }
    {
        self.last
    }

    /// The codes that were sent, in the order of sending, by the numbers of their requests.
    pub fn ledger(&self) -> &IndexMap<u32, Entry>
        ensures { ledger_model result.now.entries ≡ self.now.state.ledger }
    {
        &self.ledger
    }

    /// What the type's invariant says (`laws::centres_are_kept`).
    pub(crate) fn invariant(&self)
        ensures { AreSettings self.now.state.settings }
    {
        let _ = &self.next;
    }

    /// Restarts, as after a loss of power: the next number and the ledger stay, a job ends, and the outcome of an
    /// activation that waits is unknown.
    #[tactic(auto, unfolding(crate::specs::Inputs::restarted))]
    pub fn restart(&mut self)
        ensures state { self.new.state ≡ restarted self.old.state }
        ensures room { self.new.spare ≡ self.old.spare }
    {
        give_up(&mut self.ledger, Outcome::Unknown);
        if self.busy() {
            self.last = Ended::Failed(self.job.step.number(), Why::Restarted);
            self.stage = Stage::Idle;
        }
    }

    /// Takes the operator's command, or refuses it for the first reason that there is. What is sent is in `out`, which
    /// is empty where nothing is. Memory is taken for an entry of the ledger alone, by a blank message and an
    /// activation that are taken.
    #[tactic(auto, unfolding(crate::specs::Commands::commanded, crate::specs::Sending::sends))]
    pub fn command(&mut self, command: Command<'_>, out: &mut Out) -> Result<(), CommandFault>
        ensures state { OnOk result (self.new.state ≡ (commanded self.old.state (command_model command.entry)).state) }
        ensures sent { OnOk result (sent_in out.new.items
            ≡ (commanded self.old.state (command_model command.entry)).sent) }
        ensures taken { OnOk result (refusal_of self.old.state (command_model command.entry) ≡ None) }
        ensures refused { IfErr result (λ fault. (fault ≡ faults.Memory)
            ⊎ (refusal_of self.old.state (command_model command.entry) ≡ Some fault)) }
        ensures memory { result ≡ Err faults.Memory → (refusal_of self.old.state (command_model command.entry) ≡ None)
            × (is_activating (job_of (command_model command.entry)).step ≡ true) × (self.old.spare ≡ 0) }
        ensures room { enters_by self.old.state (command_model command.entry) ≡ false
            → self.new.spare ≡ self.old.spare }
        ensures unchanged { OnErr result (self.new.state ≡ self.old.state) }
        ensures silent { OnErr result (out.new.items ≡ []) }
    {
        if let Some(fault) = self.refusal(&command) {
            out.clear();
            return Err(fault);
        }
        if command.first_step().is_activating() && self.make_room().is_err() {
            out.clear();
            return Err(CommandFault::Memory);
        }
        self.job.begin(&command);
        self.stage = Stage::Due;
        out.clear();
        self.send(out);
        Ok(())
    }

    /// One tick of the clock: a request that waits grows older, is sent again, or is given up; what is due is sent.
    /// What is sent is in `out`, which is empty where nothing is. Memory is taken for an entry of the ledger alone,
    /// before an activation that is due.
    #[tactic(auto, unfolding(crate::specs::Inputs::ticked))]
    pub fn tick(&mut self, out: &mut Out) -> Result<(), NoMemory>
        ensures state { OnOk result (self.new.state ≡ (ticked self.old.state).state) }
        ensures sent { OnOk result (sent_in out.new.items ≡ (ticked self.old.state).sent) }
        ensures memory { OnErr result ((enters_at_tick self.old.state ≡ true) × (self.old.spare ≡ 0)) }
        ensures room { enters_at_tick self.old.state ≡ false → self.new.spare ≡ self.old.spare }
        ensures unchanged { OnErr result (self.new.state ≡ self.old.state) }
        ensures silent { OnErr result (out.new.items ≡ []) }
    {
        out.clear();
        match self.stage {
            Stage::Idle => {}
            Stage::Awaits => self.hear_nothing(out),
            Stage::Due => {
                if self.adds_entry() {
                    self.make_room()?;
                }
                self.send(out);
            }
        }
        Ok(())
    }

    /// The community of its requests.
    pub(crate) fn community(&self) -> &[u8]
        ensures { result.now ≡ self.now.state.settings.community }
    {
        self.community.as_slice()
    }

    /// Which octet of a checksum its sign has first.
    pub fn order(&self) -> Order
        ensures { result ≡ self.now.state.settings.order }
    {
        self.order
    }

    /// The first reason to refuse a command, other than out of memory.
    pub fn refusal(&self, command: &Command<'_>) -> Option<CommandFault>
        ensures { result ≡ refusal_of self.now.state (command_model command.now) }
    {
        if self.busy() {
            Some(CommandFault::Busy)
        } else if self.next > LAST_NUMBER {
            Some(CommandFault::NumbersUsedUp)
        } else if !command.is_good() {
            Some(CommandFault::BadCommand)
        } else {
            None
        }
    }

    /// Whether the request of the job makes an entry of the ledger.
    fn adds_entry(&self) -> bool
        requires { is_busy self.now.state.phase ≡ true }
        ensures { result ≡ adds_entry self.now.state self.now.state.phase }
    {
        self.job.step.is_activating() && self.next <= LAST_NUMBER
    }

    /// Makes room for one more entry of the ledger.
    pub(crate) fn make_room(&mut self) -> Result<(), NoMemory>
        ensures made { OnOk result (0 < self.new.spare) }
        ensures none { OnErr result (self.old.spare ≡ 0) }
        ensures state { self.new.state ≡ self.old.state }
    {
        match self.ledger.reserve(1) {
            Ok(()) => Ok(()),
            Err(_) => Err(NoMemory),
        }
    }

    /// The job is done.
    pub(crate) fn end(&mut self, ended: Ended)
        requires { awaits_activation self.old.state.phase ≡ false }
        ensures state { self.new.state ≡ ends self.old.state ended }
        ensures room { self.new.spare ≡ self.old.spare }
    {
        self.stage = Stage::Idle;
        self.last = ended;
    }

    /// Sends the job's request under the next number; where there is none, the job fails.
    #[tactic(auto, using(crate::proofs::Fine::sent_in_canonical), unfolding(crate::specs::Sending::sends))]
    pub(crate) fn send(&mut self, out: &mut Out)
        requires busy { is_busy self.old.state.phase ≡ true }
        requires other { awaits_activation self.old.state.phase ≡ false }
        requires room { adds_entry self.old.state self.old.state.phase ≡ true → 0 < self.old.spare }
        requires empty { out.old.items ≡ [] }
        ensures state { self.new.state ≡ (sends_job self.old.state self.old.state.phase).state }
        ensures sent { sent_in out.new.items ≡ (sends_job self.old.state self.old.state.phase).sent }
        ensures spare { adds_entry self.old.state self.old.state.phase ≡ false → self.new.spare ≡ self.old.spare }
    {
        if self.next > LAST_NUMBER {
            self.end(Ended::Failed(self.job.step.number(), Why::NumbersUsedUp));
            return;
        }
        put_request(
            self.community.as_slice(),
            self.order,
            self.next,
            &self.job.work,
            self.job.step,
            out,
        );
        enter_job(&mut self.ledger, self.next, &self.job);
        self.pending.begin(self.next, out);
        self.stage = Stage::Awaits;
        self.next += 1;
    }

    /// A tick without a reply: the request is sent again, a number of times; then the job fails.
    #[tactic(auto, unfolding(crate::specs::Inputs::ticked))]
    fn hear_nothing(&mut self, out: &mut Out)
        requires awaiting { is_awaiting self.old.state.phase ≡ true }
        requires empty { out.old.items ≡ [] }
        ensures state { self.new.state ≡ (ticked self.old.state).state }
        ensures sent { sent_in out.new.items ≡ (ticked self.old.state).sent }
        ensures room { self.new.spare ≡ self.old.spare }
    {
        if self.pending.age + 1 < TICKS_TO_WAIT {
            self.pending.age += 1;
        } else if self.pending.sends < MOST_SENDS {
            self.pending.send_again(out);
        } else {
            give_up(&mut self.ledger, Outcome::NoReply);
            self.last = Ended::Failed(self.job.step.number(), Why::NoReply);
            self.stage = Stage::Idle;
        }
    }
}
