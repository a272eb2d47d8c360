//! What a datagram makes of a central system.

ghost use Rattle.std.specs.Prelude.{◌≡◌, [], true, false, Some, None};
ghost use Rattle.dms_wire.specs.View.{snmp_message};
ghost use Rattle.dms_centre_jobs.specs.Steps.{is_activating};
ghost use Rattle.dms_centre.specs.Inputs.{received};
ghost use Rattle.dms_centre.specs.Replies.{number_read};
ghost use Rattle.dms_centre.specs.ByPhase.{is_awaiting, awaits_activation, is_answered, succeeds, is_refused, reads};
ghost use Rattle.dms_centre.specs.ByPhase.{is_reading, asked_at, takes, sends_at, polls_again, checksum_of_job};
ghost use Rattle.dms_centre.specs.CodeView.{sent_in};

use crate::centre::Centre;
use crate::ended::{Ended, Why};
use crate::ledger::decide;
use crate::outcome::Outcome;
use crate::reply::{cell_number, instance_number};
use crate::stage::Stage;
use dms_centre_jobs::Step;
use dms_codes::{Order, Status};
use dms_mib::{Column, Instance, Scalar};
use dms_wire::{Binds, ErrorStatus, Kind, Message, Out, heard};

/// How many times a row is polled that is being validated.
pub(crate) const MOST_POLLS: u8 = 10;

impl Centre {
    /// Takes a datagram, whoever sent it: what does not answer the waiting request changes nothing. What is sent is in
    /// `out`, which is empty where nothing is. No memory is taken.
    #[tactic(auto, using(crate::proofs::Unheard::unheard), unfolding(crate::specs::Inputs::received))]
    pub fn receive(&mut self, datagram: &[u8], out: &mut Out)
        ensures state { self.new.state ≡ (received self.old.state datagram.now).state }
        ensures sent { sent_in out.new.items ≡ (received self.old.state datagram.now).sent }
        ensures room { self.new.spare ≡ self.old.spare }
    {
        out.clear();
        if !self.is_awaiting() {
            return;
        }
        let Some(message) = heard(datagram) else {
            return;
        };
        if !self.is_answered_by(&message) {
            return;
        }
        if message.status == i64::from(ErrorStatus::NoError.number()) {
            self.succeed(message.binds, out);
        } else {
            self.refused(message.status, out);
        }
    }

    /// Whether a request waits for its reply.
    fn is_awaiting(&self) -> bool
        ensures { result ≡ is_awaiting self.now.state.phase }
    {
        self.stage == Stage::Awaits
    }

    /// Whether the message answers the waiting request.
    fn is_answered_by(&self, message: &Message<'_>) -> bool
        requires { is_awaiting self.now.state.phase ≡ true }
        ensures { result ≡ is_answered self.now.state self.now.state.phase (snmp_message message.now) }
    {
        message.kind == Kind::Response
            && message.community == self.community()
            && message.request == i64::from(self.pending.number)
    }

    /// The waiting request was answered without an error.
    #[tactic(auto, unfolding(crate::specs::Sending::sends))]
    fn succeed(&mut self, binds: Binds<'_>, out: &mut Out)
        requires awaiting { is_awaiting self.old.state.phase ≡ true }
        requires empty { out.old.items ≡ [] }
        ensures state { self.new.state ≡ (succeeds self.old.state self.old.state.phase binds.entry).state }
        ensures sent { sent_in out.new.items ≡ (succeeds self.old.state self.old.state.phase binds.entry).sent }
        ensures room { self.new.spare ≡ self.old.spare }
    {
        match self.job.step {
            Step::Opening => self.send_at(Step::Opened, out),
            Step::Filling => self.send_at(Step::Validating, out),
            Step::Validating => self.send_at(Step::Polling, out),
            Step::Activating => {
                decide(&mut self.ledger, self.pending.number, Outcome::Accepted);
                self.stage = Stage::Idle;
                self.last = Ended::Accepted;
            }
            Step::Opened | Step::Polling | Step::Comparing | Step::Explaining => {
                self.hear_number(binds, out);
            }
        }
    }

    /// The waiting request was answered with an error.
    #[tactic(auto, unfolding(crate::specs::Sending::sends))]
    fn refused(&mut self, status: i64, out: &mut Out)
        requires awaiting { is_awaiting self.old.state.phase ≡ true }
        requires empty { out.old.items ≡ [] }
        ensures state { self.new.state ≡ (is_refused self.old.state self.old.state.phase status).state }
        ensures sent { sent_in out.new.items ≡ (is_refused self.old.state self.old.state.phase status).sent }
        ensures room { self.new.spare ≡ self.old.spare }
    {
        if self.job.step.is_activating() {
            decide(
                &mut self.ledger,
                self.pending.number,
                Outcome::Refused(status),
            );
            self.job.step = Step::Explaining;
            self.send(out);
        } else {
            self.end(Ended::Failed(self.job.step.number(), Why::Status(status)));
        }
    }

    /// A number was asked for.
    fn hear_number(&mut self, binds: Binds<'_>, out: &mut Out)
        requires reading { is_reading self.old.state.phase ≡ true }
        requires empty { out.old.items ≡ [] }
        ensures state { self.new.state ≡ (reads self.old.state self.old.state.phase binds.entry).state }
        ensures sent { sent_in out.new.items ≡ (reads self.old.state self.old.state.phase binds.entry).sent }
        ensures room { self.new.spare ≡ self.old.spare }
    {
        match self.number_reported(binds) {
            Some(number) => self.take_number(number, out),
            None => self.end(Ended::Failed(self.job.step.number(), Why::OddReply)),
        }
    }

    /// The number that a reply reports of the object that was asked for.
    #[tactic(auto, unfolding(dms_mib::specs::Names::name_of))]
    fn number_reported(&self, binds: Binds<'_>) -> Option<i64>
        requires { is_reading self.now.state.phase ≡ true }
        ensures { result ≡ number_read (asked_at self.now.state self.now.state.phase) binds.entry }
    {
        let row = self.job.work.row();
        match self.job.step {
            Step::Comparing => cell_number(Column::Crc, row, binds),
            Step::Explaining => {
                instance_number(Instance::Scalar(Scalar::ActivateMsgError), binds)
            }
            _ => cell_number(Column::Status, row, binds),
        }
    }

    /// The number that was asked for was reported.
    #[tactic(auto, unfolding(crate::specs::Sending::sends))]
    fn take_number(&mut self, number: i64, out: &mut Out)
        requires awaiting { is_awaiting self.old.state.phase ≡ true }
        requires other { awaits_activation self.old.state.phase ≡ false }
        requires empty { out.old.items ≡ [] }
        ensures state { self.new.state ≡ (takes self.old.state self.old.state.phase number).state }
        ensures sent { sent_in out.new.items ≡ (takes self.old.state self.old.state.phase number).sent }
        ensures room { self.new.spare ≡ self.old.spare }
    {
        let step = self.job.step;
        match step {
            Step::Opened => {
                if number == i64::from(Status::Modifying.number()) {
                    self.send_at(Step::Filling, out);
                } else {
                    self.end(Ended::Failed(step.number(), Why::WrongStatus(number)));
                }
            }
            Step::Polling => {
                if number == i64::from(Status::Valid.number()) {
                    self.send_at(Step::Comparing, out);
                } else if number == i64::from(Status::Validating.number()) {
                    self.poll_again();
                } else {
                    self.end(Ended::Failed(step.number(), Why::WrongStatus(number)));
                }
            }
            Step::Comparing => {
                self.job.work.store_checksum();
                if number == i64::from(self.checksum()) {
                    self.job.step = Step::Activating;
                    self.stage = Stage::Due;
                } else {
                    self.end(Ended::Failed(step.number(), Why::OtherChecksum));
                }
            }
            Step::Explaining => {
                self.end(Ended::Failed(Step::Activating.number(), Why::Cause(number)));
            }
            _ => {}
        }
    }

    /// The row is still being validated: it is polled once more, a number of times.
    fn poll_again(&mut self)
        requires awaiting { is_awaiting self.old.state.phase ≡ true }
        requires other { awaits_activation self.old.state.phase ≡ false }
        ensures state { self.new.state ≡ (polls_again self.old.state self.old.state.phase).state }
        ensures room { self.new.spare ≡ self.old.spare }
    {
        if self.job.polls + 1 < MOST_POLLS {
            self.job.polls += 1;
            self.stage = Stage::Due;
        } else {
            self.end(Ended::Failed(Step::Polling.number(), Why::StillValidating));
        }
    }

    /// The checksum of the operator's message, as the sign is to report it.
    fn checksum(&self) -> u16
        requires { is_awaiting self.now.state.phase ≡ true }
        ensures { result ≡ checksum_of_job self.now.state self.now.state.phase }
    {
        self.order().in_order(self.job.work.code().id.crc)
    }

    /// Sends the request of another step of the job.
    #[tactic(auto, unfolding(crate::specs::Sending::sends))]
    fn send_at(&mut self, step: Step, out: &mut Out)
        requires awaiting { is_awaiting self.old.state.phase ≡ true }
        requires sent { awaits_activation self.old.state.phase ≡ false }
        requires other { is_activating step ≡ false }
        requires empty { out.old.items ≡ [] }
        ensures state { self.new.state ≡ (sends_at self.old.state self.old.state.phase step).state }
        ensures sent { sent_in out.new.items ≡ (sends_at self.old.state self.old.state.phase step).sent }
        ensures room { self.new.spare ≡ self.old.spare }
    {
        self.job.step = step;
        self.send(out);
    }
}
