//! The lines of the job that is on.

ghost use Rattle.std.specs.Prelude.{◌≡◌, ◌+◌, Some, None};
ghost use Rattle.dms_centre_text.specs.CommandView.{owned_command_model};
ghost use Rattle.dms_centre_restored.specs.declared.refusal.CentreStateField.TheVariants as fields;
ghost use Rattle.dms_centre_restored.specs.Lacks.{wanting, Reads, Gives};
ghost use Rattle.dms_centre_restored.specs.LineReading.{step_of, comes_to, step_in, step_line_at, step_wanted};
ghost use Rattle.dms_centre_restored.specs.LineReading.{after_row, after_message, after_terms, are_terms, is_last};
ghost use Rattle.dms_centre_restored.specs.LineReading.{is_publication, publication_at, activation_at, is_of_showing};
ghost use Rattle.dms_centre_restored.specs.LineReading.{work_at, work_wanted};
ghost use Rattle.dms_centre_restored.specs.JobReading.{waiting_at, job_at, job_in, job_lines_at};
ghost use Rattle.dms_centre_restored.specs.StateReading.{job_read, saved_read, waits, job_found};

use crate::lines::{PhaseLine, field, number_line, phase_line};
use crate::refusal::{CentreLineLack, CentreStateField, UnreadCentreLine};
use crate::words::{after_address, after_number, after_octets, code};
use dms_centre::{SavedJob, SavedStage, Step};
use dms_centre_text::{CommandWord, OwnedCommand, command_after};
use dms_codes::{MAX_OWNER, MAX_TEXT, Order};
use dms_text::Words;
use dms_text_exact::{behind, number};
use dms_text_forms::LineWords;
use std::alloc::Global;

/// The job that is on, which owns its octets.
#[derive(Drop)]
pub(crate) struct JobLines {
    command: OwnedCommand,
    step: Step,
    polls: u8,
    stage: SavedStage,
}

impl JobLines {
    /// The job, which borrows the octets.
    pub(crate) fn lent(&self) -> SavedJob<'_>
        ensures { saved_read result ≡ job_read self.now }
    {
        SavedJob {
            command: self.command.lent(),
            step: self.step,
            polls: self.polls,
            stage: self.stage,
        }
    }

    /// Whether its activation waits for a reply.
    pub(crate) fn waits_for_activation(&self) -> bool
        ensures { result ≡ waits (job_read self.now) }
    {
        match self.stage {
            SavedStage::Due => false,
            SavedStage::Waits { .. } => self.step.is_activating(),
        }
    }
}

/// The job that is on, if one is, where the next request has this number.
#[tactic(auto, unfolding(crate::specs::JobReading::job_lines_at))]
pub(crate) fn job_lines(
    alloc: Global,
    order: Order,
    next: u32,
    text: &[u8],
) -> Result<(Option<JobLines>, &[u8]), UnreadCentreLine>
    ensures { Gives (λ x. (job_found x.0, x.1.now)) result (job_lines_at order next text.now) }
{
    let (phase, rest) = phase_line(next, text)?;
    job_in(alloc, order, phase, rest)
}

fn job_in(
    alloc: Global,
    order: Order,
    phase: PhaseLine,
    text: &[u8],
) -> Result<(Option<JobLines>, &[u8]), UnreadCentreLine>
    ensures { Gives (λ x. (job_found x.0, x.1.now)) result (job_in order phase text.now) }
{
    match phase {
        PhaseLine::Idle => Ok((None, text)),
        PhaseLine::Due => {
            let (job, rest) = job(alloc, order, SavedStage::Due, text)?;
            Ok((Some(job), rest))
        }
        PhaseLine::Awaits => {
            let (stage, rest) = waiting(text)?;
            let (job, rest) = job(alloc, order, stage, rest)?;
            Ok((Some(job), rest))
        }
    }
}

/// How many times the request that waits went out, and the ticks since.
#[tactic(auto, unfolding(crate::specs::JobReading::waiting_at))]
fn waiting(text: &[u8]) -> Result<(SavedStage, &[u8]), CentreLineLack>
    ensures { Reads (λ x. (x.0, x.1.now)) result (waiting_at text.now) }
{
    let (sends, rest) = number_line(b"sends ", CentreStateField::Sends, 1, 3, text)?;
    let (ticks, rest) = number_line(b"ticks ", CentreStateField::Ticks, 0, 2, rest)?;
    let stage = SavedStage::Waits {
        sends: sends as u8,
        ticks: ticks as u8,
    };
    Ok((stage, rest))
}

#[tactic(auto, unfolding(crate::specs::JobReading::job_at))]
fn job(
    alloc: Global,
    order: Order,
    stage: SavedStage,
    text: &[u8],
) -> Result<(JobLines, &[u8]), UnreadCentreLine>
    ensures { Gives (λ x. (job_read x.0, x.1.now)) result (job_at order stage text.now) }
{
    let (step, rest) = step_line(stage, text)?;
    let (polls, rest) = number_line(b"polls ", CentreStateField::Polls, 0, 9, rest)?;
    let (command, rest) = work(alloc, order, step, rest)?;
    let job = JobLines {
        command,
        step,
        polls: polls as u8,
        stage,
    };
    Ok((job, rest))
}

#[tactic(auto, unfolding(crate::specs::LineReading::step_line_at))]
fn step_line(stage: SavedStage, text: &[u8]) -> Result<(Step, &[u8]), CentreLineLack>
    ensures { Reads (λ x. (x.0, x.1.now)) result (wanting (step_wanted stage) text.now (step_line_at stage text.now)) }
{
    let field = field(b"step ", step_wanted(stage), text)?;
    match step(stage, field.value) {
        Some(step) => Ok((step, field.rest)),
        None => Err(field.lack),
    }
}

fn step_wanted(stage: SavedStage) -> CentreStateField
    ensures { result ≡ step_wanted stage }
{
    match stage {
        SavedStage::Due => CentreStateField::StepOfTick,
        SavedStage::Waits { .. } => CentreStateField::Step,
    }
}

/// The step that a digit is: one whose request a tick sends, where the job is due.
#[tactic(auto, unfolding(crate::specs::LineReading::step_in))]
fn step(stage: SavedStage, value: &[u8]) -> Option<Step>
    ensures { result ≡ step_in stage value.now }
{
    let step = step_of(number(1, 8, value)?);
    if comes_to(stage, step) {
        Some(step)
    } else {
        None
    }
}

fn step_of(number: u32) -> Step
    ensures { result ≡ step_of number }
{
    match number {
        1 => Step::Opening,
        2 => Step::Opened,
        3 => Step::Filling,
        4 => Step::Validating,
        5 => Step::Polling,
        6 => Step::Comparing,
        7 => Step::Activating,
        _ => Step::Explaining,
    }
}

/// Whether a job that goes on so comes to the step.
fn comes_to(stage: SavedStage, step: Step) -> bool
    ensures { result ≡ comes_to stage step }
{
    match stage {
        SavedStage::Due => matches!(step, Step::Polling | Step::Activating),
        SavedStage::Waits { .. } => true,
    }
}

/// What is to be activated, as an operator commands it: a message that the sign has comes to the last two steps alone.
#[tactic(auto, unfolding(crate::specs::LineReading::work_at))]
fn work(
    alloc: Global,
    order: Order,
    step: Step,
    text: &[u8],
) -> Result<(OwnedCommand, &[u8]), UnreadCentreLine>
    ensures { Gives (λ x. (owned_command_model x.0, x.1.now)) result
        (wanting (work_wanted step text.now) text.now (work_at order step text.now)) }
{
    if is_of_showing(step) && behind(b"publish ", text).is_none() {
        activation(order, text)
    } else {
        publication(alloc, order, text)
    }
}

/// Whether a message that the sign has comes to the step.
fn is_of_showing(step: Step) -> bool
    ensures { result ≡ is_of_showing step }
{
    matches!(step, Step::Activating | Step::Explaining)
}

#[tactic(auto, unfolding(crate::specs::LineReading::activation_at))]
fn activation(order: Order, text: &[u8]) -> Result<(OwnedCommand, &[u8]), UnreadCentreLine>
    ensures { Gives (λ x. (owned_command_model x.0, x.1.now)) result
        (wanting fields.Activation text.now (activation_at order text.now)) }
{
    let field = field(b"activate ", CentreStateField::Activation, text)?;
    match code(order, field.value) {
        Some(code) => Ok((OwnedCommand::Activate(code), field.rest)),
        None => Err(UnreadCentreLine::Lacks(field.lack)),
    }
}

#[tactic(auto, unfolding(crate::specs::LineReading::publication_at))]
fn publication(
    alloc: Global,
    order: Order,
    text: &[u8],
) -> Result<(OwnedCommand, &[u8]), UnreadCentreLine>
    ensures { Gives (λ x. (owned_command_model x.0, x.1.now)) result
        (wanting fields.Publication text.now (publication_at text.now)) }
{
    let field = field(b"publish ", CentreStateField::Publication, text)?;
    if !is_publication(field.value) {
        return Err(UnreadCentreLine::Lacks(field.lack));
    }
    let words = LineWords {
        place: 2,
        words: Words::of(field.value),
    };
    match command_after(alloc, order, CommandWord::Publish, words)? {
        Ok(command) => Ok((command, field.rest)),
        Err(_) => Err(UnreadCentreLine::Lacks(field.lack)),
    }
}

/// Whether words are those of a publication that can be written.
#[tactic(auto, unfolding(crate::specs::LineReading::is_publication))]
fn is_publication(value: &[u8]) -> bool
    ensures { result ≡ is_publication value.now }
{
    match after_message(Words::of(value)) {
        Some(words) => are_terms(words),
        None => false,
    }
}

/// The words after a row, a text and its owner.
#[tactic(auto, unfolding(crate::specs::LineReading::after_row))]
fn after_row(words: Words<'_>) -> Option<Words<'_>>
    ensures { result ≡ after_row words.entry }
{
    let words = after_number(words, 3, 4)?;
    let words = after_number(words, 1, 65535)?;
    let words = after_octets(words, MAX_TEXT)?;
    after_octets(words, MAX_OWNER)
}

/// The words after all that belongs to a message.
#[tactic(auto, unfolding(crate::specs::LineReading::after_message))]
fn after_message(words: Words<'_>) -> Option<Words<'_>>
    ensures { result ≡ after_message words.entry }
{
    let words = after_row(words)?;
    let words = after_number(words, 0, 1)?;
    let words = after_number(words, 0, 1)?;
    after_number(words, 1, 255)
}

/// Whether words are the terms of an activation.
fn are_terms(words: Words<'_>) -> bool
    ensures { result ≡ is_last (after_terms words.entry) }
{
    match after_terms(words) {
        Some(words) => words.is_empty(),
        None => false,
    }
}

#[tactic(auto, unfolding(crate::specs::LineReading::after_terms))]
fn after_terms(words: Words<'_>) -> Option<Words<'_>>
    ensures { result ≡ after_terms words.entry }
{
    let words = after_number(words, 0, 65535)?;
    let words = after_number(words, 0, 255)?;
    after_address(words)
}
