//! A job and its request, as lines of text.

ghost use Rattle.std.specs.Prelude.{◌≡◌, ◌++◌, codes};
ghost use Rattle.dms_text_filling.specs.Filling.{Puts};
ghost use Rattle.dms_centre_jobs.specs.Job.{Showing};
ghost use Rattle.dms_centre_jobs.specs.CodeView.{job_model};
ghost use Rattle.dms_centre_jobs.specs.PublicationView.{publication_model};
ghost use Rattle.dms_centre.specs.State.{Awaits};
ghost use Rattle.dms_centre.specs.CodeView.{lent_phase, pending_model};
ghost use Rattle.dms_centre_state.specs.CentreText.{row_words, message_words, term_words};
ghost use Rattle.dms_centre_state.specs.CentreText.{publish_line, work_line, job_text, phase_text};

use crate::ledger_lines::put_code;
use dms_centre::{Job, Pending, Phase, Publication};
use dms_centre_jobs::Work;
use dms_codes::{Activation, Order};
use dms_text_exact::{put_address, put_octets};
use dms_text_filling::{put_decimal, put_number, put_text};
use itoa::Integer;

/// Puts whether a job is on, and what it is.
pub(crate) fn put_phase(buffer: &mut [u8], place: usize, order: Order, phase: Phase<'_>) -> usize
    ensures { Puts (phase_text order (lent_phase phase.entry)) place buffer.old result buffer.new }
{
    match phase {
        Phase::Idle => put_text(buffer, place, "idle\n"),
        Phase::Awaits(job, pending) => put_awaits(buffer, place, order, job, pending),
        Phase::Due(job) => put_due(buffer, place, order, job),
    }
}

fn put_awaits(buffer: &mut [u8], place: usize, order: Order, job: &Job, pending: &Pending) -> usize
    ensures { Puts (phase_text order (Awaits (job_model job.now) (pending_model pending.now)))
        place buffer.old result buffer.new }
{
    let place = put_text(buffer, place, "awaits\n");
    let place = put_number(buffer, place, "sends", pending.sends);
    let place = put_number(buffer, place, "ticks", pending.age);
    put_job(buffer, place, order, job)
}

fn put_due(buffer: &mut [u8], place: usize, order: Order, job: &Job) -> usize
    ensures { Puts (codes "due\n" ++ job_text order (job_model job.now)) place buffer.old result buffer.new }
{
    let place = put_text(buffer, place, "due\n");
    put_job(buffer, place, order, job)
}

fn put_job(buffer: &mut [u8], place: usize, order: Order, job: &Job) -> usize
    ensures { Puts (job_text order (job_model job.now)) place buffer.old result buffer.new }
{
    let place = put_number(buffer, place, "step", job.step.number());
    let place = put_number(buffer, place, "polls", job.polls);
    put_work(buffer, place, order, &job.work)
}

/// Puts what is to be activated, as an operator commands it.
fn put_work(buffer: &mut [u8], place: usize, order: Order, work: &Work) -> usize
    ensures { Puts (work_line order work.now) place buffer.old result buffer.new }
{
    match work.publication() {
        Some(publication) => put_publication(buffer, place, &publication),
        None => put_activation(buffer, place, order, &work.code()),
    }
}

fn put_activation(buffer: &mut [u8], place: usize, order: Order, code: &Activation) -> usize
    ensures { Puts (work_line order (Showing code.now)) place buffer.old result buffer.new }
{
    let place = put_text(buffer, place, "activate ");
    let place = put_code(buffer, place, order, code);
    put_text(buffer, place, "\n")
}

fn put_publication(buffer: &mut [u8], place: usize, publication: &Publication<'_>) -> usize
    ensures { Puts (publish_line (publication_model publication.now)) place buffer.old result buffer.new }
{
    let place = put_row(buffer, place, publication);
    let place = put_message(buffer, place, publication);
    let attributes = publication.attributes;
    let place = put_word(buffer, place, attributes.beacon);
    let place = put_word(buffer, place, attributes.pixel);
    let place = put_word(buffer, place, attributes.run_priority);
    put_terms(buffer, place, publication)
}

fn put_row(buffer: &mut [u8], place: usize, publication: &Publication<'_>) -> usize
    ensures { Puts (row_words (publication_model publication.now)) place buffer.old result buffer.new }
{
    let place = put_text(buffer, place, "publish ");
    let place = put_decimal(buffer, place, publication.row.memory);
    put_word(buffer, place, publication.row.number)
}

/// Puts a space and a number.
fn put_word<N: Integer>(buffer: &mut [u8], place: usize, number: N) -> usize
    ensures { Puts (codes " " ++ N.text number) place buffer.old result buffer.new }
{
    let place = put_text(buffer, place, " ");
    put_decimal(buffer, place, number)
}

fn put_message(buffer: &mut [u8], place: usize, publication: &Publication<'_>) -> usize
    ensures { Puts (message_words (publication_model publication.now)) place buffer.old result buffer.new }
{
    let place = put_text(buffer, place, " ");
    let place = put_octets(buffer, place, publication.text);
    let place = put_text(buffer, place, " ");
    put_octets(buffer, place, publication.owner)
}

fn put_terms(buffer: &mut [u8], place: usize, publication: &Publication<'_>) -> usize
    ensures { Puts (term_words (publication_model publication.now)) place buffer.old result buffer.new }
{
    let terms = publication.terms;
    let place = put_word(buffer, place, terms.minutes);
    let place = put_word(buffer, place, terms.priority);
    let place = put_text(buffer, place, " ");
    let place = put_address(buffer, place, terms.address);
    put_text(buffer, place, "\n")
}
