//! The lines of the ledger, and what a central system takes up of them.

ghost use Rattle.std.specs.Prelude.{◌≡◌, ◌≤◌, ◌<◌, ◌+◌, ◌^◌, ◌&&◌, Some, None, IfOk, IfSome, OnOk, length, option_map};
ghost use Rattle.dms_codes.specs.Codes.{IsActivation};
ghost use Rattle.dms_centre.specs.CodeView.{ledger_model};
ghost use Rattle.dms_centre.specs.Resending.{is_waiting};
ghost use Rattle.dms_centre.specs.Restoring.{end_fault, with_last};
ghost use Rattle.dms_centre_state.specs.Reached.{IsReached};
ghost use Rattle.dms_centre_restored.specs.Restored.{GoesOn};
ghost use Rattle.dms_centre_restored.specs.declared.refusal.CentreStateField.TheVariants as fields;
ghost use Rattle.dms_centre_restored.specs.Lacks.{here, wanting, unless, Reads, Gives};
ghost use Rattle.dms_centre_restored.specs.LineReading.{known, known_at, refused_at, outcome_at, entry_in};
ghost use Rattle.dms_centre_restored.specs.LineReading.{entry_line_at};
ghost use Rattle.dms_centre_restored.specs.StateReading.{job_read, saved_read, entry_read, numbered_entry};
ghost use Rattle.dms_centre_restored.specs.StateReading.{with_read_entry, with_read_job, with_settled, next_entry_at};
ghost use Rattle.dms_centre_restored.specs.StateReading.{next_found, entries_at, activation_taken_at};
ghost use Rattle.dms_centre_restored.specs.StateReading.{with_job_behind, has_last_code, same_codes, ledger_at};

use crate::job_lines::JobLines;
use crate::lines::{field, here};
use crate::refusal::{CentreLineLack, CentreStateField, UnreadCentreLine};
use crate::words::code;
use dms_centre::{Centre, Ended, Entry, EntryFault, JobFault, Outcome, SavedJob};
use dms_codes::{Activation, Order};
use dms_text::{Words, are_same};
use dms_text_exact::{integer, number, starts_with};
use indexmap::IndexMap;

/// An entry of the ledger, and the text after its line.
#[derive(Drop)]
struct EntryLine<'a> {
    number: u32,
    code: Activation,
    outcome: Outcome,
    rest: &'a [u8],
    /// What is told where it is not taken up.
    lack: CentreLineLack,
}

/// An entry of a number from the least to the greatest.
#[tactic(auto, unfolding(crate::specs::LineReading::entry_line_at))]
fn entry_line(
    order: Order,
    least: u32,
    most: u32,
    text: &[u8],
) -> Result<EntryLine<'_>, CentreLineLack>
    ensures read { Reads (λ line. (entry_read line, line.rest.now)) result
        (wanting (fields.Entry least most) text.now (entry_line_at order least most text.now)) }
    ensures lack { IfOk result (λ line. line.lack ≡ here (fields.Entry least most) text.now) }
    ensures most { IfOk result (λ entry. entry.number ≤ most) }
{
    let field = field(b"ledger ", CentreStateField::Entry { least, most }, text)?;
    match entry(order, least, most, field.value) {
        Some((number, code, outcome)) => Ok(EntryLine {
            number,
            code,
            outcome,
            rest: field.rest,
            lack: field.lack,
        }),
        None => Err(field.lack),
    }
}

#[tactic(auto, unfolding(crate::specs::LineReading::entry_in))]
fn entry(order: Order, least: u32, most: u32, value: &[u8]) -> Option<(u32, Activation, Outcome)>
    ensures value { option_map numbered_entry result ≡ entry_in order least most value.now }
    ensures most { IfSome result (λ x. x.0 ≤ most) }
{
    let (word, words) = Words::of(value).next_word()?;
    let number = number(least, most, word)?;
    let (word, words) = words.next_word()?;
    let code = code(order, word)?;
    let outcome = outcome(words)?;
    Some((number, code, outcome))
}

#[tactic(auto, unfolding(crate::specs::LineReading::outcome_at))]
fn outcome(words: Words<'_>) -> Option<Outcome>
    ensures { result ≡ outcome_at words.entry }
{
    let (word, words) = words.next_word()?;
    if are_same(word, b"refused") {
        refused(words)
    } else {
        known_last(word, words)
    }
}

/// What is refused for an error-status.
#[tactic(auto, unfolding(crate::specs::LineReading::refused_at))]
fn refused(words: Words<'_>) -> Option<Outcome>
    ensures { result ≡ refused_at words.entry }
{
    let (word, words) = words.next_word()?;
    let status = integer(word)?;
    if words.is_empty() {
        Some(Outcome::Refused(status))
    } else {
        None
    }
}

/// An outcome of one word, after which there is none.
#[tactic(auto, unfolding(crate::specs::LineReading::known_at))]
fn known_last(word: &[u8], words: Words<'_>) -> Option<Outcome>
    ensures { result ≡ known_at word.now words.entry }
{
    let outcome = known(word)?;
    if words.is_empty() {
        Some(outcome)
    } else {
        None
    }
}

#[tactic(auto, unfolding(crate::specs::LineReading::known))]
fn known(word: &[u8]) -> Option<Outcome>
    ensures { result ≡ known word.now }
{
    if are_same(word, b"waiting") {
        Some(Outcome::Waiting)
    } else if are_same(word, b"accepted") {
        Some(Outcome::Accepted)
    } else if are_same(word, b"noreply") {
        Some(Outcome::NoReply)
    } else if are_same(word, b"unknown") {
        Some(Outcome::Unknown)
    } else {
        None
    }
}

/// Takes up the ledger with no job.
#[tactic(auto, unfolding(crate::specs::StateReading::ledger_at))]
pub(crate) fn put_ledger<'a>(
    centre: &mut Centre,
    order: Order,
    text: &'a [u8],
) -> Result<&'a [u8], UnreadCentreLine>
    requires { IsReached centre.old.state }
    ensures goes { OnOk result (GoesOn centre.old.state centre.new.state) }
    ensures read { Gives (λ rest. (centre.new.state, rest.now)) result
        (ledger_at order None centre.old.state text.now) }
{
    let (_, rest) = put_entries(centre, order, false, text)?;
    Ok(rest)
}

/// Takes up the ledger, and the job that is on.
#[tactic(auto, unfolding(crate::specs::StateReading::ledger_at))]
pub(crate) fn put_with_job<'a>(
    centre: &mut Centre,
    order: Order,
    job: &JobLines,
    text: &'a [u8],
) -> Result<&'a [u8], UnreadCentreLine>
    requires { IsReached centre.old.state }
    ensures goes { OnOk result (GoesOn centre.old.state centre.new.state) }
    ensures read { Gives (λ rest. (centre.new.state, rest.now)) result
        (ledger_at order (Some (job_read job.now)) centre.old.state text.now) }
{
    let (least, rest) = put_entries(centre, order, job.waits_for_activation(), text)?;
    put_behind(centre, order, job, least, rest)
}

/// Takes up the job behind the entries that do not wait: the entry of an activation that waits is the last, and comes
/// with it.
fn put_behind<'a>(
    centre: &mut Centre,
    order: Order,
    job: &JobLines,
    least: u32,
    text: &'a [u8],
) -> Result<&'a [u8], UnreadCentreLine>
    requires { IsReached centre.old.state }
    ensures goes { OnOk result (GoesOn centre.old.state centre.new.state) }
    ensures read { Gives (λ rest. (centre.new.state, rest.now)) result
        (with_job_behind order (job_read job.now) (centre.old.state, (least, text.now))) }
{
    if job.waits_for_activation() {
        return put_activation(centre, order, job, least, text);
    }
    put_job(centre, &job.lent(), here(CentreStateField::End, text))?;
    Ok(text)
}

/// Takes up the entries that do not wait, and tells the least number that one more can have.
fn put_entries<'a>(
    centre: &mut Centre,
    order: Order,
    waits: bool,
    text: &'a [u8],
) -> Result<(u32, &'a [u8]), UnreadCentreLine>
    requires { IsReached centre.old.state }
    ensures goes { OnOk result (GoesOn centre.old.state centre.new.state) }
    ensures read { Gives (λ x. (centre.new.state, (x.0, x.1.now))) result
        (entries_at order waits (length text.now) centre.old.state 0 text.now) }
{
    let mut least = 0;
    let mut rest = text;
    for _ in 0..text.len() {
        match next_entry(centre, order, waits, least, rest)? {
            Some((number, after)) => {
                least = number + 1;
                rest = after;
            }
            None => return Ok((least, rest)),
        }
    }
    Ok((least, rest))
}

/// Takes up one entry more, if one is next: its number, and the text after it. Where an activation waits, the entry of
/// the number before the next one is left.
#[tactic(auto, unfolding(crate::specs::StateReading::next_entry_at))]
fn next_entry<'a>(
    centre: &mut Centre,
    order: Order,
    waits: bool,
    least: u32,
    text: &'a [u8],
) -> Result<Option<(u32, &'a [u8])>, UnreadCentreLine>
    requires { IsReached centre.old.state }
    ensures goes { OnOk result (GoesOn centre.old.state centre.new.state) }
    ensures read { Gives (λ x. (centre.new.state, next_found x)) result
        (next_entry_at order waits centre.old.state least text.now) }
    ensures below { IfOk result (λ x. IfSome x (λ found. found.0 + 1 < 2 ^ 32)) }
{
    let next = centre.next_number();
    if least >= next || !starts_with(b"ledger ", text) {
        return Ok(None);
    }
    let entry = entry_line(order, least, next - 1, text)?;
    put_settled(centre, waits, &entry)
}

/// Takes up an entry, unless it is that of an activation that waits.
fn put_settled<'a>(
    centre: &mut Centre,
    waits: bool,
    entry: &EntryLine<'a>,
) -> Result<Option<(u32, &'a [u8])>, UnreadCentreLine>
    requires reached { IsReached centre.old.state }
    ensures goes { OnOk result (GoesOn centre.old.state centre.new.state) }
    ensures read { Gives (λ x. (centre.new.state, next_found x)) result
        (with_settled waits entry.now.lack centre.old.state (entry_read entry.now, entry.now.rest.now)) }
    ensures same { IfOk result (λ x. IfSome x (λ found. found.0 ≡ entry.now.number)) }
{
    if waits && u64::from(entry.number) + 1 == u64::from(centre.next_number()) {
        return Ok(None);
    }
    put_entry(centre, entry)?;
    Ok(Some((entry.number, entry.rest)))
}

fn put_entry(centre: &mut Centre, entry: &EntryLine<'_>) -> Result<(), UnreadCentreLine>
    requires { IsReached centre.old.state }
    ensures goes { OnOk result (GoesOn centre.old.state centre.new.state) }
    ensures read { Gives (λ _. centre.new.state) result
        (with_read_entry entry.now.lack centre.old.state (entry_read entry.now)) }
{
    enter(centre, entry.number, entry.code, entry.outcome, entry.lack)
}

fn enter(
    centre: &mut Centre,
    number: u32,
    code: Activation,
    outcome: Outcome,
    lack: CentreLineLack,
) -> Result<(), UnreadCentreLine>
    requires { IsReached centre.old.state }
    ensures goes { OnOk result (GoesOn centre.old.state centre.new.state) }
    ensures read { Gives (λ _. centre.new.state) result
        (with_read_entry lack centre.old.state (record { number = number; code = code; outcome = outcome })) }
{
    has_ranges(code);
    match centre.put_entry(number, code, outcome) {
        Ok(()) => Ok(()),
        Err(EntryFault::Memory) => Err(UnreadCentreLine::Memory),
        Err(_) => Err(UnreadCentreLine::Lacks(lack)),
    }
}

/// Takes up the job whose activation waits, and its entry.
#[tactic(auto, unfolding(crate::specs::StateReading::activation_taken_at))]
fn put_activation<'a>(
    centre: &mut Centre,
    order: Order,
    job: &JobLines,
    least: u32,
    text: &'a [u8],
) -> Result<&'a [u8], UnreadCentreLine>
    requires { IsReached centre.old.state }
    ensures goes { OnOk result (GoesOn centre.old.state centre.new.state) }
    ensures read { Gives (λ rest. (centre.new.state, rest.now)) result
        (activation_taken_at order centre.old.state (job_read job.now) least text.now) }
{
    let most = centre.next_number().saturating_sub(1);
    let entry = entry_line(order, least, most, text)?;
    put_job(centre, &job.lent(), entry.lack)?;
    if is_entered(centre, entry.code, entry.outcome) {
        Ok(entry.rest)
    } else {
        Err(UnreadCentreLine::Lacks(entry.lack))
    }
}

/// Whether an entry of this code and outcome is that which came with the job.
fn is_entered(centre: &Centre, code: Activation, outcome: Outcome) -> bool
    ensures { result ≡ (is_waiting outcome && has_last_code centre.now.state.ledger code) }
{
    outcome == Outcome::Waiting && has_last_code(centre.ledger(), code)
}

/// Whether the last entry is of this code.
fn has_last_code(ledger: &IndexMap<u32, Entry>, code: Activation) -> bool
    ensures { result ≡ has_last_code (ledger_model ledger.now.entries) code }
{
    match ledger.last() {
        Some((_, entry)) => are_same_codes(entry.code, code),
        None => false,
    }
}

fn are_same_codes(one: Activation, other: Activation) -> bool
    ensures { result ≡ same_codes one other }
{
    one == other
}

fn put_job(
    centre: &mut Centre,
    job: &SavedJob<'_>,
    lack: CentreLineLack,
) -> Result<(), UnreadCentreLine>
    requires { IsReached centre.old.state }
    ensures goes { OnOk result (GoesOn centre.old.state centre.new.state) }
    ensures read { Gives (λ _. centre.new.state) result (with_read_job lack centre.old.state (saved_read job.now)) }
{
    job.command.has_ranges();
    match centre.put_job(job) {
        Ok(()) => Ok(()),
        Err(JobFault::Memory) => Err(UnreadCentreLine::Memory),
        Err(_) => Err(UnreadCentreLine::Lacks(lack)),
    }
}

/// Takes up how the last job ended.
pub(crate) fn put_last(
    centre: &mut Centre,
    ended: Ended,
    lack: CentreLineLack,
) -> Result<(), UnreadCentreLine>
    requires { IsReached centre.old.state }
    ensures goes { OnOk result (GoesOn centre.old.state centre.new.state) }
    ensures read { Gives (λ _. centre.new.state) result
        (unless lack (end_fault ended) (with_last centre.old.state ended)) }
{
    match centre.put_last(ended) {
        Ok(()) => Ok(()),
        Err(_) => Err(UnreadCentreLine::Lacks(lack)),
    }
}

/// Each value of a code is in the range of its type.
fn has_ranges(code: Activation)
    ensures { IsActivation code }
{}
