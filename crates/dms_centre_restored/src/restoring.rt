//! A central system in the state that a text says.

ghost use Rattle.std.specs.Prelude.{◌≡◌, ◌+◌, ◌==◌, true, IfOk, IfErr, OnOk, count_by, not};
ghost use Rattle.std.specs.Str.{byte};
ghost use Rattle.dms_codes.specs.Limits.{has_community_size};
ghost use Rattle.dms_centre.specs.CodeView.{settings_model};
ghost use Rattle.dms_centre_state.specs.CentreText.{text_of_state};
ghost use Rattle.dms_centre_state.specs.Reached.{IsReached};
ghost use Rattle.dms_centre_restored.specs.Restored.{GoesOn, IsRestored, IsNoneOf, IsLineFaultOf, IsToldOf};
ghost use Rattle.dms_centre_restored.specs.Restored.{is_of_settings, IsSaid};
ghost use Rattle.dms_centre_restored.specs.Faults.{IsWrong};
ghost use Rattle.dms_centre_restored.specs.FirstFault.{IsFirstFault, told_of};
ghost use Rattle.dms_centre_restored.specs.Lacks.{Gives};
ghost use Rattle.dms_centre_restored.specs.JobReading.{first_lines_at};
ghost use Rattle.dms_centre_restored.specs.StateReading.{job_lent, last_line_at, ledger_at, lines_at, taken_at};
ghost use Rattle.dms_centre_restored.specs.StateReading.{first_number_in, same_front, compared};

use crate::job_lines::{JobLines, job_lines};
use crate::ledger_lines::{put_last, put_ledger, put_with_job};
use crate::lines::{ended, field, first_lines, last_line};
use crate::refusal::{
    CentreLineLack, CentreRestoreFault, CentreStateFault, CentreStateField, CentreStateRefusal,
    UnreadCentreLine,
};
use dms_centre::laws::centres_are_kept;
use dms_centre::{Centre, Settings};
use dms_centre_state::saved;
use dms_codes::Order;
use dms_text::are_same;
use std::alloc::Global;

/// A central system of the settings that goes on from the state which a text says, or the first thing for which there
/// is none: with the settings, or the first line that is not as it must be. Its ledger takes memory from `alloc`.
pub fn restored(
    alloc: Global,
    settings: Settings<'_>,
    text: &[u8],
) -> Result<Centre, CentreRestoreFault>
    ensures ok { IfOk result (λ centre. IsRestored (settings_model settings.entry) text.now centre.state) }
    ensures none { IfErr result (IsNoneOf (settings_model settings.entry) text.now) }
    ensures community { IfErr result
        (λ fault. is_of_settings fault ≡ not (has_community_size settings.entry.community.now)) }
    ensures line { IfErr result (IsLineFaultOf text.now) }
    ensures first { IfErr result (IsFirstFault (settings_model settings.entry) text.now) }
    ensures wrong { IfErr result (IsWrong (settings_model settings.entry) text.now) }
{
    let mut centre = match Centre::new(alloc, settings, first_number(text)) {
        Ok(centre) => centre,
        Err(fault) => return Err(CentreRestoreFault::Settings(fault)),
    };
    centres_are_kept(&centre);
    match take_up(alloc, &mut centre, text) {
        Ok(()) => Ok(centre),
        Err(unread) => Err(CentreRestoreFault::State(refusal_of(text, unread))),
    }
}

/// The number that the next request takes, where the text says one.
fn first_number(text: &[u8]) -> u32
    ensures { result ≡ first_number_in (first_lines_at text.now) }
{
    match first_lines(text) {
        Ok((number, _)) => number,
        Err(_) => 0,
    }
}

/// Takes up the state that a text says, and compares the text of what was taken up.
#[tactic(auto, unfolding(crate::specs::StateReading::taken_at))]
fn take_up(alloc: Global, centre: &mut Centre, text: &[u8]) -> Result<(), UnreadCentreLine>
    requires { IsReached centre.old.state }
    ensures reached { OnOk result (GoesOn centre.old.state centre.new.state) }
    ensures text { OnOk result (text_of_state centre.new.state ≡ text.now) }
    ensures read { Gives (λ _. centre.new.state) result (taken_at centre.old.state text.now) }
{
    let (_, rest) = first_lines(text)?;
    put_lines(alloc, centre, rest)?;
    compare(alloc, centre, text)?;
    Ok(())
}

/// Takes up what stands behind the first two lines.
#[tactic(auto, unfolding(crate::specs::StateReading::lines_at))]
fn put_lines(alloc: Global, centre: &mut Centre, text: &[u8]) -> Result<(), UnreadCentreLine>
    requires { IsReached centre.old.state }
    ensures goes { OnOk result (GoesOn centre.old.state centre.new.state) }
    ensures read { Gives (λ _. centre.new.state) result (lines_at centre.old.state text.now) }
{
    let order = centre.order();
    let next = centre.next_number();
    let rest = put_last_line(centre, text)?;
    let (job, rest) = job_lines(alloc, order, next, rest)?;
    let rest = put_job_and_ledger(centre, order, job.as_ref(), rest)?;
    last_line(rest)?;
    Ok(())
}

fn put_job_and_ledger<'a>(
    centre: &mut Centre,
    order: Order,
    job: Option<&JobLines>,
    text: &'a [u8],
) -> Result<&'a [u8], UnreadCentreLine>
    requires { IsReached centre.old.state }
    ensures goes { OnOk result (GoesOn centre.old.state centre.new.state) }
    ensures read { Gives (λ rest. (centre.new.state, rest.now)) result
        (ledger_at order (job_lent job.entry) centre.old.state text.now) }
{
    match job {
        Some(job) => put_with_job(centre, order, job, text),
        None => put_ledger(centre, order, text),
    }
}

/// Takes up how the last job ended.
#[tactic(auto, unfolding(crate::specs::StateReading::last_line_at))]
fn put_last_line<'a>(centre: &mut Centre, text: &'a [u8]) -> Result<&'a [u8], UnreadCentreLine>
    requires { IsReached centre.old.state }
    ensures goes { OnOk result (GoesOn centre.old.state centre.new.state) }
    ensures read { Gives (λ rest. (centre.new.state, rest.now)) result (last_line_at centre.old.state text.now) }
{
    let field = field(b"last ", CentreStateField::Last, text)?;
    let Some(ended) = ended(field.value) else {
        return Err(UnreadCentreLine::Lacks(field.lack));
    };
    put_last(centre, ended, field.lack)?;
    Ok(field.rest)
}

/// Compares the text of a central system's state with a text.
#[tactic(auto, using(crate::proofs::SameTexts::same_texts))]
fn compare(alloc: Global, centre: &Centre, text: &[u8]) -> Result<(), UnreadCentreLine>
    ensures text { OnOk result (text_of_state centre.now.state ≡ text.now) }
    ensures same { Gives (λ _. true) result (compared (text_of_state centre.now.state) text.now) }
{
    let written = saved(alloc, centre)?;
    if are_same(written.as_slice(), text) {
        Ok(())
    } else {
        let same = same_front(written.as_slice(), text);
        Err(UnreadCentreLine::Lacks(CentreLineLack {
            wanted: CentreStateField::Spelling,
            left: text.len().saturating_sub(same),
        }))
    }
}

/// How many octets are the same before the first that differs.
fn same_front(one: &[u8], other: &[u8]) -> usize
    ensures { result ≡ same_front one.now other.now }
{
    let most = one.len().min(other.len());
    for index in 0..most {
        if one[index] != other[index] {
            return index;
        }
    }
    most
}

/// What is told of a text that is not taken up.
fn refusal_of(text: &[u8], unread: UnreadCentreLine) -> CentreStateRefusal
    ensures line { IsToldOf text.now result }
    ensures said { IsSaid unread result }
    ensures told { result ≡ told_of text.now unread }
{
    match unread {
        UnreadCentreLine::Memory => CentreStateRefusal::Memory,
        UnreadCentreLine::Lacks(lack) => {
            let place = text.len().saturating_sub(lack.left);
            CentreStateRefusal::Fault(CentreStateFault {
                line: line_after(&text[..place]),
                wanted: lack.wanted,
            })
        }
    }
}

/// The line after a text that ends with its line.
fn line_after(text: &[u8]) -> usize
    ensures { result ≡ count_by (λ octet. octet == byte "\n") text.now + 1 }
{
    let mut line = 1;
    for octet in text {
        if *octet == b'\n' {
            line += 1;
        }
    }
    line
}
