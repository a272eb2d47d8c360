//! The inputs that describe a sign or are a script.

ghost use Rattle.std.specs.Prelude.{◌≡◌, ◌≢◌, ◌≤◌, ◌<◌, ℕ, length, Err, IfOk, IfErr, OnOk, OnErr, IfSome};
ghost use Rattle.std.specs.Io.KnownBytes.{Keeps};
ghost use Rattle.std.specs.Str.Lines.{lines};
ghost use Rattle.dms_text.specs.Lines.{kept_lines};
ghost use Rattle.dms_text_streams.specs.Calls.{one_more};
ghost use Rattle.dms_text_streams.specs.Lines.{left};
ghost use Rattle.dms_sign_text.specs.Before.{Describes, NotDescribed, IsRefusedBefore, description_lines};
ghost use Rattle.dms_sign_text.specs.Description.{Description, SpellsDescription, SpellsSign};
ghost use Rattle.dms_text_streams.specs.DescriptionText.{longest_input};
ghost use Rattle.dms_sign_text.specs.RefusedLine.{all_numbered, IsRefusedLine};
ghost use Rattle.dms_sign_text.specs.Setups.{IsMade};
ghost use Rattle.dms_sign_text.specs.declared.reading_fault.ReplayFault.TheVariants as faults;
ghost use Rattle.dms_replay.specs.RefusedScript.{IsRefusedIn};
ghost use Rattle.dms_replay.specs.Replayed.{Replayed, ReplayedPrefix, RunsLawfully, HasNoRoom, NoScript};
ghost use Rattle.signtool_acts.specs.Refused.{with_fault, says_empty, SaysMoreOfLines, IsDescriptionCause};
ghost use Rattle.signtool_acts.specs.Refused.{IsScriptCause};
ghost use Rattle.signtool_acts.specs.Unseen.{unseen_in};
ghost use Rattle.dms_text_streams.specs.DescriptionText.{lines_through_end};

use crate::refusal::InputRefusal;
use crate::unseen::unseen_in;
use dms_replay::{ScriptCause, replay};
use dms_sign_text::{DescriptionFault, ReplayFault, Setup, description, text_before, whole_input};
use dms_text_streams::{Input, Sink, Source};
use std::alloc::Global;

/// The sign that the whole input describes.
pub fn described_whole<R: Source>(alloc: Global, reader: &mut R) -> Result<Setup, InputRefusal>
    ensures sign { IfOk result (λ setup. IfSome (R.remaining reader.old) (λ octets.
        (it : Description) × SpellsDescription octets it × IsMade it setup)) }
    ensures line { (number : ℕ) → with_fault result ≡ Err (faults.Line number)
        → IfSome (R.remaining reader.old) (λ octets. (length octets ≤ longest_input)
        × ((it : Description) → SpellsDescription octets it → ⊥)) }
    ensures number { (number : ℕ) → with_fault result ≡ Err (faults.Line number)
        → IfSome (R.remaining reader.old) (λ octets. IsRefusedLine (all_numbered (lines octets)) number) }
    ensures too_long { with_fault result ≡ Err faults.TooLong → IfSome (R.remaining reader.old) (λ octets.
        longest_input < length octets) }
    ensures read { with_fault result ≡ Err faults.Read → R.failed reader.new ≡ one_more (R.failed reader.old) }
    ensures all_read { with_fault result ≢ Err faults.Read → R.failed reader.new ≡ R.failed reader.old }
    ensures no_write { with_fault result ≢ Err faults.Write }
    ensures cause { IfErr result (λ refusal. IfSome refusal.cause (λ cause. IfSome (R.remaining reader.old) (λ octets.
        IsDescriptionCause (kept_lines octets) refusal.fault cause))) }
    ensures unseen { IfErr result (λ refusal. IfSome (R.remaining reader.old) (λ octets.
        refusal.unseen ≡ unseen_in refusal.fault (lines octets))) }
    ensures empty { IfErr result (λ refusal. IfSome (R.remaining reader.old) (λ octets.
        refusal.is_empty ≡ says_empty refusal.fault octets)) }
    ensures more { IfErr result SaysMoreOfLines }
{
    match whole_input(alloc, reader) {
        Ok(octets) => described_text(alloc, octets.as_slice()),
        Err(fault) => Err(InputRefusal::from(fault)),
    }
}

/// The sign that the input describes before a conversation.
pub fn described_before<S: Source>(
    alloc: Global,
    input: &mut Input<S>,
) -> Result<Setup, InputRefusal>
    ensures sign { IfOk result (λ setup. Describes (left S.remaining input.old) setup (left S.remaining input.new)) }
    ensures line { (number : ℕ) → with_fault result ≡ Err (faults.Line number)
        → NotDescribed (left S.remaining input.old) }
    ensures number { (number : ℕ) → with_fault result ≡ Err (faults.Line number)
        → IsRefusedBefore (left S.remaining input.old) number }
    ensures too_long { with_fault result ≡ Err faults.TooLong → IfSome (left S.remaining input.old) (λ octets.
        longest_input < length octets) }
    ensures read { with_fault result ≡ Err faults.Read
        → S.failed input.new.source ≡ one_more (S.failed input.old.source) }
    ensures all_read { with_fault result ≢ Err faults.Read → S.failed input.new.source ≡ S.failed input.old.source }
    ensures no_write { with_fault result ≢ Err faults.Write }
    ensures cause { IfErr result (λ refusal. IfSome refusal.cause (λ cause. IfSome (left S.remaining input.old)
        (λ octets. IsDescriptionCause (description_lines (lines octets)) refusal.fault cause))) }
    ensures unseen { IfErr result (λ refusal. IfSome (left S.remaining input.old) (λ octets.
        refusal.unseen ≡ unseen_in refusal.fault (lines_through_end (lines octets)))) }
    ensures empty { IfErr result (λ refusal. IfSome (left S.remaining input.old) (λ octets.
        refusal.is_empty ≡ says_empty refusal.fault octets)) }
    ensures more { IfErr result SaysMoreOfLines }
{
    match text_before(alloc, input) {
        Ok(text) => described_text(alloc, text.as_slice()),
        Err(fault) => Err(InputRefusal::from(fault)),
    }
}

/// Writes the report of the script that the whole input is.
pub fn replayed<R: Source, W: Sink>(
    alloc: Global,
    reader: &mut R,
    writer: &mut W,
) -> Result<(), InputRefusal>
    ensures report { OnOk result (IfSome (R.remaining reader.old) (λ octets.
        Replayed octets (W.contents writer.old) (W.contents writer.new))) }
    ensures prefix { with_fault result ≡ Err faults.Write → IfSome (R.remaining reader.old) (λ octets.
        ReplayedPrefix octets (W.contents writer.old) (W.contents writer.new)) }
    ensures lawful { OnOk result (IfSome (R.remaining reader.old) RunsLawfully) }
    ensures lawful_prefix { with_fault result ≡ Err faults.Write → IfSome (R.remaining reader.old) RunsLawfully }
    ensures nothing { OnErr result (with_fault result ≢ Err faults.Write
        → Keeps (W.contents writer.old) (W.contents writer.new)) }
    ensures line { (number : ℕ) → with_fault result ≡ Err (faults.Line number)
        → IfSome (R.remaining reader.old) (λ octets. (length octets ≤ longest_input) × NoScript octets) }
    ensures number { (number : ℕ) → with_fault result ≡ Err (faults.Line number)
        → IfSome (R.remaining reader.old) (λ octets. IsRefusedIn octets number) }
    ensures too_long { with_fault result ≡ Err faults.TooLong → IfSome (R.remaining reader.old) (λ octets.
        longest_input < length octets) }
    ensures read { with_fault result ≡ Err faults.Read → R.failed reader.new ≡ one_more (R.failed reader.old) }
    ensures all_read { with_fault result ≢ Err faults.Read → R.failed reader.new ≡ R.failed reader.old }
    ensures write { with_fault result ≡ Err faults.Write → W.failed writer.new ≡ one_more (W.failed writer.old) }
    ensures no_room { with_fault result ≡ Err faults.Write → IfSome (R.remaining reader.old) (λ octets.
        HasNoRoom octets (W.room writer.old)) }
    ensures all_written { with_fault result ≢ Err faults.Write → W.failed writer.new ≡ W.failed writer.old }
    ensures cause { IfErr result (λ refusal. IfSome refusal.cause (λ cause. IfSome (R.remaining reader.old) (λ octets.
        IsScriptCause octets refusal.fault cause))) }
    ensures unseen { IfErr result (λ refusal. IfSome (R.remaining reader.old) (λ octets.
        refusal.unseen ≡ unseen_in refusal.fault (lines octets))) }
    ensures empty { IfErr result (λ refusal. IfSome (R.remaining reader.old) (λ octets.
        refusal.is_empty ≡ says_empty refusal.fault octets)) }
    ensures more { IfErr result SaysMoreOfLines }
{
    match whole_input(alloc, reader) {
        Ok(octets) => replayed_text(alloc, octets.as_slice(), writer),
        Err(fault) => Err(InputRefusal::from(fault)),
    }
}

/// The sign that a text describes.
fn described_text(alloc: Global, octets: &[u8]) -> Result<Setup, InputRefusal>
    ensures sign { IfOk result (λ setup. (it : Description) × SpellsSign (kept_lines octets.now) it × IsMade it setup) }
    ensures line { (number : ℕ) → with_fault result ≡ Err (faults.Line number) → (it : Description)
        → SpellsSign (kept_lines octets.now) it → ⊥ }
    ensures number { (number : ℕ) → with_fault result ≡ Err (faults.Line number)
        → IsRefusedLine (all_numbered (lines octets.now)) number }
    ensures no_read { with_fault result ≢ Err faults.Read }
    ensures no_write { with_fault result ≢ Err faults.Write }
    ensures short { with_fault result ≢ Err faults.TooLong }
    ensures cause { IfErr result (λ refusal.
        IfSome refusal.cause (IsDescriptionCause (kept_lines octets.now) refusal.fault)) }
    ensures unseen { IfErr result (λ refusal. refusal.unseen ≡ unseen_in refusal.fault (lines octets.now)) }
    ensures empty { IfErr result (λ refusal. refusal.is_empty ≡ says_empty refusal.fault octets.now) }
    ensures more { IfErr result SaysMoreOfLines }
{
    match description(alloc, octets) {
        Ok(setup) => Ok(setup),
        Err(DescriptionFault::Line(number)) => Err(InputRefusal {
            fault: ReplayFault::Line(number),
            cause: description_cause(alloc, octets, number),
            unseen: unseen_in(ReplayFault::Line(number), octets),
            is_empty: octets.is_empty(),
        }),
        Err(DescriptionFault::Memory) => Err(InputRefusal::from(ReplayFault::Memory)),
    }
}

/// Why the line of this number is the one for which the description is refused, where there is memory to look.
fn description_cause(alloc: Global, octets: &[u8], number: usize) -> Option<ScriptCause>
    ensures { IfSome result (IsDescriptionCause (kept_lines octets.now) (faults.Line number)) }
{
    match dms_sign_text::cause_of_line(alloc, octets, number) {
        Ok(Some(cause)) => Some(ScriptCause::Sign(cause)),
        _ => None,
    }
}

/// Writes the report of the script that a text is.
fn replayed_text<W: Sink>(alloc: Global, octets: &[u8], writer: &mut W) -> Result<(), InputRefusal>
    requires { length octets.now ≤ longest_input }
    ensures report { OnOk result (Replayed octets.now (W.contents writer.old) (W.contents writer.new)) }
    ensures prefix { with_fault result ≡ Err faults.Write
        → ReplayedPrefix octets.now (W.contents writer.old) (W.contents writer.new) }
    ensures lawful { OnOk result (RunsLawfully octets.now) }
    ensures lawful_prefix { with_fault result ≡ Err faults.Write → RunsLawfully octets.now }
    ensures nothing { OnErr result (with_fault result ≢ Err faults.Write
        → Keeps (W.contents writer.old) (W.contents writer.new)) }
    ensures line { (number : ℕ) → with_fault result ≡ Err (faults.Line number) → NoScript octets.now }
    ensures number { (number : ℕ) → with_fault result ≡ Err (faults.Line number) → IsRefusedIn octets.now number }
    ensures no_read { with_fault result ≢ Err faults.Read }
    ensures short { with_fault result ≢ Err faults.TooLong }
    ensures write { with_fault result ≡ Err faults.Write → W.failed writer.new ≡ one_more (W.failed writer.old) }
    ensures no_room { with_fault result ≡ Err faults.Write → HasNoRoom octets.now (W.room writer.old) }
    ensures all_written { with_fault result ≢ Err faults.Write → W.failed writer.new ≡ W.failed writer.old }
    ensures cause { IfErr result (λ refusal. IfSome refusal.cause (IsScriptCause octets.now refusal.fault)) }
    ensures unseen { IfErr result (λ refusal. refusal.unseen ≡ unseen_in refusal.fault (lines octets.now)) }
    ensures empty { IfErr result (λ refusal. refusal.is_empty ≡ says_empty refusal.fault octets.now) }
    ensures more { IfErr result SaysMoreOfLines }
{
    let mut reader = octets;
    match replay(alloc, &mut reader, writer) {
        Ok(()) => Ok(()),
        Err(fault) => Err(script_refusal(alloc, octets, fault)),
    }
}

/// The refusal of a script with this fault.
fn script_refusal(alloc: Global, octets: &[u8], fault: ReplayFault) -> InputRefusal
    requires { length octets.now ≤ longest_input }
    ensures fault { result.fault ≡ fault }
    ensures cause { IfSome result.cause (IsScriptCause octets.now fault) }
    ensures unseen { result.unseen ≡ unseen_in fault (lines octets.now) }
    ensures empty { result.is_empty ≡ says_empty fault octets.now }
    ensures more { SaysMoreOfLines result }
{
    match fault {
        ReplayFault::Line(number) => InputRefusal {
            fault,
            cause: script_cause(alloc, octets, number),
            unseen: unseen_in(fault, octets),
            is_empty: octets.is_empty(),
        },
        _ => InputRefusal::from(fault),
    }
}

/// Why the line of this number is the one for which the script is refused, where there is memory to look.
fn script_cause(alloc: Global, octets: &[u8], number: usize) -> Option<ScriptCause>
    requires { length octets.now ≤ longest_input }
    ensures { IfSome result (IsScriptCause octets.now (faults.Line number)) }
{
    match dms_replay::cause_of_line(alloc, octets, number) {
        Ok(cause) => cause,
        Err(_) => None,
    }
}
