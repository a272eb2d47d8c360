//! A script, run to its report.

ghost use Rattle.std.specs.Prelude.{◌≡◌, ◌≢◌, ◌⊎◌, ◌≤◌, ◌<◌, ℕ, length, Err, IfOk, IfErr, OnOk, OnErr, IfSome};
ghost use Rattle.std.specs.Int.Digits.{AllBelowBase};
ghost use Rattle.std.specs.Io.KnownBytes.{Keeps};
ghost use Rattle.dms_text_streams.specs.Calls.{one_more};
ghost use Rattle.dms_text.specs.Lines.{kept_lines};
ghost use Rattle.dms_sign_text.specs.BenchSign.{bench_text};
ghost use Rattle.dms_sign_text.specs.Description.{Description, SpellsSign};
ghost use Rattle.dms_text_streams.specs.DescriptionText.{longest_input};
ghost use Rattle.dms_sign_text.specs.Setups.{IsMade};
ghost use Rattle.dms_sign_text.specs.ReadingFaults.{IsLine};
ghost use Rattle.dms_replay.specs.Replayed.{IsReport, Replayed, ReplayedPrefix, RunsLawfully, HasNoRoom, NoScript};
ghost use Rattle.dms_replay.specs.RefusedScript.{IsRefusedIn, NamesLine};
ghost use Rattle.dms_sign_text.specs.declared.reading_fault.ReplayFault.TheVariants as faults;

use crate::laws::scripts_run_lawfully;
use crate::report::report;
use crate::script::run_script;
pub use dms_sign_text::{LONGEST_INPUT, described};
use dms_sign_text::{ReplayFault, Setup, whole_input};
use dms_text_streams::{Sink, Source, write_whole};
use std::alloc::Global;

/// Reads a script to its end, then runs its events, each as its line is read, and writes the report. Nothing is written
/// before the whole report is there, and nothing where a line is refused, be it the last. What holds of every run of
/// events holds of the script's; and to a writer that has room for the report, no write fails.
pub fn replay<R: Source, W: Sink>(
    alloc: Global,
    reader: &mut R,
    writer: &mut W,
) -> Result<(), ReplayFault>
    ensures report { OnOk result (IfSome (R.remaining reader.old) (λ octets.
        Replayed octets (W.contents writer.old) (W.contents writer.new))) }
    ensures prefix { result ≡ Err faults.Write → IfSome (R.remaining reader.old) (λ octets.
        ReplayedPrefix octets (W.contents writer.old) (W.contents writer.new)) }
    ensures lawful { OnOk result (IfSome (R.remaining reader.old) RunsLawfully) }
    ensures lawful_prefix { result ≡ Err faults.Write → IfSome (R.remaining reader.old) RunsLawfully }
    ensures nothing { OnErr result (result ≢ Err faults.Write → Keeps (W.contents writer.old) (W.contents writer.new)) }
    ensures line { (number : ℕ) → result ≡ Err (faults.Line number) → IfSome (R.remaining reader.old) (λ octets.
        (length octets ≤ longest_input) × NoScript octets) }
    ensures number { (number : ℕ) → result ≡ Err (faults.Line number) → IfSome (R.remaining reader.old) (λ octets.
        IsRefusedIn octets number) }
    ensures too_long { result ≡ Err faults.TooLong → IfSome (R.remaining reader.old) (λ octets.
        longest_input < length octets) }
    ensures read { result ≡ Err faults.Read → R.failed reader.new ≡ one_more (R.failed reader.old) }
    ensures all_read { result ≢ Err faults.Read → R.failed reader.new ≡ R.failed reader.old }
    ensures write { result ≡ Err faults.Write → W.failed writer.new ≡ one_more (W.failed writer.old) }
    ensures no_room { result ≡ Err faults.Write → IfSome (R.remaining reader.old) (λ octets.
        HasNoRoom octets (W.room writer.old)) }
    ensures all_written { result ≢ Err faults.Write → W.failed writer.new ≡ W.failed writer.old }
{
    let octets = whole_input(alloc, reader)?;
    let report = match script_report(alloc, octets.as_slice()) {
        Ok(report) => report,
        Err(fault) => return Err(fault),
    };
    match write_whole(writer, report.as_slice()) {
        Ok(()) => Ok(()),
        Err(_) => Err(ReplayFault::Write),
    }
}

/// The report of the script that a text spells.
fn script_report(alloc: Global, octets: &[u8]) -> Result<Vec<u8>, ReplayFault>
    requires { length octets.now ≤ longest_input }
    ensures report { IfOk result (λ report. IsReport octets.now report.items) }
    ensures lawful { IfOk result (λ _. RunsLawfully octets.now) }
    ensures line { IfErr result (λ fault. (fault ≡ faults.Memory) ⊎ (IsLine fault × NoScript octets.now)) }
    ensures number { IfErr result (NamesLine (IsRefusedIn octets.now)) }
{
    let (world, events) = run_script(alloc, octets)?;
    scripts_run_lawfully();
    are_octets(octets);
    Ok(report(alloc, &world, events)?)
}

/// What is read is octets.
fn are_octets(octets: &[u8])
    ensures { AllBelowBase 256 octets.now }
{}

/// The bench sign.
pub fn bench(alloc: Global) -> Result<Setup, ReplayFault>
    ensures sign { IfOk result (λ setup. (it : Description) × SpellsSign (kept_lines bench_text) it × IsMade it setup) }
    ensures memory { IfErr result (λ fault. fault ≡ faults.Memory) }
{
    Ok(dms_sign_text::bench_setup(alloc)?)
}
