//! Scripts: a sign, then what happens, an event a line.

ghost use Rattle.std.specs.Prelude.{◌≡◌, ◌⊎◌, ◌≤◌, ◌∷◌, List, ℕ, codes, length, Err, IfOk, IfErr, IfSome, IfNone, OnOk};
ghost use Rattle.std.specs.Prelude.{IsOk};
ghost use Rattle.std.specs.Str.Lines.{lines};
ghost use Rattle.dms_text.specs.Lines.{kept_lines};
ghost use Rattle.dms_centre.specs.State.{start};
ghost use Rattle.dms_world.specs.Event.{EventModel};
ghost use Rattle.dms_world.specs.World.{beginning};
ghost use Rattle.dms_world.specs.CodeView.{seen};
ghost use Rattle.dms_sign_text.specs.Description.{Description};
ghost use Rattle.dms_text_streams.specs.DescriptionText.{longest_input};
ghost use Rattle.dms_sign_text.specs.RefusedLine.{all_numbered, numbered_left, refused_number, Leaves};
ghost use Rattle.dms_sign_text.specs.Setups.{octets_left, IsMade};
ghost use Rattle.dms_sign_text.specs.ReadingFaults.{IsLine};
ghost use Rattle.dms_replay.specs.RefusedScript.{IsRefusedIn, NamesLine};
ghost use Rattle.dms_replay.specs.Script.{NamesPrefix, SpellsScript};
ghost use Rattle.dms_replay.specs.ScriptRun.{IsRun};
ghost use Rattle.dms_sign_text.specs.declared.reading_fault.ReplayFault.TheVariants as faults;

use crate::events::{check_events, run_events};
use dms_centre::{Centre, Settings};
use dms_sign::laws::signs_are_kept;
use dms_sign_text::{DescriptionFault, ReplayFault, Setup, sign_of_lines};
use dms_text::Lines;
use dms_world::World;
use std::alloc::Global;

/// The text spells a script.
#[tactic(auto, using(crate::proofs::ScriptRead::scripts_read))]
pub(crate) fn check_script(alloc: Global, octets: &[u8]) -> Result<(), ReplayFault>
    requires { length octets.now ≤ longest_input }
    ensures read { OnOk result ((it : Description) × (events : List EventModel) × SpellsScript octets.now it events) }
    ensures line { IfErr result (λ fault. (fault ≡ faults.Memory)
        ⊎ (IsLine fault × ((it : Description) (events : List EventModel) → SpellsScript octets.now it events → ⊥))) }
    ensures number { IfErr result (NamesLine (IsRefusedIn octets.now)) }
{
    let (setup, lines) = match named_sign(alloc, octets) {
        Ok(found) => found,
        Err(fault) => return Err(fault),
    };
    match check_events(alloc, setup.sign.order(), lines) {
        Ok(()) => Ok(()),
        Err(fault) => Err(fault),
    }
}

/// The world in which the events of the script that a text spells have happened, each as its line was read, and how
/// many there were.
#[tactic(auto, using(crate::proofs::ScriptRead::scripts_run))]
pub(crate) fn run_script(alloc: Global, octets: &[u8]) -> Result<(World, usize), ReplayFault>
    requires { length octets.now ≤ longest_input }
    ensures run { IfOk result (λ ended. IsRun octets.now (seen ended.0) ended.1) }
    ensures line { IfErr result (λ fault. (fault ≡ faults.Memory)
        ⊎ (IsLine fault × ((it : Description) (events : List EventModel) → SpellsScript octets.now it events → ⊥))) }
    ensures number { IfErr result (NamesLine (IsRefusedIn octets.now)) }
{
    let (setup, lines) = match named_sign(alloc, octets) {
        Ok(found) => found,
        Err(fault) => return Err(fault),
    };
    let order = setup.sign.order();
    let mut world = fresh_world(alloc, setup)?;
    match run_events(alloc, order, &mut world, lines) {
        Ok(count) => Ok((world, count)),
        Err(fault) => Err(fault),
    }
}

/// The world of a sign and of its centre, which has the sign's writing community and its order. It is always `Ok`: a
/// sign's communities are a centre's, and no memory is taken.
fn fresh_world(alloc: Global, setup: Setup) -> Result<World, ReplayFault>
    ensures world { IfOk result (λ world. seen world ≡ beginning setup.sign
        (start (record { community = setup.sign.config.writer; order = setup.sign.table.order }) setup.first)) }
    ensures memory { IfErr result (λ fault. fault ≡ faults.Memory) }
    ensures always { IsOk result }
{
    let Setup { sign, first } = setup;
    signs_are_kept(&sign);
    let settings = Settings {
        community: sign.writer(),
        order: sign.order(),
    };
    match Centre::new(alloc, settings, first) {
        Ok(centre) => Ok(World::new(alloc, sign, centre)),
        Err(_) => Err(ReplayFault::Memory),
    }
}

/// The sign that the first lines name, and the lines after these.
#[tactic(auto, using(crate::proofs::ScriptRead::signs_named))]
pub(crate) fn named_sign(alloc: Global, octets: &[u8]) -> Result<(Setup, Lines<'_>), ReplayFault>
    ensures read { IfOk result (λ x. (it : Description)
        × NamesPrefix (kept_lines octets.now) (octets_left x.1) it × IsMade it x.0) }
    ensures line { IfErr result (λ fault. (fault ≡ faults.Memory)
        ⊎ (IsLine fault × ((it : Description) (rest : List (List ℕ))
        → NamesPrefix (kept_lines octets.now) rest it → ⊥))) }
    ensures last { IfOk result (λ x. Leaves (all_numbered (lines octets.now)) (numbered_left x.1)) }
    ensures number { IfErr result (NamesLine (λ number. number ≡ refused_number (all_numbered (lines octets.now)))) }
{
    if let Some(rest) = after_bench(octets) {
        return Ok((dms_sign_text::bench_setup(alloc)?, rest));
    }
    match sign_of_lines(alloc, Lines::of(octets)) {
        Ok((setup, rest)) => Ok((setup, rest)),
        Err(DescriptionFault::Line(number)) => Err(ReplayFault::Line(number)),
        Err(DescriptionFault::Memory) => Err(ReplayFault::Memory),
    }
}

/// The lines after the word `bench`, where that is the first line.
#[tactic(auto, using(crate::proofs::ScriptRead::first_lines))]
fn after_bench(octets: &[u8]) -> Option<Lines<'_>>
    ensures bench { IfSome result (λ rest. kept_lines octets.now ≡ codes "bench" ∷ octets_left rest) }
    ensures last { IfSome result (λ rest. Leaves (all_numbered (lines octets.now)) (numbered_left rest)) }
    ensures other { IfNone result ((rest : List (List ℕ)) → kept_lines octets.now ≡ codes "bench" ∷ rest → ⊥) }
{
    let mut lines = Lines::of(octets);
    let line = lines.next_line()?;
    if line.octets == b"bench".as_slice() {
        Some(lines)
    } else {
        None
    }
}
