//! The events of a script, a line at a time.

ghost use Rattle.std.specs.Prelude.{◌≡◌, ◌⊎◌, ◌+◌, ◌≤◌, List, Some, None, length, IfOk, IfErr, OnOk, true};
ghost use Rattle.std.specs.Option.{is_some};
ghost use Rattle.dms_text.specs.Lines.{lines_left, number_after};
ghost use Rattle.dms_text.proofs.LineFilter.{octets_of_lines};
ghost use Rattle.dms_world.specs.Event.{EventModel};
ghost use Rattle.dms_world.specs.World.{happens_if};
ghost use Rattle.dms_world.specs.CodeView.{seen};
ghost use Rattle.dms_text_forms.specs.Fields.{SpellsEach};
ghost use Rattle.dms_text_streams.specs.DescriptionText.{longest_input};
ghost use Rattle.dms_replay.specs.EventLine.{SpellsEvent};
ghost use Rattle.dms_replay.specs.EventView.{script_event_model};
ghost use Rattle.dms_replay.specs.EventReading.{event_of};
ghost use Rattle.dms_replay.specs.RefusedScript.{from_no_event, NamesLine};
ghost use Rattle.dms_replay.specs.ScriptRun.{AreRun};
ghost use Rattle.dms_sign_text.specs.RefusedLine.{first_number};
ghost use Rattle.dms_sign_text.specs.ReadingFaults.{IsLine};
ghost use Rattle.dms_sign_text.specs.declared.reading_fault.ReplayFault.TheVariants as faults;

use crate::event_line::read_event;
use crate::script_event::ScriptEvent;
use dms_codes::Order;
use dms_sign_text::ReplayFault;
use dms_text::{Line, Lines};
use dms_world::World;
use std::alloc::Global;

/// The event of a line. Codes are in this order.
fn read(alloc: Global, order: Order, line: Line<'_>) -> Result<ScriptEvent, ReplayFault>
    ensures read { IfOk result (λ event. Some (script_event_model event) ≡ event_of order line.entry.octets.now) }
    ensures line { IfErr result (λ fault. (fault ≡ faults.Memory)
        ⊎ (IsLine fault × (None ≡ event_of order line.entry.octets.now))) }
    ensures number { IfErr result (NamesLine (λ number. number ≡ line.entry.number)) }
{
    match read_event(alloc, order, line.octets)? {
        Ok(event) => Ok(event),
        Err(_) => Err(ReplayFault::Line(line.number)),
    }
}

/// A line is an event's.
fn check(alloc: Global, order: Order, line: Line<'_>) -> Result<(), ReplayFault>
    ensures event { OnOk result (is_some (event_of order line.entry.octets.now) ≡ true) }
    ensures line { IfErr result (λ fault. (fault ≡ faults.Memory)
        ⊎ (IsLine fault × (None ≡ event_of order line.entry.octets.now))) }
    ensures number { IfErr result (NamesLine (λ number. number ≡ line.entry.number)) }
{
    read(alloc, order, line)?;
    Ok(())
}

/// Each line that is left is an event's. Codes are in this order.
#[tactic(auto, using(crate::proofs::EventsRead::events_read))]
pub(crate) fn check_events(alloc: Global, order: Order, lines: Lines<'_>) -> Result<(), ReplayFault>
    ensures read { OnOk result ((events : List EventModel)
        × SpellsEach (SpellsEvent order) events (octets_of_lines (lines_left lines.entry))) }
    ensures line { IfErr result (λ fault. (fault ≡ faults.Memory)
        ⊎ (IsLine fault × ((events : List EventModel)
        → SpellsEach (SpellsEvent order) events (octets_of_lines (lines_left lines.entry)) → ⊥))) }
    ensures number { IfErr result (NamesLine (λ number. number
        ≡ first_number (from_no_event order (lines_left lines.entry)) (number_after lines.entry))) }
{
    let mut left = lines;
    while let Some(line) = left.next_line() {
        check(alloc, order, line)?;
    }
    Ok(())
}

/// The event of a line happens in a world, where it has this number.
fn step(
    alloc: Global,
    order: Order,
    world: &mut World,
    number: usize,
    line: Line<'_>,
) -> Result<(), ReplayFault>
    ensures event { OnOk result (is_some (event_of order line.entry.octets.now) ≡ true) }
    ensures world { OnOk result (seen world.new
        ≡ happens_if number (seen world.old) (event_of order line.entry.octets.now)) }
    ensures line { IfErr result (λ fault. (fault ≡ faults.Memory)
        ⊎ (IsLine fault × (None ≡ event_of order line.entry.octets.now))) }
    ensures number { IfErr result (NamesLine (λ number. number ≡ line.entry.number)) }
{
    let event = read(alloc, order, line)?;
    Ok(world.happen(number, &event.lent())?)
}

/// The events of all lines that are left happen in a world, each as its line is read, counted from 1; and how many
/// there were. Codes are in this order.
#[tactic(auto, using(crate::proofs::EventsRun::events_run))]
pub(crate) fn run_events(
    alloc: Global,
    order: Order,
    world: &mut World,
    lines: Lines<'_>,
) -> Result<usize, ReplayFault>
    requires { length (lines_left lines) ≤ longest_input + 1 }
    ensures run { IfOk result (λ count. AreRun order (octets_of_lines (lines_left lines.entry))
        (seen world.old) (seen world.new) count) }
    ensures line { IfErr result (λ fault. (fault ≡ faults.Memory)
        ⊎ (IsLine fault × ((events : List EventModel)
        → SpellsEach (SpellsEvent order) events (octets_of_lines (lines_left lines.entry)) → ⊥))) }
    ensures number { IfErr result (NamesLine (λ number. number
        ≡ first_number (from_no_event order (lines_left lines.entry)) (number_after lines.entry))) }
{
    let mut left = lines;
    let mut count = 0;
    while let Some(line) = left.next_line() {
        step(alloc, order, world, count + 1, line)?;
        count += 1;
    }
    Ok(count)
}
