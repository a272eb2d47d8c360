//! Measures of scripts: reading alone, the report alone, and the whole replay.

use dms_centre::{Centre, Settings};
use dms_replay::event_line::event;
use dms_replay::replay;
use dms_replay::report::report;
use dms_replay::script_event::ScriptEvent;
use dms_sign_text::{Setup, sign_of_lines};
use dms_text::Lines;
use dms_text_streams::Gathered;
use dms_world::{World, run};
use std::alloc::Global;

/// The sign that a script describes, and its events.
fn read_script(alloc: Global, script: &[u8]) -> Option<(Setup, Vec<ScriptEvent>)> {
    let (setup, lines) = sign_of_lines(alloc, Lines::of(script)).ok()?;
    let order = setup.sign.order();
    let mut lines = lines;
    let mut events = Vec::new(alloc);
    while let Some(line) = lines.next_line() {
        let found = event(alloc, order, line.octets).ok()?;
        events.push(found?).ok()?;
    }
    Some((setup, events))
}

/// The world of a sign and its centre after these events.
fn world_after(alloc: Global, setup: Setup, events: &[ScriptEvent]) -> Option<World> {
    let Setup { sign, first } = setup;
    let settings = Settings {
        community: sign.writer(),
        order: sign.order(),
    };
    let centre = Centre::new(alloc, settings, first).ok()?;
    let mut world = World::new(alloc, sign, centre);
    let mut lent = Vec::new(alloc);
    for event in events {
        lent.push(event.lent()).ok()?;
    }
    run(&mut world, lent.as_slice()).ok()?;
    Some(world)
}

/// The size of octets and one of them, as one number.
fn size_and_octet(octets: &[u8], time: u32) -> u64 {
    let octet = octets.get(time as usize % 256).copied().unwrap_or(0);
    (octets.len() as u64).wrapping_add(u64::from(octet))
}

/// Reads the script, and sums the numbers of its events.
#[unsafe(no_mangle)]
pub extern "C" fn dms_measures_script_read(alloc: Global, script: &[u8], times: u32) -> u64 {
    let mut sum = 0_u64;
    for _ in 0..times {
        if let Some((_, events)) = read_script(alloc, script) {
            sum = sum.wrapping_add(events.len() as u64);
        }
    }
    sum
}

/// Runs the script once and reports its world, and sums the sizes of the reports, and an octet of each.
#[unsafe(no_mangle)]
pub extern "C" fn dms_measures_script_report(alloc: Global, script: &[u8], times: u32) -> u64 {
    let Some((setup, events)) = read_script(alloc, script) else {
        return 0;
    };
    let Some(world) = world_after(alloc, setup, events.as_slice()) else {
        return 0;
    };
    let mut sum = 0_u64;
    for time in 0..times {
        if let Ok(text) = report(alloc, &world, events.len()) {
            sum = sum.wrapping_add(size_and_octet(text.as_slice(), time));
        }
    }
    sum
}

/// Reads the script, runs it and writes its report, and sums the sizes of the reports, and an octet of each.
#[unsafe(no_mangle)]
pub extern "C" fn dms_measures_script_replay(alloc: Global, script: &[u8], times: u32) -> u64 {
    let mut sum = 0_u64;
    for time in 0..times {
        let mut reader = script;
        let mut writer = Gathered::new(alloc);
        if replay(alloc, &mut reader, &mut writer).is_ok() {
            sum = sum.wrapping_add(size_and_octet(writer.bytes(), time));
        }
    }
    sum
}
