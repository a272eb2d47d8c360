//! The examples of the first pages of dms_centre_jobs, dms_centre and dms_world.

use dms_centre::{Centre, Command, Settings};
use dms_centre_jobs::{Job, put_request};
use dms_codes::Order;
use dms_sign::{Config, Sign};
use dms_sign_bench::{face, stock};
use dms_wire::Out;
use dms_world::{Event, World, run};
use std::test::Fail;

const BLANK: Command<'static> = Command::Blank {
    number: 1,
    minutes: 65535,
    priority: 255,
    address: [0; 4],
};

const SETTINGS: Settings<'static> = Settings {
    community: b"admin",
    order: Order::High,
};

#[test]
fn a_job_of_a_blank_command_begins_with_its_activation(rt: HostRuntime) -> Result<(), Fail> {
    let mut job = Job::none();
    job.begin(&BLANK);
    let mut out = Out::new();
    put_request(b"admin", Order::High, 1, &job.work, job.step, &mut out);
    assert!(rt; job.step.is_activating() && !out.is_empty());
    Ok(())
}

#[test]
fn a_restart_keeps_the_entry_that_waits(rt: HostRuntime) -> Result<(), Fail> {
    let mut centre = Centre::new(rt.alloc(), SETTINGS, 1)?;
    let mut out = Out::new();
    centre.command(BLANK, &mut out)?;
    assert!(rt; centre.busy() && !out.is_empty());
    centre.restart();
    assert!(rt; centre.ledger().len() == 1);
    Ok(())
}

#[test]
fn a_world_runs_the_events_of_its_page(rt: HostRuntime) -> Result<(), Fail> {
    let config = Config {
        face: face(rt.alloc())?,
        stock: stock(&[]),
        reader: b"public",
        writer: b"admin",
    };
    let sign = Sign::new(rt.alloc(), config)?;
    let centre = Centre::new(rt.alloc(), SETTINGS, 1)?;
    let mut world = World::new(rt.alloc(), sign, centre);
    let events = [
        Event::Command(BLANK),
        Event::ToSign(0),
        Event::ToCentre(0),
        Event::ToSign(0),
    ];
    if run(&mut world, &events).is_err() {
        return Err(Fail::from("stopped"));
    }
    let counts = (
        world.to_sign.len(),
        world.to_centre.len(),
        world.accepted.len(),
    );
    assert!(rt; counts == (1, 2, 2));
    Ok(())
}
