//! The report of a run.

ghost use Rattle.std.specs.Prelude.{◌≡◌, ◌++◌, IfOk, OnOk, flat_map};
ghost use Rattle.dms_sign_text.specs.ShownLine.{shown_line};
ghost use Rattle.dms_world.specs.CodeView.{seen};
ghost use Rattle.dms_replay.specs.Report.{report_of, events_line, sent_line, accepted_line};

use dms_centre_text::put_code;
pub use dms_centre_text::put_ledger;
use dms_codes::{Activation, Order};
use dms_sign::Sign;
pub use dms_sign_text::put_shown;
use dms_world::World;
use itoa::Buffer;
use std::alloc::{AllocError, Global};
use std::io::Write;

/// The report of a world after so many events: what was sent, what is shown, the activations that the sign accepted and
/// the ledger. Each line ends in a newline.
pub fn report(alloc: Global, world: &World, events: usize) -> Result<Vec<u8>, AllocError>
    ensures { IfOk result (λ report. report.items ≡ report_of (seen world.now) events) }
{
    let mut report = Vec::new(alloc);
    put_report(alloc, &mut report, world, events)?;
    Ok(report)
}

fn put_report(
    alloc: Global,
    report: &mut Vec<u8>,
    world: &World,
    events: usize,
) -> Result<(), AllocError>
    ensures { OnOk result (report.new.items ≡ report.old.items ++ report_of (seen world.now) events) }
{
    put_events(report, events)?;
    put_sent(report, world)?;
    put_sign(alloc, report, &world.sign)?;
    put_activations(report, world)?;
    put_ledger(report, &world.centre)
}

fn put_events(report: &mut Vec<u8>, events: usize) -> Result<(), AllocError>
    ensures { OnOk result (report.new.items ≡ report.old.items ++ events_line events) }
{
    writeln!(report, "events {events}").or(Err(AllocError))
}

/// How many datagrams were sent to the sign, and to the centre.
fn put_sent(report: &mut Vec<u8>, world: &World) -> Result<(), AllocError>
    ensures { OnOk result (report.new.items ≡ report.old.items ++ sent_line (seen world.now)) }
{
    let to_sign = world.to_sign.len();
    let to_centre = world.to_centre.len();
    writeln!(report, "sent {to_sign} {to_centre}").or(Err(AllocError))
}

fn put_accepted(
    report: &mut Vec<u8>,
    order: Order,
    number: usize,
    code: &Activation,
) -> Result<(), AllocError>
    ensures { OnOk result (report.new.items ≡ report.old.items ++ accepted_line order (number, code.now)) }
{
    report.extend_from_slice(b"accepted ")?;
    report.extend_from_slice(Buffer::new().format(number).as_bytes())?;
    report.push(b' ')?;
    put_code(report, order, code)?;
    report.push(b'\n')?;
    Ok(())
}

fn put_all_accepted(
    report: &mut Vec<u8>,
    order: Order,
    accepted: &[(usize, Activation)],
) -> Result<(), AllocError>
    ensures { OnOk result (report.new.items ≡ report.old.items ++ flat_map (accepted_line order) accepted.now) }
{
    for (number, code) in accepted {
        put_accepted(report, order, *number, code)?;
    }
    Ok(())
}

/// The activations that the sign accepted.
fn put_activations(report: &mut Vec<u8>, world: &World) -> Result<(), AllocError>
    ensures { OnOk result (report.new.items ≡ report.old.items
        ++ flat_map (accepted_line (seen world.now).sign.table.order) (seen world.now).accepted) }
{
    let order = world.sign.order();
    put_all_accepted(report, order, world.accepted.as_slice())
}

/// What the sign shows.
fn put_sign(alloc: Global, report: &mut Vec<u8>, sign: &Sign) -> Result<(), AllocError>
    ensures { OnOk result (report.new.items ≡ report.old.items ++ shown_line sign.now.shown) }
{
    put_shown(alloc, report, sign.shown())
}
