//! What the lines of a script do to a central system.

use dms_centre::{Centre, Command, Settings};
use dms_codes::{Activation, MessageId, Order};
use dms_wire::Out;
use std::alloc::Global;

const PUBLISH: Command<'static> = Command::Publish {
    memory: 3,
    number: 1,
    text: b"A",
    owner: b"op",
    beacon: 0,
    pixel: 0,
    run_priority: 200,
    minutes: 3,
    priority: 255,
    address: [192, 0, 2, 7],
};

const PUBLISH_LATE: Command<'static> = Command::Publish {
    memory: 4,
    number: 2,
    text: b"[nl9]",
    owner: b"",
    beacon: 1,
    pixel: 0,
    run_priority: 7,
    minutes: 65535,
    priority: 6,
    address: [10, 0, 0, 255],
};

const BLANK: Command<'static> = Command::Blank {
    number: 255,
    minutes: 1,
    priority: 2,
    address: [0; 4],
};

const ACTIVATE: Command<'static> = Command::Activate(Activation {
    minutes: 65535,
    priority: 5,
    id: MessageId {
        memory: 3,
        number: 1,
        crc: 0x2121,
    },
    address: [0x40, 0, 2, 10],
});

/// A central system whose first request has this number.
pub fn centre_of(alloc: Global, order: Order, first: u32) -> Result<Centre, &'static str> {
    let settings = Settings {
        community: b"admin",
        order,
    };
    Centre::new(alloc, settings, first)
        .ok()
        .ok_or("no central system")
}

fn receive(centre: &mut Centre, digits: &str, out: &mut Out) -> Result<(), &'static str> {
    let mut octets = [0; 1472];
    let datagram = octets.get_mut(..digits.len() / 2).ok_or("too many octets")?;
    hex::decode_to_slice(digits, datagram)
        .ok()
        .ok_or("no digit")?;
    centre.receive(datagram, out);
    Ok(())
}

fn tick(centre: &mut Centre, digits: &str, out: &mut Out) -> Result<(), &'static str> {
    let ticks: u32 = digits.parse().ok().ok_or("no number")?;
    for _ in 0..ticks {
        centre.tick(out).ok().ok_or("out of memory")?;
    }
    Ok(())
}

/// What a line of a script does to a central system.
fn play_line(centre: &mut Centre, line: &str, out: &mut Out) -> Result<(), &'static str> {
    let (word, rest) = line.split_once(' ').unwrap_or((line, ""));
    let command = match word {
        "publish" => PUBLISH,
        "publish-late" => PUBLISH_LATE,
        "blank" => BLANK,
        "activate" => ACTIVATE,
        ">" => return receive(centre, rest, out),
        "tick" => return tick(centre, rest, out),
        "restart" => {
            centre.restart();
            return Ok(());
        }
        "#" => return Ok(()),
        _ => return Err("no such word"),
    };
    let _ = centre.command(command, out);
    Ok(())
}

/// What the parts of a script do to a central system. What goes out is looked at in dms_centre_tests.
pub fn play(centre: &mut Centre, script: &[&str]) -> Result<(), &'static str> {
    let mut out = Out::new();
    for part in script {
        for line in part.lines() {
            play_line(centre, line, &mut out)?;
        }
    }
    Ok(())
}
