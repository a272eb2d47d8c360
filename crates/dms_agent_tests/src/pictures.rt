//! How often the picture of the bench sign has changed.

use crate::agents::{bench_sign, binding, request};
use dms_agent_watched::Watched;
use dms_codes::{Activation, MessageId, Order, crc};
use dms_sign::Receipt;
use dms_wire::{Kind, Out, Value};
use std::process::Abort;
use std::test::Fail;

/// dmsActivateMessage.0, 6.3.0 below dms (NTCIP 1203).
static ACTIVATE: [u8; 13] = [43, 6, 1, 4, 1, 137, 54, 4, 2, 3, 6, 3, 0];

/// The code of permanent row 1 for so many minutes.
fn code(minutes: u16) -> Activation {
    Activation {
        minutes,
        priority: 255,
        id: MessageId {
            memory: 2,
            number: 1,
            crc: crc(b"B", 0, 0),
        },
        address: [0; 4],
    }
}

/// Shows permanent row 1 for so many minutes.
fn show(sign: &mut Watched, minutes: u16) -> Result<(), &'static str> {
    let octets = code(minutes).to_bytes(Order::High);
    let code = [binding(&ACTIVATE, Value::Octets(octets.as_slice()))?];
    let request = request(b"admin", Kind::Set, &code)?;
    let mut reply = Out::new();
    match sign.receive(request.as_slice(), &mut reply) {
        Receipt::Accepted(_) => Ok(()),
        _ => Err("not shown"),
    }
}

#[test]
fn a_picture_is_counted_where_it_is_another(rt: HostRuntime) -> Result<(), Fail> {
    let mut sign = Watched::new(rt.alloc(), bench_sign(rt.alloc())?);
    sign.tick();
    assert!(rt; sign.changes() == 0);
    show(&mut sign, 1)?;
    show(&mut sign, 1)?;
    assert!(rt; sign.changes() == 1);
    for _ in 0..59 {
        sign.tick();
    }
    assert!(rt; sign.changes() == 1);
    sign.tick();
    assert!(rt; sign.changes() == 2);
    sign.power_lost();
    sign.power_back(1);
    assert!(rt; sign.show_fonts() && sign.changes() == 2);
    Ok(())
}
