//! The examples of the first pages of dms_mib_instances, dms_sign_access and dms_sign.

use dms_mib::{Instance, Scalar};
use dms_mib_instances::Counts;
use dms_sign::{Config, Receipt, Sign};
use dms_sign_access::{SignSettings, is_settable, write_of};
use dms_sign_bench::{face, stock};
use dms_table::Table;
use dms_wire::{Out, Value};
use dms_wire_ber::name_of;
use std::test::Fail;

#[test]
fn the_next_of_a_name_is_the_next_instance(rt: HostRuntime) -> Result<(), Fail> {
    let table = Table::new(rt.alloc(), stock(&[]), &face(rt.alloc())?)?;
    let counts = Counts::of(&table);
    let name = name_of(&[43, 6, 1, 4, 1, 137, 54, 4, 2, 3, 6, 3, 0]).ok_or("no name")?;
    assert!(rt; counts.named(&name) == Some(Instance::Scalar(Scalar::ActivateMessage)));
    assert!(rt; counts.next(&name) == Some(Instance::Scalar(Scalar::MessageTimeRemaining)));
    Ok(())
}

#[test]
fn only_a_settable_object_in_its_range_is_assigned(rt: HostRuntime) -> Result<(), Fail> {
    let face = face(rt.alloc())?;
    let seconds = Instance::Scalar(Scalar::ShortPowerLossTime);
    assert!(rt; is_settable(seconds) && !is_settable(Instance::Scalar(Scalar::SignWidthPixels)));
    assert!(rt; write_of(&face, seconds, &Value::Integer(65536)).is_none());
    let change = write_of(&face, seconds, &Value::Integer(60)).ok_or("no change")?;
    let mut settings = SignSettings::new(face.defaults());
    settings.assign(&change);
    let wanted = SignSettings {
        short_power_loss_time: 60,
        ..SignSettings::new(face.defaults())
    };
    assert!(rt; settings == wanted && wanted != SignSettings::new(face.defaults()));
    Ok(())
}

#[test]
fn a_sign_drops_what_is_no_datagram(rt: HostRuntime) -> Result<(), Fail> {
    let config = Config {
        face: face(rt.alloc())?,
        stock: stock(&[]),
        reader: b"public",
        writer: b"admin",
    };
    let mut sign = Sign::new(rt.alloc(), config)?;
    let mut reply = Out::new();
    assert!(rt; sign.receive(b"no datagram", &mut reply) == Receipt::Dropped);
    sign.tick();
    assert!(rt; sign.shown().text.is_empty());
    Ok(())
}
