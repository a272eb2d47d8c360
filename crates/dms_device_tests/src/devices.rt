//! Objects that are published, read, walked, set and told; and what is refused.

use dms_device::{BindingFault, Device, ManagerAccess, ObjectFault, PublishedObject};
use dms_mib_replies::Objects;
use dms_wire::laws::few_bindings;
use dms_wire::{Bind, ErrorStatus, Kind, MessageParts, Oid, Out, Value, read, write};
use dms_wire_ber::name_of;
use std::alloc::Global;
use std::test::Fail;

/// sysDescr.0, 1.3.6.1.2.1.1.1.0 (RFC 1213).
static DESCRIPTION: [u8; 8] = [43, 6, 1, 2, 1, 1, 1, 0];

/// sysContact.0, 1.3.6.1.2.1.1.4.0 (RFC 1213).
static CONTACT: [u8; 8] = [43, 6, 1, 2, 1, 1, 4, 0];

/// dmsIllumManLevel.0, 7.6.0 below dms (NTCIP 1203).
static LEVEL: [u8; 13] = [43, 6, 1, 4, 1, 137, 54, 4, 2, 3, 7, 6, 0];

/// A level from 0 to 15.
const LEVELS: ManagerAccess = ManagerAccess::Number { least: 0, most: 15 };

/// A text of at most 8 octets.
const TEXTS: ManagerAccess = ManagerAccess::Octets { least: 0, most: 8 };

fn named(content: &[u8]) -> Result<Oid<'_>, &'static str> {
    name_of(content).ok_or("no name")
}

fn publish(
    device: &mut Device,
    alloc: Global,
    name: &[u8],
    value: &Value<'_>,
    access: ManagerAccess,
) -> Result<(), ObjectFault> {
    let object = PublishedObject::new(alloc, name, value, access)?;
    match device.publish(object) {
        Ok(()) => Ok(()),
        Err(_) => Err(ObjectFault::OutOfMemory),
    }
}

/// A device with a description, a contact and a level, which are published from the last to the first.
fn device(alloc: Global) -> Result<Device, ObjectFault> {
    let mut device = Device::new(alloc);
    publish(&mut device, alloc, &LEVEL, &Value::Integer(7), LEVELS)?;
    publish(&mut device, alloc, &CONTACT, &Value::Octets(b"noc"), TEXTS)?;
    let text = Value::Octets(b"a sign");
    publish(
        &mut device,
        alloc,
        &DESCRIPTION,
        &text,
        ManagerAccess::ReadOnly,
    )?;
    Ok(device)
}

fn made(alloc: Global) -> Result<Device, &'static str> {
    match device(alloc) {
        Ok(device) => Ok(device),
        Err(_) => Err("no device"),
    }
}

/// Writes a Set of these bindings.
fn put_request(request: &mut Out, binds: &[Bind<'_>]) -> Result<(), &'static str> {
    let parts = MessageParts {
        community: b"admin",
        kind: Kind::Set,
        request: 1,
        status: 0,
        index: 0,
        binds,
    };
    match write(&parts, request) {
        Ok(()) => Ok(()),
        Err(_) => Err("no request"),
    }
}

/// What comes of a Set of these bindings.
fn set(
    device: &mut Device,
    may_write: bool,
    binds: &[Bind<'_>],
) -> Result<Result<(), BindingFault>, &'static str> {
    let mut request = Out::new();
    put_request(&mut request, binds)?;
    match read(request.as_slice()) {
        Ok(message) => {
            few_bindings();
            Ok(device.set(may_write, &message.binds))
        }
        Err(_) => Err("no message"),
    }
}

/// What comes of a Set of these bindings, where it is the device's own.
fn set_own(
    device: &mut Device,
    may_write: bool,
    binds: &[Bind<'_>],
) -> Result<Option<Result<(), BindingFault>>, &'static str> {
    let mut request = Out::new();
    put_request(&mut request, binds)?;
    match read(request.as_slice()) {
        Ok(message) => {
            few_bindings();
            Ok(device.set_own(may_write, &message.binds))
        }
        Err(_) => Err("no message"),
    }
}

/// Whether the objects read what was published, and none was set.
fn is_untouched(device: &Device) -> Result<bool, &'static str> {
    Ok(
        device.value(&named(&LEVEL)?) == Some(Value::Integer(7))
            && device.value(&named(&CONTACT)?) == Some(Value::Octets(b"noc"))
            && device.value(&named(&DESCRIPTION)?) == Some(Value::Octets(b"a sign"))
            && device.first_set().is_none(),
    )
}

fn bind<'a>(name: &'a [u8], value: Value<'a>) -> Result<Bind<'a>, &'static str> {
    Ok(Bind {
        name: named(name)?,
        value,
    })
}

#[test]
fn a_walk_names_each_object_once_in_order(rt: HostRuntime) -> Result<(), Fail> {
    let device = made(rt.alloc())?;
    let first = device.next(&Oid::default()).ok_or("nothing")?;
    assert!(rt;
        first.name.oid() == named(&DESCRIPTION)? && first.value == Value::Octets(b"a sign")
    );
    let second = device.next(&first.name.oid()).ok_or("one object")?;
    assert!(rt; second.name.oid() == named(&CONTACT)? && second.value == Value::Octets(b"noc"));
    let third = device.next(&second.name.oid()).ok_or("two objects")?;
    assert!(rt; third.name.oid() == named(&LEVEL)? && third.value == Value::Integer(7));
    assert!(rt; device.next(&third.name.oid()).is_none());
    assert!(rt; device.value(&named(&LEVEL)?) == Some(Value::Integer(7)));
    assert!(rt; device.value(&Oid::default()).is_none());
    Ok(())
}

#[test]
fn what_a_manager_sets_is_read_and_told_once(rt: HostRuntime) -> Result<(), Fail> {
    let mut device = made(rt.alloc())?;
    let level = bind(&LEVEL, Value::Integer(15))?;
    let contact = bind(&CONTACT, Value::Octets(b"A1 north"))?;
    assert!(rt; device.first_set().is_none());
    assert_eq!(rt; set(&mut device, true, &[level, contact])?, Ok(()));
    assert!(rt; device.value(&named(&LEVEL)?) == Some(Value::Integer(15)));
    assert!(rt; device.first_set() == Some(bind(&CONTACT, Value::Octets(b"A1 north"))?));
    device.tell_first();
    assert!(rt; device.first_set() == Some(bind(&LEVEL, Value::Integer(15))?));
    device.tell_first();
    assert!(rt; device.first_set().is_none());
    device.tell_first();
    assert!(rt; device.value(&named(&CONTACT)?) == Some(Value::Octets(b"A1 north")));
    Ok(())
}

#[test]
fn a_refused_set_changes_nothing(rt: HostRuntime) -> Result<(), Fail> {
    let mut device = made(rt.alloc())?;
    let other: [u8; 3] = [43, 6, 1];
    for (may_write, name, number, status) in [
        (false, LEVEL.as_slice(), 3, ErrorStatus::NoSuchName),
        (true, DESCRIPTION.as_slice(), 3, ErrorStatus::NoSuchName),
        (true, other.as_slice(), 3, ErrorStatus::NoSuchName),
        (true, CONTACT.as_slice(), 3, ErrorStatus::BadValue),
        (true, LEVEL.as_slice(), 16, ErrorStatus::BadValue),
        (true, LEVEL.as_slice(), -1, ErrorStatus::BadValue),
    ] {
        let binding = bind(name, Value::Integer(number))?;
        let found = set(&mut device, may_write, &[binding])?;
        assert_eq!(rt; found, Err(BindingFault { index: 1, status }));
    }
    let twice = [
        bind(&LEVEL, Value::Integer(3))?,
        bind(&LEVEL, Value::Integer(4))?,
    ];
    let status = ErrorStatus::GenErr;
    assert_eq!(rt;
        set(&mut device, true, &twice)?,
        Err(BindingFault { index: 2, status })
    );
    assert!(rt; device.value(&named(&LEVEL)?) == Some(Value::Integer(7)));
    assert!(rt; device.first_set().is_none());
    Ok(())
}

#[test]
fn a_set_of_its_own_names_is_the_devices(rt: HostRuntime) -> Result<(), Fail> {
    let mut device = made(rt.alloc())?;
    let level = bind(&LEVEL, Value::Integer(0))?;
    let contact = bind(&CONTACT, Value::Octets(b"A1 north"))?;
    assert_eq!(rt;
        set_own(&mut device, true, &[level, contact])?,
        Some(Ok(()))
    );
    assert!(rt; device.value(&named(&LEVEL)?) == Some(Value::Integer(0)));
    assert!(rt; device.value(&named(&CONTACT)?) == Some(Value::Octets(b"A1 north")));
    assert!(rt; device.value(&named(&DESCRIPTION)?) == Some(Value::Octets(b"a sign")));
    assert!(rt; device.first_set() == Some(bind(&CONTACT, Value::Octets(b"A1 north"))?));
    device.tell_first();
    assert!(rt; device.first_set() == Some(bind(&LEVEL, Value::Integer(0))?));
    Ok(())
}

/// Where the device has not the name of each binding, the Set is another's, whatever else is wrong with it.
#[test]
fn a_set_of_a_strangers_name_is_not_the_devices(rt: HostRuntime) -> Result<(), Fail> {
    let mut device = made(rt.alloc())?;
    let other: [u8; 3] = [43, 6, 1];
    let stranger = bind(&other, Value::Integer(3))?;
    assert_eq!(rt; set_own(&mut device, true, &[stranger])?, None);
    assert_eq!(rt; set_own(&mut device, true, &[])?, None);
    for (may_write, first, number, second) in [
        (true, other.as_slice(), 3, other.as_slice()),
        (true, other.as_slice(), 3, LEVEL.as_slice()),
        (true, LEVEL.as_slice(), 3, other.as_slice()),
        (true, LEVEL.as_slice(), 16, other.as_slice()),
        (false, LEVEL.as_slice(), 3, other.as_slice()),
    ] {
        let both = [
            bind(first, Value::Integer(number))?,
            bind(second, Value::Integer(4))?,
        ];
        assert_eq!(rt; set_own(&mut device, may_write, &both)?, None);
    }
    assert!(rt; is_untouched(&device)?);
    Ok(())
}

/// The first binding is in order, and is not written where the second is refused.
#[test]
fn a_refused_set_of_its_own_names_changes_nothing(rt: HostRuntime) -> Result<(), Fail> {
    let mut device = made(rt.alloc())?;
    for (may_write, index, name, number, status) in [
        (false, 1, LEVEL.as_slice(), 3, ErrorStatus::NoSuchName),
        (true, 2, DESCRIPTION.as_slice(), 3, ErrorStatus::NoSuchName),
        (true, 2, CONTACT.as_slice(), 3, ErrorStatus::BadValue),
        (true, 2, LEVEL.as_slice(), 16, ErrorStatus::BadValue),
        (true, 2, LEVEL.as_slice(), 4, ErrorStatus::GenErr),
    ] {
        let both = [
            bind(&LEVEL, Value::Integer(3))?,
            bind(name, Value::Integer(number))?,
        ];
        let found = set_own(&mut device, may_write, &both)?;
        assert_eq!(rt; found, Some(Err(BindingFault { index, status })));
        assert!(rt; is_untouched(&device)?);
    }
    Ok(())
}

#[test]
fn what_firmware_publishes_is_newer(rt: HostRuntime) -> Result<(), Fail> {
    let alloc = rt.alloc();
    let mut device = made(alloc)?;
    let level = bind(&LEVEL, Value::Integer(15))?;
    assert_eq!(rt; set(&mut device, true, &[level])?, Ok(()));
    let published = publish(&mut device, alloc, &LEVEL, &Value::Integer(2), LEVELS);
    assert_eq!(rt; published, Ok(()));
    assert!(rt; device.value(&named(&LEVEL)?) == Some(Value::Integer(2)));
    assert!(rt; device.first_set().is_none());
    assert!(rt; device.withdraw(&named(&LEVEL)?) && !device.withdraw(&named(&LEVEL)?));
    assert!(rt; device.value(&named(&LEVEL)?).is_none());
    assert!(rt; device.next(&named(&CONTACT)?).is_none());
    Ok(())
}

#[test]
fn an_object_without_sense_is_refused(rt: HostRuntime) -> Result<(), Fail> {
    let no_name: [u8; 1] = [200];
    let long = Value::Octets(b"nine long");
    for (name, value, access, fault) in [
        (
            no_name.as_slice(),
            Value::Integer(16),
            LEVELS,
            ObjectFault::NoName,
        ),
        (
            LEVEL.as_slice(),
            Value::Integer(1 << 32),
            LEVELS,
            ObjectFault::NoInteger,
        ),
        (
            LEVEL.as_slice(),
            Value::Integer(16),
            LEVELS,
            ObjectFault::Unfit,
        ),
        (
            LEVEL.as_slice(),
            Value::Gauge(1),
            LEVELS,
            ObjectFault::Unfit,
        ),
        (CONTACT.as_slice(), long, TEXTS, ObjectFault::Unfit),
    ] {
        match PublishedObject::new(rt.alloc(), name, &value, access) {
            Ok(_) => return Err("an object")?,
            Err(found) => assert_eq!(rt; found, fault),
        }
    }
    Ok(())
}

/// Each of the nine types is read as it was published.
#[test]
fn each_type_of_value_is_read(rt: HostRuntime) -> Result<(), Fail> {
    let alloc = rt.alloc();
    for value in [
        Value::Integer(-1),
        Value::Octets(b"abc"),
        Value::Null,
        Value::Name(named(&LEVEL)?),
        Value::Address([10, 0, 0, 1]),
        Value::Counter(7),
        Value::Gauge(8),
        Value::Ticks(9),
        Value::Opaque(b"def"),
    ] {
        let object = match PublishedObject::new(alloc, &CONTACT, &value, ManagerAccess::ReadOnly) {
            Ok(object) => object,
            Err(_) => return Err("no object")?,
        };
        assert!(rt; object.value() == value && object.name() == named(&CONTACT)?);
        assert!(rt; object.access() == ManagerAccess::ReadOnly);
    }
    Ok(())
}

/// What the level of a device reads, or that the device is out of memory.
fn level(alloc: Global) -> Result<bool, ObjectFault> {
    let device = device(alloc)?;
    match name_of(&LEVEL) {
        Some(name) => Ok(device.value(&name) == Some(Value::Integer(7))),
        None => Ok(false),
    }
}

/// With any allocation refused, a device is out of memory; with memory the same calls succeed.
#[test]
fn device_or_out_of_memory(rt: HostRuntime) {
    let refused = Err(ObjectFault::OutOfMemory);
    let first = level(rt.alloc());
    let second = level(rt.alloc());
    assert!(rt;
        first == Ok(true) && (second == Ok(true) || second == refused)
            || first == refused && second == Ok(true)
    );
}
