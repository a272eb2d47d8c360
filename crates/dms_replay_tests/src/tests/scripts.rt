//! The lines of events by their values, and where scripts are at fault.

use dms_centre_text::OwnedCommand;
use dms_codes::{Activation, MessageId, Order};
use dms_replay::event_line::event;
use dms_replay::fault::ReplayFault;
use dms_replay::fields::address;
use dms_replay::replaying::{bench, replay};
use dms_replay::script_event::ScriptEvent;
use dms_sign_text::write_fault;
use dms_text_streams::Gathered;
use std::alloc::{AllocError, Global};
use std::process::Abort;
use std::test::Fail;

/// Lines that spell no event, each wrong in one word.
const NO_EVENTS: &str = "publish
Publish 3 1 41 - 0 0 200 65535 255 192.0.2.1
publish 256 1 41 - 0 0 200 65535 255 192.0.2.1
publish 000003 1 41 - 0 0 200 65535 255 192.0.2.1
publish 3 65536 41 - 0 0 200 65535 255 192.0.2.1
publish 3 +1 41 - 0 0 200 65535 255 192.0.2.1
publish 3 1 4 - 0 0 200 65535 255 192.0.2.1
publish 3 1 4g - 0 0 200 65535 255 192.0.2.1
publish 3 1  - 0 0 200 65535 255 192.0.2.1
publish 3 1 41 0 0 0 200 65535 255 192.0.2.1
publish 3 1 41 - 256 0 200 65535 255 192.0.2.1
publish 3 1 41 - 0 256 200 65535 255 192.0.2.1
publish 3 1 41 - 0 0 256 65535 255 192.0.2.1
publish 3 1 41 - 0 0 200 65536 255 192.0.2.1
publish 3 1 41 - 0 0 200 65535 256 192.0.2.1
publish 3 1 41 - 0 0 200 65535 255 192.0.2
publish 3 1 41 - 0 0 200 65535 255
publish 3 1 41 - 0 0 200 65535 255 192.0.2.1 0
blank
blank 65536 0 0 0.0.0.0
blank 1 65536 0 0.0.0.0
blank 1 0 256 0.0.0.0
blank 1 0 0 1.2.3
blank 1 0 0 1.2.3.4.5
blank 1 0 0 1.2.3.256
blank 1 0 0 0001.2.3.4
blank 1 0 0 1..3.4
blank 1 0 0 1.2.3.a
blank 1 0 0 -
blank 1 0 0
blank 1 0 0 0.0.0.0 0
activate
activate -
activate ffffff0300019a66c00002
activate ffffff0300019a66c000020
activate ffffff0300019a66c000020g
activate ffffff0300019a66c000020100
activate ffffff0300019a66c0000201 0
sign-tick 1
sign-tick -
sign-tock
Sign-tick
centre-tick 1
center-tick
to-sign
to-sign -1
to-sign 4294967296
to-sign 00000000001
to-sign 0x1
to-sign 1 2
to-centre
to-centre 4294967296
to-centre 1 2
power-lost 1
power-back
power-back 4294967296
power-back 1 2
centre-restart 0
forge-sign
forge-sign 0
forge-sign 0g
forge-sign 00 00
forge-centre
forge-centre 0
forge-centre 00 00
bench
end";

/// Whether a line spells an event.
fn spells(alloc: Global, order: Order, line: &str) -> Result<bool, AllocError> {
    Ok(event(alloc, order, line.as_bytes())?.is_some())
}

/// The fault of a script, and whether nothing was written of it.
fn fault_of(alloc: Global, script: &str) -> (Option<ReplayFault>, bool) {
    let mut reader = script.as_bytes();
    let mut writer = Gathered::new(alloc);
    let fault = replay(alloc, &mut reader, &mut writer).err();
    (fault, writer.bytes().is_empty())
}

/// The same of a script whose fifth line this is.
fn fault_of_fifth(alloc: Global, line: &str) -> Result<(Option<ReplayFault>, bool), AllocError> {
    let mut script = String::new(alloc);
    script.push_str("# the fifth line\nbench\n\nsign-tick\n")?;
    script.push_str(line)?;
    script.push_str("\nsign-tock\n")?;
    Ok(fault_of(alloc, script.as_str()))
}

/// None of them spells an event, and a script names the line where it stands.
#[test]
fn lines_that_spell_no_event(rt: HostRuntime) -> Result<(), Fail> {
    for line in NO_EVENTS.lines() {
        let spelt = spells(rt.alloc(), Order::High, line)?;
        let found = fault_of_fifth(rt.alloc(), line)?;
        assert_eq!(rt;
            (spelt, found),
            (false, (Some(ReplayFault::Line(5)), true)),
            "of {line:?}"
        );
    }
    for line in ["", "sign-tick ", " sign-tick", "sign-tick\n", "sign-tick\r"] {
        assert!(rt; !spells(rt.alloc(), Order::High, line)?, "of {line:?}");
    }
    Ok(())
}

#[test]
fn lines_that_spell_events(rt: HostRuntime) -> Result<(), Fail> {
    for line in [
        "publish 3 1 41 - 0 0 200 65535 255 192.0.2.1",
        "publish 255 00000 - - 255 255 0 0 0 000.0.00.255",
        "publish 0 65535 00fF 5B 1 1 255 1 1 1.2.3.4",
        "blank 65535 65535 255 255.255.255.255",
        "activate ffffff0300019a66C0000201",
        "sign-tick",
        "centre-tick",
        "to-sign 4294967295",
        "to-centre 0000000000",
        "power-lost",
        "power-back 0",
        "centre-restart",
        "forge-sign -",
        "forge-centre 00Ff",
    ] {
        assert!(rt; spells(rt.alloc(), Order::Swapped, line)?, "of {line:?}");
    }
    Ok(())
}

fn code_of(alloc: Global, order: Order, line: &[u8]) -> Result<Option<Activation>, AllocError> {
    match event(alloc, order, line)? {
        Some(ScriptEvent::Command(OwnedCommand::Activate(code))) => Ok(Some(code)),
        _ => Ok(None),
    }
}

/// A code's checksum is in the order that is asked for.
#[test]
fn codes_in_both_orders(rt: HostRuntime) -> Result<(), Fail> {
    for (order, crc) in [(Order::High, 0x0708), (Order::Swapped, 0x0807)] {
        let code = Activation {
            minutes: 0x0102,
            priority: 3,
            id: MessageId {
                memory: 4,
                number: 0x0506,
                crc,
            },
            address: [10, 11, 12, 13],
        };
        let found = code_of(rt.alloc(), order, b"activate 01020304050607080a0b0c0d")?;
        assert_eq!(rt; found, Some(code));
    }
    Ok(())
}

#[test]
fn an_address_is_four_octets_with_dots(rt: HostRuntime) {
    for (word, octets) in [
        ("192.0.2.1", Some([192, 0, 2, 1])),
        ("000.00.0.255", Some([0, 0, 0, 255])),
        ("1.2.3", None),
        ("1.2.3.4.", None),
        ("1.2.3.4 ", None),
        ("", None),
    ] {
        assert_eq!(rt; address(word.as_bytes()), octets, "of {word:?}");
    }
}

/// The lines of a sign's description before its fonts.
const BEFORE_FONTS: &str = "\
size 5 7
communities a b
rows 1 1
order high
has 0 0
defaults 0 1 5 5 1 2 2 10 0
first 1
";

/// Asserts that the script that is two texts is at fault in this line, and that nothing is written.
fn check_fault(
    rt: &impl Abort,
    alloc: Global,
    before: &str,
    more: &str,
    number: usize,
) -> Result<(), Fail> {
    let script = format!(in alloc; "{before}{more}")?;
    assert_eq!(rt;
        fault_of(alloc, script.as_str()),
        (Some(ReplayFault::Line(number)), true),
        "of {script}"
    );
    Ok(())
}

/// Scripts without a sign, with a sign that is at fault, and with a fault after a sign of its own.
#[test]
fn a_script_at_fault_names_its_line(rt: HostRuntime) -> Result<(), Fail> {
    for (script, number) in [
        ("", 1),
        ("\n# nothing\n", 3),
        ("\nbench\n\n# nothing\nto-sing 0\n", 5),
        ("bench \n", 1),
        ("Bench\n", 1),
        ("bench sign-tick\n", 1),
        ("sign-tick\nbench\n", 1),
        ("size 23 14\n", 2),
    ] {
        check_fault(&rt, rt.alloc(), "", script, number)?;
    }
    let font = "font 1 height 7 space 1 line 1 version 0001\nend\nsign-tick\nend\n";
    check_fault(&rt, rt.alloc(), BEFORE_FONTS, "end\n", 8)?;
    check_fault(&rt, rt.alloc(), BEFORE_FONTS, font, 11)
}

/// The first request number of the bench sign's centre.
fn first_of_bench(alloc: Global) -> Result<u32, ReplayFault> {
    Ok(bench(alloc)?.first)
}

/// What is printed of each fault, by its `Display` and by the function that the program calls; and the bench sign is
/// there without one.
#[test]
fn each_fault_of_a_replay_prints_its_text(rt: HostRuntime) -> Result<(), Fail> {
    for (fault, text) in [
        (ReplayFault::Read, "read"),
        (ReplayFault::Write, "write"),
        (ReplayFault::Line(7), "line 7"),
        (ReplayFault::TooLong, "too long"),
        (ReplayFault::Memory, "memory"),
    ] {
        let printed = format!(in rt.alloc(); "{fault}")?;
        assert_eq!(rt; printed.as_str(), text);
        let mut written = Vec::new(rt.alloc());
        write_fault(&mut written, fault)?;
        assert!(rt; written.as_slice() == text.as_bytes());
    }
    assert_eq!(rt; first_of_bench(rt.alloc()), Ok(1));
    Ok(())
}
