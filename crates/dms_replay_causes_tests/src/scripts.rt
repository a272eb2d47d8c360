//! What is said of scripts that are refused.

use dms_replay::{ReplayFault, cause_of_line, replay};
use dms_sign_text::BENCH;
use dms_text_streams::Gathered;
use std::alloc::Global;
use std::test::Fail;

/// Lines of events, and what is said of them.
const EVENTS: &str = "\
stop|no event begins with this word
 sign-tick|no event begins with this word
sign-tick now|word 2: no more words are wanted
centre-tick |word 2: two spaces, or a space at an end of the line
to-sign|word 2: the line ends where a number from 0 to 4294967295 is wanted
to-centre x|word 2: a number from 0 to 4294967295 is wanted
power-back -1|word 2: a number from 0 to 4294967295 is wanted
blank 65536 65535 255 192.0.2.1|word 2: a number from 0 to 65535 is wanted
blank 1 65535 255 192.0.2|word 5: an address, as 192.0.2.1, is wanted
activate 00|word 2: a code of 24 hexadecimal digits is wanted
forge-sign 0|word 2: a datagram in hexadecimal is wanted
forge-centre|word 2: the line ends where a datagram in hexadecimal is wanted
publish 3 1 4 - 0 0 200 65535 255 192.0.2.1|word 4: a text in hexadecimal is wanted
publish 3 1 41 x 0 0 200 65535 255 192.0.2.1|word 5: an owner in hexadecimal is wanted
publish 3 1 41 - 0 0 200 65535 256 192.0.2.1|word 10: a number from 0 to 255 is wanted";

/// What is said of a script.
fn said(alloc: Global, text: &str) -> Result<String, Fail> {
    let octets = text.as_bytes();
    let mut reader = octets;
    let Err(ReplayFault::Line(number)) = replay(alloc, &mut reader, &mut Gathered::new(alloc))
    else {
        return Ok(String::new(alloc));
    };
    if octets.len() > 1_048_576
        || cause_of_line(alloc, octets, number.saturating_add(1))?.is_some()
    {
        return Ok(String::new(alloc));
    }
    match cause_of_line(alloc, octets, number)? {
        Some(cause) => Ok(format!(in alloc; "{number}: {cause}")?),
        None => Ok(String::new(alloc)),
    }
}

#[test]
fn events_at_fault(rt: HostRuntime) -> Result<(), Fail> {
    let alloc = rt.alloc();
    for row in EVENTS.lines() {
        let (line, wanted) = row.split_once('|').ok_or("no row")?;
        let script = format!(in alloc; "bench\nsign-tick\n# skipped\n{line}\nsign-tock\n")?;
        let words = said(alloc, script.as_str())?;
        let wanted = format!(in alloc; "4: {wanted}")?;
        assert_eq!(rt; words.as_str(), wanted.as_str());
    }
    Ok(())
}

/// The sign of a script is described at fault, or not at all; and of a script that runs nothing is said.
#[test]
fn signs_at_fault(rt: HostRuntime) -> Result<(), Fail> {
    let alloc = rt.alloc();
    let none = said(alloc, "")?;
    assert_eq!(rt; none.as_str(), "1: the text ends before its line `end`");
    let sign = said(alloc, "size 23 14\nbench\n")?;
    assert_eq!(rt; sign.as_str(), "2: word 1: the word communities is wanted");
    let after = format!(in alloc; "{BENCH}stop\n")?;
    let event = said(alloc, after.as_str())?;
    assert_eq!(rt; event.as_str(), "18: no event begins with this word");
    let good = said(alloc, "bench\nsign-tick\n")?;
    assert_eq!(rt; good.as_str(), "");
    Ok(())
}
