//! Scripts with their whole reports.

mod cases;

use dms_replay::fault::ReplayFault;
use dms_replay::replaying::replay;
use dms_sign_text::BENCH;
use dms_text_streams::Gathered;
use std::alloc::{AllocError, Global};
use std::test::Fail;

fn number(word: &str) -> Result<u32, &'static str> {
    match word.parse() {
        Ok(number) => Ok(number),
        Err(_) => Err("no number"),
    }
}

fn put_sign(script: &mut String, first: &str, order: &str) -> Result<(), AllocError> {
    for line in BENCH.lines() {
        if line.starts_with("first ") {
            writeln!(script, "first {first}")?;
        } else if line.starts_with("order ") {
            writeln!(script, "order {order}")?;
        } else {
            writeln!(script, "{line}")?;
        }
    }
    Ok(())
}

fn put_both(script: &mut String, first: u32, last: u32) -> Result<(), AllocError> {
    for place in first..=last {
        writeln!(script, "to-sign {place}\nto-centre {place}")?;
    }
    Ok(())
}

fn put_letter(script: &mut String, memory: &str, minutes: &str) -> Result<(), AllocError> {
    writeln!(
        script,
        "publish {memory} 1 41 - 0 0 200 {minutes} 255 192.0.2.1"
    )?;
    put_both(script, 0, 3)?;
    script.push_str("sign-tick\n")?;
    put_both(script, 4, 5)?;
    script.push_str("centre-tick\n")?;
    put_both(script, 6, 6)
}

fn put_times(script: &mut String, count: u32, text: &str) -> Result<(), AllocError> {
    for _ in 0..count {
        script.push_str(text)?;
    }
    Ok(())
}

fn put_lines(script: &mut String, count: u32, lines: &str) -> Result<(), AllocError> {
    for _ in 0..count {
        writeln!(script, "{lines}")?;
    }
    Ok(())
}

fn put_long(script: &mut String, text: u32, owner: u32) -> Result<(), AllocError> {
    script.push_str("publish 3 1 ")?;
    put_times(script, text, "41")?;
    script.push_str(" ")?;
    put_times(script, owner, "42")?;
    script.push_str(" 0 0 200 65535 255 0.0.0.0\n")
}

fn lines_named(name: &str) -> Result<&'static str, &'static str> {
    for (known, lines) in cases::NAMED {
        if known == name {
            return Ok(lines);
        }
    }
    Err("no such name")
}

/// Puts what a line of a case stands for, which is itself but for these:
/// `sign FIRST ORDER`, the bench sign with this first number and this order of the octets of checksums;
/// `both FIRST LAST`, the datagrams of these places, each to the sign and then the sign's of this place to the centre;
/// `letter MEMORY MINUTES`, `A` published into row 1: seventeen events, of which the sixteenth is the acceptance;
/// `long TEXT OWNER`, a publication whose text and whose owner have so many octets;
/// `times COUNT LINE`, this line so often; `named NAME`, lines by a name.
fn put_line(script: &mut String, line: &str) -> Result<(), Fail> {
    let (word, rest) = line.split_once(' ').unwrap_or((line, ""));
    let (one, other) = rest.split_once(' ').unwrap_or((rest, ""));
    match word {
        "sign" => put_sign(script, one, other)?,
        "both" => put_both(script, number(one)?, number(other)?)?,
        "letter" => put_letter(script, one, other)?,
        "long" => put_long(script, number(one)?, number(other)?)?,
        "times" => put_lines(script, number(one)?, other)?,
        "named" => put_lines(script, 1, lines_named(rest)?)?,
        _ => put_lines(script, 1, line)?,
    }
    Ok(())
}

fn script_of(alloc: Global, lines: &str) -> Result<String, Fail> {
    let mut script = String::new(alloc);
    for line in lines.lines() {
        put_line(&mut script, line)?;
    }
    Ok(script)
}

fn report_of(alloc: Global, script: &str) -> Result<Gathered, ReplayFault> {
    let mut writer = Gathered::new(alloc);
    replay(alloc, &mut script.as_bytes(), &mut writer)?;
    Ok(writer)
}

#[test]
fn each_script_has_its_report(rt: HostRuntime) -> Result<(), Fail> {
    for cases in [
        cases::PUBLICATIONS.as_slice(),
        cases::LEDGERS.as_slice(),
        cases::LOSSES.as_slice(),
        cases::DEFAULTS.as_slice(),
    ] {
        for case in cases {
            let (lines, report) = case.split_once("report\n").ok_or("no report")?;
            let script = script_of(rt.alloc(), lines)?;
            let found = report_of(rt.alloc(), script.as_str())?;
            assert_eq!(rt; str::from_utf8(found.bytes()), Ok(report), "of {lines:?}");
        }
    }
    Ok(())
}
