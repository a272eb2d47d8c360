//! The bench sign against datagrams and replies in octets that were made outside of this code.

use dms_face_pages::pages_with;
use dms_sign::{Config, ConfigFault, Receipt, Sign};
use dms_sign_bench::{B, PICTURE_OF_A, drawing, face, scripts, stock};
use dms_table::{Order, Stock, TableFault};
use dms_wire::{Bind, Kind, MessageParts, Oid, Out, Value, oid_cmp, read, write};
use std::alloc::Global;
use std::cmp::Ordering;
use std::test::Fail;

mod cases;
mod hostile;

fn bench_sign(alloc: Global) -> Result<Sign, &'static str> {
    sign_of(alloc, stock(&[B]))
}

/// A sign as the bench sign is, but for its stock.
fn sign_of(alloc: Global, stock: Stock<'_>) -> Result<Sign, &'static str> {
    let config = config_of(alloc, stock).ok_or("no configuration")?;
    match Sign::new(alloc, config) {
        Ok(sign) => Ok(sign),
        Err(_) => Err("no sign"),
    }
}

/// None where its face finds no memory.
fn config_of(alloc: Global, stock: Stock<'_>) -> Option<Config<'_>> {
    Some(Config {
        face: face(alloc).ok()?,
        stock,
        reader: b"public",
        writer: b"admin",
    })
}

/// The octet of two hexadecimal digits.
fn octet(pair: &[u8]) -> Result<u8, &'static str> {
    let mut octet: u8 = 0;
    for digit in pair {
        let value = match digit {
            b'0'..=b'9' => digit - b'0',
            b'a'..=b'f' => digit - b'a' + 10,
            _ => return Err("no digit"),
        };
        octet = u8::wrapping_mul(octet, 16) | value;
    }
    Ok(octet)
}

/// The octets of hexadecimal digits; `-` is none.
fn octets(digits: &str) -> Result<Out, &'static str> {
    let mut octets = Out::new();
    if digits == "-" {
        return Ok(octets);
    }
    for pair in digits.as_bytes().chunks(2) {
        if octets.try_push(octet(pair)?).is_err() {
            return Err("too many octets");
        }
    }
    Ok(octets)
}

fn number(digits: &str) -> Result<u32, &'static str> {
    match digits.parse() {
        Ok(number) => Ok(number),
        Err(_) => Err("no number"),
    }
}

/// What was replied is this, or nothing where it is `dropped`.
fn check_reply(wanted: &str, receipt: Receipt, reply: &[u8]) -> Result<(), &'static str> {
    if wanted == "dropped" {
        if receipt != Receipt::Dropped || !reply.is_empty() {
            return Err("a reply");
        }
    } else if octets(wanted)?.as_slice() != reply {
        return Err("another reply");
    }
    Ok(())
}

/// This text is shown, in this mode.
fn check_shown(sign: &Sign, wanted: &str) -> Result<(), &'static str> {
    let (text, mode) = wanted.split_once(' ').ok_or("no mode")?;
    let mode = number(mode)?;
    let text = octets(text)?;
    let shown = sign.shown();
    if shown.text.as_slice() != text.as_slice() || u32::from(shown.mode) != mode {
        return Err("another message");
    }
    Ok(())
}

fn play_line(
    sign: &mut Sign,
    receipt: &mut Receipt,
    reply: &mut Out,
    line: &str,
) -> Result<(), &'static str> {
    let (word, rest) = line.split_once(' ').unwrap_or((line, ""));
    match word {
        ">" => *receipt = sign.receive(octets(rest)?.as_slice(), reply),
        "<" => check_reply(rest, *receipt, reply.as_slice())?,
        "tick" => {
            for _ in 0..number(rest)? {
                sign.tick();
            }
        }
        "lost" => sign.power_lost(),
        "back" => sign.power_back(number(rest)?),
        "shown" => check_shown(sign, rest)?,
        "#" => {}
        _ => return Err("no such word"),
    }
    Ok(())
}

/// A datagram is handed over after `>`, and `<` is followed by the reply, or by `dropped`; then there are seconds,
/// losses and returns of the power, and what is shown with its mode. A line that begins with `#` says in words what
/// follows.
fn play(sign: &mut Sign, script: &str) -> Result<(), &'static str> {
    let mut reply = Out::new();
    let mut receipt = Receipt::Dropped;
    for line in script.lines() {
        play_line(sign, &mut receipt, &mut reply, line)?;
    }
    Ok(())
}

/// The two scripts of a new sign, one after the other. It is as the bench sign is but for the order of the octets of
/// its checksums.
fn played(alloc: Global, order: Order, before: &str, script: &str) -> Result<(), &'static str> {
    let stock = Stock {
        order,
        ..stock(&[B])
    };
    let mut sign = sign_of(alloc, stock)?;
    play(&mut sign, before)?;
    play(&mut sign, script)
}

/// Each script of the bench sign, after what goes before it. In the last the octets of checksums are in the other
/// order, and it has the same number as 29954 so.
#[test]
fn each_script_of_the_bench_sign_has_its_replies(rt: HostRuntime) {
    let high = Order::High;
    let swapped = Order::Swapped;
    let ready = scripts::A_IN_ROW_ONE;
    for (name, order, before, script) in [
        ("requests", high, "", cases::REQUESTS),
        ("activations", high, ready, cases::ACTIVATIONS),
        ("commands", high, ready, scripts::COMMANDS),
        ("power and silence", high, "", cases::POWER),
        ("sizes", high, "", cases::SIZES),
        ("silence", high, "", cases::SILENCE),
        ("written defaults", high, "", scripts::WRITTEN_DEFAULTS),
        ("returns of the power", high, ready, scripts::RETURNS),
        ("checksum of the other order", swapped, "", scripts::SWAPPED),
    ] {
        let found = played(rt.alloc(), order, before, script);
        assert_eq!(rt; found, Ok(()), "of {name}");
    }
}

/// What a request of one name is answered: the name and the value of the reply's binding, or none where the reply is an
/// error.
fn asked<'a>(
    sign: &mut Sign,
    kind: Kind,
    name: &Oid<'_>,
    reply: &'a mut Out,
) -> Result<Option<Bind<'a>>, &'static str> {
    let mut request = Out::new();
    let parts = MessageParts {
        community: b"public",
        kind,
        request: 1,
        status: 0,
        index: 0,
        binds: &[Bind {
            name: name.again(),
            value: Value::Null,
        }],
    };
    if write(&parts, &mut request).is_err() {
        return Err("no request");
    }
    sign.receive(request.as_slice(), reply);
    match read(reply.as_slice()) {
        Ok(mut message) if message.status == 0 => Ok(message.binds.next()),
        Ok(_) => Ok(None),
        Err(_) => Err("no reply"),
    }
}

fn put_name(last: &mut Out, content: &[u8]) -> Result<(), &'static str> {
    last.clear();
    match last.try_extend_from_slice(content) {
        Ok(()) => Ok(()),
        Err(_) => Err("no room"),
    }
}

/// From a name to the one after it, if there is one: it is greater, and reads the same by its own name.
fn walk_on(sign: &mut Sign, last: &mut Out) -> Result<bool, &'static str> {
    let mut next = Out::new();
    let mut same = Out::new();
    let name = Oid::of(last.as_slice()).ok_or("no name")?;
    let Some(found) = asked(sign, Kind::GetNext, &name, &mut next)? else {
        return Ok(false);
    };
    if oid_cmp(&name, &found.name) != Ordering::Less {
        return Err("not in order");
    }
    if asked(sign, Kind::Get, &found.name, &mut same)?.as_ref() != Some(&found) {
        return Err("another value");
    }
    put_name(last, found.name.content())?;
    Ok(true)
}

/// How many instances a walk comes by, or 3000 where it does not end.
fn walked(sign: &mut Sign) -> Result<u32, &'static str> {
    let mut last = Out::new();
    put_name(&mut last, &[0])?;
    for count in 0..3000 {
        if !walk_on(sign, &mut last)? {
            return Ok(count);
        }
    }
    Ok(3000)
}

/// A walk from 0.0 on names each instance once, in order, and each reads the same by its name.
#[test]
fn a_walk_names_each_instance_once_in_order(rt: HostRuntime) -> Result<(), Fail> {
    let rows = Stock {
        changeable: 1,
        ..stock(&[B, B])
    };
    let mut sign = sign_of(rt.alloc(), rows)?;
    assert_eq!(rt; walked(&mut sign), Ok(36 + 9 * (2 + 1 + 1 + 1 + 255)));
    Ok(())
}

/// The bench sign, asked for once more where it is out of memory.
fn sign_again(alloc: Global) -> Result<Sign, &'static str> {
    match Sign::new(alloc, bench_config(alloc)?) {
        Ok(sign) => Ok(sign),
        Err(ConfigFault::Table(TableFault::Memory)) => bench_sign(alloc),
        Err(_) => Err("another fault"),
    }
}

/// Each allocation of a sign may be refused: then it is out of memory, and the same call with memory makes the same
/// sign.
#[test]
fn sign_or_out_of_memory(rt: HostRuntime) -> Result<(), Fail> {
    let mut sign = sign_again(rt.alloc())?;
    let mut other = sign_again(rt.alloc())?;
    Ok(check_same(&mut sign, &mut other)?)
}

/// The configuration of the bench sign; where memory is refused to its face, it is asked for again.
fn bench_config(alloc: Global) -> Result<Config<'static>, &'static str> {
    match config_of(alloc, stock(&[B])) {
        Some(config) => Ok(config),
        None => config_of(alloc, stock(&[B])).ok_or("no configuration"),
    }
}

/// From a name to the one after it, if there is one: both read the same there.
fn same_on(sign: &mut Sign, other: &mut Sign, last: &mut Out) -> Result<bool, &'static str> {
    let mut one = Out::new();
    let mut two = Out::new();
    let name = Oid::of(last.as_slice()).ok_or("no name")?;
    let found = asked(sign, Kind::GetNext, &name, &mut one)?;
    if found != asked(other, Kind::GetNext, &name, &mut two)? {
        return Err("another value");
    }
    let Some(binding) = found else {
        return Ok(false);
    };
    put_name(last, binding.name.content())?;
    Ok(true)
}

/// Both read the same, instance by instance from 0.0 on.
fn check_same(sign: &mut Sign, other: &mut Sign) -> Result<(), &'static str> {
    let mut last = Out::new();
    put_name(&mut last, &[0])?;
    for _ in 0..3000 {
        if !same_on(sign, other, &mut last)? {
            return Ok(());
        }
    }
    Err("no end")
}

/// What is shown, drawn under its own copy of the defaults.
fn picture(alloc: Global, sign: &Sign) -> Result<String, Fail> {
    let shown = sign.shown();
    if !shown.defaults.fits(sign.face()) {
        return Err("no such defaults".into());
    }
    let pages = pages_with(alloc, sign.face(), &shown.defaults, shown.text.as_slice())?;
    let page = pages.first().ok_or("no page")?;
    Ok(drawing(alloc, page)?)
}

/// What is shown after a script, drawn.
fn picture_after(alloc: Global, sign: &mut Sign, script: &str) -> Result<String, Fail> {
    play(sign, script)?;
    picture(alloc, sign)
}

/// A message keeps the font under which it came up, until it is activated again.
#[test]
fn a_message_keeps_the_font_under_which_it_came_up(rt: HostRuntime) -> Result<(), Fail> {
    let mut sign = bench_sign(rt.alloc())?;
    play(&mut sign, scripts::A_IN_ROW_ONE)?;
    for (script, wanted) in [
        (cases::PUT_UP, PICTURE_OF_A),
        (cases::PUT_UP_AGAIN, cases::FONT_TWO),
    ] {
        let found = picture_after(rt.alloc(), &mut sign, script)?;
        assert_eq!(rt; found.as_str(), wanted);
    }
    Ok(())
}
