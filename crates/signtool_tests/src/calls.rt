//! Calls of the program by their words and their input, each with what it prints.

mod cases;

use dms_sign_bench::PICTURE_OF_A;
use dms_sign_bench::states::{NEW, with_lines};
use signtool_acts::Counted;
use signtool_acts::act::{act, act_saying};
use signtool_calls::{Call, Drawing, Form, SignWanted, StateWanted};
use signtool_cli::asked;
use std::alloc::{AllocError, Global};
use std::io;
use std::io::Read;
use std::process::Abort;
use std::test::Fail;

/// The call that these words are, if they are one.
fn call_of<'a>(alloc: Global, words: &'a [&'a str]) -> Option<Call<'a>> {
    asked(alloc, words).ok()
}

/// The words of a line, after the program's name. What stands between two `'` is one word.
fn words_of(alloc: Global, line: &str) -> Result<Vec<&str>, AllocError> {
    let mut words = Vec::new(alloc);
    words.push("signtool")?;
    for (place, part) in line.split('\'').enumerate() {
        if place % 2 == 1 {
            words.push(part)?;
        } else {
            for word in part.split_ascii_whitespace() {
                words.push(word)?;
            }
        }
    }
    Ok(words)
}

/// The status of a call over this standard input, and whether this is printed.
fn acted(alloc: Global, call: &Call<'_>, mut input: impl Read + Drop, printed: &str) -> (u8, bool) {
    let mut output = Vec::new(alloc);
    let status = act(alloc, call, &mut input, &mut output);
    (status, output.as_slice() == printed.as_bytes())
}

/// The same of the call that a line is, if it is one.
fn called(alloc: Global, line: &str, input: &str, printed: &str) -> Option<(u8, bool)> {
    let words = words_of(alloc, line).ok()?;
    let call = call_of(alloc, &words)?;
    Some(acted(alloc, &call, input.as_bytes(), printed))
}

#[test]
fn each_datagram_has_its_printed_answer(rt: HostRuntime) {
    let sign = SignWanted::Bench;
    for (hex, printed, status) in cases::ANSWERS {
        let found = acted(
            rt.alloc(),
            &Call::Answer { hex, sign },
            b"".as_slice(),
            printed,
        );
        assert_eq!(rt; found, (status, true), "for {hex}");
    }
}

#[test]
fn each_check_and_code_is_printed_as_it_stands(rt: HostRuntime) -> Result<(), Fail> {
    for (line, printed, status) in cases::TEXTS {
        let found = called(rt.alloc(), line, "", printed);
        assert_eq!(rt; found, Some((status, true)), "for {line}");
    }
    let printed = format!(in rt.alloc(); "page 1 on 30 off 0 back 0\n{PICTURE_OF_A}")?;
    let found = called(rt.alloc(), "pages A", "", printed.as_str());
    assert_eq!(rt; found, Some((0, true)));
    for (line, crc, code) in cases::CODES {
        let printed = format!(in rt.alloc(); "crc {crc}\ncode {code}\n")?;
        let found = called(rt.alloc(), line, "", printed.as_str());
        assert_eq!(rt; found, Some((0, true)), "for {line}");
    }
    Ok(())
}

/// A code, or a refusal with its status. What is wrong with a checksum is said before what is wrong with an address.
#[test]
fn each_activation_is_printed_or_refused(rt: HostRuntime) -> Result<(), Fail> {
    for case in cases::ACTIVATIONS.lines() {
        let (line, wanted) = case.split_once('|').unwrap_or((case, ""));
        let (printed, status) = wanted.split_once('|').unwrap_or((wanted, ""));
        let printed = format!(in rt.alloc(); "{printed}\n")?;
        let found = called(rt.alloc(), line, "", printed.as_str());
        assert_eq!(rt; found, Some((status.parse::<u8>()?, true)), "for {line}");
    }
    Ok(())
}

#[test]
fn each_call_prints_what_its_input_asks(rt: HostRuntime) {
    for cases in [
        cases::DESCRIBED.as_slice(),
        cases::REPLAYS.as_slice(),
        cases::CONVERSATIONS.as_slice(),
    ] {
        for (line, input, printed, status) in cases {
            let found = called(rt.alloc(), line, input, printed);
            assert_eq!(rt; found, Some((*status, true)), "for {line}");
        }
    }
}

/// Lines after a description are to the sign that it describes, or to its central system.
#[test]
fn lines_after_a_description_are_answered(rt: HostRuntime) -> Result<(), Fail> {
    let input = format!(in rt.alloc(); "{}{}", cases::SMALL_SIGN, cases::SMALL_TALK)?;
    for (line, printed) in cases::AFTER_DESCRIPTION {
        let found = called(rt.alloc(), line, input.as_str(), printed);
        assert_eq!(rt; found, Some((0, true)), "for {line}");
    }
    Ok(())
}

/// The status of the call that a line is on this input, and whether this is printed and that is said on the standard
/// error.
fn told_on_input(
    alloc: Global,
    line: &str,
    octets: &str,
    printed: &str,
    said: &str,
) -> Option<(u8, bool, bool)> {
    let words = words_of(alloc, line).ok()?;
    let call = call_of(alloc, &words)?;
    let mut output = Vec::new(alloc);
    let mut errors = Vec::new(alloc);
    let mut input = octets.as_bytes();
    let status = act_saying(
        alloc,
        &call,
        &mut input,
        &mut Counted::new(&mut output),
        &mut errors,
    );
    Some((
        status.number(),
        output.as_slice() == printed.as_bytes(),
        errors.as_slice() == said.as_bytes(),
    ))
}

/// The same on an empty input.
fn called_saying(alloc: Global, line: &str, printed: &str, said: &str) -> Option<(u8, bool, bool)> {
    told_on_input(alloc, line, "", printed, said)
}

/// A byte order mark and a tab, which nobody sees, are named behind why their line is refused.
#[test]
fn a_tab_and_a_byte_order_mark_are_named(rt: HostRuntime) {
    for (line, input, printed, said) in cases::UNSEEN {
        let found = told_on_input(rt.alloc(), line, input, printed, said);
        assert_eq!(rt; found, Some((1, true, true)), "for {line}");
    }
}

#[test]
fn readers_print_lines(rt: HostRuntime) {
    for cases in [
        cases::DECODED.as_slice(),
        cases::ITEMS.as_slice(),
        cases::SAID.as_slice(),
    ] {
        for (line, printed, status, said) in cases {
            let found = called_saying(rt.alloc(), line, printed, said);
            assert_eq!(rt; found, Some((*status, true, true)), "for {line}");
        }
    }
}

/// Each refusal says why.
#[test]
fn refusals_say_why(rt: HostRuntime) -> Result<(), Fail> {
    for case in cases::REFUSED.lines() {
        let (line, rest) = case.split_once('|').unwrap_or((case, ""));
        let (printed, rest) = rest.split_once('|').unwrap_or((rest, ""));
        let (status, said) = rest.split_once('|').unwrap_or((rest, ""));
        let printed = format!(in rt.alloc(); "{printed}\n")?;
        let said = format!(in rt.alloc(); "{said}\n")?;
        let found = called_saying(rt.alloc(), line, printed.as_str(), said.as_str());
        assert_eq!(rt;
            found,
            Some((status.parse::<u8>()?, true, true)),
            "for {line}"
        );
    }
    Ok(())
}

#[test]
fn a_text_of_513_octets_is_refused(rt: HostRuntime) -> Result<(), Fail> {
    let long = [b'A'; 513];
    for (length, status) in [(512, 0), (513, 1)] {
        let text = str::from_utf8(&long[..length])?;
        let line = format!(in rt.alloc(); "code 3 1 {text}")?;
        let found = called(rt.alloc(), line.as_str(), "", "text too long\n");
        assert_eq!(rt; found, Some((status, status == 1)));
    }
    Ok(())
}

/// The address is looked at before the length of the text.
#[test]
fn a_bad_address_is_told_before_a_long_text(rt: HostRuntime) -> Result<(), Fail> {
    let text = [b'A'; 513];
    let long = str::from_utf8(&text)?;
    for (address, printed, status) in [
        ("1.2.3", "bad address\n", 2),
        ("1.2.3.4", "text too long\n", 1),
    ] {
        let line = format!(in rt.alloc(); "code 3 1 {long} --address {address}")?;
        let found = called(rt.alloc(), line.as_str(), "", printed);
        assert_eq!(rt; found, Some((status, true)));
    }
    Ok(())
}

#[test]
fn a_command_line_is_read_as_its_call(rt: HostRuntime) -> Result<(), Fail> {
    let Some(Call::Answer { hex, sign }) = call_of(rt.alloc(), &["signtool", "answer", "30"]) else {
        return Err("no answer".into());
    };
    assert!(rt; hex == "30" && sign == SignWanted::Bench);
    let Some(Call::Check { text, sign, form }) = call_of(
        rt.alloc(),
        &["signtool", "check", "--sign", "A"],
    ) else {
        return Err("no check".into());
    };
    assert!(rt; text == "A" && sign == SignWanted::Described && form == Form::Lines);
    Ok(())
}

/// A sign, and its central system, is described or not, and begins in a state or not.
#[test]
fn an_end_begins_in_a_state(rt: HostRuntime) -> Result<(), Fail> {
    for (words, sign, state) in [
        ("", SignWanted::Bench, StateWanted::New),
        (" --sign", SignWanted::Described, StateWanted::New),
        (" --restore", SignWanted::Bench, StateWanted::Restored),
        (
            " --restore --sign",
            SignWanted::Described,
            StateWanted::Restored,
        ),
    ] {
        let line = format!(in rt.alloc(); "sign{words}")?;
        let words_of_sign = words_of(rt.alloc(), line.as_str())?;
        let found = match call_of(rt.alloc(), &words_of_sign) {
            Some(Call::Sign { sign, state }) => Some((sign, state)),
            _ => None,
        };
        assert!(rt; found == Some((sign, state)), "for {line}");
        let line = format!(in rt.alloc(); "centre{words}")?;
        let words_of_centre = words_of(rt.alloc(), line.as_str())?;
        let found = match call_of(rt.alloc(), &words_of_centre) {
            Some(Call::Centre { sign, state }) => Some((sign, state)),
            _ => None,
        };
        assert!(rt; found == Some((sign, state)), "for {line}");
    }
    Ok(())
}

/// An end goes on from this state: `save` gives it back, and then the lines of a talk are answered as it says. `save`
/// gives it back with a description before it too.
fn check_goes_on(
    rt: &impl Abort,
    alloc: Global,
    end: &str,
    state: &str,
    talk: (&str, &str),
) -> Result<(), Fail> {
    let (lines, answers) = talk;
    let line = format!(in alloc; "{end} --restore")?;
    let asked = format!(in alloc; "{state}save\n{lines}")?;
    let printed = format!(in alloc; "{state}ok\n{answers}")?;
    let found = called(alloc, line.as_str(), asked.as_str(), printed.as_str());
    assert_eq!(rt; found, Some((0, true)));
    let line = format!(in alloc; "{end} --sign --restore")?;
    let asked = format!(in alloc; "{}{state}save\n", cases::SMALL_SIGN)?;
    let printed = format!(in alloc; "{state}ok\n")?;
    let found = called(alloc, line.as_str(), asked.as_str(), printed.as_str());
    assert_eq!(rt; found, Some((0, true)));
    Ok(())
}

/// The bench sign's state after its power was lost.
fn without_power(alloc: Global) -> Result<String, AllocError> {
    with_lines(alloc, NEW, &["shown-mode 13", "powered 0"])
}

#[test]
fn a_conversation_goes_on_from_a_state(rt: HostRuntime) -> Result<(), Fail> {
    let told = "ok\nshown 7 1 0000 mode 10 priority 1 remaining 65535 text -\nok\n";
    let talk = ("power-back 5\nstate\n", told);
    let state = without_power(rt.alloc())?;
    check_goes_on(&rt, rt.alloc(), "sign", state.as_str(), talk)
}

/// The lines behind the state put back what managers set of objects that are published again.
#[test]
fn objects_go_on_from_a_state(rt: HostRuntime) -> Result<(), Fail> {
    let (state, kept) = (without_power(rt.alloc())?, cases::KEPT_VALUES);
    let asked = format!(in rt.alloc(); "{state}{}{kept}save\n", cases::KEPT_OBJECTS)?;
    let printed = format!(in rt.alloc(); "ok\nok\nok\nok\n{state}{kept}ok\n")?;
    let found = called(
        rt.alloc(),
        "sign --restore",
        asked.as_str(),
        printed.as_str(),
    );
    assert_eq!(rt; found, Some((0, true)));
    Ok(())
}

/// What waits goes out again when its tick comes, and is answered once.
#[test]
fn a_centre_goes_on_from_a_state(rt: HostRuntime) -> Result<(), Fail> {
    let talk = ("restart\nstatus\n", cases::RESTARTED);
    check_goes_on(&rt, rt.alloc(), "centre", cases::WAITING, talk)
}

/// The line of a state that is refused is told, and why.
#[test]
fn a_refused_state_is_told(rt: HostRuntime) {
    for (line, states) in [
        ("sign --restore", cases::NO_STATES),
        ("centre --restore", cases::NO_CENTRES),
    ] {
        for (state, printed, said) in states {
            let found = told_on_input(rt.alloc(), line, state, printed, said);
            assert_eq!(rt; found, Some((1, true, true)), "for {state}");
        }
    }
}

#[test]
fn a_row_that_the_sign_has_not_is_told(rt: HostRuntime) -> Result<(), Fail> {
    let row = "state 1 sign\nchangeable 3 4 41 - 0 0 1";
    let state = with_lines(rt.alloc(), NEW, &[row, "shown-mode 13", "powered 0"])?;
    let said = "state line 2: no such row can be changed\n";
    let found = told_on_input(
        rt.alloc(),
        "sign --restore",
        state.as_str(),
        "state line 2\n",
        said,
    );
    assert_eq!(rt; found, Some((1, true, true)));
    Ok(())
}

#[test]
fn other_lines_are_no_call(rt: HostRuntime) -> Result<(), Fail> {
    for line in cases::NO_CALLS {
        let words = words_of(rt.alloc(), line)?;
        assert!(rt; call_of(rt.alloc(), &words).is_none(), "for {line}");
    }
    Ok(())
}

/// What is said of a line that is no call.
fn usage_of(alloc: Global, line: &str) -> Option<String> {
    let words = words_of(alloc, line).ok()?;
    match asked(alloc, &words) {
        Ok(_) => None,
        Err(usage) => format!(in alloc; "{usage}").ok(),
    }
}

/// A number is digits alone, within its range, and what is said of another word names it.
#[test]
fn numbers_are_digits_alone(rt: HostRuntime) {
    for case in cases::NO_NUMBERS.lines() {
        let (line, said) = case.split_once('|').unwrap_or((case, ""));
        let usage = usage_of(rt.alloc(), line);
        let found = match &usage {
            Some(usage) => !said.is_empty() && usage.as_str().contains(said),
            None => false,
        };
        assert!(rt; found, "for {line}");
    }
}

/// Where a word follows `--sign` as if it named a file, the last line says how a description is given.
#[test]
fn a_file_after_sign_is_told_of_the_standard_input(rt: HostRuntime) {
    for (line, is_hinted) in cases::HINTED {
        let usage = usage_of(rt.alloc(), line);
        let found = match &usage {
            Some(said) => Some(
                said.as_str()
                    .ends_with("the description is read from standard input: < FILE\n"),
            ),
            None => None,
        };
        assert_eq!(rt; found, Some(is_hinted), "for {line}");
    }
}

/// The help names the option that stands alone, and says which sign answers.
#[test]
fn the_help_names_the_version_and_the_bench_sign(rt: HostRuntime) {
    let usage = usage_of(rt.alloc(), "--help");
    for wanted in [
        "--version",
        "activation",
        "Where --sign is not given the bench sign answers",
        "The manual is wisangub-signtool(1)",
    ] {
        let found = match &usage {
            Some(said) => said.as_str().contains(wanted),
            None => false,
        };
        assert!(rt; found, "no {wanted}");
    }
    let words = ["signtool", "--version", "check", "A"];
    assert!(rt; matches!(call_of(rt.alloc(), &words), Some(Call::Version)));
}

/// The status of a call whose output takes nothing.
fn status_where_full(alloc: Global, line: &str) -> Option<u8> {
    let words = words_of(alloc, line).ok()?;
    let call = call_of(alloc, &words)?;
    let mut input: &[u8] = &[];
    let mut output: &mut [u8] = &mut [];
    Some(act(alloc, &call, &mut input, &mut output))
}

/// Where the output takes nothing, the status says so, whatever was to be printed.
#[test]
fn a_full_output_is_told_by_the_status(rt: HostRuntime) {
    for line in cases::PRINTING {
        assert_eq!(rt; status_where_full(rt.alloc(), line), Some(1));
    }
}

/// A reader that gives so many `#` and then fails, or then ends.
#[derive(Drop)]
struct Filler {
    left: usize,
    fails: bool,
}

impl Read for Filler {
    fn read(&mut self, buf: &mut [u8]) -> io::Result<usize> {
        if self.left == 0 && self.fails {
            return Err(io::Error::from(io::ErrorKind::Other));
        }
        let count = self.left.min(buf.len());
        buf[..count].fill(b'#');
        self.left -= count;
        Ok(count)
    }
}

/// Whatever reads the standard input says that it fails, and that it is too long.
#[test]
fn an_input_that_fails_or_is_too_long_is_told(rt: HostRuntime) {
    for calls in [
        cases::READ_FIRST.as_slice(),
        cases::READ_BY_LINES.as_slice(),
    ] {
        for call in calls {
            for (left, fails, printed) in cases::LENGTHS {
                let found = acted(rt.alloc(), call, Filler { left, fails }, printed);
                assert_eq!(rt; found, (1, true), "after {left}");
            }
        }
    }
}

/// Where a whole input is read first, an octet past the limit decides before a call that would fail after it.
#[test]
fn an_octet_past_the_limit_decides_before_a_failure(rt: HostRuntime) {
    for call in &cases::READ_FIRST {
        let input = Filler {
            left: 1_048_577,
            fails: true,
        };
        let found = acted(rt.alloc(), call, input, "too long\n");
        assert_eq!(rt; found, (1, true));
    }
}

/// A long line is refused, the lines around it are answered, and a reader that fails within a line is reported after
/// them.
#[test]
fn long_lines_are_refused(rt: HostRuntime) {
    for (call, fails, printed) in cases::LONG_LINES {
        let input = Filler {
            left: 200_000,
            fails,
        };
        let found = acted(rt.alloc(), &call, input, printed);
        assert_eq!(rt; found, (u8::from(fails), true));
    }
}

/// An output that is full after each octet in turn has a prefix of what is to be printed, and the status says that this
/// is not all.
#[test]
fn an_output_that_is_full_has_a_prefix(rt: HostRuntime) {
    for (call, input, printed) in cases::BY_LINES {
        let printed = printed.as_bytes();
        for room in 0..=printed.len() {
            let mut buffer = [0_u8; 128];
            let mut output: &mut [u8] = &mut buffer[..room];
            let mut input = input.as_bytes();
            let found = act(rt.alloc(), &call, &mut input, &mut output);
            assert_eq!(rt; found, u8::from(room < printed.len()));
            assert!(rt; buffer[..room] == printed[..room]);
        }
    }
}

/// The status of a call, and whether this is printed, or that there is no memory, which is said too.
fn acted_or_memory(alloc: Global, call: &Call<'_>, input: &str, printed: &str) -> (u8, bool, bool) {
    let (mut printing, mut saying) = ([0_u8; 256], [0_u8; 256]);
    let mut output: &mut [u8] = &mut printing;
    let mut errors: &mut [u8] = &mut saying;
    let mut input = input.as_bytes();
    let mut counted = Counted::new(&mut output);
    let status = act_saying(alloc, call, &mut input, &mut counted, &mut errors);
    let written = 256_usize.saturating_sub(output.len());
    let said = 256_usize.saturating_sub(errors.len());
    let text = &printing[..written];
    (
        status.number(),
        text == printed.as_bytes(),
        text == b"memory\n".as_slice() && saying[..said].ends_with(b"there is not enough memory\n"),
    )
}

/// Where memory is refused once, as `rt try --test --fail-alloc N` refuses it, each call prints what it prints without,
/// or `memory` with status 1, and says in words that there is none. Done again, it prints that.
#[test]
fn printed_or_out_of_memory(rt: HostRuntime) {
    for (call, input, printed, status) in cases::ALLOCATING {
        for refused in [false, true] {
            let (found, whole, memory) = acted_or_memory(rt.alloc(), &call, input, printed);
            if found == status && whole {
                break;
            }
            assert_eq!(rt; (found, memory, refused), (1, true, false), "for {call:?}");
        }
    }
}

/// The status of two pages that are drawn so, whether a document is printed, or page 2, and in how many lines.
fn drawn(alloc: Global, drawing: Drawing) -> (u8, bool, bool, usize) {
    let call = Call::Pages {
        text: "A[np]B",
        sign: SignWanted::Bench,
        drawing,
    };
    let mut output = Vec::new(alloc);
    let mut input: &[u8] = &[];
    let status = act(alloc, &call, &mut input, &mut output);
    let text = output.as_slice();
    (
        status,
        text.starts_with(b"<svg ") && text.ends_with(b"</svg>\n"),
        text.starts_with(b"page 2 on 30 off 0 back 0\n"),
        text.iter().filter(|octet| **octet == b'\n').count(),
    )
}

/// A picture begins and ends as a document; a page alone is as many rows as the sign has, and the line before them.
#[test]
fn a_picture_begins_and_ends_as_a_document(rt: HostRuntime) {
    for (svg, page) in [(true, None), (true, Some(2)), (false, Some(2))] {
        let (status, document, second, lines) = drawn(rt.alloc(), Drawing { svg, page });
        assert_eq!(rt; (status, document, second), (0, svg, !svg));
        assert!(rt; svg || lines == 15);
    }
}
