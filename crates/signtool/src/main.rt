//! A dynamic message sign's controller and its central system on the command line.
//!
//! `signtool CALL ..` hands its words to signtool_cli, and the call that they are, its input and its outputs to
//! signtool_acts. This page says what can be asked of it, each call with what it prints. The rules behind the answers
//! are those of docs/PROFILE.md.
//!
//! # Which sign
//!
//! The sign is the bench sign: 23 columns and 14 rows of lamps, two fonts, one permanent message `B`. With `--sign` it
//! is the one that the standard input describes, as the files of signs/ do:
//!
//! ```sh
//! signtool check --sign "ROAD WORK[nl]1 KM AHEAD" < signs/roadside.sign
//! ```
//!
//! ```text
//! ok pages 1
//! ```
//!
//! # Datagrams
//!
//! `answer [--sign] HEX` prints the sign's reply to a datagram. Octets are two hexadecimal digits each, with nothing
//! between them. Here a manager asks a sign for dmsMessageStatus.3.1, the status of the first changeable message:
//!
//! ```sh
//! signtool answer 302e02010004067075626c6963a0210201010201000201003016301406102b0601040189360402030508010903010500
//! ```
//!
//! ```text
//! 302f02010004067075626c6963a2220201010201000201003017301506102b060104018936040203050801090301020101
//! ```
//!
//! A datagram that a sign leaves without a reply prints `dropped`. `decode HEX` prints the fields of a datagram of
//! either end, one a line; a name of one of the sign's objects has the object and its instance beside it:
//!
//! ```text
//! kind Get
//! community 7075626c6963 "public"
//! request-id 1
//! error-status 0
//! error-index 0
//! binding 1.3.6.1.4.1.1206.4.2.3.5.8.1.9.3.1 (dmsMessageStatus.3.1): NULL
//! ```
//!
//! Octets that spell no message have their first fault and the offset of the octet at which it is reported:
//! `signtool decode 300a` prints `fault truncated at octet 2`. `decode --spaced HEX` takes octets with spaces and
//! colons between them, as Wireshark copies them: `signtool decode --spaced 30:0a` prints the same.
//!
//! # Texts
//!
//! `items TEXT` prints what a MULTI text is made of, each item after its offset in octets.
//! `signtool items "A[pt20o0]B[nl]C"`:
//!
//! ```text
//! 0 character 65
//! 1 page time 20 0
//! 9 character 66
//! 10 new line default
//! 14 character 67
//! ```
//!
//! `check [--sign] TEXT` prints the number of its pages on the sign, or the fault that keeps it from being shown, under
//! its number in NTCIP 1203: `signtool check "A[np]B"` prints `ok pages 2`, and `signtool check a` prints
//! `fault 7 at 0`, since no font of the bench sign has a picture of `a`.
//!
//! `pages [--sign] TEXT` draws each page: its number, its times in tenths of a second and its background, and then a
//! line for each row of lamps, with `.` for a lamp that is not lit and the digit of its colour for one that is.
//! `signtool pages A` begins:
//!
//! ```text
//! page 1 on 30 off 0 back 0
//! ..........999..........
//! .........9...9.........
//! .........9...9.........
//! .........99999.........
//! ```
//!
//! `--page K` prints the K-th page alone. `--svg` prints a picture in place of the digits, which a browser plays: its
//! pages take turns and what flashes does.
//!
//! `decode`, `items` and `check` print one object of JSON with `--json`: `signtool check --json "A[np]B"` prints
//! `{"pages":2}`.
//!
//! # Codes
//!
//! `code TYPE NUMBER TEXT` prints a message's checksum and the code that activates it. The options `--beacon`,
//! `--pixel`, `--swapped`, `--duration`, `--priority` and `--address` say the rest.
//! `signtool code 3 1 A --address 192.0.2.1`:
//!
//! ```text
//! crc 9a66
//! code ffffff0300019a66c0000201
//! ```
//!
//! `activation MEMORY NUMBER CHECKSUM` prints the code alone, of a message that is known by its checksum: also of a
//! blank message, whose checksum is `0000`, and of what is shown. `signtool activation 7 1 0000` prints
//! `code ffffff070001000000000000`.
//!
//! # Runs of both ends
//!
//! `replay` runs the script on the standard input, a sign and a centre that send each other datagrams, and prints the
//! report: what was sent, what the sign shows, which codes it accepted, and the centre's ledger. Here the operator
//! orders a blank sign:
//!
//! ```sh
//! printf 'bench\nblank 1 65535 255 192.0.2.1\ncentre-tick\nto-sign 0\nto-centre 0\n' | signtool replay
//! ```
//!
//! ```text
//! events 4
//! sent 1 1
//! shown 7 1 0000 mode 8 priority 1 remaining 65535 text -
//! accepted 3 ffffff0700010000c0000201
//! ledger 1 ffffff0700010000c0000201 accepted
//! ```
//!
//! # Live ends
//!
//! `sign [--sign]` and `centre [--sign]` are a sign and a central system that other programs speak to, a line each way:
//! `tick`, `show`, `status`, `datagram HEX` and the like. Each line is answered before the next one is read, and a line
//! that asks for nothing that they know is answered `bad line` and why. `printf 'status\ntick\n' | signtool centre`:
//!
//! ```text
//! idle
//! last none
//! ok
//! ok
//! ```
//!
//! # Faults
//!
//! The exit status is 0 where the call printed its answer, 1 where the answer is a refusal (a fault of a text or a
//! datagram, a line of a description or a script that is wrong, no memory, an output that could not be written), and 2
//! where the command line is no call, is `--help`, or has digits or an address that cannot be read. Why a text is
//! refused or a datagram is dropped is said in words on standard error.
#![tactic(auto)]

use signtool_acts::{Counted, ExitStatus, act_saying};
use signtool_cli::asked;
use std::env::{Env, FillError};
use std::io;
use std::process::ExitCode;

/// The most octets of a word that Linux hands to a program.
const LONGEST_WORD: usize = 131_072;

fn main(rt: HostRuntime) -> ExitCode {
    let words = match words(&rt) {
        Ok(words) => words,
        Err(error) => {
            let _ = match word_without_text(&rt) {
                Some(number) => eprintln!(rt; "word {number} of the command line is no text"),
                None => eprintln!(rt; "the words of the command line: {error}"),
            };
            return ExitCode::from(ExitStatus::Misused.number());
        }
    };
    let status = match asked(rt.alloc(), words.as_slice()) {
        Ok(call) => act_saying(
            rt.alloc(),
            &call,
            &mut rt.stdin(),
            &mut Counted::new(rt.stdout()),
            &mut rt.stderr(),
        ),
        Err(usage) => {
            let _ = eprint!(rt; "{usage}");
            ExitStatus::Misused
        }
    };
    ExitCode::from(status.number())
}

/// The number of the first word that is no text, from 1; the program's name is word 0. None is found where there is no
/// memory to look.
fn word_without_text(rt: &HostRuntime) -> Option<usize> {
    let mut octets = vec![in rt.alloc(); 0; LONGEST_WORD].ok()?;
    for number in 0..usize::MAX {
        match rt.arg(number, octets.as_mut_slice()) {
            Ok(length) => {
                if str::from_utf8(&octets.as_slice()[..length]).is_err() {
                    return Some(number);
                }
            }
            Err(FillError::TooLong) => {}
            Err(FillError::NotPresent) => return None,
        }
    }
    None
}

/// The words of the command line. Words that are no text are a fault of the command line.
fn words(rt: &HostRuntime) -> io::Result<Vec<String>> {
    Ok(std::env::args(rt)?.collect(rt.alloc())?)
}
