//! A call, carried out.

ghost use Rattle.std.specs.Prelude.{◌≡◌, ◌≢◌, ◌≤◌, ◌<◌, ◌++◌, List, ℕ, Option, codes, length, Ok, Err};
ghost use Rattle.std.specs.Prelude.{◌⊎◌, IfOk, IfErr, IfSome, OnOk, OnErr};
ghost use Rattle.hex.specs.declared.error.FromHexError.TheVariants.{OutOfMemory};
ghost use Rattle.std.specs.Io.KnownBytes.{Keeps};
ghost use Rattle.dms_text_streams.specs.Calls.{one_more};
ghost use Rattle.dms_text_streams.specs.DescriptionText.{longest_input};
ghost use Rattle.dms_replay.specs.RefusedScript.{IsRefusedIn};
ghost use Rattle.dms_replay.specs.Replayed.{Replayed, ReplayedPrefix, NoScript};
ghost use Rattle.signtool_acts.specs.Refused.{with_fault, is_write};
ghost use Rattle.hex.specs.Hex.{encode_lower, decode_of};
ghost use Rattle.dms_sign_text.specs.declared.reading_fault.ReplayFault.TheVariants as faults;
ghost use Rattle.signtool_print.specs.TextAnswers.{check_answer, pages_answer};
ghost use Rattle.signtool_print.specs.declared.statuses.ExitStatus.TheVariants.{Done};
ghost use Rattle.dms_text.specs.Lines.{kept_lines};
ghost use Rattle.dms_sign_text.specs.BenchSign.{bench_text};
ghost use Rattle.dms_sign_text.specs.Description.{Description, SpellsDescription, SpellsSign};
ghost use Rattle.dms_sign_text.specs.Setups.{IsMade};
ghost use Rattle.dms_sign.specs.Reply.{received};
ghost use Rattle.dms_sign.specs.ReplyView.{sent};
ghost use Rattle.signtool_print.specs.ExitNumbers.{exit_number};
ghost use Rattle.signtool_print.specs.Printed.{answer, EndsOrMemory, PrintsOrMemory};
ghost use Rattle.signtool_acts.specs.CallAnswers.{reply_answer, answer_to, CarriesOut, IsWanted, IsInputFault};
ghost use Rattle.signtool_acts.specs.CallAnswers.{IsRefused};
ghost use Rattle.dms_text_streams.specs.Lines.{left};
ghost use Rattle.signtool_acts.specs.RestoredBefore.{BeginsIn};
ghost use Rattle.signtool_acts.specs.RestoredCentre.{CentreBegins};
ghost use Rattle.signtool_acts.specs.CallAnswers.{OfSign, OfDigits, OfScript};

use crate::centre::live_centre;
use crate::inputs::{described_before, described_whole, replayed};
use crate::refusal::InputRefusal;
use crate::restored::{RestoreRefusal, restored_before};
use crate::restored_centre::{CentreRefusal, centre_restored_before};
use dms_agent::Agent;
use dms_agent_lines::LiveAgent;
use dms_centre_lines::LiveCentre;
use dms_replay::{ReplayFault, address, bench};
use dms_sign::{Receipt, Sign};
use dms_sign_text::Setup;
use dms_text_streams::{
    ConversationFault, Counted, Failed, Input, InputFault, Party, Sink, Source, converse,
};
use dms_wire::Out;
use hex::FromHexError;
use signtool_calls::{Call, Drawing, Form, SignWanted, StateWanted};
use signtool_print::{
    ExitStatus, activation, code, decode, list_items, print_count, print_hex_fault, print_made,
    print_memory, print_no_memory, print_pages, print_text, say_why_dropped, status,
};
use std::alloc::{AllocError, Global};
use std::io::{Read, Write};

/// The line of the program's name and version.
const VERSION: &[u8] = b"signtool 1.0.0\n";

/// Carries out the call over the program's standard input and output, and gives the exit status: 0 where it was done, 1
/// where it was refused or the output failed, 2 where the words are at fault. What is printed is that of `act_counted`,
/// over this writer with its failed calls counted.
pub fn act<R: Read, W: Write>(alloc: Global, call: &Call<'_>, reader: &mut R, writer: &mut W) -> u8
    ensures { (status : ExitStatus) × (result ≡ exit_number status) }
{
    act_counted(alloc, call, reader, &mut Counted::new(&mut *writer))
}

/// Carries out the call as `act` does, over an output that counts its failed calls.
pub fn act_counted<R: Read, W: Sink>(
    alloc: Global,
    call: &Call<'_>,
    reader: &mut R,
    writer: &mut W,
) -> u8
    ensures { (status : ExitStatus) × (result ≡ exit_number status)
        × CarriesOut call.now (R.remaining reader.old) (EndsOrMemory (W.contents writer.old) (W.contents writer.new)
        (W.failed writer.old) (W.failed writer.new) status) }
{
    act_saying(alloc, call, reader, writer, &mut Vec::new(alloc)).number()
}

/// Carries out the call as `act` does, and says in words on the standard error why something was refused or dropped.
pub fn act_saying<R: Read, W: Sink, E: Write>(
    alloc: Global,
    call: &Call<'_>,
    reader: &mut R,
    writer: &mut W,
    errors: &mut E,
) -> ExitStatus
    ensures { CarriesOut call.now (R.remaining reader.old) (EndsOrMemory (W.contents writer.old)
        (W.contents writer.new) (W.failed writer.old) (W.failed writer.new) result) }
{
    status(carry_out(alloc, call, reader, writer, errors))
}

/// Carries out the call over an output that counts its failures: the status of the call, or that a call of the output
/// failed.
pub fn carry_out<R: Read, W: Sink, E: Write>(
    alloc: Global,
    call: &Call<'_>,
    reader: &mut R,
    writer: &mut W,
    errors: &mut E,
) -> Result<ExitStatus, Failed>
    ensures { CarriesOut call.now (R.remaining reader.old) (PrintsOrMemory (W.contents writer.old)
        (W.contents writer.new) (W.failed writer.old) (W.failed writer.new) result) }
{
    match *call {
        Call::Answer { hex, sign } => print_answer(alloc, hex, sign, reader, writer, errors),
        Call::Check { text, sign, form } => match form {
            Form::Lines => print_check(alloc, text, sign, reader, writer, errors),
            Form::Json => print_check_json(alloc, text, sign, reader, writer, errors),
        },
        Call::Pages {
            text,
            sign,
            drawing,
        } => print_drawing(alloc, (text, sign, drawing), reader, writer, errors),
        Call::Decode { hex, spaced, form } => decode(alloc, (hex, spaced, form), writer, errors),
        Call::Items { text, form } => list_items(alloc, text, form, writer, errors),
        Call::Version => print_text(writer, VERSION, ExitStatus::Done),
        Call::Code(words) => {
            let address = address(words.terms.address.as_bytes());
            code(alloc, &words, address, writer, errors)
        }
        Call::Activation(words) => {
            let address = address(words.terms.address.as_bytes());
            activation(alloc, &words, address, writer, errors)
        }
        Call::Replay => print_report(alloc, reader, writer, errors),
        Call::Sign { sign, state } => be_sign(alloc, (sign, state), reader, writer, errors),
        Call::Centre { sign, state } => be_centre(alloc, (sign, state), reader, writer, errors),
    }
}

/// Answers the lines to a sign, and to what they publish beside it, that the standard input has, or has after the
/// sign's description and its state.
fn be_sign<R: Read, W: Sink, E: Write>(
    alloc: Global,
    (wanted, state): (SignWanted, StateWanted),
    reader: &mut R,
    writer: &mut W,
    errors: &mut E,
) -> Result<ExitStatus, Failed> {
    let Ok(mut input) = Input::new(alloc, Counted::new(&mut *reader)) else {
        return print_memory(writer, errors);
    };
    let setup = match live_setup(alloc, wanted, &mut input) {
        Ok(setup) => setup,
        Err(refusal) => return refusal.refuse(alloc, writer, errors),
    };
    match sign_in(alloc, state, setup.sign, &mut input) {
        Ok(sign) => {
            let agent = Agent::new(alloc, sign);
            talk(alloc, LiveAgent::new(agent), &mut input, writer, errors)
        }
        Err(refusal) => refusal.refuse(alloc, writer, errors),
    }
}

/// The sign as it is made, or in the state that the input says before the conversation.
fn sign_in<S: Source>(
    alloc: Global,
    state: StateWanted,
    sign: Sign,
    input: &mut Input<S>,
) -> Result<Sign, RestoreRefusal>
    ensures sign { IfOk result
        (λ s. BeginsIn state (left S.remaining input.old) sign s (left S.remaining input.new)) }
{
    match state {
        StateWanted::New => Ok(sign),
        StateWanted::Restored => restored_before(alloc, sign, input),
    }
}

/// Answers the lines to a sign's central system that the standard input has, or has after the sign's description and
/// the central system's state.
fn be_centre<R: Read, W: Sink, E: Write>(
    alloc: Global,
    (wanted, state): (SignWanted, StateWanted),
    reader: &mut R,
    writer: &mut W,
    errors: &mut E,
) -> Result<ExitStatus, Failed> {
    let Ok(mut input) = Input::new(alloc, Counted::new(&mut *reader)) else {
        return print_memory(writer, errors);
    };
    let setup = match live_setup(alloc, wanted, &mut input) {
        Ok(setup) => setup,
        Err(refusal) => return refusal.refuse(alloc, writer, errors),
    };
    match centre_in(alloc, state, &setup, &mut input) {
        Ok(centre) => talk(alloc, centre, &mut input, writer, errors),
        Err(refusal) => refusal.refuse(alloc, writer, errors),
    }
}

/// The central system as it is made, or in the state that the input says before the conversation.
fn centre_in<S: Source>(
    alloc: Global,
    state: StateWanted,
    setup: &Setup,
    input: &mut Input<S>,
) -> Result<LiveCentre, CentreRefusal>
    ensures centre { IfOk result
        (λ s. CentreBegins state (left S.remaining input.old) setup.now s (left S.remaining input.new)) }
{
    match state {
        StateWanted::New => live_centre(alloc, setup).or(Err(CentreRefusal::Input(
            InputFault::Memory,
        ))),
        StateWanted::Restored => centre_restored_before(alloc, setup, input),
    }
}

/// The sign that a conversation is about, which may be described before the conversation.
fn live_setup<S: Source>(
    alloc: Global,
    wanted: SignWanted,
    input: &mut Input<S>,
) -> Result<Setup, InputRefusal> {
    match wanted {
        SignWanted::Bench => bench(alloc).map_err(InputRefusal::from),
        SignWanted::Described => described_before(alloc, input),
    }
}

/// Answers the lines that are left of the input. Why it ends before them is said in words too.
fn talk<P: Party + Drop, S: Source, W: Sink, E: Write>(
    alloc: Global,
    mut party: P,
    input: &mut Input<S>,
    writer: &mut W,
    errors: &mut E,
) -> Result<ExitStatus, Failed> {
    match converse(alloc, &mut party, input, writer) {
        Ok(()) => Ok(ExitStatus::Done),
        Err(ConversationFault::Write) => Err(Failed),
        Err(fault) => print_talk_fault(alloc, fault, writer, errors),
    }
}

/// Prints why a conversation ended before its input did, and says so in words too.
fn print_talk_fault<W: Sink, E: Write>(
    alloc: Global,
    fault: ConversationFault,
    writer: &mut W,
    errors: &mut E,
) -> Result<ExitStatus, Failed> {
    match talk_fault_line(alloc, fault) {
        Ok(line) => {
            say_talk_fault(fault, errors);
            print_made(writer, line, ExitStatus::Refused)
        }
        Err(_) => print_memory(writer, errors),
    }
}

fn say_talk_fault<E: Write>(fault: ConversationFault, errors: &mut E) {
    let _ = match fault {
        ConversationFault::Read => writeln!(errors, "the standard input could not be read"),
        ConversationFault::Write => Ok(()),
        ConversationFault::TooLong => writeln!(errors, "the standard input is too long"),
        ConversationFault::Memory => writeln!(errors, "there is not enough memory"),
    };
}

fn talk_fault_line(alloc: Global, fault: ConversationFault) -> Result<Vec<u8>, AllocError> {
    let mut line = Vec::new(alloc);
    writeln!(line, "{fault}").or(Err(AllocError))?;
    Ok(line)
}

/// The sign that a call is about, and the number of its centre's first request.
fn setup<R: Read>(alloc: Global, wanted: SignWanted, reader: &mut R) -> Result<Setup, InputRefusal>
    ensures sign { IfOk result (IsWanted wanted (R.remaining reader.old)) }
    ensures fault { IfErr result (λ refusal. IsRefused wanted (R.remaining reader.old) refusal.fault) }
{
    match wanted {
        SignWanted::Bench => bench_setup(alloc),
        SignWanted::Described => described_setup(alloc, reader),
    }
}

/// The bench sign.
fn bench_setup(alloc: Global) -> Result<Setup, InputRefusal>
    ensures sign { IfOk result (λ setup. (it : Description) × SpellsSign (kept_lines bench_text) it × IsMade it setup) }
    ensures memory { IfErr result (λ refusal. refusal.fault ≡ faults.Memory) }
{
    Ok(bench(alloc)?)
}

/// The sign that the whole input describes.
fn described_setup<R: Read>(alloc: Global, reader: &mut R) -> Result<Setup, InputRefusal>
    ensures sign { IfOk result (λ setup. IfSome (R.remaining reader.old) (λ octets.
        (it : Description) × SpellsDescription octets it × IsMade it setup)) }
    ensures fault { IfErr result (λ refusal. IsInputFault (R.remaining reader.old) refusal.fault) }
{
    described_whole(alloc, &mut Counted::new(&mut *reader))
}

/// Prints the report of the script on the standard input.
fn print_report<R: Read, W: Sink, E: Write>(
    alloc: Global,
    reader: &mut R,
    writer: &mut W,
    errors: &mut E,
) -> Result<ExitStatus, Failed>
    ensures { OfScript (R.remaining reader.old) (PrintsOrMemory (W.contents writer.old) (W.contents writer.new)
        (W.failed writer.old) (W.failed writer.new) result) }
{
    match report_script(alloc, reader, writer) {
        Ok(()) => Ok(ExitStatus::Done),
        Err(refusal) if is_write(refusal.fault) => Err(Failed),
        Err(refusal) => refusal.refuse(alloc, writer, errors),
    }
}

/// Whether the output failed.
fn is_write(fault: ReplayFault) -> bool
    ensures { result ≡ is_write fault }
{
    match fault {
        ReplayFault::Write => true,
        ReplayFault::Read => false,
        ReplayFault::Line(_) => false,
        ReplayFault::TooLong => false,
        ReplayFault::Memory => false,
    }
}

/// Writes the report of the script on the standard input.
fn report_script<R: Read, W: Sink>(
    alloc: Global,
    reader: &mut R,
    writer: &mut W,
) -> Result<(), InputRefusal>
    ensures report { OnOk result (IfSome (R.remaining reader.old) (λ octets.
        Replayed octets (W.contents writer.old) (W.contents writer.new))) }
    ensures prefix { with_fault result ≡ Err faults.Write → IfSome (R.remaining reader.old) (λ octets.
        ReplayedPrefix octets (W.contents writer.old) (W.contents writer.new)) }
    ensures nothing { OnErr result (with_fault result ≢ Err faults.Write
        → Keeps (W.contents writer.old) (W.contents writer.new)) }
    ensures line { (number : ℕ) → with_fault result ≡ Err (faults.Line number)
        → IfSome (R.remaining reader.old) (λ octets. (length octets ≤ longest_input) × NoScript octets) }
    ensures number { (number : ℕ) → with_fault result ≡ Err (faults.Line number)
        → IfSome (R.remaining reader.old) (λ octets. IsRefusedIn octets number) }
    ensures too_long { with_fault result ≡ Err faults.TooLong → IfSome (R.remaining reader.old) (λ octets.
        longest_input < length octets) }
    ensures write { with_fault result ≡ Err faults.Write → W.failed writer.new ≡ one_more (W.failed writer.old) }
    ensures all_written { with_fault result ≢ Err faults.Write → W.failed writer.new ≡ W.failed writer.old }
{
    replayed(alloc, &mut Counted::new(&mut *reader), writer)
}

/// Prints the sign's reply to a datagram, in lower case hexadecimal digits.
fn print_answer<R: Read, W: Sink, E: Write>(
    alloc: Global,
    digits: &str,
    sign: SignWanted,
    reader: &mut R,
    writer: &mut W,
    errors: &mut E,
) -> Result<ExitStatus, Failed>
    ensures { OfDigits sign (R.remaining reader.old) (PrintsOrMemory (W.contents writer.old) (W.contents writer.new)
        (W.failed writer.old) (W.failed writer.new) result)
        (decode_of digits.now) }
{
    match octets_of(alloc, digits) {
        Ok(datagram) => print_reply_of(alloc, datagram, sign, reader, writer, errors),
        Err(fault) => print_hex_fault(Form::Lines, (digits, fault), writer, errors),
    }
}

/// The octets that hexadecimal digits are.
fn octets_of(alloc: Global, digits: &str) -> Result<Vec<u8>, FromHexError>
    ensures octets { IfOk result (λ octets. decode_of digits.now ≡ Ok octets.items) }
    ensures fault { IfErr result (λ fault. (fault ≡ OutOfMemory) ⊎ (decode_of digits.now ≡ Err fault)) }
{
    hex::decode(alloc, digits.as_bytes())
}

/// Prints the reply of the sign that is wanted to a datagram.
fn print_reply_of<R: Read, W: Sink, E: Write>(
    alloc: Global,
    datagram: Vec<u8>,
    sign: SignWanted,
    reader: &mut R,
    writer: &mut W,
    errors: &mut E,
) -> Result<ExitStatus, Failed>
    ensures { OfSign sign (R.remaining reader.old) (PrintsOrMemory (W.contents writer.old) (W.contents writer.new)
        (W.failed writer.old) (W.failed writer.new) result)
        (answer_to datagram.items) }
{
    match setup(alloc, sign, reader) {
        Ok(setup) => print_reply(alloc, setup.sign, datagram.as_slice(), writer, errors),
        Err(refusal) => refusal.refuse(alloc, writer, errors),
    }
}

/// Prints a sign's reply to a datagram.
fn print_reply<W: Sink, E: Write>(
    alloc: Global,
    sign: Sign,
    datagram: &[u8],
    writer: &mut W,
    errors: &mut E,
) -> Result<ExitStatus, Failed>
    ensures { PrintsOrMemory (W.contents writer.old) (W.contents writer.new) (W.failed writer.old)
        (W.failed writer.new) result (reply_answer (received sign datagram.now).reply) }
{
    let mut sign = sign;
    let mut reply = Out::new();
    let receipt = sign.receive(datagram, &mut reply);
    if receipt == Receipt::Dropped {
        say_why_dropped(datagram, errors);
    }
    print_receipt(alloc, receipt, &reply, writer, errors)
}

/// Prints what was sent.
fn print_receipt<W: Sink, E: Write>(
    alloc: Global,
    receipt: Receipt,
    reply: &Out,
    writer: &mut W,
    errors: &mut E,
) -> Result<ExitStatus, Failed>
    ensures { (wanted : Option (List ℕ)) → sent receipt reply.now.items ≡ wanted
        → PrintsOrMemory (W.contents writer.old) (W.contents writer.new) (W.failed writer.old) (W.failed writer.new)
        result (reply_answer wanted) }
{
    match receipt {
        Receipt::Dropped => print_text(writer, b"dropped\n", ExitStatus::Refused),
        Receipt::Replied => print_octets(alloc, reply.as_slice(), writer, errors),
        Receipt::Accepted(_) => print_octets(alloc, reply.as_slice(), writer, errors),
    }
}

fn print_octets<W: Sink, E: Write>(
    alloc: Global,
    octets: &[u8],
    writer: &mut W,
    errors: &mut E,
) -> Result<ExitStatus, Failed>
    ensures { (wanted : List ℕ) → octets.now ≡ wanted → PrintsOrMemory (W.contents writer.old) (W.contents writer.new)
        (W.failed writer.old) (W.failed writer.new) result (answer Done (encode_lower wanted ++ codes "\n")) }
{
    match digits_line(alloc, octets) {
        Ok(line) => print_made(writer, line, ExitStatus::Done),
        Err(_) => print_memory(writer, errors),
    }
}

/// The line of octets in hexadecimal digits.
fn digits_line(alloc: Global, octets: &[u8]) -> Result<Vec<u8>, AllocError>
    ensures { IfOk result (λ line. line.items ≡ encode_lower octets.now ++ codes "\n") }
{
    let digits = hex::encode(alloc, octets)?;
    let mut line = Vec::new(alloc);
    writeln!(line, "{digits}").or(Err(AllocError))?;
    Ok(line)
}

/// Prints the number of a text's pages on the sign, or its fault.
fn print_check<R: Read, W: Sink, E: Write>(
    alloc: Global,
    text: &str,
    sign: SignWanted,
    reader: &mut R,
    writer: &mut W,
    errors: &mut E,
) -> Result<ExitStatus, Failed>
    ensures { OfSign sign (R.remaining reader.old) (PrintsOrMemory (W.contents writer.old) (W.contents writer.new)
        (W.failed writer.old) (W.failed writer.new) result)
        (λ sign. check_answer sign.config.face text.now) }
{
    match setup(alloc, sign, reader) {
        Ok(setup) => { print_count(alloc, text, setup.sign.face(), Form::Lines, writer, errors) }
        Err(refusal) => refusal.refuse(alloc, writer, errors),
    }
}

/// Prints the same as an object of JSON.
fn print_check_json<R: Read, W: Sink, E: Write>(
    alloc: Global,
    text: &str,
    sign: SignWanted,
    reader: &mut R,
    writer: &mut W,
    errors: &mut E,
) -> Result<ExitStatus, Failed> {
    match setup(alloc, sign, reader) {
        Ok(setup) => print_count(alloc, text, setup.sign.face(), Form::Json, writer, errors),
        Err(refusal) => {
            let _ = refusal.say(errors);
            match refused_object(alloc, refusal.fault) {
                Ok(object) => print_made(writer, object, ExitStatus::Refused),
                Err(_) => print_no_memory(Form::Json, writer, errors),
            }
        }
    }
}

fn refused_object(alloc: Global, fault: ReplayFault) -> Result<Vec<u8>, AllocError> {
    let mut object = Vec::new(alloc);
    writeln!(object, "{{\"refused\":\"{fault}\"}}").or(Err(AllocError))?;
    Ok(object)
}

/// Prints the pages of a text on the sign, or its fault.
fn print_drawing<R: Read, W: Sink, E: Write>(
    alloc: Global,
    words: (&str, SignWanted, Drawing),
    reader: &mut R,
    writer: &mut W,
    errors: &mut E,
) -> Result<ExitStatus, Failed>
    ensures { OfSign words.entry.1 (R.remaining reader.old) (PrintsOrMemory (W.contents writer.old)
        (W.contents writer.new) (W.failed writer.old) (W.failed writer.new) result)
        (λ sign. pages_answer sign.config.face words.entry.0.now words.entry.2) }
{
    let (text, sign, drawing) = words;
    match setup(alloc, sign, reader) {
        Ok(setup) => print_pages(alloc, text, setup.sign.face(), drawing, writer, errors),
        Err(refusal) => refusal.refuse(alloc, writer, errors),
    }
}
