//! The answer of a live sign to a line.

ghost use Rattle.std.specs.Prelude.{◌≡◌, ◌++◌, ◌+◌, ◌≤◌, codes, length, vec_len, vec_capacity};
ghost use Rattle.std.specs.Prelude.{IfOk, OnOk, OnErr, IsTrue};
ghost use Rattle.hex.specs.Hex.{encode_lower};
ghost use Rattle.dms_wire_ber.specs.Limits.{longest_datagram};
ghost use Rattle.dms_sign.specs.Reply.{received};
ghost use Rattle.dms_sign.specs.ReplyView.{sent, accepted_by};
ghost use Rattle.dms_text_forms.specs.LineText.{ended};
ghost use Rattle.dms_sign_text.specs.ShownLine.{shown_line};
ghost use Rattle.dms_sign_state.specs.StateText.{text_of_state};
ghost use Rattle.dms_face_pages.specs.PageText.{pages_text};
ghost use Rattle.dms_text_streams.specs.Conversation.{ok_line};
ghost use Rattle.dms_sign_lines.specs.CallView.{call_model};
ghost use Rattle.dms_sign_lines.specs.Answer.{answer_text, after_line, call_text, after_call};
ghost use Rattle.dms_sign_lines.specs.Answer.{receipt_line, received_line, longest_receipt_line};
ghost use Rattle.dms_sign_lines.specs.Answer.{has_pages, shown_pages};

use crate::sign_call::{SignCall, call};
use dms_codes::Order;
use dms_face_pages::{Page, PagesFault, pages_with, put_pages};
use dms_sign::{Receipt, Sign};
use dms_sign_state::saved;
use dms_sign_text::put_shown;
use dms_text_causes::bad_line;
use dms_text_streams::{ok_line, put, put_digits};
use dms_wire::{MAX_DATAGRAM, Out};
use std::alloc::{AllocError, Global};
use std::io;
use std::io::Write;

/// The octets of the longest answer to a datagram: `accepted`, a code of twelve octets, those of a reply, two spaces
/// and a newline.
pub const LONGEST_RECEIPT: usize = 8 + 2 * 12 + 2 * MAX_DATAGRAM + 3;

/// The answer to a line, which is given without its newline; each line of the answer ends in one. A line is its words
/// with one space between two, so that a carriage return belongs to the last word:
///
/// ```text
/// datagram OCTETS      the sign receives it: `reply OCTETS`, `accepted CODE OCTETS` or `dropped`
/// tick                 a second passes: `ok`
/// ticks SECONDS        so many seconds pass, 0 to 4294967295, as by so many lines `tick`: `ok`. They are counted one
///                      by one while one changes something: for two seconds more than is left of a duration, or than
///                      the longest silence
/// heard                what a Get or a GetNext leaves that is answered, the end of the silence: `ok`
/// power-lost           the power is lost: `ok`
/// power-back SECONDS   the power is back after so many seconds, 0 to 4294967295: `ok`
/// show                 the pages of what is shown, and `ok`
/// state                the line of what is shown, as a report has it, and `ok`
/// save                 the text of the sign's state, and `ok`
/// ```
///
/// Any other line is answered `bad line` and why it is none of these, as `bad line word 2: no more words are wanted`,
/// and changes nothing. Octets are pairs of hexadecimal digits, or `-` for none. Out of memory nothing changes either:
/// what an answer needs is reserved before the sign is called.
pub fn answer(alloc: Global, sign: &mut Sign, line: &[u8]) -> Result<Vec<u8>, AllocError>
    ensures text { IfOk result (λ text. text.items ≡ answer_text sign.old line.now) }
    ensures after { OnOk result (sign.new ≡ after_line sign.old line.now) }
    ensures memory { OnErr result (sign.new ≡ sign.old) }
{
    match call(alloc, line)? {
        Ok(call) => carry_out(alloc, sign, &call),
        Err(cause) => bad_line(alloc, cause),
    }
}

/// Carries out a call, and gives its answer.
fn carry_out(alloc: Global, sign: &mut Sign, call: &SignCall) -> Result<Vec<u8>, AllocError>
    ensures text { IfOk result (λ text. text.items ≡ call_text sign.old (call_model call.now)) }
    ensures after { OnOk result (sign.new ≡ after_call sign.old (call_model call.now)) }
    ensures memory { OnErr result (sign.new ≡ sign.old) }
{
    match call {
        SignCall::Datagram(octets) => receive(alloc, sign, octets.as_slice()),
        SignCall::Tick => {
            let done = ok_line(alloc)?;
            sign.tick();
            Ok(done)
        }
        SignCall::Ticks(seconds) => {
            let done = ok_line(alloc)?;
            sign.pass(*seconds);
            Ok(done)
        }
        SignCall::Heard => {
            let done = ok_line(alloc)?;
            sign.heard();
            Ok(done)
        }
        SignCall::PowerLost => {
            let done = ok_line(alloc)?;
            sign.power_lost();
            Ok(done)
        }
        SignCall::PowerBack(seconds) => {
            let done = ok_line(alloc)?;
            sign.power_back(*seconds);
            Ok(done)
        }
        SignCall::Show => show(alloc, sign),
        SignCall::State => state(alloc, sign),
        SignCall::Save => save(alloc, sign),
    }
}

/// The sign receives a datagram. The memory of the longest answer is reserved before that.
fn receive(alloc: Global, sign: &mut Sign, datagram: &[u8]) -> Result<Vec<u8>, AllocError>
    ensures text { IfOk result
        (λ text. text.items ≡ received_line sign.old.table.order (received sign.old datagram.now)) }
    ensures after { OnOk result (sign.new ≡ (received sign.old datagram.now).after) }
    ensures memory { OnErr result (sign.new ≡ sign.old) }
{
    let order = sign.order();
    let mut text = Vec::with_capacity(alloc, LONGEST_RECEIPT)?;
    let mut reply = Out::new();
    let receipt = sign.receive(datagram, &mut reply);
    put_receipt(&mut text, order, receipt, reply.as_slice());
    Ok(text)
}

/// Appends what came of a datagram, for which there is room.
pub fn put_receipt(text: &mut Vec<u8>, order: Order, receipt: Receipt, reply: &[u8])
    requires short { length reply.now ≤ longest_datagram }
    requires room { vec_len text.old + longest_receipt_line ≤ vec_capacity text.old }
    ensures { text.new.items ≡ text.old.items ++ receipt_line order (sent receipt reply.now) (accepted_by receipt) }
{
    match receipt {
        Receipt::Dropped => put(text, b"dropped\n"),
        Receipt::Replied => put_reply(text, reply),
        Receipt::Accepted(code) => put_accepted(text, &code.to_bytes(order), reply),
    }
}

fn put_reply(text: &mut Vec<u8>, reply: &[u8])
    requires short { length reply.now ≤ longest_datagram }
    requires room { vec_len text.old + longest_receipt_line ≤ vec_capacity text.old }
    ensures { text.new.items ≡ text.old.items ++ ended (codes "reply " ++ encode_lower reply.now) }
{
    put(text, b"reply ");
    put_digits(text, reply);
    put(text, b"\n");
}

fn put_accepted(text: &mut Vec<u8>, code: &[u8], reply: &[u8])
    requires code { length code.now ≡ 12 }
    requires short { length reply.now ≤ longest_datagram }
    requires room { vec_len text.old + longest_receipt_line ≤ vec_capacity text.old }
    ensures { text.new.items ≡ text.old.items
        ++ ended (codes "accepted " ++ encode_lower code.now ++ codes " " ++ encode_lower reply.now) }
{
    put(text, b"accepted ");
    put_digits(text, code);
    put(text, b" ");
    put_digits(text, reply);
    put(text, b"\n");
}

/// The pages of what is shown.
fn show(alloc: Global, sign: &Sign) -> Result<Vec<u8>, AllocError>
    ensures { IfOk result (λ text. text.items ≡ pages_text (shown_pages sign.now) ++ ok_line) }
{
    let pages = shown_pages(alloc, sign)?;
    let mut text = Vec::new(alloc);
    put_show(&mut text, pages.as_slice())?;
    Ok(text)
}

/// The pages of what is shown, under the copy of the defaults that belongs to it. Where it has none no memory is asked
/// for.
pub fn shown_pages(alloc: Global, sign: &Sign) -> Result<Vec<Page>, AllocError>
    ensures pages { IfOk result (λ pages. pages.items ≡ shown_pages sign.now) }
    ensures memory { OnErr result (IsTrue (has_pages sign.now)) }
{
    let shown = sign.shown();
    if !shown.defaults.fits(sign.face()) {
        return Ok(Vec::new(alloc));
    }
    match pages_with(alloc, sign.face(), &shown.defaults, shown.text.as_slice()) {
        Ok(pages) => Ok(pages),
        Err(PagesFault::Multi(_)) => Ok(Vec::new(alloc)),
        Err(PagesFault::Memory) => Err(AllocError),
    }
}

fn put_show(text: &mut Vec<u8>, pages: &[Page]) -> Result<(), AllocError>
    ensures { OnOk result (text.new.items ≡ text.old.items ++ (pages_text pages.now ++ ok_line)) }
{
    put_pages(text, pages)?;
    text.extend_from_slice(b"ok\n")
}

/// The line of what is shown.
fn state(alloc: Global, sign: &Sign) -> Result<Vec<u8>, AllocError>
    ensures { IfOk result (λ text. text.items ≡ shown_line sign.now.shown ++ ok_line) }
{
    let mut text = Vec::new(alloc);
    match put_state(alloc, &mut text, sign) {
        Ok(()) => Ok(text),
        Err(_) => Err(AllocError),
    }
}

fn put_state(alloc: Global, text: &mut Vec<u8>, sign: &Sign) -> io::Result<()>
    ensures { OnOk result (text.new.items ≡ text.old.items ++ (shown_line sign.now.shown ++ ok_line)) }
{
    put_shown(alloc, text, sign.shown())?;
    writeln!(text, "ok")
}

/// The text of the sign's state.
fn save(alloc: Global, sign: &Sign) -> Result<Vec<u8>, AllocError>
    ensures { IfOk result (λ text. text.items ≡ text_of_state sign.now ++ ok_line) }
{
    let mut text = saved(alloc, sign)?;
    text.extend_from_slice(b"ok\n")?;
    Ok(text)
}
