//! A conversation by lines.

ghost use Rattle.std.specs.Prelude.{◌≡◌, ◌≢◌, ◌^◌, ◌-◌, ◌≤◌, ℕ, take, length, Err, IfOk, IfErr, OnOk, OnErr, IfSome};
ghost use Rattle.std.specs.Io.KnownBytes.{Appends, Keeps};
ghost use Rattle.std.specs.Str.Lines.{lines, strip_carriage_return};
ghost use Rattle.dms_text_streams.specs.Calls.{one_more};
ghost use Rattle.dms_text_streams.specs.Prefixes.{AppendsPrefix};
ghost use Rattle.dms_text_streams.specs.Lines.{left, line_of, held, Breaks, Takes};
ghost use Rattle.dms_text_streams.specs.Conversation.{AnswersWholeLines, AnswersInPart, bad_line};
ghost use Rattle.dms_text_streams.specs.Conversation.{answered, left_by, answers, left_by_all};
ghost use Rattle.dms_text_streams.specs.declared.fault.ConversationFault.TheVariants as faults;

use crate::answers::bad_line;
use crate::fault::ConversationFault;
use crate::input::Input;
use crate::party::Party;
use crate::sink::Sink;
use crate::source::Source;
use crate::writing::write_whole;
use std::alloc::{AllocError, Global};

/// The most octets of a line, without its newline and a carriage return before it.
pub const LONGEST_LINE: usize = 65_536;

/// A line has at most as many octets with its newline and a carriage return before it; one more shows that it is too
/// long.
const HELD: usize = LONGEST_LINE + 3;

/// Answers each line of the input, in turn, until the input ends. A line of more than 65,536 octets is answered `bad
/// line`, and changes nothing. Each answer is written before the next line is asked for; no more than a line and an
/// answer is held in memory.
///
/// At the end of the input the party is what all its lines leave. Where a read fails or memory runs out it is what
/// the first lines leave, whose whole answers were written; where a write fails, what these leave and the line whose
/// answer was not written to its end, and the lines after that one are left of the input.
#[tactic(auto, using(crate::proofs::Turns::turns))]
pub fn converse<P: Party, S: Source, W: Sink>(
    alloc: Global,
    party: &mut P,
    input: &mut Input<S>,
    sink: &mut W,
) -> Result<(), ConversationFault>
    ensures answers { OnOk result (IfSome (left S.remaining input.old) (λ octets. Appends (W.contents sink.old)
        (W.contents sink.new) (answers P.reply P.after (P.state party.old) (lines octets)))) }
    ensures after { OnOk result (IfSome (left S.remaining input.old) (λ octets.
        P.state party.new ≡ left_by_all P.after (P.state party.old) (lines octets))) }
    ensures prompt { result ≡ Err faults.Read → IfSome (left S.remaining input.old)
        (λ octets. IfSome (left S.remaining input.new) (λ rest. AnswersWholeLines P.reply P.after (P.state party.old)
        (P.state party.new) octets rest (W.contents sink.old) (W.contents sink.new))) }
    ensures whole { OnErr result (result ≢ Err faults.Write → result ≢ Err faults.Read
        → IfSome (left S.remaining input.old) (λ octets. (count : ℕ) × Appends (W.contents sink.old)
        (W.contents sink.new) (answers P.reply P.after (P.state party.old) (take count (lines octets)))
        × (P.state party.new ≡ left_by_all P.after (P.state party.old) (take count (lines octets))))) }
    ensures in_part { result ≡ Err faults.Write → IfSome (left S.remaining input.old) (λ octets. AnswersInPart P.reply
        P.after (P.state party.old) (P.state party.new) octets (left S.remaining input.new) (W.contents sink.old)
        (W.contents sink.new)) }
    ensures too_long { result ≡ Err faults.TooLong
        → IfSome (left S.remaining input.old) (λ octets. 2 ^ 64 - 1 ≤ length octets) }
    ensures read { result ≡ Err faults.Read → S.failed input.new.source ≡ one_more (S.failed input.old.source) }
    ensures all_read { result ≢ Err faults.Read → S.failed input.new.source ≡ S.failed input.old.source }
    ensures write { result ≡ Err faults.Write → W.failed sink.new ≡ one_more (W.failed sink.old) }
    ensures all_written { result ≢ Err faults.Write → W.failed sink.new ≡ W.failed sink.old }
{
    let mut line = Vec::new(alloc);
    for _ in 0..u64::MAX {
        match next_line(input, &mut line) {
            Ok(()) => {}
            Err(fault) => return Err(fault),
        }
        let octets = line.as_slice();
        if octets.is_empty() {
            return Ok(());
        }
        match answer_line(alloc, party, octets, sink) {
            Ok(()) => {}
            Err(fault) => return Err(fault),
        }
    }
    Err(ConversationFault::TooLong)
}

/// Takes the next line with its newline, or nothing at the end of the input.
fn next_line<S: Source>(input: &mut Input<S>, line: &mut Vec<u8>) -> Result<(), ConversationFault>
    ensures line { OnOk result (Takes held (left S.remaining input.old) line.new.items (left S.remaining input.new)) }
    ensures part { result ≡ Err faults.Read → Breaks (left S.remaining input.old) (left S.remaining input.new) }
    ensures too_long { result ≡ Err faults.TooLong
        → IfSome (left S.remaining input.old) (λ octets. 2 ^ 64 - 1 ≤ length octets) }
    ensures failed { result ≡ Err faults.Read → S.failed input.new.source ≡ one_more (S.failed input.old.source) }
    ensures unfailed { result ≢ Err faults.Read → S.failed input.new.source ≡ S.failed input.old.source }
    ensures no_write { result ≢ Err faults.Write }
{
    input.take_line(line, HELD)?;
    Ok(())
}

/// Answers a line, which is given with its newline.
fn answer_line<P: Party, W: Sink>(
    alloc: Global,
    party: &mut P,
    line: &[u8],
    sink: &mut W,
) -> Result<(), ConversationFault>
    ensures answer { OnOk result (Appends (W.contents sink.old) (W.contents sink.new)
        (answered P.reply (P.state party.old) (line_of line.now))) }
    ensures after { result ≢ Err faults.Memory
        → P.state party.new ≡ left_by P.after (P.state party.old) (line_of line.now) }
    ensures kept { result ≡ Err faults.Memory → P.state party.new ≡ P.state party.old }
    ensures prefix { result ≡ Err faults.Write → AppendsPrefix (W.contents sink.old) (W.contents sink.new)
        (answered P.reply (P.state party.old) (line_of line.now)) }
    ensures memory { IfErr result (λ fault. fault ≢ faults.Write → fault ≡ faults.Memory) }
    ensures nothing { result ≡ Err faults.Memory → W.contents sink.new ≡ W.contents sink.old }
    ensures write { result ≡ Err faults.Write → W.failed sink.new ≡ one_more (W.failed sink.old) }
    ensures all_written { result ≢ Err faults.Write → W.failed sink.new ≡ W.failed sink.old }
{
    let Ok(text) = reply(alloc, party, line) else {
        return Err(ConversationFault::Memory);
    };
    match write_whole(sink, text.as_slice()) {
        Ok(()) => Ok(()),
        Err(_) => Err(ConversationFault::Write),
    }
}

/// The answer to a line, which is given with its newline.
fn reply<P: Party>(alloc: Global, party: &mut P, line: &[u8]) -> Result<Vec<u8>, AllocError>
    ensures reply { IfOk result (λ text. text.items ≡ answered P.reply (P.state party.old) (line_of line.now)) }
    ensures after { OnOk result (P.state party.new ≡ left_by P.after (P.state party.old) (line_of line.now)) }
    ensures memory { OnErr result (P.state party.new ≡ P.state party.old) }
{
    let line = without_newline(line);
    if line.len() > LONGEST_LINE {
        return bad_line(alloc);
    }
    party.answer(alloc, line)
}

/// A line without its newline, and without a carriage return before that.
pub(crate) fn without_newline(line: &[u8]) -> &[u8]
    ensures { result.now ≡ line_of line.now }
{
    match line {
        [line @ .., b'\n'] => without_carriage_return(line),
        _ => line,
    }
}

fn without_carriage_return(line: &[u8]) -> &[u8]
    ensures { result.now ≡ strip_carriage_return line.now }
{
    match line {
        [line @ .., b'\r'] => line,
        _ => line,
    }
}
