//! The description of a sign that stands before a conversation.

ghost use Rattle.std.specs.Prelude.{◌≡◌, ◌≢◌, ◌≤◌, ◌<◌, length, Err, IfOk, OnErr, IfSome};
ghost use Rattle.dms_text_streams.specs.Calls.{one_more};
ghost use Rattle.dms_text_streams.specs.declared.fault.InputFault.TheVariants as faults;
ghost use Rattle.dms_text_streams.specs.Lines.{left, line_of, TakesAtMost};
ghost use Rattle.dms_text_streams.specs.DescriptionText.{TakesDescription, is_end, longest_input};

use crate::conversation::without_newline;
use crate::fault::InputFault;
use crate::input::Input;
use crate::source::Source;
use std::alloc::Global;

/// The most octets of an input that is read as a whole, and of a description.
pub const LONGEST_INPUT: usize = 1_048_576;

/// The line that ends a description.
const END: &[u8] = b"end";

/// Takes the lines up to and with the first line `end`, or all where there is none: at most 1,048,576 octets. What
/// follows is left. It stops before the first octet past that, so also where the input never ends. After an error what
/// was taken before it is lost.
#[tactic(auto, using(crate::proofs::Descriptions::descriptions))]
pub fn description_text<S: Source>(
    alloc: Global,
    input: &mut Input<S>,
) -> Result<Vec<u8>, InputFault>
    ensures text { IfOk result
        (λ text. TakesDescription (left S.remaining input.old) text.items (left S.remaining input.new)) }
    ensures short { IfOk result (λ text. length text.items ≤ longest_input) }
    ensures lost { OnErr result
        (TakesAtMost longest_input (left S.remaining input.old) (left S.remaining input.new)) }
    ensures too_long { result ≡ Err faults.TooLong
        → IfSome (left S.remaining input.old) (λ octets. longest_input < length octets) }
    ensures failed { result ≡ Err faults.Read → S.failed input.new.source ≡ one_more (S.failed input.old.source) }
    ensures unfailed { result ≢ Err faults.Read → S.failed input.new.source ≡ S.failed input.old.source }
{
    let mut text = Vec::new(alloc);
    let mut line = Vec::new(alloc);
    loop {
        let room = LONGEST_INPUT - text.len();
        match input.take_line_within(&mut line, room) {
            Ok(()) => {}
            Err(fault) => return Err(fault),
        }
        let octets = line.as_slice();
        if text.extend_from_slice(octets).is_err() {
            return Err(InputFault::Memory);
        }
        if octets.is_empty() || is_end(octets) {
            return Ok(text);
        }
    }
}

/// Whether a line, which is given with its newline, is the last of a description.
fn is_end(line: &[u8]) -> bool
    ensures { result ≡ is_end (line_of line.now) }
{
    without_newline(line) == END
}
