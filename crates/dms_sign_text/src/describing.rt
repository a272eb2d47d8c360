//! Descriptions that are read: an input to its end, or its lines up to the line `end`, before a conversation.

ghost use Rattle.std.specs.Prelude.{◌≡◌, ◌≢◌, ◌≤◌, ◌<◌, ◌+◌, ℕ, length, Err, IfOk, OnErr, IfSome};
ghost use Rattle.std.specs.Str.Lines.{lines};
ghost use Rattle.dms_text_streams.specs.Calls.{one_more};
ghost use Rattle.dms_text_streams.specs.Lines.{left, TakesAtMost, longest_piece};
ghost use Rattle.dms_text_streams.specs.DescriptionText.{TakesDescription, LeavesLinesAfterEnd, longest_input};
ghost use Rattle.dms_sign_text.specs.Before.{Describes, NotDescribed, IsRefusedBefore};
ghost use Rattle.dms_sign_text.specs.Description.{Description, SpellsDescription};
ghost use Rattle.dms_sign_text.specs.RefusedLine.{all_numbered, IsRefusedLine};
ghost use Rattle.dms_sign_text.specs.Setups.{IsMade};
ghost use Rattle.dms_sign_text.specs.declared.reading_fault.ReplayFault.TheVariants as faults;

use crate::fault::DescriptionFault;
use crate::reader::description;
use crate::reading_fault::ReplayFault;
use crate::setup::Setup;
use dms_text_streams::{Input, LONGEST_INPUT, Source, description_text, read_whole};
use std::alloc::Global;

/// Reads a sign's description to its end.
pub fn described<R: Source>(alloc: Global, reader: &mut R) -> Result<Setup, ReplayFault>
    ensures sign { IfOk result (λ setup. IfSome (R.remaining reader.old) (λ octets. (it : Description)
        × SpellsDescription octets it × IsMade it setup)) }
    ensures line { (number : ℕ) → result ≡ Err (faults.Line number) → IfSome (R.remaining reader.old) (λ octets.
        (length octets ≤ longest_input) × ((it : Description) → SpellsDescription octets it → ⊥)) }
    ensures number { (number : ℕ) → result ≡ Err (faults.Line number)
        → IfSome (R.remaining reader.old) (λ octets. IsRefusedLine (all_numbered (lines octets)) number) }
    ensures too_long { result ≡ Err faults.TooLong
        → IfSome (R.remaining reader.old) (λ octets. longest_input < length octets) }
    ensures read { result ≡ Err faults.Read → R.failed reader.new ≡ one_more (R.failed reader.old) }
    ensures all_read { result ≢ Err faults.Read → R.failed reader.new ≡ R.failed reader.old }
    ensures no_write { result ≢ Err faults.Write }
{
    let octets = whole_input(alloc, reader)?;
    match description(alloc, octets.as_slice()) {
        Ok(setup) => Ok(setup),
        Err(DescriptionFault::Line(number)) => Err(ReplayFault::Line(number)),
        Err(DescriptionFault::Memory) => Err(ReplayFault::Memory),
    }
}

/// All octets of the reader.
pub fn whole_input<R: Source>(alloc: Global, reader: &mut R) -> Result<Vec<u8>, ReplayFault>
    ensures whole { IfOk result (λ octets. IfSome (R.remaining reader.old) (λ all. octets.items ≡ all)) }
    ensures short { IfOk result (λ octets. length octets.items ≤ longest_input) }
    ensures too_long { result ≡ Err faults.TooLong
        → IfSome (R.remaining reader.old) (λ all. longest_input < length all) }
    ensures lost { OnErr result
        (TakesAtMost (longest_input + longest_piece) (R.remaining reader.old) (R.remaining reader.new)) }
    ensures failed { result ≡ Err faults.Read → R.failed reader.new ≡ one_more (R.failed reader.old) }
    ensures unfailed { result ≢ Err faults.Read → R.failed reader.new ≡ R.failed reader.old }
    ensures no_write { result ≢ Err faults.Write }
    ensures no_line { (number : ℕ) → result ≢ Err (faults.Line number) }
{
    let octets = read_whole(alloc, reader, LONGEST_INPUT)?;
    Ok(octets)
}

/// Reads the description of a sign up to its line `end`: at most 1,048,576 octets. The lines after it are left, also
/// where it describes no sign. It stops before the first octet past that many, so also where the input never ends.
pub fn described_before<S: Source>(
    alloc: Global,
    input: &mut Input<S>,
) -> Result<Setup, ReplayFault>
    ensures sign { IfOk result (λ setup. Describes (left S.remaining input.old) setup (left S.remaining input.new)) }
    ensures line { (number : ℕ) → result ≡ Err (faults.Line number) → NotDescribed (left S.remaining input.old) }
    ensures number { (number : ℕ) → result ≡ Err (faults.Line number)
        → IsRefusedBefore (left S.remaining input.old) number }
    ensures rest { (number : ℕ) → result ≡ Err (faults.Line number)
        → LeavesLinesAfterEnd (left S.remaining input.old) (left S.remaining input.new) }
    ensures lost { result ≡ Err faults.TooLong
        → TakesAtMost longest_input (left S.remaining input.old) (left S.remaining input.new) }
    ensures too_long { result ≡ Err faults.TooLong
        → IfSome (left S.remaining input.old) (λ octets. longest_input < length octets) }
    ensures read { result ≡ Err faults.Read → S.failed input.new.source ≡ one_more (S.failed input.old.source) }
    ensures all_read { result ≢ Err faults.Read → S.failed input.new.source ≡ S.failed input.old.source }
    ensures no_write { result ≢ Err faults.Write }
{
    let text = text_before(alloc, input)?;
    match description(alloc, text.as_slice()) {
        Ok(setup) => Ok(setup),
        Err(DescriptionFault::Line(line)) => Err(ReplayFault::Line(line)),
        Err(DescriptionFault::Memory) => Err(ReplayFault::Memory),
    }
}

/// The text of the description before a conversation.
pub fn text_before<S: Source>(alloc: Global, input: &mut Input<S>) -> Result<Vec<u8>, ReplayFault>
    ensures text { IfOk result
        (λ text. TakesDescription (left S.remaining input.old) text.items (left S.remaining input.new)) }
    ensures lost { OnErr result
        (TakesAtMost longest_input (left S.remaining input.old) (left S.remaining input.new)) }
    ensures too_long { result ≡ Err faults.TooLong
        → IfSome (left S.remaining input.old) (λ octets. longest_input < length octets) }
    ensures read { result ≡ Err faults.Read → S.failed input.new.source ≡ one_more (S.failed input.old.source) }
    ensures all_read { result ≢ Err faults.Read → S.failed input.new.source ≡ S.failed input.old.source }
    ensures no_write { result ≢ Err faults.Write }
    ensures no_line { (number : ℕ) → result ≢ Err (faults.Line number) }
{
    let text = description_text(alloc, input)?;
    Ok(text)
}
