//! How an input is taken line by line.

ghost use Rattle.std.specs.Prelude.{◌≡◌, ◌≢◌, ◌+◌, ◌-◌, ◌^◌, ◌<◌, ◌≤◌, ◌++◌, ◌==◌, ℕ, List};
ghost use Rattle.std.specs.Prelude.{Option, Some, [], take, drop, length, slice_range, position};
ghost use Rattle.std.specs.Prelude.{vec_len, true, false, Ok, Err, IfOk, OnOk, OnErr, IfSome};
ghost use Rattle.std.specs.Io.KnownBytes.{Keeps, Consumes, IsAtEnd, prepend_known};
ghost use Rattle.dms_text_streams.specs.Calls.{one_more};
ghost use Rattle.dms_text_streams.specs.declared.fault.InputFault.TheVariants as faults;
ghost use Rattle.dms_text_streams.specs.Lines.{left, Breaks, Continues, Holds, Takes, TakesAtMost, IsPart, IsLastPart};

use crate::failed::Failed;
use crate::fault::InputFault;
use crate::input::Input;
use crate::source::Source;
use dms_text::index_of;
use std::alloc::{AllocError, Global};

/// The octets that one call of the source asks for.
const PIECE: usize = 4096;

impl<S: Source> Input<S> {
    /// An input of which nothing was read yet. `Err` comes only out of memory.
    pub fn new(alloc: Global, source: S) -> Result<Input<S>, AllocError>
    where
        S: Drop,
        ensures left { IfOk result (λ input. left S.remaining input ≡ prepend_known [] (S.remaining source)) }
        ensures source { IfOk result (λ input. input.source ≡ source) }
    {
        let mut buffer = Vec::with_capacity(alloc, PIECE)?;
        buffer.resize(PIECE, 0)?;
        Ok(Input {
            source,
            buffer,
            start: 0,
            end: 0,
        })
    }

    /// Takes the octets up to and with the next newline, or all where there is none, and puts them into `line`, in
    /// place of what it held, but no more than `limit` of them. At the end of the input there are none.
    ///
    /// After an error the octets of this line that were taken before it are lost: the next call takes what is left of
    /// the line as a line. What there was no memory for is left.
    pub fn take_line(&mut self, line: &mut Vec<u8>, limit: usize) -> Result<(), InputFault>
        ensures line { OnOk result
            (Takes limit (left S.remaining self.old) line.new.items (left S.remaining self.new)) }
        ensures part { OnErr result (Breaks (left S.remaining self.old) (left S.remaining self.new)) }
        ensures short { length line.new.items ≤ limit }
        ensures too_long { result ≡ Err faults.TooLong
            → IfSome (left S.remaining self.old) (λ octets. 2 ^ 64 - 1 ≤ length octets) }
        ensures failed { result ≡ Err faults.Read → S.failed self.new.source ≡ one_more (S.failed self.old.source) }
        ensures unfailed { result ≢ Err faults.Read → S.failed self.new.source ≡ S.failed self.old.source }
    {
        line.clear();
        for _ in 0..u64::MAX {
            match self.take_part(line, limit) {
                Ok(true) => return Ok(()),
                Ok(false) => {}
                Err(fault) => return Err(fault),
            }
        }
        Err(InputFault::TooLong)
    }

    /// Takes the next line as `take_line` does, and puts it into `whole`, where it has at most `limit` octets, its
    /// newline among them. It stops before the first octet past the limit, so also at a line that never ends.
    ///
    /// After an error the octets of this line that were taken before it are lost, at most `limit` of them: the next
    /// call takes what is left of the line as a line.
    pub fn take_line_within(&mut self, whole: &mut Vec<u8>, limit: usize) -> Result<(), InputFault>
        ensures line { OnOk result
            (Takes (limit + 1) (left S.remaining self.old) whole.new.items (left S.remaining self.new)) }
        ensures short { length whole.new.items ≤ limit }
        ensures lost { OnErr result (TakesAtMost limit (left S.remaining self.old) (left S.remaining self.new)) }
        ensures too_long { result ≡ Err faults.TooLong
            → IfSome (left S.remaining self.old) (λ octets. limit < length octets) }
        ensures failed { result ≡ Err faults.Read → S.failed self.new.source ≡ one_more (S.failed self.old.source) }
        ensures unfailed { result ≢ Err faults.Read → S.failed self.new.source ≡ S.failed self.old.source }
    {
        whole.clear();
        loop {
            match self.take_part_within(whole, limit) {
                Ok(true) => return Ok(()),
                Ok(false) => {}
                Err(fault) => return Err(fault),
            }
        }
    }

    /// Takes a part of a line that fits below the limit, and reports whether the line ends there. An error takes
    /// nothing.
    fn take_part_within(&mut self, line: &mut Vec<u8>, limit: usize) -> Result<bool, InputFault>
        requires { length line.old.items ≤ limit }
        ensures goes_on { result ≡ Ok false → (first : Option (List ℕ))
            → Holds limit first line.old.items (left S.remaining self.old)
            → Holds limit first line.new.items (left S.remaining self.new) }
        ensures longer { result ≡ Ok false → length line.old.items < length line.new.items }
        ensures ends { result ≡ Ok true → (first : Option (List ℕ))
            → Holds limit first line.old.items (left S.remaining self.old)
            → Takes (limit + 1) first line.new.items (left S.remaining self.new) }
        ensures short { length line.new.items ≤ limit }
        ensures too_long { result ≡ Err faults.TooLong → IfSome (left S.remaining self.old)
            (λ octets. limit < length line.old.items + length octets) }
        ensures failed { result ≡ Err faults.Read → S.failed self.new.source ≡ one_more (S.failed self.old.source) }
        ensures unfailed { result ≢ Err faults.Read → S.failed self.new.source ≡ S.failed self.old.source }
        ensures kept { OnErr result (Keeps (left S.remaining self.old) (left S.remaining self.new)) }
    {
        if self.fill().is_err() {
            return Err(InputFault::Read);
        }
        let piece = self.unread();
        let (count, is_end) = part_length(piece);
        if count > limit - line.len() {
            return Err(InputFault::TooLong);
        }
        if hold(line, &piece[..count], limit).is_err() {
            return Err(InputFault::Memory);
        }
        self.skip(count);
        Ok(is_end)
    }

    /// Takes a part of a line, and reports whether the line ends there.
    fn take_part(&mut self, line: &mut Vec<u8>, limit: usize) -> Result<bool, InputFault>
        requires { length line.old.items ≤ limit }
        ensures goes_on { result ≡ Ok false → (first : Option (List ℕ)) (count : ℕ)
            → Continues limit count first line.old.items (left S.remaining self.old)
            → Continues limit (count + 1) first line.new.items (left S.remaining self.new) }
        ensures ends { result ≡ Ok true → (first : Option (List ℕ)) (count : ℕ)
            → Continues limit count first line.old.items (left S.remaining self.old)
            → Takes limit first line.new.items (left S.remaining self.new) }
        ensures short { length line.new.items ≤ limit }
        ensures failed { result ≡ Err faults.Read → S.failed self.new.source ≡ one_more (S.failed self.old.source) }
        ensures unfailed { result ≢ Err faults.Read → S.failed self.new.source ≡ S.failed self.old.source }
        ensures not_too_long { result ≢ Err faults.TooLong }
        ensures kept { OnErr result (Keeps (left S.remaining self.old) (left S.remaining self.new)) }
    {
        if self.fill().is_err() {
            return Err(InputFault::Read);
        }
        let piece = self.unread();
        let (count, is_end) = part_length(piece);
        if hold(line, &piece[..count], limit).is_err() {
            return Err(InputFault::Memory);
        }
        self.skip(count);
        Ok(is_end)
    }

    /// What was read and not taken yet.
    fn unread(&self) -> &[u8]
        ensures { result.now ≡ slice_range self.now.buffer.items self.now.start self.now.end }
    {
        let (start, end) = (self.start, self.end);
        let all = self.buffer.as_slice();
        &all[start..end]
    }

    /// Reads where all that was read is taken. Nothing is there afterwards only at the end of the source.
    fn fill(&mut self) -> Result<(), Failed>
        ensures kept { Keeps (left S.remaining self.old) (left S.remaining self.new) }
        ensures end { OnOk result
            (slice_range self.new.buffer.items self.new.start self.new.end ≡ [] → IsAtEnd (left S.remaining self.new)) }
        ensures failed { OnErr result (S.failed self.new.source ≡ one_more (S.failed self.old.source)) }
        ensures unfailed { OnOk result (S.failed self.new.source ≡ S.failed self.old.source) }
    {
        if self.start < self.end {
            return Ok(());
        }
        self.start = 0;
        self.end = 0;
        let count = read_over(&mut self.source, &mut self.buffer)?;
        self.end = count;
        Ok(())
    }

    /// Takes so many octets of what was read.
    fn skip(&mut self, count: usize)
        requires { count ≤ self.old.end - self.old.start }
        ensures unread { slice_range self.new.buffer.items self.new.start self.new.end
            ≡ drop count (slice_range self.old.buffer.items self.old.start self.old.end) }
        ensures source { self.new.source ≡ self.old.source }
    {
        self.start += count;
    }
}

/// One call of the source.
fn read_over<S: Source>(source: &mut S, buffer: &mut Vec<u8>) -> Result<usize, Failed>
    ensures length { vec_len buffer.new ≡ vec_len buffer.old }
    ensures bound { IfOk result (λ count. count ≤ vec_len buffer.new) }
    ensures octets { IfOk result
        (λ count. Consumes (S.remaining source.old) (S.remaining source.new) (take count buffer.new.items)) }
    ensures end { IfOk result (λ count. count ≡ 0 → 0 < vec_len buffer.old → IsAtEnd (S.remaining source.new)) }
    ensures kept { OnErr result (Keeps (S.remaining source.old) (S.remaining source.new)) }
    ensures failed { OnErr result (S.failed source.new ≡ one_more (S.failed source.old)) }
    ensures unfailed { OnOk result (S.failed source.new ≡ S.failed source.old) }
{
    source.read_some(buffer.as_mut_slice())
}

/// How much of what was read belongs to a line, and whether the line ends there: at its newline, or where nothing was
/// read.
#[tactic(auto, using(crate::proofs::Parts::parts))]
fn part_length(piece: &[u8]) -> (usize, bool)
    ensures within { result.0 ≤ length piece.now }
    ensures goes_on { result.1 ≡ false → IsPart piece.now result.0 }
    ensures ends { result.1 ≡ true → IsLastPart piece.now result.0 }
{
    match index_of(piece, b'\n') {
        Some(index) => (index + 1, true),
        None => (piece.len(), piece.is_empty()),
    }
}

/// Adds octets to a line, but no more than there is room for below the limit.
fn hold(line: &mut Vec<u8>, octets: &[u8], limit: usize) -> Result<(), AllocError>
    requires { length line.old.items ≤ limit }
    ensures line { OnOk result (line.new.items ≡ take limit (line.old.items ++ octets.now)) }
    ensures short { length line.new.items ≤ limit }
{
    let room = limit - line.len();
    if octets.len() <= room {
        line.extend_from_slice(octets)
    } else {
        line.extend_from_slice(&octets[..room])
    }
}
