//! What is read from.

ghost use Rattle.std.specs.Prelude.{◌≡◌, ℕ, List, Option, None, Some, length, min, Ok};
ghost use Rattle.std.specs.Io.{ReadsAtMost};
ghost use Rattle.std.specs.Io.KnownBytes.{ReadConsumes};
ghost use Rattle.dms_text_streams.specs.Calls.{after_read};

use crate::failed::Failed;

/// What octets are read from. It counts its calls that failed.
pub trait Source {
    // The octets that reads will give from here on, where they are known.
    ghost remaining: { Self → Option (List ℕ) } = { λ _. None };

    // The number of calls that failed.
    ghost failed: { Self → ℕ };

    /// Reads some octets into the first places of the buffer, and gives their number: none at the end alone, or where
    /// the buffer is empty.
    fn read_some(&mut self, buffer: &mut [u8]) -> Result<usize, Failed>
        ensures bound { ReadsAtMost result buffer.new }
        ensures octets { ReadConsumes (remaining self.old) (remaining self.new) result buffer.new }
        ensures count { failed self.new ≡ after_read (failed self.old) result };

    /// The number of calls that failed, from 0; it stays at its greatest value.
    fn failures(&self) -> u64
        ensures { result ≡ failed self.now };
}

/// A slice gives its octets in their order. No call fails.
impl Source for &[u8] {
    ghost remaining = { λ slice. Some slice.now };

    ghost failed = { λ _. 0 };

    fn read_some(&mut self, buffer: &mut [u8]) -> Result<usize, Failed>
        ensures bound { ReadsAtMost result buffer.new }
        ensures octets { ReadConsumes (Some self.old.now) (Some self.new.now) result buffer.new }
        ensures count { result ≡ Ok (min (length self.old.now) (length buffer.old)) }
    {
        let all: &[u8] = *self;
        let count = all.len().min(buffer.len());
        let (first, rest) = all.split_at(count);
        buffer[..count].copy_from_slice(first);
        *self = rest;
        Ok(count)
    }

    fn failures(&self) -> u64 {
        0
    }
}
