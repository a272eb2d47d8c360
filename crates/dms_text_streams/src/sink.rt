//! What is written to.

ghost use Rattle.std.specs.Prelude.{◌≡◌, ℕ, List, Option, None};
ghost use Rattle.std.specs.Io.{WritesAtMost};
ghost use Rattle.std.specs.Io.KnownBytes.{WriteAppends};
ghost use Rattle.dms_text_streams.specs.Calls.{after_write};
ghost use Rattle.dms_text_streams.specs.Room.{TakesWithinRoom};

use crate::failed::Failed;

/// What octets are written to. It counts its calls that failed; to take none of some octets is to fail.
pub trait Sink {
    // The octets that it holds, where they are known.
    ghost contents: { Self → Option (List ℕ) } = { λ _. None };

    // For how many octets more there surely is room, where that is known.
    ghost room: { Self → Option ℕ } = { λ _. None };

    // The number of calls that failed.
    ghost failed: { Self → ℕ };

    /// Takes a prefix of these octets, and gives its length. It takes all of them where there is room for them.
    fn write_some(&mut self, octets: &[u8]) -> Result<usize, Failed>
        ensures bound { WritesAtMost result octets.now }
        ensures octets { WriteAppends (contents self.old) (contents self.new) result octets.now }
        ensures count { failed self.new ≡ after_write (failed self.old) result octets.now }
        ensures room { TakesWithinRoom (room self.old) (room self.new) result octets.now };

    /// The number of calls that failed, from 0; it stays at its greatest value.
    fn failures(&self) -> u64
        ensures { result ≡ failed self.now };
}
