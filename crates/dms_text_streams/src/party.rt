//! What answers lines.

ghost use Rattle.std.specs.Prelude.{◌≡◌, ℕ, List, IfOk, OnOk, OnErr};

use std::alloc::{AllocError, Global};

/// A party to a conversation: it answers a line, and its state may be another afterwards.
pub trait Party {
    // What its answers depend on.
    ghost State: { Type 0 };

    // What it is now.
    ghost state: { Self → State };

    // What it answers to a line.
    ghost reply: { State → List ℕ → List ℕ };

    // What it is after a line.
    ghost after: { State → List ℕ → State };

    /// Its answer to a line, which is given without its newline. `Err` comes only out of memory, and the
    /// party is then as before.
    fn answer(&mut self, alloc: Global, line: &[u8]) -> Result<Vec<u8>, AllocError>
        ensures reply { IfOk result (λ text. text.items ≡ reply (state self.old) line.now) }
        ensures after { OnOk result (state self.new ≡ after (state self.old) line.now) }
        ensures memory { OnErr result (state self.new ≡ state self.old) };
}
