//! What the library answers, and octets put into a buffer of the caller's.

ghost use Rattle.std.specs.Prelude.{◌≡◌, ◌≤◌, ◌==◌, false, length};
ghost use Rattle.wisangub_c_values.specs.Answers.{no_memory, put_first, given_answer, given_buffer};

/// It is done.
pub const DONE: u32 = 0;

/// It is done, and nothing is sent.
pub const NOTHING_SENT: u32 = 1;

/// A buffer is too small, and nothing is done.
pub const TOO_SMALL: u32 = 2;

/// There is no memory, and nothing is done.
pub const NO_MEMORY: u32 = 3;

/// What was given is at fault, and nothing is done.
pub const AT_FAULT: u32 = 4;

/// A command is not taken: a job is not done yet.
pub const BUSY: u32 = 6;

/// A command is not taken: no request number is left.
pub const NUMBERS_USED_UP: u32 = 7;

/// A value is out of its range, and nothing is done.
pub const OUT_OF_RANGE: u32 = 8;

/// A text is no state of the sign, and nothing is done.
pub const STATE_REFUSED: u32 = 9;

/// Puts the octets first in a buffer that has room for them.
pub fn put_first(octets: &[u8], buffer: &mut [u8])
    requires { length octets.now ≤ length buffer.old }
    ensures { buffer.new ≡ put_first octets.now buffer.old }
{
    buffer[..octets.len()].copy_from_slice(octets);
}

/// Gives octets into a buffer, and their number; where the buffer has no room for them it stays as it is.
pub fn give(octets: &[u8], buffer: &mut [u8], size: &mut usize) -> u32
    ensures answer { result ≡ given_answer octets.now (length buffer.old) }
    ensures some_memory { (result == no_memory) ≡ false }
    ensures size { size.new ≡ length octets.now }
    ensures buffer { buffer.new ≡ given_buffer octets.now buffer.old }
{
    *size = octets.len();
    if buffer.len() < octets.len() {
        return TOO_SMALL;
    }
    put_first(octets, buffer);
    DONE
}
