//! The parts of answers.

ghost use Rattle.std.specs.Prelude.{◌≡◌, ◌++◌, ◌+◌, ◌*◌, ◌≤◌, IfOk};
ghost use Rattle.std.specs.Prelude.{length, vec_len, vec_capacity};
ghost use Rattle.hex.specs.Hex.{encode_lower};
ghost use Rattle.dms_text_streams.specs.Conversation.{bad_line, ok_line};

use std::alloc::{AllocError, Global};

/// So many octets are made digits at a time.
const FEW: usize = 64;

/// The line `ok`.
pub fn ok_line(alloc: Global) -> Result<Vec<u8>, AllocError>
    ensures { IfOk result (λ text. text.items ≡ ok_line) }
{
    Vec::from_slice(alloc, b"ok\n")
}

/// The line `bad line`.
pub fn bad_line(alloc: Global) -> Result<Vec<u8>, AllocError>
    ensures { IfOk result (λ text. text.items ≡ bad_line) }
{
    Vec::from_slice(alloc, b"bad line\n")
}

/// Appends octets, for which there must be room.
pub fn put(text: &mut Vec<u8>, octets: &[u8])
    requires { vec_len text.old + length octets.now ≤ vec_capacity text.old }
    ensures items { text.new.items ≡ text.old.items ++ octets.now }
    ensures len { vec_len text.new ≡ vec_len text.old + length octets.now }
    ensures capacity { vec_capacity text.old ≤ vec_capacity text.new }
{
    text.extend_from_slice(octets).unwrap();
}

/// Appends octets as pairs of lower case hexadecimal digits, for which there must be room.
pub fn put_digits(text: &mut Vec<u8>, octets: &[u8])
    requires { vec_len text.old + 2 * length octets.now ≤ vec_capacity text.old }
    ensures items { text.new.items ≡ text.old.items ++ encode_lower octets.now }
    ensures len { vec_len text.new ≡ vec_len text.old + 2 * length octets.now }
    ensures capacity { vec_capacity text.old ≤ vec_capacity text.new }
{
    let mut rest = octets;
    while !rest.is_empty() {
        let (few, others) = rest.split_at(rest.len().min(FEW));
        put_few_digits(text, few);
        rest = others;
    }
}

/// So of at most 64 octets.
fn put_few_digits(text: &mut Vec<u8>, octets: &[u8])
    requires few { length octets.now ≤ 64 }
    requires room { vec_len text.old + 2 * length octets.now ≤ vec_capacity text.old }
    ensures items { text.new.items ≡ text.old.items ++ encode_lower octets.now }
    ensures len { vec_len text.new ≡ vec_len text.old + 2 * length octets.now }
    ensures capacity { vec_capacity text.old ≤ vec_capacity text.new }
{
    let mut digits = [0; 2 * FEW];
    let digits = &mut digits[..2 * octets.len()];
    hex::encode_to_slice(octets, digits).unwrap();
    put(text, digits);
}
