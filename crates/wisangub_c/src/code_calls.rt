//! Checksums and codes, from C.

ghost use Rattle.std.specs.Prelude.{◌≡◌, length};
ghost use Rattle.wisangub_c.specs.Answers.{ranged_answer, ranged_size, ranged_buffer};
ghost use Rattle.wisangub_c.specs.Codes.{checksum_answer, checksum_after};
ghost use Rattle.wisangub_c_values.specs.Codes.{message_code, activation_code};

use dms_codes::crc;
use wisangub_c_values::{CodeParts, DONE, OUT_OF_RANGE, activation_of, give, message_of, order_in};

/// The checksum of a message whose beacon and pixel service are 0, off, or 1, on.
#[unsafe(no_mangle)]
pub extern "C" fn wisangub_crc_at(text: &[u8], beacon: u8, pixel: u8, checksum: &mut u16) -> u32
    ensures answer { result ≡ checksum_answer beacon pixel }
    ensures checksum { checksum.new ≡ checksum_after text.now beacon pixel checksum.old }
{
    if beacon < 2 && pixel < 2 {
        *checksum = crc(text, beacon, pixel);
        DONE
    } else {
        OUT_OF_RANGE
    }
}

/// The five octets that name a message, of an order and a type of memory that there are.
#[unsafe(no_mangle)]
pub extern "C" fn wisangub_message_code_at(
    order: u8,
    parts: &CodeParts,
    code: &mut [u8],
    size: &mut usize,
) -> u32
    ensures answer { result ≡ ranged_answer (message_code order parts.now) (length code.old) }
    ensures size { size.new ≡ ranged_size (message_code order parts.now) size.old }
    ensures code { code.new ≡ ranged_buffer (message_code order parts.now) code.old }
{
    match order_in(order, parts) {
        Some(order) => give(&message_of(parts).to_bytes(order), code, size),
        None => OUT_OF_RANGE,
    }
}

/// The twelve octets that activate a message, of an order and a type of memory that there are.
#[unsafe(no_mangle)]
pub extern "C" fn wisangub_activation_code_at(
    order: u8,
    parts: &CodeParts,
    code: &mut [u8],
    size: &mut usize,
) -> u32
    ensures answer { result ≡ ranged_answer (activation_code order parts.now) (length code.old) }
    ensures size { size.new ≡ ranged_size (activation_code order parts.now) size.old }
    ensures code { code.new ≡ ranged_buffer (activation_code order parts.now) code.old }
{
    match order_in(order, parts) {
        Some(order) => give(&activation_of(parts).to_bytes(order), code, size),
        None => OUT_OF_RANGE,
    }
}
