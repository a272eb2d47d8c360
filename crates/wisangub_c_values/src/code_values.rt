//! What a code says, as C gives it.

ghost use Rattle.std.specs.Prelude.{◌≡◌};
ghost use Rattle.wisangub_c_values.specs.Codes.{order_of, order_in, message_of, activation_of, code_parts};

use dms_codes::{Activation, Memory, MessageId, Order};

/// What a code says. A message's name is its memory, its number and its checksum alone.
#[repr(C)]
#[derive(Clone, Copy)]
pub struct CodeParts {
    /// How long the message is shown; 65535 is without end.
    pub minutes: u16,
    /// The row's number in its memory.
    pub number: u16,
    /// The checksum of the message.
    pub checksum: u16,
    /// The priority with which it is activated.
    pub priority: u8,
    /// The type of memory.
    pub memory: u8,
    /// The network address of the one who activates it.
    pub address: [u8; 4],
}

/// Which octet of a checksum is first: at 0 the high one, at 1 the low one.
pub fn order_of(number: u8) -> Option<Order>
    ensures { result ≡ order_of number }
{
    match number {
        0 => Some(Order::High),
        1 => Some(Order::Swapped),
        _ => None,
    }
}

/// The order of a code that names a type of memory.
pub fn order_in(order: u8, parts: &CodeParts) -> Option<Order>
    ensures { result ≡ order_in order parts.now }
{
    match Memory::of(parts.memory) {
        Some(_) => order_of(order),
        None => None,
    }
}

/// The name of a message.
pub fn message_of(parts: &CodeParts) -> MessageId
    ensures { result ≡ message_of parts.now }
{
    MessageId {
        memory: parts.memory,
        number: parts.number,
        crc: parts.checksum,
    }
}

/// The code that activates a message.
pub fn activation_of(parts: &CodeParts) -> Activation
    ensures { result ≡ activation_of parts.now }
{
    Activation {
        minutes: parts.minutes,
        priority: parts.priority,
        id: message_of(parts),
        address: parts.address,
    }
}

/// What a code that was sent says.
pub fn code_parts(code: Activation) -> CodeParts
    ensures { result ≡ code_parts code }
{
    let address = code.address;
    CodeParts {
        minutes: code.minutes,
        number: code.id.number,
        checksum: code.id.crc,
        priority: code.priority,
        memory: code.id.memory,
        address,
    }
}
