//! The codes that name a message and put one up, and their octets.

ghost use Rattle.std.specs.Prelude.{◌≡◌};
ghost use Rattle.dms_codes.specs.declared.codes.MessageId.{MessageId};
ghost use Rattle.dms_codes.specs.declared.codes.Activation.{Activation};

use crate::memory::Memory;
use crate::row_id::RowId;

/// Which octet of a checksum comes first, in codes and in dmsMessageCRC: makers of signs differ (this profile).
#[derive(Clone, Copy, Debug, PartialEq, Eq)]
pub enum Order {
    /// The high octet.
    High,
    /// The low octet.
    Swapped,
}

/// Names a message by its row of the message table and its checksum (NTCIP 1203, MessageIDCode).
#[derive(Clone, Copy, Debug, PartialEq, Eq)]
pub struct MessageId {
    /// The type of the memory that holds the message.
    pub memory: u8,
    /// The message's number in that memory.
    pub number: u16,
    /// The checksum itself, whatever the order of its octets.
    pub crc: u16,
}

/// Activates a message (NTCIP 1203, MessageActivationCode).
#[derive(Clone, Copy, Debug, PartialEq, Eq)]
pub struct Activation {
    /// How long the message is shown; 65535 is without end.
    pub minutes: u16,
    /// The priority of the activation, 0 to 255: the code is refused while what is shown has a higher one.
    pub priority: u8,
    /// The message.
    pub id: MessageId,
    /// The network address of the one who activates it.
    pub address: [u8; 4],
}

impl Order {
    ghost use Rattle.std.specs.Prelude.{◌≡◌};
    ghost use Rattle.dms_codes.specs.Codes.{octets_of_checksum, in_order, number_at};

    /// A checksum as the number that its two octets are in this order.
    pub fn in_order(self, crc: u16) -> u16
        ensures { result ≡ in_order self crc }
    {
        match self {
            Order::High => crc,
            Order::Swapped => crc.swap_bytes(),
        }
    }

    /// The two octets of a checksum.
    fn octets(self, crc: u16) -> [u8; 2]
        ensures { result ≡ octets_of_checksum self crc }
    {
        let [high, low] = crc.to_be_bytes();
        match self {
            Order::High => [high, low],
            Order::Swapped => [low, high],
        }
    }

    /// The checksum that has these two octets.
    fn checksum(self, octets: [u8; 2]) -> u16
        ensures spelled { octets_of_checksum self result ≡ octets }
        ensures value { result ≡ in_order self (number_at octets 0) }
    {
        match self {
            Order::High => u16::from_be_bytes(octets),
            Order::Swapped => u16::from_le_bytes(octets),
        }
    }
}

impl MessageId {
    ghost use Rattle.std.specs.Prelude.{◌≡◌, ◌↔◌, length, IsSome, IfSome};
    ghost use Rattle.dms_codes.specs.Codes.{row_id, octets_of_id, id_of, IsMessageId};
    ghost use Rattle.dms_codes.specs.Memory.{memory_of};

    /// The type of the memory that holds the message; none where its number is no type of memory.
    pub fn memory(&self) -> Option<Memory>
        ensures { result ≡ memory_of self.now.memory }
    {
        Memory::of(self.memory)
    }

    /// The row that it names.
    pub fn row(&self) -> RowId
        ensures { result ≡ row_id self.now }
    {
        RowId {
            memory: self.memory,
            number: self.number,
        }
    }

    /// Its octets: type of memory, number and checksum, numbers high octet first.
    pub fn to_bytes(&self, order: Order) -> [u8; 5]
        ensures { result ≡ octets_of_id order self.now }
    {
        let [number_high, number_low] = self.number.to_be_bytes();
        let [crc_first, crc_second] = order.octets(self.crc);
        [self.memory, number_high, number_low, crc_first, crc_second]
    }

    /// The message that these five octets name.
    pub fn of_octets(order: Order, octets: &[u8; 5]) -> Self
        ensures spelled { octets_of_id order result ≡ octets.now }
        ensures value { result ≡ id_of order octets.now }
    {
        let [memory, number_high, number_low, crc_first, crc_second] = *octets;
        MessageId {
            memory,
            number: u16::from_be_bytes([number_high, number_low]),
            crc: order.checksum([crc_first, crc_second]),
        }
    }

    /// The message that five octets name; none for any other number of octets.
    pub fn from_bytes(order: Order, octets: &[u8]) -> Option<Self>
        ensures five { IsSome result ↔ (length octets.now ≡ 5) }
        ensures spelled { IfSome result (λ id. octets_of_id order id ≡ octets.now) }
        ensures value { IfSome result (λ id. id ≡ id_of order octets.now) }
        ensures back { (id : MessageId) → IsMessageId id → octets.now ≡ octets_of_id order id → result ≡ Some id }
    {
        match <&[u8; 5]>::try_from(octets) {
            Ok(five) => Some(MessageId::of_octets(order, five)),
            Err(_) => None,
        }
    }
}

impl Activation {
    ghost use Rattle.std.specs.Prelude.{◌≡◌, ◌↔◌, length, IsSome, IfSome};
    ghost use Rattle.dms_codes.specs.Codes.{octets_of_activation, activation_of, IsActivation};

    /// Its octets: minutes, priority, message and address, numbers high octet first.
    pub fn to_bytes(&self, order: Order) -> [u8; 12]
        ensures { result ≡ octets_of_activation order self.now }
    {
        let [minutes_high, minutes_low] = self.minutes.to_be_bytes();
        let [memory, number_high, number_low, crc_first, crc_second] = self.id.to_bytes(order);
        let [a, b, c, d] = self.address;
        [
            minutes_high,
            minutes_low,
            self.priority,
            memory,
            number_high,
            number_low,
            crc_first,
            crc_second,
            a,
            b,
            c,
            d,
        ]
    }

    /// The activation that these twelve octets spell.
    pub fn of_octets(order: Order, octets: &[u8; 12]) -> Self
        ensures spelled { octets_of_activation order result ≡ octets.now }
        ensures value { result ≡ activation_of order octets.now }
    {
        let [
            minutes_high,
            minutes_low,
            priority,
            memory,
            number_high,
            number_low,
            crc_first,
            crc_second,
            a,
            b,
            c,
            d,
        ] = *octets;
        Activation {
            minutes: u16::from_be_bytes([minutes_high, minutes_low]),
            priority,
            id: MessageId::of_octets(
                order,
                &[memory, number_high, number_low, crc_first, crc_second],
            ),
            address: [a, b, c, d],
        }
    }

    /// The activation that twelve octets spell; none for any other number of octets.
    pub fn from_bytes(order: Order, octets: &[u8]) -> Option<Self>
        ensures twelve { IsSome result ↔ (length octets.now ≡ 12) }
        ensures spelled { IfSome result (λ a. octets_of_activation order a ≡ octets.now) }
        ensures value { IfSome result (λ a. a ≡ activation_of order octets.now) }
        ensures back { (a : Activation) → IsActivation a → octets.now ≡ octets_of_activation order a → result ≡ Some a }
    {
        match <&[u8; 12]>::try_from(octets) {
            Ok(twelve) => Some(Activation::of_octets(order, twelve)),
            Err(_) => None,
        }
    }
}
