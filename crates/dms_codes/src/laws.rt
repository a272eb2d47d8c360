//! Laws over the definitions of specs/ alone, stated as functions with nothing to run.

ghost use Rattle.std.specs.Prelude.{◌≡◌, ◌↔◌, ◌<◌, ◌^◌, ◌++◌, ℕ, List, Some, length, slice_index, All};
ghost use Rattle.dms_codes.specs.declared.codes.Order.{Order};
ghost use Rattle.dms_codes.specs.declared.codes.MessageId.{MessageId};
ghost use Rattle.dms_codes.specs.declared.codes.Activation.{Activation};
ghost use Rattle.dms_codes.specs.declared.status.Status.{Status};
ghost use Rattle.dms_codes.specs.declared.status.Ask.{Ask};
ghost use Rattle.dms_codes.specs.declared.memory.Memory.{Memory};
ghost use Rattle.dms_codes.specs.Memory.{memory_number, memory_of};
ghost use Rattle.dms_codes.specs.Checksum.{number, octet_bits, remainder, sixteen_zeros};
ghost use Rattle.dms_codes.specs.Codes.{two_octets, octets_of_checksum, in_order, octets_of_id, id_of, IsMessageId};
ghost use Rattle.dms_codes.specs.Codes.{octets_of_activation, activation_of, IsActivation};
ghost use Rattle.dms_codes.specs.Status.{StatusStep, next_status};

use crate::checksum::REMAINDERS;

/// Each entry of the table of remainders is the remainder by division.
pub fn remainders_are_by_division()
    ensures { (octet : ℕ) → octet < 256
        → slice_index REMAINDERS octet ≡ number (remainder (octet_bits octet ++ sixteen_zeros)) }
{}

/// Five octets are those of the message that they name, and a message is the one that its octets name.
pub fn ids_are_their_octets()
    ensures octets { (order : Order) (octets : List ℕ) → length octets ≡ 5 → All (λ octet. octet < 256) octets
        → octets_of_id order (id_of order octets) ≡ octets }
    ensures id { (order : Order) (id : MessageId) → IsMessageId id → id_of order (octets_of_id order id) ≡ id }
{}

/// Twelve octets are those of the activation that they spell, and an activation is the one that its octets spell.
pub fn activations_are_their_octets()
    ensures octets { (order : Order) (octets : List ℕ) → length octets ≡ 12 → All (λ octet. octet < 256) octets
        → octets_of_activation order (activation_of order octets) ≡ octets }
    ensures activation { (order : Order) (a : Activation) → IsActivation a
        → activation_of order (octets_of_activation order a) ≡ a }
{}

/// A checksum's octets in an order are those, the high octet first, of the number that the order makes of it.
pub fn checksums_have_their_order()
    ensures { (order : Order) (crc : ℕ) → crc < 2 ^ 16
        → two_octets (in_order order crc) ≡ octets_of_checksum order crc }
{}

/// The next status is that of the table of statuses.
pub fn next_statuses_are_the_table()
    ensures { (status : Status) (ask : Ask) (next : Status)
        → (next_status status ask ≡ Some next) ↔ StatusStep status ask next }
{}

/// A number has the type of memory whose number it is.
pub fn types_of_memory_have_their_numbers()
    ensures { (number : ℕ) (memory : Memory) → (memory_of number ≡ Some memory) ↔ (memory_number memory ≡ number) }
{}
