//! Laws over the definitions of specs/ alone, stated as functions with nothing to run.

ghost use Rattle.std.specs.Prelude.{◌≡◌, ◌↔◌, ℕ, ◌*◌, ◌<◌, ◌≤◌, List, length, Some};
ghost use Rattle.dms_wire.specs.Message.{SnmpMessage};
ghost use Rattle.dms_wire.specs.Limits.{most_bindings, IsMessageInLimits};
ghost use Rattle.dms_wire.specs.Spelling.{Spells};
ghost use Rattle.dms_wire.specs.Canonical.{canonical};
ghost use Rattle.dms_wire.specs.Response.{response_to};
ghost use Rattle.dms_wire.specs.MessageOf.{message_of};
ghost use Rattle.dms_wire_ber.specs.Limits.{longest_datagram};

/// Octets spell at most one message.
pub fn one_message()
    ensures { (m : SnmpMessage) (n : SnmpMessage) (octets : List ℕ) → Spells m octets → Spells n octets → m ≡ n }
{}

/// Octets spell a message exactly where `message_of` computes that message from them.
pub fn read_is_spelled()
    ensures { (octets : List ℕ) (m : SnmpMessage) → (message_of octets ≡ Some m) ↔ Spells m octets }
{}

/// The canonical octets of a message in the limits spell it, where they fit a datagram.
#[tactic(auto, using(crate::proofs::CanonicalLaws::canonical_spells))]
pub fn canonical_spells()
    ensures { (m : SnmpMessage) → IsMessageInLimits m → length (canonical m) ≤ longest_datagram
        → Spells m (canonical m) }
{}

/// A message that octets spell is in the limits.
pub fn spelled_in_limits()
    ensures { (m : SnmpMessage) (octets : List ℕ) → Spells m octets → IsMessageInLimits m }
{}

/// The canonical spelling of a message is as short as any: whatever octets spell the message, with lengths in
/// whatever form, there are at least as many of them.
#[tactic(auto, using(crate::proofs::ShorterSpellings::canonical_is_shortest))]
pub fn canonical_is_shortest()
    ensures { (m : SnmpMessage) (octets : List ℕ) → Spells m octets → length (canonical m) ≤ length octets }
{}

/// The Response to a message, which repeats the community, the request-id and the bindings, with an error-status
/// and an error-index below 128, takes no more octets than the message that was received.
#[tactic(auto, using(crate::proofs::ShorterSpellings::response_no_longer))]
pub fn response_is_no_longer()
    ensures { (m : SnmpMessage) (octets : List ℕ) (status index : ℕ) → Spells m octets → status < 128 → index < 128
        → length (canonical (response_to m status index)) ≤ length octets }
{}

/// Each binding takes seven octets at least, so the longest datagram has at most `MAX_BINDINGS`.
pub fn few_bindings()
    ensures octets { (m : SnmpMessage) (octets : List ℕ) → Spells m octets → 7 * length m.bindings ≤ length octets }
    ensures most { (m : SnmpMessage) (octets : List ℕ) → Spells m octets → length m.bindings ≤ most_bindings }
{}
