//! Laws on the ranges of what a sign holds, stated as functions with nothing to run.

ghost use Rattle.std.specs.Prelude.{◌≡◌, ℕ, IsTrue, List, Some, None, IfSome};
ghost use Rattle.dms_wire.specs.Message.{SnmpMessage};
ghost use Rattle.dms_wire_ber.specs.ObjectIdentifier.{IsNameInLimits};
ghost use Rattle.dms_wire.specs.Limits.{IsValueInLimits, AreBindingsInLimits, IsMessageInLimits};
ghost use Rattle.dms_wire.specs.Spelling.{Spells};
ghost use Rattle.dms_wire.specs.Response.{response_to};
ghost use Rattle.dms_face.specs.Face.{FaceModel, is_face};
ghost use Rattle.dms_table.specs.declared.stock.Stock.{Stock};
ghost use Rattle.dms_table.specs.Rows.{TableModel};
ghost use Rattle.dms_table.specs.Stock.{stock_fault, table_of};
ghost use Rattle.dms_mib.specs.declared.instance.Instance.{Instance};
ghost use Rattle.dms_mib.specs.Names.{name_of};
ghost use Rattle.dms_mib_instances.specs.Objects.{IsInstance};
ghost use Rattle.dms_sign.specs.State.{ConfigModel, SignState, start};
ghost use Rattle.dms_sign.specs.Values.{value_at, value_of, value_after};
ghost use Rattle.dms_sign.specs.Reply.{too_big};
ghost use Rattle.dms_sign.specs.Requests.{answer_of_any_size};
ghost use Rattle.dms_sign.specs.Reply.{response_of, on_message, received};
ghost use Rattle.dms_sign.specs.Events.{after_tick, after_power_loss, after_power_return};
ghost use Rattle.dms_sign.specs.InRange.{IsSignInRange, IsStocked, IsMadeOfOctets, IsBindingInLimits, IsSpelledReply};

/// A sign is in range as it is made, and it stays so whatever happens to it.
pub fn signs_stay_in_range()
    ensures made { (config : ConfigModel) (table : TableModel) → IsTrue (is_face config.face) → IsStocked table
        → IsMadeOfOctets config table → IsSignInRange (start config table) }
    ensures stocked { (face : FaceModel) (stock : Stock) → stock_fault face stock ≡ None → IsStocked (table_of stock) }
    ensures datagram { (s : SignState) (octets : List ℕ) → IsSignInRange s → IsSignInRange (received s octets).after }
    ensures message { (s : SignState) (m : SnmpMessage) → IsSignInRange s → AreBindingsInLimits m.bindings
        → IsSignInRange (on_message s m).after }
    ensures tick { (s : SignState) → IsSignInRange s → IsSignInRange (after_tick s) }
    ensures power_loss { (s : SignState) → IsSignInRange s → IsSignInRange (after_power_loss s) }
    ensures power_return { (s : SignState) (seconds : ℕ) → IsSignInRange s
        → IsSignInRange (after_power_return s seconds) }
{}

/// What a sign in range reads and answers can be said in a message.
pub fn answers_are_in_limits()
    ensures instance { (s : SignState) (i : Instance) → IsSignInRange s → IsInstance s.table i
        → IsNameInLimits (name_of i) × IfSome (value_at s i) IsValueInLimits }
    ensures value { (s : SignState) (name : List ℕ) → IsSignInRange s → IfSome (value_of s name) IsValueInLimits }
    ensures next { (s : SignState) (name : List ℕ) → IsSignInRange s → IfSome (value_after s name) IsBindingInLimits }
    ensures response { (s : SignState) (m : SnmpMessage) (octets : List ℕ) → IsSignInRange s → Spells m octets
        → IsMessageInLimits (response_of m (answer_of_any_size s m)) }
    ensures too_big { (m : SnmpMessage) → IsMessageInLimits m → IsMessageInLimits (response_to m too_big 0) }
{}

/// Each reply of a sign in range fits a datagram, and its octets spell the Response that was meant: what was answered,
/// or that the answer is too big.
#[tactic(auto, using(crate::proofs::InRangeReplies::replies_spell_their_response))]
pub fn replies_spell_their_response()
    ensures { (s : SignState) (octets reply : List ℕ) → IsSignInRange s → (received s octets).reply ≡ Some reply
        → IsSpelledReply s octets reply }
{}
