//! Laws on what a sign answers and on its rows, stated as functions with nothing to run.

ghost use Rattle.std.specs.Prelude.{◌≡◌, ◌↔◌, ℕ, List, [], ◌∷◌, length, true, IsTrue, Some, None};
ghost use Rattle.std.specs.List.{Contains};
ghost use Rattle.dms_wire.specs.declared.message.Kind.TheVariants.{Set};
ghost use Rattle.dms_wire.specs.declared.error_status.ErrorStatus.TheVariants.{NoError};
ghost use Rattle.dms_wire.specs.ErrorStatus.{error_status_number};
ghost use Rattle.dms_wire.specs.Message.{SnmpMessage};
ghost use Rattle.dms_wire.specs.MessageOf.{message_of};
ghost use Rattle.dms_wire.specs.Spelling.{Spells};
ghost use Rattle.dms_wire.specs.Canonical.{canonical};
ghost use Rattle.dms_wire.specs.Response.{response_to};
ghost use Rattle.dms_codes.specs.declared.codes.Activation.{Activation};
ghost use Rattle.dms_codes.specs.Codes.{activation_of};
ghost use Rattle.dms_table.specs.Rows.{IsTable};
ghost use Rattle.dms_table.specs.declared.stock.Stock.{Stock};
ghost use Rattle.dms_table.specs.Stock.{table_of};
ghost use Rattle.dms_sign.specs.State.{ConfigModel, SignState, start};
ghost use Rattle.dms_sign.specs.Requests.{answer_of_any_size};
ghost use Rattle.dms_sign.specs.Reply.{is_heard, reply_to, received, after_get, after_message};
ghost use Rattle.dms_sign.specs.Events.{after_tick, after_power_loss, after_power_return};
ghost use Rattle.dms_sign.specs.Promises.{IsReplyTo, AsksFor, activates, is_get};

/// What is sent is a Response to a request that came, with its community and its request-id.
pub fn replies_name_their_request()
    ensures { (s : SignState) (datagram : List ℕ) (reply : List ℕ) → (received s datagram).reply ≡ Some reply
        → IsReplyTo datagram reply }
{}

/// A message that octets spell is answered, where the sign hears it: what is sent, what is accepted and the sign
/// afterwards are those of the message, however it is spelled.
pub fn messages_are_answered()
    ensures reply { (s : SignState) (m : SnmpMessage) (datagram : List ℕ) → Spells m datagram
        → is_heard s m ≡ true → (received s datagram).reply ≡ Some (reply_to m (answer_of_any_size s m)) }
    ensures after { (s : SignState) (m : SnmpMessage) (datagram : List ℕ) → Spells m datagram
        → (received s datagram).after ≡ after_message s m }
{}

/// A SET of one binding is never answered by tooBig: its reply has the status and the index of what is answered, and
/// repeats the binding.
pub fn one_binding_set_is_never_too_big()
    ensures { (s : SignState) (m : SnmpMessage) (datagram : List ℕ) → message_of datagram ≡ Some m
        → m.kind ≡ Set → length m.bindings ≡ 1 → reply_to m (answer_of_any_size s m) ≡ canonical
        (response_to m (error_status_number (answer_of_any_size s m).status) (answer_of_any_size s m).index) }
{}

/// Nor is a SET that succeeds.
pub fn no_success_is_replaced()
    ensures { (s : SignState) (m : SnmpMessage) (datagram : List ℕ) → message_of datagram ≡ Some m → m.kind ≡ Set
        → (answer_of_any_size s m).status ≡ NoError → reply_to m (answer_of_any_size s m) ≡ canonical
        (response_to m (error_status_number (answer_of_any_size s m).status) (answer_of_any_size s m).index) }
{}

/// A SET of dmsActivateMessage alone is answered by no error where its activation was accepted, and there alone. A SET
/// that has it among other bindings is answered by no error only where it was accepted; and an activation is accepted
/// only where a binding of a SET asks for it, and no error is answered.
pub fn accepted_where_no_error()
    ensures one { (s : SignState) (m : SnmpMessage) (octets : List ℕ) → m.kind ≡ Set
        → m.bindings ≡ activates octets ∷ [] → ((answer_of_any_size s m).status ≡ NoError)
        ↔ ((answer_of_any_size s m).accepted ≡ Some (activation_of s.table.order octets)) }
    ensures among { (s : SignState) (m : SnmpMessage) (octets : List ℕ) → m.kind ≡ Set
        → Contains m.bindings (activates octets) → (answer_of_any_size s m).status ≡ NoError
        → (answer_of_any_size s m).accepted ≡ Some (activation_of s.table.order octets) }
    ensures only { (s : SignState) (m : SnmpMessage) (activation : Activation) → (answer_of_any_size s m).accepted
        ≡ Some activation → ((answer_of_any_size s m).status ≡ NoError) × AsksFor s m activation }
{}

/// A Get or a GetNext that is answered ends the silence, and leaves all else as it is; a datagram that is not answered
/// changes nothing.
pub fn gets_end_the_silence_alone()
    ensures answered { (s : SignState) (m : SnmpMessage) (datagram reply : List ℕ)
        → message_of datagram ≡ Some m → IsTrue (is_get m.kind) → (received s datagram).reply ≡ Some reply
        → (received s datagram).after ≡ after_get s }
    ensures unanswered { (s : SignState) (datagram : List ℕ) → (received s datagram).reply ≡ None
        → (received s datagram).after ≡ s }
{}

/// At most one row is being validated: as the sign is made, and after whatever comes.
pub fn at_most_one_row_validates()
    ensures start { (config : ConfigModel) (stock : Stock) → IsTable (start config (table_of stock)).table }
    ensures datagram { (s : SignState) (datagram : List ℕ) → IsTable s.table
        → IsTable (received s datagram).after.table }
    ensures tick { (s : SignState) → IsTable s.table → IsTable (after_tick s).table }
    ensures power_loss { (s : SignState) → IsTable s.table → IsTable (after_power_loss s).table }
    ensures power_return { (s : SignState) (seconds : ℕ) → IsTable s.table
        → IsTable (after_power_return s seconds).table }
{}
