//! Laws on the lines to a live sign, each the contract of a function that does nothing.

ghost use Rattle.std.specs.Prelude.{◌≡◌, ℕ, List, codes, fold, replicate, IsTrue, IsSome, Some, None, Ok};
ghost use Rattle.dms_wire.specs.Message.{SnmpMessage};
ghost use Rattle.dms_wire.specs.MessageOf.{message_of};
ghost use Rattle.dms_face.specs.Face.{is_face};
ghost use Rattle.dms_face.specs.Layout.{under};
ghost use Rattle.dms_face_pages.specs.Drawn.{drawn_text};
ghost use Rattle.dms_table.specs.Rows.{TableModel};
ghost use Rattle.dms_sign.specs.State.{ConfigModel, SignState, start};
ghost use Rattle.dms_sign.specs.Reply.{received};
ghost use Rattle.dms_sign.specs.Promises.{is_get};
ghost use Rattle.dms_sign_lines.specs.SignCall.{SignCall, datagram, ticks};
ghost use Rattle.dms_sign_lines.specs.SignForm.{call_cause, bad_line_text};
ghost use Rattle.dms_sign_lines.specs.SignLine.{SpellsSignCall, SpellsNoSignCall};
ghost use Rattle.dms_sign_lines.specs.declared.cause.SignCallCause.{SignCallCause};
ghost use Rattle.dms_sign_lines.specs.Answer.{answer_text, after_line, call_text, after_call, shown_pages};
ghost use Rattle.dms_sign_lines.specs.GoodTexts.{ShowsGoodTexts};

/// A line spells at most one call.
#[tactic(auto, using(crate::proofs::CallLaws::one_call))]
pub fn a_line_spells_at_most_one_call()
    ensures { (line : List ℕ) (call other : SignCall) → SpellsSignCall call line → SpellsSignCall other line
        → call ≡ other }
{}

/// A line that spells no call has a cause, and one that spells a call has none.
#[tactic(auto, using(crate::proofs::Causes::cause_of_no_call, crate::proofs::Causes::no_cause_of_call))]
pub fn each_line_is_a_call_or_has_a_cause()
    ensures cause { (line : List ℕ) → SpellsNoSignCall line → IsSome (call_cause line) }
    ensures call { (line : List ℕ) (call : SignCall) → SpellsSignCall call line → call_cause line ≡ None }
{}

/// The answer to a line, and the sign after it, are those of the call that the line spells; one that spells none is a
/// bad line, is told why, and changes nothing.
pub fn answers_are_those_of_calls()
    ensures text { (s : SignState) (line : List ℕ) (call : SignCall) → SpellsSignCall call line
        → answer_text s line ≡ call_text s call }
    ensures after { (s : SignState) (line : List ℕ) (call : SignCall) → SpellsSignCall call line
        → after_line s line ≡ after_call s call }
    ensures bad_line { (s : SignState) (line : List ℕ) (cause : SignCallCause) → SpellsNoSignCall line
        → call_cause line ≡ Some cause → answer_text s line ≡ bad_line_text cause }
    ensures unchanged { (s : SignState) (line : List ℕ) → SpellsNoSignCall line → after_line s line ≡ s }
{}

/// `ticks N` leaves what N lines `tick` leave.
#[tactic(auto, using(crate::proofs::Seconds::ticks_are_ticks))]
pub fn ticks_are_so_many_lines_tick()
    ensures { (s : SignState) (seconds : ℕ) (line : List ℕ) → SpellsSignCall (ticks seconds) line
        → after_line s line ≡ fold after_line s (replicate seconds (codes "tick")) }
{}

/// A Get or a GetNext that is answered leaves what `heard` leaves; a datagram that is not answered changes nothing.
pub fn gets_leave_what_heard_leaves()
    ensures answered { (s : SignState) (m : SnmpMessage) (octets reply line : List ℕ) → message_of octets ≡ Some m
        → IsTrue (is_get m.kind) → (received s octets).reply ≡ Some reply → SpellsSignCall (datagram octets) line
        → after_line s line ≡ after_line s (codes "heard") }
    ensures unanswered { (s : SignState) (octets line : List ℕ) → (received s octets).reply ≡ None
        → SpellsSignCall (datagram octets) line → after_line s line ≡ s }
{}

/// What a sign shows can be drawn: as the sign is made, and after every line. Its pages are then those that `show`
/// gives.
#[tactic(auto, using(crate::proofs::GoodTexts::good_is_drawn))]
pub fn signs_show_good_texts()
    ensures made { (config : ConfigModel) (table : TableModel) → IsTrue (is_face config.face)
        → ShowsGoodTexts (start config table) }
    ensures line { (s : SignState) (line : List ℕ) → ShowsGoodTexts s → ShowsGoodTexts (after_line s line) }
    ensures drawn { (s : SignState) → ShowsGoodTexts s
        → drawn_text (under s.config.face s.shown.defaults) s.shown.text ≡ Ok (shown_pages s) }
{}
