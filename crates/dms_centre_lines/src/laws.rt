//! Laws on the lines to a central system, each the contract of a function that does nothing.

ghost use Rattle.std.specs.Prelude.{◌≡◌, ℕ, List, IsSome, Some, None};
ghost use Rattle.dms_codes.specs.declared.codes.Order.{Order};
ghost use Rattle.dms_centre.specs.State.{CentreState};
ghost use Rattle.dms_centre_lines.specs.Answers.{answer_text, after_line, call_text, after_call};
ghost use Rattle.dms_centre_lines.specs.CallForm.{call_cause, bad_line_text};
ghost use Rattle.dms_centre_lines.specs.Calls.{CentreCall};
ghost use Rattle.dms_centre_lines.specs.CallReading.{call_of};
ghost use Rattle.dms_centre_lines.specs.SpelledCalls.{SpellsCentreCall, SpellsNoCall};
ghost use Rattle.dms_centre_lines.specs.declared.cause.CentreCallCause.{CentreCallCause};

/// The call that is read of a line is spelled by it, and a call that a line spells is read of it.
pub fn calls_are_read_where_they_are_spelled()
    ensures found { (order : Order) (line : List ℕ) (call : CentreCall) → call_of order line ≡ Some call
        → SpellsCentreCall order call line }
    ensures only { (order : Order) (line : List ℕ) (call : CentreCall) → SpellsCentreCall order call line
        → call_of order line ≡ Some call }
{}

/// A line spells at most one call.
pub fn a_line_spells_at_most_one_call()
    ensures { (order : Order) (line : List ℕ) (call other : CentreCall) → SpellsCentreCall order call line
        → SpellsCentreCall order other line
        → call ≡ other }
{}

/// A line that spells no call has a cause, and one that spells a call has none.
pub fn each_line_is_a_call_or_has_a_cause()
    ensures cause { (order : Order) (line : List ℕ) → SpellsNoCall order line → IsSome (call_cause line) }
    ensures call { (order : Order) (line : List ℕ) (call : CentreCall) → SpellsCentreCall order call line
        → call_cause line ≡ None }
{}

/// The answer to a line, and the central system after it, are those of the call that the line spells; a line that
/// spells none is a bad line, is told why, and changes nothing.
pub fn answers_are_those_of_calls()
    ensures text { (state : CentreState) (line : List ℕ) (call : CentreCall)
        → SpellsCentreCall state.settings.order call line
        → answer_text state line ≡ call_text state call }
    ensures after { (state : CentreState) (line : List ℕ) (call : CentreCall)
        → SpellsCentreCall state.settings.order call line
        → after_line state line ≡ after_call state (Some call) }
    ensures bad_line { (state : CentreState) (line : List ℕ) (cause : CentreCallCause)
        → SpellsNoCall state.settings.order line → call_cause line ≡ Some cause
        → answer_text state line ≡ bad_line_text cause }
    ensures unchanged { (state : CentreState) (line : List ℕ) → SpellsNoCall state.settings.order line
        → after_line state line ≡ state }
{}
