//! Laws on the lines to a sign and the objects beside it, each the contract of a function that does nothing.

ghost use Rattle.std.specs.Prelude.{◌≡◌, ℕ, List, [], ◌∷◌, ◌++◌, IsSome, Some, None};
ghost use Rattle.std.specs.Str.Lines.{lines};
ghost use Rattle.dms_wire.specs.Message.{VarBind};
ghost use Rattle.dms_text_streams.specs.Conversation.{ok_line};
ghost use Rattle.dms_sign_state.specs.StateText.{text_of_state};
ghost use Rattle.dms_sign.specs.State.{SignState};
ghost use Rattle.dms_agent.specs.declared.agent.Agent.{Agent};
ghost use Rattle.dms_agent.specs.Promises.{alone};
ghost use Rattle.dms_agent_state.specs.AgentText.{kept_lines, text_of_agent};
ghost use Rattle.dms_agent_state.specs.Alike.{CanAllBeSaved, kept_bindings, AreAlike, AreFirmwares};
ghost use Rattle.dms_agent_state.specs.PutBack.{with_values};
ghost use Rattle.dms_sign_lines.specs.Answer as sign;
ghost use Rattle.dms_agent_lines.specs.AgentCall.{AgentCall, put_back, save};
ghost use Rattle.dms_agent_lines.specs.AgentLine.{SpellsAgentCall, SpellsNoAgentCall};
ghost use Rattle.dms_agent_lines.specs.AgentForm.{call_cause, bad_line_text};
ghost use Rattle.dms_agent_lines.specs.AgentReading.{keyword_in};
ghost use Rattle.dms_agent_lines.specs.AgentAnswer.{answer_text, after_line, after_lines, call_text, after_call};
ghost use Rattle.dms_agent_lines.specs.AgentAnswer.{put_refusal};
ghost use Rattle.dms_agent_lines.specs.Alone.{IsOfSign};
ghost use Rattle.dms_agent_lines.specs.declared.cause.AgentCallCause.{AgentCallCause};
ghost use Rattle.dms_agent_lines.specs.declared.cause.AgentCallCause.TheVariants.{Keyword};

use dms_agent::Agent;

/// A line spells at most one call.
#[tactic(auto, using(crate::proofs::CallLaws::one_call))]
pub fn a_line_spells_at_most_one_call()
    ensures { (line : List ℕ) (call other : AgentCall) → SpellsAgentCall call line → SpellsAgentCall other line
        → call ≡ other }
{}

/// A line that spells no call has a cause, and one that spells a call has none.
pub fn each_line_is_a_call_or_has_a_cause()
    ensures cause { (line : List ℕ) → SpellsNoAgentCall line → IsSome (call_cause line) }
    ensures call { (line : List ℕ) (call : AgentCall) → SpellsAgentCall call line → call_cause line ≡ None }
{}

/// The answer to a line, and what it leaves, are those of the call that the line spells. A line that begins with no
/// word of a call is the sign's; another one that spells none is a bad line, is told why, and changes nothing.
pub fn answers_are_those_of_calls()
    ensures text { (a : Agent) (line : List ℕ) (call : AgentCall) → SpellsAgentCall call line
        → answer_text a line ≡ call_text a call }
    ensures after { (a : Agent) (line : List ℕ) (call : AgentCall) → SpellsAgentCall call line
        → after_line a line ≡ after_call a call }
    ensures of_the_sign { (a : Agent) (line : List ℕ) → keyword_in line ≡ None
        → answer_text a line ≡ sign.answer_text a.sign line }
    ensures beside { (a : Agent) (line : List ℕ) → keyword_in line ≡ None
        → after_line a line ≡ record a { sign = sign.after_line a.sign line } }
    ensures bad_line { (a : Agent) (line : List ℕ) (cause : AgentCallCause) → SpellsNoAgentCall line
        → call_cause line ≡ Some cause → (cause ≡ Keyword → ⊥) → answer_text a line ≡ bad_line_text cause }
    ensures unchanged { (a : Agent) (line : List ℕ) (cause : AgentCallCause) → SpellsNoAgentCall line
        → call_cause line ≡ Some cause → (cause ≡ Keyword → ⊥) → after_line a line ≡ a }
{}

/// Where nothing is published and fonts cannot be read, the answer to a line of which the first word neither publishes
/// nor withdraws, nor lets fonts be read, nor asks what was set, nor puts it back is the sign's, octet for octet, also
/// where the line is a bad one, and what is left is the sign that its own line leaves.
pub fn alone_it_is_the_sign()
    ensures text { (s : SignState) (line : List ℕ) → IsOfSign (keyword_in line)
        → answer_text (alone s) line ≡ sign.answer_text s line }
    ensures after { (s : SignState) (line : List ℕ) → IsOfSign (keyword_in line)
        → after_line (alone s) line ≡ alone (sign.after_line s line) }
{}

/// A line that puts a value back does what `with_values` says, where an object of its name takes the value.
pub fn a_line_puts_a_value_back()
    ensures { (a : Agent) (binding : VarBind) (line : List ℕ) → SpellsAgentCall (put_back binding) line
        → put_refusal a binding ≡ None → after_line a line ≡ with_values a (binding ∷ []) }
{}

/// Where the same names with the same accesses are published, the lines of objects in a saved text put back all that
/// managers set, handed over one by one: what was saved so is saved as the same text, where firmware published all anew
/// beside a sign that has the saved one's text.
pub fn saved_lines_put_values_back(saved: &Agent)
    ensures put { (a : Agent) → CanAllBeSaved saved.now.device → AreAlike saved.now.device a.device
        → after_lines a (lines (kept_lines saved.now.device)) ≡ with_values a (kept_bindings saved.now.device) }
    ensures text { (a : Agent) (line : List ℕ) → CanAllBeSaved saved.now.device → AreAlike saved.now.device a.device
        → AreFirmwares a.device → text_of_state a.sign ≡ text_of_state saved.now.sign → SpellsAgentCall save line
        → answer_text (after_lines a (lines (kept_lines saved.now.device))) line
        ≡ text_of_agent saved.now ++ ok_line }
{
    saved.device().in_order();
}
