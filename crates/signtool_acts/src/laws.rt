//! What holds of conversations that begin with a state.

ghost use Rattle.std.specs.Prelude.{◌≡◌, ℕ, List, ◌++◌};
ghost use Rattle.std.specs.Str.Lines.{lines};
ghost use Rattle.dms_table.specs.Rows.{TableModel};
ghost use Rattle.dms_sign.specs.Construction.{CanBeMade};
ghost use Rattle.dms_sign.specs.State.{ConfigModel, SignState, start};
ghost use Rattle.dms_sign_state.specs.StateText.{text_of_state};
ghost use Rattle.dms_sign_text.specs.declared.setup.Setup.{Setup};
ghost use Rattle.dms_sign_text.specs.Description.{Description, SpellsSign};
ghost use Rattle.dms_sign_text.specs.Setups.{IsMade};
ghost use Rattle.dms_sign_restored.specs.Restored.{IsPut};
ghost use Rattle.dms_sign_lines.specs.Answer.{answer_text, after_line};
ghost use Rattle.dms_sign_lines.specs.SignCall.{save};
ghost use Rattle.dms_sign_lines.specs.SignLine.{SpellsSignCall};
ghost use Rattle.dms_agent.specs.declared.agent.Agent.{Agent};
ghost use Rattle.dms_agent_state.specs.AgentText.{text_of_agent};
ghost use Rattle.dms_agent_state.specs.Parts.{sign_part, objects_part};
ghost use Rattle.dms_agent_state.specs.Alike.{CanAllBeSaved, AreAlike, AreFirmwares};
ghost use Rattle.dms_agent_lines.specs.AgentAnswer as agent_answers;
ghost use Rattle.dms_agent_lines.specs.AgentCall as agent_calls;
ghost use Rattle.dms_agent_lines.specs.AgentLine.{SpellsAgentCall};
ghost use Rattle.dms_text_streams.specs.Conversation.{ok_line, answers, left_by_all};
ghost use Rattle.dms_centre_jobs.specs.Job.{SettingsModel};
ghost use Rattle.dms_centre.specs.State.{CentreState};
ghost use Rattle.dms_centre_restored.specs.Restored.{IsRestored};
ghost use Rattle.dms_centre_lines.specs.Answers as centre_answers;
ghost use Rattle.dms_centre_lines.specs.Calls as centre_calls;
ghost use Rattle.dms_centre_lines.specs.SpelledCalls.{SpellsCentreCall};

use dms_agent::Agent;
use dms_agent_lines::laws::saved_lines_put_values_back;
use dms_agent_state::laws::saved_texts_are_cut;
use dms_centre_restored::laws::restored_centres_are_one;
use dms_sign::Sign;
use dms_sign_lines::laws::answers_are_those_of_calls;
use dms_sign_restored::laws::{
    a_text_restores_one_sign, each_sign_is_restored, restored_signs_have_their_text,
};

/// A sign as it was described that is put in the state of a text answers a line `save` with this text.
pub fn restored_signs_save_their_text()
    ensures { (lines : List (List ℕ)) (it : Description) (setup : Setup) (text line : List ℕ) (s : SignState)
        → SpellsSign lines it → IsMade it setup → IsPut setup.sign text s → SpellsSignCall save line
        → answer_text s line ≡ text ++ ok_line }
{
    answers_are_those_of_calls();
    restored_signs_have_their_text();
}

/// A sign that is saved in the middle of a conversation goes on in another process: whatever lines came to it since it
/// was made, it is put in the state of its text, and what is put in that state answers all further lines, those of a
/// journal too, as the saved one would have.
pub fn restored_signs_go_on(first: &Sign)
    ensures saved { (config : ConfigModel) (table : TableModel) (lines : List (List ℕ)) → CanBeMade config table
        → first.now ≡ start config table
        → IsPut first.now (text_of_state (left_by_all after_line first.now lines))
        (left_by_all after_line first.now lines) }
    ensures answers { (config : ConfigModel) (table : TableModel) (lines more : List (List ℕ)) (again : SignState)
        → CanBeMade config table → first.now ≡ start config table
        → IsPut first.now (text_of_state (left_by_all after_line first.now lines)) again
        → answers answer_text after_line again more
        ≡ answers answer_text after_line (left_by_all after_line first.now lines) more }
{
    each_sign_is_restored(first);
    a_text_restores_one_sign();
}

/// A sign as it was described that is put in the state of a saved text, beside which the same names with the same
/// accesses are published anew, and which is handed the lines behind that state one by one, answers a line `save` with
/// the whole text.
pub fn restored_agents_save_their_text(saved: &Agent)
    ensures { (described : List (List ℕ)) (it : Description) (setup : Setup) (a : Agent) (line : List ℕ)
        → SpellsSign described it → IsMade it setup → IsPut setup.sign (sign_part (text_of_agent saved.now)) a.sign
        → CanAllBeSaved saved.now.device → AreAlike saved.now.device a.device → AreFirmwares a.device
        → SpellsAgentCall agent_calls.save line
        → agent_answers.answer_text
        (agent_answers.after_lines a (lines (objects_part (text_of_agent saved.now)))) line
        ≡ text_of_agent saved.now ++ ok_line }
{
    saved_lines_put_values_back(saved);
    saved_texts_are_cut(saved);
    restored_signs_have_their_text();
}

/// A central system that goes on from the state of a text answers a line `save` with this text.
pub fn restored_centres_save_their_text()
    ensures { (settings : SettingsModel) (text line : List ℕ) (s : CentreState) → IsRestored settings text s
        → SpellsCentreCall settings.order centre_calls.save line
        → centre_answers.answer_text s line ≡ text ++ ok_line }
{
    dms_centre_lines::laws::answers_are_those_of_calls();
    restored_centres_are_one();
}
