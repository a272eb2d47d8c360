//! What holds of central systems that were restored, stated as a function with nothing to run.

ghost use Rattle.std.specs.Prelude.{◌≡◌, ◌<◌, ◌^◌, ℕ, List};
ghost use Rattle.std.specs.List.{AllByRecursion};
ghost use Rattle.dms_centre_jobs.specs.Job.{SettingsModel};
ghost use Rattle.dms_centre_jobs.specs.Requests.{AreSettings};
ghost use Rattle.dms_centre.specs.State.{CentreState};
ghost use Rattle.dms_centre.specs.History.{IsInput, History, made, after_inputs};
ghost use Rattle.dms_centre_state.specs.CentreText.{text_of_state};
ghost use Rattle.dms_centre_state.specs.Reached.{IsReached};
ghost use Rattle.dms_centre_restored.specs.declared.refusal.CentreStateFault.{CentreStateFault};
ghost use Rattle.dms_centre_restored.specs.Restored.{IsRestored};
ghost use Rattle.dms_centre_restored.specs.Faults.{IsWrongAt};
ghost use Rattle.dms_centre_restored.specs.Saves.{Event, Goes, inputs_of};

use dms_centre_state::laws::{states_are_reached, texts_tell_states_apart};

/// A text makes at most one state of central systems of the same settings, and the text of this state is that text.
pub fn restored_centres_are_one()
    ensures one { (settings : SettingsModel) (text : List ℕ) (one other : CentreState)
        → IsRestored settings text one → IsRestored settings text other → one ≡ other }
    ensures text { (settings : SettingsModel) (text : List ℕ) (state : CentreState)
        → IsRestored settings text state → text_of_state state ≡ text }
{
    texts_tell_states_apart();
}

/// A text goes wrong at one line, whatever is told to be wanted there: so it is the first that is not as it must be.
pub fn a_text_goes_wrong_at_one_line()
    ensures { (settings : SettingsModel) (text : List ℕ) (one other : CentreStateFault) → IsWrongAt settings text one
        → IsWrongAt settings text other → one.line ≡ other.line }
{}

/// What is restored of a saved central system, by its settings, is that central system, whatever came to it before: so
/// every further call answers the same. It can be restored.
pub fn a_saved_centre_is_restored_as_itself()
    ensures itself { (saved again : CentreState) → IsReached saved
        → IsRestored saved.settings (text_of_state saved) again → again ≡ saved }
    ensures can { (saved : CentreState) → IsReached saved → IsRestored saved.settings (text_of_state saved) saved }
{
    texts_tell_states_apart();
}

/// A run in which a central system is saved and restored between any two inputs ends as that without: in the same
/// state, and with the same datagrams sent.
pub fn saves_change_no_run()
    ensures { (settings : SettingsModel) (first : ℕ) (events : List Event) (after : History) → AreSettings settings
        → first < 2 ^ 32 → AllByRecursion IsInput (inputs_of events) → Goes events (made settings first) after
        → after ≡ after_inputs (made settings first) (inputs_of events) }
{
    texts_tell_states_apart();
    states_are_reached();
}
