//! What holds of the states that a central system comes to, and of their texts, stated as functions with nothing to
//! run.

ghost use Rattle.std.specs.Prelude.{◌≡◌, ◌<◌, ◌^◌, ℕ, List};
ghost use Rattle.std.specs.List.{AllByRecursion};
ghost use Rattle.dms_centre_jobs.specs.Job.{SettingsModel};
ghost use Rattle.dms_centre_jobs.specs.Requests.{AreSettings};
ghost use Rattle.dms_centre.specs.State.{CentreState, start};
ghost use Rattle.dms_centre.specs.History.{Input, IsInput, made, move_at, after_inputs};
ghost use Rattle.dms_centre_state.specs.CentreText.{text_of_state};
ghost use Rattle.dms_centre_state.specs.Reached.{IsReached};

/// `IsReached` holds of the state that a central system is made in, and from each state of which it holds of that
/// after any input: so of all that it comes to.
pub fn states_are_reached()
    ensures made { (settings : SettingsModel) (first : ℕ) → AreSettings settings → first < 2 ^ 32
        → IsReached (start settings first) }
    ensures input { (state : CentreState) (input : Input) → IsReached state → IsInput input
        → IsReached (move_at state input).state }
    ensures inputs { (settings : SettingsModel) (first : ℕ) (inputs : List Input) → AreSettings settings
        → first < 2 ^ 32 → AllByRecursion IsInput inputs
        → IsReached (after_inputs (made settings first) inputs).state }
{}

/// Two states that a central system comes to with the same settings have two texts.
pub fn texts_tell_states_apart()
    ensures { (one other : CentreState) → IsReached one → IsReached other → one.settings ≡ other.settings
        → text_of_state one ≡ text_of_state other → one ≡ other }
{}
