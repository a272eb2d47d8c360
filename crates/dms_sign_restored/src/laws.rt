//! What holds of signs that were put in a state.

ghost use Rattle.std.specs.Prelude.{◌≡◌, ◌↔◌, ℕ, None, List};
ghost use Rattle.dms_table.specs.Rows.{TableModel};
ghost use Rattle.dms_sign.specs.declared.config.Config.{Config};
ghost use Rattle.dms_sign.specs.Configuration.{config_fault};
ghost use Rattle.dms_sign.specs.Construction.{CanBeMade};
ghost use Rattle.dms_sign.specs.State.{ConfigModel, SignState, start};
ghost use Rattle.dms_sign_state.specs.StateText.{text_of_state};
ghost use Rattle.dms_sign_restored.specs.Restored.{made, IsPut, IsRestored};
ghost use Rattle.dms_sign_restored.specs.Alike.{AreMadeAlike};
ghost use Rattle.dms_sign_restored.specs.Runs.{SignEvent, after_events, RunStep, events_in, Lead};
ghost use Rattle.dms_sign_restored.specs.Showing.{ShowsWhatIsGood};

use dms_codes::laws::ids_are_their_octets;
use dms_sign::Sign;
use dms_sign::laws::signs_are_kept;
use dms_sign_state::laws::texts_tell_states_apart;
use dms_table::laws::unused_rows_are_empty;

/// A sign that is restored of a text has this text, and so has one that is put in its state as it was made.
pub fn restored_signs_have_their_text()
    ensures restored { (config : Config) (text : List ℕ) (s : SignState) → IsRestored config text s
        → text_of_state s ≡ text }
    ensures put { (config : ConfigModel) (table : TableModel) (text : List ℕ) (s : SignState) → CanBeMade config table
        → IsPut (start config table) text s → text_of_state s ≡ text }
{
    ids_are_their_octets();
}

/// Whatever text it is restored of, a sign shows nothing, or a message that is good under the copy of the defaults with
/// it, that it has the services for, and whose checksum is that of its source; and so it is with what was shown as the
/// power was lost. So what holds of every run holds of one that begins with a restored sign.
pub fn restored_signs_show_what_is_good()
    ensures restored { (config : Config) (text : List ℕ) (s : SignState) → IsRestored config text s
        → ShowsWhatIsGood s }
    ensures put { (sign : SignState) (text : List ℕ) (s : SignState) → IsPut sign text s → ShowsWhatIsGood s }
{}

/// A text is the state of one sign at most: two signs that are restored of it by one configuration are one, and so are
/// two in whose states one sign was put by it.
pub fn a_text_restores_one_sign()
    ensures restored { (config : Config) (text : List ℕ) (one other : SignState) → IsRestored config text one
        → IsRestored config text other → one ≡ other }
    ensures put { (sign : SignState) (text : List ℕ) (one other : SignState) → IsPut sign text one
        → IsPut sign text other → one ≡ other }
{
    texts_tell_states_apart();
}

/// What is restored of a saved sign is that sign, whatever came to it before: a sign that is restored of its text, or
/// put in its state as it was made, by the configuration that the saved one was made with. So every further call
/// answers the same.
pub fn a_saved_sign_is_restored_as_itself(saved: &Sign, again: &Sign)
    ensures restored { (config : Config) → AreMadeAlike (made config) saved.now
        → IsRestored config (text_of_state saved.now) again.now → again.now ≡ saved.now }
    ensures put { (config : ConfigModel) (table : TableModel) → CanBeMade config table
        → AreMadeAlike (start config table) saved.now
        → IsPut (start config table) (text_of_state saved.now) again.now → again.now ≡ saved.now }
{
    signs_are_kept(saved);
    signs_are_kept(again);
    unused_rows_are_empty(saved.table());
    unused_rows_are_empty(again.table());
    texts_tell_states_apart();
    ids_are_their_octets();
}

/// No sign is lost by saving it: whatever came to a sign since it was made, its text is that of a state of the
/// configuration, and just this sign is restored of it; and so it is put in one as it was made.
pub fn each_sign_is_restored(first: &Sign)
    ensures restored { (config : Config) (events : List SignEvent) → config_fault config ≡ None
        → first.now ≡ made config
        → IsRestored config (text_of_state (after_events first.now events)) (after_events first.now events) }
    ensures put { (config : ConfigModel) (table : TableModel) (events : List SignEvent) → CanBeMade config table
        → first.now ≡ start config table
        → IsPut first.now (text_of_state (after_events first.now events)) (after_events first.now events) }
{
    signs_are_kept(first);
    ids_are_their_octets();
}

/// A run in which the sign is saved and restored any number of times leads just where it leads without that.
pub fn saves_leave_runs_as_they_are(first: &Sign)
    ensures { (config : Config) (steps : List RunStep) (last : SignState) → config_fault config ≡ None
        → first.now ≡ made config
        → Lead config first.now steps last ↔ (last ≡ after_events first.now (events_in steps)) }
{
    signs_are_kept(first);
    texts_tell_states_apart();
    ids_are_their_octets();
}
