//! Laws of scripts, each the contract of a function that does nothing.

ghost use Rattle.std.specs.Prelude.{◌≡◌, ℕ, List};
ghost use Rattle.std.specs.Int.Digits.{AllBelowBase};
ghost use Rattle.dms_codes.specs.declared.codes.Order.{Order};
ghost use Rattle.dms_world.specs.Event.{EventModel};
ghost use Rattle.dms_sign_text.specs.Description.{Description};
ghost use Rattle.dms_replay.specs.EventLine.{SpellsEvent};
ghost use Rattle.dms_replay.specs.RefusedScript.{IsRefusedIn};
ghost use Rattle.dms_replay.specs.Replayed.{IsLawful};
ghost use Rattle.dms_replay.specs.Script.{SpellsScript};

use dms_world::laws::{always_holds, headline_holds};

/// A text spells at most one script.
#[tactic(auto, using(crate::proofs::ScriptRead::one_script))]
pub fn a_text_spells_at_most_one_script()
    ensures { (octets : List ℕ) (one other : Description) (events others : List EventModel)
        → SpellsScript octets one events
        → SpellsScript octets other others → (one ≡ other) × (events ≡ others) }
{}

/// A line spells at most one event.
#[tactic(auto, using(crate::proofs::EventLaws::one_event))]
pub fn a_line_spells_at_most_one_event()
    ensures { (order : Order) (line : List ℕ) (one other : EventModel) → SpellsEvent order one line
        → SpellsEvent order other line → one ≡ other }
{}

/// A text is refused as a script for at most one line.
pub fn a_text_is_refused_for_at_most_one_line()
    ensures { (octets : List ℕ) (one other : ℕ) → IsRefusedIn octets one → IsRefusedIn octets other → one ≡ other }
{}

/// What holds of every run holds of each script's: its world begins as its two ends are made, and its commands are in
/// range.
pub fn scripts_run_lawfully()
    ensures { (octets : List ℕ) (sign : Description) (events : List EventModel) → AllBelowBase 256 octets
        → SpellsScript octets sign events
        → IsLawful sign events }
{
    headline_holds();
    always_holds();
}
