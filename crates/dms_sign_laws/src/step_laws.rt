//! Laws on what comes of a sign's rows and of what it shows, stated as functions with nothing to run.

ghost use Rattle.std.specs.Prelude.{ℕ, List, None};
ghost use Rattle.dms_sign.specs.State.{SignState};
ghost use Rattle.dms_sign.specs.Reply.{received};
ghost use Rattle.dms_sign.specs.Events.{after_tick, after_power_loss, after_power_return};
ghost use Rattle.dms_sign.specs.Transitions.{IsSignStep, HasFitDefaults};

/// Whatever comes to a sign makes one step of it: rows become valid where they can be shown, and what is shown then
/// is blank, or a valid row whose checksum stands in the code that was accepted, or in one of the sign's own.
pub fn each_event_is_a_step()
    ensures datagram { (s : SignState) (octets : List ℕ)
        → IsSignStep s (received s octets).after (received s octets).accepted }
    ensures tick { (s : SignState) → IsSignStep s (after_tick s) None }
    ensures power_loss { (s : SignState) → IsSignStep s (after_power_loss s) None }
    ensures power_return { (s : SignState) (seconds : ℕ) → IsSignStep s (after_power_return s seconds) None }
{}

/// The defaults stay in their ranges, and go on to name a font of the face.
pub fn defaults_stay_fit()
    ensures datagram { (s : SignState) (octets : List ℕ) → HasFitDefaults s → HasFitDefaults (received s octets).after }
    ensures tick { (s : SignState) → HasFitDefaults s → HasFitDefaults (after_tick s) }
    ensures power_loss { (s : SignState) → HasFitDefaults s → HasFitDefaults (after_power_loss s) }
    ensures power_return { (s : SignState) (seconds : ℕ) → HasFitDefaults s
        → HasFitDefaults (after_power_return s seconds) }
{}
