//! What holds of each text of an agent's state, stated as functions with nothing to run.

ghost use Rattle.std.specs.Prelude.{◌≡◌, ℕ, List, ◌++◌, map, Ok, None};
ghost use Rattle.dms_wire.specs.Message.{ObjectValue, VarBind};
ghost use Rattle.dms_wire.specs.Limits.{AreBindingsInLimits};
ghost use Rattle.dms_device.specs.declared.access.ManagerAccess.{ManagerAccess};
ghost use Rattle.dms_device.specs.Object.{DeviceObject, object_fault, new_object};
ghost use Rattle.dms_device.specs.Publishing.{published, withdrawn};
ghost use Rattle.dms_device.specs.Setting.{written};
ghost use Rattle.dms_device.specs.Taken.{told, told_first};
ghost use Rattle.dms_agent.specs.Received.{agent_received};
ghost use Rattle.dms_sign_state.specs.StateText.{text_of_state};
ghost use Rattle.dms_agent.specs.declared.agent.Agent.{Agent};
ghost use Rattle.dms_agent_state.specs.AgentText.{kept_lines, text_of_agent};
ghost use Rattle.dms_agent_state.specs.Parts.{sign_part, objects_part};
ghost use Rattle.dms_agent_state.specs.ValueLines.{values_of};
ghost use Rattle.dms_agent_state.specs.PutBack.{with_values};
ghost use Rattle.dms_agent_state.specs.Alike.{CanBeSaved, CanAllBeSaved, kept_bindings, AreAlike};
ghost use Rattle.dms_agent_state.specs.Alike.{all_taken_over, AreFirmwares};

use dms_agent::Agent;
use dms_sign::laws::signs_are_kept;

/// The parts of a saved text are those of which it was made: so the sign that is restored of the first is the saved one
/// (`dms_sign_restored::laws`).
pub fn saved_texts_are_cut(agent: &Agent)
    ensures sign { sign_part (text_of_agent agent.now) ≡ text_of_state agent.now.sign }
    ensures objects { objects_part (text_of_agent agent.now) ≡ kept_lines agent.now.device }
{
    signs_are_kept(agent.sign());
}

/// A saved text says the values that managers set; and put back where the same names with the same accesses are
/// published, each object has the saved one's value, where a manager had set that.
pub fn saved_values_are_put_back(saved: &Agent)
    ensures said { CanAllBeSaved saved.now.device
        → values_of (text_of_agent saved.now) ≡ Ok (kept_bindings saved.now.device) }
    ensures put { (a : Agent) → CanAllBeSaved saved.now.device → AreAlike saved.now.device a.device
        → with_values a (kept_bindings saved.now.device)
        ≡ record a { device = all_taken_over saved.now.device a.device } }
{
    signs_are_kept(saved.sign());
    saved.device().in_order();
}

/// Where firmware published the same anew, and the sign is the saved one's, what is put back of a saved text is saved
/// as the same text.
pub fn saved_texts_are_saved_again(saved: &Agent)
    ensures { (a : Agent) → CanAllBeSaved saved.now.device → AreAlike saved.now.device a.device
        → AreFirmwares a.device → a.sign ≡ saved.now.sign
        → text_of_agent (with_values a (kept_bindings saved.now.device)) ≡ text_of_agent saved.now }
{
    saved.device().in_order();
}

/// Two lists of values that are put back one after the other are put back as if they were one: so each value may be put
/// back by itself.
pub fn values_are_put_back_in_turn()
    ensures { (a : Agent) (first second : List VarBind)
        → with_values a (first ++ second) ≡ with_values (with_values a first) second }
{}

/// All objects can be saved, whatever comes to them: an object that is made can, and what is published, withdrawn, told
/// and put back leaves it so.
pub fn objects_can_be_saved()
    ensures made { (octets : List ℕ) (value : ObjectValue) (access : ManagerAccess)
        → object_fault octets value access ≡ None → CanBeSaved (new_object octets value access) }
    ensures published { (objects : List DeviceObject) (object : DeviceObject) → CanAllBeSaved objects
        → CanBeSaved object → CanAllBeSaved (published objects object) }
    ensures withdrawn { (objects : List DeviceObject) (name : List ℕ) → CanAllBeSaved objects
        → CanAllBeSaved (withdrawn objects name) }
    ensures told { (objects : List DeviceObject) → CanAllBeSaved objects → CanAllBeSaved (map told objects) }
    ensures first_told { (objects : List DeviceObject) → CanAllBeSaved objects → CanAllBeSaved (told_first objects) }
    ensures put_back { (objects : List DeviceObject) (bindings : List VarBind) → AreBindingsInLimits bindings
        → CanAllBeSaved objects → CanAllBeSaved (written objects bindings) }
    ensures read { (text : List ℕ) (bindings : List VarBind) → values_of text ≡ Ok bindings
        → AreBindingsInLimits bindings }
{}

/// Whatever datagram comes to an agent, its objects can be saved afterwards where they could before.
pub fn datagrams_leave_what_can_be_saved()
    ensures { (a : Agent) (datagram : List ℕ) → CanAllBeSaved a.device
        → CanAllBeSaved (agent_received a datagram).after.device }
{}
