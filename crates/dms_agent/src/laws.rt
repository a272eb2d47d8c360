//! Laws on an agent, stated as functions with nothing to run.

ghost use Rattle.std.specs.Prelude.{◌≡◌, ◌≤◌, ℕ, List, length, true, Some};
ghost use Rattle.dms_wire_ber.specs.Limits.{longest_datagram};
ghost use Rattle.dms_wire.specs.Message.{SnmpMessage};
ghost use Rattle.dms_wire.specs.MessageOf.{message_of};
ghost use Rattle.dms_wire.specs.Canonical.{canonical};
ghost use Rattle.dms_wire.specs.Response.{response_to};
ghost use Rattle.dms_mib_replies.specs.Walk.{IsWalk};
ghost use Rattle.dms_sign.specs.State.{SignState};
ghost use Rattle.dms_sign.specs.Reply.{received};
ghost use Rattle.dms_agent.specs.declared.agent.Agent.{Agent};
ghost use Rattle.dms_agent.specs.Values.{agent_value, agent_after};
ghost use Rattle.dms_agent.specs.Received.{of_sign, agent_received};
ghost use Rattle.dms_agent.specs.Promises.{alone, is_done, objects_after};

use crate::agent::Agent;
use dms_device_fonts::laws::fonts_are_walked;

/// Where nothing is published and fonts cannot be read, what comes of a datagram is what comes of it for the sign.
pub fn alone_it_is_the_sign()
    ensures { (s : SignState) (datagram : List ℕ)
        → agent_received (alone s) datagram ≡ of_sign (alone s) (received s datagram) }
{}

/// Of all datagrams a Set that is done alone changes the objects that are published, and it writes its values.
pub fn objects_change_by_sets_alone()
    ensures { (a : Agent) (m : SnmpMessage) (datagram : List ℕ) → message_of datagram ≡ Some m
        → (agent_received a datagram).after.device ≡ objects_after a m }
{}

/// A Set that is done is answered by no error, and never by tooBig.
pub fn what_is_done_is_never_too_big()
    ensures { (a : Agent) (m : SnmpMessage) (datagram : List ℕ) → message_of datagram ≡ Some m
        → is_done a m ≡ true → (agent_received a datagram).reply ≡ Some (canonical (response_to m 0 0)) }
{}

/// A walk names each name that is read, of the sign's, its fonts' and the device's, once and in the order of names.
pub fn walks_are_in_order(agent: &Agent)
    ensures { IsWalk (agent_value agent.now) (agent_after agent.now) }
{
    agent.device.in_order();
    fonts_are_walked();
}

/// Each reply fits a datagram.
pub fn replies_fit_a_datagram()
    ensures { (a : Agent) (datagram reply : List ℕ) → (agent_received a datagram).reply ≡ Some reply
        → length reply ≤ longest_datagram }
{}
