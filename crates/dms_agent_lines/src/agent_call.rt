//! What a line asks of an agent.

use dms_device::ManagerAccess;
use dms_text_values::{NameRead, ValueWords};
use std::marker::Model;

/// What a line asks of an agent.
#[derive(Drop)]
pub(crate) enum AgentCall<'a> {
    /// `datagram OCTETS`: the agent receives these octets.
    Receive(Vec<u8>),
    /// `object NAME VALUE ACCESS`: an object is published.
    Publish(ObjectWords<'a>),
    /// `no-object NAME`: the object of a name is withdrawn.
    Withdraw(NameRead),
    /// `fonts`: the objects of the sign's fonts can be read.
    ShowFonts,
    /// `objects`: firmware is told which objects a manager set.
    Tell,
    /// `set NAME VALUE`: an object gets the value back that a manager had set.
    PutBack(SetWords<'a>),
    /// `save`: the state is asked for.
    Save,
}

/// The words of an object, read. A contract sees the object that they spell; a message can have its value.
#[derive(Drop)]
pub(crate) struct ObjectWords<'a> {
    pub(crate) name: NameRead,
    pub(crate) value: ValueWords<'a>,
    pub(crate) access: ManagerAccess,
}

impl<'a> Model for ObjectWords<'a> {
    ghost use Rattle.std.specs.Prelude.{◌≡◌, true};
    ghost use Rattle.dms_device.specs.Object.{can_be_sent};
    ghost use Rattle.dms_text_values.specs.View.{worded_value};
    ghost use Rattle.dms_agent_lines.specs.AgentCall.{NewObject};

    ghost Value = { NewObject };

    ghost view = { λ a. record { name = a.name; value = worded_value a.value; access = a.access } };

    ghost invariant = { λ a. can_be_sent (worded_value a.value) ≡ true };
}

/// The words of a value that is put back, read. A contract sees the binding that they spell; a message can have its
/// value.
#[derive(Drop)]
pub(crate) struct SetWords<'a> {
    pub(crate) name: NameRead,
    pub(crate) value: ValueWords<'a>,
}

impl<'a> Model for SetWords<'a> {
    ghost use Rattle.std.specs.Prelude.{◌≡◌, true};
    ghost use Rattle.dms_wire.specs.Message.{VarBind};
    ghost use Rattle.dms_device.specs.Object.{can_be_sent};
    ghost use Rattle.dms_text_values.specs.View.{worded_value};

    ghost Value = { VarBind };

    ghost view = { λ a. record { name = a.name; value = worded_value a.value } };

    ghost invariant = { λ a. can_be_sent (worded_value a.value) ≡ true };
}
