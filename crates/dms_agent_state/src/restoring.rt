//! Values that a manager set before, put back to published objects.

ghost use Rattle.std.specs.Prelude.{◌≡◌, OnOk, OnErr, IfErr};
ghost use Rattle.dms_agent_state.specs.PutBack.{ArePutBack, IsWhy};
ghost use Rattle.dms_agent_state.specs.ValueLines.{values_of};

use crate::fault::SetError;
use crate::reading::saved_values;
use dms_agent::Agent;
use std::alloc::Global;

/// Puts the values that the text of a state says back to the published objects of their names: each that takes its
/// value has it as if a manager had set it now, so that firmware is told of it again (`Device::first_set`). Values of
/// objects that are not published, or do not take them, are left out. Where a line says no value, or memory runs out,
/// nothing changes.
pub fn put_objects(alloc: Global, agent: &mut Agent, text: &[u8]) -> Result<(), SetError>
    ensures put { OnOk result (ArePutBack agent.old text.now agent.new) }
    ensures kept { OnErr result (agent.new ≡ agent.old) }
    ensures fault { IfErr result (λ error. IsWhy error (values_of text.now)) }
{
    let values = saved_values(alloc, text)?;
    agent.put_back(values.as_slice());
    Ok(())
}
