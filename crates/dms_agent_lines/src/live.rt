//! An agent that answers lines.

use dms_agent::Agent;
use dms_text_streams::Party;
use std::alloc::{AllocError, Global};
use std::marker::Model;

/// A sign and the objects beside it, which answer lines.
#[derive(Drop)]
pub struct LiveAgent {
    agent: Agent,
}

impl Model for LiveAgent {
    ghost use Rattle.dms_agent.specs.declared.agent.Agent.{Agent};

    ghost Value = { Agent };

    ghost view = { λ party. party.agent };
}

impl LiveAgent {
    ghost use Rattle.std.specs.Prelude.{◌≡◌};

    /// This agent, which answers lines from now on.
    pub fn new(agent: Agent) -> LiveAgent
        ensures { result ≡ agent }
    {
        LiveAgent { agent }
    }
}

impl Party for LiveAgent {
    ghost use Rattle.dms_agent.specs.declared.agent.Agent.{Agent};
    ghost use Rattle.dms_agent_lines.specs.AgentAnswer.{answer_text, after_line};

    ghost State = { Agent };

    ghost state = { λ party. party };

    ghost reply = { answer_text };

    ghost after = { after_line };

    fn answer(&mut self, alloc: Global, line: &[u8]) -> Result<Vec<u8>, AllocError> {
        crate::answer(alloc, &mut self.agent, line)
    }
}
