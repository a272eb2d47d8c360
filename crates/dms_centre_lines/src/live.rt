//! A central system that answers lines.

use dms_centre::Centre;
use dms_text_streams::Party;
use std::alloc::{AllocError, Global};
use std::marker::Model;

/// A central system that answers lines.
#[derive(Drop)]
pub struct LiveCentre {
    centre: Centre,
}

impl Model for LiveCentre {
    ghost use Rattle.dms_centre.specs.State.{CentreState};

    ghost Value = { CentreState };

    ghost view = { λ party. party.centre.state };
}

impl LiveCentre {
    ghost use Rattle.std.specs.Prelude.{◌≡◌};

    /// This central system, which answers lines from now on.
    pub fn new(centre: Centre) -> LiveCentre
        ensures { result ≡ centre.state }
    {
        LiveCentre { centre }
    }
}

impl Party for LiveCentre {
    ghost use Rattle.dms_centre.specs.State.{CentreState};
    ghost use Rattle.dms_centre_lines.specs.Answers.{answer_text, after_line};

    ghost State = { CentreState };

    ghost state = { λ party. party };

    ghost reply = { answer_text };

    ghost after = { after_line };

    fn answer(&mut self, alloc: Global, line: &[u8]) -> Result<Vec<u8>, AllocError> {
        crate::answer(alloc, &mut self.centre, line)
    }
}
