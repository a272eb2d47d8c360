//! A sign that answers lines.

use dms_sign::Sign;
use dms_text_streams::Party;
use std::alloc::{AllocError, Global};
use std::marker::Model;

/// A sign that answers lines.
#[derive(Drop)]
pub struct LiveSign {
    sign: Sign,
}

impl Model for LiveSign {
    ghost use Rattle.dms_sign.specs.State.{SignState};

    ghost Value = { SignState };

    ghost view = { λ party. party.sign };
}

impl LiveSign {
    ghost use Rattle.std.specs.Prelude.{◌≡◌};

    /// This sign, which answers lines from now on.
    pub fn new(sign: Sign) -> LiveSign
        ensures { result ≡ sign }
    {
        LiveSign { sign }
    }
}

impl Party for LiveSign {
    ghost use Rattle.dms_sign.specs.State.{SignState};
    ghost use Rattle.dms_sign_lines.specs.Answer.{answer_text, after_line};

    ghost State = { SignState };

    ghost state = { λ party. party };

    ghost reply = { answer_text };

    ghost after = { after_line };

    fn answer(&mut self, alloc: Global, line: &[u8]) -> Result<Vec<u8>, AllocError> {
        crate::answer(alloc, &mut self.sign, line)
    }
}
