//! The steps of a job.

/// A step of a job: the request that it sends. Publishing takes all eight, activating a message that is there the last
/// two.
#[derive(Clone, Copy, Debug, PartialEq, Eq)]
pub enum Step {
    /// 1: asks that the row may be modified.
    Opening,
    /// 2: reads whether it may.
    Opened,
    /// 3: writes the row's fields.
    Filling,
    /// 4: asks that the row be validated.
    Validating,
    /// 5: reads whether it is valid.
    Polling,
    /// 6: reads the row's checksum.
    Comparing,
    /// 7: puts the message up.
    Activating,
    /// 8: reads why it was not activated.
    Explaining,
}

impl Step {
    ghost use Rattle.std.specs.Prelude.{◌≡◌};
    ghost use Rattle.dms_centre_jobs.specs.Steps.{is_activating, step_number};

    /// The step's number, 1 to 8.
    pub fn number(self) -> u8
        ensures { result ≡ step_number self }
    {
        match self {
            Step::Opening => 1,
            Step::Opened => 2,
            Step::Filling => 3,
            Step::Validating => 4,
            Step::Polling => 5,
            Step::Comparing => 6,
            Step::Activating => 7,
            Step::Explaining => 8,
        }
    }

    /// Whether it puts the message up.
    pub fn is_activating(self) -> bool
        ensures { result ≡ is_activating self }
    {
        self == Step::Activating
    }
}
