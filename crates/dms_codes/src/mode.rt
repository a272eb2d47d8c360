//! What puts a message up (NTCIP 1203, dmsMsgSourceMode).

ghost use Rattle.std.specs.Prelude.{◌≡◌};
ghost use Rattle.dms_codes.specs.Mode.{mode_number};

/// What put a message up: the values of dmsMsgSourceMode.
#[derive(Clone, Copy, Debug, PartialEq, Eq)]
pub enum Mode {
    /// A code that came by a SET.
    Central,
    /// The return of the power.
    PowerRecovery,
    /// A loss of communications.
    CommunicationsLoss,
    /// A loss of power.
    PowerLoss,
    /// The end of the duration of the message before it.
    EndDuration,
}

impl Mode {
    /// The mode's number in dmsMsgSourceMode.
    pub fn number(self) -> u8
        ensures { result ≡ mode_number self }
    {
        match self {
            Mode::Central => 8,
            Mode::PowerRecovery => 10,
            Mode::CommunicationsLoss => 12,
            Mode::PowerLoss => 13,
            Mode::EndDuration => 14,
        }
    }
}
