//! Events as they are read, which own their octets.

pub use dms_centre_text::OwnedCommand;
use dms_world::Event;

/// What a line of a script says.
#[derive(Debug, Drop)]
pub enum ScriptEvent {
    /// The operator gives a command.
    Command(OwnedCommand),
    /// A second passes at the sign.
    SignTick,
    /// A second passes at the centre.
    CentreTick,
    /// The datagram of this place, from 0, among all that the centre sent reaches the sign.
    ToSign(u32),
    /// The datagram of this place, from 0, among all that the sign sent reaches the centre.
    ToCentre(u32),
    /// The sign loses its power.
    PowerLost,
    /// The sign's power is back, after so many seconds.
    PowerBack(u32),
    /// The centre starts again.
    CentreRestart,
    /// A datagram that the centre never sent reaches the sign.
    ForgeSign(Vec<u8>),
    /// A datagram that the sign never sent reaches the centre.
    ForgeCentre(Vec<u8>),
}

impl ScriptEvent {
    ghost use Rattle.std.specs.Prelude.{◌≡◌};
    ghost use Rattle.dms_world.specs.CodeView.{event_model};
    ghost use Rattle.dms_replay.specs.EventView.{script_event_model};

    /// As an event of the world, which borrows the octets.
    pub fn lent(&self) -> Event<'_>
        ensures { event_model result ≡ script_event_model self.now }
    {
        match self {
            ScriptEvent::Command(asked) => Event::Command(asked.lent()),
            ScriptEvent::SignTick => Event::SignTick,
            ScriptEvent::CentreTick => Event::CentreTick,
            ScriptEvent::ToSign(place) => Event::ToSign(*place),
            ScriptEvent::ToCentre(place) => Event::ToCentre(*place),
            ScriptEvent::PowerLost => Event::PowerLost,
            ScriptEvent::PowerBack(seconds) => Event::PowerBack(*seconds),
            ScriptEvent::CentreRestart => Event::CentreRestart,
            ScriptEvent::ForgeSign(datagram) => Event::ForgeSign(datagram.as_slice()),
            ScriptEvent::ForgeCentre(datagram) => Event::ForgeCentre(datagram.as_slice()),
        }
    }
}
