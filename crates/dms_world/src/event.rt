//! What can happen to a sign and a centre that send datagrams to each other.

ghost use Rattle.dms_world.specs.CodeView.{event_model};
ghost use Rattle.dms_world.specs.Headline.{IsEvent};

use dms_centre::Command;

/// An event. A datagram that no event names is lost, and one that two events name is repeated.
#[derive(Clone, Copy, Debug)]
pub enum Event<'a> {
    /// The operator gives the centre a command.
    Command(Command<'a>),
    /// A second passes for the sign.
    SignTick,
    /// The centre's clock ticks.
    CentreTick,
    /// The sign is handed the datagram of this place, from 0, among all that the centre ever sent; where there is none,
    /// nothing happens.
    ToSign(u32),
    /// The centre is handed the datagram of this place, from 0, among all that the sign ever sent; where there is none,
    /// nothing happens.
    ToCentre(u32),
    /// The sign loses its power.
    PowerLost,
    /// The sign's power is back, after so many seconds.
    PowerBack(u32),
    /// The centre restarts.
    CentreRestart,
    /// The sign is handed these octets, whoever made them.
    ForgeSign(&'a [u8]),
    /// The centre is handed these octets, whoever made them.
    ForgeCentre(&'a [u8]),
}

impl Event<'_> {
    /// The values of a command are in the ranges of their types.
    pub(crate) fn has_ranges(&self)
        ensures { IsEvent (event_model self.now) }
    {
        if let Event::Command(command) = self {
            command.has_ranges();
        }
    }
}
