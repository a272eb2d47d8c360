//! A sign and a centre in one world, with every datagram that was ever sent between them.

ghost use Rattle.std.specs.Prelude.{◌≡◌, ◌++◌, true, None, OnOk, OnErr, option_to_list};
ghost use Rattle.dms_sign.specs.Reply.{received as sign_received};
ghost use Rattle.dms_centre_jobs.specs.CodeView.{command_model};
ghost use Rattle.dms_centre.specs.CodeView.{sent_in};
ghost use Rattle.dms_centre.specs.Commands.{commanded, refusal_of};
ghost use Rattle.dms_centre.specs.Inputs.{received as centre_received, ticked};
ghost use Rattle.dms_world.specs.CodeView.{event_model, seen, HasNoMemory};
ghost use Rattle.dms_world.specs.Construction.{IsNewCentre, IsNewSign};
ghost use Rattle.dms_world.specs.Growing.{may_grow};
ghost use Rattle.dms_world.specs.World.{IsFresh, beginning, happens, noted};

use crate::datagrams::Datagrams;
use crate::event::Event;
use dms_centre::laws::centres_are_kept;
use dms_centre::{Centre, Command};
use dms_codes::Activation;
use dms_face::laws::faces_are_within_their_limits;
use dms_sign::laws::signs_are_kept;
use dms_sign::{Receipt, Sign};
use dms_wire::Out;
use std::alloc::{AllocError, Global};

/// A sign and its centre, with all that they ever sent to each other.
#[derive(Drop)]
pub struct World {
    pub sign: Sign,
    pub centre: Centre,
    /// The datagrams that the centre ever sent, the oldest first.
    pub to_sign: Datagrams,
    /// The datagrams that the sign ever sent, the oldest first.
    pub to_centre: Datagrams,
    /// Each activation that the sign accepted, beside the number of its event: `run` counts events from 1 in each call,
    /// and `happen` is told the number.
    pub accepted: Vec<(usize, Activation)>,
    /// What an end sends is written here, before it is stored.
    buffer: Out,
}

impl World {
    /// The world of two ends, in which nothing was sent. It takes no memory; its lists take it from `alloc` as they
    /// grow.
    pub fn new(alloc: Global, sign: Sign, centre: Centre) -> World
        ensures world { seen result ≡ beginning sign centre.state }
        ensures fresh { IsNewSign sign → IsNewCentre centre.state → IsFresh (seen result) }
        ensures memory { HasNoMemory result }
    {
        signs_are_kept(&sign);
        faces_are_within_their_limits(sign.face());
        centres_are_kept(&centre);
        World {
            sign,
            centre,
            to_sign: Datagrams::new(alloc),
            to_centre: Datagrams::new(alloc),
            accepted: Vec::new(alloc),
            buffer: Out::new(),
        }
    }

    /// The event of this number happens. Where it runs out of memory, nothing changes: what its lists need is reserved
    /// before either end is called.
    pub fn happen(&mut self, number: usize, event: &Event<'_>) -> Result<(), AllocError>
        ensures world { OnOk result (seen self.new ≡ happens number (seen self.old) (event_model event.now)) }
        ensures unchanged { OnErr result (seen self.new ≡ seen self.old) }
        ensures grows { OnErr result (may_grow (seen self.old) (event_model event.now) ≡ true) }
    {
        match *event {
            Event::Command(command) => command_centre(
                &mut self.centre,
                &mut self.to_sign,
                command,
                &mut self.buffer,
            ),
            Event::SignTick => {
                self.sign.tick();
                Ok(())
            }
            Event::CentreTick => tick_centre(&mut self.centre, &mut self.to_sign, &mut self.buffer),
            Event::ToSign(place) => match self.to_sign.get(place as usize) {
                Some(datagram) => hand_to_sign(
                    &mut self.sign,
                    &mut self.to_centre,
                    &mut self.accepted,
                    number,
                    datagram,
                    &mut self.buffer,
                ),
                None => Ok(()),
            },
            Event::ToCentre(place) => match self.to_centre.get(place as usize) {
                Some(datagram) => hand_to_centre(
                    &mut self.centre,
                    &mut self.to_sign,
                    datagram,
                    &mut self.buffer,
                ),
                None => Ok(()),
            },
            Event::PowerLost => {
                self.sign.power_lost();
                Ok(())
            }
            Event::PowerBack(seconds) => {
                self.sign.power_back(seconds);
                Ok(())
            }
            Event::CentreRestart => {
                self.centre.restart();
                Ok(())
            }
            Event::ForgeSign(datagram) => hand_to_sign(
                &mut self.sign,
                &mut self.to_centre,
                &mut self.accepted,
                number,
                datagram,
                &mut self.buffer,
            ),
            Event::ForgeCentre(datagram) => hand_to_centre(
                &mut self.centre,
                &mut self.to_sign,
                datagram,
                &mut self.buffer,
            ),
        }
    }
}

/// The sign is handed a datagram, at the event of this number.
fn hand_to_sign(
    sign: &mut Sign,
    to_centre: &mut Datagrams,
    accepted: &mut Vec<(usize, Activation)>,
    number: usize,
    datagram: &[u8],
    reply: &mut Out,
) -> Result<(), AllocError>
    ensures sign { OnOk result (sign.new ≡ (sign_received sign.old datagram.now).after) }
    ensures sent { OnOk result (to_centre.new.sent
        ≡ to_centre.old.sent ++ option_to_list (sign_received sign.old datagram.now).reply) }
    ensures accepted { OnOk result (accepted.new.items
        ≡ accepted.old.items ++ noted number (sign_received sign.old datagram.now).accepted) }
    ensures sign_kept { OnErr result (sign.new ≡ sign.old) }
    ensures sent_kept { OnErr result (to_centre.new.sent ≡ to_centre.old.sent) }
    ensures accepted_kept { OnErr result (accepted.new.items ≡ accepted.old.items) }
{
    to_centre.reserve_one()?;
    accepted.reserve(1)?;
    match sign.receive(datagram, reply) {
        Receipt::Dropped => {}
        Receipt::Replied => to_centre.push(reply),
        Receipt::Accepted(code) => {
            to_centre.push(reply);
            accepted.push_reserved((number, code));
        }
    }
    Ok(())
}

/// The centre is handed a datagram.
fn hand_to_centre(
    centre: &mut Centre,
    to_sign: &mut Datagrams,
    datagram: &[u8],
    request: &mut Out,
) -> Result<(), AllocError>
    ensures state { OnOk result (centre.new.state ≡ (centre_received centre.old.state datagram.now).state) }
    ensures sent { OnOk result (to_sign.new.sent
        ≡ to_sign.old.sent ++ option_to_list (centre_received centre.old.state datagram.now).sent) }
    ensures state_kept { OnErr result (centre.new.state ≡ centre.old.state) }
    ensures sent_kept { OnErr result (to_sign.new.sent ≡ to_sign.old.sent) }
{
    to_sign.reserve_one()?;
    centre.receive(datagram, request);
    keep(to_sign, request);
    Ok(())
}

/// The operator gives the centre a command; one that is refused, other than out of memory, changes nothing.
#[tactic(auto, unfolding(dms_centre::specs::Commands::commanded))]
fn command_centre(
    centre: &mut Centre,
    to_sign: &mut Datagrams,
    command: Command<'_>,
    request: &mut Out,
) -> Result<(), AllocError>
    ensures state { OnOk result (centre.new.state ≡ (commanded centre.old.state (command_model command.entry)).state) }
    ensures sent { OnOk result (to_sign.new.sent
        ≡ to_sign.old.sent ++ option_to_list (commanded centre.old.state (command_model command.entry)).sent) }
    ensures state_kept { OnErr result (centre.new.state ≡ centre.old.state) }
    ensures sent_kept { OnErr result (to_sign.new.sent ≡ to_sign.old.sent) }
    ensures taken { OnErr result (refusal_of centre.old.state (command_model command.entry) ≡ None) }
{
    if centre.refusal(&command).is_some() {
        return Ok(());
    }
    to_sign.reserve_one()?;
    match centre.command(command, request) {
        Ok(()) => {
            keep(to_sign, request);
            Ok(())
        }
        Err(_) => Err(AllocError),
    }
}

/// The centre's clock ticks.
fn tick_centre(
    centre: &mut Centre,
    to_sign: &mut Datagrams,
    request: &mut Out,
) -> Result<(), AllocError>
    ensures state { OnOk result (centre.new.state ≡ (ticked centre.old.state).state) }
    ensures sent { OnOk result (to_sign.new.sent ≡ to_sign.old.sent ++ option_to_list (ticked centre.old.state).sent) }
    ensures state_kept { OnErr result (centre.new.state ≡ centre.old.state) }
    ensures sent_kept { OnErr result (to_sign.new.sent ≡ to_sign.old.sent) }
{
    to_sign.reserve_one()?;
    match centre.tick(request) {
        Ok(()) => {
            keep(to_sign, request);
            Ok(())
        }
        Err(_) => Err(AllocError),
    }
}

/// Keeps what was sent, where there is room for it; an empty buffer is nothing.
fn keep(kept: &mut Datagrams, datagram: &Out)
    requires { kept.old.has_room ≡ true }
    ensures { kept.new.sent ≡ kept.old.sent ++ option_to_list (sent_in datagram.now.items) }
{
    if !datagram.is_empty() {
        kept.push(datagram);
    }
}
