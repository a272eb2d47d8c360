//! A sign and a centre in one world, with every datagram that was ever sent between them: what holds of it after any
//! events.
//!
//! ```
//! let mut world = World::new(alloc, sign, centre);
//! let blank = Command::Blank { number: 1, minutes: 65535, priority: 255, address: [0; 4] };
//! run(&mut world, &[Event::Command(blank), Event::ToSign(0), Event::ToCentre(0), Event::ToSign(0)])?;
//! assert!(rt; world.to_sign.len() == 1 && world.to_centre.len() == 2 && world.accepted.len() == 2);
//! ```
#![tactic(auto)]

mod datagrams;
mod event;
pub mod flight_laws;
pub mod laws;
pub mod ledger_laws;
pub mod number_laws;
mod running;
pub mod sign_laws;
mod world;

pub use datagrams::Datagrams;
pub use event::Event;
pub use running::{Stopped, run};
pub use world::World;
