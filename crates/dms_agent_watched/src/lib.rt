//! An agent, and how often what can be seen of its sign has changed: a driver of lamps draws where that number rose.
//!
//! ```
//! let mut sign = Watched::new(alloc, sign);
//! sign.receive(datagram, &mut reply);
//! sign.tick();
//! if sign.changes() != drawn {}
//! ```
#![tactic(auto)]

mod watched;

pub use watched::Watched;
