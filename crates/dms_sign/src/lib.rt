//! The controller of a dynamic message sign: its objects, and what holds of it as a machine.
//!
//! ```
//! let stock = Stock { permanent: &[], changeable: 2, volatile: 1, beacon: true, pixel: false, order: Order::High };
//! let mut sign = Sign::new(alloc, Config { face, stock, reader: b"public", writer: b"admin" })?;
//! let mut reply = Out::new();
//! assert!(rt; sign.receive(b"no datagram", &mut reply) == Receipt::Dropped);
//! sign.tick();
//! assert!(rt; sign.shown().text.is_empty());
//! ```
#![tactic(auto)]

pub mod config;
mod known_texts;
pub mod laws;
pub mod sign;

pub use config::{Config, ConfigFault};
pub use dms_mib::{Instance, Scalar};
pub use dms_sign_access::{MessageFault, StateFault};
pub use sign::Sign;
pub use sign::reply::Receipt;
pub use sign::restoring::SignParts;
