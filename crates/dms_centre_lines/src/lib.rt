//! A central system that is spoken to in lines of text: each line is answered by lines.
//!
//! A line is an operator's command as in a script (`publish ..`, `blank ..`, `activate ..`), or `datagram OCTETS`,
//! `tick`, `restart`, `status`, `status last` or `save`.
//!
//! ```
//! let settings = Settings { community: b"admin", order: Order::High };
//! let mut centre = Centre::new(alloc, settings, 1)?;
//! let text = answer(alloc, &mut centre, b"status")?;
//! assert!(rt; text.as_slice() == b"idle\nlast none\nok\n");
//! let mut input = Input::new(alloc, lines)?;
//! converse(alloc, &mut LiveCentre::new(centre), &mut input, &mut out)?;
//! ```
#![tactic(auto)]

mod answering;
mod bad_value;
mod cause;
mod keyword;
pub mod laws;
mod live;
mod reading;
mod status;
mod text;

pub use answering::answer;
pub use live::LiveCentre;
