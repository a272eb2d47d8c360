//! The replies to a Get and to a GetNext, over whatever reads a value by a name and knows which name comes next: a
//! sign, or what stands beside it.
//!
//! ```
//! match message.kind {
//!     Kind::Get => answer_get(&sign, &message, &mut out),
//!     Kind::GetNext => answer_next(&sign, &message, &mut out),
//!     _ => repeat(&message, ErrorStatus::GenErr, 0, &mut out),
//! }
//! ```
#![tactic(auto)]

mod answering;
mod objects;
mod sending;

pub use answering::{answer_get, answer_next};
pub use objects::{Next, NextName, Objects};
pub use sending::{repeat, reply};
