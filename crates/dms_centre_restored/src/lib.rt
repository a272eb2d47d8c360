//! Central systems that go on from a state, which a text says: a candidate is made of the text's lines, and its own
//! text is compared with the one that was given. So a central system that is restored has just the text's state, and no
//! text makes another; each text of a state that one comes to is taken back.
//!
//! ```
//! let settings = Settings { community: b"admin", order: Order::High };
//! match restored(alloc, settings, text) {
//!     Ok(centre) => assert!(rt; !centre.busy()),
//!     // "line 2: next and a number to 4294967295 wanted"
//!     Err(CentreRestoreFault::State(refusal)) => assert!(rt; refusal.line() == Some(2)),
//!     Err(CentreRestoreFault::Settings(_)) => {}
//! }
//! ```
#![tactic(auto)]

mod job_lines;
pub mod laws;
mod ledger_lines;
mod lines;
mod refusal;
mod restoring;
mod words;

pub use refusal::{CentreRestoreFault, CentreStateFault, CentreStateField, CentreStateRefusal};
pub use restoring::restored;
