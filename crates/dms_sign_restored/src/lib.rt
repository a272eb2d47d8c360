//! Signs that are put in a state, which a text says: exactly where the text is of a state that fits the sign, else it
//! is told at which line it does not, and why.
//!
//! A sign that is made already, as by a description, is put in a state by value: after an error there is none.
//!
//! ```
//! match put_state(alloc, sign, text) {
//!     Ok(sign) => assert!(rt; sign.is_powered()),
//!     // "line 13: silent and a number to 4294967295 wanted", or "line 2: no such row can be changed"
//!     Err(refusal) => writeln!(errors, "{refusal}")?,
//! }
//! ```
//!
//! And a sign is made of a configuration in a state, exactly where such a sign has it:
//!
//! ```
//! match restored(alloc, config, text) {
//!     Ok(sign) => assert!(rt; sign.is_powered()),
//!     Err(SignRestoreFault::State(refusal)) => assert!(rt; refusal.line() == Some(2)),
//!     Err(SignRestoreFault::Config(_)) => {}
//! }
//! ```
#![tactic(auto)]

pub mod laws;
mod restoring;

pub use restoring::{Misfit, MisfitCause, SignRestoreFault, SignStateRefusal, put_state, restored};
