//! Scripts of events as text, and the report of their run.
//!
//! ```
//! let mut script: &[u8] = b"bench\nblank 1 65535 255 192.0.2.1\nto-sign 0\nto-centre 0\n";
//! let mut report = Gathered::new(alloc);
//! replay(alloc, &mut script, &mut report)?;
//! assert!(rt; report.bytes().starts_with(b"events 3\nsent 1 1\n"));
//! ```
#![tactic(auto)]

mod event_cause;
pub mod event_line;
mod events;
pub mod fault;
pub mod fields;
mod keyword;
pub mod laws;
mod reasons;
pub mod replaying;
pub mod report;
mod script;
pub mod script_event;

pub use dms_centre_text::address;
pub use dms_sign_text::{LONGEST_INPUT, ReplayFault, described};
pub use event_cause::EventCause;
pub use reasons::{ScriptCause, cause_of_line};
pub use replaying::{bench, replay};
