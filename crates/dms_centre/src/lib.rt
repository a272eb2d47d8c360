//! The central system of a sign: it does one operator's command at a time, and keeps a ledger of the codes that it
//! sent. What it is commanded, and the steps of a job, stand in dms_centre_jobs and are named here too.
//!
//! ```
//! let settings = Settings { community: b"admin", order: Order::High };
//! let mut centre = Centre::new(alloc, settings, 1)?;
//! let mut out = Out::new();
//! centre.command(Command::Blank { number: 1, minutes: 65535, priority: 255, address: [192, 0, 2, 1] }, &mut out)?;
//! assert!(rt; centre.busy() && !out.is_empty());
//! centre.restart();
//! assert!(rt; centre.ledger().len() == 1);
//! ```
#![tactic(auto)]

mod answering;
pub mod centre;
pub mod ended;
pub mod fault;
pub mod laws;
pub mod ledger;
pub mod outcome;
mod pending;
mod reply;
mod restoring;
pub mod settings;
mod stage;

pub use centre::Centre;
pub use dms_centre_jobs::{Attributes, Command, Job, Publication, Step, Terms};
pub use ended::{Ended, Why};
pub use fault::{CommandFault, NoMemory};
pub use ledger::Entry;
pub use outcome::Outcome;
pub use pending::Pending;
pub use restoring::{EndFault, EntryFault, JobFault, SavedJob, SavedStage};
pub use settings::{CentreFault, Settings};
pub use stage::Phase;
