//! The state of a central system as text, which a person can read and compare with another: what came to be since it
//! was made, and nothing that it was made with or that is computed. Each line begins with the name of a field:
//!
//! ```text
//! state 1 centre
//! next NUMBER                        the number that the next request takes
//! last none                          how the last job ended, as a live centre answers `status`
//! idle                               no job is on; or:
//! awaits                             a request of the job waits for its reply, that before the next number
//! sends TIMES                        how many times it was sent
//! ticks TICKS                        since the last time
//! due                                or: the next tick sends the job's request
//! step STEP                          where a job is on: its step
//! polls POLLS                        how many replies said that the row is still being validated
//! publish MEMORY NUMBER TEXT OWNER BEACON PIXEL RUN MINUTES PRIORITY ADDRESS
//! activate CODE                      or so: what it is to activate, as an operator commands it
//! ledger NUMBER CODE OUTCOME         each code that was sent, as in a report
//! end
//! ```
//!
//! ```
//! let settings = Settings { community: b"admin", order: Order::High };
//! let centre = Centre::new(alloc, settings, 7)?;
//! assert!(rt; saved(alloc, &centre)?.as_slice() == b"state 1 centre\nnext 7\nlast none\nidle\nend\n");
//! ```
#![tactic(auto)]

mod job_lines;
pub mod laws;
mod ledger_lines;
mod saving;

pub use saving::{put_saved, saved};
