//! What an operator commands, and the requests that each command becomes: a job goes step by step, and each step has
//! one request.
//!
//! ```
//! let command = Command::Blank { number: 1, minutes: 65535, priority: 255, address: [192, 0, 2, 1] };
//! let mut job = Job::none();
//! job.begin(&command);
//! let mut out = Out::new();
//! put_request(b"admin", Order::High, 1, &job.work, job.step, &mut out);
//! assert!(rt; job.step.is_activating() && !out.is_empty());
//! ```
#![tactic(auto)]

mod command;
mod fields;
mod job;
mod kept;
mod publication;
mod request;
mod short;
mod step;

pub use command::Command;
pub use job::{Job, Work};
pub use kept::Kept;
pub use publication::{Attributes, Publication, Terms};
pub use request::put_request;
pub use step::Step;
