//! Whether a job is on.

use crate::pending::Pending;
use dms_centre_jobs::Job;

/// Whether a job is on, and what comes next.
#[derive(Clone, Copy, Debug, PartialEq, Eq)]
pub(crate) enum Stage {
    /// No job is on.
    Idle,
    /// A request of the job waits for its reply.
    Awaits,
    /// The next tick sends the job's request.
    Due,
}

/// Whether a job is on, and what comes next, with all that is known of it.
#[derive(Clone, Copy)]
pub enum Phase<'a> {
    /// No job is on.
    Idle,
    /// A request of the job waits for its reply.
    Awaits(&'a Job, &'a Pending),
    /// The next tick sends the job's request.
    Due(&'a Job),
}
