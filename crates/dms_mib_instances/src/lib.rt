//! The instances of a sign's objects: which there are, by which names they are found, and in which order they are
//! walked.
//!
//! ```
//! let counts = Counts::of(&table);
//! let name = name_of(&[43, 6, 1, 4, 1, 137, 54, 4, 2, 3, 6, 3, 0]).ok_or("no name")?;
//! assert!(rt; counts.named(&name) == Some(Instance::Scalar(Scalar::ActivateMessage)));
//! assert!(rt; counts.next(&name) == Some(Instance::Scalar(Scalar::MessageTimeRemaining)));
//! ```
#![tactic(auto)]

mod counts;
pub mod laws;
mod names;
mod octets;

pub use counts::Counts;
