//! What a face lacks for a text that it refuses, in words.
//!
//! ```
//! if let Some(lack) = what_lacks(alloc, face, text, fault) {
//!     writeln!(errors, "{fault}: {lack}")?;
//! }
//! ```
#![tactic(auto)]

mod lacking;

pub use lacking::{FaceLack, what_lacks};
