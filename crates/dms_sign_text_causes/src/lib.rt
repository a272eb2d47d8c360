//! Why a line of a description is refused, in words: a word of it, the line that it follows, or the sign that it ends.
//!
//! ```
//! assert!(rt; communities_cause(b"public", b"public") == Some(SignCause::SameCommunities));
//! assert!(rt; counts_cause(0, 64, 16).is_none());
//! ```
#![tactic(auto)]

mod cause;
mod forms;
mod row_causes;
mod sign_causes;
mod whole;

pub use cause::LineCause;
pub use forms::DescriptionLine;
pub use row_causes::{RowCause, row_cause};
pub use sign_causes::SignCause;
pub use whole::{communities_cause, counts_cause, face_cause, rows_cause};
