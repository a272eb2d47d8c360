//! The times of a text's pages, and when what they show changes by itself. No memory is taken.
//!
//! ```
//! let defaults = face.defaults();
//! let pages = page_times(&face, &defaults, b"[pt10o5]A[np]B");
//! assert_eq!(rt; pages.len(), 2);
//! let turn = turn_at(pages.as_slice(), 12);
//! assert_eq!(rt; (turn.page, turn.since, turn.left), (None, 12, Some(3)));
//! ```
#![tactic(auto)]

mod changing;
mod flashes;
mod times;
mod turns;

pub use changing::due;
pub use flashes::{flashes_due, sooner};
pub use times::{PageTimes, page_times};
pub use turns::{PageUp, turn_at};
