//! What lines of all kinds have in common, be they commands, events of a script, or calls of a live sign or a live
//! central system. A line begins with a keyword of its kind and goes on with the words of that keyword's form, or there
//! is a cause why it does not.
//!
//! ```
//! let words = LineWords { place: 2, words: Words::of(b"7") };
//! let fault = if_last(words, "tick").err().ok_or("no fault")?;
//! assert!(rt; bad_line(alloc, fault)?.as_slice() == b"bad line word 2: no more words are wanted\n");
//! ```
#![tactic(auto)]

mod answers;
mod line_end;

pub use answers::bad_line;
pub use line_end::if_last;
