//! What the program prints of a datagram, of a text on a face and of a code, as lines and as JSON. It needs no sign.
//!
//! ```
//! let mut printed = Gathered::new(alloc);
//! let mut said = Vec::new(alloc);
//! let outcome = decode(alloc, ("300a", false, Form::Lines), &mut printed, &mut said);
//! assert_eq!(rt; status(outcome), ExitStatus::Refused);
//! assert_eq!(rt; printed.bytes(), b"fault truncated at octet 2\n".as_slice());
//! ```
#![tactic(auto)]

mod codes;
mod fields;
mod item_lines;
mod item_words;
mod json;
mod names;
mod reading;
mod spaced;
mod statuses;
mod texts;

pub use codes::{activation, code};
pub use reading::{decode, list_items, print_hex_fault, print_no_memory, say_why_dropped};
pub use statuses::{ExitStatus, print, print_made, print_memory, print_text, say_memory, status};
pub use texts::{print_count, print_pages};
