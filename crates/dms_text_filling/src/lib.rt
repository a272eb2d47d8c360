//! Octets put into a buffer one after the other, as far as it reaches, and counted beyond its end: so that a text tells
//! how much room it wants, and takes no memory.
//!
//! ```
//! let mut buffer = [0; 8];
//! let place = put_number(&mut buffer, 0, "page", 12345);
//! assert!(rt; buffer.as_slice() == b"page 123".as_slice() && place == 11);
//! ```
#![tactic(auto)]

mod digit_table;
mod filling;

pub use digit_table::{eight_digits, two_digits};
pub use filling::{put, put_decimal, put_digits, put_number, put_text, put_texts};
