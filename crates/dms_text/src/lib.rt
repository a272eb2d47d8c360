//! Texts as lines, lines as words, and what words spell: decimal numbers, versions, and octets in hexadecimal digits.
//! The descriptions of fonts and of signs and the scripts are read by it.
//!
//! ```
//! let mut lines = Lines::of(b"# skipped\n\nsend 192.0.2.1 30\r\nstop");
//! let line = lines.next_line().ok_or("no line")?;
//! assert_eq!(rt; line.number, 3);
//! let words = Words::of(line.octets).keyword(b"send").ok_or("no send")?;
//! let (word, words) = words.next_word().ok_or("no address")?;
//! let (first, parts) = Words::split(word, b'.').octet(3, 0, 255).ok_or("no number")?;
//! let (seconds, words) = words.octet(5, 1, 60).ok_or("no seconds")?;
//! assert_eq!(rt; (first, seconds), (192, 30));
//! assert!(rt; words.is_empty());
//! ```
#![tactic(auto)]

mod digit_pairs;
mod digit_values;
mod lines;
mod numbers;
mod parts;
mod words;

pub use digit_pairs::{are_pairs, is_dash, octets};
pub use digit_values::digit_value;
pub use lines::{Line, Lines};
pub use numbers::{hexadecimal, number, version};
pub use parts::{index_of, split_once};
pub use words::{Words, are_same};
