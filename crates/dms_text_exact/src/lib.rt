//! Words in their only spelling, as the text of a state has them: the words of descriptions, without a needless zero
//! and without capital digits, read and put into a buffer; and names and ends at the front of a text.
//!
//! ```
//! let (word, rest) = cut(b' ', behind(b"sends ", b"sends 3 ticks").ok_or("no sends")?).ok_or("no end")?;
//! assert_eq!(rt; number(1, 3, word), Some(3));
//! assert_eq!(rt; number(1, 3, b"03"), None);
//! assert!(rt; rest == b"ticks");
//! ```
#![tactic(auto)]

mod digits;
mod fronts;
mod numbers;
mod pairs;
mod putting;

pub use digits::{are_octets, code, octets};
pub use fronts::{behind, cut, starts_with};
pub use numbers::{address, integer, number};
pub use putting::{put_address, put_dot, put_octets};
