//! One page of a text, row by row, as octets: it is laid out in place, and no memory is taken.
//!
//! ```
//! let defaults = face.defaults();
//! let mut looks = [0; 12];
//! let size = put_row(&face, &defaults, b"A[np]A", 1, 0, Layer::Look, &mut looks);
//! assert_eq!(rt; size, Some(12));
//! assert_eq!(rt; looks[10], 9 + 16);
//! assert_eq!(rt; put_row(&face, &defaults, b"A", 1, 0, Layer::Look, &mut looks), None);
//! ```
#![tactic(auto)]

mod drawing;
mod held;
mod held_character;
mod rows;

pub use rows::put_row;
