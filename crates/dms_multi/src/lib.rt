//! MULTI, the markup of a sign's message (NTCIP 1203): reading a text as items, and writing items as text.
//!
//! ```
//! let mut read = items(b"A[nl2]");
//! assert_eq!(rt; read.next(), Some(Ok(Spot { item: Item::Char(65), first: 0, past: 1 })));
//! assert_eq!(rt; read.next(), Some(Ok(Spot { item: Item::NewLine(Some(2)), first: 1, past: 6 })));
//! assert_eq!(rt; read.next(), None);
//! let mut text = ArrayVec::new();
//! render(&[Item::Char(65), Item::NewLine(Some(2))], &mut text)?;
//! assert!(rt; text.as_slice() == b"A[nl2]".as_slice());
//! ```
#![tactic(auto)]

pub mod fault;
pub mod item;
pub mod laws;
pub mod rendering;
pub mod spots;
mod tag;
mod value;

pub use fault::{FaultCode, SyntaxFault, TooLong};
pub use item::{Item, Lead};
pub use rendering::render;
pub use spots::{Spot, Spots, items, outcome_at};
