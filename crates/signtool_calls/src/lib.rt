//! The calls that the program can be asked for.
//!
//! ```
//! assert!(rt; TableRow::of(3, 1).is_some() && TableRow::of(5, 1).is_none());
//! assert!(rt; MessageName::of(7, 1).is_some() && MessageName::of(6, 1).is_none());
//! ```
#![tactic(auto)]

mod call;
mod message_name;
mod table_row;

pub use call::{
    ActivationWords, Call, CodeWords, Drawing, Form, SignWanted, StateWanted, TermWords,
};
pub use message_name::MessageName;
pub use table_row::TableRow;
