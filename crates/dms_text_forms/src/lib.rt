//! Forms of lines: what each word of a line is to be, and the first word that is not; and the numbers and octets that
//! words spell.
//!
//! ```
//! let form = [Wanted::Keyword(Keyword::Size), Wanted::Number(0, 65535), Wanted::Number(0, 65535)];
//! let found = word_fault(&form, b"size 96 high").ok_or("no fault")?;
//! assert_eq!(rt; found, WordFault { place: 3, kind: WordFaultKind::Not(Wanted::Number(0, 65535)) });
//! ```
#![tactic(auto)]

mod addresses;
mod digits;
mod fault;
pub mod fields;
mod form;
mod line_words;
mod vocabulary;
mod wanted;

pub use addresses::address;
pub use fault::{WordFault, WordFaultKind};
pub use form::word_fault;
pub use line_words::LineWords;
pub use vocabulary::{Keyword, WordName};
pub use wanted::Wanted;
