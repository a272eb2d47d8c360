//! An operator's commands as text, a line each, and the ledger of what became of them:
//!
//! ```text
//! publish MEMORY NUMBER TEXT OWNER BEACON PIXEL RUN MINUTES PRIORITY ADDRESS
//! blank NUMBER MINUTES PRIORITY ADDRESS
//! activate CODE
//! ```
//!
//! ```
//! let line = b"blank 1 65535 255 10.0.0.1".as_slice();
//! let asked = read_command(alloc, Order::High, line)?;
//! assert!(rt; matches!(asked, Ok(OwnedCommand::Blank { number: 1, terms }) if terms.minutes == 65535));
//! ```
#![tactic(auto)]

mod cause;
mod command_word;
mod fields;
pub mod laws;
mod ledger_text;
mod owned_command;
mod reading;

pub use cause::CommandCause;
pub use command_word::CommandWord;
pub use dms_text_forms::address;
pub use ledger_text::{put_code, put_ledger};
pub use owned_command::OwnedCommand;
pub use reading::{command_after, read_command};
