//! The command line as a call: the program's subcommands, their words and their help. It needs no sign.
//!
//! ```
//! let call = asked(alloc, &["signtool", "check", "A[nl]B"])?;
//! assert!(rt; matches!(call, Call::Check { sign: SignWanted::Bench, .. }));
//! ```
#![tactic(auto)]

mod command_line;
mod numbers;
mod subcommands;
mod word;

pub use command_line::{Usage, asked};
