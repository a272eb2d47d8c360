//! What the program does: each call of the command line, carried out; and why an input of it is refused, with what is
//! wrong with its line.
//!
//! ```
//! let mut input: &[u8] = b"bench\nlisten\n";
//! let mut printed = Gathered::new(alloc);
//! let mut errors = Vec::new(alloc);
//! let status = act_saying(alloc, &Call::Replay, &mut input, &mut printed, &mut errors);
//! assert_eq!(rt; (status, printed.bytes()), (ExitStatus::Refused, b"line 2\n".as_slice()));
//! assert_eq!(rt; errors.as_slice(), b"line 2: no event begins with this word\n".as_slice());
//! ```
#![tactic(auto)]

pub mod act;
mod centre;
mod inputs;
pub mod laws;
mod refusal;
mod restored;
mod restored_centre;
mod unseen;

pub use act::act_saying;
pub use centre::live_centre;
pub use dms_text_streams::Counted;
pub use inputs::{described_before, described_whole, replayed};
pub use refusal::InputRefusal;
pub use restored::{RestoreRefusal, restored_before};
pub use restored_centre::{CentreRefusal, centre_restored_before};
pub use signtool_print::ExitStatus;
pub use unseen::Unseen;
