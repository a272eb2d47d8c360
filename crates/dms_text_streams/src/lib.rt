//! Readers and writers that count the calls that failed, and what is done over them: all that a reader gives, all of
//! some octets written, and a conversation by lines, in which each line of an input is answered before the next is
//! asked for, with what those who answer have in common. What was read and what was written is exact wherever the
//! reader or the writer shows its octets.
//!
//! ```
//! let mut text: &[u8] = b"all of it";
//! let read = read_whole(alloc, &mut text, 1024)?;
//! let mut out = Gathered::new(alloc);
//! write_whole(&mut out, read.as_slice())?;
//! assert!(rt; out.bytes() == b"all of it".as_slice());
//! assert_eq!(rt; (text.failures(), out.failures()), (0, 0));
//! let mut answer = Vec::with_capacity(alloc, 12)?;
//! put(&mut answer, b"send ");
//! put_digits(&mut answer, &[48, 3, 255]);
//! put(&mut answer, b"\n");
//! assert!(rt; answer.as_slice() == b"send 3003ff\n");
//! ```
#![tactic(auto)]

mod answers;
mod conversation;
mod counted;
mod describing;
mod failed;
mod fault;
mod gathered;
mod input;
pub mod laws;
mod party;
mod reading;
mod sink;
mod source;
pub mod taking;
mod writing;

pub use answers::{bad_line, ok_line, put, put_digits};
pub use conversation::{LONGEST_LINE, converse};
pub use counted::Counted;
pub use describing::{LONGEST_INPUT, description_text};
pub use failed::Failed;
pub use fault::{ConversationFault, InputFault};
pub use gathered::Gathered;
pub use input::Input;
pub use party::Party;
pub use reading::read_whole;
pub use sink::Sink;
pub use source::Source;
pub use writing::write_whole;
