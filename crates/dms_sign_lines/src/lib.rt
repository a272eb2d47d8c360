//! The lines to a live sign, each with its answer.
//!
//! ```
//! let mut setup = bench(alloc)?;
//! let text = answer(alloc, &mut setup.sign, b"state")?;
//! let wanted = "shown 7 1 0000 mode 10 priority 1 remaining 65535 text -\nok\n";
//! assert!(rt; text.as_slice() == wanted.as_bytes());
//! let mut input = Input::new(alloc, lines)?;
//! converse(alloc, &mut LiveSign::new(setup.sign), &mut input, &mut out)?;
//! ```
#![tactic(auto)]

mod answering;
mod cause;
mod keyword;
pub mod laws;
mod live;
mod sign_call;

pub use answering::{LONGEST_RECEIPT, answer, put_receipt, shown_pages};
pub use live::LiveSign;
