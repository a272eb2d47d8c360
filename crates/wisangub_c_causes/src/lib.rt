//! Why a description, a text and a command are refused, in numbers and in words, as C gives them.
//!
//! ```c
//! struct wisangub_cause cause;
//! if (wisangub_description_cause(text, size, &cause, words, sizeof words, &words_size) == WISANGUB_DONE)
//!     printf("line %zu: %.*s\n", cause.line, (int)words_size, words);
//! ```
#![tactic(auto)]

mod cause;
mod command_causes;
mod line_causes;
mod refusal;
mod sign_causes;
mod telling;
mod text_causes;
mod word_causes;

pub use cause::CauseNumbers;
pub use telling::{tell_command, tell_description, tell_text};
pub use text_causes::TextCause;
