//! The sign and the central system for C: a static library. `include/wisangub.h` declares what it exports.
//!
//! ```c
//! struct wisangub_sign sign = {0};
//! uint32_t first;
//! size_t line;
//! if (wisangub_sign_new(&sign, text, size, &first, &line) == WISANGUB_FAULT) printf("line %zu\n", line);
//! ```
#![tactic(auto)]

pub mod cause_calls;
pub mod centre_calls;
pub mod centre_state_calls;
pub mod code_calls;
pub mod object_calls;
pub mod page_calls;
pub mod row_calls;
pub mod shown_calls;
pub mod sign_calls;
pub mod state_calls;
pub mod time_calls;
