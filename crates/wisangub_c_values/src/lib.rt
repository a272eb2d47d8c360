//! Values of objects, what a manager may write to them, what codes say, how jobs ended and the ledger, as C gives them;
//! and what the library answers.
//!
//! ```c
//! struct wisangub_value value = {.number = 7, .type = WISANGUB_INTEGER};
//! struct wisangub_access access = {.least = 0, .most = 100, .writes = WISANGUB_NUMBERS};
//! ```
#![tactic(auto)]

mod answers;
mod centre_values;
mod code_values;
mod ledger_values;
mod object_values;

pub use answers::{
    AT_FAULT, BUSY, DONE, NO_MEMORY, NOTHING_SENT, NUMBERS_USED_UP, OUT_OF_RANGE, STATE_REFUSED,
    TOO_SMALL, give, put_first,
};
pub use centre_values::{ended_number, ended_step, ended_value, ended_why};
pub use code_values::{CodeParts, activation_of, code_parts, message_of, order_in, order_of};
pub use ledger_values::{CentreStatus, LedgerEntry, centre_status, ledger_entry};
pub use object_values::{
    AccessParts, ValueParts, access_given, name_given, octets_of, parts_of, value_given,
};
