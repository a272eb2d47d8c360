//! What holds of every sign whatever comes to it: laws over the definitions of dms_sign, stated as functions with
//! nothing to run.
//!
//! A proof or a contract has a law by calling it:
//!
//! ```
//! at_most_one_row_validates();
//! ```
#![tactic(auto)]

pub mod laws;
pub mod range_laws;
pub mod step_laws;
