//! What holds of the central system whatever comes to it: laws over the definitions of dms_centre, stated as functions
//! with nothing to run.
//!
//! A proof or a contract has a law by calling it:
//!
//! ```
//! equal_numbers_mean_equal_octets();
//! ```
#![tactic(auto)]

pub mod laws;
