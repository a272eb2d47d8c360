//! Worked runs of a sign and its centre, from a script's text to the report and the law of the whole run: proofs alone,
//! and no code.
//!
//! The report of the bench sign to which nothing happens:
//!
//! ```
//! events 0
//! sent 0 0
//! shown 7 255 0000 mode 6 priority 0 remaining 65535 text -
//! ```
#![tactic(auto)]
