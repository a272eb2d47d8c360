//! Tests of scripts and of their reports.
#![tactic(auto)]

#[cfg(test)]
mod tests;
