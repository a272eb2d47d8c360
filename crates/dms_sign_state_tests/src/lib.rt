//! Tests of a sign's state: as text, and put back.
#![tactic(auto)]

#[cfg(test)]
mod tests;
