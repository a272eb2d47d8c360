//! Tests of a central system's state as text.
#![tactic(auto)]

#[cfg(test)]
mod tests;
