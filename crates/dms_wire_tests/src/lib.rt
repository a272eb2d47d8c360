//! Tests of object identifiers and messages through their public calls.
#![tactic(auto)]

#[cfg(test)]
mod messages;
#[cfg(test)]
mod object_identifiers;
