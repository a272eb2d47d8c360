//! Tests of the controller, octets in and octets out.
#![tactic(auto)]

#[cfg(test)]
mod examples;
#[cfg(test)]
mod signs;
