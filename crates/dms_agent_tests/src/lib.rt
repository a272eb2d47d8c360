//! Tests of an agent, octets in and octets out.
#![tactic(auto)]

#[cfg(test)]
mod agents;
#[cfg(test)]
mod lines;
#[cfg(test)]
mod pictures;
#[cfg(test)]
mod states;
