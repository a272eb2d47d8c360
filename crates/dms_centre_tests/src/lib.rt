//! Tests of the central system, commands and octets in, octets out; and of runs of both ends.
#![tactic(auto)]

#[cfg(test)]
mod centres;
#[cfg(test)]
mod examples;
#[cfg(test)]
mod worlds;
