//! Tests of descriptions of signs, and of both ends line by line.
#![tactic(auto)]

#[cfg(test)]
mod bad_lines;
#[cfg(test)]
mod centre_lines;
#[cfg(test)]
mod descriptions;
#[cfg(test)]
mod sign_lines;
