//! Tests of what is said of a refused description and of a refused script.
#![tactic(auto)]

#[cfg(test)]
mod descriptions;
#[cfg(test)]
mod scripts;
