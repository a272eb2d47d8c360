//! Tests of the program's calls: what each prints, and its exit status.
#![tactic(auto)]

#[cfg(test)]
mod calls;
#[cfg(test)]
mod names;
