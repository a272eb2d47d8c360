//! Tests of faces, of the check of a text, of pages, their rows and pictures through their public calls.
#![tactic(auto)]

#[cfg(test)]
mod tests;
