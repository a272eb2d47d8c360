//! Tests of text, readers and writers, conversations, buffers, values as words, words in their only spelling, MULTI
//! and fonts through their public calls.
#![tactic(auto)]

#[cfg(test)]
mod tests;
