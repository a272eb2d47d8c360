//! Tests of the checksum, of codes, of the names of objects, of replies and of the message table through their public
//! calls.
#![tactic(auto)]

#[cfg(test)]
mod tests;
