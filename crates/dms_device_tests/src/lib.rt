//! Tests of a device, its objects and those of fonts through their public calls.
#![tactic(auto)]

#[cfg(test)]
mod devices;
#[cfg(test)]
mod fonts;
