//! What a description is read into.

use dms_sign::Sign;

/// A sign as it starts, and the number of the first request of its centre.
#[derive(Drop)]
pub struct Setup {
    pub sign: Sign,
    pub first: u32,
}
