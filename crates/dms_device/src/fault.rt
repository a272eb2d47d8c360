//! Why there is no object, and why a Set is refused.

use dms_wire::ErrorStatus;

/// Why there is no object.
#[derive(Clone, Copy, Debug, PartialEq, Eq)]
pub enum ObjectFault {
    /// The octets are no object identifier's content (X.690, 8.19).
    NoName,
    /// An INTEGER below -2^31 or above 2^32 - 1, which no message has.
    NoInteger,
    /// The value is not one that might be written to it.
    Unfit,
    /// There is no memory for it.
    OutOfMemory,
}

/// Why a Set is refused: the index of a binding, from 1, and what is wrong with it.
#[derive(Clone, Copy, Debug, PartialEq, Eq)]
pub struct BindingFault {
    /// The index of the binding, from 1.
    pub index: u32,
    /// noSuchName, badValue or genErr.
    pub status: ErrorStatus,
}
