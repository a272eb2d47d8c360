//! The Basic Encoding Rules of X.690, as far as SNMPv1 uses them: elements, lengths, integers and object identifiers.
//! Each is read in every accepted form, up to the first fault and its offset, and written in the shortest.
//!
//! ```
//! let octets: &[u8] = b"\x06\x03\x2b\x06\x01";
//! let (name, rest) = read_name(octets, octets.len())?;
//! // name prints as 1.3.6.1, and nothing is left
//! ```
#![tactic(auto)]

mod element;
mod fault;
mod integer;
mod length;
mod object_identifier;
pub mod tag;

use arrayvec::ArrayVec;
pub use element::{
    ended, put_content, put_empty, put_head, put_octets, read_content, read_element,
    size_of_element, size_of_octets,
};
pub use fault::{FaultKind, WireFault, fault_at, offset_of};
pub use integer::{
    integer_of, natural_of, put_integer, put_integers, put_unsigned, read_integer, size_of_integer,
    size_of_unsigned,
};
pub use length::read_length;
pub use object_identifier::{
    DMS, MAX_SUB_IDENTIFIERS, Numbers, Oid, below_dms, is_name, name_of, oid_cmp, read_name,
};

/// The most octets of a datagram, and so the most that are written (this profile).
pub const MAX_DATAGRAM: usize = 1472;

/// Octets to send: at most `MAX_DATAGRAM`.
pub type Out = ArrayVec<u8, MAX_DATAGRAM>;
