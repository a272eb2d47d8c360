//! What a central system is made with.

use dms_codes::Order;
use std::error::Error;
use std::fmt;

/// What a central system is made with.
#[derive(Clone, Copy, Debug)]
pub struct Settings<'a> {
    /// The community of its requests (RFC 1157, 4.1), of 1 to 32 octets.
    pub community: &'a [u8],
    /// Which octet of a checksum its sign has first.
    pub order: Order,
}

/// Why a central system cannot be made.
#[derive(Clone, Copy, Debug, PartialEq, Eq)]
pub enum CentreFault {
    /// The community has no octet, or more than 32.
    Community,
}

impl fmt::Display for CentreFault {
    ghost use Rattle.std.specs.Prelude.{Some};
    ghost use Rattle.dms_centre.specs.Texts.{centre_fault_text};

    ghost output = { λ fault. Some (centre_fault_text fault) };

    fn fmt<W: fmt::Write>(&self, f: &mut fmt::Formatter<W>) -> fmt::Result {
        match self {
            CentreFault::Community => f.write_str("a community has 1 to 32 octets"),
        }
    }
}

impl Error for CentreFault {}
