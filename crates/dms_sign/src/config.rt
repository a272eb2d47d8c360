//! What a sign is made with.

ghost use Rattle.std.specs.Prelude.{◌≡◌};
ghost use Rattle.dms_sign.specs.Communities.{are_communities};

use dms_codes::has_community_size;
use dms_face::Face;
use dms_table::{Stock, TableFault};
use std::error::Error;
use std::fmt;

/// A face, the stock of the message table, and the communities that may read and that may also write: each has 1 to 32
/// octets, and they differ.
#[derive(Drop)]
pub struct Config<'a> {
    /// The matrix, its fonts and its first defaults.
    pub face: Face,
    /// The rows of the message table, the services and the order of a checksum's octets.
    pub stock: Stock<'a>,
    /// The community that may read, of 1 to 32 octets.
    pub reader: &'a [u8],
    /// The community that may read and write, of 1 to 32 octets.
    pub writer: &'a [u8],
}

/// Why there is no sign.
#[derive(Clone, Copy, Debug, PartialEq, Eq)]
pub enum ConfigFault {
    /// A community has not 1 to 32 octets, or both are the same.
    Community,
    /// There is no such message table, or no memory for it.
    Table(TableFault),
}

impl fmt::Display for ConfigFault {
    ghost use Rattle.std.specs.Prelude.{Some};
    ghost use Rattle.dms_sign.specs.Configuration.{config_fault_text};

    ghost output = { λ fault. Some (config_fault_text fault) };

    fn fmt<W: fmt::Write>(&self, f: &mut fmt::Formatter<W>) -> fmt::Result {
        match self {
            ConfigFault::Community => f.write_str("the communities are not two of 1 to 32 octets"),
            ConfigFault::Table(fault) => write!(f, "{fault}"),
        }
    }
}

impl Error for ConfigFault {}

/// Communities have their size, and differ.
pub(crate) fn are_communities(reader: &[u8], writer: &[u8]) -> bool
    ensures { result ≡ are_communities reader.now writer.now }
{
    has_community_size(reader) && has_community_size(writer) && reader != writer
}
