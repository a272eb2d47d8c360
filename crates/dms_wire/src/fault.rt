//! What is wrong with a message to write.

use std::error::Error;
use std::fmt;

/// The shortest spelling of a message has more than `MAX_DATAGRAM` octets.
#[derive(Clone, Copy, Debug, PartialEq, Eq, Hash)]
pub struct TooBig;

impl fmt::Display for TooBig {
    ghost use Rattle.std.specs.Prelude.{Some, codes};

    ghost output = { λ _. Some (codes "the message has more than 1472 octets") };

    fn fmt<W: fmt::Write>(&self, f: &mut fmt::Formatter<W>) -> fmt::Result {
        f.write_str("the message has more than 1472 octets")
    }
}

impl Error for TooBig {}
