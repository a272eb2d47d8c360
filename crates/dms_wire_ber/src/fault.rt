//! What is wrong with a datagram (this profile).

ghost use Rattle.std.specs.Prelude.{◌≡◌, ◌-◌, ◌≤◌, length};
ghost use Rattle.dms_wire_ber.specs.Reading.{fault};
ghost use Rattle.dms_wire_ber.specs.FaultText.{kind_number};

use std::error::Error;
use std::fmt;

/// The rule that a datagram breaks.
#[derive(Clone, Copy, Debug, PartialEq, Eq, Hash)]
pub enum FaultKind {
    /// A tag or length octet is missing, or the outermost content passes the datagram.
    Truncated,
    /// Another tag than one allowed here.
    BadTag,
    /// A refused form of a length, a NULL with content or an IpAddress that is not four octets.
    BadLength,
    /// A content passes the element around it.
    LengthPast,
    /// An integer in no shortest form or out of range.
    BadInteger,
    /// An object identifier out of form or limits.
    BadName,
    /// A version other than 0.
    BadVersion,
    /// Octets after the last member of an element, or after the message.
    TrailingBytes,
    /// A datagram over `MAX_DATAGRAM` octets.
    TooLong,
}

impl FaultKind {
    /// The number that stands for it, 1 to 9, in the order above.
    pub fn number(self) -> u8
        ensures { result ≡ kind_number self }
    {
        match self {
            FaultKind::Truncated => 1,
            FaultKind::BadTag => 2,
            FaultKind::BadLength => 3,
            FaultKind::LengthPast => 4,
            FaultKind::BadInteger => 5,
            FaultKind::BadName => 6,
            FaultKind::BadVersion => 7,
            FaultKind::TrailingBytes => 8,
            FaultKind::TooLong => 9,
        }
    }
}

impl fmt::Display for FaultKind {
    ghost use Rattle.std.specs.Prelude.{Some};
    ghost use Rattle.dms_wire_ber.specs.FaultText.{kind_text};

    ghost output = { λ k. Some (kind_text k) };

    fn fmt<W: fmt::Write>(&self, f: &mut fmt::Formatter<W>) -> fmt::Result {
        let text = match self {
            FaultKind::Truncated => "truncated",
            FaultKind::BadTag => "unexpected tag",
            FaultKind::BadLength => "bad length",
            FaultKind::LengthPast => "content passes its element",
            FaultKind::BadInteger => "bad integer",
            FaultKind::BadName => "bad object identifier",
            FaultKind::BadVersion => "version is not 0",
            FaultKind::TrailingBytes => "trailing octets",
            FaultKind::TooLong => "datagram over 1472 octets",
        };
        f.write_str(text)
    }
}

/// The first fault of a datagram, from left to right.
#[derive(Clone, Copy, Debug, PartialEq, Eq, Hash)]
pub struct WireFault {
    /// The rule that is broken.
    pub kind: FaultKind,
    /// The offset of the octet at which it is broken, from 0: at most the number of octets of the datagram.
    pub place: usize,
}

impl fmt::Display for WireFault {
    ghost use Rattle.std.specs.Prelude.{Some};
    ghost use Rattle.dms_wire_ber.specs.FaultText.{fault_text};

    ghost output = { λ f. Some (fault_text f) };

    fn fmt<W: fmt::Write>(&self, f: &mut fmt::Formatter<W>) -> fmt::Result {
        write!(f, "{} at octet {}", self.kind, self.place)
    }
}

impl Error for WireFault {}

/// The fault of this kind at this offset.
pub fn fault_at(kind: FaultKind, place: usize) -> WireFault
    ensures { result ≡ fault kind place }
{
    WireFault { kind, place }
}

/// The offset, in octets from the beginning of the datagram, of octets that end at the offset `end`.
#[inline]
pub fn offset_of(octets: &[u8], end: usize) -> usize
    requires { length octets.now ≤ end }
    ensures { result ≡ end - length octets.now }
{
    end - octets.len()
}
