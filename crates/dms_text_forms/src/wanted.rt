//! What a word of a line is to be.

use crate::vocabulary::{Keyword, WordName};
use std::fmt;

/// What a word of a line is to be.
#[derive(Clone, Copy, Debug, PartialEq, Eq)]
pub enum Wanted {
    /// This word.
    Keyword(Keyword),
    /// One of these two words.
    Either(Keyword, Keyword),
    /// Any word, of this name.
    Name(WordName),
    /// A number of one to five decimal digits, from the first of these to the second.
    Number(u16, u16),
    /// A number of one to ten decimal digits, below 2^32.
    FourOctets,
    /// Octets of this name in hexadecimal digits, none as `-`.
    Octets(WordName),
    /// A number of just four hexadecimal digits.
    Version,
    /// Four numbers with dots between them.
    Address,
    /// A code of twenty-four hexadecimal digits.
    Code,
}

impl fmt::Display for Wanted {
    ghost use Rattle.std.specs.Prelude.{Some};
    ghost use Rattle.dms_text_forms.specs.Texts.{wanted_text};

    ghost output = { λ wanted. Some (wanted_text wanted) };

    fn fmt<W: fmt::Write>(&self, f: &mut fmt::Formatter<W>) -> fmt::Result {
        match self {
            Wanted::Keyword(word) => write!(f, "the word {}", word.text()),
            Wanted::Either(one, other) => write!(f, "{} or {}", one.text(), other.text()),
            Wanted::Name(name) => f.write_str(name.text()),
            Wanted::Number(low, high) => write!(f, "a number from {low} to {high}"),
            Wanted::FourOctets => f.write_str("a number from 0 to 4294967295"),
            Wanted::Octets(name) => write!(f, "{} in hexadecimal", name.text()),
            Wanted::Version => f.write_str("a version of four hexadecimal digits"),
            Wanted::Address => f.write_str("an address, as 192.0.2.1,"),
            Wanted::Code => f.write_str("a code of 24 hexadecimal digits"),
        }
    }
}
