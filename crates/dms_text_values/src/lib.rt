//! Names and values of objects as words of a line: `1.3.6.1.2.1.1.1.0`, `INTEGER -7`, `OCTET STRING 466f67`. What is
//! printed of a value is read back.
//!
//! ```
//! let line: &[u8] = b"OCTET STRING 466f67 octets 0 8";
//! let (words, rest) = value(Words::of(line)).ok_or("no value")?;
//! let octets = words.octets(alloc)?;
//! assert!(rt; words.over(octets.as_slice()) == Value::Octets(b"Fog"));
//! // `octets 0 8` is left
//! ```
#![tactic(auto)]

mod integers;
mod names;
mod printing;
mod type_word;
mod values;

pub use integers::{integer, integer_of};
pub use names::{NameRead, name};
pub use printing::put_value;
pub use values::{ValueWords, value};
