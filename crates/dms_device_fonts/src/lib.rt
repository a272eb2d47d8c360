//! The fonts of a sign's face as objects that can be read (NTCIP 1203 v03, dms.3): numFonts, maxFontCharacters,
//! fontMaxCharacterSize, fontTable and characterTable. No list is made: what a name reads, and which name comes next,
//! is computed as it is asked for.
//!
//! ```
//! let objects = FontObjects::of(sign.face());
//! match objects.value(&name) {
//!     Some(value) => answer(&name, &value),
//!     None => refuse(ErrorStatus::NoSuchName),
//! }
//! ```
#![tactic(auto)]

mod ends;
mod fonts;
pub mod laws;
mod next;
mod place;
mod reading;
mod steps;

pub use fonts::{FontObjects, fonts_after, fonts_value};
