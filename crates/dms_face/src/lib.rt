//! The face of a sign: what it is made with, where the characters of a text stand on it, and whether it can show the
//! text (NTCIP 1203).
//!
//! ```
//! let font = Font::from_text(alloc, b"font 1 height 5 space 1 line 1 version 0001\nglyph 65 3 57da")?;
//! let mut fonts = Vec::new(alloc);
//! fonts.push(font)?;
//! let defaults = Defaults {
//!     background: 0,
//!     foreground: 9,
//!     flash_on: 5,
//!     flash_off: 5,
//!     font: 1,
//!     line: 3,
//!     page: 2,
//!     on: 30,
//!     off: 0,
//! };
//! let face = Face::new(7, 5, fonts, defaults)?;
//! assert_eq!(rt; check(&face, b"AA[np]A"), Ok(2));
//! let fault = MultiFault { code: MultiFaultCode::TextTooBig, place: 2 };
//! assert_eq!(rt; check(&face, b"AAA"), Err(fault));
//! ```
#![tactic(auto)]

pub mod cell;
pub mod checking;
pub mod defaults;
pub mod face;
pub mod fault;
pub mod justification;
pub mod laws;
pub mod multi_fault;
pub mod room;
mod totals;

pub use cell::{Cell, Flash};
pub use checking::{check, check_with};
pub use defaults::Defaults;
pub use dms_face_font::{Font, FontFault, FontFaultKind, Glyph};
pub use face::{Face, MAX_FONTS};
pub use fault::FaceFault;
pub use justification::{Part, Place, Side};
pub use multi_fault::{MultiFault, MultiFaultCode};
pub use totals::{MAX_PAGES, Totals};
