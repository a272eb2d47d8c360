//! Fonts and the pictures of their characters, and fonts as text.
//!
//! ```
//! let font = Font::from_text(alloc, b"font 2 height 5 space 1 line 1 version 0002\nglyph 65 3 57da")?;
//! let a = font.glyph(65).ok_or("no glyph")?;
//! assert_eq!(rt; (a.width(), a.height()), (3, 5));
//! assert!(rt; a.is_lit(1, 0) && !a.is_lit(0, 0) && a.bitmap() == [0x57, 0xda]);
//! ```
#![tactic(auto)]

mod fault;
mod font;
mod font_text;
mod glyph;
pub mod laws;

pub use fault::{FontFault, FontFaultKind};
pub use font::Font;
pub use glyph::Glyph;
