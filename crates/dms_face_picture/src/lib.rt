//! A message as a picture: one document of Scalable Vector Graphics, which a browser plays as the sign does.
//!
//! ```
//! let shown = pages(alloc, &face, b"A")?;
//! let document = picture(alloc, face.width(), face.height(), b"A", shown.as_slice())?;
//! assert!(rt; document.as_slice().starts_with(b"<svg "));
//! ```
#![tactic(auto)]

mod description;
mod document;
mod lamps;
mod motion;
mod shade;
mod text;

pub use document::{picture, still};
