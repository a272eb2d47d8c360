//! The pages of a text on a face (NTCIP 1203, MULTI), drawn cell by cell; and as text and as octets.
//!
//! ```
//! let shown = pages(alloc, &face, b"A[np]A")?;
//! assert_eq!(rt; shown.len(), 2);
//! let page = shown.get(1).ok_or("no page")?;
//! assert_eq!(rt; (page.on(), page.off(), page.back()), (30, 0, 0));
//! let lit = Cell { lit: true, colour: 9, flash: None };
//! assert_eq!(rt; page.cell(10, 0), lit);
//! let text = numbered_page(alloc, 2, page)?;
//! assert!(rt; text.as_slice().starts_with(b"page 2 on 30 off 0 back 0\n"));
//! ```
#![tactic(auto)]

mod cells;
mod drawing;
mod lamps;
mod page;
mod page_octets;
mod page_text;
pub mod placing;
pub mod styling;
mod text_layout;
mod text_pages;

pub use page::Page;
pub use page_octets::{Layer, bits_needed, pages_octets, put_bits};
pub use page_text::{numbered_page, pages_text, put_pages};
pub use text_pages::{PagesFault, pages, pages_with};
