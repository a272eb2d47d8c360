//! What words of an event's line spell.

pub use dms_centre_text::address;
pub use dms_text_forms::fields::{last_number, last_octets};
