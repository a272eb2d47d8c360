//! The codes that name a message and activate one, the checksum of a message, what names a row of the message table,
//! and what the MIB numbers: types of memory, statuses, what puts a message up, what a validation finds.
//!
//! ```
//! let id = MessageId { memory: memory::CHANGEABLE, number: 1, crc: crc(b"A", 0, 0) };
//! assert_eq!(id.to_bytes(Order::High), [3, 0, 1, 0x9a, 0x66]);
//! assert_eq!(MessageId::from_bytes(Order::Swapped, &[3, 0, 1, 0x66, 0x9a]), Some(id));
//! ```
#![tactic(auto)]

pub mod checksum;
pub mod codes;
pub mod laws;
mod limits;
pub mod memory;
mod mode;
mod octet_tables;
mod row_id;
mod status;
mod validation_error;

pub use checksum::crc;
pub use codes::{Activation, MessageId, Order};
pub use limits::{
    MAX_CHANGEABLE, MAX_COMMUNITY, MAX_MATRIX_HEIGHT, MAX_MATRIX_WIDTH, MAX_OWNER, MAX_PERMANENT,
    MAX_TEXT, MAX_VOLATILE, has_community_size,
};
pub use memory::Memory;
pub use mode::Mode;
pub use row_id::RowId;
pub use status::{Ask, Status};
pub use validation_error::ValidationError;
