//! The message table of a sign (NTCIP 1203, dmsMessageTable): its rows, their validation, and what a code activates.
//!
//! ```
//! let mut table = Table::new(alloc, stock, &face)?;
//! let row = RowId { memory: memory::CHANGEABLE, number: 1 };
//! table.ask(row, Ask::Modify)?;
//! table.write(row, Field::Text(b"A"))?;
//! table.ask(row, Ask::Validate)?;
//! let verdict = table.settle(&face, &face.defaults());
//! assert_eq!(table.row(row).map(|row| row.checksum), Some(0x9a66));
//! ```
#![tactic(auto)]

pub mod activation;
pub mod laws;
pub mod row;
mod saved_row;
mod saved_shown;
pub mod shown;
pub mod stock;
pub mod table;
pub mod validation;
pub mod writable;

pub use activation::Cause;
pub use dms_codes::{
    Activation, Ask, MAX_OWNER, MAX_TEXT, Memory, MessageId, Mode, Order, RowId, Status,
    ValidationError, checksum, codes, crc, memory,
};
pub use row::{Field, Refused, RowView, Services};
pub use saved_row::{RowFault, SavedRow};
pub use saved_shown::{SavedShown, ShownFault};
pub use shown::{Shown, seconds_of};
pub use stock::{Permanent, Stock, TableFault};
pub use table::Table;
pub use validation::Verdict;
pub use writable::{RowPlace, Writable};
