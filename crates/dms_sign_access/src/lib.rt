//! Which objects of a sign can be set (NTCIP 1203, each object's ACCESS and SYNTAX), what a value writes to one, the
//! settings that writes leave, which names a SET has given, what a sign reports of its verdicts and decisions, what a
//! column of dmsMessageTable reads, and why a saved state is not taken up.
//!
//! ```
//! let seconds = Instance::Scalar(Scalar::ShortPowerLossTime);
//! assert!(rt; is_settable(seconds) && !is_settable(Instance::Scalar(Scalar::SignWidthPixels)));
//! assert!(rt; write_of(&face, seconds, &Value::Integer(65536)).is_none());
//! let change = write_of(&face, seconds, &Value::Integer(60)).ok_or("no change")?;
//! let mut settings = SignSettings::new(face.defaults());
//! settings.assign(&change);
//! ```
#![tactic(auto)]

mod access;
mod cells;
pub mod laws;
mod met_names;
mod reports;
mod restoring;
mod settings;

pub use access::{Change, is_settable, write_of};
pub use cells::{cell_value, number_value, shown_value, small_value};
pub use met_names::{Slots, mark_name, was_given};
pub use reports::{ReportFault, Reports};
pub use restoring::{MessageFault, StateFault};
pub use settings::{BLANK_CODE, Fallbacks, SignSettings};
