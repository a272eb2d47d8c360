//! The objects of a sign (NTCIP 1203, dms), one table: the columns of dmsMessageTable and the objects with one
//! instance; and the names of their instances.
//!
//! ```
//! let name = Name::of(Instance::Scalar(Scalar::ActivateMessage));
//! assert_eq!(name.oid().content(), [43, 6, 1, 4, 1, 137, 54, 4, 2, 3, 6, 3, 0]);
//! ```
#![tactic(auto)]

mod column;
mod instance;
pub mod laws;
mod name;
mod objects;
mod scalar;

pub use column::Column;
pub use instance::Instance;
pub use name::{Name, NumberedName};
pub use objects::{Access, Group, Instances, OBJECTS, Object, Syntax};
pub use scalar::Scalar;
