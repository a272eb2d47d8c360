//! Objects that firmware publishes beside those of a sign (this profile): what each reads, which comes next, and what a
//! manager may set. Memory is taken as an object is made and as it is published; a Set takes none, so that it cannot
//! fail half way.
//!
//! ```
//! let mut device = Device::new(alloc);
//! let level = ManagerAccess::Number { least: 0, most: 15 };
//! device.publish(PublishedObject::new(alloc, name.content(), &Value::Integer(7), level)?)?;
//! assert!(rt; device.value(&name) == Some(Value::Integer(7)));
//! device.set(true, &message.binds)?;
//! ```
#![tactic(auto)]

mod access;
mod device;
mod fault;
mod held;
mod names;
mod object;
mod places;
mod setting;

pub use access::ManagerAccess;
pub use device::Device;
pub use fault::{BindingFault, ObjectFault};
pub use object::PublishedObject;
