//! A sign, the objects of its fonts, and the objects that firmware publishes beside it, behind one address (this
//! profile): a Get reads all, a GetNext walks all in the order of their names, and a Set whose names are all those of
//! published objects is theirs. Whether fonts can be read is settled before an object is published (`show_fonts`).
//!
//! ```
//! let mut agent = Agent::new(alloc, sign);
//! agent.publish(PublishedObject::new(alloc, name.content(), &Value::Integer(7), ManagerAccess::ReadOnly)?)?;
//! let mut reply = Out::new();
//! assert!(rt; agent.receive(datagram, &mut reply) == Receipt::Replied);
//! ```
#![tactic(auto)]

mod agent;
pub mod laws;
mod receiving;
mod values;

pub use agent::{Agent, PublishFault};
