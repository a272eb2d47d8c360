//! The state of an agent as text (this profile): that of its sign, up to `end`, and behind it a line `set NAME VALUE`
//! for each published object whose value a manager set. What is published stands in no text: it is firmware's to say.
//!
//! ```
//! let text = saved(alloc, &agent)?;
//! // when the same objects are published beside the sign of its part
//! let sign = restored(alloc, config, state_parts(text.as_slice()).0)?;
//! let mut agent = Agent::new(alloc, sign);
//! agent.publish(PublishedObject::new(alloc, name.content(), &Value::Integer(7), access)?)?;
//! put_objects(alloc, &mut agent, text.as_slice())?;
//! assert!(rt; saved(alloc, &agent)?.as_slice() == text.as_slice());
//! ```
#![tactic(auto)]

mod fault;
pub mod laws;
mod parts;
mod reading;
mod restoring;
mod saving;
mod words;

pub use fault::{SetCause, SetError, SetFault};
pub use parts::state_parts;
pub use reading::saved_values;
pub use restoring::put_objects;
pub use saving::{put_saved, saved};
