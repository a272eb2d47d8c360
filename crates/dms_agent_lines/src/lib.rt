//! The lines to a live sign beside which firmware publishes objects, each with its answer. Every line that is none of
//! these is the sign's, and so is its answer.
//!
//! ```
//! let mut agent = Agent::new(alloc, setup.sign);
//! let line: &[u8] = b"object 1.3.6.1.2.1.1.1.0 OCTET STRING 466f67";
//! let text = answer(alloc, &mut agent, line)?;
//! assert!(rt; text.as_slice() == b"ok\n".as_slice());
//! converse(alloc, &mut LiveAgent::new(agent), &mut input, &mut out)?;
//! ```
#![tactic(auto)]

mod agent_call;
mod answering;
mod cause;
mod keywords;
pub mod laws;
mod live;
mod reading;

pub use answering::answer;
pub use live::LiveAgent;
