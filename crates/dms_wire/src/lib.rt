//! SNMPv1 messages in BER (RFC 1157): reading a datagram, and writing the shortest one. Nothing is copied while
//! reading, and no memory is taken.
//!
//! ```
//! let message = read(datagram)?;
//! let mut values = BindingOctets::new();
//! for bind in message.binds.again() {
//!     values.push(&Bind { name: bind.name, value: Value::Integer(7) });
//! }
//! let mut out = Out::new();
//! let header = message.response(ErrorStatus::NoError, 0);
//! if write_around(&header, &values, &mut out).is_err() {
//!     write_response(&message, ErrorStatus::TooBig, 0, &mut out)?;
//! }
//! ```
#![tactic(auto)]

pub mod binding;
mod error_status;
pub mod fault;
pub mod laws;
pub mod message;
mod tag;
mod usual;
pub mod value;

pub use binding::{Bind, BindingOctets, Binds, MAX_BINDINGS};
pub use dms_wire_ber::{FaultKind, MAX_DATAGRAM, Numbers, Oid, Out, WireFault, oid_cmp};
pub use error_status::ErrorStatus;
pub use fault::TooBig;
pub use message::{
    Header, Kind, Message, MessageParts, heard, read, write, write_around, write_binding,
    write_response, write_value,
};
pub use value::Value;
