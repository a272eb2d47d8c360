//! The state of a sign as text, which a person can read and compare with another: what came to be since the sign was
//! made, and nothing that its description says or that is computed. Each line begins with the name of a field:
//!
//! ```text
//! state 1 sign
//! changeable NUMBER STATUS TEXT OWNER BEACON PIXEL PRIORITY     each row that is used, by its number
//! volatile NUMBER STATUS TEXT OWNER BEACON PIXEL PRIORITY       so too
//! defaults BACKGROUND FOREGROUND FLASH-ON FLASH-OFF FONT LINE PAGE ON OFF
//! short-power-recovery CODE                                     five octets, as of the next four
//! long-power-recovery CODE
//! power-loss CODE
//! end-duration CODE
//! communications-loss CODE
//! SETTING NUMBER                                                each setting that is a number, by its word
//! silent SECONDS
//! shown TEXT OWNER BEACON PIXEL PRIORITY
//! shown-source CODE                                             five octets
//! shown-mode MODE
//! shown-address ADDRESS
//! shown-remaining SECONDS                                       where it has an end
//! shown-defaults BACKGROUND FOREGROUND FLASH-ON FLASH-OFF FONT LINE PAGE ON OFF
//! kept ..                                                       of what was shown as the power was lost, so too
//! validate-error NUMBER
//! activate-error NUMBER
//! syntax-error NUMBER
//! syntax-error-position PLACE
//! accepted-code CODE                                            twelve octets, as of the next
//! failed-code CODE
//! powered 1
//! end
//! ```
//!
//! It is read back into plain fields, exactly: what is read is the state whose text it is, and of another text it is
//! said at which line it goes wrong, and what is wanted there:
//!
//! ```
//! match state_fields(alloc, b"state 1 sign\nchangeable 01 4 41 - 0 0 1\n") {
//!     Ok(state) => assert!(rt; state.powered),
//!     Err(StateError::Memory) => {}
//!     // "line 2: changeable and a row of a number from 1 to 64 wanted"
//!     Err(StateError::Fault(fault)) => assert!(rt; fault.line == 2),
//! }
//! ```
#![tactic(auto)]

mod field;
mod fields;
pub mod laws;
mod line_reading;
mod lines;
mod number_settings;
mod reading;
mod saving;
mod words;

pub use field::{Put, SignStateFault, SignStateField, StateError, Stored};
pub use fields::{MessageFields, PutFields, StateFields, UsedRowFields};
pub use number_settings::{NumberSetting, settings_lines};
pub use reading::state_fields;
pub use saving::{most_saved, put_saved, saved};
