//! A sign and a central system behind pointers, as C holds them: a handle, which has one, and a place, which has one or
//! none.
//!
//! ```
//! fn make(alloc: Global, place: &mut SignPlace, sign: Sign) -> Result<(), AllocError> {
//!     place.keep(Box::new(alloc, Watched::new(alloc, sign))?);
//!     Ok(())
//! }
//!
//! fn tick(sign: &mut SignHandle) {
//!     sign.as_mut().tick();
//! }
//! ```
#![tactic(auto)]

mod centre_handle;
mod centre_place;
mod lent_centre;
mod lent_sign;
mod loose;
mod placed_centre;
mod placed_sign;
mod sign_handle;
mod sign_place;

pub use centre_handle::CentreHandle;
pub use centre_place::CentrePlace;
pub use sign_handle::SignHandle;
pub use sign_place::SignPlace;
