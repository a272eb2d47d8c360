//! Why a script is not run to its report.

pub use dms_sign_text::ReplayFault;
