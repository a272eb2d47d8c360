//! Signs as text, and what a sign shows as a line. A description is a line for each part, in this order:
//!
//! ```text
//! size WIDTH HEIGHT
//! communities READER WRITER
//! rows CHANGEABLE VOLATILE
//! order high                                      (or swapped)
//! has BEACON PIXEL                                (each 0 or 1)
//! defaults BACKGROUND FOREGROUND FLASH_ON FLASH_OFF FONT LINE PAGE ON OFF
//! first NUMBER                                    (of the first request of its centre)
//! permanent TEXT OWNER BEACON PIXEL PRIORITY      (a line for each row; octets in hexadecimal digits, none is `-`)
//! font ..                                         (one to four fonts, as dms_face_font reads them)
//! end
//! ```
//!
//! ```
//! assert_eq!(rt; description(alloc, b"size 23 14").err(), Some(DescriptionFault::Line(2)));
//! ```
#![tactic(auto)]

mod bench_sign;
mod body_word;
mod describing;
mod fault;
mod fonts;
mod head;
pub mod laws;
mod line_fault;
mod making;
mod reader;
mod reading_fault;
mod reasons;
mod rows;
mod setup;
mod shown_text;
mod sign_reasons;
mod upcoming;

pub use bench_sign::{BENCH, bench_setup};
pub use describing::{described, described_before, text_before, whole_input};
pub use dms_text_streams::LONGEST_INPUT;
pub use fault::DescriptionFault;
pub use reader::{description, sign_of_lines};
pub use reading_fault::{ReplayFault, write_fault};
pub use reasons::{cause_of_line, first_cause};
pub use setup::Setup;
pub use shown_text::put_shown;
