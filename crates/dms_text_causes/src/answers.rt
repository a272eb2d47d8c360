//! The answer to a line that is no call.

ghost use Rattle.std.specs.Prelude.{◌≡◌, IfOk, IfSome};
ghost use Rattle.dms_text_causes.specs.LineCauses.{bad_line_text};

use std::alloc::{AllocError, Global};
use std::fmt::Display;
use std::io::Write;

/// The answer to a line that is no call: the line that says why it is none.
pub fn bad_line<C: Display + Drop>(alloc: Global, cause: C) -> Result<Vec<u8>, AllocError>
    ensures { IfOk result (λ text. IfSome (C.output cause) (λ why. text.items ≡ bad_line_text why)) }
{
    let mut text = Vec::new(alloc);
    match writeln!(text, "bad line {cause}") {
        Ok(()) => Ok(text),
        Err(_) => Err(AllocError),
    }
}
