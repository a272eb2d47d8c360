//! A call that failed.

use std::error::Error;
use std::fmt;

/// A call of a reader or of a writer failed.
#[derive(Clone, Copy, Debug, PartialEq, Eq)]
pub struct Failed;

impl fmt::Display for Failed {
    ghost use Rattle.std.specs.Prelude.{Some};
    ghost use Rattle.dms_text_streams.specs.FaultTexts.{failed_text};

    ghost output = { λ failed. Some (failed_text failed) };

    fn fmt<W: fmt::Write>(&self, f: &mut fmt::Formatter<W>) -> fmt::Result {
        f.write_str("a call failed")
    }
}

impl Error for Failed {}
