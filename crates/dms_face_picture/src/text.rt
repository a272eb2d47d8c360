//! Texts and numbers, appended.

ghost use Rattle.std.specs.Prelude.{◌≡◌, ◌++◌, decimal, OnOk};

use std::io;
use std::io::Write;

/// Appends a text.
pub(crate) fn put(out: &mut Vec<u8>, text: &str) -> io::Result<()>
    ensures { OnOk result (out.new.items ≡ out.old.items ++ text.now) }
{
    out.write_all(text.as_bytes())
}

/// Appends a number in decimal digits.
pub(crate) fn put_number(out: &mut Vec<u8>, number: u32) -> io::Result<()>
    ensures { OnOk result (out.new.items ≡ out.old.items ++ decimal number) }
{
    write!(out, "{number}")
}
