//! A cause in numbers.

ghost use Rattle.std.specs.Prelude.{◌≡◌};
ghost use Rattle.wisangub_c_causes.specs.Causes.{of_line};

/// Why a description, a text or a command is refused. A number that says nothing of a cause is 0.
#[repr(C)]
#[derive(Clone, Copy)]
pub struct CauseNumbers {
    /// The line of a description, from 1.
    pub line: usize,
    /// The word of the line, from 1.
    pub word: usize,
    /// The permanent row, from 1.
    pub row: usize,
    /// Of a text that can not be shown, the offset in octets of what is wrong.
    pub place: usize,
    /// The least number, or the least size, of those that are wanted.
    pub least: u32,
    /// The greatest one.
    pub most: u32,
    /// Which cause it is, 1 to 35.
    pub kind: u8,
    /// What the word is to be, 1 to 8.
    pub wanted: u8,
    /// The number that stands there, of a font or of a default.
    pub number: u8,
    /// Of a text that can not be shown, what is wrong (dmsMultiSyntaxError).
    pub code: u8,
}

/// The least and the greatest of numbers, or of sizes.
#[derive(Clone, Copy)]
pub struct Bounds {
    pub least: u32,
    pub most: u32,
}

/// A line that is at fault as a whole.
pub(crate) fn of_line(line: usize, kind: u8) -> CauseNumbers
    ensures { result ≡ of_line line kind }
{
    CauseNumbers {
        line,
        word: 0,
        row: 0,
        place: 0,
        least: 0,
        most: 0,
        kind,
        wanted: 0,
        number: 0,
        code: 0,
    }
}
