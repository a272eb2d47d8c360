//! The types of memory that messages are named by.

ghost use Rattle.std.specs.Prelude.{◌≡◌};
ghost use Rattle.dms_codes.specs.Memory.{memory_number, memory_of};

/// Rows that the sign is made with.
pub const PERMANENT: u8 = 2;

/// Rows that are kept over a loss of power.
pub const CHANGEABLE: u8 = 3;

/// Rows that a loss of power empties.
pub const VOLATILE: u8 = 4;

/// What is shown: its only number is 1.
pub const CURRENT_BUFFER: u8 = 5;

/// Blank messages, of the numbers 1 to 255.
pub const BLANK: u8 = 7;

/// A type of memory (NTCIP 1203, dmsMessageMemoryType).
#[derive(Clone, Copy, Debug, PartialEq, Eq)]
pub enum Memory {
    /// Rows that the sign is made with.
    Permanent,
    /// Rows that are kept over a loss of power.
    Changeable,
    /// Rows that a loss of power empties.
    Volatile,
    /// What is shown: its only number is 1.
    CurrentBuffer,
    /// Blank messages, of the numbers 1 to 255.
    Blank,
}

impl Memory {
    /// The type of memory of a number; none for a number that is no type of memory here.
    pub fn of(number: u8) -> Option<Memory>
        ensures { result ≡ memory_of number }
    {
        match number {
            self::PERMANENT => Some(Memory::Permanent),
            self::CHANGEABLE => Some(Memory::Changeable),
            self::VOLATILE => Some(Memory::Volatile),
            self::CURRENT_BUFFER => Some(Memory::CurrentBuffer),
            self::BLANK => Some(Memory::Blank),
            _ => None,
        }
    }

    /// Its number in dmsMessageMemoryType.
    pub fn number(self) -> u8
        ensures { result ≡ memory_number self }
    {
        match self {
            Memory::Permanent => PERMANENT,
            Memory::Changeable => CHANGEABLE,
            Memory::Volatile => VOLATILE,
            Memory::CurrentBuffer => CURRENT_BUFFER,
            Memory::Blank => BLANK,
        }
    }
}
