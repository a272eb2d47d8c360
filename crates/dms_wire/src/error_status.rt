//! Error-statuses.

ghost use Rattle.std.specs.Prelude.{◌≡◌};
ghost use Rattle.dms_wire.specs.ErrorStatus.{error_status_number, error_status_of};

use std::fmt;

/// What a Response says of the request (RFC 1157, 4.1.1). readOnly (4) is left out: no implementation sends it, since
/// 4.1.5 asks for noSuchName where a variable may not be written.
#[derive(Clone, Copy, Debug, PartialEq, Eq, Hash)]
pub enum ErrorStatus {
    /// The request was done (0).
    NoError,
    /// The Response would not fit into a datagram (1).
    TooBig,
    /// A variable has no value, no next one, or is not to be written (2).
    NoSuchName,
    /// A value is not of the variable's type, size or range (3).
    BadValue,
    /// Another reason (5).
    GenErr,
}

impl ErrorStatus {
    /// The number that a message carries: 0 to 3, or 5.
    pub fn number(self) -> u8
        ensures { result ≡ error_status_number self }
    {
        match self {
            ErrorStatus::NoError => 0,
            ErrorStatus::TooBig => 1,
            ErrorStatus::NoSuchName => 2,
            ErrorStatus::BadValue => 3,
            ErrorStatus::GenErr => 5,
        }
    }

    /// The error-status with this number, or none where it is no status's (readOnly's 4 too).
    pub fn of(number: i64) -> Option<ErrorStatus>
        ensures { result ≡ error_status_of number }
    {
        match number {
            0 => Some(ErrorStatus::NoError),
            1 => Some(ErrorStatus::TooBig),
            2 => Some(ErrorStatus::NoSuchName),
            3 => Some(ErrorStatus::BadValue),
            5 => Some(ErrorStatus::GenErr),
            _ => None,
        }
    }
}

impl fmt::Display for ErrorStatus {
    ghost use Rattle.std.specs.Prelude.{Some};
    ghost use Rattle.dms_wire.specs.ErrorStatus.{error_status_text};

    ghost output = { λ s. Some (error_status_text s) };

    fn fmt<W: fmt::Write>(&self, f: &mut fmt::Formatter<W>) -> fmt::Result {
        let text = match self {
            ErrorStatus::NoError => "noError",
            ErrorStatus::TooBig => "tooBig",
            ErrorStatus::NoSuchName => "noSuchName",
            ErrorStatus::BadValue => "badValue",
            ErrorStatus::GenErr => "genErr",
        };
        f.write_str(text)
    }
}
