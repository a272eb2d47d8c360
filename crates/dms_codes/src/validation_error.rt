//! What is wrong with a message that is validated (NTCIP 1203, dmsValidateMessageError).

ghost use Rattle.std.specs.Prelude.{◌≡◌};
ghost use Rattle.dms_codes.specs.ValidationError.{validation_number};

/// What is wrong with a message that is validated: the values of dmsValidateMessageError.
#[derive(Clone, Copy, Debug, PartialEq, Eq)]
pub enum ValidationError {
    /// Nothing.
    None,
    /// It has a beacon on, and the sign has none.
    Beacons,
    /// It has a pixel service on, and the sign has none.
    PixelService,
    /// Its text does not fit.
    SyntaxMulti,
}

impl ValidationError {
    /// The error's number in dmsValidateMessageError.
    pub fn number(self) -> u8
        ensures { result ≡ validation_number self }
    {
        match self {
            ValidationError::None => 2,
            ValidationError::Beacons => 3,
            ValidationError::PixelService => 4,
            ValidationError::SyntaxMulti => 5,
        }
    }
}
