//! The validation of messages.

ghost use Rattle.std.specs.Prelude.{◌≡◌, IsTrue};
ghost use Rattle.dms_face.specs.Face.{fit};
ghost use Rattle.dms_face.specs.Fit.{IsGood};
ghost use Rattle.dms_table.specs.Validation.{verdict_without_fault, verdict_on, passes};
ghost use Rattle.dms_table.specs.ValidatorView.{face_of};

use crate::row::Services;
use dms_codes::ValidationError;
use dms_face::{Defaults, Face, MultiFault, check_with};

/// The verdict on a row (NTCIP 1203, dmsValidateMessageError).
#[derive(Clone, Copy, Debug, PartialEq, Eq)]
pub struct Verdict {
    /// The number of what is wrong (`ValidationError`): 2 where the row is valid, 3 for a beacon and 4 for a pixel
    /// service that the sign has not, 5 for a text that does not fit.
    pub error: u8,
    /// The fault of a text that does not fit.
    pub fault: Option<MultiFault>,
}

impl Verdict {
    /// The verdict of this error, where it is not a text's.
    fn without_fault(error: ValidationError) -> Verdict
        ensures { result ≡ verdict_without_fault error }
    {
        Verdict {
            error: error.number(),
            fault: None,
        }
    }

    /// Whether nothing is wrong, so that the row becomes valid.
    pub fn passes(&self) -> bool
        ensures { result ≡ passes self.now }
    {
        self.error == ValidationError::None.number()
    }
}

/// What messages are validated against.
#[derive(Clone, Copy)]
pub(crate) struct Validator<'a> {
    pub services: Services,
    pub face: &'a Face,
    pub defaults: &'a Defaults,
}

impl<'a> Validator<'a> {
    /// The verdict on a message.
    pub(crate) fn verdict(&self, text: &[u8], beacon: u8, pixel: u8) -> Verdict
        requires { IsTrue (fit self.now.face.now.fonts self.now.defaults.now) }
        ensures value { result ≡ verdict_on self.now.services (face_of self.now) text.now beacon pixel }
        ensures good { IsTrue (passes result) → IsGood (face_of self.now) text.now }
    {
        if beacon == 1 && !self.services.beacon {
            return Verdict::without_fault(ValidationError::Beacons);
        }
        if pixel == 1 && !self.services.pixel {
            return Verdict::without_fault(ValidationError::PixelService);
        }
        match check_with(self.face, self.defaults, text) {
            Ok(_) => Verdict::without_fault(ValidationError::None),
            Err(fault) => Verdict {
                error: ValidationError::SyntaxMulti.number(),
                fault: Some(fault),
            },
        }
    }
}
