//! What a sign reports of its verdicts and decisions.

ghost use Rattle.std.specs.Prelude.{◌≡◌, ◌≤◌, IfSome};
ghost use Rattle.dms_codes.specs.Limits.{longest_text};
ghost use Rattle.dms_sign_access.specs.Reports.{first_reports, with_fault, with_cause, text_reports};
ghost use Rattle.dms_sign_access.specs.Reports.{settled_reports, refused_reports, accepted_reports, IsCauseInRange};
ghost use Rattle.dms_sign_access.specs.Reports.{is_validation_error, is_activation_error, is_text_error};
ghost use Rattle.dms_sign_access.specs.Reports.{is_syntax_error, is_place_of, report_fault};

use dms_codes::{MAX_TEXT, ValidationError};
use dms_face::{MultiFault, MultiFaultCode};
use dms_table::{Cause, Verdict};

/// "none" of dmsActivateMsgError and dmsMultiSyntaxError: what is reported where nothing is wrong.
const NO_ERROR: u8 = 2;

/// The greatest number of a cause (`Cause::number`).
const LAST_CAUSE: u8 = 8;

/// Errors by the numbers of their objects; codes are the twelve octets that came (MessageActivationCode).
#[derive(Clone, Copy, Debug, PartialEq, Eq)]
pub struct Reports {
    /// dmsValidateMessageError
    pub validate_error: u8,
    /// dmsActivateMsgError
    pub activate_error: u8,
    /// dmsMultiSyntaxError
    pub syntax_error: u8,
    /// dmsMultiSyntaxErrorPosition: an offset, at most 512
    pub syntax_error_position: u16,
    /// dmsActivateMessage: the code last accepted by SET
    pub accepted_code: [u8; 12],
    /// dmsActivateErrorMsgCode: the code last refused
    pub failed_code: [u8; 12],
}

/// Why no sign reports this.
#[derive(Clone, Copy, Debug, PartialEq, Eq)]
pub enum ReportFault {
    /// No validation has this error.
    ValidateError,
    /// No activation has this error.
    ActivateError,
    /// No text has this fault.
    SyntaxError,
    /// No fault of a text stands there, or there is none that stands anywhere.
    Position,
}

impl Reports {
    /// Nothing was judged, and no code came: the errors are none, the codes zeros.
    pub fn new() -> Reports
        ensures { result ≡ first_reports }
    {
        Reports {
            validate_error: ValidationError::None.number(),
            activate_error: NO_ERROR,
            syntax_error: NO_ERROR,
            syntax_error_position: 0,
            accepted_code: [0; 12],
            failed_code: [0; 12],
        }
    }

    /// With the verdict on the row that was settled, where one was: dmsValidateMessageError, and its text's fault or
    /// none. The fault's offset must be at most `MAX_TEXT`.
    pub fn with_verdict(self, verdict: &Option<Verdict>) -> Reports
        requires { IfSome verdict.now (λ verdict. IfSome verdict.fault (λ fault. fault.place ≤ longest_text)) }
        ensures { result ≡ settled_reports self verdict.now }
    {
        match verdict {
            None => self,
            Some(verdict) => Reports {
                validate_error: verdict.error,
                ..self.with_text(&verdict.fault)
            },
        }
    }

    /// With the cause for which a code was refused (dmsActivateMsgError), and the code (dmsActivateErrorMsgCode).
    /// The offset of a text's fault must be at most `MAX_TEXT`.
    pub fn with_refusal(self, cause: &Cause, code: [u8; 12]) -> Reports
        requires { IsCauseInRange cause.now }
        ensures { result ≡ refused_reports self cause.now code }
    {
        Reports {
            activate_error: cause.number(),
            failed_code: code,
            ..self.with_cause(cause)
        }
    }

    /// With the code of an activation that was accepted (dmsActivateMessage), and no error (dmsActivateMsgError).
    pub fn with_accepted(self, code: [u8; 12]) -> Reports
        ensures { result ≡ accepted_reports self code }
    {
        Reports {
            activate_error: NO_ERROR,
            accepted_code: code,
            ..self
        }
    }

    /// With the fault of a text.
    fn with_fault(self, fault: &MultiFault) -> Reports
        requires { fault.now.place ≤ longest_text }
        ensures { result ≡ with_fault self fault.now }
    {
        Reports {
            syntax_error: fault.code.number(),
            syntax_error_position: fault.place as u16,
            ..self
        }
    }

    /// With what was found of a text: its fault, or that it has none.
    fn with_text(self, found: &Option<MultiFault>) -> Reports
        requires { IfSome found.now (λ fault. fault.place ≤ longest_text) }
        ensures { result ≡ text_reports self found.now }
    {
        match found {
            Some(fault) => self.with_fault(fault),
            None => Reports {
                syntax_error: NO_ERROR,
                syntax_error_position: 0,
                ..self
            },
        }
    }

    /// A text that is wrong has its fault reported; other causes leave what is reported of texts.
    fn with_cause(self, cause: &Cause) -> Reports
        requires { IsCauseInRange cause.now }
        ensures { result ≡ with_cause self cause.now }
    {
        match cause {
            Cause::Syntax(fault) => self.with_fault(fault),
            _ => self,
        }
    }

    /// The first thing for which no sign reports this.
    pub fn fault(&self) -> Option<ReportFault>
        ensures { result ≡ report_fault self.now }
    {
        if !is_validation_error(self.validate_error) {
            Some(ReportFault::ValidateError)
        } else if !is_activation_error(self.activate_error) {
            Some(ReportFault::ActivateError)
        } else if !is_syntax_error(self.syntax_error) {
            Some(ReportFault::SyntaxError)
        } else if !is_place_of(self.syntax_error, self.syntax_error_position) {
            Some(ReportFault::Position)
        } else {
            None
        }
    }
}

fn is_validation_error(number: u8) -> bool
    ensures { result ≡ is_validation_error number }
{
    ValidationError::None.number() <= number && number <= ValidationError::SyntaxMulti.number()
}

fn is_activation_error(number: u8) -> bool
    ensures { result ≡ is_activation_error number }
{
    NO_ERROR <= number && number <= LAST_CAUSE
}

fn is_text_error(number: u8) -> bool
    ensures { result ≡ is_text_error number }
{
    (MultiFaultCode::UnsupportedTag.number() <= number
        && number <= MultiFaultCode::CharacterNotDefined.number())
        || (MultiFaultCode::TagConflict.number() <= number
            && number <= MultiFaultCode::FontVersionId.number())
}

fn is_syntax_error(number: u8) -> bool
    ensures { result ≡ is_syntax_error number }
{
    number == NO_ERROR || is_text_error(number)
}

/// Whether a fault of this number stands at this place.
fn is_place_of(number: u8, place: u16) -> bool
    ensures { result ≡ is_place_of number place }
{
    if number == NO_ERROR {
        place == 0
    } else {
        usize::from(place) <= MAX_TEXT
    }
}
