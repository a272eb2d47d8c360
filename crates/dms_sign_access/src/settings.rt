//! What a SET assigns beside the fields of rows.

ghost use Rattle.std.specs.Prelude.{◌≡◌, ◌≤◌, [], ◌∷◌};
ghost use Rattle.dms_sign_access.specs.declared.access.Change.TheVariants as changes;
ghost use Rattle.dms_sign_access.specs.Access.{SetNumber, SetCode};
ghost use Rattle.dms_sign_access.specs.ChangeView.{write_by, IsChange};
ghost use Rattle.dms_sign_access.specs.Settings.{first_fallbacks, first_settings, codes_by, set_by};
ghost use Rattle.dms_sign_access.specs.Ranges.{AreDefaultsInRange};

use crate::access::Change;
use dms_codes::memory;
use dms_face::Defaults;
use dms_mib::Scalar;

/// The code of blank message 1, which a sign shows as it is made: its type of memory, its number and its checksum
/// (MessageIDCode).
pub const BLANK_CODE: [u8; 5] = [memory::BLANK, 0, 1, 0, 0];

/// The codes of the messages that a sign activates by itself, each the five octets that were written (MessageIDCode).
#[derive(Clone, Copy, Debug, PartialEq, Eq)]
pub struct Fallbacks {
    /// dmsShortPowerRecoveryMessage
    pub short_power_recovery: [u8; 5],
    /// dmsLongPowerRecoveryMessage
    pub long_power_recovery: [u8; 5],
    /// dmsPowerLossMessage
    pub power_loss: [u8; 5],
    /// dmsEndDurationMessage
    pub end_duration: [u8; 5],
    /// dmsCommunicationsLossMessage
    pub communications_loss: [u8; 5],
}

// made by tools/objects.py --code

/// The values of the objects that can be set, but for those of the message table.
#[derive(Clone, Copy, Debug, PartialEq, Eq)]
pub struct SignSettings {
    pub fallbacks: Fallbacks,
    /// dmsShortPowerLossTime: Seconds up to which a loss of power is short, at first 0: none is
    pub short_power_loss_time: u16,
    /// dmsTimeCommLoss: Minutes without an answered datagram until dmsCommunicationsLossMessage is activated; at first
    /// 0, which is never
    pub time_comm_loss: u16,
    pub defaults: Defaults,
}

impl SignSettings {
    /// The settings as a sign is made: each code is that of blank message 1, and the numbers are 0.
    pub fn new(defaults: Defaults) -> SignSettings
        ensures first { result ≡ first_settings defaults }
        ensures octets { AreDefaultsInRange defaults }
    {
        are_octets(&defaults);
        SignSettings {
            fallbacks: blank_codes(),
            short_power_loss_time: 0,
            time_comm_loss: 0,
            defaults,
        }
    }
}

#[tactic(auto, unfolding(crate::specs::Settings::set_by))]
fn assign_number(settings: &mut SignSettings, object: Scalar, number: u16)
    requires { IsChange (changes.Number object number) }
    ensures { settings.new ≡ set_by settings.old (SetNumber object number ∷ []) }
{
    match object {
        Scalar::ShortPowerLossTime => settings.short_power_loss_time = number,
        Scalar::TimeCommLoss => settings.time_comm_loss = number,
        Scalar::DefaultBackgroundColor => settings.defaults.background = number as u8,
        Scalar::DefaultForegroundColor => settings.defaults.foreground = number as u8,
        Scalar::DefaultFlashOn => settings.defaults.flash_on = number as u8,
        Scalar::DefaultFlashOff => settings.defaults.flash_off = number as u8,
        Scalar::DefaultFont => settings.defaults.font = number as u8,
        Scalar::DefaultJustificationLine => settings.defaults.line = number as u8,
        Scalar::DefaultJustificationPage => settings.defaults.page = number as u8,
        Scalar::DefaultPageOnTime => settings.defaults.on = number as u8,
        Scalar::DefaultPageOffTime => settings.defaults.off = number as u8,
        _ => {}
    }
}

// the end of what is made

impl SignSettings {
    /// Assigns what a binding writes beside the fields of rows.
    #[tactic(auto, unfolding(crate::specs::Settings::set_by))]
    pub fn assign(&mut self, change: &Change<'_>)
        requires { IsChange change.now }
        ensures { self.new ≡ set_by self.old (write_by change.now ∷ []) }
    {
        match change {
            Change::Number(object, number) => assign_number(self, *object, *number),
            Change::Code(object, code) => assign_code(&mut self.fallbacks, *object, code),
            Change::Field(..) | Change::Ask(..) | Change::Activate(_) | Change::Remaining(_) => {}
        }
    }
}

/// Each code is that of blank message 1.
fn blank_codes() -> Fallbacks
    ensures { result ≡ first_fallbacks }
{
    Fallbacks {
        short_power_recovery: BLANK_CODE,
        long_power_recovery: BLANK_CODE,
        power_loss: BLANK_CODE,
        end_duration: BLANK_CODE,
        communications_loss: BLANK_CODE,
    }
}

fn assign_code(fallbacks: &mut Fallbacks, object: Scalar, code: &[u8; 5])
    ensures { fallbacks.new ≡ codes_by fallbacks.old (SetCode object code.now ∷ []) }
{
    match object {
        Scalar::ShortPowerRecoveryMessage => fallbacks.short_power_recovery = *code,
        Scalar::LongPowerRecoveryMessage => fallbacks.long_power_recovery = *code,
        Scalar::PowerLossMessage => fallbacks.power_loss = *code,
        Scalar::EndDurationMessage => fallbacks.end_duration = *code,
        Scalar::CommunicationsLossMessage => fallbacks.communications_loss = *code,
        _ => {}
    }
}

/// Each default is an octet, as its type says.
fn are_octets(defaults: &Defaults)
    ensures { AreDefaultsInRange defaults.now }
{
    is_octet(defaults.background);
    is_octet(defaults.foreground);
    is_octet(defaults.flash_on);
    is_octet(defaults.flash_off);
    is_octet(defaults.font);
    is_octet(defaults.line);
    is_octet(defaults.page);
    is_octet(defaults.on);
    is_octet(defaults.off);
}

fn is_octet(number: u8)
    ensures { number ≤ 255 }
{}
