//! What the types of fields say of their ranges, by functions with nothing to run.

ghost use Rattle.std.specs.Prelude.{◌≤◌};
ghost use Rattle.std.specs.Int.Digits.{AllBelowBase};
ghost use Rattle.dms_codes.specs.Codes.{IsMessageId};
ghost use Rattle.dms_codes.specs.Limits.{widest_matrix, highest_matrix};
ghost use Rattle.dms_sign_access.specs.Ranges.{AreDefaultsInRange};
ghost use Rattle.dms_sign.specs.InRange.{AreOctets, AreFallbacksInRange, AreSettingsInRange};
ghost use Rattle.dms_sign.specs.Typed.{IsTyped, AreTyped};

use dms_codes::MessageId;
use dms_face::{Defaults, Face};
use dms_sign_access::{Fallbacks, Reports, SignSettings};
use dms_table::Shown;

/// Of the matrix of a face: how large it is at most.
pub(super) fn matrix_is_typed(face: &Face)
    ensures width { face.now.width ≤ widest_matrix }
    ensures height { face.now.height ≤ highest_matrix }
{
    let _ = (face.width(), face.height());
}

/// Of what is shown.
pub(super) fn shown_is_typed(shown: &Shown)
    ensures { IsTyped shown.now }
{
    octets_are_octets(shown.text.as_slice());
    octets_are_octets(shown.owner.as_slice());
    two_octets(shown.priority, shown.mode);
    names_a_message(shown.source);
    four_octets(shown.address);
    defaults_are_typed(shown.defaults);
}

// made by tools/objects.py --code

/// Of what was set.
pub(super) fn settings_are_typed(settings: &SignSettings)
    ensures { AreSettingsInRange settings.now }
{
    fallbacks_are_typed(&settings.fallbacks);
    is_of_two_octets(settings.short_power_loss_time);
    is_of_two_octets(settings.time_comm_loss);
    defaults_are_typed(settings.defaults);
}

// the end of what is made

/// Of what is reported.
pub(super) fn reports_are_typed(reports: &Reports)
    ensures { AreTyped reports.now }
{
    two_octets(reports.validate_error, reports.activate_error);
    two_octets(reports.syntax_error, reports.syntax_error);
    twelve_octets(reports.accepted_code);
    twelve_octets(reports.failed_code);
}

fn fallbacks_are_typed(fallbacks: &Fallbacks)
    ensures { AreFallbacksInRange fallbacks.now }
{
    five_octets(fallbacks.short_power_recovery);
    five_octets(fallbacks.long_power_recovery);
    five_octets(fallbacks.power_loss);
    five_octets(fallbacks.end_duration);
    five_octets(fallbacks.communications_loss);
}

fn defaults_are_typed(defaults: Defaults)
    ensures { AreDefaultsInRange defaults }
{
    let _ = SignSettings::new(defaults);
}

fn octets_are_octets(octets: &[u8])
    ensures { AllBelowBase 256 octets.now }
{}

fn two_octets(one: u8, other: u8)
    ensures one { one ≤ 255 }
    ensures other { other ≤ 255 }
{}

fn is_of_two_octets(number: u16)
    ensures { number ≤ 65535 }
{}

fn names_a_message(id: MessageId)
    ensures { IsMessageId id }
{}

fn four_octets(octets: [u8; 4])
    ensures { AreOctets 4 octets }
{
    octets_are_octets(octets.as_slice());
}

fn five_octets(octets: [u8; 5])
    ensures { AreOctets 5 octets }
{
    octets_are_octets(octets.as_slice());
}

fn twelve_octets(octets: [u8; 12])
    ensures { AreOctets 12 octets }
{
    octets_are_octets(octets.as_slice());
}
