//! The settings that are numbers: the line that each has in a state's text.

ghost use Rattle.std.specs.Prelude.{◌≡◌, ◌≤◌, length};
ghost use Rattle.dms_sign_state.specs.NumberSettings.{all_numbers, number_word, number_of, with_number, numbers_room};
ghost use Rattle.dms_sign_state.specs.NumberSettings.{settings_lines};

use dms_sign_access::SignSettings;

// made by tools/objects.py --code

/// A setting that is a number of two octets, beside the defaults.
#[derive(Clone, Copy, Debug, PartialEq, Eq)]
pub enum NumberSetting {
    /// dmsShortPowerLossTime: Seconds up to which a loss of power is short, at first 0: none is
    ShortPowerLossTime,
    /// dmsTimeCommLoss: Minutes without an answered datagram until dmsCommunicationsLossMessage is activated; at first
    /// 0, which is never
    TimeCommLoss,
}

/// All of them, in the order of their lines.
pub(crate) const NUMBER_SETTINGS: [NumberSetting; 2] = [
    NumberSetting::ShortPowerLossTime,
    NumberSetting::TimeCommLoss,
];

impl NumberSetting {
    /// What its line begins with.
    pub fn word(self) -> &'static str
        ensures word { result.now ≡ number_word self }
        ensures short { length result.now ≤ 60 }
    {
        match self {
            NumberSetting::ShortPowerLossTime => "short-power-loss-time",
            NumberSetting::TimeCommLoss => "time-comm-loss",
        }
    }

    /// Its number among the settings.
    pub fn of(self, settings: &SignSettings) -> u16
        ensures { result ≡ number_of settings.now self }
    {
        match self {
            NumberSetting::ShortPowerLossTime => settings.short_power_loss_time,
            NumberSetting::TimeCommLoss => settings.time_comm_loss,
        }
    }

    /// Puts its number among the settings.
    pub fn put(self, settings: &mut SignSettings, number: u16)
        ensures { settings.new ≡ with_number self number settings.old }
    {
        match self {
            NumberSetting::ShortPowerLossTime => settings.short_power_loss_time = number,
            NumberSetting::TimeCommLoss => settings.time_comm_loss = number,
        }
    }
}

// the end of what is made

/// The most octets that the lines of the numbers have.
pub(crate) fn numbers_room() -> usize
    ensures { result ≡ numbers_room all_numbers }
{
    let mut room = 0;
    for number in NUMBER_SETTINGS {
        room += number.word().len() + 7;
    }
    room
}

/// How many lines the settings have: that of the defaults, five of codes, and one of each number.
pub fn settings_lines() -> usize
    ensures { result ≡ settings_lines }
{
    6 + NUMBER_SETTINGS.len()
}
