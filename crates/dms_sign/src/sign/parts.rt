//! The parts of a sign's state, for whoever keeps it.

ghost use Rattle.std.specs.Prelude.{◌≡◌};

use crate::sign::Sign;
use dms_sign_access::{Reports, SignSettings};
use dms_table::{Shown, Table};

impl Sign {
    /// The message table.
    pub fn table(&self) -> &Table
        ensures { result.now ≡ self.now.table }
    {
        &self.table
    }

    /// What was set: the codes that the sign activates by itself, the times and the defaults.
    pub fn settings(&self) -> SignSettings
        ensures { result ≡ self.now.settings }
    {
        self.settings
    }

    /// The seconds since a datagram was answered, counted up to the longest silence.
    pub fn silent_seconds(&self) -> u32
        ensures { result ≡ self.now.silent_seconds }
    {
        self.silent_seconds
    }

    /// What was shown when the power was last lost.
    pub fn shown_at_power_loss(&self) -> &Shown
        ensures { result.now ≡ self.now.shown_at_power_loss }
    {
        &self.shown_at_power_loss
    }

    /// What is reported of verdicts and decisions.
    pub fn reports(&self) -> Reports
        ensures { result ≡ self.now.reports }
    {
        self.reports
    }

    /// Whether the sign has power.
    pub fn is_powered(&self) -> bool
        ensures { result ≡ self.now.powered }
    {
        self.powered
    }
}
