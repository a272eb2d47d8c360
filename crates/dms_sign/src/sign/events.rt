//! What a second, a loss of power and its return make of a sign.

ghost use Rattle.std.specs.Prelude.{◌≡◌};
ghost use Rattle.std.specs.Int.Digits.{AllBelowBase};
ghost use Rattle.dms_table.specs.Rows.{is_settling};
ghost use Rattle.dms_sign.specs.Events.{after_duration, after_silence, after_tick, after_ticks, is_at_rest};
ghost use Rattle.dms_sign.specs.Events.{after_power_loss, recovery_code, after_power_return};
ghost use Rattle.dms_sign.specs.Reply.{after_get};

use crate::sign::Sign;
use dms_table::Mode;

impl Sign {
    /// A second: a row is settled, the duration goes on, and then the silence. A sign without power does nothing.
    #[tactic(auto, unfolding(crate::specs::Events::after_tick))]
    pub fn tick(&mut self)
        ensures { self.new ≡ after_tick self.old }
    {
        if self.powered {
            self.settle();
            self.count_down();
            self.count_silence();
        }
    }

    /// So many seconds, one by one while a second changes something.
    pub fn pass(&mut self, seconds: u32)
        ensures { self.new ≡ after_ticks seconds self.old }
    {
        for _ in 0..seconds {
            if self.is_at_rest() {
                return;
            }
            self.tick();
        }
    }

    /// Whether a second leaves the sign as it is.
    pub fn is_at_rest(&self) -> bool
        ensures { result ≡ is_at_rest self.now }
    {
        !self.powered
            || (self.shown.remaining.is_none()
                && 60 * u32::from(self.settings.time_comm_loss) <= self.silent_seconds
                && !self.is_settling())
    }

    fn is_settling(&self) -> bool
        ensures { result ≡ is_settling self.now.table }
    {
        self.table.settling().is_some()
    }

    /// The message has a second less; at its end the code of the end of a duration is activated.
    #[tactic(auto, unfolding(crate::specs::Events::after_duration))]
    fn count_down(&mut self)
        ensures { self.new ≡ after_duration self.old }
    {
        match self.shown.remaining {
            None => {}
            Some(seconds) if seconds <= 1 => {
                self.put_up(self.fallbacks().end_duration, Mode::EndDuration)
            }
            Some(seconds) => self.remain(Some(seconds - 1)),
        }
    }

    /// Silence is counted up to its limit, where the code of a communications loss is activated: once, until a datagram
    /// is answered.
    #[tactic(auto, unfolding(crate::specs::Events::after_silence))]
    fn count_silence(&mut self)
        ensures { self.new ≡ after_silence self.old }
    {
        let longest = 60 * u32::from(self.settings.time_comm_loss);
        if self.silent_seconds < longest {
            let silent_seconds = self.silent_seconds + 1;
            self.set_silent_seconds(silent_seconds);
            if silent_seconds == longest {
                self.put_up(
                    self.fallbacks().communications_loss,
                    Mode::CommunicationsLoss,
                );
            }
        }
    }

    /// What a Get or a GetNext that is answered leaves: the silence is over. A sign without power answers none.
    pub fn heard(&mut self)
        ensures { self.new ≡ after_get self.old }
    {
        if self.powered {
            self.set_silent_seconds(0);
        }
    }

    /// The power is lost: what is shown is kept, and the code of a power loss is activated. A sign without power does
    /// nothing.
    #[tactic(auto, unfolding(crate::specs::Events::after_power_loss))]
    pub fn power_lost(&mut self)
        ensures { self.new ≡ after_power_loss self.old }
    {
        if self.powered {
            self.keep();
            self.put_up(self.fallbacks().power_loss, Mode::PowerLoss);
            self.set_powered(false);
        }
    }

    /// The power is back after so many seconds: volatile rows are gone, what was kept is shown, and the code of the
    /// recovery is put up. A sign with power does nothing.
    #[tactic(auto, unfolding(crate::specs::Events::after_power_return))]
    pub fn power_back(&mut self, seconds: u32)
        ensures { self.new ≡ after_power_return self.old seconds }
    {
        if !self.powered {
            let code = self.recovery_code(seconds);
            self.restore();
            self.put_up(code, Mode::PowerRecovery);
        }
    }

    /// The code that is activated after a loss of so many seconds.
    fn recovery_code(&self, seconds: u32) -> [u8; 5]
        ensures code { result ≡ recovery_code self.now seconds }
        ensures octets { AllBelowBase 256 result }
    {
        let short = u32::from(self.settings.short_power_loss_time);
        if 0 < short && seconds <= short {
            self.fallbacks().short_power_recovery
        } else {
            self.fallbacks().long_power_recovery
        }
    }
}
