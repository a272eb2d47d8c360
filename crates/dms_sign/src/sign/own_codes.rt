//! The codes that a sign activates by itself.

ghost use Rattle.std.specs.Prelude.{◌≡◌};
ghost use Rattle.std.specs.Int.Digits.{AllBelowBase};
ghost use Rattle.dms_codes.specs.Mode.{mode_number};
ghost use Rattle.dms_sign.specs.OwnCodes.{own_activation, put_up_code};

use crate::sign::{Sign, judge};
use dms_codes::{Activation, MessageId, memory};
use dms_table::{Mode, Shown};

impl Sign {
    /// Activates the message that these five octets name: what is shown stays for a code of the current buffer; any
    /// other code is decided on, and where it is refused the blank message is shown.
    #[tactic(auto, unfolding(crate::specs::OwnCodes::put_up_code))]
    pub(super) fn put_up(&mut self, octets: [u8; 5], mode: Mode)
        requires { AllBelowBase 256 octets }
        ensures { self.new ≡ put_up_code self.old octets (mode_number mode) }
    {
        let id = MessageId::of_octets(self.table.order(), &octets);
        if id.memory == memory::CURRENT_BUFFER {
            return self.stay(mode);
        }
        let code = own_activation(id);
        let defaults = self.settings.defaults;
        match judge(
            &self.known,
            &self.table,
            &self.face,
            &defaults,
            &code,
            &self.shown,
        ) {
            Ok(()) => self.show_named(&code, mode),
            Err(cause) => {
                let octets = code.to_bytes(self.table.order());
                self.show(Shown::blank(&defaults, mode));
                self.refuse_code(&cause, octets);
            }
        }
    }
}

/// The activation by which the sign itself puts a message up: without an end, with the highest priority, for nobody.
fn own_activation(id: MessageId) -> Activation
    ensures { result ≡ own_activation id }
{
    Activation {
        minutes: u16::MAX,
        priority: u8::MAX,
        id,
        address: [0; 4],
    }
}
