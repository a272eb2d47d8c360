//! A message that is published, and the terms on which a message is activated.

ghost use Rattle.std.specs.Int.Digits.{AllBelowBase};

use dms_codes::{Activation, MAX_OWNER, MAX_TEXT, MessageId, RowId, memory};

/// On which terms a message is activated.
#[derive(Clone, Copy, Debug)]
pub struct Terms {
    /// How long it is shown; 65535 is without end.
    pub minutes: u16,
    /// The priority with which it is activated.
    pub priority: u8,
    /// The network address of the one who puts it up.
    pub address: [u8; 4],
}

impl Terms {
    ghost use Rattle.std.specs.Prelude.{◌≡◌};
    ghost use Rattle.dms_centre_jobs.specs.Commands.{blank_code};

    /// The code that activates a message on these terms.
    pub(crate) fn code(self, id: MessageId) -> Activation
        ensures { result ≡ record {
          minutes = self.minutes;
          priority = self.priority;
          id = id;
          address = self.address;
        } }
    {
        let Terms {
            minutes,
            priority,
            address,
        } = self;
        Activation {
            minutes,
            priority,
            id,
            address,
        }
    }

    /// The code that activates a blank message on these terms.
    pub(crate) fn blank_code(self, number: u16) -> Activation
        ensures { result ≡ blank_code number self.minutes self.priority self.address }
    {
        self.code(MessageId {
            memory: memory::BLANK,
            number,
            crc: 0,
        })
    }
}

/// What belongs to a message beside its text and its owner.
#[derive(Clone, Copy, Debug)]
pub struct Attributes {
    /// 1 with the sign's beacons, else 0.
    pub beacon: u8,
    /// 1 with the sign's pixel service, else 0.
    pub pixel: u8,
    /// The message's priority while it is shown, from 1.
    pub run_priority: u8,
}

/// A message to be written into a row and activated.
#[derive(Clone, Copy, Debug)]
pub struct Publication<'a> {
    /// The row: its memory is changeable (3) or volatile (4), and its number is from 1.
    pub row: RowId,
    /// A MULTI text, of at most `MAX_TEXT` octets.
    pub text: &'a [u8],
    /// Who the message is from, in at most `MAX_OWNER` octets.
    pub owner: &'a [u8],
    pub attributes: Attributes,
    pub terms: Terms,
}

impl Publication<'_> {
    ghost use Rattle.std.specs.Prelude.{◌≡◌};
    ghost use Rattle.dms_centre_jobs.specs.Commands.{IsPublication, is_publishable};
    ghost use Rattle.dms_centre_jobs.specs.PublicationView.{publication_model};

    /// Each value is in the range of its type.
    pub(crate) fn has_ranges(self)
        ensures { IsPublication (publication_model self.entry) }
    {
        has_octets(self.text);
        has_octets(self.owner);
    }

    /// Whether its values are in the ranges of a message that can be written.
    pub(crate) fn is_good(&self) -> bool
        ensures { result ≡ is_publishable (publication_model self.now) }
    {
        let Attributes {
            beacon,
            pixel,
            run_priority,
        } = self.attributes;
        (self.row.memory == memory::CHANGEABLE || self.row.memory == memory::VOLATILE)
            && self.row.number > 0
            && self.text.len() <= MAX_TEXT
            && self.owner.len() <= MAX_OWNER
            && beacon <= 1
            && pixel <= 1
            && run_priority > 0
    }
}

/// The elements of a slice are octets.
fn has_octets(octets: &[u8])
    ensures { AllBelowBase 256 octets.now }
{}
