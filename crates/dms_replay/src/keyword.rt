//! The words with which the lines of events begin.

use dms_centre_text::CommandWord;
use dms_text::are_same;

/// The word with which an event's line begins.
#[derive(Clone, Copy, Debug, PartialEq, Eq)]
pub enum EventKeyword {
    /// The word of a command.
    Command(CommandWord),
    SignTick,
    CentreTick,
    ToSign,
    ToCentre,
    PowerLost,
    PowerBack,
    CentreRestart,
    ForgeSign,
    ForgeCentre,
}

impl EventKeyword {
    ghost use Rattle.std.specs.Prelude.{◌≡◌};
    ghost use Rattle.dms_replay.specs.EventReading.{keyword_of, own_keyword, later_keyword};

    /// The keyword that a word is, if any.
    #[tactic(auto, unfolding(crate::specs::EventReading::keyword_of))]
    pub fn of(word: &[u8]) -> Option<EventKeyword>
        ensures { result ≡ keyword_of word.now }
    {
        match CommandWord::of(word) {
            Some(asked) => Some(EventKeyword::Command(asked)),
            None => EventKeyword::own(word),
        }
    }

    /// A keyword that begins no command.
    fn own(word: &[u8]) -> Option<EventKeyword>
        ensures { result ≡ own_keyword word.now }
    {
        if are_same(word, b"sign-tick") {
            Some(EventKeyword::SignTick)
        } else if are_same(word, b"centre-tick") {
            Some(EventKeyword::CentreTick)
        } else if are_same(word, b"to-sign") {
            Some(EventKeyword::ToSign)
        } else if are_same(word, b"to-centre") {
            Some(EventKeyword::ToCentre)
        } else {
            EventKeyword::later(word)
        }
    }

    fn later(word: &[u8]) -> Option<EventKeyword>
        ensures { result ≡ later_keyword word.now }
    {
        if are_same(word, b"power-lost") {
            Some(EventKeyword::PowerLost)
        } else if are_same(word, b"power-back") {
            Some(EventKeyword::PowerBack)
        } else if are_same(word, b"centre-restart") {
            Some(EventKeyword::CentreRestart)
        } else if are_same(word, b"forge-sign") {
            Some(EventKeyword::ForgeSign)
        } else if are_same(word, b"forge-centre") {
            Some(EventKeyword::ForgeCentre)
        } else {
            None
        }
    }
}
