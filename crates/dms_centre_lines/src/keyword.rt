//! The words with which the lines to a central system begin.

use dms_centre_text::CommandWord;
use dms_text::are_same;

/// The word with which a line begins.
#[derive(Clone, Copy)]
pub(crate) enum CentreKeyword {
    /// The word of a command.
    Command(CommandWord),
    Datagram,
    Tick,
    Restart,
    Status,
    Save,
}

impl CentreKeyword {
    ghost use Rattle.std.specs.Prelude.{◌≡◌};
    ghost use Rattle.dms_centre_lines.specs.CallReading.{keyword_of, own_keyword};

    /// The keyword that a word is, if any.
    #[tactic(auto, unfolding(crate::specs::CallReading::keyword_of))]
    pub(crate) fn of(word: &[u8]) -> Option<CentreKeyword>
        ensures { result ≡ keyword_of word.now }
    {
        match CommandWord::of(word) {
            Some(asked) => Some(CentreKeyword::Command(asked)),
            None => CentreKeyword::own(word),
        }
    }

    /// A keyword that begins no command.
    fn own(word: &[u8]) -> Option<CentreKeyword>
        ensures { result ≡ own_keyword word.now }
    {
        if are_same(word, b"datagram") {
            Some(CentreKeyword::Datagram)
        } else if are_same(word, b"tick") {
            Some(CentreKeyword::Tick)
        } else if are_same(word, b"restart") {
            Some(CentreKeyword::Restart)
        } else if are_same(word, b"status") {
            Some(CentreKeyword::Status)
        } else if are_same(word, b"save") {
            Some(CentreKeyword::Save)
        } else {
            None
        }
    }
}
