//! The words with which the lines of commands begin.

use dms_text::are_same;

/// The word with which a command's line begins.
#[derive(Clone, Copy, Debug, PartialEq, Eq)]
pub enum CommandWord {
    Publish,
    Blank,
    Activate,
}

impl CommandWord {
    ghost use Rattle.std.specs.Prelude.{◌≡◌};
    ghost use Rattle.dms_centre_text.specs.CommandReading.{command_word};

    /// The word of a command that a word is, if any.
    #[tactic(auto, unfolding(crate::specs::CommandReading::command_word))]
    pub fn of(word: &[u8]) -> Option<CommandWord>
        ensures { result ≡ command_word word.now }
    {
        if are_same(word, b"publish") {
            Some(CommandWord::Publish)
        } else if are_same(word, b"blank") {
            Some(CommandWord::Blank)
        } else if are_same(word, b"activate") {
            Some(CommandWord::Activate)
        } else {
            None
        }
    }
}
