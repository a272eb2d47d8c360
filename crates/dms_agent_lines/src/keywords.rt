//! The words with which the lines of an agent begin.

use dms_text::are_same;

/// The word with which a line begins.
#[derive(Clone, Copy)]
pub(crate) enum AgentKeyword {
    Datagram,
    Object,
    NoObject,
    Fonts,
    Objects,
    Set,
    Save,
}

impl AgentKeyword {
    ghost use Rattle.std.specs.Prelude.{◌≡◌};
    ghost use Rattle.dms_agent_lines.specs.AgentReading.{keyword_of, state_keyword};

    /// The keyword that a word is, if any.
    #[tactic(auto, unfolding(crate::specs::AgentReading::keyword_of))]
    pub(crate) fn of(word: &[u8]) -> Option<AgentKeyword>
        ensures { result ≡ keyword_of word.now }
    {
        if are_same(word, b"datagram") {
            Some(AgentKeyword::Datagram)
        } else if are_same(word, b"object") {
            Some(AgentKeyword::Object)
        } else if are_same(word, b"no-object") {
            Some(AgentKeyword::NoObject)
        } else if are_same(word, b"fonts") {
            Some(AgentKeyword::Fonts)
        } else if are_same(word, b"objects") {
            Some(AgentKeyword::Objects)
        } else {
            AgentKeyword::of_state(word)
        }
    }

    /// The keyword of a line that asks for the state, or puts a value of it back.
    fn of_state(word: &[u8]) -> Option<AgentKeyword>
        ensures { result ≡ state_keyword word.now }
    {
        if are_same(word, b"set") {
            Some(AgentKeyword::Set)
        } else if are_same(word, b"save") {
            Some(AgentKeyword::Save)
        } else {
            None
        }
    }
}
