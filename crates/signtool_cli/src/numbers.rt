//! The numbers of the command line: decimal digits alone.

ghost use Rattle.std.specs.Prelude.{◌≡◌, ℕ, ◌≤◌, IfSome, IfNone};
ghost use Rattle.signtool_cli.specs.Numbers.{IsNumberWithin};

/// A number that a call has.
#[derive(Clone, Copy)]
pub(crate) struct NumberWord {
    /// The name of its word or option.
    pub id: &'static str,
    /// How the help shows that.
    pub shown: &'static str,
    pub low: u16,
    pub high: u16,
}

/// The memory type of a row that has a text of its own.
pub(crate) const TYPE: NumberWord = NumberWord {
    id: "TYPE",
    shown: "TYPE",
    low: 2,
    high: 4,
};

/// The memory type that a code names. There is no type 6 among them.
pub(crate) const MEMORY: NumberWord = NumberWord {
    id: "MEMORY",
    shown: "MEMORY",
    low: 2,
    high: 7,
};

/// The number of a message.
pub(crate) const NUMBER: NumberWord = NumberWord {
    id: "NUMBER",
    shown: "NUMBER",
    low: 1,
    high: 65535,
};

/// Which page is drawn.
pub(crate) const PAGE: NumberWord = NumberWord {
    id: "page",
    shown: "--page",
    low: 1,
    high: 6,
};

/// The minutes that a message is shown.
pub(crate) const DURATION: NumberWord = NumberWord {
    id: "duration",
    shown: "--duration",
    low: 0,
    high: 65535,
};

/// The priority of an activation.
pub(crate) const PRIORITY: NumberWord = NumberWord {
    id: "priority",
    shown: "--priority",
    low: 0,
    high: 255,
};

/// The number that a word of digits alone spells, where it is from `low` to `high`. Leading zeros are taken, and no
/// sign.
pub(crate) fn number(word: &str, low: u16, high: u16) -> Option<u16>
    ensures number { IfSome result (IsNumberWithin low high word.now) }
    ensures none { IfNone result ((number : ℕ) → IsNumberWithin low high word.now number → ⊥) }
{
    if word.as_bytes().first().copied() == Some(b'+') {
        return None;
    }
    let Ok(number) = word.parse::<u16>() else {
        return None;
    };
    if low <= number && number <= high {
        Some(number)
    } else {
        None
    }
}
