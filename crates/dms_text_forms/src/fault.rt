//! What is wrong with a word of a line.

use crate::wanted::Wanted;
use std::fmt;

/// What is wrong with a word.
#[derive(Clone, Copy, Debug, PartialEq, Eq)]
pub enum WordFaultKind {
    /// The line ends before it.
    Missing(Wanted),
    /// It is empty: two spaces stand together, or one at an end of the line.
    Empty,
    /// It is not what is wanted there.
    Not(Wanted),
    /// No more words are wanted.
    More,
}

/// The first word of a line that is not what is wanted there.
#[derive(Clone, Copy, Debug, PartialEq, Eq)]
pub struct WordFault {
    /// Its place among the words of the line, from 1.
    pub place: usize,
    /// What is wrong with it.
    pub kind: WordFaultKind,
}

impl fmt::Display for WordFaultKind {
    ghost use Rattle.std.specs.Prelude.{Some};
    ghost use Rattle.dms_text_forms.specs.Texts.{kind_text};

    ghost output = { λ kind. Some (kind_text kind) };

    fn fmt<W: fmt::Write>(&self, f: &mut fmt::Formatter<W>) -> fmt::Result {
        match self {
            WordFaultKind::Missing(wanted) => write!(f, "the line ends where {wanted} is wanted"),
            WordFaultKind::Empty => f.write_str("two spaces, or a space at an end of the line"),
            WordFaultKind::Not(wanted) => write!(f, "{wanted} is wanted"),
            WordFaultKind::More => f.write_str("no more words are wanted"),
        }
    }
}

impl fmt::Display for WordFault {
    ghost use Rattle.std.specs.Prelude.{Some};
    ghost use Rattle.dms_text_forms.specs.Texts.{fault_text};

    ghost output = { λ fault. Some (fault_text fault) };

    fn fmt<W: fmt::Write>(&self, f: &mut fmt::Formatter<W>) -> fmt::Result {
        write!(f, "word {}: {}", self.place, self.kind)
    }
}
