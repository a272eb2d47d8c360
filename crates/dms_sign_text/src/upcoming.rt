//! Lines of which the next one can be looked at.

ghost use Rattle.std.specs.Prelude.{◌≡◌, ◌∷◌, [], IfSome, IfNone, IfOk, IfErr};
ghost use Rattle.dms_sign_text.specs.RefusedLine.{octets_of, numbered_left, first_number, Leaves};
ghost use Rattle.dms_sign_text.specs.Views.{after, past, EndsOrNot};

use dms_text::{Line, Lines, are_same};
use std::marker::Model;

/// The line that comes next, and the lines after it.
#[derive(Drop)]
pub(crate) struct Upcoming<'a> {
    next: Option<Line<'a>>,
    others: Lines<'a>,
}

impl<'a> Model for Upcoming<'a> {
    ghost use Rattle.std.specs.Prelude.{◌≡◌, IfNone};
    ghost use Rattle.dms_text.specs.Lines.{number_after};
    ghost use Rattle.dms_sign_text.specs.RefusedLine.{NumberedLines};
    ghost use Rattle.dms_sign_text.specs.Views.{upcoming};

    ghost Value = { NumberedLines };

    ghost view = { λ a. upcoming a.next a.others };

    ghost invariant = { λ a. IfNone a.next (a.others.number ≡ number_after a.others) };
}

impl<'a> Upcoming<'a> {
    /// These lines.
    pub(crate) fn of(lines: Lines<'a>) -> Upcoming<'a>
        ensures { result ≡ numbered_left lines.entry }
    {
        let mut others = lines;
        let next = others.next_line();
        Upcoming { next, others }
    }

    /// The next line.
    pub(crate) fn peek(&self) -> Option<&'a [u8]>
        ensures line { IfSome result
            (λ line. octets_of self.now.lines ≡ line.now ∷ after (octets_of self.now.lines)) }
        ensures none { IfNone result (self.now.lines ≡ []) }
    {
        match &self.next {
            Some(line) => Some(line.octets),
            None => None,
        }
    }

    /// Goes past the next line.
    pub(crate) fn advance(&mut self)
        ensures lines { self.new ≡ past self.old }
        ensures octets { octets_of self.new.lines ≡ after (octets_of self.old.lines) }
    {
        if self.next.is_some() {
            self.next = self.others.next_line();
        }
    }

    /// The number of the next line, or the number after the last one.
    pub(crate) fn number(&self) -> usize
        ensures { result ≡ first_number self.now.lines self.now.after }
    {
        match &self.next {
            Some(line) => line.number,
            None => self.others.number(),
        }
    }

    /// The lines after the line `end`, where that comes next.
    pub(crate) fn after_end(self) -> Option<Lines<'a>>
        ensures end { EndsOrNot result (octets_of self.entry.lines) }
        ensures rest { IfSome result (λ left. numbered_left left ≡ past self.entry) }
    {
        let line = self.next?;
        if are_same(line.octets, b"end") {
            Some(self.others)
        } else {
            None
        }
    }
}
