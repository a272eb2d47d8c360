//! A text as lines: each ends at a newline, before which one carriage return is dropped; the last may lack its newline.
//! Empty lines, and lines that begin with `#`, are skipped.

ghost use Rattle.std.specs.Prelude.{◌≡◌, ◌+◌, ◌^◌, ◌<◌, ◌∷◌, [], length, IfSome, IfNone};
ghost use Rattle.std.specs.Str.Lines.{lines, strip_carriage_return};
ghost use Rattle.dms_text.specs.Lines.{is_skipped, numbered, lines_left, number_after};
ghost use Rattle.dms_text.specs.Views.{numbered_line};

use crate::parts::split_line;
use std::marker::Model;

/// A line without its newline, and its number among all lines, from 1.
#[derive(Drop)]
pub struct Line<'a> {
    /// Its number among all lines of the text, from 1, skipped ones too.
    pub number: usize,
    /// Its octets, without the newline and a carriage return before it.
    pub octets: &'a [u8],
}

/// The lines of a text that are left, without those that are skipped.
#[derive(Drop)]
pub struct Lines<'a> {
    text: &'a [u8],
    number: usize,
}

impl<'a> Model for Lines<'a> {
    ghost use Rattle.std.specs.Prelude.{◌+◌, ◌^◌, ◌<◌, length};
    ghost use Rattle.dms_text.specs.Lines.{TextLeft};

    ghost Value = { TextLeft };

    ghost view = { λ a. record { number = a.number; text = a.text.now } };

    ghost invariant = { λ a. a.number + length a.text.now < 2 ^ 64 };
}

impl<'a> Lines<'a> {
    /// The lines of a text.
    pub fn of(text: &'a [u8]) -> Lines<'a>
        ensures { result ≡ record { number = 1; text = text.now } }
    {
        Lines { text, number: 1 }
    }

    /// The number of the next line, or the number after the last one.
    pub fn number(&self) -> usize
        ensures { result ≡ self.now.number }
    {
        self.number
    }

    /// The next line that is not skipped.
    pub fn next_line(&mut self) -> Option<Line<'a>>
        ensures line { IfSome result (λ line. lines_left self.old ≡ numbered_line line ∷ lines_left self.new) }
        ensures end { IfNone result (lines_left self.old ≡ []) }
        ensures number { IfNone result (self.new.number ≡ number_after self.old) }
        ensures last { number_after self.new ≡ number_after self.old }
    {
        let (line, text, number) = first_kept(self.text, self.number);
        self.text = text;
        self.number = number;
        line
    }
}

fn is_skipped(line: &[u8]) -> bool
    ensures { result ≡ is_skipped line.now }
{
    match line {
        [] => true,
        [first, ..] => *first == b'#',
    }
}

fn without_carriage_return(line: &[u8]) -> &[u8]
    ensures { result.now ≡ strip_carriage_return line.now }
{
    match line {
        [line @ .., b'\r'] => line,
        _ => line,
    }
}

/// The first line of a text, and the text after it.
#[tactic(auto, using(crate::proofs::LineLaws::first_lines))]
fn first_line(text: &[u8]) -> (&[u8], &[u8])
    requires { 0 < length text.now }
    ensures lines { lines text.now ≡ result.0.now ∷ lines result.1.now }
    ensures shorter { length result.1.now < length text.now }
{
    match split_line(text) {
        Some((line, rest)) => (without_carriage_return(line), rest),
        None => (text, &[]),
    }
}

/// The first line that is not skipped, and what is left after it, with the number of the line that comes next.
fn first_kept(text: &[u8], number: usize) -> (Option<Line<'_>>, &[u8], usize)
    requires { number + length text.now < 2 ^ 64 }
    ensures line { IfSome result.0 (λ line. numbered number (lines text.now)
        ≡ numbered_line line ∷ numbered result.2 (lines result.1.now)) }
    ensures end { IfNone result.0 (numbered number (lines text.now) ≡ []) }
    ensures past { IfNone result.0 (result.2 ≡ number + length (lines text.now)) }
    ensures last { result.2 + length (lines result.1.now) ≡ number + length (lines text.now) }
    ensures within { result.2 + length result.1.now < 2 ^ 64 }
{
    let mut left = text;
    let mut next = number;
    while !left.is_empty() {
        let (octets, rest) = first_line(left);
        let line = Line {
            number: next,
            octets,
        };
        left = rest;
        next += 1;
        if !is_skipped(octets) {
            return (Some(line), left, next);
        }
    }
    (None, left, next)
}
