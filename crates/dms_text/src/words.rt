//! A line as words with one space between two, and a word as parts with a separator between two.

ghost use Rattle.std.specs.Prelude.{◌≡◌, ◌≤◌, IfSome, option_map};
ghost use Rattle.dms_text.specs.Words.{parts_of, words_of};
ghost use Rattle.dms_text.specs.Reading.{same_octets, word_at, keyword_at, decimal_at, is_end};
ghost use Rattle.dms_text.specs.Views.{word_and_rest};

use crate::numbers::{number, within};
use crate::parts::split_once;
use std::marker::Model;

/// The words that are left of a line, or the parts that are left of a word.
#[derive(Drop)]
pub struct Words<'a> {
    separator: u8,
    line: Option<&'a [u8]>,
}

impl<'a> Model for Words<'a> {
    ghost use Rattle.std.specs.Prelude.{List, ℕ};
    ghost use Rattle.dms_text.specs.Views.{words_left};

    ghost Value = { List (List ℕ) };

    ghost view = { λ a. words_left a.separator a.line };
}

impl<'a> Words<'a> {
    /// The words of a line: what stands before, between and after its spaces.
    pub fn of(line: &'a [u8]) -> Words<'a>
        ensures { result ≡ words_of line.now }
    {
        Words::split(line, b' ')
    }

    /// The parts of a text: what stands before, between and after its separators, as the dots of a network address.
    pub fn split(text: &'a [u8], separator: u8) -> Words<'a>
        ensures { result ≡ parts_of separator text.now }
    {
        Words {
            separator,
            line: Some(text),
        }
    }

    /// The next word, and the words after it. An empty word is none: it stands between two spaces, or at an end of the
    /// line.
    #[tactic(auto, unfolding(crate::specs::Reading::word_at))]
    pub fn next_word(self) -> Option<(&'a [u8], Words<'a>)>
        ensures { option_map word_and_rest result ≡ word_at self.entry }
    {
        let separator = self.separator;
        let line = self.line?;
        let (word, line) = match split_once(line, separator) {
            Some((word, rest)) => (word, Some(rest)),
            None => (line, None),
        };
        if word.is_empty() {
            None
        } else {
            Some((word, Words { separator, line }))
        }
    }

    /// The words after this one.
    #[tactic(auto, unfolding(crate::specs::Reading::keyword_at))]
    pub fn keyword(self, keyword: &[u8]) -> Option<Words<'a>>
        ensures { result ≡ keyword_at keyword.now self.entry }
    {
        let (word, rest) = self.next_word()?;
        if are_same(word, keyword) {
            Some(rest)
        } else {
            None
        }
    }

    /// A number of one to `most` decimal digits, from `low` to `high`, and the words after it.
    #[tactic(auto, unfolding(crate::specs::Reading::decimal_at))]
    fn decimal(self, most: usize, low: u64, high: u64) -> Option<(u64, Words<'a>)>
        requires { most ≤ 15 }
        ensures value { result ≡ decimal_at most low high self.entry }
        ensures least { IfSome result (λ x. low ≤ x.0) }
        ensures greatest { IfSome result (λ x. x.0 ≤ high) }
    {
        let (word, rest) = self.next_word()?;
        let number = number(word, 10, most)?;
        Some((within(number, low, high)?, rest))
    }

    /// A number of one octet, of one to `most` decimal digits (15 at most), from `low` to `high`, and the words after
    /// it.
    pub fn octet(self, most: usize, low: u8, high: u8) -> Option<(u8, Words<'a>)>
        requires { most ≤ 15 }
        ensures value { result ≡ decimal_at most low high self.entry }
        ensures least { IfSome result (λ x. low ≤ x.0) }
        ensures greatest { IfSome result (λ x. x.0 ≤ high) }
    {
        let (number, rest) = self.decimal(most, u64::from(low), u64::from(high))?;
        Some((number as u8, rest))
    }

    /// A number of two octets, of one to `most` decimal digits (15 at most), from `low` to `high`, and the words after
    /// it.
    pub fn two_octets(self, most: usize, low: u16, high: u16) -> Option<(u16, Words<'a>)>
        requires { most ≤ 15 }
        ensures value { result ≡ decimal_at most low high self.entry }
        ensures least { IfSome result (λ x. low ≤ x.0) }
        ensures greatest { IfSome result (λ x. x.0 ≤ high) }
    {
        let (number, rest) = self.decimal(most, u64::from(low), u64::from(high))?;
        Some((number as u16, rest))
    }

    /// A number of four octets, of one to `most` decimal digits (15 at most), from `low` to `high`, and the words after
    /// it.
    pub fn four_octets(self, most: usize, low: u32, high: u32) -> Option<(u32, Words<'a>)>
        requires { most ≤ 15 }
        ensures value { result ≡ decimal_at most low high self.entry }
        ensures least { IfSome result (λ x. low ≤ x.0) }
        ensures greatest { IfSome result (λ x. x.0 ≤ high) }
    {
        let (number, rest) = self.decimal(most, u64::from(low), u64::from(high))?;
        Some((number as u32, rest))
    }

    /// Whether no words are left.
    #[tactic(auto, using(crate::proofs::LineLaws::ends))]
    pub fn is_empty(&self) -> bool
        ensures { result ≡ is_end self.now }
    {
        self.line.is_none()
    }
}

/// Whether these are the same octets.
#[inline]
pub fn are_same(word: &[u8], other: &[u8]) -> bool
    ensures { result ≡ same_octets word.now other.now }
{
    let mut left = word;
    let mut wanted = other;
    while let [octet, rest @ ..] = left {
        let [same, more @ ..] = wanted else {
            return false;
        };
        if *octet != *same {
            return false;
        }
        left = rest;
        wanted = more;
    }
    wanted.is_empty()
}
