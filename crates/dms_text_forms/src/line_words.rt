//! A line that is read word by word: each word is what is wanted there, or is the line's fault.

ghost use Rattle.std.specs.Prelude.{◌≡◌};

use crate::fault::{WordFault, WordFaultKind};
use crate::form::{fault_at_end, is_wanted, number_within};
use crate::vocabulary::{Keyword, WordName};
use crate::wanted::Wanted;
use dms_text::{Words, octets};
use std::alloc::{AllocError, Global};

/// The words that are left of a line, and the place of the first of them, from 1.
#[derive(Drop)]
pub struct LineWords<'a> {
    pub place: usize,
    pub words: Words<'a>,
}

impl<'a> LineWords<'a> {
    ghost use Rattle.std.specs.Prelude.{◌≡◌, ◌+◌, ◌≤◌, ◌<◌, ◌^◌, [], Some, None, IfOk, IfErr, true, false};
    ghost use Rattle.dms_text.specs.Words.{words_of};
    ghost use Rattle.std.specs.Prelude.{◌∷◌, IsSome, OnErr, option_map};
    ghost use Rattle.std.specs.Result.{result_ok, result_err};
    ghost use Rattle.dms_text.specs.Reading.{word_at, keyword_at, decimal_at, octets_of, is_end};
    ghost use Rattle.dms_text_forms.specs.Form.{fault_from};
    ghost use Rattle.dms_text.specs.Views.{octets_found};
    ghost use Rattle.dms_text_forms.specs.FieldsReading.{last_number_at, last_octets_at, octets_at};
    ghost use Rattle.dms_text_forms.specs.FieldsView.{octets_in, octets_seen};
    ghost use Rattle.dms_text_forms.specs.Vocabulary.{keyword_text};
    ghost use Rattle.dms_text_forms.specs.LineReading.{wanted_at, Takes, Lacks};
    ghost use Rattle.dms_text_forms.specs.declared.wanted.Wanted.TheVariants as wants;

    /// All words of a line.
    pub fn of(line: &'a [u8]) -> LineWords<'a>
        ensures { result ≡ record { place = 1; words = words_of line.now } }
    {
        LineWords {
            place: 1,
            words: Words::of(line),
        }
    }

    /// The word that is next, and the words after it, be it what is wanted or not.
    #[tactic(auto, using(crate::proofs::LineLaws::no_word))]
    fn any(self, wanted: Wanted) -> Result<(&'a [u8], LineWords<'a>), WordFault>
        requires { self.place < 2 ^ 16 }
        ensures found { IfOk result (λ x. word_at self.entry.words ≡ Some (x.0.now, x.1.words)) }
        ensures place { IfOk result (λ x. x.1.place ≡ self.entry.place + 1) }
        ensures none { IfErr result (λ fault. word_at self.entry.words ≡ None) }
        ensures lacks { IfErr result (Lacks wanted self.entry) }
    {
        let LineWords { place, words } = self;
        if words.is_empty() {
            return Err(fault(place, WordFaultKind::Missing(wanted)));
        }
        match words.next_word() {
            Some((word, words)) => Ok((
                word,
                LineWords {
                    place: place + 1,
                    words,
                },
            )),
            None => Err(fault(place, WordFaultKind::Empty)),
        }
    }

    /// The word that is next, where it is what is wanted, and the words after it. Fewer than 65,536 words stand before
    /// it.
    #[tactic(auto, unfolding(crate::specs::LineReading::wanted_at), using(crate::proofs::LineLaws::one_word))]
    pub fn word(self, wanted: Wanted) -> Result<(&'a [u8], LineWords<'a>), WordFault>
        requires { self.place < 2 ^ 16 }
        ensures found { IfOk result (λ x. wanted_at wanted self.entry.words ≡ Some (x.0.now, x.1.words)) }
        ensures none { IfErr result (λ fault. wanted_at wanted self.entry.words ≡ None) }
        ensures takes { IfOk result (λ x. Takes wanted self.entry x.1) }
        ensures lacks { IfErr result (Lacks wanted self.entry) }
    {
        let place = self.place;
        let (word, rest) = self.any(wanted)?;
        if is_wanted(wanted, word) {
            Ok((word, rest))
        } else {
            Err(fault(place, WordFaultKind::Not(wanted)))
        }
    }

    /// The word that is next, whatever it is, and the words after it. Fewer than 65,536 words stand before it.
    pub fn name(self, name: WordName) -> Result<(&'a [u8], LineWords<'a>), WordFault>
        requires { self.place < 2 ^ 16 }
        ensures found { IfOk result (λ x. word_at self.entry.words ≡ Some (x.0.now, x.1.words)) }
        ensures none { IfErr result (λ fault. word_at self.entry.words ≡ None) }
        ensures takes { IfOk result (λ x. Takes (wants.Name name) self.entry x.1) }
        ensures lacks { IfErr result (Lacks (wants.Name name) self.entry) }
    {
        let (word, rest) = self.any(Wanted::Name(name))?;
        Ok((word, rest))
    }

    /// The words after this keyword. Fewer than 65,536 words stand before it.
    #[tactic(auto, unfolding(crate::specs::LineReading::wanted_at, dms_text::specs::Reading::keyword_at))]
    pub fn keyword(self, keyword: Keyword) -> Result<LineWords<'a>, WordFault>
        requires { self.place < 2 ^ 16 }
        ensures found { IfOk result (λ rest. keyword_at (keyword_text keyword) self.entry.words ≡ Some rest.words) }
        ensures none { IfErr result (λ fault. keyword_at (keyword_text keyword) self.entry.words ≡ None) }
        ensures takes { IfOk result (Takes (wants.Keyword keyword) self.entry) }
        ensures lacks { IfErr result (Lacks (wants.Keyword keyword) self.entry) }
    {
        let (_, rest) = self.word(Wanted::Keyword(keyword))?;
        Ok(rest)
    }

    /// A number of one to five decimal digits from `low` to `high`, and the words after it. Fewer than 65,536 words
    /// stand before it.
    #[tactic(auto, unfolding(dms_text::specs::Reading::decimal_at), using(crate::proofs::LineLaws::one_number))]
    pub fn number(self, low: u16, high: u16) -> Result<(u16, LineWords<'a>), WordFault>
        requires { self.place < 2 ^ 16 }
        ensures found { IfOk result (λ x. decimal_at 5 low high self.entry.words ≡ Some (x.0, x.1.words)) }
        ensures none { IfErr result (λ fault. decimal_at 5 low high self.entry.words ≡ None) }
        ensures takes { IfOk result (λ x. Takes (wants.Number low high) self.entry x.1) }
        ensures lacks { IfErr result (Lacks (wants.Number low high) self.entry) }
        ensures least { IfOk result (λ x. low ≤ x.0) }
        ensures greatest { IfOk result (λ x. x.0 ≤ high) }
    {
        let place = self.place;
        let wanted = Wanted::Number(low, high);
        let (word, rest) = self.any(wanted)?;
        match number_within(word, 5, u64::from(low), u64::from(high)) {
            Some(number) => Ok((number as u16, rest)),
            None => Err(fault(place, WordFaultKind::Not(wanted))),
        }
    }

    /// A number of one octet from `low` to `high`, and the words after it. Fewer than 65,536 words stand before it.
    pub fn octet(self, low: u8, high: u8) -> Result<(u8, LineWords<'a>), WordFault>
        requires { self.place < 2 ^ 16 }
        ensures found { IfOk result (λ x. decimal_at 5 low high self.entry.words ≡ Some (x.0, x.1.words)) }
        ensures none { IfErr result (λ fault. decimal_at 5 low high self.entry.words ≡ None) }
        ensures takes { IfOk result (λ x. Takes (wants.Number low high) self.entry x.1) }
        ensures lacks { IfErr result (Lacks (wants.Number low high) self.entry) }
    {
        let (number, rest) = self.number(u16::from(low), u16::from(high))?;
        Ok((number as u8, rest))
    }

    /// A number of one to ten decimal digits below 2^32, and the words after it. Fewer than 65,536 words stand before
    /// it.
    #[tactic(auto, unfolding(dms_text::specs::Reading::decimal_at), using(crate::proofs::LineLaws::one_number))]
    pub fn four_octets(self) -> Result<(u32, LineWords<'a>), WordFault>
        requires { self.place < 2 ^ 16 }
        ensures found { IfOk result
            (λ x. decimal_at 10 0 4294967295 self.entry.words ≡ Some (x.0, x.1.words)) }
        ensures none { IfErr result (λ fault. decimal_at 10 0 4294967295 self.entry.words ≡ None) }
        ensures takes { IfOk result (λ x. Takes wants.FourOctets self.entry x.1) }
        ensures lacks { IfErr result (Lacks wants.FourOctets self.entry) }
    {
        let place = self.place;
        let (word, rest) = self.any(Wanted::FourOctets)?;
        match number_within(word, 10, 0, 4_294_967_295) {
            Some(number) => Ok((number as u32, rest)),
            None => Err(fault(place, WordFaultKind::Not(Wanted::FourOctets))),
        }
    }

    /// A number of one to ten decimal digits below 2^32, and nothing after it. Fewer than 65,536 words stand before it.
    #[tactic(auto, unfolding(crate::specs::FieldsReading::last_number_at), using(crate::proofs::LineLaws::words))]
    pub fn last_number(self) -> Result<u32, WordFault>
        requires { self.place < 2 ^ 16 }
        ensures number { result_ok result ≡ last_number_at self.entry.words }
        ensures fault { result_err result ≡ fault_from self.entry.place (wants.FourOctets ∷ []) self.entry.words }
    {
        let (number, rest) = self.four_octets()?;
        rest.end()?;
        Ok(number)
    }

    /// The word of octets as pairs of hexadecimal digits, `-` for none, and the words after it. It takes no memory:
    /// `octets` has them. Fewer than 65,536 words stand before it.
    #[tactic(auto, using(crate::proofs::LineLaws::octets_words))]
    pub fn octets(self, name: WordName) -> Result<(&'a [u8], LineWords<'a>), WordFault>
        requires { self.place < 2 ^ 16 }
        ensures found { IfOk result (λ x. octets_at self.entry.words ≡ Some (octets_in x.0.now, x.1.words)) }
        ensures none { IfErr result (λ fault. octets_at self.entry.words ≡ None) }
        ensures takes { IfOk result (λ x. Takes (wants.Octets name) self.entry x.1) }
        ensures lacks { IfErr result (Lacks (wants.Octets name) self.entry) }
        ensures spelled { IfOk result (λ x. IsSome (octets_of x.0.now)) }
    {
        let (word, rest) = self.word(Wanted::Octets(name))?;
        Ok((word, rest))
    }

    /// The word of octets as pairs of hexadecimal digits, and nothing after it. Fewer than 65,536 words stand before
    /// it.
    #[tactic(auto, unfolding(crate::specs::FieldsReading::last_octets_at), using(crate::proofs::LineLaws::words))]
    fn last_octets_word(self, name: WordName) -> Result<&'a [u8], WordFault>
        requires { self.place < 2 ^ 16 }
        ensures octets { option_map octets_seen (result_ok result) ≡ last_octets_at self.entry.words }
        ensures fault { result_err result ≡ fault_from self.entry.place (wants.Octets name ∷ []) self.entry.words }
        ensures spelled { IfOk result (λ word. IsSome (octets_of word.now)) }
    {
        let (word, rest) = self.octets(name)?;
        rest.end()?;
        Ok(word)
    }

    /// Octets as pairs of hexadecimal digits, and nothing after them. Only where just these are spelled can it be out
    /// of memory. Fewer than 65,536 words stand before them.
    pub fn last_octets(
        self,
        alloc: Global,
        name: WordName,
    ) -> Result<Result<Vec<u8>, WordFault>, AllocError>
        requires { self.place < 2 ^ 16 }
        ensures octets { IfOk result (λ read. octets_found (result_ok read) ≡ last_octets_at self.entry.words) }
        ensures fault { IfOk result (λ read. result_err read
            ≡ fault_from self.entry.place (wants.Octets name ∷ []) self.entry.words) }
        ensures spelled { OnErr result (IsSome (last_octets_at self.entry.words)) }
    {
        match self.last_octets_word(name) {
            Ok(word) => Ok(Ok(octets(alloc, word)?.unwrap())),
            Err(fault) => Ok(Err(fault)),
        }
    }

    /// The end of the line: no more words are wanted.
    #[tactic(auto, unfolding(crate::specs::Form::fault_from))]
    pub fn end(self) -> Result<(), WordFault>
        ensures ended { IfOk result (λ _. is_end self.entry.words ≡ true) }
        ensures more { IfErr result (λ fault. is_end self.entry.words ≡ false) }
        ensures none { IfOk result (λ _. fault_from self.entry.place [] self.entry.words ≡ None) }
        ensures fault { IfErr result (λ fault. fault_from self.entry.place [] self.entry.words ≡ Some fault) }
    {
        match fault_at_end(self.place, self.words) {
            None => Ok(()),
            Some(fault) => Err(fault),
        }
    }
}

fn fault(place: usize, kind: WordFaultKind) -> WordFault
    ensures { result ≡ record { place = place; kind = kind } }
{
    WordFault { place, kind }
}
