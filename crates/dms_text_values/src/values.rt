//! The value that words spell.

ghost use Rattle.std.specs.Prelude.{◌≡◌, true, option_map, IfOk, OnErr};
ghost use Rattle.dms_wire.specs.View.{object_value};
ghost use Rattle.dms_text_forms.specs.FieldsView.{octets_in};
ghost use Rattle.dms_text_values.specs.ValueReading.{value_at, value_after, octet_string_at, opaque_at};
ghost use Rattle.dms_text_values.specs.ValueReading.{object_identifier_at, integer_value_at, ip_address_at};
ghost use Rattle.dms_text_values.specs.ValueReading.{counter_at, gauge_at, time_ticks_at, large_number_at};
ghost use Rattle.dms_text_values.specs.View.{worded_value, value_and_rest, octets_within, has_octets};

use crate::integers::integer;
use crate::names::{NameRead, name};
use crate::type_word::TypeWord;
use dms_text::{Words, octets};
use dms_text_forms::address;
use dms_text_forms::fields::octets_word;
use dms_wire::Value;
use std::alloc::{AllocError, Global};

/// A value that words spell. Octets are the word of their digits: it takes no memory.
#[derive(Drop)]
pub enum ValueWords<'a> {
    /// An INTEGER.
    Integer(i64),
    /// The digits of an OCTET STRING, or `-`.
    Octets(&'a [u8]),
    /// NULL.
    Null,
    /// An OBJECT IDENTIFIER.
    Name(NameRead),
    /// An IpAddress.
    Address([u8; 4]),
    /// A Counter.
    Counter(u32),
    /// A Gauge.
    Gauge(u32),
    /// TimeTicks.
    Ticks(u32),
    /// The digits of an Opaque, or `-`.
    Opaque(&'a [u8]),
}

impl ValueWords<'_> {
    /// The octets of an OCTET STRING or of an Opaque, for `over`; none of another value, for which no memory is asked.
    pub fn octets(&self, alloc: Global) -> Result<Vec<u8>, AllocError>
        ensures octets { IfOk result (λ octets. octets.items ≡ octets_within (worded_value self.now)) }
        ensures memory { OnErr result (has_octets (worded_value self.now) ≡ true) }
    {
        match self {
            ValueWords::Octets(word) => octets_in(alloc, word),
            ValueWords::Opaque(word) => octets_in(alloc, word),
            _ => Ok(Vec::new(alloc)),
        }
    }

    /// The value, over its octets.
    pub fn over<'a>(&'a self, octets: &'a [u8]) -> Value<'a>
        requires { octets.now ≡ octets_within (worded_value self.now) }
        ensures { object_value result ≡ worded_value self.now }
    {
        match self {
            ValueWords::Integer(number) => Value::Integer(*number),
            ValueWords::Octets(_) => Value::Octets(octets),
            ValueWords::Null => Value::Null,
            ValueWords::Name(name) => Value::Name(name.oid()),
            ValueWords::Address(octets) => Value::Address(*octets),
            ValueWords::Counter(number) => Value::Counter(*number),
            ValueWords::Gauge(number) => Value::Gauge(*number),
            ValueWords::Ticks(number) => Value::Ticks(*number),
            ValueWords::Opaque(_) => Value::Opaque(octets),
        }
    }
}

/// The octets of a word that spells some.
fn octets_in(alloc: Global, word: &[u8]) -> Result<Vec<u8>, AllocError>
    ensures { IfOk result (λ octets. octets.items ≡ octets_in word.now) }
{
    match octets(alloc, word)? {
        Some(octets) => Ok(octets),
        None => Ok(Vec::new(alloc)),
    }
}

/// The value that the first words spell, and the words after them.
#[tactic(auto, unfolding(crate::specs::ValueReading::value_at))]
pub fn value(words: Words<'_>) -> Option<(ValueWords<'_>, Words<'_>)>
    ensures { option_map value_and_rest result ≡ value_at words.entry }
{
    let (word, words) = words.next_word()?;
    let kind = TypeWord::of(word)?;
    value_after(kind, words)
}

/// What stands after the word with which a value begins.
fn value_after(kind: TypeWord, words: Words<'_>) -> Option<(ValueWords<'_>, Words<'_>)>
    ensures { option_map value_and_rest result ≡ value_after kind words.entry }
{
    match kind {
        TypeWord::Integer => integer_value(words),
        TypeWord::Octet => octet_string(words),
        TypeWord::Null => Some((ValueWords::Null, words)),
        TypeWord::Object => object_identifier(words),
        TypeWord::Address => ip_address(words),
        TypeWord::Counter => counter(words),
        TypeWord::Gauge => gauge(words),
        TypeWord::Ticks => time_ticks(words),
        TypeWord::Opaque => opaque(words),
    }
}

#[tactic(auto, unfolding(crate::specs::ValueReading::integer_value_at))]
fn integer_value(words: Words<'_>) -> Option<(ValueWords<'_>, Words<'_>)>
    ensures { option_map value_and_rest result ≡ integer_value_at words.entry }
{
    let (number, rest) = integer(words)?;
    Some((ValueWords::Integer(number), rest))
}

#[tactic(auto, unfolding(crate::specs::ValueReading::octet_string_at))]
fn octet_string(words: Words<'_>) -> Option<(ValueWords<'_>, Words<'_>)>
    ensures { option_map value_and_rest result ≡ octet_string_at words.entry }
{
    let words = words.keyword(b"STRING")?;
    let (word, rest) = octets_word(words)?;
    Some((ValueWords::Octets(word), rest))
}

#[tactic(auto, unfolding(crate::specs::ValueReading::object_identifier_at))]
fn object_identifier(words: Words<'_>) -> Option<(ValueWords<'_>, Words<'_>)>
    ensures { option_map value_and_rest result ≡ object_identifier_at words.entry }
{
    let words = words.keyword(b"IDENTIFIER")?;
    let (word, rest) = words.next_word()?;
    Some((ValueWords::Name(name(word)?), rest))
}

#[tactic(auto, unfolding(crate::specs::ValueReading::ip_address_at))]
fn ip_address(words: Words<'_>) -> Option<(ValueWords<'_>, Words<'_>)>
    ensures { option_map value_and_rest result ≡ ip_address_at words.entry }
{
    let (word, rest) = words.next_word()?;
    Some((ValueWords::Address(address(word)?), rest))
}

#[tactic(auto, unfolding(crate::specs::ValueReading::counter_at))]
fn counter(words: Words<'_>) -> Option<(ValueWords<'_>, Words<'_>)>
    ensures { option_map value_and_rest result ≡ counter_at words.entry }
{
    let (number, rest) = large_number(words)?;
    Some((ValueWords::Counter(number), rest))
}

#[tactic(auto, unfolding(crate::specs::ValueReading::gauge_at))]
fn gauge(words: Words<'_>) -> Option<(ValueWords<'_>, Words<'_>)>
    ensures { option_map value_and_rest result ≡ gauge_at words.entry }
{
    let (number, rest) = large_number(words)?;
    Some((ValueWords::Gauge(number), rest))
}

#[tactic(auto, unfolding(crate::specs::ValueReading::time_ticks_at))]
fn time_ticks(words: Words<'_>) -> Option<(ValueWords<'_>, Words<'_>)>
    ensures { option_map value_and_rest result ≡ time_ticks_at words.entry }
{
    let (number, rest) = large_number(words)?;
    Some((ValueWords::Ticks(number), rest))
}

#[tactic(auto, unfolding(crate::specs::ValueReading::opaque_at))]
fn opaque(words: Words<'_>) -> Option<(ValueWords<'_>, Words<'_>)>
    ensures { option_map value_and_rest result ≡ opaque_at words.entry }
{
    let (word, rest) = octets_word(words)?;
    Some((ValueWords::Opaque(word), rest))
}

/// A number of four octets, and the words after it.
fn large_number(words: Words<'_>) -> Option<(u32, Words<'_>)>
    ensures { result ≡ large_number_at words.entry }
{
    words.four_octets(10, 0, u32::MAX)
}
