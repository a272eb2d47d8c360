//! The object identifier that a word spells.

ghost use Rattle.std.specs.Prelude.{◌≡◌, ◌++◌, ◌+◌, ◌≤◌, option_map};
ghost use Rattle.arrayvec.specs.ArrayVec.{array_vec_len};
ghost use Rattle.dms_wire_ber.specs.ObjectIdentifier.{IsName, sub_identifier_octets};
ghost use Rattle.dms_wire_ber.specs.NameReading.{numbers_of};
ghost use Rattle.dms_text_values.specs.NameReading.{name_of, most_second, numbers_at};
ghost use Rattle.dms_text_values.specs.View.{with_numbers, content_items};

use arrayvec::ArrayVec;
use dms_text::Words;
use dms_wire_ber::Oid;
use std::marker::Model;

/// The most numbers after the first two.
const MOST_OTHERS: usize = 126;

/// Room for the octets of 127 sub-identifiers, of at most five each.
const MAX_CONTENT: usize = 635;

type Content = ArrayVec<u8, MAX_CONTENT>;

/// An object identifier that was read. It takes no memory beside itself. A contract sees the list of its numbers.
#[derive(Drop)]
pub struct NameRead {
    content: Content,
}

impl Model for NameRead {
    ghost use Rattle.std.specs.Prelude.{ℕ, List};
    ghost use Rattle.dms_wire_ber.specs.ObjectIdentifier.{IsName};
    ghost use Rattle.dms_wire_ber.specs.NameReading.{numbers_of};

    ghost Value = { List ℕ };

    ghost view = { λ a. numbers_of a.content.items };

    ghost invariant = { λ a. IsName (numbers_of a.content.items) a.content.items };
}

impl NameRead {
    /// The object identifier.
    pub fn oid(&self) -> Oid<'_>
        ensures { result ≡ self.now }
    {
        Oid::known(self.content.as_slice())
    }

    /// Its content octets (X.690, 8.19).
    pub fn content(&self) -> &[u8]
        ensures octets { IsName self.now result.now }
        ensures numbers { numbers_of result.now ≡ self.now }
    {
        self.content.as_slice()
    }
}

/// The object identifier that a word spells: 2 to 128 numbers of one to ten decimal digits with dots between them,
/// within the limits of names.
#[tactic(auto, unfolding(crate::specs::NameReading::name_of), using(crate::proofs::NameLaws::names))]
pub fn name(word: &[u8]) -> Option<NameRead>
    ensures { result ≡ name_of word.now }
{
    let (first, parts) = Words::split(word, b'.').four_octets(10, 0, 2)?;
    let (second, parts) = parts.four_octets(10, 0, most_second(first))?;
    let mut content = Content::new();
    put_sub_identifier(&mut content, 40 * first + second);
    let content = with_numbers(content, parts)?;
    Some(NameRead { content })
}

/// The largest number that may be the second one, after one that is at most 2.
fn most_second(first: u32) -> u32
    ensures value { result ≡ most_second first }
    ensures small { result ≤ 4294967215 }
{
    if first < 2 { 39 } else { u32::MAX - 80 }
}

/// The content with the sub-identifiers of the numbers that are left.
#[tactic(auto, using(crate::proofs::NameLaws::steps))]
fn with_numbers(content: Content, parts: Words<'_>) -> Option<Content>
    requires { array_vec_len content ≤ 5 }
    ensures { option_map content_items result ≡ with_numbers content.items (numbers_at 126 parts.entry) }
{
    let mut all = content;
    let mut rest = parts;
    let mut left = MOST_OTHERS;
    while !rest.is_empty() {
        if left == 0 {
            return None;
        }
        let (number, others) = rest.four_octets(10, 0, u32::MAX)?;
        put_sub_identifier(&mut all, number);
        left -= 1;
        rest = others;
    }
    Some(all)
}

/// Appends a sub-identifier's digits in base 128 (X.690, 8.19.2).
#[tactic(auto, using(crate::proofs::SubIdentifiers::sizes))]
fn put_sub_identifier(content: &mut Content, number: u32)
    requires { array_vec_len content.old + 5 ≤ 635 }
    ensures octets { content.new.items ≡ content.old.items ++ sub_identifier_octets number }
    ensures room { array_vec_len content.new ≤ array_vec_len content.old + 5 }
{
    let last = (number % 128) as u8;
    let second = (number / 128 % 128) as u8;
    let third = (number / 16_384 % 128) as u8;
    let fourth = (number / 2_097_152 % 128) as u8;
    let fifth = (number / 268_435_456) as u8;
    let _ = if number < 128 {
        content.try_extend_from_slice(&[last])
    } else if number < 16_384 {
        content.try_extend_from_slice(&[128 + second, last])
    } else if number < 2_097_152 {
        content.try_extend_from_slice(&[128 + third, 128 + second, last])
    } else if number < 268_435_456 {
        content.try_extend_from_slice(&[128 + fourth, 128 + third, 128 + second, last])
    } else {
        content.try_extend_from_slice(&[128 + fifth, 128 + fourth, 128 + third, 128 + second, last])
    };
}
