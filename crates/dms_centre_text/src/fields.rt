//! What words of a command alone spell: a row, a message's attributes, an address, a code, and the terms on which a
//! message is activated.

ghost use Rattle.std.specs.Prelude.{◌≡◌, ◌<◌, ◌+◌, ◌++◌, ◌∷◌, [], List, Some, None, IfOk, IfErr};
ghost use Rattle.std.specs.Result.{result_ok, result_err};
ghost use Rattle.hex.specs.Hex.{decode_of};
ghost use Rattle.dms_text_forms.specs.Form.{fault_from};
ghost use Rattle.dms_text_forms.specs.LineReading.{Takes, Lacks};
ghost use Rattle.dms_text_forms.specs.declared.wanted.Wanted.{Wanted};
ghost use Rattle.dms_text_forms.specs.declared.wanted.Wanted.TheVariants as wants;
ghost use Rattle.dms_centre_text.specs.CommandForm.{row_form, attributes_form, terms_form};
ghost use Rattle.dms_centre_text.specs.CommandReading.{attributes_at, code_from, code_at, last_code_at};
ghost use Rattle.dms_centre_text.specs.CommandReading.{last_terms_at, next_address_at, row_at};

use dms_centre::{Attributes, Terms};
use dms_codes::{Activation, Order, RowId};
use dms_text_forms::{LineWords, Wanted, WordFault, address};
use hex::FromHex;

/// A row of the message table, and the words after it.
#[tactic(auto, unfolding(crate::specs::CommandReading::row_at), using(dms_text_forms::proofs::LineLaws::words))]
pub(crate) fn row(words: LineWords<'_>) -> Result<(RowId, LineWords<'_>), WordFault>
    requires { words.place < 16 }
    ensures said { IfOk result (λ x. row_at words.entry.words ≡ Some (x.0, x.1.words)) }
    ensures none { IfErr result (λ fault. row_at words.entry.words ≡ None) }
    ensures place { IfOk result (λ x. x.1.place ≡ words.entry.place + 2) }
    ensures taken { IfOk result (λ x. (more : List Wanted)
        → fault_from words.entry.place (row_form ++ more) words.entry.words ≡ fault_from x.1.place more x.1.words) }
    ensures fault { IfErr result (λ fault. (more : List Wanted)
        → fault_from words.entry.place (row_form ++ more) words.entry.words ≡ Some fault) }
{
    let (memory, words) = words.octet(0, 255)?;
    let (number, words) = words.number(0, 65535)?;
    Ok((RowId { memory, number }, words))
}

/// What belongs to a message beside its text and its owner, and the words after it.
#[tactic(auto, unfolding(crate::specs::CommandReading::attributes_at), using(dms_text_forms::proofs::LineLaws::words))]
pub(crate) fn attributes(words: LineWords<'_>) -> Result<(Attributes, LineWords<'_>), WordFault>
    requires { words.place < 16 }
    ensures said { IfOk result (λ x. attributes_at words.entry.words ≡ Some (x.0, x.1.words)) }
    ensures none { IfErr result (λ fault. attributes_at words.entry.words ≡ None) }
    ensures place { IfOk result (λ x. x.1.place ≡ words.entry.place + 3) }
    ensures taken { IfOk result (λ x. (more : List Wanted)
        → fault_from words.entry.place (attributes_form ++ more) words.entry.words
        ≡ fault_from x.1.place more x.1.words) }
    ensures fault { IfErr result (λ fault. (more : List Wanted)
        → fault_from words.entry.place (attributes_form ++ more) words.entry.words ≡ Some fault) }
{
    let (beacon, words) = words.octet(0, 255)?;
    let (pixel, words) = words.octet(0, 255)?;
    let (run_priority, words) = words.octet(0, 255)?;
    let attributes = Attributes {
        beacon,
        pixel,
        run_priority,
    };
    Ok((attributes, words))
}

/// An address, and the words after it.
#[tactic(auto, using(crate::proofs::WantedWords::addresses))]
fn next_address(words: LineWords<'_>) -> Result<([u8; 4], LineWords<'_>), WordFault>
    requires { words.place < 32 }
    ensures said { IfOk result (λ x. next_address_at words.entry.words ≡ Some (x.0, x.1.words)) }
    ensures none { IfErr result (λ fault. next_address_at words.entry.words ≡ None) }
    ensures takes { IfOk result (λ x. Takes wants.Address words.entry x.1) }
    ensures lacks { IfErr result (Lacks wants.Address words.entry) }
{
    let (word, words) = words.word(Wanted::Address)?;
    Ok((address(word).unwrap(), words))
}

/// The terms on which a message is activated, and nothing after them.
#[tactic(auto, unfolding(crate::specs::CommandReading::last_terms_at), using(dms_text_forms::proofs::LineLaws::words))]
pub(crate) fn last_terms(words: LineWords<'_>) -> Result<Terms, WordFault>
    requires { words.place < 16 }
    ensures terms { result_ok result ≡ last_terms_at words.entry.words }
    ensures fault { result_err result ≡ fault_from words.entry.place terms_form words.entry.words }
{
    let (minutes, words) = words.number(0, 65535)?;
    let (priority, words) = words.octet(0, 255)?;
    let (address, words) = next_address(words)?;
    words.end()?;
    Ok(Terms {
        minutes,
        priority,
        address,
    })
}

/// A code of twenty-four hexadecimal digits, and the words after it.
#[tactic(auto, using(crate::proofs::WantedWords::codes_wanted))]
fn next_code(order: Order, words: LineWords<'_>) -> Result<(Activation, LineWords<'_>), WordFault>
    requires { words.place < 16 }
    ensures said { IfOk result (λ x. code_at order words.entry.words ≡ Some (x.0, x.1.words)) }
    ensures none { IfErr result (λ fault. code_at order words.entry.words ≡ None) }
    ensures takes { IfOk result (λ x. Takes wants.Code words.entry x.1) }
    ensures lacks { IfErr result (Lacks wants.Code words.entry) }
{
    let (word, words) = words.word(Wanted::Code)?;
    Ok((code(order, word).unwrap(), words))
}

/// A code of twenty-four hexadecimal digits, and nothing after it.
#[tactic(auto, unfolding(crate::specs::CommandReading::last_code_at), using(dms_text_forms::proofs::LineLaws::words))]
pub(crate) fn last_code(order: Order, words: LineWords<'_>) -> Result<Activation, WordFault>
    requires { words.place < 16 }
    ensures code { result_ok result ≡ last_code_at order words.entry.words }
    ensures fault { result_err result ≡ fault_from words.entry.place (wants.Code ∷ []) words.entry.words }
{
    let (code, words) = next_code(order, words)?;
    words.end()?;
    Ok(code)
}

/// The code that twenty-four hexadecimal digits spell.
#[tactic(auto, using(crate::proofs::CodeDigits::code_read, crate::proofs::CodeDigits::no_code_read))]
fn code(order: Order, word: &[u8]) -> Option<Activation>
    ensures { result ≡ code_from order (decode_of word.now) }
{
    match <[u8; 12]>::from_hex(word) {
        Ok(octets) => Some(Activation::of_octets(order, &octets)),
        Err(_) => None,
    }
}
