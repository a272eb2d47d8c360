//! Digits with separators between pairs of them.

ghost use Rattle.std.specs.Prelude.{◌≡◌, ◌⊎◌, Some, None, IfOk, IfErr, true, length};
ghost use Rattle.hex.specs.Hex.{decode_of, is_hex_digit};
ghost use Rattle.hex.specs.declared.error.FromHexError.TheVariants.{OutOfMemory};
ghost use Rattle.signtool_print.specs.SpacedDigits.{is_separator, is_between, stand_between};
ghost use Rattle.signtool_print.specs.SpacedDigits.{without_separators, spaced_octets};

use hex::FromHexError;
use std::alloc::Global;

/// The octets that pairs of digits are. Spaces and colons may stand between two pairs.
#[tactic(auto, using(crate::proofs::Separators::octets))]
pub(crate) fn spaced_octets(alloc: Global, word: &[u8]) -> Result<Vec<u8>, FromHexError>
    ensures octets { IfOk result (λ octets. spaced_octets word.now ≡ Some octets.items) }
    ensures fault { IfErr result (λ fault. (fault ≡ OutOfMemory) ⊎ (spaced_octets word.now ≡ None)) }
{
    let digits = match without_separators(alloc, word) {
        Ok(digits) => digits,
        Err(fault) => return Err(fault),
    };
    hex::decode(alloc, digits.as_slice())
}

/// The digits of a word without what stands between pairs of them.
#[tactic(auto, using(crate::proofs::Separators::digits))]
fn without_separators(alloc: Global, word: &[u8]) -> Result<Vec<u8>, FromHexError>
    ensures digits { IfOk result (λ digits. digits.items ≡ without_separators word.now) }
    ensures between { IfOk result (λ digits. stand_between 0 word.now ≡ true) }
    ensures fault { IfErr result (λ fault. (fault ≡ OutOfMemory) ⊎ (spaced_octets word.now ≡ None)) }
{
    let mut digits = Vec::new(alloc);
    for (index, octet) in word.iter().enumerate() {
        if is_separator(*octet) {
            if !is_between(digits.len(), word.len() - 1 - index) {
                return Err(no_digit(*octet, index));
            }
        } else if !is_digit(*octet) {
            return Err(no_digit(*octet, index));
        } else if digits.push(*octet).is_err() {
            return Err(FromHexError::OutOfMemory);
        }
    }
    Ok(digits)
}

fn no_digit(octet: u8, index: usize) -> FromHexError {
    FromHexError::InvalidHexCharacter {
        c: char::from(octet),
        index,
    }
}

fn is_separator(octet: u8) -> bool
    ensures { result ≡ is_separator octet }
{
    octet == b' ' || octet == b':'
}

/// Whether a separator may stand after so many digits and before so many octets.
fn is_between(digits: usize, after: usize) -> bool
    ensures { result ≡ is_between digits after }
{
    digits > 0 && digits % 2 == 0 && after > 0
}

fn is_digit(octet: u8) -> bool
    ensures { result ≡ is_hex_digit octet }
{
    octet.is_ascii_hexdigit()
}
