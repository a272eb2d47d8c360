//! A text cut at a separator.

ghost use Rattle.std.specs.Prelude.{◌≡◌, ◌+◌, ◌^◌, ◌<◌, ◌==◌, ◌∷◌, ℕ, [], length, IfSome, IfNone};
ghost use Rattle.std.specs.List.{position_from};
ghost use Rattle.dms_text.specs.Words.{index_of, parts_of};

/// The index of the first octet that is `wanted`, or none where there is none.
#[inline]
pub fn index_of(octets: &[u8], wanted: u8) -> Option<usize>
    ensures { result ≡ index_of wanted octets.now }
{
    octets.iter().position(|octet| *octet == wanted)
}

/// What stands before and after the first separator, or none where the text has no separator.
#[tactic(auto, using(crate::proofs::Splits::parts))]
pub fn split_once(text: &[u8], separator: u8) -> Option<(&[u8], &[u8])>
    ensures parts { IfSome result (λ x. parts_of separator text.now ≡ x.0.now ∷ parts_of separator x.1.now) }
    ensures whole { IfNone result (parts_of separator text.now ≡ text.now ∷ []) }
    ensures shorter { IfSome result (λ x. length x.0.now + length x.1.now < length text.now) }
{
    let index = index_of(text, separator)?;
    Some((&text[..index], &text[index + 1..]))
}

/// The index of the first newline, or none where there is none: eight octets at a time, as a line has many.
fn newline_in(text: &[u8]) -> Option<usize>
    ensures { result ≡ index_of 10 text.now }
{
    let mut left = text;
    let mut before = 0;
    while let [
        first,
        second,
        third,
        fourth,
        fifth,
        sixth,
        seventh,
        eighth,
        rest @ ..,
    ] = left
    {
        if *first == b'\n' {
            return Some(before);
        }
        if *second == b'\n' {
            return Some(before + 1);
        }
        if *third == b'\n' {
            return Some(before + 2);
        }
        if *fourth == b'\n' {
            return Some(before + 3);
        }
        if *fifth == b'\n' {
            return Some(before + 4);
        }
        if *sixth == b'\n' {
            return Some(before + 5);
        }
        if *seventh == b'\n' {
            return Some(before + 6);
        }
        if *eighth == b'\n' {
            return Some(before + 7);
        }
        left = rest;
        before += 8;
    }
    newline_after(left, before)
}

/// The same of what is left after so many octets without a newline.
fn newline_after(text: &[u8], before: usize) -> Option<usize>
    requires { before + length text.now < 2 ^ 64 }
    ensures { result ≡ position_from (λ (octet : ℕ). octet == 10) before text.now }
{
    let mut left = text;
    let mut index = before;
    while let [octet, rest @ ..] = left {
        if *octet == b'\n' {
            return Some(index);
        }
        left = rest;
        index += 1;
    }
    None
}

/// What stands before and after the first newline, or none where the text has none.
#[tactic(auto, using(crate::proofs::Splits::parts))]
pub(crate) fn split_line(text: &[u8]) -> Option<(&[u8], &[u8])>
    ensures parts { IfSome result (λ x. parts_of 10 text.now ≡ x.0.now ∷ parts_of 10 x.1.now) }
    ensures whole { IfNone result (parts_of 10 text.now ≡ text.now ∷ []) }
    ensures shorter { IfSome result (λ x. length x.0.now + length x.1.now < length text.now) }
{
    let end = newline_in(text)?;
    Some((&text[..end], &text[end + 1..]))
}
