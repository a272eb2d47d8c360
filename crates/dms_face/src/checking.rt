//! Whether a text can be shown on a face.

ghost use Rattle.std.specs.Prelude.{◌≡◌, length, IsTrue, ◌↔◌};
ghost use Rattle.std.specs.Result.{is_ok};
ghost use Rattle.dms_multi.specs.Outcomes.{outcomes_of};
ghost use Rattle.dms_face.specs.Face.{fit};
ghost use Rattle.dms_face.specs.Layout.{under, blank_layout};
ghost use Rattle.dms_face.specs.Fit.{IsGood, checked_text};
ghost use Rattle.dms_face.specs.OnePass.{walked};

use crate::defaults::Defaults;
use crate::face::Face;
use crate::multi_fault::MultiFault;
use crate::totals::Totals;
use dms_codes::MAX_TEXT;
use dms_multi::outcome_at;

/// The number of the text's pages, or why it can not be shown under the face's own defaults.
pub fn check(face: &Face, text: &[u8]) -> Result<usize, MultiFault>
    ensures exact { result ≡ checked_text face.now text.now }
    ensures good { IsTrue (is_ok result) ↔ IsGood face.now text.now }
{
    check_with(face, &face.defaults(), text)
}

/// The number of the text's pages, or why it can not be shown under these defaults, which must fit the face: its
/// font is one of the face's, and its numbers are in their ranges.
pub fn check_with(face: &Face, defaults: &Defaults, text: &[u8]) -> Result<usize, MultiFault>
    requires { IsTrue (fit face.now.fonts defaults.now) }
    ensures exact { result ≡ checked_text (under face.now defaults.now) text.now }
    ensures good { IsTrue (is_ok result) ↔ IsGood (under face.now defaults.now) text.now }
{
    if text.len() > MAX_TEXT {
        return Err(MultiFault::TOO_LONG);
    }
    walk(face, defaults, text)
}

/// What is answered for a text, by one walk over its items.
fn walk(face: &Face, defaults: &Defaults, text: &[u8]) -> Result<usize, MultiFault>
    requires { IsTrue (fit face.now.fonts defaults.now) }
    ensures { result ≡ walked (under face.now defaults.now) (length text.now)
        (blank_layout (under face.now defaults.now)) (outcomes_of text.now) }
{
    let end = text.len();
    let mut totals = Totals::new(face, defaults);
    let mut rest = text;
    while let Some((outcome, more)) = outcome_at(rest, end) {
        let spot = outcome?;
        if let Some(code) = totals.take(face, defaults, spot.item) {
            let place = spot.first;
            return Err(MultiFault { code, place });
        }
        rest = totals.take_run(face, more);
    }
    match totals.end_fault(face) {
        None => Ok(totals.pages + 1),
        Some(code) => Err(MultiFault { code, place: end }),
    }
}
