//! Reading descriptions.

ghost use Rattle.std.specs.Prelude.{◌≡◌, ◌⊎◌, ℕ, List, Some, None, IfOk, IfErr};
ghost use Rattle.std.specs.Str.Lines.{lines};
ghost use Rattle.dms_text.specs.Lines.{kept_lines};
ghost use Rattle.dms_sign_text.specs.Description.{Description, SpellsSign};
ghost use Rattle.dms_sign_text.specs.DescriptionReading.{description_at};
ghost use Rattle.dms_sign_text.specs.PartsView.{parts_seen};
ghost use Rattle.dms_sign_text.specs.RefusedLine.{numbered_left, all_numbered, Leaves, refused_number};
ghost use Rattle.dms_sign_text.specs.RefusedLine.{IsRefusedLine, NamesLine};
ghost use Rattle.dms_sign_text.specs.Setups.{octets_left, BeginsWith, IsMade};

use crate::fault::DescriptionFault;
use crate::fonts::fonts;
use crate::head::Head;
use crate::making::made;
use crate::rows::{OwnedRow, rows};
use crate::setup::Setup;
use crate::upcoming::Upcoming;
use dms_face_font::Font;
use dms_text::Lines;
use std::alloc::Global;

/// What a description says, and the number of its line `end`.
#[derive(Drop)]
pub(crate) struct DescriptionParts<'a> {
    pub head: Head<'a>,
    pub rows: Vec<OwnedRow>,
    pub fonts: Vec<Font>,
    pub end: usize,
}

impl<'a> DescriptionParts<'a> {
    /// What the first lines say, up to the line `end`, and the lines after it.
    #[tactic(auto, unfolding(crate::specs::DescriptionReading::description_at), using(crate::proofs::Refused::parts))]
    fn read(
        alloc: Global,
        lines: Lines<'a>,
    ) -> Result<(DescriptionParts<'a>, Lines<'a>), DescriptionFault>
        ensures found { IfOk result
            (λ x. description_at (octets_left lines.entry) ≡ Some (parts_seen x.0, octets_left x.1)) }
        ensures last { IfOk result (λ x. Leaves (numbered_left lines.entry) (numbered_left x.1)) }
        ensures end { IfOk result (λ x. x.0.end ≡ refused_number (numbered_left lines.entry)) }
        ensures none { IfErr result (λ fault. (fault ≡ DescriptionFault.Memory)
            ⊎ (description_at (octets_left lines.entry) ≡ None)) }
        ensures number { IfErr result (NamesLine (λ number. number ≡ refused_number (numbered_left lines.entry))) }
    {
        let (head, lines) = Head::read(lines)?;
        let Ok((rows, upcoming)) = rows(alloc, Upcoming::of(lines)) else {
            return Err(DescriptionFault::Memory);
        };
        let Ok((fonts, upcoming)) = fonts(alloc, upcoming) else {
            return Err(DescriptionFault::Memory);
        };
        let end = upcoming.number();
        let lines = upcoming.after_end().ok_or(DescriptionFault::Line(end))?;
        let parts = DescriptionParts {
            head,
            rows,
            fonts,
            end,
        };
        Ok((parts, lines))
    }
}

/// The sign of the first lines, up to their line `end`, and the lines after it. A fault's line is counted over the
/// whole text of which these lines are left.
pub fn sign_of_lines(
    alloc: Global,
    lines: Lines<'_>,
) -> Result<(Setup, Lines<'_>), DescriptionFault>
    ensures read { IfOk result
        (λ x. (it : Description) × BeginsWith (octets_left lines.entry) (octets_left x.1) it × IsMade it x.0) }
    ensures last { IfOk result (λ x. Leaves (numbered_left lines.entry) (numbered_left x.1)) }
    ensures line { IfErr result (λ fault. (fault ≡ DescriptionFault.Memory)
        ⊎ ((it : Description) (rest : List (List ℕ)) → BeginsWith (octets_left lines.entry) rest it → ⊥)) }
    ensures number { IfErr result (NamesLine (λ number. number ≡ refused_number (numbered_left lines.entry))) }
{
    let (parts, rest) = match DescriptionParts::read(alloc, lines) {
        Ok(found) => found,
        Err(fault) => return Err(fault),
    };
    let DescriptionParts {
        head,
        rows,
        fonts,
        end,
    } = parts;
    match made(alloc, &head, rows.as_slice(), fonts) {
        Ok(Some(sign)) => {
            let first = head.first;
            Ok((Setup { sign, first }, rest))
        }
        Ok(None) => Err(DescriptionFault::Line(end)),
        Err(_) => Err(DescriptionFault::Memory),
    }
}

/// The sign of a description: seven lines, its permanent rows, its fonts, and the line `end`, in this order.
/// Empty lines, and lines that begin with `#`, are skipped.
pub fn description(alloc: Global, octets: &[u8]) -> Result<Setup, DescriptionFault>
    ensures read { IfOk result (λ setup. (it : Description) × SpellsSign (kept_lines octets.now) it × IsMade it setup) }
    ensures line { IfErr result (λ fault. (fault ≡ DescriptionFault.Memory)
        ⊎ ((it : Description) → SpellsSign (kept_lines octets.now) it → ⊥)) }
    ensures number { IfErr result (NamesLine (IsRefusedLine (all_numbered (lines octets.now)))) }
{
    match sign_of_lines(alloc, Lines::of(octets)) {
        Ok((setup, rest)) => {
            let mut rest = rest;
            match rest.next_line() {
                Some(line) => Err(DescriptionFault::Line(line.number)),
                None => Ok(setup),
            }
        }
        Err(fault) => Err(fault),
    }
}
