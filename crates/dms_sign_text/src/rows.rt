//! The permanent rows of a description.

ghost use Rattle.std.specs.Prelude.{◌≡◌, [], option_map, map, IfOk};
ghost use Rattle.dms_text.specs.Words.{words_of};
ghost use Rattle.dms_table.specs.Stock.{permanent_row};
ghost use Rattle.dms_sign_text.specs.RefusedLine.{octets_of, Leaves};
ghost use Rattle.dms_sign_text.specs.Views.{row_line, row_seen};
ghost use Rattle.dms_sign_text.specs.DescriptionReading.{row_words, row_of, rows_from};

use crate::upcoming::Upcoming;
use dms_table::Permanent;
use dms_text::{Words, octets};
use dms_text_forms::fields::octet;
use std::alloc::{AllocError, Global};

/// What the line of a permanent row says.
#[derive(Clone, Copy)]
pub(crate) struct RowLine<'a> {
    pub text: &'a [u8],
    pub owner: &'a [u8],
    pub beacon: u8,
    pub pixel: u8,
    pub priority: u8,
}

/// A permanent row with its own text and owner.
#[derive(Drop)]
pub(crate) struct OwnedRow {
    pub text: Vec<u8>,
    pub owner: Vec<u8>,
    pub beacon: u8,
    pub pixel: u8,
    pub priority: u8,
}

/// `permanent TEXT OWNER BEACON PIXEL PRIORITY`.
#[tactic(auto, unfolding(crate::specs::DescriptionReading::row_words))]
fn row_line(line: &[u8]) -> Option<RowLine<'_>>
    ensures { option_map row_line result ≡ row_words (words_of line.now) }
{
    let words = Words::of(line).keyword(b"permanent")?;
    let (text, words) = words.next_word()?;
    let (owner, words) = words.next_word()?;
    let (beacon, words) = octet(words)?;
    let (pixel, words) = octet(words)?;
    let (priority, words) = octet(words)?;
    if words.is_empty() {
        Some(RowLine {
            text,
            owner,
            beacon,
            pixel,
            priority,
        })
    } else {
        None
    }
}

/// The permanent row of a line, where it is one.
#[tactic(auto, unfolding(crate::specs::DescriptionReading::row_of))]
fn row(alloc: Global, line: &[u8]) -> Result<Option<OwnedRow>, AllocError>
    ensures { IfOk result (λ found. option_map row_seen found ≡ row_of (words_of line.now)) }
{
    let Some(said) = row_line(line) else {
        return Ok(None);
    };
    let Some(text) = octets(alloc, said.text)? else {
        return Ok(None);
    };
    let Some(owner) = octets(alloc, said.owner)? else {
        return Ok(None);
    };
    Ok(Some(OwnedRow {
        text,
        owner,
        beacon: said.beacon,
        pixel: said.pixel,
        priority: said.priority,
    }))
}

/// The permanent rows that come next, and the lines after them.
#[tactic(auto, unfolding(crate::specs::DescriptionReading::rows_from), using(crate::proofs::LastLines::last))]
pub(crate) fn rows<'a>(
    alloc: Global,
    lines: Upcoming<'a>,
) -> Result<(Vec<OwnedRow>, Upcoming<'a>), AllocError>
    ensures rows { IfOk result (λ x. map row_seen x.0.items ≡ (rows_from [] (octets_of lines.entry.lines)).0) }
    ensures rest { IfOk result (λ x. octets_of x.1.lines ≡ (rows_from [] (octets_of lines.entry.lines)).1) }
    ensures last { IfOk result (λ x. Leaves lines.entry x.1) }
{
    let mut lines = lines;
    let mut rows = Vec::new(alloc);
    while let Some(line) = lines.peek() {
        match row(alloc, line)? {
            Some(row) => rows.push(row)?,
            None => return Ok((rows, lines)),
        }
        lines.advance();
    }
    Ok((rows, lines))
}

/// The rows, lent.
pub(crate) fn lent(alloc: Global, rows: &[OwnedRow]) -> Result<Vec<Permanent<'_>>, AllocError>
    ensures { IfOk result (λ lent. map permanent_row lent.items ≡ map row_seen rows.now) }
{
    let mut lent = Vec::with_capacity(alloc, rows.len())?;
    for row in rows {
        lent.push(Permanent {
            text: row.text.as_slice(),
            owner: row.owner.as_slice(),
            beacon: row.beacon,
            pixel: row.pixel,
            priority: row.priority,
        })?;
    }
    Ok(lent)
}
