//! Why a sign can not be made.

use crate::row_causes::RowCause;
use std::fmt;

/// Why a sign can not be made.
#[derive(Clone, Copy, Debug, PartialEq, Eq)]
pub enum SignCause {
    /// The matrix has no columns.
    NoColumns,
    /// The matrix has more than 256 columns.
    Wide,
    /// The matrix has no rows.
    NoRows,
    /// The matrix has more than 64 rows.
    High,
    /// There is no font.
    NoFont,
    /// There are more than four fonts.
    FifthFont,
    /// Two fonts have this number.
    FontTwice(u8),
    /// The default background is no colour.
    Background(u8),
    /// The default foreground is no colour.
    Foreground(u8),
    /// The default justification of lines is none.
    Line(u8),
    /// The default justification of pages is none.
    Page(u8),
    /// The default font is none of the face's.
    Font(u8),
    /// The reading community has not 1 to 32 octets.
    Reader,
    /// The writing community has not 1 to 32 octets.
    Writer,
    /// Both communities are the same.
    SameCommunities,
    /// There are more than 16 permanent rows.
    PermanentRows,
    /// There are more than 64 changeable rows.
    ChangeableRows,
    /// There are more than 16 volatile rows.
    VolatileRows,
    /// The permanent row of this number, from 1, can not stand.
    Row(usize, RowCause),
}

impl fmt::Display for SignCause {
    ghost use Rattle.std.specs.Prelude.{Some};
    ghost use Rattle.dms_sign_text_causes.specs.Texts.{sign_cause_text};

    ghost output = { λ cause. Some (sign_cause_text cause) };

    fn fmt<W: fmt::Write>(&self, f: &mut fmt::Formatter<W>) -> fmt::Result {
        match self {
            SignCause::NoColumns => f.write_str("the matrix has no columns"),
            SignCause::Wide => f.write_str("the matrix is wider than 256"),
            SignCause::NoRows => f.write_str("the matrix has no rows"),
            SignCause::High => f.write_str("the matrix is higher than 64"),
            SignCause::NoFont => f.write_str("there is no font"),
            SignCause::FifthFont => f.write_str("there are more than four fonts"),
            SignCause::FontTwice(number) => write!(f, "two fonts have the number {number}"),
            SignCause::Background(number) => write!(
                f,
                "the default background {number} is no colour"
            ),
            SignCause::Foreground(number) => write!(
                f,
                "the default foreground {number} is no colour"
            ),
            SignCause::Line(number) => write!(f, "the default line justification {number} is none"),
            SignCause::Page(number) => write!(f, "the default page justification {number} is none"),
            SignCause::Font(number) => write!(f, "the default font {number} is none of the face's"),
            SignCause::Reader => f.write_str("the first community has not 1 to 32 octets"),
            SignCause::Writer => f.write_str("the second community has not 1 to 32 octets"),
            SignCause::SameCommunities => f.write_str("both communities are the same"),
            SignCause::PermanentRows => f.write_str("there are more than 16 permanent rows"),
            SignCause::ChangeableRows => f.write_str("there are more than 64 changeable rows"),
            SignCause::VolatileRows => f.write_str("there are more than 16 volatile rows"),
            SignCause::Row(number, cause) => write!(f, "permanent row {number}: {cause}"),
        }
    }
}
