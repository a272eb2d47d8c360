//! Places of instances of the fonts' objects.

use dms_face_font::{Font, Glyph};
/// A table of the fonts' objects.
#[derive(Clone, Copy, Debug, PartialEq, Eq)]
pub(crate) enum FontTable {
    /// fontTable: a row for each font.
    Fonts,
    /// characterTable: a row for each character of each font.
    Characters,
}

/// Which row of a font it is.
#[derive(Clone, Copy)]
pub(crate) enum End<'a> {
    OfFont,
    OfCharacter(&'a Glyph),
}

/// A row of a table: of the font with this index, from 1.
#[derive(Clone, Copy)]
pub(crate) struct FontRow<'a> {
    pub index: usize,
    pub font: &'a Font,
    pub end: End<'a>,
}

/// A cell of a table: a column and a row.
#[derive(Clone, Copy)]
pub(crate) struct FontCell<'a> {
    pub column: usize,
    pub row: FontRow<'a>,
}

/// Where an instance stands.
#[derive(Clone, Copy)]
pub(crate) enum FontPlace<'a> {
    /// The only instance of an object.
    OfScalar(usize),
    /// A cell of the table with this number.
    OfCell(usize, FontCell<'a>),
}
