//! What one lamp of the matrix shows.

use dms_multi::Lead;

/// How a character flashes: its two times, in tenths of a second, and with which of them it begins.
#[derive(Clone, Copy, Debug, PartialEq, Eq)]
pub struct Flash {
    /// Whether it begins lit or dark.
    pub first: Lead,
    /// How long it is lit, in tenths of a second.
    pub lit: u8,
    /// How long it is dark, in tenths of a second.
    pub dark: u8,
}

/// One cell of a page: lit by a character, with its colour and flash, or unlit, with the page's background.
#[derive(Clone, Copy, Debug, PartialEq, Eq)]
pub struct Cell {
    /// Whether a character lights it.
    pub lit: bool,
    /// The character's foreground where it is lit, else the page's background: 0 to 9, as MULTI numbers colours.
    pub colour: u8,
    /// How the character flashes; none where it does not, or where the cell is unlit.
    pub flash: Option<Flash>,
}
