//! What holds where a text says nothing else.

/// The nine defaults of a sign, in the order of their objects.
#[derive(Clone, Copy, Debug, PartialEq, Eq)]
pub struct Defaults {
    /// The colour of a page.
    pub background: u8,
    /// The colour of characters.
    pub foreground: u8,
    /// The lit time of a flash, in tenths of a second.
    pub flash_on: u8,
    /// The dark time of a flash, in tenths of a second.
    pub flash_off: u8,
    /// The number of a font.
    pub font: u8,
    /// Where a line's characters stand: 2 left, 3 centre, 4 right.
    pub line: u8,
    /// Where a page's lines stand: 2 top, 3 middle, 4 bottom.
    pub page: u8,
    /// How long a page is shown, in tenths of a second.
    pub on: u8,
    /// How long nothing is shown after a page, in tenths of a second.
    pub off: u8,
}
