//! A character's picture.

ghost use Rattle.std.specs.Prelude.{◌≡◌, ℕ, ◌+◌, ◌*◌, ◌/◌, ◌<◌, ◌≤◌, true, length, take, drop, map};
ghost use Rattle.dms_face_font.specs.Glyph.{lit_at, is_bit, bits_of, rows_of, row_number, glyph_from, IsPicture};
ghost use Rattle.std.specs.Int.Digits.{AllBelowBase};
ghost use Rattle.dms_face_font.specs.Glyph.{bitmap_octets, octets_holding};
ghost use Rattle.dms_face_font.specs.Held.{left_of, AreHeld};
ghost use Rattle.dms_face_font.specs.Font.{IsGlyph};

use std::marker::Model;

/// The most columns of a picture.
pub const MAX_WIDTH: u8 = 32;

/// The most rows of a picture.
const MAX_HEIGHT: usize = 32;

/// A character of a font, 1 to 65535, with its picture.
#[derive(Debug, Drop)]
pub struct Glyph {
    character: u16,
    width: u8,
    height: u8,
    /// The rows of the picture from the top: the lowest bit of each is its first column from the left.
    rows: [u32; MAX_HEIGHT],
    /// The bits of the picture, row by row, the high bit of each octet first, and zeros after the last.
    bitmap: Vec<u8>,
}

impl Model for Glyph {
    ghost use Rattle.std.specs.Prelude.{take};
    ghost use Rattle.dms_face_font.specs.Glyph.{GlyphModel, glyph_of_rows, AreRows};

    ghost Value = { GlyphModel };

    ghost view = { λ g. glyph_of_rows g.character g.width (take g.height g.rows) };

    ghost invariant = { λ g. AreRows g.character g.width g.height (take g.height g.rows) g.bitmap.items };
}

impl Glyph {
    /// A picture of this width and height, whose bits these octets are, row by row, the high bit of each octet first.
    pub(crate) fn new(character: u16, width: u8, height: u8, bits: Vec<u8>) -> Glyph
        requires { IsPicture character width height bits.items }
        ensures value { result ≡ glyph_from character width height bits.items }
        ensures limits { IsGlyph height result }
    {
        let mut rows = [0; MAX_HEIGHT];
        put_rows(width, height, bits.as_slice(), &mut rows);
        let count = usize::from(width) * usize::from(height);
        Glyph {
            character,
            width,
            height,
            rows,
            bitmap: cleared(bits, count),
        }
    }

    /// The character's number, 1 to 65535.
    pub fn character(&self) -> u16
        ensures value { result ≡ self.now.character }
        ensures least { 1 ≤ result }
    {
        self.character
    }

    /// The columns of the picture, 1 to 32.
    pub fn width(&self) -> u8
        ensures value { result ≡ self.now.width }
        ensures least { 1 ≤ result }
        ensures greatest { result ≤ 32 }
    {
        self.width
    }

    /// The rows of the picture, 1 to 32: the height of its font.
    pub fn height(&self) -> u8
        ensures rows { result ≡ length self.now.rows }
        ensures inside { (column row : ℕ) → lit_at self.now column row ≡ true → column < self.now.width × row < result }
        ensures least { 1 ≤ result }
        ensures greatest { result ≤ 32 }
    {
        self.height
    }

    /// A row of the picture, from 0 at the top, as a number: its lowest bit is the first column from the left.
    #[inline]
    pub fn row(&self, row: usize) -> u32
        ensures { (column : ℕ) → is_bit result column ≡ lit_at self.now column row }
    {
        if row < usize::from(self.height) {
            self.rows[row]
        } else {
            0
        }
    }

    /// Whether the picture has a bit in this column and row, from 0: there is none outside of it.
    pub fn is_lit(&self, column: usize, row: usize) -> bool
        ensures { result ≡ lit_at self.now column row }
    {
        let bits = self.row(row);
        if column >= usize::from(MAX_WIDTH) {
            return false;
        }
        bits >> column & 1 == 1
    }

    /// The octets of the picture (characterBitmap): its bits row by row from the top, the high bit of each octet first,
    /// and zeros after the last.
    pub fn bitmap(&self) -> &[u8]
        ensures { result.now ≡ bitmap_octets self.now }
    {
        self.bitmap.as_slice()
    }
}

/// Octets are below 256: for the proof alone, nothing runs.
#[inline]
fn are_octets(octets: &[u8])
    ensures { AllBelowBase 256 octets.now }
{}

/// The octets of this many bits, with zeros after the last.
fn cleared(octets: Vec<u8>, count: usize) -> Vec<u8>
    requires enough { length octets.items ≡ (count + 7) / 8 }
    requires some { 1 ≤ count }
    requires small { count ≤ 1024 }
    ensures { result.items ≡ octets_holding (take count (bits_of octets.items)) }
{
    are_octets(octets.as_slice());
    let mut octets = octets;
    let last = octets.len() - 1;
    let padding = 8 * octets.len() - count;
    octets[last] = octets[last] >> padding << padding;
    octets
}

/// For each octet the number whose lowest bit is its high one.
const REVERSED: [u8; 256] = [
    0x00, 0x80, 0x40, 0xc0, 0x20, 0xa0, 0x60, 0xe0, 0x10, 0x90, 0x50, 0xd0, 0x30, 0xb0, 0x70, 0xf0,
    0x08, 0x88, 0x48, 0xc8, 0x28, 0xa8, 0x68, 0xe8, 0x18, 0x98, 0x58, 0xd8, 0x38, 0xb8, 0x78, 0xf8,
    0x04, 0x84, 0x44, 0xc4, 0x24, 0xa4, 0x64, 0xe4, 0x14, 0x94, 0x54, 0xd4, 0x34, 0xb4, 0x74, 0xf4,
    0x0c, 0x8c, 0x4c, 0xcc, 0x2c, 0xac, 0x6c, 0xec, 0x1c, 0x9c, 0x5c, 0xdc, 0x3c, 0xbc, 0x7c, 0xfc,
    0x02, 0x82, 0x42, 0xc2, 0x22, 0xa2, 0x62, 0xe2, 0x12, 0x92, 0x52, 0xd2, 0x32, 0xb2, 0x72, 0xf2,
    0x0a, 0x8a, 0x4a, 0xca, 0x2a, 0xaa, 0x6a, 0xea, 0x1a, 0x9a, 0x5a, 0xda, 0x3a, 0xba, 0x7a, 0xfa,
    0x06, 0x86, 0x46, 0xc6, 0x26, 0xa6, 0x66, 0xe6, 0x16, 0x96, 0x56, 0xd6, 0x36, 0xb6, 0x76, 0xf6,
    0x0e, 0x8e, 0x4e, 0xce, 0x2e, 0xae, 0x6e, 0xee, 0x1e, 0x9e, 0x5e, 0xde, 0x3e, 0xbe, 0x7e, 0xfe,
    0x01, 0x81, 0x41, 0xc1, 0x21, 0xa1, 0x61, 0xe1, 0x11, 0x91, 0x51, 0xd1, 0x31, 0xb1, 0x71, 0xf1,
    0x09, 0x89, 0x49, 0xc9, 0x29, 0xa9, 0x69, 0xe9, 0x19, 0x99, 0x59, 0xd9, 0x39, 0xb9, 0x79, 0xf9,
    0x05, 0x85, 0x45, 0xc5, 0x25, 0xa5, 0x65, 0xe5, 0x15, 0x95, 0x55, 0xd5, 0x35, 0xb5, 0x75, 0xf5,
    0x0d, 0x8d, 0x4d, 0xcd, 0x2d, 0xad, 0x6d, 0xed, 0x1d, 0x9d, 0x5d, 0xdd, 0x3d, 0xbd, 0x7d, 0xfd,
    0x03, 0x83, 0x43, 0xc3, 0x23, 0xa3, 0x63, 0xe3, 0x13, 0x93, 0x53, 0xd3, 0x33, 0xb3, 0x73, 0xf3,
    0x0b, 0x8b, 0x4b, 0xcb, 0x2b, 0xab, 0x6b, 0xeb, 0x1b, 0x9b, 0x5b, 0xdb, 0x3b, 0xbb, 0x7b, 0xfb,
    0x07, 0x87, 0x47, 0xc7, 0x27, 0xa7, 0x67, 0xe7, 0x17, 0x97, 0x57, 0xd7, 0x37, 0xb7, 0x77, 0xf7,
    0x0f, 0x8f, 0x4f, 0xcf, 0x2f, 0xaf, 0x6f, 0xef, 0x1f, 0x9f, 0x5f, 0xdf, 0x3f, 0xbf, 0x7f, 0xff,
];

/// Bits that are read from the first: those that are held, the lowest one first, and the octets behind them, the high
/// bit of each first.
#[derive(Drop)]
struct HeldBits<'a> {
    held: u64,
    /// How many bits are held.
    count: u32,
    octets: &'a [u8],
}

/// Holds the bits of one octet more.
#[inline]
fn hold_octet(bits: &mut HeldBits<'_>)
    requires held { AreHeld bits.old }
    requires few { bits.old.count < 32 }
    requires some { 1 ≤ length bits.old.octets.now }
    ensures left { left_of bits.new ≡ left_of bits.old }
    ensures held { AreHeld bits.new }
    ensures more { bits.new.count ≡ bits.old.count + 8 }
{
    let digit = REVERSED[usize::from(bits.octets[0])];
    bits.held += u64::from(digit) << bits.count;
    bits.count += 8;
    bits.octets = &bits.octets[1..];
}

/// Holds octets until there are so many bits.
#[inline]
fn hold(bits: &mut HeldBits<'_>, width: u32)
    requires held { AreHeld bits.old }
    requires width { width ≤ 32 }
    requires room { width ≤ length (left_of bits.old) }
    ensures left { left_of bits.new ≡ left_of bits.old }
    ensures held { AreHeld bits.new }
    ensures enough { width ≤ bits.new.count }
{
    'octets: while bits.count < width {
        hold_octet(bits);
    }
}

/// Takes so many bits, as a number.
#[inline]
fn take_row(bits: &mut HeldBits<'_>, width: u32) -> u32
    requires held { AreHeld bits.old }
    requires width { width ≤ 32 }
    requires room { width ≤ length (left_of bits.old) }
    ensures row { result ≡ row_number (take width (left_of bits.old)) }
    ensures left { left_of bits.new ≡ drop width (left_of bits.old) }
    ensures held { AreHeld bits.new }
{
    hold(bits, width);
    let row = bits.held % (1 << width);
    bits.held >>= width;
    bits.count -= width;
    row as u32
}

/// Puts the rows of a picture whose bits these octets are, as numbers.
fn put_rows(width: u8, height: u8, bits: &[u8], rows: &mut [u32; MAX_HEIGHT])
    requires width { width ≤ 32 }
    requires height { height ≤ 32 }
    requires room { width * height ≤ 8 * length bits.now }
    ensures { take height rows.new ≡ map row_number (rows_of width height (bits_of bits.now)) }
{
    let width = u32::from(width);
    let mut left = HeldBits {
        held: 0,
        count: 0,
        octets: bits,
    };
    for row in 0..usize::from(height) {
        rows[row] = take_row(&mut left, width);
    }
}
