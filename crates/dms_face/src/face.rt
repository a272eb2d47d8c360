//! The face of a sign: its matrix, its fonts and its defaults.

ghost use Rattle.std.specs.Prelude.{◌≡◌, ◌≤◌, IsTrue, ◌↔◌, All};
ghost use Rattle.std.specs.Option.{option_copied};
ghost use Rattle.dms_face_font.specs.Font.{IsFont};
ghost use Rattle.dms_codes.specs.Limits.{widest_matrix, highest_matrix};
ghost use Rattle.dms_face.specs.Face.{font_in, font_of, has_font, have_own_numbers};
ghost use Rattle.dms_face.specs.Face.{is_within, is_matrix, are_fonts, fit, checked, IsFace};

use crate::defaults::Defaults;
use crate::fault::FaceFault;
use dms_codes::{MAX_MATRIX_HEIGHT, MAX_MATRIX_WIDTH};
use dms_face_font::Font;
use dms_face_font::laws::fonts_are_within_their_limits;
use std::marker::Model;

/// The most fonts of a sign.
pub const MAX_FONTS: usize = 4;

/// What a sign is made with.
#[derive(Debug, Drop)]
pub struct Face {
    width: u16,
    height: u16,
    fonts: Vec<Font>,
    defaults: Defaults,
}

impl Model for Face {
    ghost use Rattle.dms_face.specs.Face.{FaceModel, IsFace};

    ghost Value = { FaceModel };

    ghost view = { λ f. record { width = f.width; height = f.height; fonts = f.fonts.items; defaults = f.defaults } };

    ghost invariant = { λ f. IsFace
        (record { width = f.width; height = f.height; fonts = f.fonts.items; defaults = f.defaults }) };
}

impl Face {
    /// The face of a matrix of these columns and rows, or the first thing that is wrong with it: its size, its fonts,
    /// its defaults.
    pub fn new(
        width: u16,
        height: u16,
        fonts: Vec<Font>,
        defaults: Defaults,
    ) -> Result<Face, FaceFault>
        ensures { result
            ≡ checked (record { width = width; height = height; fonts = fonts.items; defaults = defaults }) }
    {
        if !is_matrix(width, height) {
            return Err(FaceFault::Size);
        }
        if !are_fonts(fonts.as_slice()) {
            return Err(FaceFault::Fonts);
        }
        if !defaults.fit(fonts.as_slice()) {
            return Err(FaceFault::Default);
        }
        Ok(Face {
            width,
            height,
            fonts,
            defaults,
        })
    }

    /// The face is within its limits.
    pub(crate) fn limits(&self)
        ensures { IsFace self.now }
    {
        let _ = &self.fonts;
    }

    /// The columns of the matrix, 1 to 256.
    pub fn width(&self) -> u16
        ensures value { result ≡ self.now.width }
        ensures most { result ≤ widest_matrix }
    {
        self.width
    }

    /// The rows of the matrix, 1 to 64.
    pub fn height(&self) -> u16
        ensures value { result ≡ self.now.height }
        ensures most { result ≤ highest_matrix }
    {
        self.height
    }

    /// The defaults of the face, which fit it.
    pub fn defaults(&self) -> Defaults
        ensures value { result ≡ self.now.defaults }
        ensures fit { IsTrue (fit self.now.fonts result) }
    {
        self.defaults
    }

    /// The fonts of the face, one to four, in the order in which it was made with them.
    pub fn fonts(&self) -> &[Font]
        ensures { result.now ≡ self.now.fonts }
    {
        self.fonts.as_slice()
    }

    /// The font of a number, where the face has it.
    pub fn font(&self, number: u8) -> Option<&Font>
        ensures { option_copied result ≡ font_of self.now number }
    {
        find_font(self.fonts(), number)
    }
}

impl Defaults {
    /// Whether each default is in its range, and the default font one of the face's.
    pub fn fits(&self, face: &Face) -> bool
        ensures { IsTrue result ↔ IsTrue (fit face.now.fonts self.now) }
    {
        self.fit(face.fonts())
    }

    fn fit(&self, fonts: &[Font]) -> bool
        ensures { result ≡ fit fonts.now self.now }
    {
        self.background <= 9
            && self.foreground <= 9
            && is_within(2, 4, self.line)
            && is_within(2, 4, self.page)
            && has_font(fonts, self.font)
    }
}

fn is_within(low: u8, high: u8, number: u8) -> bool
    ensures { result ≡ is_within low high number }
{
    low <= number && number <= high
}

fn is_matrix(width: u16, height: u16) -> bool
    ensures { result ≡ is_matrix width height }
{
    1 <= width && width <= MAX_MATRIX_WIDTH && 1 <= height && height <= MAX_MATRIX_HEIGHT
}

fn has_font(fonts: &[Font], number: u8) -> bool
    ensures { result ≡ has_font fonts.now number }
{
    fonts.iter().any(|font| font.number() == number)
}

fn find_font(fonts: &[Font], number: u8) -> Option<&Font>
    ensures { option_copied result ≡ font_in fonts.now number }
{
    fonts.iter().find(|font| font.number() == number)
}

fn are_fonts(fonts: &[Font]) -> bool
    ensures value { result ≡ are_fonts fonts.now }
    ensures limits { IsTrue result → All IsFont fonts.now }
{
    1 <= fonts.len() && fonts.len() <= MAX_FONTS && have_own_numbers(fonts)
}

fn have_own_numbers(fonts: &[Font]) -> bool
    ensures value { result ≡ have_own_numbers fonts.now }
    ensures limits { IsTrue result → All IsFont fonts.now }
{
    match fonts.split_first() {
        None => true,
        Some((font, others)) => {
            fonts_are_within_their_limits(font);
            !has_font(others, font.number()) && have_own_numbers(others)
        }
    }
}
