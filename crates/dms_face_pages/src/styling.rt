//! What the items of a text say of all that follows them.

ghost use Rattle.std.specs.Prelude.{◌≡◌, IsTrue};
ghost use Rattle.dms_face.specs.Face.{fit};
ghost use Rattle.dms_face.specs.Layout.{under, first_style, styled};
ghost use Rattle.dms_face_pages.specs.StylingView.{style_of};

use dms_face::{Defaults, Face, Flash, Font, Part, Side};
use dms_multi::Item;

/// What the items so far say of all that follows them: the font, the colour and the flash of characters, their side of
/// the line, the part of the page where lines stand, and the page's background and times.
#[derive(Clone, Copy)]
pub struct Styling<'a> {
    pub font: &'a Font,
    pub foreground: u8,
    pub flash: Option<Flash>,
    pub side: Side,
    pub part: Part,
    pub background: u8,
    pub on: u8,
    pub off: u8,
}

impl<'a> Styling<'a> {
    /// What holds before a text's first item.
    pub fn first(face: &'a Face, defaults: &Defaults) -> Styling<'a>
        requires { IsTrue (fit face.now.fonts defaults.now) }
        ensures { style_of result ≡ first_style (under face.now defaults.now) }
    {
        Styling {
            font: face.font(defaults.font).unwrap(),
            foreground: defaults.foreground,
            flash: None,
            side: Side::of_number(defaults.line),
            part: Part::of_number(defaults.page),
            background: defaults.background,
            on: defaults.on,
            off: defaults.off,
        }
    }

    /// What holds after an item. A value that is missing is the default.
    pub fn after(self, face: &'a Face, defaults: &Defaults, item: Item) -> Styling<'a>
        ensures { style_of result ≡ styled (under face.now defaults.now) (style_of self.entry) item }
    {
        let mut style = self;
        match item {
            Item::Background(colour) => style.background = colour.unwrap_or(defaults.background),
            Item::Foreground(colour) => style.foreground = colour.unwrap_or(defaults.foreground),
            Item::Font(None) => style.font = face.font(defaults.font).unwrap_or(style.font),
            Item::Font(Some((number, _))) => style.font = face.font(number).unwrap_or(style.font),
            Item::FlashOn { first, lit, dark } => {
                style.flash = Some(Flash {
                    first,
                    lit: lit.unwrap_or(defaults.flash_on),
                    dark: dark.unwrap_or(defaults.flash_off),
                });
            }
            Item::FlashEnd => style.flash = None,
            Item::JustLine(side) => style.side = Side::of_number(side.unwrap_or(defaults.line)),
            Item::JustPage(part) => style.part = Part::of_number(part.unwrap_or(defaults.page)),
            Item::PageTime { lit, dark } => {
                style.on = lit.unwrap_or(defaults.on);
                style.off = dark.unwrap_or(defaults.off);
            }
            Item::Char(_) | Item::NewLine(_) | Item::NewPage => {}
        }
        style
    }
}
