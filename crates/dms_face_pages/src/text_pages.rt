//! The pages of a text.

ghost use Rattle.std.specs.Prelude.{◌≡◌, ◌<◌, ◌≤◌, length, map, true, None, Err, IsTrue, IfOk, OnErr};
ghost use Rattle.std.specs.List.{list_all};
ghost use Rattle.dms_face_pages.specs.declared.text_pages.PagesFault.TheVariants.{Multi, Memory};
ghost use Rattle.dms_codes.specs.Limits.{longest_text};
ghost use Rattle.dms_face.specs.FaultCode.{syntax_fault};
ghost use Rattle.dms_face.specs.Face.{fit};
ghost use Rattle.dms_face.specs.Layout.{PageModel, under};
ghost use Rattle.dms_face.specs.Room.{page_fits};
ghost use Rattle.dms_face.specs.Fit.{fault_of};
ghost use Rattle.dms_face_pages.specs.Drawn.{drawn, drawn_text};
ghost use Rattle.dms_face_pages.specs.DrawnView.{GivesPages};
ghost use Rattle.dms_face_pages.specs.Styles.{has_room_for_styles};
ghost use Rattle.dms_face_pages.specs.Laid.{GivesLaid};

use crate::page::Page;
use crate::text_layout::{TextLayout, TextPage};
use dms_codes::MAX_TEXT;
use dms_face::{Defaults, Face, MultiFault, Totals, check_with};
use dms_multi::{SyntaxFault, items};
use std::alloc::{AllocError, Global};
use std::error::Error;
use std::fmt;

/// Why there are no pages.
#[derive(Clone, Copy, Debug, PartialEq, Eq)]
pub enum PagesFault {
    /// The text's fault.
    Multi(MultiFault),
    /// No memory for the pages.
    Memory,
}

impl From<MultiFault> for PagesFault {
    ghost from_gives = { λ fault made. made ≡ Multi fault };

    fn from(multi_fault: MultiFault) -> PagesFault {
        PagesFault::Multi(multi_fault)
    }
}

impl From<SyntaxFault> for PagesFault {
    ghost from_gives = { λ fault made. made ≡ Multi (syntax_fault fault) };

    fn from(fault: SyntaxFault) -> PagesFault {
        PagesFault::Multi(MultiFault::from(fault))
    }
}

impl From<AllocError> for PagesFault {
    ghost from_gives = { λ _ fault. fault ≡ Memory };

    fn from(_: AllocError) -> PagesFault {
        PagesFault::Memory
    }
}

impl fmt::Display for PagesFault {
    ghost use Rattle.std.specs.Prelude.{Some};
    ghost use Rattle.dms_face_pages.specs.FaultTexts.{pages_fault_text};

    ghost output = { λ fault. Some (pages_fault_text fault) };

    fn fmt<W: fmt::Write>(&self, f: &mut fmt::Formatter<W>) -> fmt::Result {
        match self {
            PagesFault::Multi(fault) => write!(f, "{fault}"),
            PagesFault::Memory => f.write_str("out of memory"),
        }
    }
}

impl Error for PagesFault {}

/// The pages of a text, as lines of characters, or its fault, by one walk: each item is judged, and then laid out.
fn laid_out<'a>(
    alloc: Global,
    face: &'a Face,
    defaults: &Defaults,
    text: &[u8],
) -> Result<Vec<TextPage<'a>>, PagesFault>
    requires short { length text.now ≤ longest_text }
    requires fit { IsTrue (fit face.now.fonts defaults.now) }
    ensures { GivesLaid (λ pages. pages.items) result (under face.now defaults.now) text.now }
{
    let mut totals = Totals::new(face, defaults);
    let mut layout = TextLayout::blank(alloc, face, defaults);
    for outcome in items(text) {
        let spot = outcome?;
        if let Some(code) = totals.take(face, defaults, spot.item) {
            let place = spot.first;
            return Err(PagesFault::Multi(MultiFault { code, place }));
        }
        layout.add(alloc, face, defaults, spot.item)?;
    }
    if let Some(code) = totals.end_fault(face) {
        let place = text.len();
        return Err(PagesFault::Multi(MultiFault { code, place }));
    }
    layout.close_page(alloc)?;
    Ok(layout.into_pages())
}

/// The pages of a text of any length, as lines of characters, or its fault. A walk that runs out of memory has not read
/// the rest of the text: a fault there is reported before out of memory.
fn laid_text<'a>(
    alloc: Global,
    face: &'a Face,
    defaults: &Defaults,
    text: &[u8],
) -> Result<Vec<TextPage<'a>>, PagesFault>
    requires { IsTrue (fit face.now.fonts defaults.now) }
    ensures laid { GivesLaid (λ pages. pages.items) result (under face.now defaults.now) text.now }
    ensures memory { result ≡ Err Memory → fault_of (under face.now defaults.now) text.now ≡ None }
{
    if text.len() > MAX_TEXT {
        return Err(PagesFault::Multi(MultiFault::TOO_LONG));
    }
    match laid_out(alloc, face, defaults, text) {
        Ok(pages) => Ok(pages),
        Err(PagesFault::Multi(fault)) => Err(PagesFault::Multi(fault)),
        Err(PagesFault::Memory) => {
            check_with(face, defaults, text)?;
            Err(PagesFault::Memory)
        }
    }
}

/// Pages of lines that fit, drawn. There is no memory for them only where there are some.
fn drawn_pages(alloc: Global, face: &Face, laid: &[TextPage<'_>]) -> Result<Vec<Page>, AllocError>
    requires fit { list_all (λ (page : PageModel). page_fits face.now page.lines) laid.now ≡ true }
    requires styles { list_all has_room_for_styles laid.now ≡ true }
    ensures pages { IfOk result (λ pages. pages.items ≡ map (drawn face.now) laid.now) }
    ensures memory { OnErr result (0 < length laid.now) }
{
    let mut pages = Vec::new(alloc);
    for page in laid {
        pages.push(Page::drawn(alloc, face, page)?)?;
    }
    Ok(pages)
}

/// The pages of a text, or its fault, where these defaults hold in place of the face's own. They must fit the face.
pub fn pages_with(
    alloc: Global,
    face: &Face,
    defaults: &Defaults,
    text: &[u8],
) -> Result<Vec<Page>, PagesFault>
    requires { IsTrue (fit face.now.fonts defaults.now) }
    ensures { GivesPages (λ pages. pages.items) result (drawn_text (under face.now defaults.now) text.now) }
{
    let laid = laid_text(alloc, face, defaults, text)?;
    let pages = drawn_pages(alloc, face, laid.as_slice())?;
    Ok(pages)
}

/// The pages of a text, or its fault, where the face's own defaults hold.
pub fn pages(alloc: Global, face: &Face, text: &[u8]) -> Result<Vec<Page>, PagesFault>
    ensures { GivesPages (λ pages. pages.items) result (drawn_text face.now text.now) }
{
    pages_with(alloc, face, &face.defaults(), text)
}
