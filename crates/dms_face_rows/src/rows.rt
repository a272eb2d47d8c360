//! A row of a page of a text, put in a buffer.

ghost use Rattle.std.specs.Prelude.{◌≡◌, ◌≤◌, ◌<◌, ◌++◌, length, drop, true, false, None, IsTrue};
ghost use Rattle.std.specs.Prelude.{slice_index_or};
ghost use Rattle.std.specs.Option.{option_map};
ghost use Rattle.dms_codes.specs.Limits.{widest_matrix};
ghost use Rattle.dms_face.specs.Face.{fit};
ghost use Rattle.dms_face.specs.Layout.{under};
ghost use Rattle.dms_face.specs.Room.{page_fits};
ghost use Rattle.dms_face.specs.Fit.{fault_of, page_count};
ghost use Rattle.dms_face_pages.specs.Drawn.{unlit, drawn, drawn_text};
ghost use Rattle.dms_face_pages.specs.Drawing.{lines_characters};
ghost use Rattle.dms_face_pages.specs.PageOctets.{cell_octet, lit_mark, row_octets};
ghost use Rattle.dms_face_rows.specs.Held.{lines_of, page_held, page_of_text, IsHeld};
ghost use Rattle.dms_face_rows.specs.Drawing.{Shows, cells_octets};
ghost use Rattle.dms_face_rows.specs.Rows.{page_numbered, row_numbered, put_in};

use crate::held::HeldPage;
use dms_codes::MAX_MATRIX_WIDTH;
use dms_face::{Cell, Defaults, Face, Flash, check_with};
use dms_face_pages::Layer;
use dms_multi::Lead;

/// The cells of a row of the widest matrix.
const MAX_CELLS: usize = MAX_MATRIX_WIDTH as usize;

fn lit_mark(flash: Option<Flash>) -> u8
    ensures mark { result ≡ lit_mark flash }
    ensures small { result ≤ 112 }
{
    match flash {
        None => 16,
        Some(flash) => match flash.first {
            Lead::Lit => 48,
            Lead::Dark => 112,
        },
    }
}

/// What a layer says of a cell.
fn cell_octet(layer: Layer, cell: Cell) -> u8
    ensures { result ≡ cell_octet layer cell }
{
    match (layer, cell.flash) {
        (Layer::Look, flash) if cell.lit => cell.colour % 16 + lit_mark(flash),
        (Layer::Look, _) => cell.colour % 16,
        (_, None) => 0,
        (Layer::LitTime, Some(flash)) => flash.lit,
        (Layer::DarkTime, Some(flash)) => flash.dark,
    }
}

/// What a layer says of one of these cells.
fn octet_at(layer: Layer, cells: &[Cell], x: usize) -> u8
    requires { x < length cells.now }
    ensures { result ≡ cell_octet layer (slice_index_or cells.now x (unlit 0)) }
{
    cell_octet(layer, cells[x])
}

/// Puts what a layer says of the first cells in a buffer.
fn put_octets(layer: Layer, cells: &[Cell], count: usize, octets: &mut [u8])
    requires cells { count ≤ length cells.now }
    requires room { count ≤ length octets.old }
    ensures { octets.new ≡ cells_octets layer cells.now count ++ drop count octets.old }
{
    for x in 0..count {
        octets[x] = octet_at(layer, cells, x);
    }
}

/// What the cells of row y of a page show: those of the matrix stand first.
#[tactic(auto, using(crate::proofs::OctetLaws::unlit_shows))]
fn row_cells(face: &Face, page: &HeldPage<'_>, y: u16) -> [Cell; MAX_CELLS]
    requires held { IsHeld page.now }
    requires room { page_fits face.now (lines_of page.now) ≡ true }
    ensures len { length result ≡ widest_matrix }
    ensures shows { Shows (page_held page.now) y (lines_characters face.now (lines_of page.now)) result }
{
    let unlit = Cell {
        lit: false,
        colour: page.style.background,
        flash: None,
    };
    let mut cells = [unlit; MAX_CELLS];
    page.draw(&mut cells, u32::from(y), face);
    cells
}

/// Whether a text can be shown, and has a page with this number from 0.
#[tactic(auto, using(crate::proofs::OctetLaws::numbering))]
fn has_page(face: &Face, defaults: &Defaults, text: &[u8], number: usize) -> bool
    requires { IsTrue (fit face.now.fonts defaults.now) }
    ensures shown { result ≡ true → fault_of (under face.now defaults.now) text.now ≡ None }
    ensures page { result ≡ true → number < page_count text.now }
    ensures none { result ≡ false → page_numbered number (drawn_text (under face.now defaults.now) text.now) ≡ None }
{
    match check_with(face, defaults, text) {
        Ok(count) => number < count,
        Err(_) => false,
    }
}

/// Puts row y of a page of a text, which there is, in a buffer that has room for it.
fn put_numbered(
    face: &Face,
    defaults: &Defaults,
    text: &[u8],
    number: usize,
    y: u16,
    layer: Layer,
    octets: &mut [u8],
)
    requires fit { IsTrue (fit face.now.fonts defaults.now) }
    requires shown { fault_of (under face.now defaults.now) text.now ≡ None }
    requires page { number < page_count text.now }
    requires row { y < face.now.height }
    requires space { face.now.width ≤ length octets.old }
    ensures { octets.new
        ≡ row_octets layer (drawn face.now (page_of_text (under face.now defaults.now) number text.now)) y
        ++ drop face.now.width octets.old }
{
    let mut page = HeldPage::blank(face, defaults);
    page.lay_out(face, defaults, text, number);
    let cells = row_cells(face, &page, y);
    put_octets(layer, &cells, usize::from(face.width()), octets);
}

/// Puts row `y` of the page `number` of a text in a buffer, both from 0: an octet for each cell from the left, which
/// says what `layer` names. Returns how many they are; a buffer that has no room for them stays as it is. There is no
/// row where the text cannot be shown, or has no such page, or the matrix no such row. These defaults hold in place of
/// the face's own, and must fit the face. No memory is taken: the page is laid out on the stack.
#[tactic(auto, using(crate::proofs::OctetLaws::putting))]
pub fn put_row(
    face: &Face,
    defaults: &Defaults,
    text: &[u8],
    number: usize,
    y: u16,
    layer: Layer,
    octets: &mut [u8],
) -> Option<usize>
    requires { IsTrue (fit face.now.fonts defaults.now) }
    ensures size { result ≡ option_map length
        (row_numbered layer y (page_numbered number (drawn_text (under face.now defaults.now) text.now))) }
    ensures octets { octets.new ≡ put_in
        (row_numbered layer y (page_numbered number (drawn_text (under face.now defaults.now) text.now))) octets.old }
{
    if !has_page(face, defaults, text, number) {
        return None;
    }
    if y >= face.height() {
        return None;
    }
    let width = usize::from(face.width());
    if width <= octets.len() {
        put_numbered(face, defaults, text, number, y, layer, octets);
    }
    Some(width)
}
