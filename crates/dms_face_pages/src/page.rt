//! A text's page, with all its cells.

ghost use Rattle.std.specs.Prelude.{◌≡◌, ◌<◌, true, IfOk};
ghost use Rattle.dms_face.specs.Face.{FaceModel};
ghost use Rattle.dms_face.specs.Layout.{PageModel};
ghost use Rattle.dms_face.specs.Room.{page_fits};
ghost use Rattle.dms_face.specs.Cells.{cell_of};
ghost use Rattle.dms_face_pages.specs.Drawn.{DrawnPage, cell_at, drawn};
ghost use Rattle.dms_face_pages.specs.Styles.{has_room_for_styles};

use crate::cells::Cells;
use crate::drawing::{add_lines, draw_lines};
use crate::text_layout::TextPage;
use dms_face::{Cell, Face};
use std::alloc::{AllocError, Global};
use std::marker::Model;

/// A page: its background, its times, and what each cell of the matrix shows.
#[derive(Debug, Drop)]
pub struct Page {
    width: u16,
    height: u16,
    background: u8,
    on: u8,
    off: u8,
    /// The cells, row by row from the top, each row from the left.
    cells: Cells,
}

impl Model for Page {
    ghost use Rattle.std.specs.Prelude.{◌≡◌, ◌*◌, length};
    ghost use Rattle.dms_face_pages.specs.Drawn.{DrawnPage};

    ghost Value = { DrawnPage };

    ghost view = { λ p. record {
      width = p.width;
      height = p.height;
      background = p.background;
      on = p.on;
      off = p.off;
      cells = p.cells.cells;
    } };

    ghost invariant = { λ p. length p.cells.cells ≡ p.width * p.height };
}

impl Page {
    /// A page of lines that fit, drawn.
    pub(crate) fn drawn(alloc: Global, face: &Face, page: &TextPage<'_>) -> Result<Page, AllocError>
        requires fits { page_fits face.now page.now.lines ≡ true }
        requires styles { has_room_for_styles page.now ≡ true }
        ensures { IfOk result (λ (made : DrawnPage). made ≡ drawn face.now page.now) }
    {
        let count = usize::from(face.width()) * usize::from(face.height());
        let mut cells = Cells::dark(alloc, page.background, count)?;
        add_lines(&mut cells, page.lines.as_slice())?;
        draw_lines(&mut cells, face, page.lines.as_slice());
        Ok(Page {
            width: face.width(),
            height: face.height(),
            background: page.background,
            on: page.on,
            off: page.off,
            cells,
        })
    }

    /// The columns of the matrix.
    pub fn width(&self) -> u16
        ensures { result ≡ self.now.width }
    {
        self.width
    }

    /// The rows of the matrix.
    pub fn height(&self) -> u16
        ensures { result ≡ self.now.height }
    {
        self.height
    }

    /// The colour of the background.
    pub fn back(&self) -> u8
        ensures { result ≡ self.now.background }
    {
        self.background
    }

    /// How long the page is shown, in tenths of a second.
    pub fn on(&self) -> u8
        ensures { result ≡ self.now.on }
    {
        self.on
    }

    /// How long nothing is shown after it, in tenths of a second.
    pub fn off(&self) -> u8
        ensures { result ≡ self.now.off }
    {
        self.off
    }

    /// What the cell in column x and row y shows, both from 0 at the left top corner: x must be below the
    /// width, y below the height.
    pub fn cell(&self, x: u16, y: u16) -> Cell
        requires column { x < self.now.width }
        requires row { y < self.now.height }
        ensures cell { result ≡ cell_at self.now x y }
        ensures drawn { (face : FaceModel) (page : PageModel) → self.now ≡ drawn face page
            → result ≡ cell_of face page x y }
    {
        self.cells
            .at(usize::from(y) * usize::from(self.width) + usize::from(x))
    }
}
