//! The cells of a page, each as one octet.

ghost use Rattle.std.specs.Prelude.{◌≡◌, ℕ, ◌+◌, ◌-◌, ◌^◌, ◌<◌, ◌≤◌, ◌==◌, ◌&&◌, true, false, List, [], ◌∷◌};
ghost use Rattle.std.specs.Prelude.{length, nat_le, replicate, slice_index_or, position};
ghost use Rattle.std.specs.Prelude.{IsTrue, IfOk, OnOk, OnErr, IfSome, IfNone};
ghost use Rattle.dms_face_font.specs.Glyph.{is_bit};
ghost use Rattle.dms_face_pages.specs.Drawn.{unlit};
ghost use Rattle.dms_face_pages.specs.Masks.{masked, eight_masked};
ghost use Rattle.dms_face_pages.specs.Styled.{StyledCells, style, IsLitStyle, Lights};
ghost use Rattle.dms_face_pages.specs.SameCells.{same_cell};
ghost use Rattle.dms_face_pages.specs.Styles.{is_style, with_style, most_styles};

use crate::lamps::mask_of;
use dms_face::Cell;
use std::alloc::{AllocError, Global};
use std::marker::Model;

/// The cells of a page: each is one octet, which names a style of those that are kept in a list.
#[derive(Debug, Drop)]
pub(crate) struct Cells {
    /// What the cells of each style show: the first style is unlit, and each other one lit.
    styles: Vec<Cell>,
    /// The number of each cell's style, row by row from the top, each row from the left.
    numbers: Vec<u8>,
}

impl Model for Cells {
    ghost use Rattle.std.specs.Prelude.{map, vec_capacity};
    ghost use Rattle.dms_face_pages.specs.Styled.{StyledCells, style, AreStyled};

    ghost Value = { StyledCells };

    ghost view = { λ c. record {
      styles = c.styles.items;
      memory = vec_capacity c.styles;
      cells = map (style c.styles.items) c.numbers.items;
    } };

    ghost invariant = { λ c. AreStyled c.styles.items c.numbers.items };
}

impl Cells {
    /// So many cells of a page with this background, none of them lit.
    pub fn dark(alloc: Global, background: u8, count: usize) -> Result<Cells, AllocError>
        ensures cells { IfOk result (λ made. made.cells ≡ replicate count (unlit background)) }
        ensures len { IfOk result (λ made. length made.cells ≡ count) }
        ensures styles { IfOk result (λ made. made.styles ≡ unlit background ∷ []) }
    {
        let styles = first_style(alloc, background)?;
        let numbers = vec![in alloc; 0; count]?;
        Ok(Cells { styles, numbers })
    }

    /// What the cell at this place shows.
    pub fn at(&self, place: usize) -> Cell
        requires { place < length self.now.cells }
        ensures { (other : Cell) → result ≡ slice_index_or self.now.cells place other }
    {
        self.styles[usize::from(self.numbers[place])]
    }

    /// Lights a cell, unless it is lit already.
    #[inline]
    pub fn light(&mut self, place: usize, number: u8)
        requires inside { place < length self.old.cells }
        requires number { IsLitStyle self.old.styles number }
        ensures { Lights (λ k. k == place) (style self.old.styles number) self.old self.new }
    {
        if self.numbers[place] == 0 {
            self.numbers[place] = number;
        }
    }

    /// Whether eight cells stand in a row from this place on.
    #[inline]
    pub fn has_eight(&self, first: usize) -> bool
        requires { first < 2 ^ 34 }
        ensures { IsTrue result → first + 8 ≤ length self.now.cells }
    {
        first + 8 <= self.numbers.len()
    }

    /// Lights those of eight cells in a row that an octet's bits name, its lowest bit the first, unless they are lit
    /// already.
    #[inline]
    pub fn light_eight(&mut self, first: usize, octet: u8, number: u8)
        requires inside { first + 8 ≤ length self.old.cells }
        requires number { IsLitStyle self.old.styles number }
        ensures { Lights (λ k. nat_le first k && is_bit octet (k - first)) (style self.old.styles number)
            self.old self.new }
    {
        let lit = eight_masked(&self.numbers[first..first + 8], mask_of(octet), number);
        write_eight(&mut self.numbers[first..first + 8], lit);
    }

    /// Adds the style of lit cells that show this, unless it is one of the styles. There is no memory for it only where
    /// the list of styles is full and has to grow.
    #[tactic(auto, using(crate::proofs::StyleLaws::same_cells))]
    pub fn add_style(&mut self, lit: Cell) -> Result<(), AllocError>
        requires lit { lit.lit ≡ true }
        requires few { length (with_style self.old.styles lit) ≤ most_styles }
        ensures same { OnOk result (self.new.cells ≡ self.old.cells) }
        ensures styles { OnOk result (self.new.styles ≡ with_style self.old.styles lit) }
        ensures kept { OnOk result (self.old.memory ≤ self.new.memory) }
        ensures memory { OnErr result (self.old.memory < length (with_style self.old.styles lit)) }
    {
        if number_in(self.styles.as_slice(), lit).is_none() {
            self.styles.push(lit)?;
        }
        Ok(())
    }

    /// The number of the style of lit cells that show this, which must be one of the styles: mostly there is no other.
    #[tactic(auto, using(crate::proofs::SameCells::single))]
    pub fn number_of(&self, lit: Cell) -> u8
        requires lit { lit.lit ≡ true }
        requires added { is_style self.now.styles lit ≡ true }
        ensures number { IsLitStyle self.now.styles result }
        ensures shows { style self.now.styles result ≡ lit }
    {
        if self.styles.len() == 2 {
            return 1;
        }
        number_in(self.styles.as_slice(), lit).unwrap()
    }
}

/// The number of a cell: that of the style, where it was not lit and its mask is 255.
#[inline]
fn masked(cell: u8, mask: u8, number: u8) -> u8
    ensures { result ≡ masked cell mask number }
{
    if cell == 0 { number & mask } else { cell }
}

/// The numbers of eight cells, of which those with the mask 255 are lit.
#[inline]
fn eight_masked(cells: &[u8], mask: [u8; 8], number: u8) -> [u8; 8]
    requires { length cells.now ≡ 8 }
    ensures { result ≡ eight_masked cells.now mask number }
{
    [
        masked(cells[0], mask[0], number),
        masked(cells[1], mask[1], number),
        masked(cells[2], mask[2], number),
        masked(cells[3], mask[3], number),
        masked(cells[4], mask[4], number),
        masked(cells[5], mask[5], number),
        masked(cells[6], mask[6], number),
        masked(cells[7], mask[7], number),
    ]
}

/// Writes the numbers of eight cells, one by one: so the compiler makes it one store of eight octets.
#[inline]
fn write_eight(cells: &mut [u8], numbers: [u8; 8])
    requires { length cells.old ≡ 8 }
    ensures { cells.new ≡ numbers }
{
    cells[0] = numbers[0];
    cells[1] = numbers[1];
    cells[2] = numbers[2];
    cells[3] = numbers[3];
    cells[4] = numbers[4];
    cells[5] = numbers[5];
    cells[6] = numbers[6];
    cells[7] = numbers[7];
}

/// The style of cells that are not lit.
fn first_style(alloc: Global, background: u8) -> Result<Vec<Cell>, AllocError>
    ensures { IfOk result (λ styles. styles.items ≡ unlit background ∷ []) }
{
    let mut styles = Vec::new(alloc);
    styles.push(Cell {
        lit: false,
        colour: background,
        flash: None,
    })?;
    Ok(styles)
}

/// Whether two cells show the same.
fn is_same(one: Cell, other: Cell) -> bool
    ensures { result ≡ same_cell one other }
{
    one == other
}

/// The place of the style of cells that show this, where it is in the list.
fn place_of(styles: &[Cell], lit: Cell) -> Option<usize>
    ensures { result ≡ position (same_cell lit) styles.now }
{
    styles.iter().position(|style| is_same(lit, *style))
}

/// The number of the style of lit cells that show this, where it is in the list: mostly that of the last one.
#[tactic(auto, using(crate::proofs::SameCells::finding))]
fn number_in(styles: &[Cell], lit: Cell) -> Option<u8>
    requires some { 0 < length styles.now }
    requires few { length styles.now ≤ most_styles }
    requires lit { lit.lit ≡ true }
    requires unlit_first { (style styles.now 0).lit ≡ false }
    ensures number { IfSome result (λ number. IsLitStyle styles.now number) }
    ensures shows { IfSome result (λ number. style styles.now number ≡ lit) }
    ensures none { IfNone result (is_style styles.now lit ≡ false) }
{
    let last = styles.len() - 1;
    if is_same(lit, styles[last]) {
        return Some(last as u8);
    }
    let place = place_of(styles, lit)?;
    Some(place as u8)
}
