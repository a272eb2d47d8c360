//! Laws of texts and where they stand, each the contract of a function that does nothing.

ghost use Rattle.std.specs.Prelude.{◌≡◌, ◌↔◌, ℕ, if◌then◌else◌, List, [], ◌∷◌, ◌++◌, length, map, Some, None, All};
ghost use Rattle.dms_multi.specs.Outcomes.{items_of};
ghost use Rattle.dms_face.specs.Face.{FaceModel, IsFace};
ghost use Rattle.dms_face.specs.Layout.{Turn, layout_of};
ghost use Rattle.dms_face.specs.Fit.{fits, Fits, code_of, fault_of, page_count, IsGood};
ghost use Rattle.dms_face.specs.Cells.{pages_of};
ghost use Rattle.dms_face.specs.Rules.{page_style, pages_said, characters_from, characters_said, LightsEachCellOnce};
ghost use Rattle.dms_face.specs.OnePass.{local_fault};

use crate::face::Face;

/// Every face is within its limits: its matrix, its fonts with all their characters, and its defaults.
pub fn faces_are_within_their_limits(face: &Face)
    ensures { IsFace face.now }
{
    face.limits();
}

/// After a prefix that fits, the open line and the open page alone decide whether one turn more fits, and its fault.
///
/// What is closed has room and keeps it: a turn changes the open line and its part of the open page alone.
pub fn a_turn_changes_the_open_line_and_page_alone()
    ensures { (face : FaceModel) (front : List Turn) (turn : Turn)
        → Fits face front → local_fault face (layout_of face front) turn
        ≡ (if fits face (front ++ turn ∷ []) then None else Some (code_of face (layout_of face front) turn)) }
{}

/// The empty text is good on every face, whatever its defaults.
pub fn empty_text_is_good()
    ensures { (face : FaceModel) → IsGood face [] }
{}

/// A text has no fault on a face exactly where it is good there, whatever the face and whatever numbers stand in the
/// text.
pub fn a_text_without_a_fault_is_good()
    ensures { (face : FaceModel) (text : List ℕ) → (fault_of face text ≡ None) ↔ IsGood face text }
{}

/// A text has as many pages as `check` counts, be it good or not.
pub fn pages_are_counted()
    ensures { (face : FaceModel) (text : List ℕ) → length (pages_of face text) ≡ page_count text }
{}

/// A page's background and times are those of the last such item before its end, else the defaults.
pub fn pages_have_what_was_last_said()
    ensures { (face : FaceModel) (text : List ℕ)
        → map page_style (pages_of face text) ≡ pages_said face [] (items_of text) }
{}

/// A character's font, foreground, flash, side and part are those of the last such item before it, else the defaults.
/// The characters stand in the order of their items, each on the page whose number is that of the new pages before it;
/// one that its font has not is left out.
pub fn characters_have_what_was_last_said()
    ensures { (face : FaceModel) (text : List ℕ)
        → characters_from 0 (pages_of face text) ≡ characters_said face [] (items_of text) }
{}

/// In a text that is good on a face no two characters light one cell of a page, so a cell has the foreground and the
/// flash of one character alone.
pub fn no_cell_is_lit_twice()
    ensures { (face : FaceModel) (text : List ℕ) → IsFace face → IsGood face text
        → All (LightsEachCellOnce face) (pages_of face text) }
{}
