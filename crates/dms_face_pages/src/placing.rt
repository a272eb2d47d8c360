//! Where a line's characters, and a page's lines, begin.

ghost use Rattle.std.specs.Prelude.{◌≡◌, ◌+◌, ◌≤◌};
ghost use Rattle.dms_face.specs.Room.{begin};

use dms_face::Place;

/// Where something of a size begins at a place of the whole, in columns or rows: at its start where it is larger than
/// the whole (NTCIP 1203, MULTI: justification).
pub fn begin(place: Place, whole: u32, size: u32) -> u32
    ensures begin { result ≡ begin place whole size }
    ensures inside { size ≤ whole → result + size ≤ whole }
{
    match place {
        Place::Start => 0,
        Place::Halfway => whole.saturating_sub(size) / 2,
        Place::End => whole.saturating_sub(size),
    }
}
