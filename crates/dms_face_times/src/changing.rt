//! When what a text shows changes by itself.

ghost use Rattle.std.specs.Prelude.{◌≡◌, IsTrue};
ghost use Rattle.dms_face.specs.Face.{fit};
ghost use Rattle.dms_face.specs.Layout.{under};
ghost use Rattle.dms_face_times.specs.Due.{page_due, due};

use crate::flashes::{flashes_due, sooner};
use crate::times::page_times;
use crate::turns::turn_at;
use dms_face::{Defaults, Face};

/// When the next flash turns of the page that is up, if one is.
fn page_due(
    face: &Face,
    defaults: &Defaults,
    text: &[u8],
    since: u64,
    page: Option<usize>,
) -> Option<u64>
    requires { IsTrue (fit face.now.fonts defaults.now) }
    ensures { result ≡ page_due (under face.now defaults.now) text.now since page }
{
    match page {
        None => None,
        Some(number) => flashes_due(face, defaults, text, number, since),
    }
}

/// In how many tenths of a second the next page comes or the next flash of a character turns, when the text has been up
/// for so many: none where what it shows stays as it is. The defaults must fit the face.
pub fn due(face: &Face, defaults: &Defaults, text: &[u8], tenth: u64) -> Option<u64>
    requires { IsTrue (fit face.now.fonts defaults.now) }
    ensures { result ≡ due (under face.now defaults.now) text.now tenth }
{
    let pages = page_times(face, defaults, text);
    let turn = turn_at(pages.as_slice(), tenth);
    sooner(
        turn.left,
        page_due(face, defaults, text, turn.since, turn.page),
    )
}
