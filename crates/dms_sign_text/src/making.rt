//! Signs of the parts that a description says.

ghost use Rattle.std.specs.Prelude.{◌≡◌, map, IsTrue, IfOk};
ghost use Rattle.dms_face.specs.Face.{is_face};
ghost use Rattle.dms_sign_text.specs.Views.{head_seen, row_seen, described_with, is_memory, MadeOrRefused};
ghost use Rattle.dms_sign_text.specs.DescriptionReading.{described};

use crate::head::Head;
use crate::rows::{OwnedRow, lent};
use dms_face::Face;
use dms_face_font::Font;
use dms_sign::{Config, ConfigFault, Sign};
use dms_table::{Permanent, Stock, TableFault};
use std::alloc::{AllocError, Global};

/// The sign of these parts, where its face, its table and its communities are as they should be.
pub(crate) fn made(
    alloc: Global,
    head: &Head<'_>,
    rows: &[OwnedRow],
    fonts: Vec<Font>,
) -> Result<Option<Sign>, AllocError>
    ensures { IfOk result (MadeOrRefused (described (head_seen head.now) (map row_seen rows.now) fonts.items)) }
{
    let size = head.beginning.size;
    match Face::new(size.width, size.height, fonts, head.defaults) {
        Ok(face) => {
            let permanent = lent(alloc, rows)?;
            made_of(alloc, head, permanent.as_slice(), face)
        }
        Err(_) => Ok(None),
    }
}

/// The sign with these rows and this face.
fn made_of(
    alloc: Global,
    head: &Head<'_>,
    permanent: &[Permanent<'_>],
    face: Face,
) -> Result<Option<Sign>, AllocError>
    requires { IsTrue (is_face face) }
    ensures { IfOk result (MadeOrRefused (described_with head.now permanent.now face)) }
{
    let stock = Stock {
        permanent,
        changeable: head.beginning.rows.changeable,
        volatile: head.beginning.rows.volatile,
        beacon: head.services.beacon,
        pixel: head.services.pixel,
        order: head.beginning.order,
    };
    let config = Config {
        face,
        stock,
        reader: head.beginning.communities.reader,
        writer: head.beginning.communities.writer,
    };
    match Sign::new(alloc, config) {
        Ok(sign) => Ok(Some(sign)),
        Err(fault) if is_memory(fault) => Err(AllocError),
        Err(_) => Ok(None),
    }
}

fn is_memory(fault: ConfigFault) -> bool
    ensures { result ≡ is_memory fault }
{
    matches!(fault, ConfigFault::Table(TableFault::Memory))
}
