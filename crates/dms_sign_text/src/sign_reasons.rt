//! Why the parts of a description are no sign.

ghost use Rattle.std.specs.Prelude.{◌≡◌, IfOk, map};
ghost use Rattle.dms_sign_text.specs.DescriptionReading.{described};
ghost use Rattle.dms_sign_text.specs.Views.{head_seen, row_seen, described_with};
ghost use Rattle.dms_sign_text.specs.Causes.{sign_cause, table_cause};

use crate::head::Head;
use crate::rows::{OwnedRow, lent};
use dms_face::Face;
use dms_face_font::Font;
use dms_sign_text_causes::{SignCause, communities_cause, counts_cause, face_cause, rows_cause};
use dms_table::Permanent;
use std::alloc::{AllocError, Global};

/// The first reason why the sign of these parts can not be made.
pub(crate) fn sign_cause(
    alloc: Global,
    head: &Head<'_>,
    rows: &[OwnedRow],
    fonts: Vec<Font>,
) -> Result<Option<SignCause>, AllocError>
    ensures { IfOk result
        (λ found. found ≡ sign_cause (described (head_seen head.now) (map row_seen rows.now) fonts.items)) }
{
    let size = head.beginning.size;
    let cause = face_cause(size.width, size.height, fonts.as_slice(), head.defaults);
    match Face::new(size.width, size.height, fonts, head.defaults) {
        Ok(face) => {
            let permanent = lent(alloc, rows)?;
            Ok(table_cause(head, permanent.as_slice(), &face))
        }
        Err(_) => Ok(cause),
    }
}

/// The first reason why there is no sign with these rows and this face.
fn table_cause(head: &Head<'_>, permanent: &[Permanent<'_>], face: &Face) -> Option<SignCause>
    ensures { result ≡ table_cause (described_with head.now permanent.now face.now) }
{
    let communities = head.beginning.communities;
    if let Some(cause) = communities_cause(communities.reader, communities.writer) {
        return Some(cause);
    }
    let counts = head.beginning.rows;
    if let Some(cause) = counts_cause(permanent.len(), counts.changeable, counts.volatile) {
        return Some(cause);
    }
    rows_cause(head.services, face, 1, permanent)
}
