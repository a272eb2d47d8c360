//! Instances of the objects of a sign.

use crate::column::Column;
use crate::scalar::Scalar;
use dms_codes::RowId;

/// An instance of an object: what a name names, and what is read and written.
#[derive(Clone, Copy, Debug, PartialEq, Eq)]
pub enum Instance {
    /// The only instance of an object.
    Scalar(Scalar),
    /// A column of a row of dmsMessageTable.
    Cell(Column, RowId),
}
