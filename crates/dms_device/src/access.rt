//! What a manager may write to an object.

ghost use Rattle.std.specs.Prelude.{◌≡◌};
ghost use Rattle.dms_wire.specs.View.{object_value};
ghost use Rattle.dms_device.specs.Object.{admits, fits};
ghost use Rattle.dms_device.specs.Setting.{is_written};
ghost use Rattle.dms_device.specs.View.{room_of};

use dms_wire::Value;

/// What a manager may write to an object.
#[derive(Clone, Copy, Debug, PartialEq, Eq)]
pub enum ManagerAccess {
    /// Nothing.
    ReadOnly,
    /// An INTEGER from `least` to `most`.
    Number {
        /// The smallest.
        least: i64,
        /// The largest.
        most: i64,
    },
    /// An OCTET STRING of `least` to `most` octets.
    Octets {
        /// The fewest octets.
        least: u16,
        /// The most octets.
        most: u16,
    },
}

impl ManagerAccess {
    /// Whether a manager may write a value.
    pub fn admits(&self, value: &Value<'_>) -> bool
        ensures { result ≡ admits self.now (object_value value.now) }
    {
        match (self, value) {
            (ManagerAccess::Number { least, most }, Value::Integer(number)) => {
                *least <= *number && *number <= *most
            }
            (ManagerAccess::Octets { least, most }, Value::Octets(octets)) => {
                usize::from(*least) <= octets.len() && octets.len() <= usize::from(*most)
            }
            _ => false,
        }
    }

    /// Whether an object may read a value: one that a manager may write, or any where none may.
    pub(crate) fn fits(&self, value: &Value<'_>) -> bool
        ensures { result ≡ fits self.now (object_value value.now) }
    {
        match self {
            ManagerAccess::ReadOnly => true,
            _ => self.admits(value),
        }
    }

    /// Whether a manager may write anything.
    pub fn is_written(&self) -> bool
        ensures { result ≡ is_written self.now }
    {
        !matches!(self, ManagerAccess::ReadOnly)
    }

    /// How many octets a manager may write.
    pub(crate) fn room(&self) -> usize
        ensures { result ≡ room_of self.now }
    {
        match self {
            ManagerAccess::Octets { most, .. } => usize::from(*most),
            _ => 0,
        }
    }
}
