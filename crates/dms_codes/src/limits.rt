//! The limits of signs, of their messages and of communities (this profile).

ghost use Rattle.std.specs.Prelude.{◌≡◌};
ghost use Rattle.dms_codes.specs.Limits.{has_community_size};

/// The most octets of a text (dmsMessageMultiString).
pub const MAX_TEXT: usize = 512;

/// The most octets of an owner (dmsMessageOwner).
pub const MAX_OWNER: usize = 127;

/// The most columns of a matrix (vmsSignWidthPixels).
pub const MAX_MATRIX_WIDTH: u16 = 256;

/// The most rows of a matrix (vmsSignHeightPixels).
pub const MAX_MATRIX_HEIGHT: u16 = 64;

/// The most permanent rows of a message table.
pub const MAX_PERMANENT: usize = 16;

/// The most changeable rows of a message table.
pub const MAX_CHANGEABLE: u8 = 64;

/// The most volatile rows of a message table.
pub const MAX_VOLATILE: u8 = 16;

/// The most octets of a community.
pub const MAX_COMMUNITY: usize = 32;

/// Whether a community has 1 to `MAX_COMMUNITY` octets.
pub fn has_community_size(community: &[u8]) -> bool
    ensures { result ≡ has_community_size community.now }
{
    1 <= community.len() && community.len() <= MAX_COMMUNITY
}
