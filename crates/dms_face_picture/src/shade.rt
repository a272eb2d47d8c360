//! The shades of MULTI's colours.

ghost use Rattle.std.specs.Prelude.{◌≡◌};
ghost use Rattle.dms_face_picture.specs.Lamps.{shade};

/// The shade of a colour, 0 to 9 as MULTI numbers them.
pub(crate) fn shade(colour: u8) -> &'static str
    ensures { result.now ≡ shade colour }
{
    match colour {
        0 => "#000000",
        1 => "#ff0000",
        2 => "#ffff00",
        3 => "#00ff00",
        4 => "#00ffff",
        5 => "#0000ff",
        6 => "#ff00ff",
        7 => "#ffffff",
        8 => "#ff8000",
        _ => "#ffbf00",
    }
}
