//! The fonts of a face as objects.

ghost use Rattle.std.specs.Prelude.{◌≡◌, option_map};
ghost use Rattle.dms_wire.specs.View.{object_value};
ghost use Rattle.dms_mib_replies.specs.Next.{next_binding};
ghost use Rattle.dms_device_fonts.specs.Fonts.{fonts_value, fonts_after};

use crate::next::{next_at, place_after};
use crate::reading::read_name;
use dms_face::Face;
use dms_face::laws::faces_are_within_their_limits;
use dms_mib_replies::{Next, Objects};
use dms_wire::{Oid, Value};
use std::marker::Model;

/// The fonts of a face as objects, which are only read: what each name reads is computed as it is asked for.
#[derive(Drop)]
pub struct FontObjects<'a> {
    face: &'a Face,
}

impl<'a> Model for FontObjects<'a> {
    ghost use Rattle.dms_face.specs.Face.{FaceModel};

    ghost Value = { FaceModel };

    ghost view = { λ a. a.face.now };
}

impl<'a> FontObjects<'a> {
    /// Those of this face.
    pub fn of(face: &'a Face) -> FontObjects<'a>
        ensures { result ≡ face.now }
    {
        FontObjects { face }
    }
}

impl Objects for FontObjects<'_> {
    ghost use Rattle.dms_device_fonts.specs.Fonts.{fonts_value, fonts_after};

    ghost reads = { fonts_value };

    ghost follows = { fonts_after };

    fn value(&self, name: &Oid<'_>) -> Option<Value<'_>> {
        fonts_value(self.face, name)
    }

    fn next(&self, name: &Oid<'_>) -> Option<Next<'_>> {
        fonts_after(self.face, name)
    }
}

/// What a name reads of the fonts of a face, for as long as the face is lent.
#[tactic(auto, unfolding(crate::specs::Fonts::fonts_value))]
pub fn fonts_value<'a>(face: &'a Face, name: &Oid<'_>) -> Option<Value<'a>>
    ensures { option_map object_value result ≡ fonts_value face.now name.now }
{
    read_name(face.fonts(), name)
}

/// The first instance of the fonts of a face after a name, with what it reads.
#[tactic(auto, unfolding(crate::specs::Fonts::fonts_after))]
pub fn fonts_after<'a>(face: &'a Face, name: &Oid<'_>) -> Option<Next<'a>>
    ensures { option_map next_binding result ≡ fonts_after face.now name.now }
{
    faces_are_within_their_limits(face);
    let fonts = face.fonts();
    match place_after(fonts, name) {
        Some(place) => Some(next_at(fonts, &place)),
        None => None,
    }
}
