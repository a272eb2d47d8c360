//! Where characters stand in their line, and lines on their page (NTCIP 1203, justification of lines and of pages).

ghost use Rattle.std.specs.Prelude.{◌≡◌};
ghost use Rattle.dms_face.specs.Justification.{side_of, part_of, place_of_side, place_of_part, same_place, same_part};

/// Where characters stand in their line.
#[derive(Clone, Copy, Debug, PartialEq, Eq)]
pub enum Side {
    /// At the left end of the line.
    Left,
    /// In its centre.
    Centre,
    /// At its right end.
    Right,
}

/// Where lines stand on their page.
#[derive(Clone, Copy, Debug, PartialEq, Eq)]
pub enum Part {
    /// At the top of the page.
    Top,
    /// In its middle.
    Middle,
    /// At its bottom.
    Bottom,
}

/// Where something stands in a whole: a side of a line, or a part of a page.
#[derive(Clone, Copy, Debug, PartialEq, Eq)]
pub enum Place {
    /// On the left, or at the top.
    Start,
    /// In the centre, or in the middle.
    Halfway,
    /// On the right, or at the bottom.
    End,
}

impl Side {
    /// The side that a number of the markup names: 2 left, 3 centre; 4 and every other number is right.
    pub fn of_number(number: u8) -> Side
        ensures { result ≡ side_of number }
    {
        match number {
            2 => Side::Left,
            3 => Side::Centre,
            _ => Side::Right,
        }
    }

    /// The side of a line as a place of a whole.
    pub fn place(self) -> Place
        ensures { result ≡ place_of_side self }
    {
        match self {
            Side::Left => Place::Start,
            Side::Centre => Place::Halfway,
            Side::Right => Place::End,
        }
    }
}

impl Part {
    /// The part that a number of the markup names: 2 top, 3 middle; 4 and every other number is bottom.
    pub fn of_number(number: u8) -> Part
        ensures { result ≡ part_of number }
    {
        match number {
            2 => Part::Top,
            3 => Part::Middle,
            _ => Part::Bottom,
        }
    }

    /// The part of a page as a place of a whole.
    pub fn place(self) -> Place
        ensures { result ≡ place_of_part self }
    {
        match self {
            Part::Top => Place::Start,
            Part::Middle => Place::Halfway,
            Part::Bottom => Place::End,
        }
    }

    /// Whether both are one part.
    pub fn is(self, other: Part) -> bool
        ensures { result ≡ same_part self other }
    {
        self.place().is(other.place())
    }
}

impl Place {
    /// Whether both are one place.
    pub fn is(self, other: Place) -> bool
        ensures { result ≡ same_place self other }
    {
        match (self, other) {
            (Place::Start, Place::Start)
            | (Place::Halfway, Place::Halfway)
            | (Place::End, Place::End) => true,
            _ => false,
        }
    }
}
