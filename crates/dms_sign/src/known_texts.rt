//! Under which defaults the text of each valid row is good.

ghost use Rattle.std.specs.Prelude.{◌≡◌, ◌≤◌};
ghost use Rattle.std.specs.Option.{option_copied};
ghost use Rattle.dms_codes.specs.Limits.{most_changeable_rows};
ghost use Rattle.dms_sign.specs.KnownTexts.{first_known, first_entry, kept_for, noted, forgotten, HasRoom};

use dms_codes::{MAX_CHANGEABLE, MAX_VOLATILE};
use dms_face::Defaults;
use dms_table::{RowPlace, Writable};

/// A row that can be changed has a place for its defaults.
const ENTRIES: usize = MAX_CHANGEABLE as usize + MAX_VOLATILE as usize;

/// For each row that is valid the defaults under which its text was found good, where that is known.
#[derive(Drop)]
pub(crate) struct KnownTexts {
    /// Those of the permanent rows, which are valid as the sign is made.
    first: Defaults,
    /// Those of the rows that can be changed: of the changeable ones, and after them of the volatile ones. Where there
    /// are none, nothing is known of the text, and an activation looks at it.
    rows: [Option<Defaults>; ENTRIES],
}

impl KnownTexts {
    /// What is known of the permanent rows of a sign that is made with these defaults; of the others nothing is.
    pub(crate) fn new(first: Defaults) -> KnownTexts
        ensures { result ≡ first_known first }
    {
        KnownTexts {
            first,
            rows: [None; ENTRIES],
        }
    }

    /// The row at a place was settled under these defaults.
    pub(crate) fn note(&mut self, place: RowPlace, defaults: &Defaults)
        requires { HasRoom place }
        ensures { self.new ≡ noted self.old place defaults.now }
    {
        self.rows[first_entry(place.memory) + place.index] = Some(*defaults);
    }

    /// Nothing is known of the text of a row any more.
    pub(crate) fn forget(&mut self, memory: u8, number: u16)
        ensures { self.new ≡ forgotten self.old memory number }
    {
        let Some(memory) = Writable::of(memory) else {
            return;
        };
        let index = usize::from(number).saturating_sub(1);
        let entry = first_entry(memory) + index;
        if entry < ENTRIES {
            self.rows[entry] = None;
        }
    }

    /// The defaults under which the text of a row, where it is valid, is known to be good.
    pub(crate) fn of(&self, memory: u8, number: u16) -> Option<&Defaults>
        ensures { option_copied result ≡ kept_for self.now memory number }
    {
        let Some(memory) = Writable::of(memory) else {
            return Some(&self.first);
        };
        let index = usize::from(number).saturating_sub(1);
        match self.rows.get(first_entry(memory) + index) {
            Some(known) => known.as_ref(),
            None => None,
        }
    }
}

/// Where the defaults of the first row of a type of memory stand.
fn first_entry(memory: Writable) -> usize
    ensures value { result ≡ first_entry memory }
    ensures bound { result ≤ most_changeable_rows }
{
    match memory {
        Writable::Changeable => 0,
        Writable::Volatile => usize::from(MAX_CHANGEABLE),
    }
}
