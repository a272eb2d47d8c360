//! How much room characters take in their line, and lines on their page.

ghost use Rattle.std.specs.Prelude.{◌≡◌, ℕ, ◌<◌, ◌≤◌, true, not, List, [], ◌∷◌, ◌++◌, IsTrue};
ghost use Rattle.dms_face.specs.declared.justification.Place.TheVariants.{Start, Halfway, End};
ghost use Rattle.dms_face.specs.Layout.{is_blank};
ghost use Rattle.dms_face.specs.Room.{average, is_at, at_place, extent, span, have_room, blocks_fit};
ghost use Rattle.dms_face.specs.Runs.{run_at, sized, IsLimit};
ghost use Rattle.dms_face.specs.Fit.{goes_back, is_taken};
ghost use Rattle.dms_face.specs.Totals.{Sums, MatchesBlocks, AreWithin};

use crate::justification::Place;

/// What a character is to its line, and a line to its page: its place, its size, its spacing, and the gap that a tag
/// gives before it.
#[derive(Clone, Copy)]
pub struct Block {
    /// Where it stands.
    pub place: Place,
    /// Its columns or rows.
    pub size: u8,
    /// The spacing of its font, or the greatest of its fonts, in columns or rows.
    pub spacing: u8,
    /// The gap before it that a tag gives, in rows; none where the spacings give it.
    pub gap: Option<u8>,
}

impl Block {
    /// Whether it stands there.
    pub fn is_at(&self, place: Place) -> bool
        ensures { result ≡ is_at place self.now }
    {
        self.place.is(place)
    }
}

/// Blocks in a row: whether there are any, how much room they take, and the spacing of the last.
#[derive(Clone, Copy)]
pub struct Run {
    /// Whether there is a block.
    pub any: bool,
    /// The room of all blocks and the gaps between them, in columns or rows.
    pub size: u32,
    /// The spacing of the last block.
    pub spacing: u8,
}

/// Of two numbers, rounded up.
fn average(a: u8, b: u8) -> u8
    ensures { result ≡ average a b }
{
    ((u16::from(a) + u16::from(b) + 1) / 2) as u8
}

impl Run {
    /// No block.
    pub const EMPTY: Run = Run {
        any: false,
        size: 0,
        spacing: 0,
    };

    /// The room that the row takes with one more block at its end.
    #[tactic(auto, using(crate::proofs::Extents::pushing))]
    #[inline(always)]
    fn size_with(&self, block: Block) -> u32
        requires { self.now.size ≤ 256 }
        ensures size { (blocks : List Block) → Sums self.now blocks → result ≡ extent (blocks ++ block ∷ []) }
        ensures within { result ≤ 766 }
    {
        if !self.any {
            return u32::from(block.size);
        }
        let gap = match block.gap {
            Some(gap) => gap,
            None => average(self.spacing, block.spacing),
        };
        self.size + u32::from(gap) + u32::from(block.size)
    }

    /// One more block stands at the row's end.
    #[tactic(auto, using(crate::proofs::Extents::pushing))]
    #[inline(always)]
    pub fn push(&mut self, block: Block)
        requires { self.old.size ≤ 256 }
        ensures sums { (blocks : List Block) → Sums self.old blocks → Sums self.new (blocks ++ block ∷ []) }
        ensures within { self.new.size ≤ 766 }
    {
        self.size = self.size_with(block);
        self.any = true;
        self.spacing = block.spacing;
    }
}

/// The blocks of the three places, a row each.
#[derive(Clone, Copy)]
pub(crate) struct Places {
    pub start: Run,
    pub halfway: Run,
    pub end: Run,
}

impl Places {
    /// No block at any place.
    pub(crate) fn empty() -> Places
        ensures matches { MatchesBlocks result [] }
        ensures within { AreWithin 256 result }
    {
        Places {
            start: Run::EMPTY,
            halfway: Run::EMPTY,
            end: Run::EMPTY,
        }
    }

    /// One more block stands after those of its place.
    #[inline]
    pub(crate) fn push(&mut self, block: Block)
        requires { AreWithin 256 self.old }
        ensures matches { (blocks : List Block) → MatchesBlocks self.old blocks
            → MatchesBlocks self.new (blocks ++ block ∷ []) }
        ensures within { AreWithin 766 self.new }
    {
        match block.place {
            Place::Start => self.start.push(block),
            Place::Halfway => self.halfway.push(block),
            Place::End => self.end.push(block),
        }
    }

    /// Whether there is a block.
    #[tactic(auto, using(crate::proofs::PlaceLaws::places))]
    pub(crate) fn any(&self) -> bool
        ensures { (blocks : List Block) → MatchesBlocks self.now blocks → result ≡ not (is_blank blocks) }
    {
        self.start.any || self.halfway.any || self.end.any
    }

    /// Whether a block stands at this place.
    pub(crate) fn any_at(&self, place: Place) -> bool
        ensures { (blocks : List Block) → MatchesBlocks self.now blocks
            → result ≡ not (is_blank (at_place place blocks)) }
    {
        match place {
            Place::Start => self.start.any,
            Place::Halfway => self.halfway.any,
            Place::End => self.end.any,
        }
    }

    /// Whether a block stands after this place.
    #[tactic(auto, using(crate::proofs::PlaceLaws::places))]
    pub(crate) fn goes_back(&self, place: Place) -> bool
        ensures { (blocks : List Block) → MatchesBlocks self.now blocks → result ≡ goes_back place blocks }
    {
        match place {
            Place::Start => self.halfway.any || self.end.any,
            Place::Halfway => self.end.any,
            Place::End => false,
        }
    }

    /// Whether a block stands at this place or after it.
    #[tactic(auto, using(crate::proofs::PlaceLaws::places))]
    pub(crate) fn is_taken(&self, place: Place) -> bool
        ensures { (blocks : List Block) → MatchesBlocks self.now blocks → result ≡ is_taken place blocks }
    {
        self.any_at(place) || self.goes_back(place)
    }

    /// The row of a place.
    pub(crate) fn at(&self, place: Place) -> Run
        ensures { result ≡ run_at place self.now }
    {
        match place {
            Place::Start => self.start,
            Place::Halfway => self.halfway,
            Place::End => self.end,
        }
    }

    /// The row of a place takes this room.
    pub(crate) fn set_size(&mut self, place: Place, size: u32)
        ensures { self.new ≡ sized place size self.old }
    {
        match place {
            Place::Start => self.start.size = size,
            Place::Halfway => self.halfway.size = size,
            Place::End => self.end.size = size,
        }
    }

    /// The row of a place surely has room beside the others where it takes less than this.
    #[inline]
    pub(crate) fn limit(&self, place: Place, whole: u32) -> u32
        requires whole { whole ≤ 256 }
        requires within { AreWithin 256 self.now }
        ensures limit { IsLimit whole place self.now result }
        ensures small { result ≤ 257 }
    {
        match place {
            Place::Start => limit_at_start(whole, self.halfway.size, self.end.size),
            Place::Halfway => limit_halfway(whole, self.start.size, self.end.size),
            Place::End => limit_at_end(whole, self.start.size, self.halfway.size),
        }
    }

    /// Whether the places have room beside each other.
    #[inline]
    pub(crate) fn fit(&self, whole: u32) -> bool
        requires whole { whole ≤ 256 }
        requires within { AreWithin 766 self.now }
        ensures fit { (blocks : List Block) → MatchesBlocks self.now blocks → result ≡ blocks_fit whole blocks }
        ensures within { IsTrue result → AreWithin 256 self.now }
    {
        have_room(whole, self.start.size, self.halfway.size, self.end.size)
    }

    /// Whether the places have room beside each other with one block more.
    #[inline]
    pub(crate) fn fit_with(&self, block: Block, whole: u32) -> bool
        requires whole { whole ≤ 256 }
        requires within { AreWithin 256 self.now }
        ensures { (blocks : List Block) → MatchesBlocks self.now blocks
            → result ≡ blocks_fit whole (blocks ++ block ∷ []) }
    {
        let (start, halfway, end) = (self.start.size, self.halfway.size, self.end.size);
        match block.place {
            Place::Start => have_room(whole, self.start.size_with(block), halfway, end),
            Place::Halfway => have_room(whole, start, self.halfway.size_with(block), end),
            Place::End => have_room(whole, start, halfway, self.end.size_with(block)),
        }
    }
}

/// Whether there is so much room at the start, halfway and at the end of the whole.
#[tactic(auto, using(crate::proofs::RoomTests::room))]
#[inline]
fn have_room(whole: u32, start: u32, halfway: u32, end: u32) -> bool
    requires whole { whole ≤ 256 }
    requires start { start ≤ 766 }
    requires halfway { halfway ≤ 766 }
    requires end { end ≤ 766 }
    ensures room { result
        ≡ have_room whole (span whole Start start ∷ span whole Halfway halfway ∷ span whole End end ∷ []) }
    ensures within { IsTrue result → start ≤ whole × halfway ≤ whole × end ≤ whole }
{
    if halfway == 0 {
        return start + end <= whole;
    }
    if halfway > whole {
        return false;
    }
    let first = (whole - halfway) / 2;
    start <= first && first + halfway + end <= whole
}

/// What surely has room at the start, with so much halfway and at the end, takes less than this.
#[tactic(auto, using(crate::proofs::RoomTests::limits))]
#[inline]
fn limit_at_start(whole: u32, halfway: u32, end: u32) -> u32
    requires whole { whole ≤ 256 }
    requires halfway { halfway ≤ 256 }
    requires end { end ≤ 256 }
    ensures room { (start : ℕ) → start < result
        → have_room whole (span whole Start start ∷ span whole Halfway halfway ∷ span whole End end ∷ []) ≡ true }
    ensures small { result ≤ 257 }
{
    if halfway == 0 {
        return (whole + 1).saturating_sub(end);
    }
    if halfway > whole {
        return 0;
    }
    let before = (whole - halfway) / 2;
    if before + halfway + end <= whole {
        before + 1
    } else {
        0
    }
}

/// What surely has room halfway, with so much at the start and at the end, takes less than this.
#[tactic(auto, using(crate::proofs::RoomTests::limits))]
#[inline]
fn limit_halfway(whole: u32, start: u32, end: u32) -> u32
    requires whole { whole ≤ 256 }
    requires start { start ≤ 256 }
    requires end { end ≤ 256 }
    ensures room { (halfway : ℕ) → halfway < result
        → have_room whole (span whole Start start ∷ span whole Halfway halfway ∷ span whole End end ∷ []) ≡ true }
    ensures small { result ≤ 257 }
{
    (whole + 1).saturating_sub(2 * start.max(end))
}

/// What surely has room at the end, with so much at the start and halfway, takes less than this.
#[tactic(auto, using(crate::proofs::RoomTests::limits))]
#[inline]
fn limit_at_end(whole: u32, start: u32, halfway: u32) -> u32
    requires whole { whole ≤ 256 }
    requires start { start ≤ 256 }
    requires halfway { halfway ≤ 256 }
    ensures room { (end : ℕ) → end < result
        → have_room whole (span whole Start start ∷ span whole Halfway halfway ∷ span whole End end ∷ []) ≡ true }
    ensures small { result ≤ 257 }
{
    if halfway == 0 {
        return (whole + 1).saturating_sub(start);
    }
    if halfway > whole {
        return 0;
    }
    let before = (whole - halfway) / 2;
    if start <= before {
        whole + 1 - before - halfway
    } else {
        0
    }
}
