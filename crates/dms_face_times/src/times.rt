//! The times of a text's pages.

ghost use Rattle.std.specs.Prelude.{◌≡◌, ◌≤◌, length};
ghost use Rattle.dms_face.specs.Layout.{under};
ghost use Rattle.dms_face_times.specs.Times.{page_times};
ghost use Rattle.dms_face_times.specs.Walk.{first_times, times_after, pushed, item_in};
ghost use Rattle.dms_face_times.specs.Walk.{next_pages, next_times};

use arrayvec::ArrayVec;
use dms_face::{Defaults, Face, MAX_PAGES};
use dms_multi::{Item, Spot, SyntaxFault, items};

/// How long a page is shown, and its background.
#[derive(Clone, Copy, Debug, Default, PartialEq, Eq)]
pub struct PageTimes {
    /// The colour of its background.
    pub background: u8,
    /// How long it is shown, in tenths of a second.
    pub on: u8,
    /// How long nothing is shown after it, in tenths of a second.
    pub off: u8,
}

impl PageTimes {
    /// What holds before a text's first item.
    fn first(defaults: &Defaults) -> PageTimes
        ensures { result ≡ first_times defaults.now }
    {
        PageTimes {
            background: defaults.background,
            on: defaults.on,
            off: defaults.off,
        }
    }

    /// What holds after an item. A value that is missing is the default.
    fn after(self, defaults: &Defaults, item: Item) -> PageTimes
        ensures { result ≡ times_after defaults.now self item }
    {
        let mut times = self;
        match item {
            Item::Background(colour) => times.background = colour.unwrap_or(defaults.background),
            Item::PageTime { lit, dark } => {
                times.on = lit.unwrap_or(defaults.on);
                times.off = dark.unwrap_or(defaults.off);
            }
            _ => {}
        }
        times
    }
}

/// The item that a text is read as, where it is none of its fault.
pub(crate) fn item_in(outcome: Result<Spot, SyntaxFault>) -> Option<Item>
    ensures { result ≡ item_in outcome }
{
    match outcome {
        Ok(spot) => Some(spot.item),
        Err(_) => None,
    }
}

/// What holds after what is read.
fn next_times(now: PageTimes, defaults: &Defaults, item: Option<Item>) -> PageTimes
    ensures { result ≡ next_times defaults.now now item }
{
    match item {
        None => now,
        Some(item) => now.after(defaults, item),
    }
}

/// Where a new page is read the page before it is one more.
fn next_pages(pages: &mut ArrayVec<PageTimes, MAX_PAGES>, now: PageTimes, item: Option<Item>)
    ensures { pages.new.items ≡ next_pages pages.old.items now item }
{
    if let Some(Item::NewPage) = item {
        push(pages, now);
    }
}

/// A page more, of at most six.
fn push(pages: &mut ArrayVec<PageTimes, MAX_PAGES>, page: PageTimes)
    ensures { pages.new.items ≡ pushed pages.old.items page }
{
    if !pages.is_full() {
        pages.push(page);
    }
}

/// The times of the first six pages of a text, under these defaults. A text that can be shown
/// has no more.
#[tactic(auto, using(crate::proofs::TimeLaws::finding))]
pub fn page_times(face: &Face, defaults: &Defaults, text: &[u8]) -> ArrayVec<PageTimes, MAX_PAGES>
    ensures pages { result.items ≡ page_times (under face.now defaults.now) text.now }
    ensures some { 1 ≤ length result.items }
    ensures few { length result.items ≤ 6 }
{
    let mut pages = ArrayVec::new();
    let mut now = PageTimes::first(defaults);
    for outcome in items(text) {
        let item = item_in(outcome);
        next_pages(&mut pages, now, item);
        now = next_times(now, defaults, item);
    }
    push(&mut pages, now);
    pages
}
