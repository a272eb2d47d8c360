//! When what flashes on a page turns.

ghost use Rattle.std.specs.Prelude.{◌≡◌, ◌<◌, ◌≤◌, IsTrue};
ghost use Rattle.dms_face_font.specs.Font.{glyph_of};
ghost use Rattle.dms_face.specs.Face.{fit};
ghost use Rattle.dms_face.specs.Layout.{under};
ghost use Rattle.dms_face.specs.Cells.{pages_of};
ghost use Rattle.dms_face.specs.Rules.{characters_from};
ghost use Rattle.dms_face_times.specs.Due.{sooner, first_time, period_due, flash_due, flashes_due};
ghost use Rattle.dms_face_times.specs.Walk.{first_lettering, lettering_after, due_with};
ghost use Rattle.dms_face_times.specs.Walk.{is_over, next_others, next_lettering, next_due};
ghost use Rattle.dms_face_times.specs.LetteringView.{lettering_of};

use crate::times::item_in;
use dms_face::{Defaults, Face, Flash, Font};
use dms_multi::{Item, Lead, items};

/// The sooner of two times, of which each may never come.
pub fn sooner(one: Option<u64>, other: Option<u64>) -> Option<u64>
    ensures { result ≡ sooner one other }
{
    match (one, other) {
        (None, other) => other,
        (Some(one), None) => Some(one),
        (Some(one), Some(other)) => Some(one.min(other)),
    }
}

/// The time with which a flash begins.
fn first_time(flash: Flash) -> u64
    ensures time { result ≡ first_time flash.first flash }
{
    match flash.first {
        Lead::Lit => u64::from(flash.lit),
        Lead::Dark => u64::from(flash.dark),
    }
}

/// So many tenths after a period's beginning, when its first time ends next, or the period.
fn period_due(first: u64, period: u64, at: u64) -> u64
    requires { at < period }
    ensures { result ≡ period_due first period at }
{
    if at < first { first - at } else { period - at }
}

/// When a flash turns next, so many tenths after it began; none where one of its times is 0.
fn flash_due(since: u64, flash: Option<Flash>) -> Option<u64>
    ensures { result ≡ flash_due since flash }
{
    let flash = flash?;
    if flash.lit == 0 || flash.dark == 0 {
        return None;
    }
    let period = u64::from(flash.lit) + u64::from(flash.dark);
    Some(period_due(first_time(flash), period, since % period))
}

/// The font and the flash of characters.
#[derive(Clone, Copy)]
pub(crate) struct Lettering<'a> {
    font: &'a Font,
    flash: Option<Flash>,
}

impl<'a> Lettering<'a> {
    /// What holds before a text's first item.
    fn first(face: &'a Face, defaults: &Defaults) -> Lettering<'a>
        requires { IsTrue (fit face.now.fonts defaults.now) }
        ensures { lettering_of result ≡ first_lettering (under face.now defaults.now) }
    {
        Lettering {
            font: face.font(defaults.font).unwrap(),
            flash: None,
        }
    }

    /// What holds after an item. A value that is missing is the default.
    fn after(self, face: &'a Face, defaults: &Defaults, item: Item) -> Lettering<'a>
        ensures { lettering_of result ≡ lettering_after (under face.now defaults.now) (lettering_of self.entry) item }
    {
        let mut now = self;
        match item {
            Item::Font(None) => now.font = face.font(defaults.font).unwrap_or(now.font),
            Item::Font(Some((number, _))) => now.font = face.font(number).unwrap_or(now.font),
            Item::FlashOn { first, lit, dark } => {
                now.flash = Some(Flash {
                    first,
                    lit: lit.unwrap_or(defaults.flash_on),
                    dark: dark.unwrap_or(defaults.flash_off),
                });
            }
            Item::FlashEnd => now.flash = None,
            _ => {}
        }
        now
    }
}

/// What is due with a character, where the font has it.
fn due_with(since: u64, now: Lettering<'_>, character: u16, due: Option<u64>) -> Option<u64>
    ensures { result ≡ due_with since now.entry.flash (glyph_of now.entry.font.now character) due }
{
    match now.font.glyph(character) {
        None => due,
        Some(_) => sooner(due, flash_due(since, now.flash)),
    }
}

/// Whether an item is the end of the page.
fn is_over(others: usize, item: Option<Item>) -> bool
    ensures { result ≡ is_over others item }
{
    others == 0 && matches!(item, Some(Item::NewPage))
}

/// The pages before it that are left after what is read.
fn next_others(others: usize, item: Option<Item>) -> usize
    ensures { result ≡ next_others others item }
{
    match item {
        Some(Item::NewPage) => others.saturating_sub(1),
        _ => others,
    }
}

/// What holds for characters after what is read.
fn next_lettering<'a>(
    face: &'a Face,
    defaults: &Defaults,
    now: Lettering<'a>,
    item: Option<Item>,
) -> Lettering<'a>
    ensures { lettering_of result ≡ next_lettering (under face.now defaults.now) (lettering_of now.entry) item }
{
    match item {
        None => now,
        Some(item) => now.after(face, defaults, item),
    }
}

/// What is due after what is read.
fn next_due(
    since: u64,
    now: Lettering<'_>,
    others: usize,
    item: Option<Item>,
    due: Option<u64>,
) -> Option<u64>
    ensures { result ≡ next_due since (lettering_of now.entry) others item due }
{
    match item {
        Some(Item::Char(character)) if others == 0 => due_with(since, now, character, due),
        _ => due,
    }
}

/// In how many tenths of a second the next flash turns of the characters of a page, when it has been up for so many:
/// none where none does. The defaults must fit the face.
#[tactic(auto, using(crate::proofs::FlashLaws::finding))]
pub fn flashes_due(
    face: &Face,
    defaults: &Defaults,
    text: &[u8],
    number: usize,
    since: u64,
) -> Option<u64>
    requires { IsTrue (fit face.now.fonts defaults.now) }
    ensures { result
        ≡ flashes_due number since (characters_from 0 (pages_of (under face.now defaults.now) text.now)) }
{
    let mut now = Lettering::first(face, defaults);
    let mut others = number;
    let mut due = None;
    for outcome in items(text) {
        let item = item_in(outcome);
        if is_over(others, item) {
            return due;
        }
        due = next_due(since, now, others, item, due);
        others = next_others(others, item);
        now = next_lettering(face, defaults, now, item);
    }
    due
}
