//! The times of the pages of what a sign shows, and when it changes by itself, from C. No memory is taken.

ghost use Rattle.std.specs.Prelude.{◌≡◌, length, slice_get};
ghost use Rattle.dms_sign_lines.specs.Answer.{has_pages};
ghost use Rattle.wisangub_c.specs.Times.{shown_times, page_now, page_answer, page_after};
ghost use Rattle.wisangub_c.specs.Times.{picture_due, end_due, next_due, due_answer, due_after};

use crate::shown_calls::tenths_of;
use arrayvec::ArrayVec;
use dms_face::{MAX_PAGES, check_with};
use dms_face_times::{PageTimes, due, page_times, sooner};
use dms_sign::Sign;
use wisangub_c_places::SignHandle;
use wisangub_c_values::{AT_FAULT, DONE, NOTHING_SENT};

/// A page of what a sign shows, but for its cells.
#[repr(C)]
#[derive(Clone, Copy)]
pub struct PageNow {
    /// How many pages there are.
    pub count: usize,
    /// How long it is shown, in tenths of a second.
    pub on: u8,
    /// How long nothing is shown after it, in tenths of a second.
    pub off: u8,
    /// Its background.
    pub background: u8,
}

fn page_now(count: usize, times: PageTimes) -> PageNow
    ensures { result ≡ page_now count times }
{
    PageNow {
        count,
        on: times.on,
        off: times.off,
        background: times.background,
    }
}

/// Whether what the sign shows has pages.
fn has_pages(sign: &Sign) -> bool
    ensures { result ≡ has_pages sign.now }
{
    let shown = sign.shown();
    if !shown.defaults.fits(sign.face()) {
        return false;
    }
    check_with(sign.face(), &shown.defaults, shown.text.as_slice()).is_ok()
}

/// The times of the pages of what the sign shows.
fn shown_times(sign: &Sign) -> ArrayVec<PageTimes, MAX_PAGES>
    ensures { result.items ≡ shown_times sign.now }
{
    if !has_pages(sign) {
        return ArrayVec::new();
    }
    let shown = sign.shown();
    page_times(sign.face(), &shown.defaults, shown.text.as_slice())
}

/// How many pages there are of what the sign shows, and the times of one, whose number is from 0.
#[unsafe(no_mangle)]
pub extern "C" fn wisangub_sign_page_times_at(
    sign: &mut SignHandle,
    number: usize,
    page: &mut PageNow,
) -> u32
    ensures same { sign.new.value ≡ sign.old.value }
    ensures answer { result ≡ page_answer (slice_get (shown_times sign.old.value.agent.sign) number) }
    ensures page { page.new ≡ page_after (length (shown_times sign.old.value.agent.sign))
        (slice_get (shown_times sign.old.value.agent.sign) number) page.old }
{
    let pages = shown_times(sign.as_mut().sign());
    match pages.as_slice().get(number) {
        Some(times) => {
            *page = page_now(pages.len(), *times);
            DONE
        }
        None => AT_FAULT,
    }
}

/// When what the sign shows changes by a page or a flash.
fn picture_due(sign: &Sign, up: u64) -> Option<u64>
    ensures { result ≡ picture_due sign.now up }
{
    if !has_pages(sign) {
        return None;
    }
    let shown = sign.shown();
    due(sign.face(), &shown.defaults, shown.text.as_slice(), up)
}

fn end_due(told: u64, seconds: u32) -> u64
    ensures { result ≡ end_due told seconds }
{
    tenths_of(seconds).saturating_sub(told)
}

/// When what the sign shows changes by a page, a flash or its end.
fn next_due(sign: &Sign, up: u64, told: u64) -> Option<u64>
    ensures { result ≡ next_due sign.now up told }
{
    let end = match sign.shown().remaining {
        Some(seconds) => Some(end_due(told, seconds)),
        None => None,
    };
    sooner(picture_due(sign, up), end)
}

/// In how many tenths of a second what the sign shows changes by itself, by a page, a flash or its end: the picture has
/// been up for `up` tenths, and the sign was told a second `told` tenths ago. Nothing, where it stays as it is.
#[unsafe(no_mangle)]
pub extern "C" fn wisangub_sign_due_at(
    sign: &mut SignHandle,
    up: u64,
    told: u64,
    tenths: &mut u64,
) -> u32
    ensures same { sign.new.value ≡ sign.old.value }
    ensures answer { result ≡ due_answer (next_due sign.old.value.agent.sign up told) }
    ensures tenths { tenths.new ≡ due_after (next_due sign.old.value.agent.sign up told) tenths.old }
{
    let Some(next) = next_due(sign.as_mut().sign(), up, told) else {
        return NOTHING_SENT;
    };
    *tenths = next;
    DONE
}
