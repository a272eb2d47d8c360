//! Which page of a picture is up.

ghost use Rattle.std.specs.Prelude.{◌≡◌, ◌+◌, ◌*◌, ◌≤◌, ◌^◌, ◌<◌, length};
ghost use Rattle.dms_face_times.specs.Turns.{span, round, is_alone, stay, turn_from, turn_at};

use crate::times::PageTimes;

/// What is up: a page, or none in the time after one.
#[derive(Clone, Copy, Debug, PartialEq, Eq)]
pub struct PageUp {
    /// The page's number, from 0.
    pub page: Option<usize>,
    /// Since how many tenths of a second.
    pub since: u64,
    /// For how many more; none where it stays.
    pub left: Option<u64>,
}

/// How long a page and the time after it take.
fn span(page: PageTimes) -> u64
    ensures span { result ≡ span page }
    ensures most { result ≤ 510 }
{
    u64::from(page.on) + u64::from(page.off)
}

/// And all pages, once each.
fn round(pages: &[PageTimes]) -> u64
    requires { length pages.now ≤ 6 }
    ensures round { result ≡ round pages.now }
    ensures most { result ≤ 510 * length pages.now }
{
    match pages {
        [] => 0,
        [page, rest @ ..] => span(*page) + round(rest),
    }
}

/// Whether the pages do not take turns.
fn stay(pages: &[PageTimes]) -> bool
    requires { length pages.now ≤ 6 }
    ensures { result ≡ stay pages.now }
{
    let is_alone = match pages {
        [page] => page.off == 0,
        _ => false,
    };
    round(pages) == 0 || is_alone
}

/// Of pages that take turns from this number on, the one that is up.
fn turn_from(number: usize, tenth: u64, pages: &[PageTimes]) -> PageUp
    requires { number + length pages.now ≤ 6 }
    ensures { result ≡ turn_from number tenth pages.now }
{
    match pages {
        [] => PageUp {
            page: None,
            since: tenth,
            left: None,
        },
        [page, rest @ ..] => {
            let on = u64::from(page.on);
            let span = span(*page);
            if tenth < on {
                PageUp {
                    page: Some(number),
                    since: tenth,
                    left: Some(on - tenth),
                }
            } else if tenth < span {
                PageUp {
                    page: None,
                    since: tenth,
                    left: Some(span - tenth),
                }
            } else {
                turn_from(number + 1, tenth - span, rest)
            }
        }
    }
}

/// What is up of one to six pages when the picture has been up for so many tenths of a second.
pub fn turn_at(pages: &[PageTimes], tenth: u64) -> PageUp
    requires some { 1 ≤ length pages.now }
    requires few { length pages.now ≤ 6 }
    ensures { result ≡ turn_at pages.now tenth }
{
    if stay(pages) {
        return PageUp {
            page: Some(pages.len() - 1),
            since: tenth,
            left: None,
        };
    }
    turn_from(0, tenth % round(pages), pages)
}
