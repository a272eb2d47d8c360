//! When pages come and go and lamps flash, as animations of a document.

ghost use Rattle.std.specs.Prelude.{◌≡◌, ◌≤◌, ◌++◌, ◌-◌, OnOk};
ghost use Rattle.std.specs.List.{flat_map, range_with_len};
ghost use Rattle.dms_face_picture.specs.Motion.{period, flash_is_lit, value, next_value, seconds, animation_start};
ghost use Rattle.dms_face_picture.specs.Motion.{some_animation, animation, page_animation, flash_animation};

use crate::text::{put, put_number};
use dms_face::Flash;
use dms_face_pages::Page;
use dms_multi::Lead;
use std::io;

/// When a page of a message is shown, in tenths of a second.
#[derive(Clone, Copy, Debug)]
pub(crate) struct PageTurn {
    /// When it is first shown, from the round's beginning.
    pub start: u32,
    /// For how long.
    pub on: u8,
    /// How long a round of all pages takes.
    pub round: u32,
}

/// How a page moves in its picture.
#[derive(Clone, Copy, Debug)]
pub(crate) enum Motion {
    /// Nothing moves, and what flashes is lit.
    Still,
    /// The page stays; what flashes flashes.
    Stays,
    /// The page takes turns with others.
    Turns(PageTurn),
}

/// When something is to be seen.
#[derive(Clone, Copy, Debug)]
pub(crate) enum Rhythm {
    /// While a page is shown.
    Shown(PageTurn),
    /// While a flash is lit that begins where its page is first shown, after so many tenths.
    Flashing(Flash, u32),
}

impl PageTurn {
    ghost use Rattle.std.specs.Prelude.{◌≡◌};
    ghost use Rattle.dms_face_picture.specs.Motion.{is_shown};

    /// Whether the page is shown in this tenth of a round.
    fn is_shown(self, tenth: u32) -> bool
        ensures { result ≡ is_shown self tenth }
    {
        self.start <= tenth && tenth - self.start < u32::from(self.on)
    }
}

impl Motion {
    ghost use Rattle.std.specs.Prelude.{◌≡◌};
    ghost use Rattle.dms_face_picture.specs.Motion.{motion_of};

    /// How a page moves among so many, in a round of so many tenths, of which it begins at `start`.
    pub fn of(count: usize, round: u32, start: u32, page: &Page) -> Motion
        ensures { result ≡ motion_of count round start page.now }
    {
        if round == 0 || (count == 1 && page.off() == 0) {
            return Motion::Stays;
        }
        Motion::Turns(PageTurn {
            start,
            on: page.on(),
            round,
        })
    }
}

impl Rhythm {
    ghost use Rattle.std.specs.Prelude.{◌≡◌};
    ghost use Rattle.dms_face_picture.specs.Motion.{is_on};

    /// Whether it is to be seen in this tenth.
    fn is_on(self, tenth: u32) -> bool
        ensures { result ≡ is_on self tenth }
    {
        match self {
            Rhythm::Shown(turn) => turn.is_shown(tenth),
            Rhythm::Flashing(flash, start) => is_lit(flash, tenth.saturating_sub(start)),
        }
    }
}

/// For how long a flash is lit and dark, once each.
fn period(flash: Flash) -> u32
    ensures { result ≡ period flash }
{
    u32::from(flash.lit) + u32::from(flash.dark)
}

/// Whether a flash is lit so many tenths after it began.
fn is_lit(flash: Flash, tenth: u32) -> bool
    ensures { result ≡ flash_is_lit flash tenth }
{
    let period = period(flash);
    if period == 0 {
        return true;
    }
    match flash.first {
        Lead::Lit => tenth % period < u32::from(flash.lit),
        Lead::Dark => u32::from(flash.dark) <= tenth % period,
    }
}

fn value(lit: bool) -> &'static str
    ensures { result.now ≡ value lit }
{
    if lit { "1" } else { "0" }
}

/// Appends the value at a further tenth.
fn put_next_value(out: &mut Vec<u8>, rhythm: Rhythm, tenth: u32) -> io::Result<()>
    ensures { OnOk result (out.new.items ≡ out.old.items ++ next_value rhythm tenth) }
{
    put(out, ";")?;
    put(out, value(rhythm.is_on(tenth)))
}

/// Appends the values at the tenths after the first.
fn put_next_values(out: &mut Vec<u8>, tenths: u32, rhythm: Rhythm) -> io::Result<()>
    requires { 1 ≤ tenths }
    ensures { OnOk result
        (out.new.items ≡ out.old.items ++ flat_map (next_value rhythm) (range_with_len 1 (tenths - 1))) }
{
    for tenth in 1..tenths {
        put_next_value(out, rhythm, tenth)?;
    }
    Ok(())
}

/// Appends tenths of a second as seconds.
fn put_seconds(out: &mut Vec<u8>, tenths: u32) -> io::Result<()>
    ensures { OnOk result (out.new.items ≡ out.old.items ++ seconds tenths) }
{
    put_number(out, tenths / 10)?;
    put(out, ".")?;
    put_number(out, tenths % 10)
}

/// Appends how long an animation takes, and its first value.
fn put_animation_start(out: &mut Vec<u8>, tenths: u32, first: bool) -> io::Result<()>
    ensures { OnOk result (out.new.items ≡ out.old.items ++ animation_start tenths first) }
{
    put(
        out,
        "<animate attributeName=\"opacity\" calcMode=\"discrete\" repeatCount=\"indefinite\" dur=\"",
    )?;
    put_seconds(out, tenths)?;
    put(out, "s\" values=\"")?;
    put(out, value(first))
}

/// Appends an animation of so many tenths.
fn put_some_animation(out: &mut Vec<u8>, tenths: u32, rhythm: Rhythm) -> io::Result<()>
    requires { 1 ≤ tenths }
    ensures { OnOk result (out.new.items ≡ out.old.items ++ some_animation tenths rhythm) }
{
    put_animation_start(out, tenths, rhythm.is_on(0))?;
    put_next_values(out, tenths, rhythm)?;
    put(out, "\"/>")
}

/// Appends an animation of so many tenths; none at all is no animation.
fn put_animation(out: &mut Vec<u8>, tenths: u32, rhythm: Rhythm) -> io::Result<()>
    ensures { OnOk result (out.new.items ≡ out.old.items ++ animation tenths rhythm) }
{
    if tenths == 0 {
        return Ok(());
    }
    put_some_animation(out, tenths, rhythm)
}

/// Appends how a page comes and goes.
pub(crate) fn put_page_animation(out: &mut Vec<u8>, motion: Motion) -> io::Result<()>
    ensures { OnOk result (out.new.items ≡ out.old.items ++ page_animation motion) }
{
    match motion {
        Motion::Still | Motion::Stays => Ok(()),
        Motion::Turns(turn) => put_animation(out, turn.round, Rhythm::Shown(turn)),
    }
}

/// Appends how the lamps of a page flash.
pub(crate) fn put_flash_animation(out: &mut Vec<u8>, motion: Motion, flash: Flash) -> io::Result<()>
    ensures { OnOk result (out.new.items ≡ out.old.items ++ flash_animation motion flash) }
{
    match motion {
        Motion::Still => Ok(()),
        Motion::Stays => put_animation(out, period(flash), Rhythm::Flashing(flash, 0)),
        Motion::Turns(turn) => {
            put_animation(out, turn.round, Rhythm::Flashing(flash, turn.start))
        }
    }
}
