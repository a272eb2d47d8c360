//! What a sign shows, and texts on it, from C.

ghost use Rattle.std.specs.Prelude.{◌≡◌, length};
ghost use Rattle.dms_face.specs.Fit.{checked_text};
ghost use Rattle.wisangub_c.specs.Answers.{given_answer, given_buffer};
ghost use Rattle.wisangub_c.specs.Shown.{shown_now, tenths_of, ends_answer, ends_after};
ghost use Rattle.wisangub_c.specs.Shown.{text_fault, fault_after, check_answer, count_after};

use dms_face::{MultiFault, check};
use dms_sign::Sign;
use wisangub_c_places::SignHandle;
use wisangub_c_values::{AT_FAULT, DONE, NOTHING_SENT, give};

/// What a sign shows, but for its text.
#[repr(C)]
#[derive(Clone, Copy)]
pub struct ShownNow {
    /// The minutes that are left, rounded up; 65535 is without an end.
    pub minutes: u32,
    /// The number of the row that the code named.
    pub number: u16,
    /// The checksum that the code named.
    pub checksum: u16,
    /// The type of memory that the code named.
    pub memory: u8,
    /// What activated it (dmsMsgSourceMode).
    pub mode: u8,
    /// Its priority.
    pub priority: u8,
    /// 1 where the beacons are on, else 0.
    pub beacon: u8,
    /// 1 where the pixel service is on, else 0.
    pub pixel: u8,
}

/// Why a text cannot be shown.
#[repr(C)]
#[derive(Clone, Copy)]
pub struct TextFault {
    /// The offset in octets of what is wrong.
    pub place: usize,
    /// What is wrong (dmsMultiSyntaxError).
    pub code: u8,
}

fn shown_now(sign: &Sign) -> ShownNow
    ensures { result ≡ shown_now sign.now.shown }
{
    let shown = sign.shown();
    ShownNow {
        minutes: shown.minutes_left(),
        number: shown.source.number,
        checksum: shown.source.crc,
        memory: shown.source.memory,
        mode: shown.mode,
        priority: shown.priority,
        beacon: shown.beacon,
        pixel: shown.pixel,
    }
}

pub(crate) fn text_fault(fault: MultiFault) -> TextFault
    ensures { result ≡ text_fault fault }
{
    TextFault {
        place: fault.place,
        code: fault.code.number(),
    }
}

/// What the sign shows: the row's name, what activated it, its priority and the minutes that are left.
#[unsafe(no_mangle)]
pub extern "C" fn wisangub_sign_shown_at(sign: &mut SignHandle, shown: &mut ShownNow)
    ensures same { sign.new.value ≡ sign.old.value }
    ensures shown { shown.new ≡ shown_now sign.old.value.agent.sign.shown }
{
    *shown = shown_now(sign.as_mut().sign());
}

/// How often the picture has changed since the sign was made.
#[unsafe(no_mangle)]
pub extern "C" fn wisangub_sign_changes_at(sign: &mut SignHandle, changes: &mut u64)
    ensures same { sign.new.value ≡ sign.old.value }
    ensures changes { changes.new ≡ sign.old.value.changes }
{
    *changes = sign.as_mut().changes();
}

pub(crate) fn tenths_of(seconds: u32) -> u64
    ensures { result ≡ tenths_of seconds }
{
    10 * u64::from(seconds.max(1))
}

/// In how many tenths of a second, from the last second on, the message ends by itself; nothing, where it has no end.
#[unsafe(no_mangle)]
pub extern "C" fn wisangub_sign_ends_at(sign: &mut SignHandle, tenths: &mut u64) -> u32
    ensures same { sign.new.value ≡ sign.old.value }
    ensures answer { result ≡ ends_answer sign.old.value.agent.sign.shown.remaining }
    ensures tenths { tenths.new ≡ ends_after sign.old.value.agent.sign.shown.remaining tenths.old }
{
    let Some(left) = sign.as_mut().sign().shown().remaining else {
        return NOTHING_SENT;
    };
    *tenths = tenths_of(left);
    DONE
}

/// The columns and the rows of the sign's matrix.
#[unsafe(no_mangle)]
pub extern "C" fn wisangub_sign_matrix_at(sign: &mut SignHandle, width: &mut u16, height: &mut u16)
    ensures same { sign.new.value ≡ sign.old.value }
    ensures width { width.new ≡ sign.old.value.agent.sign.config.face.width }
    ensures height { height.new ≡ sign.old.value.agent.sign.config.face.height }
{
    let face = sign.as_mut().sign().face();
    *width = face.width();
    *height = face.height();
}

/// The text that the sign shows.
#[unsafe(no_mangle)]
pub extern "C" fn wisangub_sign_text_at(
    sign: &mut SignHandle,
    text: &mut [u8],
    size: &mut usize,
) -> u32
    ensures same { sign.new.value ≡ sign.old.value }
    ensures answer { result ≡ given_answer sign.old.value.agent.sign.shown.text (length text.old) }
    ensures size { size.new ≡ length sign.old.value.agent.sign.shown.text }
    ensures text { text.new ≡ given_buffer sign.old.value.agent.sign.shown.text text.old }
{
    give(sign.as_mut().sign().shown().text.as_slice(), text, size)
}

/// The community that may only read.
#[unsafe(no_mangle)]
pub extern "C" fn wisangub_sign_reader_at(
    sign: &mut SignHandle,
    community: &mut [u8],
    size: &mut usize,
) -> u32
    ensures same { sign.new.value ≡ sign.old.value }
    ensures answer { result ≡ given_answer sign.old.value.agent.sign.config.reader (length community.old) }
    ensures size { size.new ≡ length sign.old.value.agent.sign.config.reader }
    ensures community { community.new ≡ given_buffer sign.old.value.agent.sign.config.reader community.old }
{
    give(sign.as_mut().sign().reader(), community, size)
}

/// The community that may write.
#[unsafe(no_mangle)]
pub extern "C" fn wisangub_sign_writer_at(
    sign: &mut SignHandle,
    community: &mut [u8],
    size: &mut usize,
) -> u32
    ensures same { sign.new.value ≡ sign.old.value }
    ensures answer { result ≡ given_answer sign.old.value.agent.sign.config.writer (length community.old) }
    ensures size { size.new ≡ length sign.old.value.agent.sign.config.writer }
    ensures community { community.new ≡ given_buffer sign.old.value.agent.sign.config.writer community.old }
{
    give(sign.as_mut().sign().writer(), community, size)
}

/// Whether a text can be shown on the sign's face under the face's own defaults: the number of its pages, or its fault.
#[unsafe(no_mangle)]
pub extern "C" fn wisangub_sign_check_at(
    sign: &mut SignHandle,
    text: &[u8],
    count: &mut usize,
    fault: &mut TextFault,
) -> u32
    ensures same { sign.new.value ≡ sign.old.value }
    ensures answer { result ≡ check_answer (checked_text sign.old.value.agent.sign.config.face text.now) }
    ensures count { count.new ≡ count_after (checked_text sign.old.value.agent.sign.config.face text.now) count.old }
    ensures fault { fault.new ≡ fault_after (checked_text sign.old.value.agent.sign.config.face text.now) fault.old }
{
    match check(sign.as_mut().sign().face(), text) {
        Ok(found) => {
            *count = found;
            DONE
        }
        Err(found) => {
            *fault = text_fault(found);
            AT_FAULT
        }
    }
}
