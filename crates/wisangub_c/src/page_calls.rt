//! Pages of what a sign shows and of any text, from C.

ghost use Rattle.std.specs.Prelude.{◌≡◌, ◌<◌, ◌&&◌, length, is_ok, is_some, IsTrue};
ghost use Rattle.dms_face_pages.specs.PageOctets.{pages_octets, row_bits};
ghost use Rattle.dms_face_pages.specs.Drawn.{drawn_text};
ghost use Rattle.dms_sign_lines.specs.Answer.{has_pages};
ghost use Rattle.wisangub_c.specs.Answers.{no_memory, given_answer, given_buffer, unless_memory};
ghost use Rattle.wisangub_c.specs.Answers.{ranged_answer, ranged_size, ranged_buffer};
ghost use Rattle.wisangub_c.specs.Pages.{layer_at, shown_octets, drawn_answer, drawn_size, drawn_buffer, drawn_fault};

use crate::shown_calls::{TextFault, text_fault};
use dms_face_pages::{Layer, Page, PagesFault, bits_needed, pages, pages_octets, put_bits};
use dms_sign_lines::shown_pages;
use std::alloc::Global;
use wisangub_c_places::SignHandle;
use wisangub_c_values::{AT_FAULT, DONE, NO_MEMORY, OUT_OF_RANGE, TOO_SMALL, give};

/// What an octet says of its cell: 0, 1 or 2, and no other number.
pub(crate) fn layer_at(number: u8) -> Option<Layer>
    ensures { result ≡ layer_at number }
{
    if number < 3 {
        Some(Layer::of(number))
    } else {
        None
    }
}

/// Gives the octets of pages.
fn give_pages(
    alloc: Global,
    layer: Layer,
    pages: &[Page],
    octets: &mut [u8],
    size: &mut usize,
) -> u32
    ensures answer { result ≡ unless_memory result no_memory
        (given_answer (pages_octets layer pages.now) (length octets.old)) }
    ensures size { size.new ≡ unless_memory result size.old (length (pages_octets layer pages.now)) }
    ensures octets { octets.new ≡ unless_memory result octets.old
        (given_buffer (pages_octets layer pages.now) octets.old) }
    ensures memory { result ≡ no_memory → 0 < length pages.now }
{
    match pages_octets(alloc, layer, pages) {
        Ok(made) => give(made.as_slice(), octets, size),
        Err(_) => NO_MEMORY,
    }
}

/// The pages of what the sign shows, as octets.
#[unsafe(no_mangle)]
pub extern "C" fn wisangub_sign_pages_at(
    alloc: Global,
    sign: &mut SignHandle,
    layer: u8,
    octets: &mut [u8],
    size: &mut usize,
) -> u32
    ensures same { sign.new.value ≡ sign.old.value }
    ensures answer { result ≡ unless_memory result no_memory
        (ranged_answer (shown_octets layer sign.old.value.agent.sign) (length octets.old)) }
    ensures size { size.new ≡ unless_memory result size.old
        (ranged_size (shown_octets layer sign.old.value.agent.sign) size.old) }
    ensures octets { octets.new ≡ unless_memory result octets.old
        (ranged_buffer (shown_octets layer sign.old.value.agent.sign) octets.old) }
    ensures memory { result ≡ no_memory → IsTrue (is_some (layer_at layer) && has_pages sign.old.value.agent.sign) }
{
    let Some(layer) = layer_at(layer) else {
        return OUT_OF_RANGE;
    };
    match shown_pages(alloc, sign.as_mut().sign()) {
        Ok(pages) => give_pages(alloc, layer, pages.as_slice(), octets, size),
        Err(_) => NO_MEMORY,
    }
}

/// The pages of a text on the sign's face under the face's own defaults, as octets, or the text's fault.
#[unsafe(no_mangle)]
pub extern "C" fn wisangub_sign_text_pages_at(
    alloc: Global,
    sign: &mut SignHandle,
    text: &[u8],
    layer: u8,
    octets: &mut [u8],
    size: &mut usize,
    fault: &mut TextFault,
) -> u32
    ensures same { sign.new.value ≡ sign.old.value }
    ensures answer { result ≡ unless_memory result no_memory
        (drawn_answer (layer_at layer) (drawn_text sign.old.value.agent.sign.config.face text.now)
        (length octets.old)) }
    ensures size { size.new ≡ unless_memory result size.old
        (drawn_size (layer_at layer) (drawn_text sign.old.value.agent.sign.config.face text.now) size.old) }
    ensures octets { octets.new ≡ unless_memory result octets.old
        (drawn_buffer (layer_at layer) (drawn_text sign.old.value.agent.sign.config.face text.now) octets.old) }
    ensures fault { fault.new ≡ unless_memory result fault.old
        (drawn_fault (layer_at layer) (drawn_text sign.old.value.agent.sign.config.face text.now) fault.old) }
    ensures memory { result ≡ no_memory
        → IsTrue (is_some (layer_at layer) && is_ok (drawn_text sign.old.value.agent.sign.config.face text.now)) }
{
    let Some(layer) = layer_at(layer) else {
        return OUT_OF_RANGE;
    };
    match pages(alloc, sign.as_mut().sign().face(), text) {
        Ok(pages) => give_pages(alloc, layer, pages.as_slice(), octets, size),
        Err(PagesFault::Multi(found)) => {
            *fault = text_fault(found);
            AT_FAULT
        }
        Err(PagesFault::Memory) => NO_MEMORY,
    }
}

/// Which cells of a row are lit, of the looks of its cells: eight an octet from the left, the first in the highest bit.
#[unsafe(no_mangle)]
pub extern "C" fn wisangub_row_bits_at(looks: &[u8], bits: &mut [u8], size: &mut usize) -> u32
    ensures answer { result ≡ given_answer (row_bits looks.now) (length bits.old) }
    ensures size { size.new ≡ length (row_bits looks.now) }
    ensures bits { bits.new ≡ given_buffer (row_bits looks.now) bits.old }
{
    *size = bits_needed(looks);
    if bits.len() < *size {
        return TOO_SMALL;
    }
    put_bits(looks, bits);
    DONE
}
