//! A row of a page of what a sign shows, from C. No memory is taken.

ghost use Rattle.std.specs.Prelude.{◌≡◌, length};
ghost use Rattle.std.specs.Option.{option_map};
ghost use Rattle.dms_face_rows.specs.Rows.{row_numbered, put_in};
ghost use Rattle.wisangub_c.specs.Pages.{layer_at};
ghost use Rattle.wisangub_c.specs.Rows.{shown_page, row_answer, row_size, row_buffer};

use crate::page_calls::layer_at;
use dms_face_pages::Layer;
use dms_face_rows::put_row;
use dms_sign::Sign;
use wisangub_c_places::SignHandle;
use wisangub_c_values::{AT_FAULT, DONE, OUT_OF_RANGE, TOO_SMALL};

/// Puts a row of a page of what the sign shows in a buffer that has room for it, and returns its size.
#[tactic(auto, using(crate::proofs::RowLaws::showing))]
fn put_shown(sign: &Sign, number: usize, y: u16, layer: Layer, octets: &mut [u8]) -> Option<usize>
    ensures size { result ≡ option_map length (row_numbered layer y (shown_page number sign.now)) }
    ensures octets { octets.new ≡ put_in (row_numbered layer y (shown_page number sign.now)) octets.old }
{
    let (face, shown) = (sign.face(), sign.shown());
    if !shown.defaults.fits(face) {
        return None;
    }
    let text = shown.text.as_slice();
    put_row(face, &shown.defaults, text, number, y, layer, octets)
}

/// Row y of the page with this number of what the sign shows, both from 0, as octets of a layer.
#[unsafe(no_mangle)]
pub extern "C" fn wisangub_sign_page_row_at(
    sign: &mut SignHandle,
    number: usize,
    y: u16,
    layer: u8,
    octets: &mut [u8],
    size: &mut usize,
) -> u32
    ensures same { sign.new.value ≡ sign.old.value }
    ensures answer { result
        ≡ row_answer (layer_at layer) y (shown_page number sign.old.value.agent.sign) (length octets.old) }
    ensures size { size.new ≡ row_size (layer_at layer) y (shown_page number sign.old.value.agent.sign) size.old }
    ensures octets { octets.new
        ≡ row_buffer (layer_at layer) y (shown_page number sign.old.value.agent.sign) octets.old }
{
    let Some(layer) = layer_at(layer) else {
        return OUT_OF_RANGE;
    };
    let Some(count) = put_shown(sign.as_mut().sign(), number, y, layer, octets) else {
        return AT_FAULT;
    };
    *size = count;
    if octets.len() < count {
        return TOO_SMALL;
    }
    DONE
}
