//! The lines of a state: a field's name and its value.

ghost use Rattle.std.specs.Prelude.{◌≤◌, ◌+◌, ◌*◌, ◌++◌, codes, length};
ghost use Rattle.dms_table.specs.RowsView.{reading_of, IsShort};
ghost use Rattle.dms_text_filling.specs.Filling.{Puts};
ghost use Rattle.dms_sign_state.specs.FieldsText.{octets_line, defaults_words, octets_word, attribute_words};
ghost use Rattle.dms_sign_state.specs.FieldsText.{message_words};
ghost use Rattle.dms_sign_state.specs.StateText.{message_of};

use dms_face::Defaults;
use dms_table::RowView;
use dms_text_exact::put_octets;
use dms_text_filling::{put_decimal, put_text, put_texts};
use itoa::Integer;

/// Puts a field that is a number, under a name of two parts.
pub(crate) fn put_part<N: Integer>(
    buffer: &mut [u8],
    place: usize,
    name: &str,
    part: &str,
    number: N,
) -> usize
    ensures octets { Puts (name.now ++ part.now ++ codes " " ++ N.text number ++ codes "\n")
        place buffer.old result buffer.new }
    ensures short { result ≤ place + length name.now + length part.now + N.MAX_STR_LEN + 2 }
{
    let place = put_text(buffer, place, name);
    let place = put_text(buffer, place, part);
    let place = put_text(buffer, place, " ");
    let place = put_decimal(buffer, place, number);
    put_text(buffer, place, "\n")
}

/// Puts a field that is octets: those of a code.
pub(crate) fn put_code(buffer: &mut [u8], place: usize, name: &str, octets: &[u8]) -> usize
    ensures octets { Puts (octets_line name.now octets.now) place buffer.old result buffer.new }
    ensures short { result ≤ place + length name.now + 2 * length octets.now + 3 }
{
    let place = put_texts(buffer, place, name, " ");
    let place = put_octets(buffer, place, octets);
    put_text(buffer, place, "\n")
}

/// Puts the nine defaults behind what their line begins with.
pub(crate) fn put_defaults(buffer: &mut [u8], place: usize, defaults: &Defaults) -> usize
    ensures octets { Puts (defaults_words defaults.now) place buffer.old result buffer.new }
    ensures short { result ≤ place + 37 }
{
    let place = put_number_word(buffer, place, defaults.background);
    let place = put_number_word(buffer, place, defaults.foreground);
    let place = put_number_word(buffer, place, defaults.flash_on);
    let place = put_number_word(buffer, place, defaults.flash_off);
    let place = put_number_word(buffer, place, defaults.font);
    let place = put_number_word(buffer, place, defaults.line);
    let place = put_number_word(buffer, place, defaults.page);
    let place = put_number_word(buffer, place, defaults.on);
    let place = put_number_word(buffer, place, defaults.off);
    put_text(buffer, place, "\n")
}

/// Puts a message behind what its line begins with.
pub(crate) fn put_message(buffer: &mut [u8], place: usize, row: &RowView<'_>) -> usize
    requires { IsShort row.now }
    ensures octets { Puts (message_words (message_of (reading_of row.now).row)) place buffer.old result buffer.new }
    ensures short { result ≤ place + 1295 }
{
    let place = put_octets_word(buffer, place, row.text);
    let place = put_octets_word(buffer, place, row.owner);
    put_attributes(buffer, place, row)
}

fn put_attributes(buffer: &mut [u8], place: usize, row: &RowView<'_>) -> usize
    ensures octets { Puts (attribute_words (message_of (reading_of row.now).row)) place buffer.old result buffer.new }
    ensures short { result ≤ place + 13 }
{
    let place = put_number_word(buffer, place, row.beacon);
    let place = put_number_word(buffer, place, row.pixel);
    let place = put_number_word(buffer, place, row.priority);
    put_text(buffer, place, "\n")
}

/// Puts a space and a number.
fn put_number_word<N: Integer>(buffer: &mut [u8], place: usize, number: N) -> usize
    ensures octets { Puts (codes " " ++ N.text number) place buffer.old result buffer.new }
    ensures short { result ≤ place + N.MAX_STR_LEN + 1 }
{
    let place = put_text(buffer, place, " ");
    put_decimal(buffer, place, number)
}

/// Puts a space and octets.
fn put_octets_word(buffer: &mut [u8], place: usize, octets: &[u8]) -> usize
    ensures octets { Puts (octets_word octets.now) place buffer.old result buffer.new }
    ensures short { result ≤ place + 2 * length octets.now + 2 }
{
    let place = put_text(buffer, place, " ");
    put_octets(buffer, place, octets)
}
