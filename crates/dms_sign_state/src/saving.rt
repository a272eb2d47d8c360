//! The state of a sign, written as text.

ghost use Rattle.std.specs.Prelude.{◌≡◌, ◌≤◌, ◌==◌, ◌+◌, ◌*◌, ◌++◌, IfOk, codes, decimal, length, false};
ghost use Rattle.dms_codes.specs.Status.{status_number};
ghost use Rattle.dms_codes.specs.Limits.{most_changeable_rows, most_volatile_rows};
ghost use Rattle.dms_codes.specs.Codes.{octets_of_id};
ghost use Rattle.dms_codes.specs.Memory.{blank_memory};
ghost use Rattle.dms_table.specs.Activation.{shown_row};
ghost use Rattle.dms_table.specs.Rows.{rows_of};
ghost use Rattle.dms_table.specs.RowsView.{reading_of, IsShort};
ghost use Rattle.dms_text_filling.specs.Filling.{Puts, laid};
ghost use Rattle.dms_sign_state.specs.NumberSettings.{all_numbers, number_word, numbers_room};
ghost use Rattle.dms_sign_state.specs.FieldsText.{fallbacks_text, defaults_words, setting_line, numbers_text};
ghost use Rattle.dms_sign_state.specs.FieldsText.{settings_text, row_lines, row_line};
ghost use Rattle.dms_sign_state.specs.FieldsText.{message_line, source_line, address_line, remaining_text};
ghost use Rattle.dms_sign_state.specs.FieldsText.{copied_line, reports_text, last_lines};
ghost use Rattle.dms_sign_state.specs.StateText.{message_of, used_row, used_rows, row_text, rows_text, table_text};
ghost use Rattle.dms_sign_state.specs.StateText.{shown_text, text_of_state, saved_rows, most_saved};

use crate::lines::{put_code, put_defaults, put_message, put_part};
use crate::number_settings::{NUMBER_SETTINGS, NumberSetting, numbers_room};
use dms_codes::{Order, RowId, Status, memory};
use dms_face::Defaults;
use dms_sign::Sign;
use dms_sign::laws::signs_are_kept;
use dms_sign_access::{Fallbacks, Reports, SignSettings};
use dms_table::{RowView, Shown, Table};
use dms_text_exact::{put_address, put_octets};
use dms_text_filling::{put_decimal, put_number, put_text, put_texts};
use std::alloc::{AllocError, Global};

/// The text of a sign's state, from `state 1 sign` to `end`.
pub fn saved(alloc: Global, sign: &Sign) -> Result<Vec<u8>, AllocError>
    ensures { IfOk result (λ text. text.items ≡ text_of_state sign.now) }
{
    let mut none: [u8; 0] = [];
    let size = put_saved(&mut none, sign);
    let mut text = vec![in alloc; 0; size]?;
    put_saved(text.as_mut_slice(), sign);
    Ok(text)
}

/// Puts the text of a sign's state into a buffer, as far as it reaches: how many octets the text has. No memory is
/// taken.
pub fn put_saved(buffer: &mut [u8], sign: &Sign) -> usize
    ensures size { result ≡ length (text_of_state sign.now) }
    ensures text { buffer.new ≡ laid 0 (text_of_state sign.now) buffer.old }
    ensures short { result ≤ most_saved (saved_rows sign.now) }
{
    signs_are_kept(sign);
    put_state(buffer, 0, sign)
}

/// The most octets of the text of any state of a sign with such a table.
pub fn most_saved(sign: &Sign) -> usize
    ensures { result ≡ most_saved (saved_rows sign.now) }
{
    signs_are_kept(sign);
    let table = sign.table();
    let rows = table.row_count(memory::CHANGEABLE) + table.row_count(memory::VOLATILE);
    3288 + numbers_room() + 1315 * rows
}

fn put_state(buffer: &mut [u8], place: usize, sign: &Sign) -> usize
    ensures octets { Puts (text_of_state sign.now) place buffer.old result buffer.new }
    ensures short { result ≤ place + most_saved (saved_rows sign.now) }
{
    signs_are_kept(sign);
    let place = put_text(buffer, place, "state 1 sign\n");
    let place = put_table(buffer, place, sign.table());
    let place = put_settings(buffer, place, &sign.settings());
    let place = put_number(buffer, place, "silent", sign.silent_seconds());
    let place = put_shown(buffer, place, "shown", sign.order(), sign.shown());
    let kept = sign.shown_at_power_loss();
    let place = put_shown(buffer, place, "kept", sign.order(), kept);
    let place = put_reports(buffer, place, &sign.reports());
    put_last(buffer, place, sign.is_powered())
}

fn put_table(buffer: &mut [u8], place: usize, table: &Table) -> usize
    requires changeable { length table.now.changeable ≤ most_changeable_rows }
    requires volatile { length table.now.volatile ≤ most_volatile_rows }
    ensures octets { Puts (table_text table.now) place buffer.old result buffer.new }
    ensures short { result ≤ place + 1315 * (length table.now.changeable + length table.now.volatile) }
{
    let place = put_used(buffer, place, "changeable", table, memory::CHANGEABLE);
    put_used(buffer, place, "volatile", table, memory::VOLATILE)
}

/// Puts the rows of a type of memory that are used.
#[tactic(auto, using(crate::proofs::RowsWritten::used_lines))]
fn put_used(buffer: &mut [u8], place: usize, name: &str, table: &Table, kind: u8) -> usize
    requires stored { (kind == blank_memory) ≡ false }
    requires few { length (rows_of table.now kind) ≤ most_changeable_rows }
    requires name { length name.now ≤ 10 }
    ensures octets { Puts (row_lines name.now (used_rows 1 (rows_of table.now kind)))
        place buffer.old result buffer.new }
    ensures short { result ≤ place + 1315 * length (rows_of table.now kind) }
{
    put_rows(buffer, place, name, table, kind)
}

/// Puts the rows of a type of memory, those that are not used as nothing.
fn put_rows(buffer: &mut [u8], place: usize, name: &str, table: &Table, kind: u8) -> usize
    requires stored { (kind == blank_memory) ≡ false }
    requires few { length (rows_of table.now kind) ≤ most_changeable_rows }
    requires name { length name.now ≤ 10 }
    ensures octets { Puts (rows_text name.now (rows_of table.now kind)) place buffer.old result buffer.new }
    ensures short { result ≤ place + 1315 * length (rows_of table.now kind) }
{
    let mut end = place;
    for index in 0..table.row_count(kind) {
        let number = (index + 1) as u16;
        let memory = kind;
        match table.row(RowId { memory, number }) {
            None => {}
            Some(row) => end = put_row(buffer, end, name, number, &row),
        }
    }
    end
}

fn put_row(buffer: &mut [u8], place: usize, name: &str, number: u16, row: &RowView<'_>) -> usize
    requires { IsShort row.now }
    ensures octets { Puts (row_text name.now (number, (reading_of row.now).row)) place buffer.old result buffer.new }
    ensures short { result ≤ place + length name.now + 1305 }
{
    if row.status == Status::NotUsed {
        return put_text(buffer, place, "");
    }
    put_used_row(buffer, place, name, number, row)
}

/// Puts the line of a row that is used.
fn put_used_row(
    buffer: &mut [u8],
    place: usize,
    name: &str,
    number: u16,
    row: &RowView<'_>,
) -> usize
    requires { IsShort row.now }
    ensures octets { Puts (row_line name.now (used_row number (reading_of row.now).row))
        place buffer.old result buffer.new }
    ensures short { result ≤ place + length name.now + 1305 }
{
    let place = put_begun(buffer, place, name, number, row.status);
    put_message(buffer, place, row)
}

/// Puts a row's number and that of its status.
fn put_begun(buffer: &mut [u8], place: usize, name: &str, number: u16, status: Status) -> usize
    ensures octets { Puts (name.now ++ codes " " ++ decimal number ++ codes " " ++ decimal (status_number status))
        place buffer.old result buffer.new }
    ensures short { result ≤ place + length name.now + 10 }
{
    let place = put_text(buffer, place, name);
    let place = put_text(buffer, place, " ");
    let place = put_decimal(buffer, place, number);
    let place = put_text(buffer, place, " ");
    put_decimal(buffer, place, status.number())
}

fn put_fallbacks(buffer: &mut [u8], place: usize, own: &Fallbacks) -> usize
    ensures octets { Puts (fallbacks_text own.now) place buffer.old result buffer.new }
    ensures short { result ≤ place + 145 }
{
    let place = put_code(
        buffer,
        place,
        "short-power-recovery",
        &own.short_power_recovery,
    );
    let place = put_code(
        buffer,
        place,
        "long-power-recovery",
        &own.long_power_recovery,
    );
    let place = put_code(buffer, place, "power-loss", &own.power_loss);
    let place = put_code(buffer, place, "end-duration", &own.end_duration);
    put_code(
        buffer,
        place,
        "communications-loss",
        &own.communications_loss,
    )
}

fn put_set_defaults(buffer: &mut [u8], place: usize, defaults: &Defaults) -> usize
    ensures octets { Puts (codes "defaults" ++ defaults_words defaults.now) place buffer.old result buffer.new }
    ensures short { result ≤ place + 45 }
{
    let place = put_text(buffer, place, "defaults");
    put_defaults(buffer, place, defaults)
}

fn put_settings(buffer: &mut [u8], place: usize, settings: &SignSettings) -> usize
    ensures octets { Puts (settings_text settings.now) place buffer.old result buffer.new }
    ensures short { result ≤ place + 190 + numbers_room all_numbers }
{
    let place = put_set_defaults(buffer, place, &settings.defaults);
    let place = put_fallbacks(buffer, place, &settings.fallbacks);
    put_numbers(buffer, place, settings)
}

/// Puts a line for each setting that is a number.
fn put_numbers(buffer: &mut [u8], place: usize, settings: &SignSettings) -> usize
    ensures octets { Puts (numbers_text settings.now) place buffer.old result buffer.new }
    ensures short { result ≤ place + numbers_room all_numbers }
{
    let mut end = place;
    for number in NUMBER_SETTINGS {
        end = put_setting(buffer, end, number, settings);
    }
    end
}

fn put_setting(
    buffer: &mut [u8],
    place: usize,
    number: NumberSetting,
    settings: &SignSettings,
) -> usize
    ensures octets { Puts (setting_line settings.now number) place buffer.old result buffer.new }
    ensures short { result ≤ place + length (number_word number) + 7 }
{
    put_number(buffer, place, number.word(), number.of(settings))
}

/// Puts what is shown or was kept.
fn put_shown(buffer: &mut [u8], place: usize, name: &str, order: Order, shown: &Shown) -> usize
    ensures octets { Puts (shown_text name.now order shown.now) place buffer.old result buffer.new }
    ensures short { result ≤ place + 6 * length name.now + 1418 }
{
    let place = put_message_line(buffer, place, name, shown);
    let place = put_source(buffer, place, name, order, shown);
    let place = put_part(buffer, place, name, "-mode", shown.mode);
    let place = put_address_line(buffer, place, name, shown.address);
    let place = put_remaining(buffer, place, name, shown.remaining);
    put_copied(buffer, place, name, &shown.defaults)
}

fn put_message_line(buffer: &mut [u8], place: usize, name: &str, shown: &Shown) -> usize
    ensures octets { Puts (message_line name.now (message_of (shown_row shown.now)))
        place buffer.old result buffer.new }
    ensures short { result ≤ place + length name.now + 1295 }
{
    let place = put_text(buffer, place, name);
    put_message(buffer, place, &shown.view())
}

fn put_source(buffer: &mut [u8], place: usize, name: &str, order: Order, shown: &Shown) -> usize
    ensures octets { Puts (source_line name.now (octets_of_id order shown.now.source))
        place buffer.old result buffer.new }
    ensures short { result ≤ place + length name.now + 20 }
{
    let place = put_texts(buffer, place, name, "-source ");
    let place = put_octets(buffer, place, &shown.source.to_bytes(order));
    put_text(buffer, place, "\n")
}

fn put_address_line(buffer: &mut [u8], place: usize, name: &str, address: [u8; 4]) -> usize
    ensures octets { Puts (address_line name.now address) place buffer.old result buffer.new }
    ensures short { result ≤ place + length name.now + 25 }
{
    let place = put_texts(buffer, place, name, "-address ");
    let place = put_address(buffer, place, address);
    put_text(buffer, place, "\n")
}

/// Puts the seconds until an end, where there is one.
fn put_remaining(buffer: &mut [u8], place: usize, name: &str, seconds: Option<u32>) -> usize
    ensures octets { Puts (remaining_text name.now seconds) place buffer.old result buffer.new }
    ensures short { result ≤ place + length name.now + 22 }
{
    match seconds {
        None => put_text(buffer, place, ""),
        Some(seconds) => put_part(buffer, place, name, "-remaining", seconds),
    }
}

/// Puts the copy of the defaults.
fn put_copied(buffer: &mut [u8], place: usize, name: &str, defaults: &Defaults) -> usize
    ensures octets { Puts (copied_line name.now defaults.now) place buffer.old result buffer.new }
    ensures short { result ≤ place + length name.now + 46 }
{
    let place = put_texts(buffer, place, name, "-defaults");
    put_defaults(buffer, place, defaults)
}

fn put_reports(buffer: &mut [u8], place: usize, reports: &Reports) -> usize
    ensures octets { Puts (reports_text reports.now) place buffer.old result buffer.new }
    ensures short { result ≤ place + 161 }
{
    let position = reports.syntax_error_position;
    let place = put_number(buffer, place, "validate-error", reports.validate_error);
    let place = put_number(buffer, place, "activate-error", reports.activate_error);
    let place = put_number(buffer, place, "syntax-error", reports.syntax_error);
    let place = put_number(buffer, place, "syntax-error-position", position);
    let place = put_code(buffer, place, "accepted-code", &reports.accepted_code);
    put_code(buffer, place, "failed-code", &reports.failed_code)
}

fn put_last(buffer: &mut [u8], place: usize, powered: bool) -> usize
    ensures octets { Puts (last_lines powered) place buffer.old result buffer.new }
    ensures short { result ≤ place + 16 }
{
    let place = put_text(buffer, place, "powered ");
    let place = put_decimal(buffer, place, u8::from(powered));
    put_text(buffer, place, "\nend\n")
}
