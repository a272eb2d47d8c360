//! The fields of a state, read from its text.

ghost use Rattle.std.specs.Prelude.{◌≡◌, ◌≤◌, ◌+◌, ◌-◌, ◌==◌, ◌++◌, [], IfOk, IfErr, codes, count_by, length, take};
ghost use Rattle.std.specs.Str.{byte};
ghost use Rattle.dms_sign_state.specs.Fields.{FieldsModel, AreFields};
ghost use Rattle.dms_sign_state.specs.FieldsText.{text_of_fields};
ghost use Rattle.dms_sign_state.specs.FieldFaults.{most_rows, put_name, IsErrorOf, AreRead};
ghost use Rattle.dms_sign_state.specs.WordReading.{Gives};
ghost use Rattle.dms_sign_state.specs.NumberSettings.{all_numbers};
ghost use Rattle.dms_sign_state.specs.FieldReading.{row_field, rows_at, fallbacks_at, setting_at, numbers_at};
ghost use Rattle.dms_sign_state.specs.FieldReading.{settings_at, remaining_at};
ghost use Rattle.dms_sign_state.specs.FieldReading.{put_at, verdicts_at, reports_at, form_at, end_field, powered_at};
ghost use Rattle.dms_sign_state.specs.FieldReading.{set_at, seen_at, rows_of, fields_at};

use crate::field::{
    Put, SignFieldLack, SignStateFault, SignStateField, StateError, Stored, UnreadSignField,
};
use crate::fields::{PutFields, StateFields, UsedRowFields};
use crate::line_reading::{
    address_line, code_line, defaults_line, has_row, message_line, most_rows, number_line,
    octet_line, put_name, row, two_octets_line,
};
use crate::number_settings::{NUMBER_SETTINGS, NumberSetting};
use crate::words::named;
use dms_sign_access::{Fallbacks, Reports, SignSettings};
use dms_text_exact::starts_with;
use std::alloc::Global;

#[tactic(auto, unfolding(crate::specs::FieldReading::row_field))]
fn row_field(
    alloc: Global,
    stored: Stored,
    least: u16,
    text: &[u8],
) -> Result<(UsedRowFields, &[u8]), UnreadSignField>
    ensures value { Gives (λ x. (x.0, x.1.now)) result (row_field stored least text.now) }
    ensures few { IfOk result (λ x. x.0.number ≤ 64) }
{
    let lack = SignFieldLack {
        wanted: SignStateField::Row(stored, least),
        left: text.len(),
    };
    row(alloc, stored, least, lack, text)
}

/// The rows of a type of memory that are used.
fn rows(
    alloc: Global,
    stored: Stored,
    text: &[u8],
) -> Result<(Vec<UsedRowFields>, &[u8]), UnreadSignField>
    ensures { Gives (λ x. (x.0.items, x.1.now)) result (rows_at stored (most_rows stored) 1 text.now) }
{
    let mut rows = Vec::new(alloc);
    let mut rest = text;
    let mut least = 1;
    let most = most_rows(stored);
    for _ in 0..most {
        if !has_row(stored, least, rest) {
            return Ok((rows, rest));
        }
        let (row, after) = row_field(alloc, stored, least, rest)?;
        least = row.number + 1;
        rows.push(row)?;
        rest = after;
    }
    Ok((rows, rest))
}

#[tactic(auto, unfolding(crate::specs::FieldReading::fallbacks_at))]
fn fallbacks(text: &[u8]) -> Result<(Fallbacks, &[u8]), UnreadSignField>
    ensures { Gives (λ x. (x.0, x.1.now)) result (fallbacks_at text.now) }
{
    let wanted = SignStateField::ShortPowerRecovery;
    let (short_power_recovery, rest) = code_line(wanted, "short-power-recovery", " ", text)?;
    let wanted = SignStateField::LongPowerRecovery;
    let (long_power_recovery, rest) = code_line(wanted, "long-power-recovery", " ", rest)?;
    let (power_loss, rest) = code_line(SignStateField::PowerLoss, "power-loss", " ", rest)?;
    let (end_duration, rest) = code_line(SignStateField::EndDuration, "end-duration", " ", rest)?;
    let wanted = SignStateField::CommunicationsLoss;
    let (communications_loss, rest) = code_line(wanted, "communications-loss", " ", rest)?;
    let fallbacks = Fallbacks {
        short_power_recovery,
        long_power_recovery,
        power_loss,
        end_duration,
        communications_loss,
    };
    Ok((fallbacks, rest))
}

fn setting(number: NumberSetting, text: &[u8]) -> Result<(u16, &[u8]), UnreadSignField>
    ensures { Gives (λ x. (x.0, x.1.now)) result (setting_at number text.now) }
{
    two_octets_line(SignStateField::Number(number), number.word(), " ", text)
}

/// The settings that are numbers, put among those that are known.
fn numbers(known: SignSettings, text: &[u8]) -> Result<(SignSettings, &[u8]), UnreadSignField>
    ensures { Gives (λ x. (x.0, x.1.now)) result (numbers_at all_numbers known text.now) }
{
    let mut settings = known;
    let mut rest = text;
    for number in NUMBER_SETTINGS {
        let (value, after) = setting(number, rest)?;
        number.put(&mut settings, value);
        rest = after;
    }
    Ok((settings, rest))
}

#[tactic(auto, unfolding(crate::specs::FieldReading::settings_at))]
fn settings(text: &[u8]) -> Result<(SignSettings, &[u8]), UnreadSignField>
    ensures { Gives (λ x. (x.0, x.1.now)) result (settings_at text.now) }
{
    let (defaults, rest) = defaults_line(SignStateField::Defaults, "defaults", " ", text)?;
    let (fallbacks, rest) = fallbacks(rest)?;
    let mut settings = SignSettings::new(defaults);
    settings.fallbacks = fallbacks;
    numbers(settings, rest)
}

fn remaining_name(put: Put) -> &'static str
    ensures { result.now ≡ put_name put ++ codes "-remaining " }
{
    match put {
        Put::Shown => "shown-remaining ",
        Put::Kept => "kept-remaining ",
    }
}

#[tactic(auto, unfolding(crate::specs::FieldReading::remaining_at))]
fn remaining(put: Put, text: &[u8]) -> Result<(Option<u32>, &[u8]), UnreadSignField>
    ensures { Gives (λ x. (x.0, x.1.now)) result (remaining_at put text.now) }
{
    if starts_with(remaining_name(put).as_bytes(), text) {
        let wanted = SignStateField::Remaining(put);
        let (seconds, rest) = number_line(
            wanted,
            put_name(put),
            "-remaining ",
            4_294_967_295,
            text,
        )?;
        Ok((Some(seconds), rest))
    } else {
        Ok((None, text))
    }
}

#[tactic(auto, unfolding(crate::specs::FieldReading::put_at))]
fn put(alloc: Global, put: Put, text: &[u8]) -> Result<(PutFields, &[u8]), UnreadSignField>
    ensures { Gives (λ x. (x.0, x.1.now)) result (put_at put text.now) }
{
    let name = put_name(put);
    let (message, rest) = message_line(alloc, put, text)?;
    let (source, rest) = code_line(SignStateField::Source(put), name, "-source ", rest)?;
    let (mode, rest) = octet_line(SignStateField::Mode(put), name, "-mode ", rest)?;
    let (address, rest) = address_line(put, rest)?;
    let (remaining, rest) = remaining(put, rest)?;
    let (defaults, rest) = defaults_line(SignStateField::Copied(put), name, "-defaults ", rest)?;
    let put = PutFields {
        message,
        source,
        mode,
        address,
        remaining,
        defaults,
    };
    Ok((put, rest))
}

/// What is reported of rows, of activations and of texts.
#[derive(Drop)]
struct VerdictParts {
    validated: u8,
    activated: u8,
    syntax: u8,
    position: u16,
}

#[tactic(auto, unfolding(crate::specs::FieldReading::verdicts_at))]
fn verdicts(text: &[u8]) -> Result<(VerdictParts, &[u8]), UnreadSignField>
    ensures { Gives (λ x. ((x.0.validated, (x.0.activated, (x.0.syntax, x.0.position))), x.1.now))
        result (verdicts_at text.now) }
{
    let (validated, rest) = octet_line(SignStateField::ValidateError, "validate-error", " ", text)?;
    let (activated, rest) = octet_line(SignStateField::ActivateError, "activate-error", " ", rest)?;
    let (syntax, rest) = octet_line(SignStateField::SyntaxError, "syntax-error", " ", rest)?;
    let wanted = SignStateField::SyntaxErrorPosition;
    let (position, rest) = two_octets_line(wanted, "syntax-error-position", " ", rest)?;
    let verdicts = VerdictParts {
        validated,
        activated,
        syntax,
        position,
    };
    Ok((verdicts, rest))
}

#[tactic(auto, unfolding(crate::specs::FieldReading::reports_at))]
fn reports(text: &[u8]) -> Result<(Reports, &[u8]), UnreadSignField>
    ensures { Gives (λ x. (x.0, x.1.now)) result (reports_at text.now) }
{
    let (verdicts, rest) = verdicts(text)?;
    let (accepted_code, rest) = code_line(
        SignStateField::AcceptedCode,
        "accepted-code",
        " ",
        rest,
    )?;
    let (failed_code, rest) = code_line(SignStateField::FailedCode, "failed-code", " ", rest)?;
    let reports = Reports {
        validate_error: verdicts.validated,
        activate_error: verdicts.activated,
        syntax_error: verdicts.syntax,
        syntax_error_position: verdicts.position,
        accepted_code,
        failed_code,
    };
    Ok((reports, rest))
}

#[tactic(auto, unfolding(crate::specs::FieldReading::form_at))]
fn first_line(text: &[u8]) -> Result<&[u8], UnreadSignField>
    ensures { Gives (λ x. (tt, x.now)) result (form_at text.now) }
{
    let lack = SignFieldLack {
        wanted: SignStateField::Form,
        left: text.len(),
    };
    let rest = named(b"state 1 sign\n", lack, text)?;
    Ok(rest)
}

#[tactic(auto, unfolding(crate::specs::FieldReading::end_field, crate::specs::FieldReading::end_at))]
fn last_line(text: &[u8]) -> Result<(), UnreadSignField>
    ensures { Gives (λ _. (tt, [])) result (end_field text.now) }
{
    let lack = SignFieldLack {
        wanted: SignStateField::End,
        left: text.len(),
    };
    let rest = named(b"end\n", lack, text)?;
    if rest.is_empty() {
        Ok(())
    } else {
        Err(UnreadSignField::Lacks(lack))
    }
}

#[tactic(auto, unfolding(crate::specs::FieldReading::powered_at))]
fn powered(text: &[u8]) -> Result<(bool, &[u8]), UnreadSignField>
    ensures { Gives (λ x. (x.0, x.1.now)) result (powered_at text.now) }
{
    let (number, rest) = number_line(SignStateField::Powered, "powered", " ", 1, text)?;
    Ok((number == 1, rest))
}

#[derive(Drop)]
struct SetParts {
    changeable: Vec<UsedRowFields>,
    volatile: Vec<UsedRowFields>,
    settings: SignSettings,
    silent_seconds: u32,
}

#[derive(Drop)]
struct SeenParts {
    shown: PutFields,
    kept: PutFields,
    reports: Reports,
    powered: bool,
}

/// The rows, and what was set.
#[tactic(auto, unfolding(crate::specs::FieldReading::set_at))]
fn set(alloc: Global, text: &[u8]) -> Result<(SetParts, &[u8]), UnreadSignField>
    ensures { Gives (λ x. ((x.0.changeable.items, (x.0.volatile.items, (x.0.settings, x.0.silent_seconds))), x.1.now))
        result (set_at text.now) }
{
    let (changeable, rest) = rows(alloc, Stored::Changeable, text)?;
    let (volatile, rest) = rows(alloc, Stored::Volatile, rest)?;
    let (settings, rest) = settings(rest)?;
    let (silent_seconds, rest) = number_line(
        SignStateField::Silent,
        "silent",
        " ",
        4_294_967_295,
        rest,
    )?;
    let set = SetParts {
        changeable,
        volatile,
        settings,
        silent_seconds,
    };
    Ok((set, rest))
}

/// What is shown, and what is reported.
#[tactic(auto, unfolding(crate::specs::FieldReading::seen_at))]
fn seen(alloc: Global, text: &[u8]) -> Result<(SeenParts, &[u8]), UnreadSignField>
    ensures { Gives (λ x. ((x.0.shown, (x.0.kept, (x.0.reports, x.0.powered))), x.1.now)) result (seen_at text.now) }
{
    let (shown, rest) = put(alloc, Put::Shown, text)?;
    let (kept, rest) = put(alloc, Put::Kept, rest)?;
    let (reports, rest) = reports(rest)?;
    let (powered, rest) = powered(rest)?;
    let seen = SeenParts {
        shown,
        kept,
        reports,
        powered,
    };
    Ok((seen, rest))
}

/// All of a text.
#[tactic(auto, unfolding(crate::specs::FieldReading::fields_at))]
fn whole(alloc: Global, text: &[u8]) -> Result<StateFields, UnreadSignField>
    ensures { Gives (λ x. (x, [])) result (fields_at text.now) }
{
    let rest = first_line(text)?;
    let (set, rest) = set(alloc, rest)?;
    let (seen, rest) = seen(alloc, rest)?;
    last_line(rest)?;
    Ok(StateFields {
        changeable: set.changeable,
        volatile: set.volatile,
        settings: set.settings,
        silent_seconds: set.silent_seconds,
        shown: seen.shown,
        shown_at_power_loss: seen.kept,
        reports: seen.reports,
        powered: seen.powered,
    })
}

/// The line after a text that ends with its line.
fn line_after(text: &[u8]) -> usize
    ensures { result ≡ count_by (λ octet. octet == byte "\n") text.now + 1 }
{
    let mut line = 1;
    for octet in text {
        if *octet == b'\n' {
            line += 1;
        }
    }
    line
}

/// The fault of a text in which a field lacks.
fn fault_of(text: &[u8], lack: SignFieldLack) -> SignStateFault
    requires { lack.left ≤ length text.now }
    ensures wanted { result.wanted ≡ lack.wanted }
    ensures line { result.line
        ≡ count_by (λ octet. octet == byte "\n") (take (length text.now - lack.left) text.now) + 1 }
{
    SignStateFault {
        line: line_after(&text[..text.len() - lack.left]),
        wanted: lack.wanted,
    }
}

/// The fields that a state's text says. Where the text is no state's, the first field that is not as it must be, and
/// its line.
pub fn state_fields(alloc: Global, text: &[u8]) -> Result<StateFields, StateError>
    ensures found { IfOk result (λ fields. AreFields fields × (text.now ≡ text_of_fields fields)) }
    ensures only { (fields : FieldsModel) → AreFields fields → text.now ≡ text_of_fields fields
        → AreRead fields result }
    ensures fault { IfErr result (IsErrorOf text.now) }
{
    match whole(alloc, text) {
        Ok(fields) => Ok(fields),
        Err(UnreadSignField::Memory) => Err(StateError::Memory),
        Err(UnreadSignField::Lacks(lack)) => Err(StateError::Fault(fault_of(text, lack))),
    }
}
