//! A sign in the state that a text says.

ghost use Rattle.std.specs.Prelude.{◌≡◌, ◌≤◌, ◌+◌, Some, None, Ok, Err, OnOk, IfOk, IfErr, length};
ghost use Rattle.dms_table.specs.SavedShown.{shown_fault};
ghost use Rattle.dms_sign.specs.Restoring.{message_fault, parts_fault, with_parts};
ghost use Rattle.dms_sign_state.specs.declared.field.Stored.TheVariants.{Changeable, Volatile};
ghost use Rattle.dms_sign_state.specs.Fields.{FieldsModel, AreFields};
ghost use Rattle.dms_sign_restored.specs.Restored.{stored_memory, shown_of, parts_of, put_lines, line_of_shown};
ghost use Rattle.dms_sign_restored.specs.Restored.{line_of_message, line_of_report, line_of_part, rows_end, with_row};
ghost use Rattle.dms_sign_restored.specs.Restored.{with_rows, with_rest, with_fields, IsPut, IsStateRefusal, Say};
ghost use Rattle.dms_sign_restored.specs.Restored.{IsAnswered};
ghost use Rattle.dms_sign.specs.State.{SignState};
ghost use Rattle.dms_sign_restored.specs.Restored.{IsRestored, IsRestoreFault, IsGiven};
ghost use Rattle.dms_sign_restored.specs.RestoredTexts.{cause_text, misfit_text, refusal_text, restore_fault_text};

use dms_codes::{MessageId, Order, RowId, memory};
use dms_sign::{Config, ConfigFault, MessageFault, Sign, SignParts};
use dms_sign_access::ReportFault;
use dms_sign_state::{
    PutFields, StateError, StateFields, Stored, UsedRowFields, settings_lines, state_fields,
};
use dms_table::{RowFault, SavedRow, SavedShown, Shown, ShownFault};
use std::alloc::Global;
use std::error::Error;
use std::fmt;

/// Why the sign has no such state.
#[derive(Clone, Copy, Debug, PartialEq, Eq)]
pub enum MisfitCause {
    /// A row cannot be put.
    Row(RowFault),
    /// What stands behind the rows cannot be taken up.
    Part(dms_sign::StateFault),
}

/// The first line of a state's text that does not fit the sign.
#[derive(Clone, Copy, Debug, PartialEq, Eq)]
pub struct Misfit {
    /// The line, from 1.
    pub line: usize,
    pub cause: MisfitCause,
}

/// Why a sign is not put in the state of a text.
#[derive(Clone, Copy, Debug, PartialEq, Eq)]
pub enum SignStateRefusal {
    /// The text is no state's, or there is no memory to read it.
    Text(StateError),
    /// The state is none of this sign.
    Sign(Misfit),
}

/// Why no sign is restored.
#[derive(Clone, Copy, Debug, PartialEq, Eq)]
pub enum SignRestoreFault {
    /// There is no sign of the configuration.
    Config(ConfigFault),
    /// It is not put in the state of the text.
    State(SignStateRefusal),
}

impl SignStateRefusal {
    ghost use Rattle.std.specs.Prelude.{◌≡◌};
    ghost use Rattle.dms_sign_restored.specs.RestoredTexts.{refused_line};

    /// The line of the text, from 1, that is refused: none where memory ran out.
    pub fn line(&self) -> Option<usize>
        ensures { result ≡ refused_line self.now }
    {
        match self {
            SignStateRefusal::Text(StateError::Memory) => None,
            SignStateRefusal::Text(StateError::Fault(fault)) => Some(fault.line),
            SignStateRefusal::Sign(misfit) => Some(misfit.line),
        }
    }
}

impl fmt::Display for MisfitCause {
    ghost output = { λ cause. Some (cause_text cause) };

    fn fmt<W: fmt::Write>(&self, f: &mut fmt::Formatter<W>) -> fmt::Result {
        match self {
            MisfitCause::Row(fault) => write!(f, "{fault}"),
            MisfitCause::Part(fault) => write!(f, "{fault}"),
        }
    }
}

impl fmt::Display for Misfit {
    ghost output = { λ misfit. Some (misfit_text misfit) };

    fn fmt<W: fmt::Write>(&self, f: &mut fmt::Formatter<W>) -> fmt::Result {
        write!(f, "line {}: {}", self.line, self.cause)
    }
}

impl fmt::Display for SignStateRefusal {
    ghost output = { λ refusal. Some (refusal_text refusal) };

    fn fmt<W: fmt::Write>(&self, f: &mut fmt::Formatter<W>) -> fmt::Result {
        match self {
            SignStateRefusal::Text(error) => write!(f, "{error}"),
            SignStateRefusal::Sign(misfit) => write!(f, "{misfit}"),
        }
    }
}

impl fmt::Display for SignRestoreFault {
    ghost output = { λ fault. Some (restore_fault_text fault) };

    fn fmt<W: fmt::Write>(&self, f: &mut fmt::Formatter<W>) -> fmt::Result {
        match self {
            SignRestoreFault::Config(fault) => write!(f, "{fault}"),
            SignRestoreFault::State(refusal) => write!(f, "{refusal}"),
        }
    }
}

impl Error for MisfitCause {}

impl Error for Misfit {}

impl Error for SignStateRefusal {}

impl Error for SignRestoreFault {}

/// The sign in the state that a text says, or why there is none: the text is no state's, or else the first line that
/// does not fit this sign. Rows are put where a row is not used: so a sign as it was made has room for them. After an
/// error, as out of memory, there is no sign.
pub fn put_state(alloc: Global, sign: Sign, text: &[u8]) -> Result<Sign, SignStateRefusal>
    ensures ok { IfOk result (IsPut sign text.now) }
    ensures only { (fields : FieldsModel) → Say text.now fields → IsAnswered (with_fields fields sign) result }
    ensures fault { IfErr result (IsStateRefusal sign text.now) }
{
    let mut sign = sign;
    let fields = match state_fields(alloc, text) {
        Ok(fields) => fields,
        Err(error) => return Err(SignStateRefusal::Text(error)),
    };
    match put_fields(&mut sign, &fields) {
        Ok(()) => Ok(sign),
        Err(misfit) => Err(SignStateRefusal::Sign(misfit)),
    }
}

/// The sign of a configuration in the state that a text says, or the first thing for which there is none: with the
/// configuration, then with the text, then with a line that does not fit this sign. Out of memory nothing is left.
pub fn restored(alloc: Global, config: Config<'_>, text: &[u8]) -> Result<Sign, SignRestoreFault>
    ensures ok { IfOk result (IsRestored config.entry text.now) }
    ensures only { (s : SignState) → IsRestored config.entry text.now s → IsGiven s result }
    ensures fault { IfErr result (IsRestoreFault config.entry text.now) }
{
    let sign = match Sign::new(alloc, config) {
        Ok(sign) => sign,
        Err(fault) => return Err(SignRestoreFault::Config(fault)),
    };
    match put_state(alloc, sign, text) {
        Ok(sign) => Ok(sign),
        Err(refusal) => Err(SignRestoreFault::State(refusal)),
    }
}

/// Puts a sign in the state of the fields.
#[tactic(auto, unfolding(crate::specs::Restored::with_fields))]
fn put_fields(sign: &mut Sign, fields: &StateFields) -> Result<(), Misfit>
    requires { AreFields fields.now }
    ensures ok { OnOk result (with_fields fields.now sign.old ≡ Ok sign.new) }
    ensures fault { IfErr result (λ misfit. with_fields fields.now sign.old ≡ Err misfit) }
{
    few_rows(fields);
    let changeable = fields.changeable.as_slice();
    put_rows(sign, Stored::Changeable, 2, changeable)?;
    let volatile = fields.volatile.as_slice();
    put_rows(sign, Stored::Volatile, 2 + changeable.len(), volatile)?;
    put_rest(sign, fields)
}

/// There are no more rows than a table has.
fn few_rows(fields: &StateFields)
    requires { AreFields fields.now }
    ensures changeable { length fields.now.changeable ≤ 64 }
    ensures volatile { length fields.now.volatile ≤ 64 }
{}

/// Puts the rows from a line on.
fn put_rows(
    sign: &mut Sign,
    stored: Stored,
    first: usize,
    rows: &[UsedRowFields],
) -> Result<(), Misfit>
    requires first { first ≤ 100 }
    requires rows { length rows.now ≤ 64 }
    ensures ok { OnOk result (with_rows stored first rows.now sign.old ≡ Ok sign.new) }
    ensures fault { IfErr result (λ misfit. with_rows stored first rows.now sign.old ≡ Err misfit) }
{
    for (index, row) in rows.iter().enumerate() {
        put_row(sign, stored, first + index, row)?;
    }
    Ok(())
}

fn put_row(sign: &mut Sign, stored: Stored, line: usize, row: &UsedRowFields) -> Result<(), Misfit>
    ensures ok { OnOk result (with_row stored line row.now sign.old ≡ Ok sign.new) }
    ensures fault { IfErr result (λ misfit. with_row stored line row.now sign.old ≡ Err misfit) }
{
    let id = RowId {
        memory: stored_memory(stored),
        number: row.number,
    };
    let saved = SavedRow {
        text: row.message.text.as_slice(),
        owner: row.message.owner.as_slice(),
        beacon: row.message.beacon,
        pixel: row.message.pixel,
        priority: row.message.priority,
        status: row.status,
    };
    match sign.put_row(id, &saved) {
        Ok(()) => Ok(()),
        Err(fault) => Err(Misfit {
            line,
            cause: MisfitCause::Row(fault),
        }),
    }
}

fn stored_memory(stored: Stored) -> u8
    ensures { result ≡ stored_memory stored }
{
    match stored {
        Stored::Changeable => memory::CHANGEABLE,
        Stored::Volatile => memory::VOLATILE,
    }
}

/// Takes up what stands behind the rows.
fn put_rest(sign: &mut Sign, fields: &StateFields) -> Result<(), Misfit>
    requires changeable { length fields.now.changeable ≤ 64 }
    requires volatile { length fields.now.volatile ≤ 64 }
    ensures ok { OnOk result (with_rest fields.now sign.old ≡ Ok sign.new) }
    ensures fault { IfErr result (λ misfit. with_rest fields.now sign.old ≡ Err misfit) }
{
    match put_parts(sign, fields) {
        Ok(()) => Ok(()),
        Err(fault) => Err(Misfit {
            line: line_of_part(fields, &fault),
            cause: MisfitCause::Part(fault),
        }),
    }
}

fn put_parts(sign: &mut Sign, fields: &StateFields) -> Result<(), dms_sign::StateFault>
    ensures ok { OnOk result (sign.new ≡ with_parts sign.old (parts_of sign.old.table.order fields.now)) }
    ensures faultless { OnOk result (parts_fault sign.old (parts_of sign.old.table.order fields.now) ≡ None) }
    ensures fault { IfErr result
        (λ fault. parts_fault sign.old (parts_of sign.old.table.order fields.now) ≡ Some fault) }
{
    if let Some(fault) = sign.set_fault(&fields.settings, fields.silent_seconds) {
        return Err(fault);
    }
    let shown = match message(sign, &fields.shown) {
        Ok(shown) => shown,
        Err(fault) => return Err(dms_sign::StateFault::Shown(fault)),
    };
    let kept = match message(sign, &fields.shown_at_power_loss) {
        Ok(kept) => kept,
        Err(fault) => return Err(dms_sign::StateFault::Kept(fault)),
    };
    sign.take_up(SignParts {
        settings: fields.settings,
        silent_seconds: fields.silent_seconds,
        shown,
        shown_at_power_loss: kept,
        reports: fields.reports,
        powered: fields.powered,
    })
}

/// The message of the fields, or the first thing for which this sign does not take it up.
fn message(sign: &Sign, put: &PutFields) -> Result<Shown, MessageFault>
    ensures made { IfOk result (λ shown. shown ≡ shown_of sign.now.table.order put.now) }
    ensures faultless { OnOk result
        (message_fault sign.now.table sign.now.config.face (shown_of sign.now.table.order put.now) ≡ None) }
    ensures fault { IfErr result (λ fault.
        message_fault sign.now.table sign.now.config.face (shown_of sign.now.table.order put.now) ≡ Some fault) }
{
    let shown = shown_of(sign.order(), put).map_err(MessageFault::Shown)?;
    match sign.message_fault(&shown) {
        None => Ok(shown),
        Some(fault) => Err(fault),
    }
}

fn shown_of(order: Order, put: &PutFields) -> Result<Shown, ShownFault>
    ensures made { IfOk result (λ shown. shown ≡ shown_of order put.now) }
    ensures fault { IfErr result (λ fault. shown_fault (shown_of order put.now) ≡ Some fault) }
{
    Shown::of(&SavedShown {
        text: put.message.text.as_slice(),
        owner: put.message.owner.as_slice(),
        beacon: put.message.beacon,
        pixel: put.message.pixel,
        priority: put.message.priority,
        source: MessageId::of_octets(order, &put.source),
        mode: put.mode,
        address: put.address,
        remaining: put.remaining,
        defaults: put.defaults,
    })
}

fn rows_end(fields: &StateFields) -> usize
    requires changeable { length fields.now.changeable ≤ 64 }
    requires volatile { length fields.now.volatile ≤ 64 }
    ensures is { result ≡ rows_end fields.now }
    ensures few { result ≤ 129 }
{
    1 + fields.changeable.len() + fields.volatile.len()
}

fn put_lines(put: &PutFields) -> usize
    ensures is { result ≡ put_lines put.now }
    ensures least { 5 ≤ result }
    ensures most { result ≤ 6 }
{
    if put.remaining.is_none() { 5 } else { 6 }
}

fn line_of_shown(fault: ShownFault) -> usize
    ensures is { result ≡ line_of_shown fault }
    ensures few { result ≤ 4 }
{
    match fault {
        ShownFault::Checksum | ShownFault::Blank => 1,
        ShownFault::Mode => 2,
        ShownFault::Remaining => 4,
        _ => 0,
    }
}

fn line_of_message(put: &PutFields, fault: &MessageFault) -> usize
    ensures is { result ≡ line_of_message put.now fault.now }
    ensures few { result ≤ 5 }
{
    match fault {
        MessageFault::Shown(fault) => line_of_shown(*fault),
        MessageFault::Source => 1,
        MessageFault::Defaults => put_lines(put) - 1,
        _ => 0,
    }
}

fn line_of_report(fault: ReportFault) -> usize
    ensures is { result ≡ line_of_report fault }
    ensures few { result ≤ 3 }
{
    match fault {
        ReportFault::ValidateError => 0,
        ReportFault::ActivateError => 1,
        ReportFault::SyntaxError => 2,
        ReportFault::Position => 3,
    }
}

fn line_of_part(fields: &StateFields, fault: &dms_sign::StateFault) -> usize
    requires changeable { length fields.now.changeable ≤ 64 }
    requires volatile { length fields.now.volatile ≤ 64 }
    ensures { result ≡ line_of_part fields.now fault.now }
{
    let rows = rows_end(fields);
    let silence = rows + settings_lines() + 1;
    let shown = silence + 1;
    let kept = shown + put_lines(&fields.shown);
    let reports = kept + put_lines(&fields.shown_at_power_loss);
    match fault {
        dms_sign::StateFault::Defaults => rows + 1,
        dms_sign::StateFault::Silence => silence,
        dms_sign::StateFault::Shown(fault) => shown + line_of_message(&fields.shown, fault),
        dms_sign::StateFault::Kept(fault) => {
            kept + line_of_message(&fields.shown_at_power_loss, fault)
        }
        dms_sign::StateFault::Reports(fault) => reports + line_of_report(*fault),
        dms_sign::StateFault::Power => reports + 6,
    }
}
