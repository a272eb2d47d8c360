//! What a sign takes up of a saved state.

ghost use Rattle.std.specs.Prelude.{◌≡◌, Some, None, IsTrue, IfErr, OnOk, OnErr, option_map};
ghost use Rattle.std.specs.Int.Digits.{AllBelowBase};
ghost use Rattle.dms_face.specs.Face.{FaceModel, fit};
ghost use Rattle.dms_table.specs.Rows.{changed};
ghost use Rattle.dms_table.specs.SavedRows.{row_saved, put_over, row_fault};
ghost use Rattle.dms_sign.specs.Restoring.{with_table, with_parts, names_a_row, standing_fault, message_fault};
ghost use Rattle.dms_sign.specs.Restoring.{set_fault, has_its_power, told_fault, parts_fault};

use crate::sign::typed::{reports_are_typed, settings_are_typed, shown_is_typed};
use crate::sign::{Sign, source_of};
use dms_codes::{MessageId, Mode, RowId};
use dms_face::{Defaults, Face, check_with};
use dms_sign_access::{MessageFault, Reports, SignSettings, StateFault};
use dms_table::{RowFault, SavedRow, Shown, Table};

/// What a saved state has beside the rows of the message table.
#[derive(Debug, Drop)]
pub struct SignParts {
    /// What was set.
    pub settings: SignSettings,
    /// The seconds since a datagram was answered, at most those of 65535 minutes.
    pub silent_seconds: u32,
    /// What is shown.
    pub shown: Shown,
    /// What was shown when the power was last lost.
    pub shown_at_power_loss: Shown,
    /// What is reported.
    pub reports: Reports,
    /// Whether there is power.
    pub powered: bool,
}

impl Sign {
    /// Puts a row of a saved state where one is that is not used. Its text is looked at when it is activated.
    pub fn put_row(&mut self, id: RowId, row: &SavedRow<'_>) -> Result<(), RowFault>
        ensures ok { OnOk result (option_map (with_table self.old)
            (changed self.old.table id (put_over (row_saved row.now))) ≡ Some self.new) }
        ensures faultless { OnOk result (row_fault self.old.table id (row_saved row.now) ≡ None) }
        ensures fault { IfErr result (λ fault. row_fault self.old.table id (row_saved row.now) ≡ Some fault) }
        ensures unchanged { OnErr result (self.new ≡ self.old) }
    {
        are_octets(row.text, row.owner);
        self.table.put_row(id, row)?;
        self.known.forget(id.memory, id.number);
        Ok(())
    }

    /// Takes up all that a saved state has beside the rows.
    pub fn take_up(&mut self, parts: SignParts) -> Result<(), StateFault>
        ensures ok { OnOk result (self.new ≡ with_parts self.old parts) }
        ensures faultless { OnOk result (parts_fault self.old parts ≡ None) }
        ensures fault { IfErr result (λ fault. parts_fault self.old parts ≡ Some fault) }
        ensures unchanged { OnErr result (self.new ≡ self.old) }
    {
        match self.parts_fault(&parts) {
            Some(fault) => Err(fault),
            None => {
                self.take(parts);
                Ok(())
            }
        }
    }

    fn take(&mut self, parts: SignParts)
        requires { parts_fault self.old parts ≡ None }
        ensures { self.new ≡ with_parts self.old parts }
    {
        settings_are_typed(&parts.settings);
        shown_is_typed(&parts.shown);
        shown_is_typed(&parts.shown_at_power_loss);
        reports_are_typed(&parts.reports);
        self.source = source_of(&parts.shown, self.table.order());
        self.settings = parts.settings;
        self.silent_seconds = parts.silent_seconds;
        self.shown = parts.shown;
        self.shown_at_power_loss = parts.shown_at_power_loss;
        self.reports = parts.reports;
        self.powered = parts.powered;
    }

    /// The first thing for which the parts are not taken up.
    fn parts_fault(&self, parts: &SignParts) -> Option<StateFault>
        ensures { result ≡ parts_fault self.now parts.now }
    {
        if let Some(fault) = self.set_fault(&parts.settings, parts.silent_seconds) {
            return Some(fault);
        }
        if let Some(fault) = self.message_fault(&parts.shown) {
            return Some(StateFault::Shown(fault));
        }
        match self.message_fault(&parts.shown_at_power_loss) {
            Some(fault) => Some(StateFault::Kept(fault)),
            None => told_fault(parts),
        }
    }

    /// The first thing for which what was set and the silence are not taken up.
    pub fn set_fault(&self, settings: &SignSettings, silent_seconds: u32) -> Option<StateFault>
        ensures { result ≡ set_fault self.now.config.face settings.now silent_seconds }
    {
        if !fits(&settings.defaults, &self.face) {
            Some(StateFault::Defaults)
        } else if silent_seconds > 60 * 65535 {
            Some(StateFault::Silence)
        } else {
            None
        }
    }

    /// The first thing for which a message is not taken up.
    pub fn message_fault(&self, shown: &Shown) -> Option<MessageFault>
        ensures { result ≡ message_fault self.now.table self.now.config.face shown.now }
    {
        match shown.saved().fault() {
            Some(fault) => Some(MessageFault::Shown(fault)),
            None => standing_fault(&self.table, &self.face, shown),
        }
    }
}

/// The first thing that is wrong with the reports, and with the power.
fn told_fault(parts: &SignParts) -> Option<StateFault>
    ensures { result ≡ told_fault parts.now }
{
    match parts.reports.fault() {
        Some(fault) => Some(StateFault::Reports(fault)),
        None if has_its_power(parts) => None,
        None => Some(StateFault::Power),
    }
}

/// Whether there is power where something else than a loss of power put up what is shown, and there alone; it never put
/// up what was kept.
fn has_its_power(parts: &SignParts) -> bool
    ensures { result ≡ has_its_power parts.now }
{
    let without_power = parts.shown.mode == Mode::PowerLoss.number();
    parts.powered != without_power && parts.shown_at_power_loss.mode != Mode::PowerLoss.number()
}

/// Whether the table has a row of the name of a code.
fn names_a_row(table: &Table, id: MessageId) -> bool
    ensures { result ≡ names_a_row table.now id }
{
    let id = RowId {
        memory: id.memory,
        number: id.number,
    };
    table.row(id).is_some()
}

/// The first thing for which a sign of this table and this face cannot show a message.
fn standing_fault(table: &Table, face: &Face, shown: &Shown) -> Option<MessageFault>
    ensures { result ≡ standing_fault table.now face.now shown.now }
{
    if !names_a_row(table, shown.source) {
        return Some(MessageFault::Source);
    }
    let services = table.services();
    if shown.beacon == 1 && !services.beacon {
        return Some(MessageFault::Beacons);
    }
    if shown.pixel == 1 && !services.pixel {
        return Some(MessageFault::PixelService);
    }
    if !fits(&shown.defaults, face) {
        return Some(MessageFault::Defaults);
    }
    match check_with(face, &shown.defaults, shown.text.as_slice()) {
        Ok(_) => None,
        Err(fault) => Some(MessageFault::Text(fault)),
    }
}

fn fits(defaults: &Defaults, face: &Face) -> bool
    ensures { result ≡ fit face.now.fonts defaults.now }
{
    defaults.fits(face)
}

/// Octets are octets.
fn are_octets(text: &[u8], owner: &[u8])
    ensures text { AllBelowBase 256 text.now }
    ensures owner { AllBelowBase 256 owner.now }
{}
