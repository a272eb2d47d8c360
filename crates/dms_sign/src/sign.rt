//! The controller of a dynamic message sign.

ghost use Rattle.std.specs.Prelude.{◌≡◌, ◌≤◌, ◌*◌, None, All, IsTrue, IfOk, IfErr, OnOk};
ghost use Rattle.std.specs.Int.Digits.{AllBelowBase};
ghost use Rattle.dms_codes.specs.Codes.{octets_of_id};
ghost use Rattle.dms_table.specs.Stock.{table_of, PermanentRowsAreGood, HasOctets};
ghost use Rattle.dms_sign.specs.Communities.{are_communities};
ghost use Rattle.dms_sign.specs.State.{start};
ghost use Rattle.dms_sign.specs.Configuration.{config_of, config_fault, IsFirstConfigFault};
ghost use Rattle.dms_sign_access.specs.Reports.{IsCauseInRange};
ghost use Rattle.dms_sign.specs.InRange.{IsStocked, AreOctets, IsShownInRange, IsTimeInRange};
ghost use Rattle.dms_sign.specs.InRange.{IsSignInRange, AreFallbacksInRange, most_minutes};
ghost use Rattle.dms_sign.specs.Transitions.{HasFitDefaults};
ghost use Rattle.dms_sign.specs.KnownTexts.{AreKnown};
ghost use Rattle.dms_face.specs.Face.{fit};
ghost use Rattle.dms_codes.specs.Mode.{mode_number};
ghost use Rattle.dms_table.specs.Activation.{refusal, shown_by, unless_refused};
ghost use Rattle.dms_sign.specs.OwnCodes.{showing, staying, with_refused_code};
ghost use Rattle.dms_sign.specs.Events.{after_settling, restored};

use crate::config::{Config, ConfigFault, are_communities};
use crate::known_texts::KnownTexts;
use crate::sign::typed::matrix_is_typed;
use arrayvec::ArrayVec;
use dms_codes::{Activation, MAX_COMMUNITY, Order};
use dms_face::{Defaults, Face};
use dms_sign_access::{BLANK_CODE, Fallbacks, Reports, SignSettings};
use dms_table::row::copy_of;
use dms_table::{Cause, Mode, Shown, Table};
use std::alloc::Global;
use std::marker::Model;

mod events;
mod own_codes;
mod parts;
pub mod reply;
pub(crate) mod restoring;
mod set_one;
mod set_request;
mod typed;
mod values;

/// A sign: what it is made with, its message table, what was set, and what it shows. A contract sees the state of the
/// sign's machine.
#[derive(Drop)]
pub struct Sign {
    face: Face,
    reader: ArrayVec<u8, MAX_COMMUNITY>,
    writer: ArrayVec<u8, MAX_COMMUNITY>,
    table: Table,
    settings: SignSettings,
    /// The seconds since a datagram was answered.
    silent_seconds: u32,
    shown: Shown,
    /// The octets of the code of what is shown, which `value` lends.
    source: [u8; 5],
    /// What was shown when the power was lost.
    shown_at_power_loss: Shown,
    reports: Reports,
    powered: bool,
    /// Under which defaults the text of a valid row is known to be good on the face.
    known: KnownTexts,
}

impl Model for Sign {
    ghost use Rattle.dms_sign.specs.State.{SignState};

    ghost Value = { SignState };

    ghost use Rattle.dms_sign.specs.SignView.{state_of, IsWhole};

    ghost view = { state_of };

    ghost invariant = { IsWhole };
}

impl Sign {
    /// The sign of a configuration, or the first thing that is wrong with it; out of memory is answered only where
    /// nothing is.
    pub fn new(alloc: Global, config: Config<'_>) -> Result<Sign, ConfigFault>
        ensures made { IfOk result (λ sign. sign ≡ start (config_of config.entry) (table_of config.entry.stock)) }
        ensures faultless { OnOk result (config_fault config.entry ≡ None) }
        ensures good { IfOk result (λ sign. PermanentRowsAreGood sign.config.face sign.table) }
        ensures fault { IfErr result (λ fault. IsFirstConfigFault (config_fault config.entry) fault) }
    {
        if !are_communities(config.reader, config.writer) {
            return Err(ConfigFault::Community);
        }
        match Table::new(alloc, config.stock, &config.face) {
            Ok(table) => {
                let reader = copy_of(config.reader);
                let writer = copy_of(config.writer);
                Ok(Sign::of(config.face, reader, writer, table))
            }
            Err(fault) => Err(ConfigFault::Table(fault)),
        }
    }

    /// A sign as it is made shows the blank message and has power.
    fn of(
        face: Face,
        reader: ArrayVec<u8, MAX_COMMUNITY>,
        writer: ArrayVec<u8, MAX_COMMUNITY>,
        table: Table,
    ) -> Sign
        requires communities { IsTrue (are_communities reader.items writer.items) }
        requires stocked { IsStocked table }
        requires octets { All HasOctets table.permanent }
        requires good { PermanentRowsAreGood face table }
        requires reader { AllBelowBase 256 reader.items }
        requires writer { AllBelowBase 256 writer.items }
        ensures { result ≡ start (record { face = face; reader = reader.items; writer = writer.items }) table }
    {
        let defaults = face.defaults();
        matrix_is_typed(&face);
        Sign {
            face,
            reader,
            writer,
            table,
            settings: SignSettings::new(defaults),
            silent_seconds: 0,
            shown: Shown::blank(&defaults, Mode::PowerRecovery),
            source: BLANK_CODE,
            shown_at_power_loss: Shown::blank(&defaults, Mode::PowerRecovery),
            reports: Reports::new(),
            powered: true,
            known: KnownTexts::new(defaults),
        }
    }

    /// What is shown.
    pub fn shown(&self) -> &Shown
        ensures { result.now ≡ self.now.shown }
    {
        &self.shown
    }

    /// The face that the sign was made with.
    pub fn face(&self) -> &Face
        ensures { result.now ≡ self.now.config.face }
    {
        &self.face
    }

    /// The community that may only read.
    pub fn reader(&self) -> &[u8]
        ensures { result.now ≡ self.now.config.reader }
    {
        self.reader.as_slice()
    }

    /// The community that may write.
    pub fn writer(&self) -> &[u8]
        ensures { result.now ≡ self.now.config.writer }
    {
        self.writer.as_slice()
    }

    /// The order of the octets of a checksum in the sign's codes.
    pub fn order(&self) -> Order
        ensures { result ≡ self.now.table.order }
    {
        self.table.order()
    }

    /// What the type's invariant says (`laws::signs_are_kept`).
    pub(crate) fn invariant(&self)
        ensures in_range { IsSignInRange self.now }
        ensures fit { HasFitDefaults self.now }
        ensures communities { IsTrue (are_communities self.now.config.reader self.now.config.writer) }
    {
        // the invariant is known where a field is looked at
        let _ = &self.powered;
    }

    /// The codes of the messages that the sign activates by itself.
    fn fallbacks(&self) -> Fallbacks
        ensures value { result ≡ self.now.settings.fallbacks }
        ensures in_range { AreFallbacksInRange result }
    {
        self.settings.fallbacks
    }

    /// Shows this.
    fn show(&mut self, shown: Shown)
        requires { IsShownInRange shown }
        ensures { self.new ≡ showing self.old shown }
    {
        self.source = source_of(&shown, self.table.order());
        self.shown = shown;
    }

    /// Shows the message that a code names, in place of what was shown, with this mode.
    fn show_named(&mut self, code: &Activation, mode: Mode)
        requires { IsShownInRange
            (record (shown_by self.old.settings.defaults self.old.table self.old.shown code.now)
            { mode = mode_number mode }) }
        ensures { self.new ≡ showing self.old
            (record (shown_by self.old.settings.defaults self.old.table self.old.shown code.now)
            { mode = mode_number mode }) }
    {
        self.table
            .put_up(&self.settings.defaults, code, &mut self.shown);
        self.shown.set_mode(mode);
        self.source = source_of(&self.shown, self.table.order());
    }

    /// What is shown stays, with this mode and without an end.
    fn stay(&mut self, mode: Mode)
        ensures { self.new ≡ staying self.old (mode_number mode) }
    {
        self.shown.stay(mode);
    }

    /// What is shown has so many seconds left, or no end.
    fn remain(&mut self, remaining: Option<u32>)
        requires { IsTimeInRange remaining }
        ensures { self.new ≡ showing self.old (record self.old.shown { remaining = remaining }) }
    {
        self.shown.remain(remaining);
    }

    /// A code was refused for this cause.
    fn refuse_code(&mut self, cause: &Cause, code: [u8; 12])
        requires cause { IsCauseInRange cause.now }
        requires code { AreOctets 12 code }
        ensures { self.new ≡ with_refused_code self.old cause.now code }
    {
        self.reports = self.reports.with_refusal(cause, code);
    }

    /// Keeps what is shown, as what was shown at the loss of power.
    fn keep(&mut self)
        ensures { self.new ≡ record self.old { shown_at_power_loss = self.old.shown } }
    {
        self.shown_at_power_loss = self.shown.again();
    }

    fn set_powered(&mut self, powered: bool)
        ensures { self.new ≡ record self.old { powered = powered } }
    {
        self.powered = powered;
    }

    /// So many seconds have passed since a datagram was answered.
    fn set_silent_seconds(&mut self, silent_seconds: u32)
        requires { silent_seconds ≤ 60 * most_minutes }
        ensures { self.new ≡ record self.old { silent_seconds = silent_seconds } }
    {
        self.silent_seconds = silent_seconds;
    }

    /// The row that is being validated is settled, under the defaults of now.
    #[tactic(auto, unfolding(crate::specs::Events::after_settling))]
    fn settle(&mut self)
        ensures { self.new ≡ after_settling self.old }
    {
        let Some(place) = self.table.settling() else {
            return;
        };
        let verdict = self.table.settle(&self.face, &self.settings.defaults);
        self.reports = self.reports.with_verdict(&verdict);
        self.known.note(place, &self.settings.defaults);
    }

    /// What is there as the power returns: what was shown at its loss is shown, volatile rows are gone, and no second
    /// was silent.
    fn restore(&mut self)
        ensures { self.new ≡ restored self.old }
    {
        self.table.after_power();
        let shown = self.shown_at_power_loss.again();
        self.source = source_of(&shown, self.table.order());
        self.shown = shown;
        self.powered = true;
        self.silent_seconds = 0;
    }
}

/// Refuses a code under these defaults for the first cause that there is; a text that is known to be good under them is
/// not checked again.
fn judge(
    known: &KnownTexts,
    table: &Table,
    face: &Face,
    defaults: &Defaults,
    code: &Activation,
    shown: &Shown,
) -> Result<(), Cause>
    requires fit { IsTrue (fit face.now.fonts defaults.now) }
    requires good { AreKnown known.now face.now table.now }
    ensures { result ≡ unless_refused tt (refusal face.now defaults.now table.now shown.now code.now) }
{
    let good_under = known.of(code.id.memory, code.id.number);
    table.judge(good_under, face, defaults, code, shown)
}

/// The octets of the code of what is shown.
fn source_of(shown: &Shown, order: Order) -> [u8; 5]
    ensures { result ≡ octets_of_id order shown.now.source }
{
    shown.source.to_bytes(order)
}
