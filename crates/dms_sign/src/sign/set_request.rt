//! A SET: each binding is judged, in order; then its values are assigned at once, and its command is done. A command is
//! judged on the state with the other values assigned; where it fails, nothing is assigned.

ghost use Rattle.std.specs.Prelude.{◌≡◌, ◌≤◌, ◌<◌, ◌+◌, ◌||◌, if◌then◌else◌, [], ◌∷◌, ◌++◌, Some, None, true, false};
ghost use Rattle.std.specs.Prelude.{length, take, find, map, option_map, slice_get, is_some};
ghost use Rattle.std.specs.Prelude.{IsSome, IfSome, IfOk, IfErr, OnOk};
ghost use Rattle.std.specs.List.{list_any, cons_option};
ghost use Rattle.dms_wire.specs.Limits.{AreBindingsInLimits, most_bindings};
ghost use Rattle.dms_wire.specs.View.{var_bind};
ghost use Rattle.dms_table.specs.Activation.{shown_by};
ghost use Rattle.dms_table.specs.Rows.{asked};
ghost use Rattle.dms_mib_instances.specs.Places.{HasCounts};
ghost use Rattle.dms_sign_access.specs.Access.{AskRow, Activate, is_command};
ghost use Rattle.dms_sign_access.specs.ChangeView.{write_by, IsChange};
ghost use Rattle.dms_sign_access.specs.Settings.{set_by};
ghost use Rattle.dms_sign_access.specs.Slots.{AreTaken};
ghost use Rattle.dms_sign.specs.InRange.{AreOctets, IsShownInRange};
ghost use Rattle.dms_sign.specs.Requests.{activated, with_remaining, writes_of, command_index};
ghost use Rattle.dms_sign.specs.Requests.{commanded, commanded_if, set};
ghost use Rattle.dms_sign.specs.SetRequest.{settable_instance, write_at, is_command_at, is_refused_field};
ghost use Rattle.dms_sign.specs.SetRequest.{causes_at, causes, with_writes, assigned};
ghost use Rattle.dms_sign.specs.SetView.{refusal_of, is_field, most_kept, AreKept, AreLeft, IsCommandInRange};
ghost use Rattle.dms_sign.specs.SetView.{Says, StaysWithout};
ghost use Rattle.dms_sign.specs.State.{SignState};

use crate::sign::{Sign, judge, source_of};
use dms_codes::{Activation, Ask, RowId, Status};
use dms_face::Face;
use dms_mib::Instance;
use dms_mib_instances::Counts;
use dms_sign_access::{Change, SignSettings, Slots, is_settable, mark_name, was_given, write_of};
use dms_table::{Mode, Table, seconds_of};
use dms_wire::{Bind, Binds, ErrorStatus, Oid};

/// Why a SET is refused: the index of a binding, from 1, and an error-status.
#[derive(Clone, Copy, Debug, PartialEq, Eq)]
pub(super) struct SetRefusal {
    pub index: u32,
    pub status: ErrorStatus,
}

/// What a SET that is not refused writes: the settings that it leaves, whether it writes fields, its command with its
/// index, and how many bindings it has.
#[derive(Clone, Copy)]
pub(super) struct Judged<'a> {
    pub settings: SignSettings,
    pub fields: bool,
    pub index: u32,
    pub command: Option<Change<'a>>,
    pub count: u32,
}

/// How many changes are kept: about as many as a datagram has room for, where each name is one that can be set.
const MOST_KEPT: usize = 64;

/// What the first bindings of a SET write, kept while they are judged: where there are more, they are read again.
type Kept<'a> = [Change<'a>; MOST_KEPT];

impl Sign {
    /// Does a SET, or says why it is refused.
    pub(super) fn set(
        &mut self,
        may_write: bool,
        binds: &Binds<'_>,
    ) -> Result<Option<Activation>, SetRefusal>
        requires few { length binds.now ≤ most_bindings }
        requires limits { AreBindingsInLimits binds.now }
        ensures after { self.new ≡ (set self.old may_write binds.now).after }
        ensures says { Says result (set self.old may_write binds.now) }
    {
        match binds.only() {
            Some(binding) => self.set_one(may_write, &binding, binds),
            None => self.set_all(may_write, binds),
        }
    }

    /// Does a SET of any number of bindings, or says why it is refused.
    fn set_all(
        &mut self,
        may_write: bool,
        binds: &Binds<'_>,
    ) -> Result<Option<Activation>, SetRefusal>
        requires few { length binds.now ≤ most_bindings }
        requires limits { AreBindingsInLimits binds.now }
        ensures after { self.new ≡ (set self.old may_write binds.now).after }
        ensures says { Says result (set self.old may_write binds.now) }
    {
        let mut kept: Kept<'_> = [Change::Remaining(0); MOST_KEPT];
        match self.judged(self.settings, may_write, binds, &mut kept) {
            Ok(judged) => self.command(&judged, changes_of(&kept, judged.count), binds),
            Err(refusal) => Err(refusal),
        }
    }

    /// What the bindings write, or the first cause of a refusal.
    fn judged<'a>(
        &self,
        settings: SignSettings,
        may_write: bool,
        binds: &Binds<'a>,
        kept: &mut Kept<'a>,
    ) -> Result<Judged<'a>, SetRefusal>
        requires { length binds.now ≤ most_bindings }
        ensures none { OnOk result (causes self.now may_write binds.now ≡ []) }
        ensures settings { IfOk result (λ judged. judged.settings ≡ set_by settings (writes_of self.now binds.now)) }
        ensures fields { IfOk result (λ judged. StaysWithout judged.fields self.now binds.now) }
        ensures kept { IfOk result (λ judged. AreKept kept.new judged.count self.now binds.now) }
        ensures command { IfOk result
            (λ judged. option_map write_by judged.command ≡ find is_command (writes_of self.now binds.now)) }
        ensures index { IfOk result (λ judged. judged.index ≡ command_index self.now binds.now) }
        ensures first { IfErr result
            (λ refusal. slice_get (causes self.now may_write binds.now) 0 ≡ Some (refusal_of refusal)) }
    {
        let mut judged = Judged {
            settings,
            fields: false,
            index: 0,
            command: None,
            count: 0,
        };
        let mut index = 0;
        let mut slots: Slots = [0; 16];
        let mut rest = binds.again();
        while let Some(binding) = rest.next() {
            let commanded = judged.command.is_some();
            match self.change_at(may_write, binds, index, &slots, commanded, &binding) {
                Ok(change) => {
                    keep(kept, index, &change);
                    index += 1;
                    mark_name(&mut slots, &binding.name);
                    judged.note(index, change);
                }
                Err(status) => {
                    return Err(SetRefusal {
                        index: index + 1,
                        status,
                    });
                }
            }
        }
        judged.count = index;
        Ok(judged)
    }

    /// What the binding after the first `index` bindings writes, or the first thing that is wrong with it.
    #[tactic(auto, using(crate::proofs::Alone::alone))]
    fn change_at<'a>(
        &self,
        may_write: bool,
        before: &Binds<'_>,
        index: u32,
        slots: &Slots,
        commanded: bool,
        binding: &Bind<'a>,
    ) -> Result<Change<'a>, ErrorStatus>
        requires taken { AreTaken slots.now (take index before.now) }
        requires commanded { commanded ≡ list_any (is_command_at self.now) (take index before.now) }
        ensures none { OnOk result (causes_at self.now may_write (take index before.now) (var_bind binding.now) ≡ []) }
        ensures change { IfOk result (λ change. write_at self.now (var_bind binding.now) ≡ Some (write_by change)) }
        ensures number { IfOk result (λ change. IsChange change) }
        ensures alone { IfOk result (λ change. is_command (write_by change) ≡ true → commanded ≡ false) }
        ensures refusal { IfErr result
            (λ status. slice_get (causes_at self.now may_write (take index before.now) (var_bind binding.now)) 0
            ≡ Some (record { index = length (take index before.now) + 1; status = status })) }
    {
        let change = match self.change_alone(may_write, binding) {
            Ok(change) => change,
            Err(status) => return Err(status),
        };
        if was_given(slots, &binding.name, before, index) {
            return Err(ErrorStatus::GenErr);
        }
        if change.is_command() && commanded {
            return Err(ErrorStatus::GenErr);
        }
        Ok(change)
    }

    /// What a binding writes, or the first thing that is wrong with it where none comes before it.
    #[tactic(auto, unfolding(crate::specs::SetRequest::write_at))]
    #[inline(always)]
    pub(super) fn change_alone<'a>(
        &self,
        may_write: bool,
        binding: &Bind<'a>,
    ) -> Result<Change<'a>, ErrorStatus>
        ensures none { OnOk result (causes_at self.now may_write [] (var_bind binding.now) ≡ []) }
        ensures change { IfOk result (λ change. write_at self.now (var_bind binding.now) ≡ Some (write_by change)) }
        ensures number { IfOk result (λ change. IsChange change) }
        ensures refusal { IfErr result
            (λ status. slice_get (causes_at self.now may_write [] (var_bind binding.now)) 0
            ≡ Some (record { index = 1; status = status })) }
    {
        if !may_write {
            return Err(ErrorStatus::NoSuchName);
        }
        let Some(instance) = self.settable(&binding.name) else {
            return Err(ErrorStatus::NoSuchName);
        };
        let Some(change) = write_of(&self.face, instance, &binding.value) else {
            return Err(ErrorStatus::BadValue);
        };
        if self.is_refused_field(&change) {
            return Err(ErrorStatus::GenErr);
        }
        Ok(change)
    }

    /// The instance of a name, where it can be set.
    #[tactic(auto, unfolding(crate::specs::SetRequest::settable_instance))]
    #[inline(always)]
    fn settable(&self, name: &Oid<'_>) -> Option<Instance>
        ensures { result ≡ settable_instance self.now name.now }
    {
        let instance = self.named(name)?;
        if is_settable(instance) {
            Some(instance)
        } else {
            None
        }
    }

    /// A write to a field of a row that is not being modified.
    #[inline(always)]
    fn is_refused_field(&self, change: &Change<'_>) -> bool
        ensures { result ≡ is_refused_field self.now.table (write_by change.now) }
    {
        match change {
            Change::Field(id, _) => match self.table.row(*id) {
                Some(row) => row.status != Status::Modifying,
                None => true,
            },
            _ => false,
        }
    }
}

impl<'a> Judged<'a> {
    /// Notes what the binding of this index writes.
    #[tactic(auto, unfolding(dms_sign_access::specs::Settings::set_by))]
    fn note(&mut self, index: u32, change: Change<'a>)
        requires { IsChange change }
        ensures settings { self.new.settings ≡ set_by self.old.settings (write_by change.entry ∷ []) }
        ensures fields { self.new.fields ≡ self.old.fields || is_field (write_by change.entry) }
        ensures command { option_map write_by self.new.command ≡ (if is_command (write_by change.entry)
            then Some (write_by change.entry) else option_map write_by self.old.command) }
        ensures index { self.new.index ≡ (if is_command (write_by change.entry) then index else self.old.index) }
    {
        match change {
            Change::Field(..) => self.fields = true,
            Change::Number(..) | Change::Code(..) => assign(&mut self.settings, &change),
            Change::Ask(..) | Change::Activate(_) | Change::Remaining(_) => {
                self.index = index;
                self.command = Some(change);
            }
        }
    }
}

/// Keeps what the binding after the first `index` bindings writes, where there is room.
fn keep<'a>(kept: &mut Kept<'a>, index: u32, change: &Change<'a>)
    ensures { index < most_kept → take (index + 1) kept.new ≡ take index kept.old ++ change.now ∷ [] }
{
    if (index as usize) < MOST_KEPT {
        kept[index as usize] = *change;
    }
}

/// What so many bindings write, where all of it was kept.
fn changes_of<'a, 'b>(kept: &'b Kept<'a>, count: u32) -> Option<&'b [Change<'a>]>
    ensures { IfSome result (λ changes. (count ≤ most_kept) × (changes.now ≡ take count kept.now)) }
{
    if count as usize <= MOST_KEPT {
        Some(&kept[..count as usize])
    } else {
        None
    }
}

/// Assigns what a binding writes: out of line, so that the settings are copied as a whole.
#[inline(never)]
fn assign(settings: &mut SignSettings, change: &Change<'_>)
    requires { IsChange change.now }
    ensures { settings.new ≡ set_by settings.old (write_by change.now ∷ []) }
{
    settings.assign(change);
}

impl Sign {
    /// Assigns the values and does the command, where there is one.
    fn command(
        &mut self,
        judged: &Judged<'_>,
        changes: Option<&[Change<'_>]>,
        binds: &Binds<'_>,
    ) -> Result<Option<Activation>, SetRefusal>
        requires settings { AreLeft judged.now.settings binds.now self.old }
        requires fields { StaysWithout judged.now.fields self.old binds.now }
        requires changes { IfSome changes (λ changes. map write_by changes.now ≡ writes_of self.old binds.now) }
        requires limits { AreBindingsInLimits binds.now }
        requires range { IfSome (option_map write_by judged.now.command) IsCommandInRange }
        ensures after { self.new ≡ (commanded_if self.old (assigned self.old (writes_of self.old binds.now)) binds.now
            judged.now.index (option_map write_by judged.now.command)).after }
        ensures says { Says result (commanded_if self.old (assigned self.old (writes_of self.old binds.now)) binds.now
            judged.now.index (option_map write_by judged.now.command)) }
    {
        match judged.command {
            Some(Change::Ask(id, ask)) => self.ask_row(id, ask, judged, changes, binds),
            Some(Change::Activate(octets)) => self.activate(octets, judged, changes, binds),
            Some(Change::Remaining(minutes)) => {
                self.assign(judged, changes, binds);
                self.set_remaining(minutes);
                Ok(None)
            }
            _ => {
                self.assign(judged, changes, binds);
                Ok(None)
            }
        }
    }

    /// A row is asked for another status (dmsMessageStatus).
    fn ask_row(
        &mut self,
        id: RowId,
        ask: Ask,
        judged: &Judged<'_>,
        changes: Option<&[Change<'_>]>,
        binds: &Binds<'_>,
    ) -> Result<Option<Activation>, SetRefusal>
        requires settings { AreLeft judged.now.settings binds.now self.old }
        requires fields { StaysWithout judged.now.fields self.old binds.now }
        requires changes { IfSome changes (λ changes. map write_by changes.now ≡ writes_of self.old binds.now) }
        requires limits { AreBindingsInLimits binds.now }
        ensures after { self.new ≡ (commanded self.old (assigned self.old (writes_of self.old binds.now)) binds.now
            judged.now.index (AskRow id ask)).after }
        ensures says { Says result (commanded self.old (assigned self.old (writes_of self.old binds.now)) binds.now
            judged.now.index (AskRow id ask)) }
    {
        if self.takes(id, ask) {
            self.assign(judged, changes, binds);
            self.ask(id, ask);
            Ok(None)
        } else {
            Err(SetRefusal {
                index: judged.index,
                status: ErrorStatus::GenErr,
            })
        }
    }

    /// Whether a row would take what is asked.
    fn takes(&self, id: RowId, ask: Ask) -> bool
        ensures { result ≡ is_some (asked self.now.table id ask) }
    {
        self.table.takes(id, ask)
    }

    /// Asks a row that takes it.
    fn ask(&mut self, id: RowId, ask: Ask)
        requires { IsSome (asked self.old.table id ask) }
        ensures { Some self.new
            ≡ option_map (λ table. record self.old { table = table }) (asked self.old.table id ask) }
    {
        let _ = self.table.ask(id, ask);
    }

    /// A code is to be activated (dmsActivateMessage): one that is refused changes only what is reported of it.
    fn activate(
        &mut self,
        octets: &[u8; 12],
        judged: &Judged<'_>,
        changes: Option<&[Change<'_>]>,
        binds: &Binds<'_>,
    ) -> Result<Option<Activation>, SetRefusal>
        requires settings { AreLeft judged.now.settings binds.now self.old }
        requires fields { StaysWithout judged.now.fields self.old binds.now }
        requires changes { IfSome changes (λ changes. map write_by changes.now ≡ writes_of self.old binds.now) }
        requires limits { AreBindingsInLimits binds.now }
        requires octets { AreOctets 12 octets.now }
        ensures after { self.new ≡ (commanded self.old (assigned self.old (writes_of self.old binds.now)) binds.now
            judged.now.index (Activate octets.now)).after }
        ensures says { Says result (commanded self.old (assigned self.old (writes_of self.old binds.now)) binds.now
            judged.now.index (Activate octets.now)) }
    {
        let code = Activation::of_octets(self.table.order(), octets);
        let defaults = &judged.settings.defaults;
        match judge(
            &self.known,
            &self.table,
            &self.face,
            defaults,
            &code,
            &self.shown,
        ) {
            Ok(()) => {
                self.assign(judged, changes, binds);
                self.accept(&code, *octets);
                Ok(Some(code))
            }
            Err(cause) => {
                self.refuse_code(&cause, *octets);
                Err(SetRefusal {
                    index: judged.index,
                    status: ErrorStatus::GenErr,
                })
            }
        }
    }

    /// Shows the message of a code that was accepted, in place of what was shown.
    pub(super) fn accept(&mut self, code: &Activation, octets: [u8; 12])
        requires shown { IsShownInRange (shown_by self.old.settings.defaults self.old.table self.old.shown code.now) }
        requires octets { AreOctets 12 octets }
        ensures { self.new
            ≡ activated self.old octets (shown_by self.old.settings.defaults self.old.table self.old.shown code.now) }
    {
        self.table
            .put_up(&self.settings.defaults, code, &mut self.shown);
        self.source = source_of(&self.shown, self.table.order());
        self.reports = self.reports.with_accepted(octets);
    }

    /// The minutes until the end of what is shown (dmsMessageTimeRemaining); where none remains the end has come.
    pub(super) fn set_remaining(&mut self, minutes: u16)
        ensures { self.new ≡ with_remaining self.old minutes }
    {
        if minutes == 0 {
            self.put_up(self.fallbacks().end_duration, Mode::EndDuration);
        } else {
            self.remain(seconds_of(minutes));
        }
    }

    /// All values are assigned at once.
    fn assign(&mut self, judged: &Judged<'_>, changes: Option<&[Change<'_>]>, binds: &Binds<'_>)
        requires settings { AreLeft judged.now.settings binds.now self.old }
        requires fields { StaysWithout judged.now.fields self.old binds.now }
        requires changes { IfSome changes (λ changes. map write_by changes.now ≡ writes_of self.old binds.now) }
        requires limits { AreBindingsInLimits binds.now }
        ensures { self.new ≡ assigned self.old (writes_of self.old binds.now) }
    {
        if !judged.fields {
            self.assign_settings(judged.settings, binds);
        } else if let Some(changes) = changes {
            self.assign_kept(judged.settings, changes, binds);
        } else {
            self.assign_fields(judged.settings, binds);
        }
    }

    fn assign_kept(&mut self, settings: SignSettings, changes: &[Change<'_>], binds: &Binds<'_>)
        requires settings { AreLeft settings binds.now self.old }
        requires changes { map write_by changes.now ≡ writes_of self.old binds.now }
        requires limits { AreBindingsInLimits binds.now }
        ensures { self.new ≡ assigned self.old (writes_of self.old binds.now) }
    {
        write_changes(&mut self.table, changes);
        self.settings = settings;
    }

    fn assign_fields(&mut self, settings: SignSettings, binds: &Binds<'_>)
        requires settings { AreLeft settings binds.now self.old }
        requires limits { AreBindingsInLimits binds.now }
        ensures { self.new ≡ assigned self.old (writes_of self.old binds.now) }
    {
        let counts = self.counts();
        write_fields(&counts, &self.face, &mut self.table, binds);
        self.settings = settings;
    }

    fn assign_settings(&mut self, settings: SignSettings, binds: &Binds<'_>)
        requires settings { AreLeft settings binds.now self.old }
        requires fields { StaysWithout false self.old binds.now }
        requires limits { AreBindingsInLimits binds.now }
        ensures { self.new ≡ assigned self.old (writes_of self.old binds.now) }
    {
        self.settings = settings;
    }
}

/// Writes the fields that these changes name.
fn write_changes(table: &mut Table, changes: &[Change<'_>])
    ensures { table.new ≡ with_writes table.old (map write_by changes.now) }
{
    for change in changes {
        write_change(table, Some(*change));
    }
}

/// Writes the fields that the bindings name.
#[inline(never)]
fn write_fields(counts: &Counts, face: &Face, table: &mut Table, binds: &Binds<'_>)
    ensures { (s : SignState) → HasCounts s.table counts.now → s.config.face ≡ face.now
        → table.new ≡ with_writes table.old (writes_of s binds.now) }
{
    let mut rest = binds.again();
    while let Some(binding) = rest.next() {
        write_change(table, change_of(counts, face, &binding));
    }
}

/// Writes a field, where its row takes it.
fn write_change(table: &mut Table, change: Option<Change<'_>>)
    ensures { table.new ≡ with_writes table.old (cons_option (option_map write_by change.entry) []) }
{
    if let Some(Change::Field(id, field)) = change {
        let _ = table.write(id, field);
    }
}

/// What a binding writes on a sign with this face and as many rows.
fn change_of<'a>(counts: &Counts, face: &Face, binding: &Bind<'a>) -> Option<Change<'a>>
    ensures { (s : SignState) → HasCounts s.table counts.now → s.config.face ≡ face.now
        → option_map write_by result ≡ write_at s (var_bind binding.now) }
{
    let instance = counts.named(&binding.name)?;
    if is_settable(instance) {
        write_of(face, instance, &binding.value)
    } else {
        None
    }
}
