//! A SET of one binding, as most are: no name can be given twice, and what is written is not read again.

ghost use Rattle.std.specs.Prelude.{◌≡◌, List, [], ◌∷◌};
ghost use Rattle.dms_wire.specs.Message.{VarBind};
ghost use Rattle.dms_wire.specs.Limits.{AreBindingsInLimits};
ghost use Rattle.dms_wire.specs.View.{var_bind};
ghost use Rattle.dms_sign_access.specs.ChangeView.{write_by, IsChange};
ghost use Rattle.dms_sign_access.specs.Access.{AskRow, Activate};
ghost use Rattle.dms_sign_access.specs.Settings.{set_by};
ghost use Rattle.dms_sign.specs.InRange.{AreOctets};
ghost use Rattle.dms_sign.specs.Requests.{writes_of, commanded, set};
ghost use Rattle.dms_sign.specs.SetRequest.{with_writes, assigned};
ghost use Rattle.dms_sign.specs.SetView.{Says, IsCommandInRange};

use crate::sign::set_request::SetRefusal;
use crate::sign::{Sign, judge};
use dms_codes::{Activation, Ask, RowId};
use dms_sign_access::{Change, SignSettings};
use dms_table::Table;
use dms_wire::{Bind, Binds, ErrorStatus};

impl Sign {
    /// Does a SET of this binding alone, or says why it is refused.
    pub(super) fn set_one(
        &mut self,
        may_write: bool,
        binding: &Bind<'_>,
        binds: &Binds<'_>,
    ) -> Result<Option<Activation>, SetRefusal>
        requires only { binds.now ≡ var_bind binding.now ∷ [] }
        requires limits { AreBindingsInLimits binds.now }
        ensures after { self.new ≡ (set self.old may_write binds.now).after }
        ensures says { Says result (set self.old may_write binds.now) }
    {
        let change = match self.change_alone(may_write, binding) {
            Ok(change) => change,
            Err(status) => return Err(SetRefusal { index: 1, status }),
        };
        if change.is_command() {
            self.command_alone(&change)
        } else {
            self.assign_one(&change, binds);
            Ok(None)
        }
    }

    /// Does a command beside which nothing is assigned.
    fn command_alone(&mut self, change: &Change<'_>) -> Result<Option<Activation>, SetRefusal>
        requires { IsCommandInRange (write_by change.now) }
        ensures after { (bindings : List VarBind)
            → self.new ≡ (commanded self.old self.old bindings 1 (write_by change.now)).after }
        ensures says { (bindings : List VarBind)
            → Says result (commanded self.old self.old bindings 1 (write_by change.now)) }
    {
        match change {
            Change::Ask(id, ask) => self.ask_alone(*id, *ask),
            Change::Activate(octets) => self.activate_alone(octets),
            Change::Remaining(minutes) => {
                self.set_remaining(*minutes);
                Ok(None)
            }
            Change::Number(..) | Change::Code(..) | Change::Field(..) => Ok(None),
        }
    }

    /// A row is asked for another status, and nothing else.
    fn ask_alone(&mut self, id: RowId, ask: Ask) -> Result<Option<Activation>, SetRefusal>
        ensures after { (bindings : List VarBind)
            → self.new ≡ (commanded self.old self.old bindings 1 (AskRow id ask)).after }
        ensures says { (bindings : List VarBind)
            → Says result (commanded self.old self.old bindings 1 (AskRow id ask)) }
    {
        match self.table.ask(id, ask) {
            Ok(()) => Ok(None),
            Err(_) => Err(REFUSED_ALONE),
        }
    }

    /// A code is to be activated, and nothing else.
    fn activate_alone(&mut self, octets: &[u8; 12]) -> Result<Option<Activation>, SetRefusal>
        requires { AreOctets 12 octets.now }
        ensures after { (bindings : List VarBind)
            → self.new ≡ (commanded self.old self.old bindings 1 (Activate octets.now)).after }
        ensures says { (bindings : List VarBind)
            → Says result (commanded self.old self.old bindings 1 (Activate octets.now)) }
    {
        let code = Activation::of_octets(self.table.order(), octets);
        match judge(
            &self.known,
            &self.table,
            &self.face,
            &self.settings.defaults,
            &code,
            &self.shown,
        ) {
            Ok(()) => {
                self.accept(&code, *octets);
                Ok(Some(code))
            }
            Err(cause) => {
                self.refuse_code(&cause, *octets);
                Err(REFUSED_ALONE)
            }
        }
    }

    /// Assigns the value of the only binding.
    fn assign_one(&mut self, change: &Change<'_>, binds: &Binds<'_>)
        requires change { IsChange change.now }
        requires writes { writes_of self.old binds.now ≡ write_by change.now ∷ [] }
        requires limits { AreBindingsInLimits binds.now }
        ensures { self.new ≡ assigned self.old (writes_of self.old binds.now) }
    {
        write(&mut self.table, &mut self.settings, change);
    }
}

/// The only binding is a command that fails.
const REFUSED_ALONE: SetRefusal = SetRefusal {
    index: 1,
    status: ErrorStatus::GenErr,
};

/// Writes a field, where its row takes it, or a setting.
#[tactic(auto, unfolding(dms_sign_access::specs::Settings::set_by))]
fn write(table: &mut Table, settings: &mut SignSettings, change: &Change<'_>)
    requires { IsChange change.now }
    ensures fields { table.new ≡ with_writes table.old (write_by change.now ∷ []) }
    ensures settings { settings.new ≡ set_by settings.old (write_by change.now ∷ []) }
{
    match change {
        Change::Field(id, field) => {
            let _ = table.write(*id, *field);
        }
        _ => settings.assign(change),
    }
}
