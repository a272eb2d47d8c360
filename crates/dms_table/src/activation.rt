//! What a code activates, and why one is refused.

ghost use Rattle.std.specs.Prelude.{◌≡◌, true, None, IsTrue, IfSome, option_map};
ghost use Rattle.dms_face.specs.Face.{fit};
ghost use Rattle.dms_face.specs.Fit.{fault_of};
ghost use Rattle.dms_codes.specs.Memory.{current_buffer};
ghost use Rattle.dms_codes.specs.Status.{is_valid};
ghost use Rattle.dms_table.specs.Validation.{HasGoodTextWhereValid};
ghost use Rattle.dms_face.specs.Layout.{under};
ghost use Rattle.dms_table.specs.RowsView.{reading_of, IsShort};
ghost use Rattle.dms_table.specs.Activation.{is_memory, named, activation_error, refusal, shown_by};
ghost use Rattle.dms_table.specs.Activation.{unless_refused, decided};
ghost use Rattle.dms_table.specs.declared.activation.Cause.TheVariants.{Syntax};

use crate::row::RowView;
use crate::shown::Shown;
use crate::table::Table;
use dms_codes::{Activation, Memory, MessageId, Status, memory};
use dms_face::{Defaults, Face, MultiFault, check_with};
use std::error::Error;
use std::fmt;

/// What keeps a code from putting its message up: the values of dmsActivateMsgError.
#[derive(Clone, Copy, Debug, PartialEq, Eq)]
pub enum Cause {
    /// No type of memory.
    MemoryType,
    /// No row of this number.
    Number,
    /// The row is not valid.
    Status,
    /// The row has another checksum.
    Checksum,
    /// What is shown has a higher priority.
    Priority,
    /// The text does not fit.
    Syntax(MultiFault),
}

impl Cause {
    ghost use Rattle.std.specs.Prelude.{◌≡◌};
    ghost use Rattle.dms_table.specs.Activation.{cause_number};

    /// The cause's number in dmsActivateMsgError.
    pub fn number(self) -> u8
        ensures { result ≡ cause_number self }
    {
        match self {
            Cause::Priority => 3,
            Cause::Status => 4,
            Cause::MemoryType => 5,
            Cause::Number => 6,
            Cause::Checksum => 7,
            Cause::Syntax(_) => 8,
        }
    }
}

impl fmt::Display for Cause {
    ghost use Rattle.std.specs.Prelude.{Some};
    ghost use Rattle.dms_table.specs.FaultTexts.{cause_text};

    ghost output = { λ cause. Some (cause_text cause) };

    fn fmt<W: fmt::Write>(&self, f: &mut fmt::Formatter<W>) -> fmt::Result {
        match self {
            Cause::MemoryType => f.write_str("no type of memory"),
            Cause::Number => f.write_str("no such row"),
            Cause::Status => f.write_str("the row is not valid"),
            Cause::Checksum => f.write_str("another checksum"),
            Cause::Priority => f.write_str("what is shown has a higher priority"),
            Cause::Syntax(fault) => write!(f, "{fault}"),
        }
    }
}

impl Error for Cause {}

impl Table {
    /// What a code activates, or why it is refused. Nothing changes. The defaults must fit the face.
    pub fn decide(
        &self,
        face: &Face,
        defaults: &Defaults,
        code: &Activation,
        shown: &Shown,
    ) -> Result<Shown, Cause>
        requires { IsTrue (fit face.now.fonts defaults.now) }
        ensures { result ≡ decided face.now defaults.now self.now shown.now code.now }
    {
        match self.judge(None, face, defaults, code, shown) {
            Ok(()) => {
                let mut next = shown.again();
                self.put_up(defaults, code, &mut next);
                Ok(next)
            }
            Err(cause) => Err(cause),
        }
    }

    /// Refuses a code for the first cause that there is. A text that is known to be good under the same defaults is not
    /// checked again. The defaults must fit the face; under `good_under` the row's text must be good where it is valid.
    pub fn judge(
        &self,
        good_under: Option<&Defaults>,
        face: &Face,
        defaults: &Defaults,
        code: &Activation,
        shown: &Shown,
    ) -> Result<(), Cause>
        requires fit { IsTrue (fit face.now.fonts defaults.now) }
        requires good { IfSome good_under (λ known.
            HasGoodTextWhereValid (under face.now known.now) self.now code.now.id.memory code.now.id.number) }
        ensures { result ≡ unless_refused tt (refusal face.now defaults.now self.now shown.now code.now) }
    {
        if !is_memory(code.id.memory) {
            return Err(Cause::MemoryType);
        }
        match self.named(shown, &code.id) {
            None => Err(Cause::Number),
            Some(row) => judge_row(good_under, face, defaults, code, shown, &row),
        }
    }

    /// Puts up the message that a code names, in the place of what is shown; a code that `judge` let pass names one,
    /// and by one that names none nothing changes.
    pub fn put_up(&self, defaults: &Defaults, code: &Activation, shown: &mut Shown)
        ensures { shown.new ≡ shown_by defaults.now self.now shown.old code.now }
    {
        if code.id.memory != memory::CURRENT_BUFFER {
            if let Some(row) = self.row(code.id.row()) {
                shown.take(code, &row, defaults);
            }
        } else if code.id.number == 1 {
            shown.renew(code);
        }
    }

    /// The row that a code names; that of the current buffer is what is shown.
    fn named<'a>(&'a self, shown: &'a Shown, id: &MessageId) -> Option<RowView<'a>>
        ensures read { option_map reading_of result ≡ named self.now shown.now id.now }
        ensures short { IfSome result (λ view. IsShort view) }
    {
        if id.memory != memory::CURRENT_BUFFER {
            return self.row(id.row());
        }
        if id.number == 1 {
            Some(shown.view())
        } else {
            None
        }
    }
}

fn is_memory(kind: u8) -> bool
    ensures { result ≡ is_memory kind }
{
    Memory::of(kind).is_some()
}

/// Refuses a code of this row for the first cause that there is; a text that is known to be good under the same
/// defaults is not checked.
fn judge_row(
    good_under: Option<&Defaults>,
    face: &Face,
    defaults: &Defaults,
    code: &Activation,
    shown: &Shown,
    row: &RowView<'_>,
) -> Result<(), Cause>
    requires fit { IsTrue (fit face.now.fonts defaults.now) }
    requires good { IfSome good_under (λ known.
        is_valid row.now.status ≡ true → (code.now.id.memory ≡ current_buffer → ⊥)
        → fault_of (under face.now known.now) row.now.text.now ≡ None) }
    ensures { result
        ≡ unless_refused tt (activation_error (under face.now defaults.now) shown.now code.now (reading_of row.now)) }
{
    if row.status != Status::Valid {
        return Err(Cause::Status);
    }
    if code.id.memory != memory::BLANK && code.id.crc != row.checksum {
        return Err(Cause::Checksum);
    }
    if code.priority < shown.priority {
        return Err(Cause::Priority);
    }
    if code.id.memory == memory::CURRENT_BUFFER {
        return Ok(());
    }
    match good_under {
        Some(known) if *known == *defaults => Ok(()),
        _ => judge_text(face, defaults, row.text),
    }
}

/// Refuses a text that does not fit.
#[inline(never)]
fn judge_text(face: &Face, defaults: &Defaults, text: &[u8]) -> Result<(), Cause>
    requires { IsTrue (fit face.now.fonts defaults.now) }
    ensures { result ≡ unless_refused tt (option_map Syntax (fault_of (under face.now defaults.now) text.now)) }
{
    match check_with(face, defaults, text) {
        Ok(_) => Ok(()),
        Err(fault) => Err(Cause::Syntax(fault)),
    }
}
