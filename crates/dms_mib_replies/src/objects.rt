//! What has a value at some names, and which name comes next.

ghost use Rattle.std.specs.Prelude.{◌≡◌, ℕ, List, Option, option_map};
ghost use Rattle.dms_wire.specs.Message.{ObjectValue, VarBind};
ghost use Rattle.dms_wire.specs.View.{object_value};
ghost use Rattle.dms_mib_replies.specs.Next.{next_name, next_binding};

use dms_mib::{Name, NumberedName};
use dms_wire::{Oid, Value};

/// What can be asked for the value of a name, and for the first name after another that has a value.
pub trait Objects {
    ghost use Rattle.std.specs.Prelude.{ℕ, List, Option};
    ghost use Rattle.dms_wire.specs.Message.{ObjectValue, VarBind};

    ghost reads: { Self → List ℕ → Option ObjectValue };

    ghost follows: { Self → List ℕ → Option VarBind };

    /// What this name reads, where it is that of an instance.
    fn value(&self, name: &Oid<'_>) -> Option<Value<'_>>
        ensures { option_map object_value result ≡ reads self.now name.now };

    /// The first instance after a name, with what it reads.
    fn next(&self, name: &Oid<'_>) -> Option<Next<'_>>
        ensures { option_map next_binding result ≡ follows self.now name.now };
}

/// The instance that comes after a name, with what it reads.
#[derive(Drop)]
pub struct Next<'a> {
    /// The name of the instance.
    pub name: NextName<'a>,
    /// The value of the instance.
    pub value: Value<'a>,
}

/// A name that comes after another: that of an instance of a sign, one that its object keeps, or one that is made of
/// numbers.
#[derive(Drop)]
pub enum NextName<'a> {
    /// The name of an instance of a sign, which is made as it is asked for.
    Instance(Name),
    /// A name over octets that are kept elsewhere.
    Lent(Oid<'a>),
    /// A name of numbers, which is made as it is asked for.
    Numbered(NumberedName),
}

impl<'a> NextName<'a> {
    /// The name as an object identifier.
    pub fn oid(&self) -> Oid<'_>
        ensures { result ≡ next_name self.now }
    {
        match self {
            NextName::Instance(name) => name.oid(),
            NextName::Lent(name) => lent(name),
            NextName::Numbered(name) => name.oid(),
        }
    }
}

/// The same name, for as long as it is lent here.
fn lent<'a>(name: &'a Oid<'_>) -> Oid<'a>
    ensures { result ≡ name.now }
{
    name.again()
}
