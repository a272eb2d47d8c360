//! The names of instances as the content octets of object identifiers.

ghost use Rattle.std.specs.Prelude.{◌≡◌, ◌++◌, ◌+◌, ◌≤◌, ◌<◌, ◌∷◌, length};
ghost use Rattle.arrayvec.specs.ArrayVec.{array_vec_len};
ghost use Rattle.dms_wire_ber.specs.ObjectIdentifier.{sub_identifier_octets};
ghost use Rattle.dms_mib.specs.declared.instance.Instance.TheVariants as kinds;
ghost use Rattle.std.specs.Prelude.{[]};
ghost use Rattle.std.specs.Int.Digits.{AllBelowBase};
ghost use Rattle.dms_mib.specs.Names.{name_of, below_dms};
ghost use Rattle.dms_mib.specs.NameOctets.{IsNamed};

use crate::column::Column;
use crate::instance::Instance;
use crate::scalar::Scalar;
use arrayvec::ArrayVec;
use dms_codes::RowId;
use dms_wire_ber::{DMS, Oid};
use std::marker::Model;

/// Room for the octets of a name: fourteen up to a column, and at most three each of a type of memory and of a row's
/// number.
const MAX_NAME: usize = 20;

type Octets = ArrayVec<u8, MAX_NAME>;

/// An instance with the content octets of its name (X.690, 8.19).
#[derive(Drop)]
pub struct Name {
    /// The octets of the name, and zeros behind them.
    octets: [u8; MAX_NAME],
    instance: Instance,
    /// How many octets the name has.
    length: u32,
}

impl Model for Name {
    ghost use Rattle.std.specs.Prelude.{◌≤◌, take};
    ghost use Rattle.dms_mib.specs.declared.instance.Instance.{Instance};
    ghost use Rattle.dms_mib.specs.NameOctets.{IsNamed};

    ghost Value = { Instance };

    ghost view = { λ n. n.instance };

    ghost invariant = { λ n. (n.length ≤ 20) × IsNamed n.instance (take n.length n.octets) };
}

impl Name {
    /// The name of an instance.
    #[inline(always)]
    pub fn of(instance: Instance) -> Name
        ensures { result ≡ instance }
    {
        match instance {
            Instance::Scalar(object) => of_scalar(object),
            Instance::Cell(column, row) => of_cell(column, row.memory, row.number),
        }
    }

    /// The instance that has the name.
    pub fn instance(&self) -> Instance
        ensures { result ≡ self.now }
    {
        self.instance
    }

    /// The name as an object identifier.
    pub fn oid(&self) -> Oid<'_>
        ensures { result ≡ name_of self.now }
    {
        Oid::known(&self.octets[..self.length as usize])
    }
}

/// A name below dms of numbers below 128 and one more, by its content octets.
#[derive(Drop)]
pub struct NumberedName {
    content: Octets,
}

impl Model for NumberedName {
    ghost use Rattle.std.specs.Prelude.{ℕ, List};
    ghost use Rattle.dms_wire_ber.specs.ObjectIdentifier.{IsName};
    ghost use Rattle.dms_wire_ber.specs.NameReading.{numbers_of};

    ghost Value = { List ℕ };

    ghost view = { λ n. numbers_of n.content.items };

    ghost invariant = { λ n. IsName (numbers_of n.content.items) n.content.items };
}

impl NumberedName {
    /// The name of dms with these numbers and one more after it.
    pub fn of(numbers: &[u8], last: u16) -> NumberedName
        requires few { length numbers.now ≤ 7 }
        requires small { AllBelowBase 128 numbers.now }
        ensures { result ≡ below_dms (numbers.now ++ last ∷ []) }
    {
        let mut content = below_dms(numbers);
        push_sub_identifier(&mut content, last);
        NumberedName { content }
    }

    /// The name as an object identifier.
    pub fn oid(&self) -> Oid<'_>
        ensures { result ≡ self.now }
    {
        Oid::known(self.content.as_slice())
    }
}

#[inline(never)]
fn of_scalar(object: Scalar) -> Name
    ensures { result ≡ kinds.Scalar object }
{
    let (group, number) = object.number();
    let [a, b, c, d, e, f, g, h, i, j] = DMS;
    Name {
        instance: Instance::Scalar(object),
        octets: [
            a, b, c, d, e, f, g, h, i, j, group, number, 0, 0, 0, 0, 0, 0, 0, 0,
        ],
        length: 13,
    }
}

/// The name of a cell: both numbers of its row have one octet, but for rows from number 128.
#[inline(always)]
fn of_cell(column: Column, memory: u8, number: u16) -> Name
    ensures { result ≡ kinds.Cell column (record { memory = memory; number = number }) }
{
    if memory < 128 && number < 128 {
        of_short_cell(column, memory, number as u8)
    } else {
        of_long_cell(column, memory, number)
    }
}

/// The name of a cell where both numbers of its row are below 128.
#[inline(never)]
fn of_short_cell(column: Column, memory: u8, number: u8) -> Name
    requires memory { memory < 128 }
    requires number { number < 128 }
    ensures { result ≡ kinds.Cell column (record { memory = memory; number = number }) }
{
    let [a, b, c, d, e, f, g, h, i, j] = DMS;
    let entry = column.number();
    Name {
        instance: Instance::Cell(
            column,
            RowId {
                memory,
                number: u16::from(number),
            },
        ),
        octets: [
            a, b, c, d, e, f, g, h, i, j, 5, 8, 1, entry, memory, number, 0, 0, 0, 0,
        ],
        length: 16,
    }
}

/// The name of a cell, its numbers as long as they are.
#[inline(never)]
fn of_long_cell(column: Column, memory: u8, number: u16) -> Name
    ensures { result ≡ kinds.Cell column (record { memory = memory; number = number }) }
{
    let mut octets = below_dms(&[5, 8, 1, column.number()]);
    push_sub_identifier(&mut octets, u16::from(memory));
    push_sub_identifier(&mut octets, number);
    let length = octets.len();
    let mut padded = [0; MAX_NAME];
    padded[..length].copy_from_slice(octets.as_slice());
    Name {
        instance: Instance::Cell(column, RowId { memory, number }),
        octets: padded,
        length: length as u32,
    }
}

/// The octets of dms with those of sub-identifiers after them.
fn below_dms(after: &[u8]) -> Octets
    requires { length after.now ≤ 10 }
    ensures { result.items ≡ 43 ∷ 6 ∷ 1 ∷ 4 ∷ 1 ∷ 137 ∷ 54 ∷ 4 ∷ 2 ∷ 3 ∷ after.now }
{
    let mut octets = Octets::new();
    let _ = octets.try_extend_from_slice(&DMS);
    let _ = octets.try_extend_from_slice(after);
    octets
}

/// Appends a sub-identifier's digits in base 128 (X.690, 8.19.2).
#[tactic(auto, using(crate::proofs::SubIdentifiers::sizes))]
fn push_sub_identifier(octets: &mut Octets, number: u16)
    requires { array_vec_len octets.old + 3 ≤ 20 }
    ensures octets { octets.new.items ≡ octets.old.items ++ sub_identifier_octets number }
    ensures room { array_vec_len octets.new ≤ array_vec_len octets.old + 3 }
{
    let low = (number % 128) as u8;
    let middle = (number / 128 % 128) as u8;
    let high = (number / 16384) as u8;
    let _ = if number < 128 {
        octets.try_extend_from_slice(&[low])
    } else if number < 16384 {
        octets.try_extend_from_slice(&[128 + middle, low])
    } else {
        octets.try_extend_from_slice(&[128 + high, 128 + middle, low])
    };
}
