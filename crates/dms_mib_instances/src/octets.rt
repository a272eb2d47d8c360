//! The content octets of a name: whose name they are, and its numbers one by one.

ghost use Rattle.std.specs.Prelude.{◌≡◌, ◌≤◌, ◌<◌, ◌+◌, ◌∷◌, [], ℕ, List, Some, IfSome, IfNone};
ghost use Rattle.dms_mib.specs.declared.column.Column.{Column};
ghost use Rattle.dms_mib.specs.declared.scalar.Scalar.{Scalar};
ghost use Rattle.dms_mib.specs.declared.instance.Instance.TheVariants as kinds;
ghost use Rattle.dms_mib.specs.Names.{column_number, scalar_number};
ghost use Rattle.dms_mib.specs.NameOctets.{IsNamed};
ghost use Rattle.dms_mib_instances.specs.NameReading.{column_at, scalar_at, octets_below, row_number_of, IsFoundBy};

use dms_codes::RowId;
use dms_mib::{Column, Instance, Scalar};
use dms_wire_ber::below_dms;

/// The instance whose name has these content octets, where it is an object's, or a cell's of a row of at most 255.
#[inline(always)]
pub(crate) fn instance(content: &[u8]) -> Option<Instance>
    ensures named { IfSome result (λ i. IsNamed i content.now) }
    ensures found { IsFoundBy content.now result }
{
    match below_dms(content)? {
        [5, 8, 1, column, memory, number] => cell_named(*column, *memory, *number),
        [5, 8, 1, column, memory, 129, low] => long_cell_named(*column, *memory, *low),
        [group, number, 0] => object_named(*group, *number),
        _ => None,
    }
}

/// The cell whose name ends in these octets: one each of its column, its row's type of memory and its row's number.
#[inline]
fn cell_named(column: u8, memory: u8, number: u8) -> Option<Instance>
    ensures named { IfSome result (λ i. IsNamed i
        (43 ∷ 6 ∷ 1 ∷ 4 ∷ 1 ∷ 137 ∷ 54 ∷ 4 ∷ 2 ∷ 3 ∷ 5 ∷ 8 ∷ 1 ∷ column ∷ memory ∷ number ∷ [])) }
    ensures found { (c : Column) → column_number c ≡ column → memory < 128 → number < 128
        → result ≡ Some (kinds.Cell c (record { memory = memory; number = number })) }
{
    if memory < 128 && number < 128 {
        let column = column_of(column)?;
        let number = u16::from(number);
        Some(Instance::Cell(column, RowId { memory, number }))
    } else {
        None
    }
}

/// The cell whose name ends in these octets: one each of its column and its row's type of memory, and two of its row's
/// number.
#[inline]
fn long_cell_named(column: u8, memory: u8, low: u8) -> Option<Instance>
    ensures named { IfSome result (λ i. IsNamed i
        (43 ∷ 6 ∷ 1 ∷ 4 ∷ 1 ∷ 137 ∷ 54 ∷ 4 ∷ 2 ∷ 3 ∷ 5 ∷ 8 ∷ 1 ∷ column ∷ memory ∷ 129 ∷ low ∷ [])) }
    ensures found { (c : Column) → column_number c ≡ column → memory < 128 → low < 128
        → result ≡ Some (kinds.Cell c (record { memory = memory; number = 128 + low })) }
{
    if memory < 128 && low < 128 {
        let column = column_of(column)?;
        let number = u16::from(128 + low);
        Some(Instance::Cell(column, RowId { memory, number }))
    } else {
        None
    }
}

/// The object whose instance's name ends in these octets and 0.
#[inline]
fn object_named(group: u8, number: u8) -> Option<Instance>
    ensures named { IfSome result
        (λ i. IsNamed i (43 ∷ 6 ∷ 1 ∷ 4 ∷ 1 ∷ 137 ∷ 54 ∷ 4 ∷ 2 ∷ 3 ∷ group ∷ number ∷ 0 ∷ [])) }
    ensures found { (s : Scalar) → scalar_number s ≡ (group, number) → result ≡ Some (kinds.Scalar s) }
{
    Some(Instance::Scalar(scalar_of(group, number)?))
}

// made by tools/objects.py --code

/// The column of this number.
#[inline]
pub(crate) fn column_of(number: u8) -> Option<Column>
    ensures named { IfSome result (λ c. column_number c ≡ number) }
    ensures found { result ≡ column_at number }
{
    match number {
        1 => Some(Column::MemoryType),
        2 => Some(Column::Number),
        3 => Some(Column::MultiString),
        4 => Some(Column::Owner),
        5 => Some(Column::Crc),
        6 => Some(Column::Beacon),
        7 => Some(Column::PixelService),
        8 => Some(Column::RunTimePriority),
        9 => Some(Column::Status),
        _ => None,
    }
}

/// The object of this number in this group.
#[inline]
pub(crate) fn scalar_of(group: u8, number: u8) -> Option<Scalar>
    ensures named { IfSome result (λ s. scalar_number s ≡ (group, number)) }
    ensures found { result ≡ scalar_at group number }
{
    match group {
        2 => vms_object(number),
        4 => multi_object(number),
        5 => message_object(number),
        6 => control_object(number),
        _ => None,
    }
}

/// The object of this number in vmsCfg, group 2.
#[inline]
fn vms_object(number: u8) -> Option<Scalar>
    ensures named { IfSome result (λ s. scalar_number s ≡ (2, number)) }
    ensures found { result ≡ scalar_at 2 number }
{
    match number {
        3 => Some(Scalar::SignHeightPixels),
        4 => Some(Scalar::SignWidthPixels),
        _ => None,
    }
}

/// The object of this number in multiCfg, group 4.
#[inline]
fn multi_object(number: u8) -> Option<Scalar>
    ensures named { IfSome result (λ s. scalar_number s ≡ (4, number)) }
    ensures found { result ≡ scalar_at 4 number }
{
    match number {
        1 => Some(Scalar::DefaultBackgroundColor),
        2 => Some(Scalar::DefaultForegroundColor),
        3 => Some(Scalar::DefaultFlashOn),
        4 => Some(Scalar::DefaultFlashOff),
        5 => Some(Scalar::DefaultFont),
        6 => Some(Scalar::DefaultJustificationLine),
        7 => Some(Scalar::DefaultJustificationPage),
        8 => Some(Scalar::DefaultPageOnTime),
        9 => Some(Scalar::DefaultPageOffTime),
        11 => Some(Scalar::ColorScheme),
        _ => None,
    }
}

/// The object of this number in dmsMessage, group 5.
#[inline]
fn message_object(number: u8) -> Option<Scalar>
    ensures named { IfSome result (λ s. scalar_number s ≡ (5, number)) }
    ensures found { result ≡ scalar_at 5 number }
{
    match number {
        1 => Some(Scalar::NumPermanentMsg),
        2 => Some(Scalar::NumChangeableMsg),
        3 => Some(Scalar::MaxChangeableMsg),
        4 => Some(Scalar::FreeChangeableMemory),
        5 => Some(Scalar::NumVolatileMsg),
        6 => Some(Scalar::MaxVolatileMsg),
        7 => Some(Scalar::FreeVolatileMemory),
        9 => Some(Scalar::ValidateMessageError),
        _ => None,
    }
}

/// The object of this number in signControl, group 6.
#[inline]
fn control_object(number: u8) -> Option<Scalar>
    ensures named { IfSome result (λ s. scalar_number s ≡ (6, number)) }
    ensures found { result ≡ scalar_at 6 number }
{
    match number {
        3 => Some(Scalar::ActivateMessage),
        4 => Some(Scalar::MessageTimeRemaining),
        5 => Some(Scalar::MsgTableSource),
        6 => Some(Scalar::MsgRequesterId),
        7 => Some(Scalar::MsgSourceMode),
        8 => Some(Scalar::ShortPowerRecoveryMessage),
        9 => Some(Scalar::LongPowerRecoveryMessage),
        10 => Some(Scalar::ShortPowerLossTime),
        12 => Some(Scalar::CommunicationsLossMessage),
        13 => Some(Scalar::TimeCommLoss),
        14 => Some(Scalar::PowerLossMessage),
        15 => Some(Scalar::EndDurationMessage),
        17 => Some(Scalar::ActivateMsgError),
        18 => Some(Scalar::MultiSyntaxError),
        19 => Some(Scalar::MultiSyntaxErrorPosition),
        24 => Some(Scalar::ActivateErrorMsgCode),
        _ => None,
    }
}

/// The last number of an object in a group.
#[inline]
pub(crate) fn last_object(group: u8) -> u8
    ensures { (object : Scalar) → (scalar_number object).0 ≡ group → (scalar_number object).1 ≤ result }
{
    match group {
        2 => 4,
        4 => 11,
        5 => 9,
        6 => 24,
        _ => 0,
    }
}

// the end of what is made

/// The first octet and those after it.
#[inline(always)]
pub(crate) fn first_octet(octets: &[u8]) -> Option<(u8, &[u8])>
    ensures some { IfSome result (λ x. octets.now ≡ x.0 ∷ x.1.now) }
    ensures none { IfNone result (octets.now ≡ []) }
{
    match octets {
        [first, rest @ ..] => Some((*first, rest)),
        [] => None,
    }
}

/// The number after one of these, by its first octet: that of a number of 128 or more stays one.
#[inline]
pub(crate) fn number_after(octet: u8) -> u8
    ensures few { octet < 128 → result ≡ octet + 1 }
    ensures many { octet ≤ result }
{
    if octet < 255 { octet + 1 } else { 255 }
}

/// The number of a row that these octets begin with: 0 where there is none, and 255, the last that a row has, for one
/// above it.
#[inline]
pub(crate) fn row_number(octets: &[u8]) -> u8
    ensures { (numbers : List ℕ) → octets_below numbers ≡ octets.now → result ≡ row_number_of numbers }
{
    let Some((number, rest)) = first_octet(octets) else {
        return 0;
    };
    if number < 128 {
        return number;
    }
    match first_octet(rest) {
        Some((low, _)) if number == 129 && low < 128 => 128 + low,
        _ => 255,
    }
}
