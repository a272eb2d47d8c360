//! Which objects can be set, and what a value writes to one.

ghost use Rattle.std.specs.Prelude.{◌≡◌, ◌≤◌, option_map, IfSome};
ghost use Rattle.dms_wire.specs.View.{object_value};
ghost use Rattle.dms_face.specs.Face.{FaceModel};
ghost use Rattle.dms_mib.specs.declared.objects.Access.TheVariants.{Write, Command};
ghost use Rattle.dms_mib.specs.declared.scalar.Scalar.TheVariants.{DefaultFont};
ghost use Rattle.dms_mib.specs.Objects.{scalar_row};
ghost use Rattle.dms_sign_access.specs.Access.{has_writable_rows, is_settable_column, is_settable_object, is_settable};
ghost use Rattle.dms_sign_access.specs.Access.{is_command, number_in, octets_in, font_in, ask_of, SetNumber, SetCode};
ghost use Rattle.dms_sign_access.specs.Access.{Activate, SetRemaining, setting_of, object_write, cell_write, write_of};
ghost use Rattle.dms_sign_access.specs.ChangeView.{write_by, IsNumberOf, IsChange};

use dms_codes::{Ask, MAX_OWNER, MAX_TEXT, Memory, RowId};
use dms_face::Face;
use dms_mib::{Access, Column, Instance, Scalar, Syntax};
use dms_table::Field;
use dms_wire::Value;

/// What a binding writes. The last three are commands.
#[derive(Clone, Copy, Debug, PartialEq, Eq)]
pub enum Change<'a> {
    /// The number of an object that is a setting.
    Number(Scalar, u16),
    /// The code of a message that the sign activates by itself.
    Code(Scalar, &'a [u8; 5]),
    /// A field of a row.
    Field(RowId, Field<'a>),
    /// What is asked of a row (dmsMessageStatus).
    Ask(RowId, Ask),
    /// The code of the message that is to be shown (dmsActivateMessage).
    Activate(&'a [u8; 12]),
    /// Minutes.
    Remaining(u16),
}

impl<'a> Change<'a> {
    /// Whether it is a command, which assigns no value.
    pub fn is_command(&self) -> bool
        ensures { result ≡ is_command (write_by self.now) }
    {
        matches!(
            self,
            Change::Ask(..) | Change::Activate(_) | Change::Remaining(_)
        )
    }
}

/// Changeable and volatile rows can be written.
fn is_writable_row(id: RowId) -> bool
    ensures { result ≡ has_writable_rows id.memory }
{
    matches!(id.memory(), Some(Memory::Changeable | Memory::Volatile))
}

fn is_settable_column(column: Column) -> bool
    ensures { result ≡ is_settable_column column }
{
    column.max_access().is_written()
}

#[tactic(auto, unfolding(crate::specs::Access::is_settable_object))]
fn is_settable_object(object: Scalar) -> bool
    ensures { result ≡ is_settable_object object }
{
    object.max_access().is_written()
}

/// Whether an instance can be set.
pub fn is_settable(instance: Instance) -> bool
    ensures { result ≡ is_settable instance }
{
    match instance {
        Instance::Scalar(object) => is_settable_object(object),
        Instance::Cell(column, id) => is_settable_column(column) && is_writable_row(id),
    }
}

/// The number from low to high that a value is.
fn number_in(low: u16, high: u16, value: &Value<'_>) -> Option<u16>
    ensures exact { result ≡ number_in low high (object_value value.now) }
    ensures most { IfSome result (λ number. number ≤ high) }
{
    match value {
        Value::Integer(number) if *number >= i64::from(low) && *number <= i64::from(high) => {
            u16::try_from(*number).ok()
        }
        _ => None,
    }
}

/// The octets that a value is, from low to high of them.
fn octets_in<'a>(low: usize, high: usize, value: &Value<'a>) -> Option<&'a [u8]>
    ensures { option_map (λ octets. octets.now) result ≡ octets_in low high (object_value value.now) }
{
    match value {
        Value::Octets(octets) if low <= octets.len() && octets.len() <= high => Some(octets),
        _ => None,
    }
}

/// The number of a font of the face that a value is.
fn font_in(face: &Face, value: &Value<'_>) -> Option<u16>
    ensures exact { result ≡ font_in face.now (object_value value.now) }
    ensures most { IfSome result (λ number. number ≤ 255) }
{
    let number = number_in(1, 255, value)?;
    match face.font(number as u8) {
        Some(_) => Some(number),
        None => None,
    }
}

/// What is asked of a row by a number that dmsMessageStatus may be set to.
fn ask_of(number: u16) -> Ask
    ensures { result ≡ ask_of number }
{
    if number == u16::from(Ask::Modify.number()) {
        Ask::Modify
    } else if number == u16::from(Ask::Validate.number()) {
        Ask::Validate
    } else {
        Ask::NotUsed
    }
}

fn number<'a>(object: Scalar, low: u16, high: u16, value: &Value<'_>) -> Option<Change<'a>>
    ensures exact { option_map write_by result
        ≡ option_map (SetNumber object) (number_in low high (object_value value.now)) }
    ensures change { IsNumberOf (scalar_row object).group high → IfSome result IsChange }
{
    Some(Change::Number(object, number_in(low, high, value)?))
}

fn code<'a>(object: Scalar, value: &Value<'a>) -> Option<Change<'a>>
    ensures exact { option_map write_by result ≡ option_map (SetCode object) (octets_in 5 5 (object_value value.now)) }
    ensures change { IfSome result IsChange }
{
    match <&[u8; 5]>::try_from(octets_in(5, 5, value)?) {
        Ok(code) => Some(Change::Code(object, code)),
        Err(_) => None,
    }
}

fn activation<'a>(value: &Value<'a>) -> Option<Change<'a>>
    ensures exact { option_map write_by result ≡ option_map Activate (octets_in 12 12 (object_value value.now)) }
    ensures change { IfSome result IsChange }
{
    match <&[u8; 12]>::try_from(octets_in(12, 12, value)?) {
        Ok(code) => Some(Change::Activate(code)),
        Err(_) => None,
    }
}

fn remaining<'a>(value: &Value<'_>) -> Option<Change<'a>>
    ensures exact { option_map write_by result ≡ option_map SetRemaining (number_in 0 65535 (object_value value.now)) }
    ensures change { IfSome result IsChange }
{
    Some(Change::Remaining(number_in(0, u16::MAX, value)?))
}

fn font<'a>(face: &Face, value: &Value<'_>) -> Option<Change<'a>>
    ensures exact { option_map write_by result
        ≡ option_map (SetNumber DefaultFont) (font_in face.now (object_value value.now)) }
    ensures change { IfSome result IsChange }
{
    Some(Change::Number(Scalar::DefaultFont, font_in(face, value)?))
}

/// What a value writes to an object that is assigned: a number of the object's range, and where it is the default font
/// one of the face's, or the code of a message.
fn setting<'a>(face: &Face, object: Scalar, value: &Value<'a>) -> Option<Change<'a>>
    requires { (scalar_row object).access ≡ Write }
    ensures exact { option_map write_by result ≡ setting_of face.now object (object_value value.now) }
    ensures change { IfSome result IsChange }
{
    if object == Scalar::DefaultFont {
        return font(face, value);
    }
    match object.value_syntax() {
        Syntax::Range(low, high) => number(object, low, high, value),
        Syntax::Octets(..) => code(object, value),
        _ => None,
    }
}

/// What a value writes to an object that is a command.
fn command<'a>(object: Scalar, value: &Value<'a>) -> Option<Change<'a>>
    requires { (scalar_row object).access ≡ Command }
    ensures exact { (face : FaceModel) → option_map write_by result ≡ setting_of face object (object_value value.now) }
    ensures change { IfSome result IsChange }
{
    match object {
        Scalar::ActivateMessage => activation(value),
        Scalar::MessageTimeRemaining => remaining(value),
        _ => None,
    }
}

/// What a value writes to an object; none where its type, its length or its range is wrong.
#[tactic(auto, unfolding(crate::specs::Access::object_write))]
#[inline(always)]
fn object_write<'a>(face: &Face, object: Scalar, value: &Value<'a>) -> Option<Change<'a>>
    ensures exact { option_map write_by result ≡ object_write face.now object (object_value value.now) }
    ensures change { IfSome result IsChange }
{
    match object.max_access() {
        Access::Read => None,
        Access::Write => setting(face, object, value),
        Access::Command => command(object, value),
    }
}

fn flag(value: &Value<'_>) -> Option<u8>
    ensures { result ≡ number_in 0 1 (object_value value.now) }
{
    u8::try_from(number_in(0, 1, value)?).ok()
}

fn priority(value: &Value<'_>) -> Option<u8>
    ensures { result ≡ number_in 1 255 (object_value value.now) }
{
    u8::try_from(number_in(1, 255, value)?).ok()
}

/// What a value writes to a column of a row.
#[tactic(auto, unfolding(crate::specs::Access::cell_write))]
#[inline(always)]
fn cell_write<'a>(column: Column, id: RowId, value: &Value<'a>) -> Option<Change<'a>>
    ensures exact { option_map write_by result ≡ cell_write column id (object_value value.now) }
    ensures change { IfSome result IsChange }
{
    let field = match column {
        Column::MultiString => Field::Text(octets_in(0, MAX_TEXT, value)?),
        Column::Owner => Field::Owner(octets_in(0, MAX_OWNER, value)?),
        Column::Beacon => Field::Beacon(flag(value)?),
        Column::PixelService => Field::Pixel(flag(value)?),
        Column::RunTimePriority => Field::Priority(priority(value)?),
        Column::Status => return Some(Change::Ask(id, ask_of(number_in(6, 8, value)?))),
        _ => return None,
    };
    Some(Change::Field(id, field))
}

/// What a value writes to an instance.
#[tactic(auto, unfolding(crate::specs::Access::write_of))]
#[inline(always)]
pub fn write_of<'a>(face: &Face, instance: Instance, value: &Value<'a>) -> Option<Change<'a>>
    ensures exact { option_map write_by result ≡ write_of face.now instance (object_value value.now) }
    ensures change { IfSome result IsChange }
{
    match instance {
        Instance::Scalar(object) => object_write(face, object, value),
        Instance::Cell(column, id) => cell_write(column, id, value),
    }
}
