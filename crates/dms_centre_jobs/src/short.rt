//! Requests where each length is one octet, as nearly all are: what they have in common is written at once.

ghost use Rattle.std.specs.Prelude.{◌≡◌, ◌≤◌, ◌+◌, ◌++◌, ◌∷◌, [], ◌&&◌, List, pos, true, length, nat_lt};
ghost use Rattle.std.specs.List.{flat_map};
ghost use Rattle.dms_wire_ber.specs.Element.{element};
ghost use Rattle.dms_wire_ber.specs.Integer.{integer_octets};
ghost use Rattle.dms_wire.specs.Message.{VarBind, integer, octet_string};
ghost use Rattle.dms_wire.specs.declared.message.Kind.TheVariants as kinds;
ghost use Rattle.dms_mib.specs.declared.column.Column.TheVariants.{Status};
ghost use Rattle.dms_wire.specs.Spelling.{tag_of};
ghost use Rattle.dms_wire.specs.Canonical.{binding_octets, canonical};
ghost use Rattle.dms_codes.specs.Limits.{longest_community};
ghost use Rattle.dms_codes.specs.Status.{ask_number};
ghost use Rattle.dms_mib.specs.Names.{activate_message, activate_message_error, cell_name};
ghost use Rattle.dms_centre_jobs.specs.Steps.{reading, writing};
ghost use Rattle.dms_centre_jobs.specs.CodeView.{asking};

use dms_codes::{Ask, RowId};
use dms_mib::Column;
use dms_wire::{Kind, Out};
use dms_wire_ber::{put_content, put_unsigned, size_of_unsigned, tag};

/// A binding of a cell of which the row's numbers have one octet each, up to the column's number; its value is NULL.
const CELL_OF_NULL: [u8; 17] = [48, 20, 6, 16, 43, 6, 1, 4, 1, 137, 54, 4, 2, 3, 5, 8, 1];

/// A binding of such a row's dmsMessageStatus, up to those numbers; its value is an INTEGER of one octet.
const STATUS_OF_NUMBER: [u8; 18] = [48, 21, 6, 16, 43, 6, 1, 4, 1, 137, 54, 4, 2, 3, 5, 8, 1, 9];

/// A binding of dmsActivateMessage, up to the twelve octets of its value.
const MESSAGE_OF_CODE: [u8; 19] = [
    48, 29, 6, 13, 43, 6, 1, 4, 1, 137, 54, 4, 2, 3, 6, 3, 0, 4, 12,
];

/// A binding of dmsActivateMsgError, up to its value, NULL.
const CAUSE: [u8; 17] = [48, 17, 6, 13, 43, 6, 1, 4, 1, 137, 54, 4, 2, 3, 6, 17, 0];

/// The tag of a PDU (RFC 1157, 4.1.2 to 4.1.5).
#[inline(always)]
fn tag_of(kind: Kind) -> u8
    ensures { result ≡ tag_of kind }
{
    match kind {
        Kind::Get => 160,
        Kind::GetNext => 161,
        Kind::Response => 162,
        Kind::Set => 163,
    }
}

/// How many octets the request-id takes.
#[inline(always)]
pub(crate) fn size_of_number(number: u32) -> usize
    ensures exact { result ≡ length (element 2 (integer_octets (pos number))) }
    ensures small { result ≤ 13 }
{
    size_of_unsigned(number)
}

/// Writes a request over what `out` holds. `front` and `back` are the octets of its bindings, so few that each length
/// is one octet.
#[inline(always)]
#[tactic(auto, using(crate::proofs::ShortRequests::short_steps))]
fn put_short(community: &[u8], kind: Kind, number: u32, front: &[u8], back: &[u8], out: &mut Out)
    requires community { length community.now ≤ longest_community }
    requires octets { length front.now + length back.now ≤ 60 }
    ensures { (bindings : List VarBind) → front.now ++ back.now ≡ flat_map binding_octets bindings
        → out.new.items ≡ canonical (asking community.now kind number bindings) }
{
    let size = front.len() + back.len();
    let pdu = size_of_number(number) + 8 + size;
    let content = community.len() + 7 + pdu;
    let before = [
        tag::SEQUENCE,
        content as u8,
        tag::INTEGER,
        1,
        0,
        tag::OCTET_STRING,
        community.len() as u8,
    ];
    let status_and_index = [
        tag::INTEGER,
        1,
        0,
        tag::INTEGER,
        1,
        0,
        tag::SEQUENCE,
        size as u8,
    ];
    out.clear();
    put_content(out, &before);
    put_content(out, community);
    put_content(out, &[tag_of(kind), pdu as u8]);
    put_unsigned(out, tag::INTEGER, number);
    put_content(out, &status_and_index);
    put_content(out, front);
    put_content(out, back);
}

/// Whether the numbers that name a row have one octet each.
#[inline(always)]
pub(crate) fn is_short(row: RowId) -> bool
    ensures { result ≡ nat_lt row.memory 128 && nat_lt row.number 128 }
{
    row.memory < 128 && row.number < 128
}

/// Writes the request for the value of a cell, of which the row's numbers have one octet each.
#[inline(always)]
pub(crate) fn put_short_get(
    community: &[u8],
    number: u32,
    column: Column,
    row: RowId,
    out: &mut Out,
)
    requires community { length community.now ≤ longest_community }
    requires short { nat_lt row.memory 128 && nat_lt row.number 128 ≡ true }
    ensures { out.new.items ≡ canonical (asking community.now kinds.Get number (reading (cell_name column row))) }
{
    let (memory, last) = (row.memory, row.number as u8);
    let back = [column.number(), memory, last, tag::NULL, 0];
    put_short(community, Kind::Get, number, &CELL_OF_NULL, &back, out);
}

/// Writes the request that asks for a change of a row's status, of which the row's numbers have one octet each.
#[inline(always)]
pub(crate) fn put_short_set(community: &[u8], number: u32, row: RowId, ask: Ask, out: &mut Out)
    requires community { length community.now ≤ longest_community }
    requires short { nat_lt row.memory 128 && nat_lt row.number 128 ≡ true }
    ensures { out.new.items ≡ canonical
        (asking community.now kinds.Set number (writing (cell_name Status row) (integer (pos (ask_number ask))))) }
{
    let (memory, last) = (row.memory, row.number as u8);
    let back = [memory, last, tag::INTEGER, 1, ask.number()];
    put_short(community, Kind::Set, number, &STATUS_OF_NUMBER, &back, out);
}

/// Writes the request that puts a message up by its code.
#[inline(always)]
pub(crate) fn put_activation(community: &[u8], number: u32, code: [u8; 12], out: &mut Out)
    requires { length community.now ≤ longest_community }
    ensures { out.new.items
        ≡ canonical (asking community.now kinds.Set number (writing activate_message (octet_string code))) }
{
    put_short(community, Kind::Set, number, &MESSAGE_OF_CODE, &code, out);
}

/// Writes the request for the cause for which an activation was refused.
#[inline(always)]
pub(crate) fn put_cause(community: &[u8], number: u32, out: &mut Out)
    requires { length community.now ≤ longest_community }
    ensures { out.new.items ≡ canonical (asking community.now kinds.Get number (reading activate_message_error)) }
{
    let back = [tag::NULL, 0];
    put_short(community, Kind::Get, number, &CAUSE, &back, out);
}
