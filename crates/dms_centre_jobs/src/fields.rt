//! The request that sets the fields of a row of which the numbers have one octet each: its size is known before it is
//! written, and each field's octets are written where they stay.

ghost use Rattle.std.specs.Prelude.{◌≡◌, ◌≤◌, ◌<◌, ◌+◌, ◌++◌, ◌^◌, [], pos, true, length};
ghost use Rattle.std.specs.List.{flat_map};
ghost use Rattle.arrayvec.specs.ArrayVec.{array_vec_len};
ghost use Rattle.dms_wire_ber.specs.Limits.{longest_datagram};
ghost use Rattle.dms_wire.specs.Message.{integer, octet_string};
ghost use Rattle.dms_wire.specs.declared.message.Kind.TheVariants as kinds;
ghost use Rattle.dms_wire.specs.Canonical.{binding_octets, canonical};
ghost use Rattle.dms_wire.specs.Prefix.{pdu_size, content_size, message_size, pdu_prefix, message_prefix, prefix};
ghost use Rattle.dms_codes.specs.declared.row_id.RowId.{RowId};
ghost use Rattle.dms_mib.specs.declared.column.Column.{Column};
ghost use Rattle.dms_centre_jobs.specs.CodeView.{asking, field_of, fields_of, has_short_name};

use crate::job::WrittenRowFields;
use crate::short::size_of_number;
use dms_codes::RowId;
use dms_mib::Column;
use dms_wire::Out;
use dms_wire_ber::{
    put_content, put_head, put_integers, put_octets, put_unsigned, size_of_element,
    size_of_integer, size_of_octets, tag,
};

/// The tag of a PDU that sets something (RFC 1157, 4.1.5).
const SET: u8 = 163;

/// Writes the request that sets the fields of a row over what `out` holds.
#[inline(always)]
pub(crate) fn put_short_fields(
    community: &[u8],
    number: u32,
    row: RowId,
    fields: &WrittenRowFields,
    out: &mut Out,
)
    requires short { has_short_name row ≡ true }
    requires fits { length (canonical (asking community.now kinds.Set number (fields_of row fields.now)))
        ≤ longest_datagram }
    ensures { out.new.items ≡ canonical (asking community.now kinds.Set number (fields_of row fields.now)) }
{
    begin_set(community, number, size_of_fields(fields), out);
    put_fields(out, row, fields);
}

/// Writes what stands before bindings of `size` octets in such a request, over what `out` holds.
#[inline(always)]
#[tactic(auto, using(dms_wire::proofs::Prefixes::prefix_steps))]
fn begin_set(community: &[u8], number: u32, size: usize, out: &mut Out)
    requires { message_size (asking community.now kinds.Set number []) size ≤ longest_datagram }
    ensures { out.new.items ≡ prefix (asking community.now kinds.Set number []) size }
{
    let pdu = size_of_pdu(community, number, size);
    let content = size_of_message(community, number, pdu);
    out.clear();
    put_head(out, tag::SEQUENCE, content);
    put_message_prefix(out, community, number, pdu);
    put_pdu_prefix(out, community, number, size);
}

/// How many octets the content of the PDU takes, around bindings of `size` octets.
#[inline(always)]
#[tactic(auto, using(dms_wire::proofs::Sizes::sizes), unfolding(dms_wire::specs::Canonical::numbers_octets))]
fn size_of_pdu(community: &[u8], number: u32, size: usize) -> usize
    requires { size ≤ longest_datagram }
    ensures exact { result ≡ pdu_size (asking community.now kinds.Set number []) size }
    ensures small { result < 2 ^ 11 }
{
    let _ = community; // named by the clauses alone
    size_of_number(number) + size_of_integer(&0) + size_of_integer(&0) + size_of_element(size)
}

/// How many octets the content of the message takes, around a PDU of which the content takes `pdu` octets.
#[inline(always)]
#[tactic(auto, using(dms_wire::proofs::Sizes::sizes))]
fn size_of_message(community: &[u8], number: u32, pdu: usize) -> usize
    requires community { length community.now ≤ longest_datagram }
    requires pdu { pdu < 2 ^ 11 }
    ensures exact { result ≡ content_size (asking community.now kinds.Set number []) pdu }
    ensures small { result < 2 ^ 12 }
{
    let _ = number; // named by the clauses alone
    3 + size_of_octets(community) + size_of_element(pdu)
}

/// Writes what stands before the PDU's content: the version, which is 0, the community and the PDU's tag and length.
#[inline(always)]
#[tactic(auto, using(dms_wire::proofs::Prefixes::prefix_steps))]
fn put_message_prefix(out: &mut Out, community: &[u8], number: u32, pdu: usize)
    requires { array_vec_len out.old + content_size (asking community.now kinds.Set number []) pdu ≤ longest_datagram }
    ensures { out.new.items ≡ out.old.items ++ message_prefix (asking community.now kinds.Set number []) pdu }
{
    let _ = number; // named by the clauses alone
    put_octets(out, tag::INTEGER, &[0]);
    put_octets(out, tag::OCTET_STRING, community);
    put_head(out, SET, pdu);
}

/// Writes what stands before the bindings in the PDU's content: the three numbers, and the list's tag and length.
#[inline(always)]
#[tactic(auto, using(dms_wire::proofs::Prefixes::prefix_steps), unfolding(dms_wire::specs::Canonical::numbers_octets))]
fn put_pdu_prefix(out: &mut Out, community: &[u8], number: u32, size: usize)
    requires { array_vec_len out.old + pdu_size (asking community.now kinds.Set number []) size ≤ longest_datagram }
    ensures { out.new.items ≡ out.old.items ++ pdu_prefix (asking community.now kinds.Set number []) size }
{
    let _ = community; // named by the clauses alone
    put_unsigned(out, tag::INTEGER, number);
    put_integers(out, &0, &0);
    put_head(out, tag::SEQUENCE, size);
}

/// How many octets the bindings of the fields take.
#[inline(always)]
fn size_of_fields(fields: &WrittenRowFields) -> usize
    ensures exact { (row : RowId) → has_short_name row ≡ true
        → result ≡ length (flat_map binding_octets (fields_of row fields.now)) }
    ensures small { result ≤ 1200 }
{
    let attributes = &fields.attributes;
    size_of_octets_field(fields.text.as_slice())
        + size_of_octets_field(fields.owner.as_slice())
        + size_of_number_field(attributes.beacon)
        + size_of_number_field(attributes.pixel)
        + size_of_number_field(attributes.run_priority)
}

/// How many octets the binding of a field takes that is a text.
#[inline(always)]
fn size_of_octets_field(octets: &[u8]) -> usize
    requires { length octets.now ≤ longest_datagram }
    ensures exact { (row : RowId) (column : Column) → has_short_name row ≡ true
        → result ≡ length (binding_octets (field_of row column (octet_string octets.now))) }
    ensures small { result ≤ length octets.now + 40 }
{
    size_of_element(18 + size_of_octets(octets))
}

/// How many octets the binding of a field takes that is a number.
#[inline(always)]
fn size_of_number_field(number: u8) -> usize
    ensures exact { (row : RowId) (column : Column) → has_short_name row ≡ true
        → result ≡ length (binding_octets (field_of row column (integer (pos number)))) }
    ensures small { result ≤ 24 }
{
    if number < 128 { 23 } else { 24 }
}

/// Writes the bindings of the fields.
#[inline(always)]
#[tactic(auto, using(crate::proofs::ShortFields::field_steps))]
fn put_fields(out: &mut Out, row: RowId, fields: &WrittenRowFields)
    requires short { has_short_name row ≡ true }
    requires room { array_vec_len out.old + length (flat_map binding_octets (fields_of row fields.now))
        ≤ longest_datagram }
    ensures { out.new.items ≡ out.old.items ++ flat_map binding_octets (fields_of row fields.now) }
{
    let attributes = &fields.attributes;
    put_octets_field(out, row, Column::MultiString, fields.text.as_slice());
    put_octets_field(out, row, Column::Owner, fields.owner.as_slice());
    put_number_field(out, row, Column::Beacon, attributes.beacon);
    put_number_field(out, row, Column::PixelService, attributes.pixel);
    put_number_field(out, row, Column::RunTimePriority, attributes.run_priority);
}

/// Writes the binding of a field that is a text. Its name is 1.3.6.1.4.1.1206.4.2.3.5.8.1, which is dmsMessageEntry,
/// the column, and the two numbers of the row.
#[inline(always)]
fn put_octets_field(out: &mut Out, row: RowId, column: Column, octets: &[u8])
    requires short { has_short_name row ≡ true }
    requires room { array_vec_len out.old + length (binding_octets (field_of row column (octet_string octets.now)))
        ≤ longest_datagram }
    ensures { out.new.items ≡ out.old.items ++ binding_octets (field_of row column (octet_string octets.now)) }
{
    let (memory, last) = (row.memory, row.number as u8);
    put_head(out, tag::SEQUENCE, 18 + size_of_octets(octets));
    let name = [
        6,
        16,
        43,
        6,
        1,
        4,
        1,
        137,
        54,
        4,
        2,
        3,
        5,
        8,
        1,
        column.number(),
        memory,
        last,
    ];
    put_content(out, &name);
    put_octets(out, tag::OCTET_STRING, octets);
}

/// Writes the binding of a field that is a number: its sequence, its name, and an INTEGER, which has one octet where
/// the number is below 128, else two.
#[inline(always)]
fn put_number_field(out: &mut Out, row: RowId, column: Column, number: u8)
    requires short { has_short_name row ≡ true }
    requires room { array_vec_len out.old + length (binding_octets (field_of row column (integer (pos number))))
        ≤ longest_datagram }
    ensures { out.new.items ≡ out.old.items ++ binding_octets (field_of row column (integer (pos number))) }
{
    let (memory, last) = (row.memory, row.number as u8);
    let entry = column.number();
    if number < 128 {
        let binding = [
            48, 21, 6, 16, 43, 6, 1, 4, 1, 137, 54, 4, 2, 3, 5, 8, 1, entry, memory, last, 2, 1,
            number,
        ];
        put_content(out, &binding);
    } else {
        let binding = [
            48, 22, 6, 16, 43, 6, 1, 4, 1, 137, 54, 4, 2, 3, 5, 8, 1, entry, memory, last, 2, 2, 0,
            number,
        ];
        put_content(out, &binding);
    }
}
