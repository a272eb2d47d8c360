//! Messages: reading a datagram, and writing the shortest one (RFC 1157, 4.1).
//!
//! Each reader is given the octets that are left of an element and `end`, the element's end as an offset in the
//! datagram: what it reads begins at `end - octets.len()`.

ghost use Rattle.std.specs.Prelude.{◌≡◌, ◌↔◌, ℕ, ◌+◌, ◌/◌, ◌%◌, ◌^◌, ◌<◌, ◌≤◌, ◌++◌, List, [], ◌∷◌, pos};
ghost use Rattle.std.specs.Prelude.{length, map, IsOk, IfOk, OnOk, OnErr, IfSome, IfNone};
ghost use Rattle.arrayvec.specs.ArrayVec.{array_vec_len};
ghost use Rattle.std.specs.Option.{option_map};
ghost use Rattle.std.specs.List.{flat_map};
ghost use Rattle.dms_wire.specs.ErrorStatus.{error_status_number};
ghost use Rattle.dms_wire.specs.Message.{VarBind, SnmpMessage, integer};
ghost use Rattle.dms_wire.specs.Spelling.{Spells, tag_of};
ghost use Rattle.dms_wire.specs.MessageOf.{message_of};
ghost use Rattle.dms_wire.specs.Canonical.{binding_octets, numbers_octets, canonical};
ghost use Rattle.dms_wire.specs.Response.{response_with, response_to};
ghost use Rattle.dms_wire.specs.Written.{octets_of_bindings, IsWritten};
ghost use Rattle.dms_wire_ber.specs.Reading.{Gives, fault};
ghost use Rattle.dms_wire.specs.Reading.{version_at, pdu_at, tagged_pdu_at, kind_of, inside_at};
ghost use Rattle.dms_wire.specs.Reading.{outer_content, outer_at, datagram_at, message_at};
ghost use Rattle.dms_wire.specs.View.{object_value, var_bind, binding_of};
ghost use Rattle.dms_wire.specs.View.{message_around, snmp_message, snmp_message_of_parts};
ghost use Rattle.dms_wire.specs.PduView.{numbered};
ghost use Rattle.dms_wire.specs.Prefix.{pdu_size, content_size, message_size, pdu_prefix, message_prefix, prefix};
ghost use Rattle.dms_wire_ber.specs.Element.{element};
ghost use Rattle.dms_wire_ber.specs.ObjectIdentifier.{name_octets};
ghost use Rattle.dms_wire_ber.specs.Integer.{integer_octets, positive_octets};
ghost use Rattle.dms_wire_ber.specs.Limits.{longest_datagram};

use crate::binding::{
    Bind, BindingOctets, Binds, bindings, list, put_binding_of_size, put_bindings,
    put_small_binding, size_of_bindings, size_of_small, sizes_of_binding,
};
use crate::error_status::ErrorStatus;
use crate::fault::TooBig;
use crate::tag;
use crate::usual::read_usual;
use crate::value::{Value, small_integer};
use dms_wire_ber::tag::{INTEGER, SEQUENCE};
use dms_wire_ber::{
    FaultKind, MAX_DATAGRAM, Oid, Out, WireFault, ended, fault_at, integer_of, offset_of,
    put_content, put_head, put_integer, put_integers, put_octets, read_content, read_element,
    read_integer, read_length, size_of_element, size_of_integer, size_of_octets, tag as universal,
};

/// What a message asks or answers (RFC 1157, 4.1.2 to 4.1.5).
#[derive(Clone, Copy, Debug, PartialEq, Eq, Hash)]
pub enum Kind {
    /// Asks for the values of the names (GetRequest, tag 160).
    Get,
    /// Asks for the names that follow, with their values (GetNextRequest, tag 161).
    GetNext,
    /// Answers one of the others (GetResponse, tag 162).
    Response,
    /// Asks to set the names to the values (SetRequest, tag 163).
    Set,
}

/// A message that was read, over the octets of its datagram (RFC 1157, 4.1). Its numbers are from -2^31 to 2^32 - 1
/// (this profile).
#[derive(Debug, Drop)]
pub struct Message<'a> {
    /// What is asked or answered.
    pub kind: Kind,
    /// The octets of the community's name, of any values and number.
    pub community: &'a [u8],
    /// The request-id, which a Response repeats.
    pub request: i64,
    /// The error-status of a Response; in a request it says nothing (RFC 1157, 4.1.1).
    pub status: i64,
    /// The error-index of a Response: the number of the binding at fault, from 1, or 0; in a request it says nothing.
    pub index: i64,
    /// The variable bindings, at most `MAX_BINDINGS`.
    pub binds: Binds<'a>,
}

impl<'a> Message<'a> {
    /// What the Response to this message says beside its bindings: it repeats the community and the request-id.
    pub fn response(&self, status: ErrorStatus, index: u32) -> Header<'a>
        ensures { (bindings : List VarBind) → message_around result bindings
            ≡ response_with (snmp_message self.now) (error_status_number status) index bindings }
    {
        Header {
            community: self.community,
            kind: Kind::Response,
            request: self.request,
            status: i64::from(status.number()),
            index: i64::from(index),
        }
    }
}

/// What a message to write says beside its bindings (RFC 1157, 4.1). Its numbers may be any of an `i64`; `read` refuses
/// those that are not from -2^31 to 2^32 - 1.
#[derive(Debug, PartialEq, Eq, Drop)]
pub struct Header<'a> {
    /// The octets of the community's name.
    pub community: &'a [u8],
    /// What is asked or answered.
    pub kind: Kind,
    /// The request-id: in a Response that of the request.
    pub request: i64,
    /// The error-status: in a request 0.
    pub status: i64,
    /// The error-index: the number of the binding at fault, from 1, or 0.
    pub index: i64,
}

/// A message to write, its bindings in a slice (RFC 1157, 4.1).
#[derive(Debug, Drop)]
pub struct MessageParts<'a> {
    /// The octets of the community's name.
    pub community: &'a [u8],
    /// What is asked or answered.
    pub kind: Kind,
    /// The request-id: in a Response that of the request.
    pub request: i64,
    /// The error-status: in a request 0.
    pub status: i64,
    /// The error-index: the number of the binding at fault, from 1, or 0.
    pub index: i64,
    /// The variable bindings, in order.
    pub binds: &'a [Bind<'a>],
}

/// Reads the message that the octets of a datagram spell, or says what is wrong with them: the first fault from left to
/// right, and its offset. Every accepted form of a length is read, with leading zeros too (X.690, 8.1.3; RFC 1157,
/// 4.1).
pub fn read(octets: &[u8]) -> Result<Message<'_>, WireFault>
    ensures exact { Gives snmp_message result (message_at octets.now) }
    ensures accepts { IsOk result ↔ ((m : SnmpMessage) × Spells m octets.now) }
    ensures found { IfOk result (λ m. Spells (snmp_message m) octets.now) }
    ensures only { (m : SnmpMessage) → Spells m octets.now → Gives snmp_message result (Ok m) }
    ensures none { OnErr result ((m : SnmpMessage) → Spells m octets.now → ⊥) }
    ensures too_long { longest_datagram < length octets.now → result ≡ Err (fault FaultKind.TooLong longest_datagram) }
    ensures truncated { (m : SnmpMessage) (more : List ℕ) → 0 < length more → Spells m (octets.now ++ more)
        → result ≡ Err (fault FaultKind.Truncated (length octets.now)) }
    ensures trailing { (m : SnmpMessage) (front more : List ℕ) → octets.now ≡ front ++ more → 0 < length more
        → length octets.now ≤ longest_datagram → Spells m front
        → result ≡ Err (fault FaultKind.TrailingBytes (length front)) }
{
    read_message(octets)
}

/// The message that the octets of a datagram spell, or none where they spell none: for callers that do not ask what is
/// wrong with them.
pub fn heard(datagram: &[u8]) -> Option<Message<'_>>
    ensures message { option_map snmp_message result ≡ message_of datagram.now }
    ensures spelled { IfSome result (λ m. Spells (snmp_message m) datagram.now) }
{
    read(datagram).ok()
}

/// A message that is the whole datagram, where this has at most `MAX_DATAGRAM` octets.
#[tactic(auto, unfolding(crate::specs::Reading::message_at))]
fn read_message(octets: &[u8]) -> Result<Message<'_>, WireFault>
    ensures { Gives snmp_message result (message_at octets.now) }
{
    if octets.len() > MAX_DATAGRAM {
        return Err(fault_at(FaultKind::TooLong, MAX_DATAGRAM));
    }
    datagram(octets)
}

/// A message that is the whole datagram. What is no sequence is refused at once.
#[tactic(auto, unfolding(crate::specs::Reading::datagram_at, crate::specs::Reading::outer_at))]
fn datagram(octets: &[u8]) -> Result<Message<'_>, WireFault>
    ensures { Gives snmp_message result (datagram_at octets.now) }
{
    match octets {
        [] => Err(fault_at(FaultKind::Truncated, 0)),
        [SEQUENCE, ..] => sequence(octets),
        _ => Err(fault_at(FaultKind::BadTag, 0)),
    }
}

/// A message that is the whole datagram: where it is as most are, only its bindings may be at fault.
#[inline(never)]
fn sequence(octets: &[u8]) -> Result<Message<'_>, WireFault>
    ensures { Gives snmp_message result (datagram_at octets.now) }
{
    let Some(unread) = read_usual(octets) else {
        // Taken apart: else what is read here would go through memory that the call writes to.
        return Ok(any_datagram(octets)?);
    };
    let binds = bindings(unread.bindings, octets.len())?;
    Ok(Message {
        community: unread.community,
        kind: unread.kind,
        request: unread.request,
        status: i64::from(unread.status),
        index: i64::from(unread.index),
        binds,
    })
}

/// A message that is the whole datagram, in any form.
#[inline(never)]
#[tactic(auto, unfolding(crate::specs::Reading::datagram_at))]
fn any_datagram(octets: &[u8]) -> Result<Message<'_>, WireFault>
    ensures { Gives snmp_message result (datagram_at octets.now) }
{
    let (content, rest) = outer(octets)?;
    let message = inside(content, offset_of(rest, octets.len()))?;
    ended(rest, octets.len())?;
    Ok(message)
}

/// The content of the outermost element, and the octets after it.
#[tactic(auto, unfolding(crate::specs::Reading::outer_at))]
fn outer(octets: &[u8]) -> Result<(&[u8], &[u8]), WireFault>
    ensures exact { Gives (λ x. (x.0.now, x.1.now)) result (outer_at octets.now) }
    ensures parts { IfOk result (λ x. length x.0.now + length x.1.now < length octets.now) }
{
    match octets {
        [] => Err(fault_at(FaultKind::Truncated, 0)),
        [SEQUENCE, rest @ ..] => outer_content(rest, octets.len()),
        _ => Err(fault_at(FaultKind::BadTag, 0)),
    }
}

/// What follows the tag of the outermost element: its content, and the octets after it.
#[tactic(auto, unfolding(crate::specs::Reading::outer_content))]
fn outer_content(octets: &[u8], end: usize) -> Result<(&[u8], &[u8]), WireFault>
    requires { length octets.now ≤ end }
    ensures exact { Gives (λ x. (x.0.now, x.1.now)) result (outer_content end octets.now) }
    ensures parts { IfOk result (λ x. length x.0.now + length x.1.now < length octets.now) }
{
    let (count, rest) = read_length(octets, end)?;
    if rest.len() < count {
        return Err(fault_at(FaultKind::Truncated, end));
    }
    Ok(rest.split_at(count))
}

/// The members of a message, which are its whole content.
#[tactic(auto, unfolding(crate::specs::Reading::inside_at))]
fn inside(octets: &[u8], end: usize) -> Result<Message<'_>, WireFault>
    requires { length octets.now ≤ end }
    ensures { Gives snmp_message result (inside_at end octets.now) }
{
    let rest = after_version(octets, end)?;
    let (community, rest) = read_element(universal::OCTET_STRING, rest, end)?;
    let ((kind, fields), rest) = tagged_pdu(rest, end)?;
    ended(rest, end)?;
    let PduFields {
        request,
        status,
        index,
        binds,
    } = fields;
    Ok(Message {
        community,
        kind,
        request,
        status,
        index,
        binds,
    })
}

/// The octets after the version, which is 0: most often its length has the short form.
#[inline]
fn after_version(octets: &[u8], end: usize) -> Result<&[u8], WireFault>
    requires { length octets.now ≤ end }
    ensures exact { Gives (λ rest. (tt, rest.now)) result (version_at end octets.now) }
    ensures rest { IfOk result (λ rest. length rest.now < length octets.now) }
{
    match octets {
        [INTEGER, 1, 0, rest @ ..] => Ok(rest),
        _ => after_any_version(octets, end),
    }
}

/// The octets after a version in any form, which is 0, as `after_version`.
#[inline]
#[tactic(auto, unfolding(crate::specs::Reading::version_at))]
fn after_any_version(octets: &[u8], end: usize) -> Result<&[u8], WireFault>
    requires { length octets.now ≤ end }
    ensures exact { Gives (λ rest. (tt, rest.now)) result (version_at end octets.now) }
    ensures rest { IfOk result (λ rest. length rest.now < length octets.now) }
{
    let (content, rest) = read_element(INTEGER, octets, end)?;
    let place = offset_of(content, offset_of(rest, end));
    let version = integer_of(content).ok_or(fault_at(FaultKind::BadInteger, place))?;
    if version != 0 {
        return Err(fault_at(FaultKind::BadVersion, place));
    }
    Ok(rest)
}

/// A PDU with its tag, and the octets after it.
#[tactic(auto, unfolding(crate::specs::Reading::tagged_pdu_at))]
fn tagged_pdu(octets: &[u8], end: usize) -> Result<((Kind, PduFields<'_>), &[u8]), WireFault>
    requires { length octets.now ≤ end }
    ensures exact { Gives (λ x. ((x.0.0, numbered x.0.1), x.1.now)) result (tagged_pdu_at end octets.now) }
    ensures rest { IfOk result (λ x. length x.1.now < length octets.now) }
{
    let [tag, rest @ ..] = octets else {
        return Err(fault_at(FaultKind::Truncated, end));
    };
    let kind = kind_of(*tag).ok_or(fault_at(FaultKind::BadTag, offset_of(octets, end)))?;
    let (content, rest) = read_content(rest, end)?;
    let fields = pdu(content, offset_of(rest, end))?;
    Ok(((kind, fields), rest))
}

/// The kind of a PDU with this tag.
pub(crate) fn kind_of(tag: u8) -> Option<Kind>
    ensures { result ≡ kind_of tag }
{
    match tag {
        tag::GET => Some(Kind::Get),
        tag::GET_NEXT => Some(Kind::GetNext),
        tag::RESPONSE => Some(Kind::Response),
        tag::SET => Some(Kind::Set),
        _ => None,
    }
}

/// What a PDU says beside its kind.
#[derive(Drop)]
struct PduFields<'a> {
    request: i64,
    status: i64,
    index: i64,
    binds: Binds<'a>,
}

/// The members of a PDU, which are its whole content.
#[tactic(auto, unfolding(crate::specs::Reading::pdu_at))]
fn pdu(octets: &[u8], end: usize) -> Result<PduFields<'_>, WireFault>
    requires { length octets.now ≤ end }
    ensures { Gives numbered result (pdu_at end octets.now) }
{
    let (request, rest) = read_integer(octets, end)?;
    let (status, rest) = read_integer(rest, end)?;
    let (index, rest) = read_integer(rest, end)?;
    let (binds, rest) = list(rest, end)?;
    ended(rest, end)?;
    Ok(PduFields {
        request,
        status,
        index,
        binds,
    })
}

/// Writes the shortest spelling of a message over what `out` holds: each length in its shortest form, each number
/// without needless octets (X.690, 8.1.3 and 8.3). Where that is more than `MAX_DATAGRAM` octets, `out` is left
/// empty.
pub fn write(parts: &MessageParts<'_>, out: &mut Out) -> Result<(), TooBig>
    ensures { IsWritten result out.new.items (canonical (snmp_message_of_parts parts.now)) }
{
    let [binding] = parts.binds else {
        return write_many(parts, out);
    };
    let header = Header {
        community: parts.community,
        kind: parts.kind,
        request: parts.request,
        status: parts.status,
        index: parts.index,
    };
    write_one(&header, &binding.name, &binding.value, out)
}

/// Writes a message of any number of bindings, as `write` does: apart from those of one, of which most are.
#[inline(never)]
fn write_many(parts: &MessageParts<'_>, out: &mut Out) -> Result<(), TooBig>
    ensures { IsWritten result out.new.items (canonical (snmp_message_of_parts parts.now)) }
{
    out.clear();
    let header = Header {
        community: parts.community,
        kind: parts.kind,
        request: parts.request,
        status: parts.status,
        index: parts.index,
    };
    let size = size_of_bindings(parts.binds)?;
    begin(&header, size, out)?;
    put_bindings(out, parts.binds);
    Ok(())
}

/// Writes, as `write` does, the message with this header and this binding alone, of which the size is computed once.
pub fn write_binding(header: &Header<'_>, binding: &Bind<'_>, out: &mut Out) -> Result<(), TooBig>
    ensures { IsWritten result out.new.items (canonical (message_around header.now (var_bind binding.now ∷ []))) }
{
    write_one(header, &binding.name, &binding.value, out)
}

/// Writes, as `write_binding` does, the message with the binding of this name and this value: neither is moved.
pub fn write_value(
    header: &Header<'_>,
    name: &Oid<'_>,
    value: &Value<'_>,
    out: &mut Out,
) -> Result<(), TooBig>
    ensures { IsWritten result out.new.items
        (canonical (message_around header.now (binding_of name.now value.now ∷ []))) }
{
    write_one(header, name, value, out)
}

/// The same, for a call that has the header in registers.
#[inline(always)]
fn write_one(
    header: &Header<'_>,
    name: &Oid<'_>,
    value: &Value<'_>,
    out: &mut Out,
) -> Result<(), TooBig>
    ensures { IsWritten result out.new.items
        (canonical (message_around header.now (binding_of name.now value.now ∷ []))) }
{
    if let Some(octet) = small_integer(value) {
        if name.content().len() < 64 {
            return write_small(header, name, value, octet, out);
        }
    }
    out.clear();
    let (content, size) = sizes_of_binding(name, value)?;
    if size > MAX_DATAGRAM {
        return Err(TooBig);
    }
    begin(header, size, out)?;
    put_binding_of_size(out, name, value, content);
    Ok(())
}

/// The same where the value is an INTEGER of one octet, as most are, and the name is short.
#[inline(always)]
fn write_small(
    header: &Header<'_>,
    name: &Oid<'_>,
    value: &Value<'_>,
    octet: u8,
    out: &mut Out,
) -> Result<(), TooBig>
    requires value { object_value value.now ≡ integer (pos octet) }
    requires small { octet < 128 }
    requires short { length (name_octets name.now) < 64 }
    ensures { IsWritten result out.new.items
        (canonical (message_around header.now (binding_of name.now value.now ∷ []))) }
{
    let size = size_of_small(name, value, octet);
    begin(header, size, out)?;
    put_small_binding(out, name, value, octet);
    Ok(())
}

/// Writes, as `write` does, the message with this header and the bindings that were pushed: their octets are copied
/// once.
pub fn write_around(
    header: &Header<'_>,
    octets: &BindingOctets,
    out: &mut Out,
) -> Result<(), TooBig>
    ensures { (bindings : List VarBind) → octets.now ≡ octets_of_bindings bindings
        → IsWritten result out.new.items (canonical (message_around header.now bindings)) }
{
    out.clear();
    if octets.too_big {
        return Err(TooBig);
    }
    write_octets(header, &octets.octets, out)
}

/// Writes the Response to a message that was read, with this error-status and error-index, and with the bindings of the
/// message (RFC 1157, 4.1.2 to 4.1.5: "of identical form"), as `write` does.
pub fn write_response(
    message: &Message<'_>,
    status: ErrorStatus,
    index: u32,
    out: &mut Out,
) -> Result<(), TooBig>
    ensures { IsWritten result out.new.items
        (canonical (response_to (snmp_message message.now) (error_status_number status) index)) }
{
    let header = message.response(status, index);
    match message.binds.shortest() {
        Some(octets) => write_octets(&header, octets, out),
        None => write_shortest(&header, message.binds.again(), out),
    }
}

/// Writes the message with this header and with bindings of which the shortest spelling is at hand: it is copied.
#[inline(always)]
fn write_octets(header: &Header<'_>, octets: &[u8], out: &mut Out) -> Result<(), TooBig>
    requires { length octets.now ≤ longest_datagram }
    ensures { (bindings : List VarBind) → octets.now ≡ flat_map binding_octets bindings
        → IsWritten result out.new.items (canonical (message_around header.now bindings)) }
{
    begin(header, octets.len(), out)?;
    put_content(out, octets);
    Ok(())
}

/// Writes the message with this header and with bindings that were read, each in its shortest spelling.
#[inline(never)]
fn write_shortest(header: &Header<'_>, binds: Binds<'_>, out: &mut Out) -> Result<(), TooBig>
    ensures { IsWritten result out.new.items (canonical (message_around header.now binds.entry)) }
{
    let mut octets = BindingOctets::new();
    octets.fill(binds);
    write_around(header, &octets, out)
}

/// Writes what stands before bindings of `size` octets over what `out` holds, or nothing where the message would have
/// more than `MAX_DATAGRAM` octets: first for lengths of one octet, as most messages have them.
#[inline(always)]
#[tactic(auto, using(crate::proofs::ShortPrefixes::short_steps))]
fn begin(header: &Header<'_>, size: usize, out: &mut Out) -> Result<(), TooBig>
    requires { size ≤ longest_datagram }
    ensures ok { OnOk result (out.new.items ≡ prefix (message_around header.now []) size) }
    ensures fits { OnOk result (message_size (message_around header.now []) size ≤ longest_datagram) }
    ensures room { OnOk result (array_vec_len out.new + size ≤ longest_datagram) }
    ensures empty { OnErr result (out.new.items ≡ []) }
    ensures too_big { OnErr result (longest_datagram < message_size (message_around header.now []) size) }
{
    let numbers = size_of_numbers(header);
    let pdu = numbers + 2 + size;
    let content = 7 + header.community.len() + pdu;
    if content >= 128 {
        return begin_long(header, numbers, size, out);
    }
    out.clear();
    put_short_prefix(out, header, size, pdu, content);
    Ok(())
}

/// The same where a length has two octets or more: most often each has three, and that of the community one.
#[inline(always)]
#[tactic(auto, using(crate::proofs::LongPrefixes::long_sizes))]
fn begin_long(header: &Header<'_>, numbers: usize, size: usize, out: &mut Out) -> Result<(), TooBig>
    requires size { size ≤ longest_datagram }
    requires numbers { numbers ≡ length (numbers_octets (message_around header.now [])) }
    requires few { numbers < 60 }
    ensures ok { OnOk result (out.new.items ≡ prefix (message_around header.now []) size) }
    ensures fits { OnOk result (message_size (message_around header.now []) size ≤ longest_datagram) }
    ensures room { OnOk result (array_vec_len out.new + size ≤ longest_datagram) }
    ensures empty { OnErr result (out.new.items ≡ []) }
    ensures too_big { OnErr result (longest_datagram < message_size (message_around header.now []) size) }
{
    if size < 256 || header.community.len() >= 128 {
        // A copy: else the header would be kept in memory for other messages too.
        let copy = Header {
            community: header.community,
            kind: header.kind,
            request: header.request,
            status: header.status,
            index: header.index,
        };
        return begin_any(&copy, size, out);
    }
    out.clear();
    let pdu = numbers + 4 + size;
    let content = 9 + header.community.len() + pdu;
    if 4 + content > MAX_DATAGRAM {
        return Err(TooBig);
    }
    put_long_prefix(out, header, size, pdu, content);
    Ok(())
}

/// The same with lengths of any number of octets.
#[inline(never)]
#[tactic(auto, using(crate::proofs::Prefixes::prefix_steps))]
fn begin_any(header: &Header<'_>, size: usize, out: &mut Out) -> Result<(), TooBig>
    requires { size ≤ longest_datagram }
    ensures ok { OnOk result (out.new.items ≡ prefix (message_around header.now []) size) }
    ensures fits { OnOk result (message_size (message_around header.now []) size ≤ longest_datagram) }
    ensures room { OnOk result (array_vec_len out.new + size ≤ longest_datagram) }
    ensures empty { OnErr result (out.new.items ≡ []) }
    ensures too_big { OnErr result (longest_datagram < message_size (message_around header.now []) size) }
{
    out.clear();
    if header.community.len() > MAX_DATAGRAM {
        return Err(TooBig);
    }
    let pdu = size_of_pdu_content(header, size);
    let content = size_of_message_content(header, pdu);
    if size_of_element(content) > MAX_DATAGRAM {
        return Err(TooBig);
    }
    put_head(out, SEQUENCE, content);
    put_message_prefix(out, header, pdu);
    put_pdu_prefix(out, header, size);
    Ok(())
}

/// Writes what stands before bindings of `size` octets where each length is one octet: what is known before and after
/// the community at once.
#[inline(always)]
fn put_short_prefix(out: &mut Out, header: &Header<'_>, size: usize, pdu: usize, content: usize)
    requires pdu { pdu ≡ pdu_size (message_around header.now []) size }
    requires content { content ≡ content_size (message_around header.now []) pdu }
    requires short { content < 128 }
    requires room { array_vec_len out.old + 140 ≤ longest_datagram }
    ensures { out.new.items ≡ out.old.items ++ prefix (message_around header.now []) size }
{
    let community = header.community.len() as u8;
    let (size_of_content, text) = (content as u8, universal::OCTET_STRING);
    put_content(
        out,
        &[SEQUENCE, size_of_content, INTEGER, 1, 0, text, community],
    );
    put_content(out, header.community);
    put_short_pdu_prefix(out, header, size as u8, pdu as u8);
}

/// Writes what stands before bindings of `size` octets where the community's length is one octet and each other length
/// three: what is known before and after the community at once.
#[inline(always)]
fn put_long_prefix(out: &mut Out, header: &Header<'_>, size: usize, pdu: usize, content: usize)
    requires pdu { pdu ≡ pdu_size (message_around header.now []) size }
    requires content { content ≡ content_size (message_around header.now []) pdu }
    requires large { 256 ≤ size }
    requires short { length header.now.community.now < 128 }
    requires room { array_vec_len out.old + (4 + content) ≤ longest_datagram }
    ensures { out.new.items ≡ out.old.items ++ prefix (message_around header.now []) size }
{
    let community = header.community.len() as u8;
    let (high, low) = ((content / 256) as u8, (content % 256) as u8);
    let text = universal::OCTET_STRING;
    put_content(
        out,
        &[SEQUENCE, 130, high, low, INTEGER, 1, 0, text, community],
    );
    put_content(out, header.community);
    put_long_pdu_prefix(out, header, size, pdu);
}

/// Writes the PDU's tag and what stands before the bindings in it, each length three octets.
#[inline(always)]
#[tactic(auto, using(crate::proofs::Sizes::element_steps))]
fn put_long_pdu_prefix(out: &mut Out, header: &Header<'_>, size: usize, pdu: usize)
    requires size { size ≤ longest_datagram }
    requires pdu { pdu ≤ longest_datagram }
    requires room { array_vec_len out.old + (length (numbers_octets (message_around header.now [])) + 8)
        ≤ longest_datagram }
    ensures { out.new.items ≡ out.old.items ++ (tag_of header.now.kind ∷ 130 ∷ (pdu / 256) ∷ (pdu % 256)
        ∷ (numbers_octets (message_around header.now []) ++ 48 ∷ 130 ∷ (size / 256) ∷ (size % 256) ∷ [])) }
{
    let tag = tag_of_pdu(header.kind);
    let (high, low) = ((pdu / 256) as u8, (pdu % 256) as u8);
    let list = [SEQUENCE, 130, (size / 256) as u8, (size % 256) as u8];
    let [a, b, c, d] = list;
    if let Some((status, index)) = octets_of_status(header) {
        put_long_request(out, tag, high, low, &header.request);
        put_content(out, &[INTEGER, 1, status, INTEGER, 1, index, a, b, c, d]);
    } else {
        put_content(out, &[tag, 130, high, low]);
        put_numbers(out, header);
        put_content(out, &list);
    }
}

/// Writes the PDU's tag and its length of three octets, and the request-id.
#[inline(always)]
#[tactic(auto, using(crate::proofs::ShortPrefixes::request_steps))]
fn put_long_request(out: &mut Out, tag: u8, high: u8, low: u8, request: &i64)
    requires { array_vec_len out.old + (4 + length (element 2 (integer_octets request.now))) ≤ longest_datagram }
    ensures { out.new.items ≡ out.old.items ++ (tag ∷ 130 ∷ high ∷ low ∷ element 2 (integer_octets request.now)) }
{
    if let Some((first, second)) = octets_of(request) {
        put_content(out, &[tag, 130, high, low, INTEGER, 2, first, second]);
    } else {
        put_content(out, &[tag, 130, high, low]);
        put_integer(out, request);
    }
}

/// Writes the PDU's tag and what stands before the bindings in it, each length one octet: what follows the request-id
/// at once, as most messages have it.
#[inline(always)]
#[tactic(auto, using(crate::proofs::Sizes::element_steps))]
fn put_short_pdu_prefix(out: &mut Out, header: &Header<'_>, size: u8, pdu: u8)
    requires { array_vec_len out.old + (length (numbers_octets (message_around header.now [])) + 4) ≤ longest_datagram }
    ensures { out.new.items ≡ out.old.items
        ++ (tag_of header.now.kind ∷ pdu ∷ (numbers_octets (message_around header.now []) ++ 48 ∷ size ∷ [])) }
{
    let tag = tag_of_pdu(header.kind);
    if let Some((status, index)) = octets_of_status(header) {
        put_request(out, tag, pdu, &header.request);
        put_content(
            out,
            &[INTEGER, 1, status, INTEGER, 1, index, SEQUENCE, size],
        );
    } else {
        put_content(out, &[tag, pdu]);
        put_numbers(out, header);
        put_content(out, &[SEQUENCE, size]);
    }
}

/// Writes the PDU's tag and length and the request-id.
#[inline(always)]
#[tactic(auto, using(crate::proofs::ShortPrefixes::request_steps))]
fn put_request(out: &mut Out, tag: u8, pdu: u8, request: &i64)
    requires { array_vec_len out.old + (2 + length (element 2 (integer_octets request.now))) ≤ longest_datagram }
    ensures { out.new.items ≡ out.old.items ++ (tag ∷ pdu ∷ element 2 (integer_octets request.now)) }
{
    if let Some(octet) = octet_of(request) {
        put_content(out, &[tag, pdu, INTEGER, 1, octet]);
    } else if let Some((high, low)) = octets_of(request) {
        put_content(out, &[tag, pdu, INTEGER, 2, high, low]);
    } else {
        put_content(out, &[tag, pdu]);
        put_integer(out, request);
    }
}

/// The error-status and the error-index where each is one octet.
#[inline(always)]
fn octets_of_status(header: &Header<'_>) -> Option<(u8, u8)>
    ensures { IfSome result (λ x. (rest : List ℕ) → numbers_octets (message_around header.now []) ++ rest
        ≡ element 2 (integer_octets header.now.request) ++ 2 ∷ 1 ∷ x.0 ∷ 2 ∷ 1 ∷ x.1 ∷ rest) }
{
    let status = octet_of(&header.status)?;
    let index = octet_of(&header.index)?;
    Some((status, index))
}

/// The content of an INTEGER where it is one octet, its first bit 0.
#[inline(always)]
fn octet_of(number: &i64) -> Option<u8>
    ensures { IfSome result (λ octet. (number.now ≡ pos octet) × (octet < 128)) }
{
    if 0 <= *number && *number < 128 {
        Some(*number as u8)
    } else {
        None
    }
}

/// The content of an INTEGER from 128 to 2^15 - 1, which is two octets.
#[inline(always)]
#[tactic(auto, unfolding(dms_wire_ber::specs::Integer::integer_octets))]
fn octets_of(number: &i64) -> Option<(u8, u8)>
    ensures { IfSome result (λ x. element 2 (integer_octets number.now) ≡ 2 ∷ 2 ∷ x.0 ∷ x.1 ∷ []) }
{
    if 128 <= *number && *number < 1 << 15 {
        Some(two_octets(*number as u64))
    } else {
        None
    }
}

/// The two octets of a number.
#[inline(always)]
#[tactic(auto, using(crate::proofs::ShortPrefixes::two_octets))]
fn two_octets(number: u64) -> (u8, u8)
    requires large { 128 ≤ number }
    requires small { number < 2 ^ 15 }
    ensures { element 2 (positive_octets number) ≡ 2 ∷ 2 ∷ result.0 ∷ result.1 ∷ [] }
{
    ((number / 256 % 256) as u8, (number % 256) as u8)
}

/// Writes what stands before the PDU's content: the version, which is 0, the community and the PDU's tag and length.
#[inline]
#[tactic(auto, using(crate::proofs::Prefixes::prefix_steps))]
fn put_message_prefix(out: &mut Out, header: &Header<'_>, pdu: usize)
    requires { array_vec_len out.old + content_size (message_around header.now []) pdu ≤ longest_datagram }
    ensures { out.new.items ≡ out.old.items ++ message_prefix (message_around header.now []) pdu }
{
    put_octets(out, INTEGER, &[0]);
    put_octets(out, universal::OCTET_STRING, header.community);
    put_head(out, tag_of_pdu(header.kind), pdu);
}

/// Writes what stands before the bindings in the PDU's content: the three numbers, and the list's tag and length.
#[inline]
#[tactic(auto, using(crate::proofs::Sizes::element_steps))]
fn put_pdu_prefix(out: &mut Out, header: &Header<'_>, size: usize)
    requires { array_vec_len out.old + pdu_size (message_around header.now []) size ≤ longest_datagram }
    ensures { out.new.items ≡ out.old.items ++ pdu_prefix (message_around header.now []) size }
{
    put_numbers(out, header);
    put_head(out, SEQUENCE, size);
}

/// How many octets the content of the message takes, around a PDU of which the content takes `pdu` octets.
#[inline]
#[tactic(auto, using(crate::proofs::Sizes::sizes))]
fn size_of_message_content(header: &Header<'_>, pdu: usize) -> usize
    requires pdu { pdu < 2 ^ 11 }
    requires community { length header.now.community.now ≤ longest_datagram }
    ensures exact { result ≡ content_size (message_around header.now []) pdu }
    ensures small { result < 2 ^ 12 }
{
    3 + size_of_octets(header.community) + size_of_element(pdu)
}

/// How many octets the content of the PDU takes, around bindings of `size` octets.
#[inline]
fn size_of_pdu_content(header: &Header<'_>, size: usize) -> usize
    requires { size ≤ longest_datagram }
    ensures exact { result ≡ pdu_size (message_around header.now []) size }
    ensures small { result < 2 ^ 11 }
{
    size_of_numbers(header) + size_of_element(size)
}

/// How many octets the request-id, the error-status and the error-index take: most often three the last two.
#[inline]
#[tactic(auto, using(crate::proofs::Sizes::sizes), unfolding(crate::specs::Canonical::numbers_octets))]
fn size_of_numbers(header: &Header<'_>) -> usize
    ensures exact { result ≡ length (numbers_octets (message_around header.now [])) }
    ensures small { result < 60 }
{
    match octets_of_status(header) {
        Some(_) => size_of_integer(&header.request) + 6,
        None => {
            size_of_integer(&header.request)
                + size_of_integer(&header.status)
                + size_of_integer(&header.index)
        }
    }
}

/// Writes the request-id, the error-status and the error-index.
#[tactic(auto, using(crate::proofs::Sizes::element_steps), unfolding(crate::specs::Canonical::numbers_octets))]
fn put_numbers(out: &mut Out, header: &Header<'_>)
    requires { array_vec_len out.old + length (numbers_octets (message_around header.now [])) ≤ longest_datagram }
    ensures { out.new.items ≡ out.old.items ++ numbers_octets (message_around header.now []) }
{
    put_integer(out, &header.request);
    put_integers(out, &header.status, &header.index);
}

/// The tag of a PDU.
#[inline]
fn tag_of_pdu(kind: Kind) -> u8
    ensures { result ≡ tag_of kind }
{
    match kind {
        Kind::Get => tag::GET,
        Kind::GetNext => tag::GET_NEXT,
        Kind::Response => tag::RESPONSE,
        Kind::Set => tag::SET,
    }
}
