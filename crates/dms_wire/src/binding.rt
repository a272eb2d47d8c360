//! Variable bindings: their walk, their reading and their writing (RFC 1157, 4.1.1).

ghost use Rattle.std.specs.Prelude.{◌≡◌, ◌≢◌, ◌↔◌, ℕ, ◌+◌, ◌^◌, ◌<◌, ◌≤◌, ◌++◌, List, [], ◌∷◌, pos, length};
ghost use Rattle.std.specs.Prelude.{map, Ok, Err, IsOk, IfOk, IfErr, OnOk, OnErr, IsSome, IfSome, IfNone};
ghost use Rattle.arrayvec.specs.ArrayVec.{array_vec_len};
ghost use Rattle.std.specs.List.{flat_map};
ghost use Rattle.dms_wire.specs.Message.{ObjectValue, VarBind, integer};
ghost use Rattle.dms_wire_ber.specs.Reading.{Gives};
ghost use Rattle.dms_wire.specs.Reading.{members_at, binding_at, bindings_at, list_at};
ghost use Rattle.dms_wire.specs.Walk.{bindings_of, AreWhole, AreShortest};
ghost use Rattle.dms_wire.specs.View.{object_value, var_bind, binding_of};
ghost use Rattle.dms_wire_ber.specs.Element.{element};
ghost use Rattle.dms_wire_ber.specs.ObjectIdentifier.{name_octets};
ghost use Rattle.dms_wire.specs.Canonical.{value_octets, binding_octets};
ghost use Rattle.dms_wire.specs.Written.{octets_of_bindings};
ghost use Rattle.dms_wire_ber.specs.Limits.{longest_datagram};

use crate::fault::TooBig;
use crate::value::{Value, put_value, read_value, size_of_value, small_integer};
use dms_wire_ber::{
    MAX_DATAGRAM, Oid, Out, WireFault, ended, is_name, offset_of, put_content, put_head,
    put_octets, read_content, read_element, read_name, size_of_element, size_of_octets, tag,
};
use std::marker::Model;

/// The most bindings of a datagram: each has seven octets at least.
pub const MAX_BINDINGS: usize = 210;

/// A variable binding (RFC 1157, 4.1.1).
#[derive(Debug, Default, PartialEq, Eq, Drop)]
pub struct Bind<'a> {
    /// The name of a variable: its object and its instance.
    pub name: Oid<'a>,
    /// The variable's value, or NULL where it is asked for.
    pub value: Value<'a>,
}

/// The bindings of a message, over its octets: an iterator, which a contract sees as the list of what is left.
#[derive(Debug, Drop)]
pub struct Binds<'a> {
    pub(crate) content: &'a [u8],
}

impl<'a> Model for Binds<'a> {
    ghost use Rattle.std.specs.Prelude.{List};
    ghost use Rattle.dms_wire.specs.Message.{ObjectValue, VarBind, integer};
    ghost use Rattle.dms_wire.specs.Walk.{bindings_of, AreWhole};

    ghost Value = { List VarBind };

    ghost view = { λ a. bindings_of a.content.now };

    ghost invariant = { λ a. AreWhole a.content.now };
}

impl<'a> Binds<'a> {
    /// The bindings that are left, to walk them once more.
    pub fn again(&self) -> Binds<'a>
        ensures { result ≡ self.now }
    {
        Binds {
            content: self.content,
        }
    }

    /// The octets of the bindings that are left as they lie in the datagram, where this is their shortest spelling.
    pub(crate) fn shortest(&self) -> Option<&'a [u8]>
        ensures same { IfSome result (λ octets. octets.now ≡ flat_map binding_octets self.now) }
        ensures small { IfSome result (λ octets. length octets.now ≤ longest_datagram) }
    {
        shortest_octets(self.content)
    }

    /// The name of the next binding, where there is one: its value is not read.
    pub fn next_name(&mut self) -> Option<Oid<'a>>
        ensures some { IfSome result (λ name. (value : ObjectValue)
            × (self.old ≡ record { name = name; value = value } ∷ self.new)) }
        ensures none { IfNone result (self.old ≡ []) }
        ensures unchanged { IfNone result (self.new ≡ self.old) }
    {
        let (name, rest) = first_name(self.content)?;
        self.content = rest;
        Some(name)
    }

    /// The name of the binding that is left, where it is the only one: its value is not read.
    pub fn only_name(&self) -> Option<Oid<'a>>
        ensures some { IfSome result (λ name. (value : ObjectValue)
            × (self.now ≡ record { name = name; value = value } ∷ [])) }
        ensures none { IfNone result (length self.now ≢ 1) }
    {
        let (only, after) = first_name(self.content)?;
        if after.is_empty() { Some(only) } else { None }
    }

    /// The binding that is left, where it is the only one.
    #[inline(always)]
    pub fn only(&self) -> Option<Bind<'a>>
        ensures some { IfSome result (λ binding. self.now ≡ var_bind binding ∷ []) }
        ensures none { IfNone result (length self.now ≢ 1) }
    {
        let (binding, after) = first_binding(self.content)?;
        if after.is_empty() {
            Some(binding)
        } else {
            None
        }
    }
}

impl<'a> Iterator for Binds<'a> {
    ghost use Rattle.std.specs.Iterator.{YieldsFirstBy, item_count};
    ghost use Rattle.dms_wire.specs.View.{var_bind};

    type Item = Bind<'a>;

    ghost next_gives = { YieldsFirstBy var_bind (λ s. s) };

    ghost remaining = { item_count (λ s. s) };

    fn next(&mut self) -> Option<Bind<'a>> {
        let (first, rest) = first_binding(self.content)?;
        self.content = rest;
        Some(first)
    }
}

/// A binding's name and value, which are its whole content.
#[inline(always)]
#[tactic(auto, unfolding(crate::specs::Reading::members_at))]
fn members(octets: &[u8], end: usize) -> Result<Bind<'_>, WireFault>
    requires { length octets.now ≤ end }
    ensures { Gives var_bind result (members_at end octets.now) }
{
    let (name, rest) = read_name(octets, end)?;
    let (value, rest) = read_value(rest, end)?;
    ended(rest, end)?;
    Ok(Bind { name, value })
}

/// A binding, and the octets after it.
#[inline(always)]
#[tactic(auto, unfolding(crate::specs::Reading::binding_at))]
fn read_binding(octets: &[u8], end: usize) -> Result<(Bind<'_>, &[u8]), WireFault>
    requires { length octets.now ≤ end }
    ensures exact { Gives (λ x. (var_bind x.0, x.1.now)) result (binding_at end octets.now) }
    ensures rest { IfOk result (λ x. length x.1.now < length octets.now) }
{
    let (content, rest) = read_element(tag::SEQUENCE, octets, end)?;
    let bind = members(content, offset_of(rest, end))?;
    Ok((bind, rest))
}

/// The name and the value of a binding that is known to be one: its name is not checked again.
#[inline(always)]
fn known_members(octets: &[u8], end: usize) -> Option<Bind<'_>>
    requires within { length octets.now ≤ end }
    requires known { (b : VarBind) × (members_at end octets.now ≡ Ok b) }
    ensures some { IfSome result (λ b. members_at end octets.now ≡ Ok (var_bind b)) }
    ensures always { IsSome result }
{
    let Ok((content, rest)) = read_element(tag::OBJECT_IDENTIFIER, octets, end) else {
        return None;
    };
    let Ok((value, _)) = read_value(rest, end) else {
        return None;
    };
    Some(Bind {
        name: Oid::known(content),
        value,
    })
}

/// The first binding of octets that are bindings, and the octets after it.
#[inline(always)]
fn first_binding(octets: &[u8]) -> Option<(Bind<'_>, &[u8])>
    requires { AreWhole octets.now }
    ensures some { IfSome result (λ x. bindings_of octets.now ≡ var_bind x.0 ∷ bindings_of x.1.now) }
    ensures whole { IfSome result (λ x. AreWhole x.1.now) }
    ensures none { IfNone result (bindings_of octets.now ≡ []) }
{
    let Ok((content, rest)) = read_element(tag::SEQUENCE, octets, octets.len()) else {
        return None;
    };
    let bind = known_members(content, offset_of(rest, octets.len()))?;
    Some((bind, rest))
}

/// The name of the first binding of octets that are bindings, and the octets after the binding.
#[inline(always)]
fn first_name(octets: &[u8]) -> Option<(Oid<'_>, &[u8])>
    requires { AreWhole octets.now }
    ensures some { IfSome result (λ x. (value : ObjectValue)
        × (bindings_of octets.now ≡ record { name = x.0; value = value } ∷ bindings_of x.1.now)) }
    ensures whole { IfSome result (λ x. AreWhole x.1.now) }
    ensures none { IfNone result (bindings_of octets.now ≡ []) }
{
    let Ok((content, rest)) = read_element(tag::SEQUENCE, octets, octets.len()) else {
        return None;
    };
    let end = offset_of(rest, octets.len());
    let Ok((name, _)) = read_element(tag::OBJECT_IDENTIFIER, content, end) else {
        return None;
    };
    Some((Oid::known(name), rest))
}

/// The two lengths at the beginning of a binding where each is one octet, and what follows them.
#[inline(always)]
fn short_heads(octets: &[u8]) -> Option<(u8, u8, &[u8])>
    ensures { IfSome result (λ x. octets.now ≡ 48 ∷ x.0 ∷ 6 ∷ x.1 ∷ x.2.now) }
{
    match octets {
        [
            tag::SEQUENCE,
            size,
            tag::OBJECT_IDENTIFIER,
            name_size,
            rest @ ..,
        ] => Some((*size, *name_size, rest)),
        _ => None,
    }
}

/// What follows a NULL, its length in the short form.
#[inline(always)]
fn after_null(octets: &[u8]) -> Option<&[u8]>
    ensures { IfSome result (λ rest. octets.now ≡ 5 ∷ 0 ∷ rest.now) }
{
    match octets {
        [tag::NULL, 0, rest @ ..] => Some(rest),
        _ => None,
    }
}

/// The octets after a binding of NULL with lengths in the short form, as those of requests are.
#[inline(always)]
fn after_null_binding(octets: &[u8]) -> Option<&[u8]>
    ensures found { IfSome result (λ rest. (b : VarBind) × ((end : ℕ) → binding_at end octets.now ≡ Ok (b, rest.now))) }
    ensures fewer { IfSome result (λ rest. length rest.now < length octets.now) }
{
    let (size, name_size, rest) = short_heads(octets)?;
    let count = usize::from(name_size);
    if size >= 128 || usize::from(size) != count + 4 || rest.len() < count {
        return None;
    }
    let (name, rest) = rest.split_at(count);
    let rest = after_null(rest)?;
    if !is_name(name) {
        return None;
    }
    Some(rest)
}

/// The octets after a binding, which is checked.
#[inline(always)]
fn after_binding(octets: &[u8], end: usize) -> Result<&[u8], WireFault>
    requires { length octets.now ≤ end }
    ensures found { IfOk result (λ rest. (b : VarBind) × (binding_at end octets.now ≡ Ok (b, rest.now))) }
    ensures fault { IfErr result (λ f. binding_at end octets.now ≡ Err f) }
    ensures fewer { IfOk result (λ rest. length rest.now < length octets.now) }
{
    match after_null_binding(octets) {
        Some(rest) => Ok(rest),
        None => after_any_binding(octets, end),
    }
}

/// The octets after a binding of any value and with lengths in any form, as `after_binding`.
#[inline(never)]
fn after_any_binding(octets: &[u8], end: usize) -> Result<&[u8], WireFault>
    requires { length octets.now ≤ end }
    ensures found { IfOk result (λ rest. (b : VarBind) × (binding_at end octets.now ≡ Ok (b, rest.now))) }
    ensures fault { IfErr result (λ f. binding_at end octets.now ≡ Err f) }
    ensures fewer { IfOk result (λ rest. length rest.now < length octets.now) }
{
    let (_, rest) = read_binding(octets, end)?;
    Ok(rest)
}

/// Checks the bindings up to the end of the octets, each of them once.
#[inline(never)]
fn check_bindings(octets: &[u8], end: usize) -> Result<(), WireFault>
    requires { length octets.now ≤ end }
    ensures { Gives (λ _. bindings_of octets.now) result (bindings_at end octets.now) }
{
    let mut rest = octets;
    while !rest.is_empty() {
        rest = after_binding(rest, end)?;
    }
    Ok(())
}

/// Bindings up to the end of the octets.
#[inline]
pub(crate) fn bindings(octets: &[u8], end: usize) -> Result<Binds<'_>, WireFault>
    requires { length octets.now ≤ end }
    ensures { Gives (λ bs. bs) result (bindings_at end octets.now) }
{
    check_bindings(octets, end)?;
    Ok(Binds { content: octets })
}

/// The list of bindings, and the octets after it.
#[tactic(auto, unfolding(crate::specs::Reading::list_at))]
pub(crate) fn list(octets: &[u8], end: usize) -> Result<(Binds<'_>, &[u8]), WireFault>
    requires { length octets.now ≤ end }
    ensures exact { Gives (λ x. (x.0, x.1.now)) result (list_at end octets.now) }
    ensures rest { IfOk result (λ x. length x.1.now < length octets.now) }
{
    let (content, rest) = read_element(tag::SEQUENCE, octets, end)?;
    let binds = bindings(content, offset_of(rest, end))?;
    Ok((binds, rest))
}

/// How many octets the name and the value of a binding take, and how many the binding, where neither of the two is
/// larger than a datagram.
#[inline(always)]
#[tactic(auto, using(crate::proofs::Sizes::sizes), unfolding(crate::specs::Canonical::binding_octets))]
pub(crate) fn sizes_of_binding(name: &Oid<'_>, value: &Value<'_>) -> Result<(usize, usize), TooBig>
    ensures content { IfOk result (λ sizes. sizes.0 ≡ length (element 6 (name_octets name.now)
        ++ value_octets (object_value value.now))) }
    ensures whole { IfOk result (λ sizes. sizes.1 ≡ length (binding_octets (binding_of name.now value.now))) }
    ensures small { IfOk result (λ sizes. sizes.1 < 2 ^ 12) }
    ensures too_big { OnErr result (longest_datagram < length (binding_octets (binding_of name.now value.now))) }
{
    let name = size_of_octets(name.content());
    let value = size_of_value(value);
    if name > MAX_DATAGRAM || value > MAX_DATAGRAM {
        return Err(TooBig);
    }
    Ok((name + value, size_of_element(name + value)))
}

/// How many octets the shortest spelling of a binding takes, of which these are the contents of the name and of the
/// value.
#[inline]
#[tactic(auto, using(crate::proofs::Sizes::sizes))]
fn size_of_members(name: &[u8], value: &[u8]) -> usize
    requires { length name.now + length value.now ≤ longest_datagram }
    ensures { (tag : ℕ) → result ≡ length (element 48 (element 6 name.now ++ element tag value.now)) }
{
    size_of_element(size_of_octets(name) + size_of_octets(value))
}

/// The octets after the first of bindings, where that one has no more octets than its shortest spelling. Lengths alone
/// are read: a name and a value have one content each.
#[inline(always)]
fn after_shortest(octets: &[u8]) -> Option<&[u8]>
    requires whole { AreWhole octets.now }
    requires small { length octets.now ≤ longest_datagram }
    ensures whole { IfSome result (λ rest. AreWhole rest.now) }
    ensures same { IfSome result (λ rest. AreShortest rest.now → AreShortest octets.now) }
    ensures fewer { IfSome result (λ rest. length rest.now < length octets.now) }
{
    let Ok((content, rest)) = read_element(tag::SEQUENCE, octets, octets.len()) else {
        return None;
    };
    let Ok((name, value)) = read_element(tag::OBJECT_IDENTIFIER, content, content.len()) else {
        return None;
    };
    let [_, value @ ..] = value else {
        return None;
    };
    let Ok((value, _)) = read_content(value, value.len()) else {
        return None;
    };
    if octets.len() - rest.len() == size_of_members(name, value) {
        Some(rest)
    } else {
        None
    }
}

/// Octets that are bindings, where they are the shortest spelling of these, and no more than a datagram.
fn shortest_octets(octets: &[u8]) -> Option<&[u8]>
    requires { AreWhole octets.now }
    ensures same { IfSome result (λ shortest. shortest.now ≡ flat_map binding_octets (bindings_of octets.now)) }
    ensures small { IfSome result (λ shortest. length shortest.now ≤ longest_datagram) }
{
    if octets.len() > MAX_DATAGRAM {
        return None;
    }
    let mut rest = octets;
    while !rest.is_empty() {
        rest = after_shortest(rest)?;
    }
    Some(octets)
}

/// Writes the name and the value of a binding.
#[inline(always)]
#[tactic(auto, using(crate::proofs::Sizes::element_steps))]
fn put_binding_content(out: &mut Out, name: &Oid<'_>, value: &Value<'_>)
    requires { array_vec_len out.old + length (element 6 (name_octets name.now)
        ++ value_octets (object_value value.now)) ≤ longest_datagram }
    ensures { out.new.items ≡ out.old.items ++ (element 6 (name_octets name.now)
        ++ value_octets (object_value value.now)) }
{
    put_octets(out, tag::OBJECT_IDENTIFIER, name.content());
    put_value(out, value);
}

/// Writes a binding of which the name and the value take `content` octets.
#[inline(always)]
#[tactic(auto, using(crate::proofs::Sizes::nested_steps), unfolding(crate::specs::Canonical::binding_octets))]
pub(crate) fn put_binding_of_size(out: &mut Out, name: &Oid<'_>, value: &Value<'_>, content: usize)
    requires content { content ≡ length (element 6 (name_octets name.now)
        ++ value_octets (object_value value.now)) }
    requires room { array_vec_len out.old + length (binding_octets (binding_of name.now value.now)) ≤ longest_datagram }
    ensures { out.new.items ≡ out.old.items ++ binding_octets (binding_of name.now value.now) }
{
    if content < 128 {
        put_short_binding(out, name, value, content);
    } else {
        put_head(out, tag::SEQUENCE, content);
        put_binding_content(out, name, value);
    }
}

/// The same where both lengths are one octet: they are written at once.
#[inline(always)]
#[tactic(auto, using(crate::proofs::ShortPrefixes::short_sizes))]
fn put_short_binding(out: &mut Out, name: &Oid<'_>, value: &Value<'_>, content: usize)
    requires content { content ≡ length (element 6 (name_octets name.now)
        ++ value_octets (object_value value.now)) }
    requires short { content < 128 }
    requires room { array_vec_len out.old + (2 + content) ≤ longest_datagram }
    ensures { out.new.items ≡ out.old.items ++ binding_octets (binding_of name.now value.now) }
{
    let name = name.content();
    let heads = [
        tag::SEQUENCE,
        content as u8,
        tag::OBJECT_IDENTIFIER,
        name.len() as u8,
    ];
    put_content(out, &heads);
    put_content(out, name);
    put_value(out, value);
}

/// How many octets a binding takes where the value is an INTEGER of one octet and the name is short.
#[inline(always)]
#[tactic(auto, using(crate::proofs::ShortPrefixes::small_binding_size))]
pub(crate) fn size_of_small(name: &Oid<'_>, _value: &Value<'_>, _octet: u8) -> usize
    requires value { object_value _value.now ≡ integer (pos _octet) }
    requires small { _octet < 128 }
    requires short { length (name_octets name.now) < 64 }
    ensures whole { result ≡ length (binding_octets (binding_of name.now _value.now)) }
    ensures size { result ≡ length (name_octets name.now) + 7 }
{
    name.content().len() + 7
}

/// Writes such a binding.
#[inline(always)]
pub(crate) fn put_small_binding(out: &mut Out, name: &Oid<'_>, _value: &Value<'_>, octet: u8)
    requires value { object_value _value.now ≡ integer (pos octet) }
    requires small { octet < 128 }
    requires short { length (name_octets name.now) < 64 }
    requires room { array_vec_len out.old + (length (name_octets name.now) + 7) ≤ longest_datagram }
    ensures { out.new.items ≡ out.old.items ++ binding_octets (binding_of name.now _value.now) }
{
    let name = name.content();
    let size = name.len() as u8;
    put_content(
        out,
        &[tag::SEQUENCE, size + 5, tag::OBJECT_IDENTIFIER, size],
    );
    put_content(out, name);
    put_content(out, &[tag::INTEGER, 1, octet]);
}

/// Writes a binding.
#[inline(always)]
#[tactic(auto, using(crate::proofs::Sizes::nested_steps), unfolding(crate::specs::Canonical::binding_octets))]
fn put_binding(out: &mut Out, binding: &Bind<'_>)
    requires { array_vec_len out.old + length (binding_octets (var_bind binding.now)) ≤ longest_datagram }
    ensures { out.new.items ≡ out.old.items ++ binding_octets (var_bind binding.now) }
{
    let size = size_of_octets(binding.name.content()) + size_of_value(&binding.value);
    put_binding_of_size(out, &binding.name, &binding.value, size);
}

/// How many octets bindings take, where that is no more than a datagram.
#[tactic(auto, using(crate::proofs::Writes::written_steps))]
pub(crate) fn size_of_bindings(bindings: &[Bind<'_>]) -> Result<usize, TooBig>
    ensures ok { IfOk result (λ n. (n ≡ length (flat_map binding_octets (map var_bind bindings.now)))
        × (n ≤ longest_datagram)) }
    ensures too_big { OnErr result (longest_datagram < length (flat_map binding_octets (map var_bind bindings.now))) }
{
    let mut size = 0;
    for binding in bindings {
        let (_, added) = sizes_of_binding(&binding.name, &binding.value)?;
        size += added;
        if size > MAX_DATAGRAM {
            return Err(TooBig);
        }
    }
    Ok(size)
}

/// Writes bindings, one after the other.
#[tactic(auto, using(crate::proofs::Writes::written_steps))]
pub(crate) fn put_bindings(out: &mut Out, bindings: &[Bind<'_>])
    requires { array_vec_len out.old + length (flat_map binding_octets (map var_bind bindings.now)) ≤ longest_datagram }
    ensures { out.new.items ≡ out.old.items ++ flat_map binding_octets (map var_bind bindings.now) }
{
    for binding in bindings {
        put_binding(out, binding);
    }
}

/// The octets of bindings to write, one binding after the other, in their shortest spelling: who has each binding only
/// for a moment writes them with no array of bindings. Bindings of more than `MAX_DATAGRAM` octets are none that fit a
/// message: then no octet is kept, and `write_around` refuses them. A contract sees the octets, or none
/// (`octets_of_bindings`).
#[derive(Debug, Drop)]
pub struct BindingOctets {
    pub(crate) octets: Out,
    /// Whether the bindings have more octets than a datagram.
    pub(crate) too_big: bool,
}

impl Model for BindingOctets {
    ghost use Rattle.std.specs.Prelude.{ℕ, List, Option, Some, None, if◌then◌else◌};

    ghost Value = { Option (List ℕ) };

    ghost view = { λ a. if a.too_big then None else Some a.octets.items };
}

impl BindingOctets {
    /// No bindings.
    pub fn new() -> Self
        ensures { result ≡ octets_of_bindings [] }
    {
        BindingOctets {
            octets: Out::new(),
            too_big: false,
        }
    }

    /// Appends a binding. Where the bindings have more than `MAX_DATAGRAM` octets with it, they are too big from then
    /// on.
    pub fn push(&mut self, binding: &Bind<'_>)
        ensures { (bindings : List VarBind) → self.old ≡ octets_of_bindings bindings
            → self.new ≡ octets_of_bindings (bindings ++ var_bind binding.now ∷ []) }
    {
        self.push_value(&binding.name, &binding.value);
    }

    /// Appends the binding of this name and this value, as `push` does: neither is moved.
    pub fn push_value(&mut self, name: &Oid<'_>, value: &Value<'_>)
        ensures { (bindings : List VarBind) → self.old ≡ octets_of_bindings bindings
            → self.new ≡ octets_of_bindings (bindings ++ binding_of name.now value.now ∷ []) }
    {
        match small_integer(value) {
            Some(octet) if name.content().len() < 64 => self.push_small(name, value, octet),
            _ => self.push_any(name, value),
        }
    }

    /// The same where the value is an INTEGER of one octet, as most are, and the name is short.
    #[inline(always)]
    fn push_small(&mut self, name: &Oid<'_>, value: &Value<'_>, octet: u8)
        requires value { object_value value.now ≡ integer (pos octet) }
        requires small { octet < 128 }
        requires short { length (name_octets name.now) < 64 }
        ensures { (bindings : List VarBind) → self.old ≡ octets_of_bindings bindings
            → self.new ≡ octets_of_bindings (bindings ++ binding_of name.now value.now ∷ []) }
    {
        if !self.too_big && size_of_small(name, value, octet) <= self.octets.remaining_capacity() {
            put_small_binding(&mut self.octets, name, value, octet);
        } else {
            self.too_big = true;
        }
    }

    /// The same of any name and any value.
    #[inline(never)]
    fn push_any(&mut self, name: &Oid<'_>, value: &Value<'_>)
        ensures { (bindings : List VarBind) → self.old ≡ octets_of_bindings bindings
            → self.new ≡ octets_of_bindings (bindings ++ binding_of name.now value.now ∷ []) }
    {
        if self.too_big {
            return;
        }
        match sizes_of_binding(name, value) {
            Ok((content, size)) if size <= self.octets.remaining_capacity() => {
                put_binding_of_size(&mut self.octets, name, value, content);
            }
            _ => self.too_big = true,
        }
    }

    /// The bindings that are left of those of a message that was read.
    pub fn of(binds: Binds<'_>) -> Self
        ensures { result ≡ octets_of_bindings binds.entry }
    {
        let mut octets = BindingOctets::new();
        octets.fill(binds);
        octets
    }

    /// Appends the bindings that are left, where none was pushed: the octets stay where they are.
    pub(crate) fn fill(&mut self, binds: Binds<'_>)
        requires { self.old ≡ octets_of_bindings [] }
        ensures { self.new ≡ octets_of_bindings binds.entry }
    {
        let mut rest = binds;
        while let Some(binding) = rest.next() {
            self.push(&binding);
        }
    }
}
