//! Object identifiers over their octets.
ghost use Rattle.std.specs.Prelude.{◌≡◌, ◌↔◌, ℕ, ◌+◌, ◌<◌, ◌==◌, ◌&&◌, List, [], ◌∷◌, length};
ghost use Rattle.std.specs.Prelude.{nat_eq, nat_lt, IsTrue, IsSome, IfSome, IfNone, refl};
ghost use Rattle.std.specs.Cmp.{partial_equiv_from_equiv};
ghost use Rattle.std.specs.Cmp.Lexicographic.{pointwise, nat_list_cmp_total, nat_list_eq_equiv, texts_po, texts_ties};
ghost use Rattle.std.specs.Ordering.{as_partial_cmp};
ghost use Rattle.std.specs.Iterator.{YieldsFirst, item_count};
ghost use Rattle.dms_wire_ber.specs.ObjectIdentifier.{IsName, numbers_from};
ghost use Rattle.dms_wire_ber.specs.ObjectIdentifier.{IsNameInLimits};
ghost use Rattle.dms_wire_ber.specs.NameReading.{goes_on, is_name, numbers_of, sub_identifiers_after};
ghost use Rattle.dms_wire_ber.specs.NameWalk.{fits_after};
ghost use Rattle.std.specs.Prelude.{◌≤◌, IfOk};
ghost use Rattle.dms_wire_ber.specs.Reading.{Gives, name_at};
ghost use Rattle.dms_wire_ber.specs.NameOrder.{numbers_cmp};
ghost use Rattle.dms_wire_ber.specs.ObjectIdentifier.{name_octets, under_dms};
ghost use Rattle.dms_wire_ber.specs.Limits.{most_sub_identifiers};

use crate::element::read_element;
use crate::fault::{FaultKind, WireFault, fault_at, offset_of};
use crate::tag;
use std::cmp::Ordering;
use std::fmt;
use std::marker::Model;

/// The most sub-identifiers of an object identifier, and so at most 128 numbers (this profile).
pub const MAX_SUB_IDENTIFIERS: usize = 127;

/// The content octets of dms, 1.3.6.1.4.1.1206.4.2.3, under which all objects of a sign stand (NTCIP 1203).
pub const DMS: [u8; 10] = [43, 6, 1, 4, 1, 137, 54, 4, 2, 3];

/// Those that stand before 2 and 3.
const ABOVE_DMS: [u8; 8] = [43, 6, 1, 4, 1, 137, 54, 4];

/// How many sub-identifiers the octets of dms are.
const DMS_SUB_IDENTIFIERS: usize = 9;

/// An object identifier, over its content octets. A contract sees the list of its numbers: 2 to 128 of them, each below
/// 2^32.
#[derive(Debug, Drop)]
pub struct Oid<'a> {
    pub(crate) content: &'a [u8],
}

impl<'a> Model for Oid<'a> {
    ghost use Rattle.std.specs.Prelude.{ℕ, List, IsTrue};
    ghost use Rattle.dms_wire_ber.specs.NameReading.{numbers_of, is_name};

    ghost Value = { List ℕ };

    ghost view = { λ a. numbers_of a.content.now };

    ghost invariant = { λ a. IsTrue (is_name a.content.now) };
}

impl<'a> Oid<'a> {
    /// The object identifier with this content (X.690, 8.19), or none where the octets are none's: there is no octet, a
    /// sub-identifier begins with octet 128, is 2^32 or more or lacks its last octet, or there are more than
    /// `MAX_SUB_IDENTIFIERS`.
    pub fn of(content: &'a [u8]) -> Option<Oid<'a>>
        ensures some { IfSome result (λ o. IsName o content.now) }
        ensures only { (numbers : List ℕ) → IsName numbers content.now → result ≡ Some numbers }
        ensures none { IfNone result ((numbers : List ℕ) → IsName numbers content.now → ⊥) }
    {
        name_of(content)
    }

    /// The object identifier with this content, of which it is known already that it is an object identifier's: its
    /// octets are not read again.
    pub fn known(content: &'a [u8]) -> Oid<'a>
        requires { (numbers : List ℕ) × IsName numbers content.now }
        ensures { (numbers : List ℕ) → IsName numbers content.now → result ≡ numbers }
    {
        Oid { content }
    }

    /// The content octets: the only ones that spell this object identifier.
    pub fn content(&self) -> &'a [u8]
        ensures { result.now ≡ name_octets self.now }
    {
        self.content
    }

    /// A copy, over the same octets.
    pub fn again(&self) -> Oid<'a>
        ensures { result ≡ self.now }
    {
        Oid {
            content: self.content,
        }
    }

    /// The numbers, from the first on.
    pub fn numbers(&self) -> Numbers<'a>
        ensures walk { result ≡ self.now }
        ensures in_limits { IsNameInLimits self.now }
    {
        Numbers {
            rest: self.content,
            begun: false,
            ahead: None,
        }
    }
}

impl<'a> IntoIterator for &Oid<'a> {
    type Item = u32;

    type IntoIter = Numbers<'a>;

    ghost into_iter_gives = { λ o it. it ≡ o.now };

    fn into_iter(self) -> Numbers<'a> {
        self.numbers()
    }
}

/// The numbers with a dot between them.
impl fmt::Display for Oid<'_> {
    ghost use Rattle.std.specs.Prelude.{Some};
    ghost use Rattle.dms_wire_ber.specs.NameText.{dotted};

    ghost output = { λ numbers. Some (dotted numbers) };

    fn fmt<W: fmt::Write>(&self, f: &mut fmt::Formatter<W>) -> fmt::Result {
        let mut rest = self.numbers();
        let Some(first) = rest.next() else {
            return Ok(());
        };
        write!(f, "{first}")?;
        while let Some(number) = rest.next() {
            write!(f, ".{number}")?;
        }
        Ok(())
    }
}

/// 0.0, which names nothing (zeroDotZero).
impl Default for Oid<'_> {
    ghost is_default = { λ name. name ≡ 0 ∷ 0 ∷ [] };

    #[tactic(auto, unfolding(crate::specs::NameReading::goes_on))]
    fn default() -> Self {
        Oid { content: &[0] }
    }
}

/// The numbers of an object identifier, in order: an iterator, which a contract sees as the list of those that are
/// left.
#[derive(Debug, Drop)]
pub struct Numbers<'a> {
    rest: &'a [u8],
    /// Whether the first sub-identifier, which is two numbers, was read.
    begun: bool,
    /// The second number, once the first was given.
    ahead: Option<u32>,
}

impl<'a> Model for Numbers<'a> {
    ghost use Rattle.std.specs.Prelude.{ℕ, List, IsTrue};
    ghost use Rattle.dms_wire_ber.specs.NameWalk.{numbers_left, fits_after};

    ghost Value = { List ℕ };

    ghost view = { λ a. numbers_left a.ahead a.begun a.rest.now };

    ghost invariant = { λ a. IsTrue (fits_after 0 a.rest.now) };
}

impl<'a> Iterator for Numbers<'a> {
    type Item = u32;

    ghost next_gives = { YieldsFirst (λ left. left) };

    ghost remaining = { item_count (λ left. left) };

    fn next(&mut self) -> Option<u32> {
        if let Some(number) = self.ahead.take() {
            return Some(number);
        }
        let (number, rest) = first_sub_identifier(self.rest)?;
        self.rest = rest;
        if self.begun {
            return Some(number);
        }
        self.begun = true;
        let (first, second) = first_two(number);
        self.ahead = Some(second);
        Some(first)
    }
}

/// The two numbers that the first sub-identifier is (X.690, 8.19.4).
fn first_two(sub_identifier: u32) -> (u32, u32)
    ensures { (others : List ℕ) → numbers_from (sub_identifier ∷ others) ≡ result.0 ∷ result.1 ∷ others }
{
    match sub_identifier {
        0..40 => (0, sub_identifier),
        40..80 => (1, sub_identifier - 40),
        _ => (2, sub_identifier - 80),
    }
}

/// The order of object identifiers (RFC 1157, 4.1.3): the first two numbers that differ decide, and one that another
/// begins with comes before it. Of two names below dms what follows dms is compared.
pub fn oid_cmp(a: &Oid<'_>, b: &Oid<'_>) -> Ordering
    ensures { result ≡ numbers_cmp a.now b.now }
{
    if let Some(left) = below_dms(a.content) {
        if let Some(right) = below_dms(b.content) {
            return sub_identifiers_cmp(left, right);
        }
    }
    sub_identifiers_cmp(a.content, b.content)
}

impl PartialEq for Oid<'_> {
    ghost eq = { pointwise nat_eq };

    ghost laws = { partial_equiv_from_equiv nat_list_eq_equiv };

    fn eq(&self, other: &Oid<'_>) -> bool {
        self.content == other.content
    }
}

impl Eq for Oid<'_> {
    ghost laws = { nat_list_eq_equiv };
}

impl PartialOrd for Oid<'_> {
    ghost partial_cmp = { as_partial_cmp numbers_cmp };

    ghost laws = { texts_po };

    fn partial_cmp(&self, other: &Oid<'_>) -> Option<Ordering> {
        Some(oid_cmp(self, other))
    }
}

impl Ord for Oid<'_> {
    ghost cmp = { numbers_cmp };

    ghost total = { nat_list_cmp_total };

    ghost matches_partial_cmp = { λ a b. refl };

    ghost matches_eq = { texts_ties };

    fn cmp(&self, other: &Oid<'_>) -> Ordering {
        oid_cmp(self, other)
    }
}

/// The order of the sub-identifiers, which is that of the numbers.
fn sub_identifiers_cmp(a: &[u8], b: &[u8]) -> Ordering
    requires left { IsTrue (fits_after 0 a.now) }
    requires right { IsTrue (fits_after 0 b.now) }
    ensures { result ≡ numbers_cmp (sub_identifiers_after 0 a.now) (sub_identifiers_after 0 b.now) }
{
    let mut left = a;
    let mut right = b;
    while let Some((x, left_rest)) = first_sub_identifier(left) {
        let Some((y, right_rest)) = first_sub_identifier(right) else {
            return Ordering::Greater;
        };
        if x != y {
            return x.cmp(&y);
        }
        left = left_rest;
        right = right_rest;
    }
    match first_sub_identifier(right) {
        Some(_) => Ordering::Less,
        None => Ordering::Equal,
    }
}

/// An OBJECT IDENTIFIER, and the octets after it; `BadName` at its content where it is none's. The octets must end
/// at the offset `end`.
#[inline(always)]
#[tactic(auto, unfolding(crate::specs::Reading::name_at))]
pub fn read_name(octets: &[u8], end: usize) -> Result<(Oid<'_>, &[u8]), WireFault>
    requires { length octets.now ≤ end }
    ensures exact { Gives (λ x. (x.0, x.1.now)) result (name_at end octets.now) }
    ensures rest { IfOk result (λ x. length x.1.now < length octets.now) }
{
    let (content, rest) = read_element(tag::OBJECT_IDENTIFIER, octets, end)?;
    let place = offset_of(content, offset_of(rest, end));
    let name = name_of(content).ok_or(fault_at(FaultKind::BadName, place))?;
    Ok((name, rest))
}

/// The object identifier with this content, as `Oid::of`; its clauses say it by `is_name` and `numbers_of`, which
/// compute.
#[inline(always)]
pub fn name_of(content: &[u8]) -> Option<Oid<'_>>
    ensures some { IfSome result (λ o. o ≡ numbers_of content.now) }
    ensures exact { IsSome result ↔ IsTrue (is_name content.now) }
{
    if is_name(content) {
        Some(Oid { content })
    } else {
        None
    }
}

/// Whether the octets are an object identifier's content. Most begin with those of dms, which need not be read one by
/// one.
#[inline(always)]
pub fn is_name(octets: &[u8]) -> bool
    ensures { IsTrue result ↔ IsTrue (is_name octets.now) }
{
    match below_dms(octets) {
        Some(rest) => goes_on_by_fours(DMS_SUB_IDENTIFIERS, rest),
        None => goes_on(0, octets),
    }
}

/// The octets after the ten of dms, where a name's content begins with them: eight are compared as one number.
#[inline(always)]
pub fn below_dms(octets: &[u8]) -> Option<&[u8]>
    ensures some { IfSome result (λ rest. octets.now ≡ under_dms rest.now) }
    ensures none { IfNone result ((rest : List ℕ) → octets.now ≡ under_dms rest → ⊥) }
{
    match octets {
        [a, b, c, d, e, f, g, h, 2, 3, rest @ ..]
            if u64::from_le_bytes([*a, *b, *c, *d, *e, *f, *g, *h])
                == u64::from_le_bytes(ABOVE_DMS) => Some(rest),
        _ => None,
    }
}

/// Whether the octets go on as an object identifier's content after `before` sub-identifiers: most of those below dms
/// have one octet, and are looked at four at once.
#[inline(never)]
fn goes_on_by_fours(before: usize, octets: &[u8]) -> bool
    requires { before ≤ most_sub_identifiers }
    ensures { IsTrue result ↔ IsTrue (goes_on before 0 octets.now) }
{
    let mut count = before;
    let mut rest = octets;
    while let Some(others) = after_four(count, rest) {
        count += 4;
        rest = others;
    }
    goes_on(count, rest)
}

/// Whether the octets go on as an object identifier's content after `before` sub-identifiers.
#[inline(never)]
#[tactic(auto, unfolding(crate::specs::NameReading::goes_on))]
fn goes_on(before: usize, octets: &[u8]) -> bool
    requires { before ≤ most_sub_identifiers }
    ensures { IsTrue result ↔ IsTrue (goes_on before 0 octets.now) }
{
    let mut count = before;
    let mut rest = octets;
    while let Some(others) = after_sub_identifier(count, rest) {
        count += 1;
        rest = others;
    }
    rest.is_empty() && 0 < count
}

/// What follows four sub-identifiers of one octet each, where that many may come.
#[inline(always)]
#[tactic(auto, using(crate::proofs::Names::four_steps))]
fn after_four(count: usize, octets: &[u8]) -> Option<&[u8]>
    ensures some { IfSome result (λ rest. goes_on count 0 octets.now ≡ goes_on (count + 4) 0 rest.now) }
    ensures few { IfSome result (λ _. count + 4 ≤ most_sub_identifiers) }
    ensures shorter { IfSome result (λ rest. length rest.now < length octets.now) }
{
    let (a, b, c, d, rest) = first_four(octets)?;
    if a < 128 && b < 128 && c < 128 && d < 128 && count <= MAX_SUB_IDENTIFIERS - 4 {
        Some(rest)
    } else {
        None
    }
}

/// The first four octets, and what follows them.
#[inline(always)]
fn first_four(octets: &[u8]) -> Option<(u8, u8, u8, u8, &[u8])>
    ensures { IfSome result (λ x. octets.now ≡ x.0 ∷ x.1 ∷ x.2 ∷ x.3 ∷ x.4.now) }
{
    match octets {
        [a, b, c, d, rest @ ..] => Some((*a, *b, *c, *d, rest)),
        _ => None,
    }
}

/// What follows the first sub-identifier, before which there were `count`; none where there is no octet, or where it is
/// out of form, is one too many, is 2^32 or more or lacks its last octet.
#[inline(always)]
#[tactic(auto, unfolding(crate::specs::NameReading::goes_on))]
fn after_sub_identifier(count: usize, octets: &[u8]) -> Option<&[u8]>
    ensures some { IfSome result (λ rest. goes_on count 0 octets.now ≡ goes_on (count + 1) 0 rest.now) }
    ensures few { IfSome result (λ _. count < most_sub_identifiers) }
    ensures none { IfNone result (goes_on count 0 octets.now ≡ ((length octets.now == 0) && nat_lt 0 count)) }
    ensures shorter { IfSome result (λ rest. length rest.now < length octets.now) }
{
    match octets {
        [octet, rest @ ..] if *octet < 128 => {
            if count < MAX_SUB_IDENTIFIERS {
                Some(rest)
            } else {
                None
            }
        }
        _ => after_long_sub_identifier(count, octets),
    }
}

/// What follows the first sub-identifier, octet by octet, whatever its size.
#[tactic(auto, unfolding(crate::specs::NameReading::goes_on))]
fn after_long_sub_identifier(count: usize, octets: &[u8]) -> Option<&[u8]>
    ensures some { IfSome result (λ rest. goes_on count 0 octets.now ≡ goes_on (count + 1) 0 rest.now) }
    ensures few { IfSome result (λ _. count < most_sub_identifiers) }
    ensures none { IfNone result (goes_on count 0 octets.now ≡ ((length octets.now == 0) && nat_lt 0 count)) }
    ensures shorter { IfSome result (λ rest. length rest.now < length octets.now) }
{
    let mut number = 0;
    let mut rest = octets;
    while let [octet, others @ ..] = rest {
        if 1 << 25 <= number || *octet == 128 && number == 0 {
            return None;
        }
        if *octet < 128 {
            if count < MAX_SUB_IDENTIFIERS {
                return Some(others);
            }
            return None;
        }
        number = number * 128 + u32::from(*octet % 128);
        rest = others;
    }
    None
}

/// The first sub-identifier of the octets, and what follows it; none where no octet is below 128.
#[inline(always)]
fn first_sub_identifier(octets: &[u8]) -> Option<(u32, &[u8])>
    requires { IsTrue (fits_after 0 octets.now) }
    ensures some { IfSome result (λ x. sub_identifiers_after 0 octets.now ≡ x.0 ∷ sub_identifiers_after 0 x.1.now) }
    ensures fits { IfSome result (λ x. IsTrue (fits_after 0 x.1.now)) }
    ensures shorter { IfSome result (λ x. length x.1.now < length octets.now) }
    ensures none { IfNone result (sub_identifiers_after 0 octets.now ≡ []) }
{
    match octets {
        [octet, rest @ ..] if *octet < 128 => Some((u32::from(*octet), rest)),
        _ => first_long_sub_identifier(octets),
    }
}

/// The first sub-identifier of any size, and what follows it.
fn first_long_sub_identifier(octets: &[u8]) -> Option<(u32, &[u8])>
    requires { IsTrue (fits_after 0 octets.now) }
    ensures some { IfSome result (λ x. sub_identifiers_after 0 octets.now ≡ x.0 ∷ sub_identifiers_after 0 x.1.now) }
    ensures fits { IfSome result (λ x. IsTrue (fits_after 0 x.1.now)) }
    ensures shorter { IfSome result (λ x. length x.1.now < length octets.now) }
    ensures none { IfNone result (sub_identifiers_after 0 octets.now ≡ []) }
{
    let mut number = 0;
    let mut rest = octets;
    while let [octet, others @ ..] = rest {
        if *octet < 128 {
            return Some((number * 128 + u32::from(*octet), others));
        }
        number = number * 128 + u32::from(*octet % 128);
        rest = others;
    }
    None
}
