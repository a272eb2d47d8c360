//! One number of a name at a time.

ghost use Rattle.std.specs.Prelude.{◌≡◌, ℕ, ◌+◌, ◌<◌, ◌≤◌, Option, IfSome};
ghost use Rattle.dms_wire.specs.Message.{ObjectValue};
ghost use Rattle.dms_device_fonts.specs.Tree.{Tree, Leaf, Span, tree_value, tree_after, under};
ghost use Rattle.dms_device_fonts.specs.View.{stepped, if_over, read_by, turned, IsInside, side_value, side_after};

use dms_wire_ber::Numbers;

/// The numbers of the fonts' node, 3 below dms.
pub(crate) const NODE: [u32; 11] = [1, 3, 6, 1, 4, 1, 1206, 4, 2, 3, 3];

/// A number of a span, and the numbers after it.
#[derive(Drop)]
pub(crate) struct Below<'a> {
    pub number: usize,
    pub rest: Numbers<'a>,
}

/// Where some numbers are, whose first may be one of a span.
#[derive(Drop)]
pub(crate) enum SpanPlace<'a> {
    /// Before all that stands in the span: there are no numbers, or the first one is too small.
    First,
    /// At a number of the span.
    Inside(Below<'a>),
    /// After all that stands in it.
    Past,
}

/// Where these numbers are in a span of so many, from `least` on.
pub(crate) fn place_in<'a>(numbers: Numbers<'a>, least: usize, count: usize) -> SpanPlace<'a>
    ensures value { (at : ℕ → Tree) → tree_value (Span least count at) numbers.entry ≡ read_by at result }
    ensures after { (at : ℕ → Tree) → tree_after (Span least count at) numbers.entry ≡ turned least count at result }
    ensures inside { IsInside least count result }
{
    let mut rest = numbers;
    let Some(number) = rest.next() else {
        return SpanPlace::First;
    };
    let number = number as usize;
    if number < least {
        return SpanPlace::First;
    }
    if number - least < count {
        SpanPlace::Inside(Below { number, rest })
    } else {
        SpanPlace::Past
    }
}

/// The number of the span that these numbers begin with, and the numbers after it.
pub(crate) fn step<'a>(numbers: Numbers<'a>, least: usize, count: usize) -> Option<Below<'a>>
    ensures value { (at : ℕ → Tree) → tree_value (Span least count at) numbers.entry ≡ stepped at result }
    ensures low { IfSome result (λ below. least ≤ below.number) }
    ensures high { IfSome result (λ below. below.number < least + count) }
{
    match place_in(numbers, least, count) {
        SpanPlace::First => None,
        SpanPlace::Inside(below) => Some(below),
        SpanPlace::Past => None,
    }
}

/// Whether there are no more numbers.
pub(crate) fn is_over(numbers: Numbers<'_>) -> bool
    ensures { (value : Option ObjectValue) → tree_value (Leaf value) numbers.entry ≡ if_over value result }
{
    let mut rest = numbers;
    match rest.next() {
        Some(_) => false,
        None => true,
    }
}

/// Where a name is, seen from what stands below another one.
#[derive(Drop)]
pub(crate) enum NodeSide<'a> {
    Before,
    /// Below it: these numbers are left.
    Under(Numbers<'a>),
    After,
}

/// Where these numbers are, seen from what stands below others.
pub(crate) fn place_under<'a>(numbers: Numbers<'a>, node: &[u32]) -> NodeSide<'a>
    ensures value { (tree : Tree) → tree_value (under node.now tree) numbers.entry ≡ side_value tree result }
    ensures after { (tree : Tree) → tree_after (under node.now tree) numbers.entry ≡ side_after node.now tree result }
{
    let Some((first, others)) = node.split_first() else {
        return NodeSide::Under(numbers);
    };
    match place_in(numbers, *first as usize, 1) {
        SpanPlace::First => NodeSide::Before,
        SpanPlace::Inside(below) => place_under(below.rest, others),
        SpanPlace::Past => NodeSide::After,
    }
}
