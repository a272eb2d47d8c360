//! Octets that are kept in place.

ghost use Rattle.std.specs.Prelude.{◌≡◌, ◌≤◌, [], length};

use std::marker::Model;

/// At most `N` octets, which lie in the value itself: others take their place by one copy, and what lies behind them is
/// of no meaning. That is why it is no `ArrayVec`, which empties the places of its old items one by one before new ones
/// come. A contract sees the octets, as it sees an `ArrayVec`'s.
#[derive(Drop)]
pub struct Kept<const N: usize> {
    octets: [u8; N],
    len: usize,
}

impl<const N: usize> Model for Kept<N> {
    ghost use Rattle.std.specs.Prelude.{ℕ, ◌≤◌, take};
    ghost use Rattle.arrayvec.specs.ArrayVec.{ArrayVec as Items};

    ghost Value = { Items ℕ };

    ghost view = { λ k. record { items = take k.len k.octets } };

    ghost invariant = { λ k. k.len ≤ N };
}

impl<const N: usize> Kept<N> {
    /// No octets.
    pub fn new() -> Self
        ensures { result.items ≡ [] }
    {
        Kept {
            octets: [0; N],
            len: 0,
        }
    }

    /// The octets.
    #[inline]
    pub fn as_slice(&self) -> &[u8]
        ensures value { result.now ≡ self.now.items }
        ensures fits { length result.now ≤ N }
    {
        &self.octets[..self.len]
    }

    /// These octets take the place of those that were there.
    #[inline]
    pub fn replace(&mut self, octets: &[u8])
        requires { length octets.now ≤ N }
        ensures { self.new.items ≡ octets.now }
    {
        self.octets[..octets.len()].copy_from_slice(octets);
        self.len = octets.len();
    }
}
