//! A short list of octets, in place.

ghost use Rattle.std.specs.Prelude.{◌≡◌, ◌<◌, ◌≤◌, ◌↔◌, IsTrue, ℕ, List, [], ◌∷◌, ◌++◌, length, take, nat_eq};
ghost use Rattle.std.specs.Ordering.{nat_cmp, on, as_partial_cmp};
ghost use Rattle.std.specs.Cmp.{partial_order_from_own_ties};
ghost use Rattle.std.specs.Cmp.Lexicographic.{slice_cmp, pointwise};
ghost use Rattle.std.specs.Cmp.Rules.{comparing};
ghost use Rattle.std.proofs.Common.{rules};

use std::cmp::Ordering;
use std::marker::Model;

/// At most N octets in an array, with N below 256. Lists are ordered by their octets, and a prefix comes before the
/// longer list.
#[derive(Clone, Copy, Debug)]
pub struct ShortList<const N: usize> {
    items: [u8; N],
    count: u8,
}

impl<const N: usize> Model for ShortList<N> {
    ghost use Rattle.std.specs.Prelude.{List, ℕ, take, length, replicate, ◌++◌, ◌-◌};

    ghost Value = { List ℕ };

    ghost use Rattle.hlr_types.specs.Padding.{IsPadded};

    ghost view = { λ l. take l.count l.items };

    ghost invariant = { λ l. IsPadded N l.items l.count };

    ghost inverse = { λ v. record { items = v ++ replicate (N - length v) 0; count = length v } };

    ghost use Rattle.hlr_types.specs.Padding.{padded_items, padded_count, same_made};

    ghost inverse_ok = { λ a h. same_made (λ i c. record { items = i; count = c }) _ _ _ _
        (padded_items N a.items a.count h) (padded_count N a.items a.count h) };
}

impl<const N: usize> ShortList<N> {
    ghost use Rattle.hlr_types.specs.Padding.{IsPadded};

    /// No octet.
    pub fn new() -> Self
        requires { N < 256 }
        ensures { result ≡ [] }
    {
        ShortList {
            items: [0; N],
            count: 0,
        }
    }

    /// These octets.
    pub fn from_slice(octets: &[u8]) -> Self
        requires small { N < 256 }
        requires fits { length octets.now ≤ N }
        ensures { result ≡ octets.now }
    {
        let mut list = ShortList::new();
        for octet in octets {
            list.push(*octet);
        }
        list
    }

    /// The first octets of an array in which the others are zero.
    pub(crate) fn of_parts(items: &[u8; N], count: u8) -> Self
        requires { IsPadded N items.now count }
        ensures { result ≡ take count items.now }
    {
        ShortList {
            items: *items,
            count,
        }
    }

    /// The array that they stand in: the octets, and then zeros.
    pub(crate) fn padded(&self) -> &[u8]
        ensures padded { IsPadded N result.now (length self.now) }
        ensures value { take (length self.now) result.now ≡ self.now }
    {
        &self.items
    }

    /// The octets.
    pub fn as_slice(&self) -> &[u8]
        ensures value { result.now ≡ self.now }
        ensures most { length result.now ≤ N }
    {
        &self.items[..self.count as usize]
    }

    /// The number of octets.
    pub fn len(&self) -> usize
        ensures { result ≡ length self.now }
    {
        usize::from(self.count)
    }

    /// Whether there is none.
    pub fn is_empty(&self) -> bool
        ensures { IsTrue result ↔ (self.now ≡ []) }
    {
        self.as_slice().is_empty()
    }

    /// Appends an octet.
    pub fn push(&mut self, octet: u8)
        requires { length self.old < N }
        ensures { self.new ≡ self.old ++ octet ∷ [] }
    {
        self.items[self.count as usize] = octet;
        self.count += 1;
    }
}

impl<const N: usize> PartialEq for ShortList<N> {
    ghost eq = { on (λ l. l) (pointwise nat_eq) };

    ghost laws = { Prim.search (comparing, rules) };

    fn eq(&self, other: &ShortList<N>) -> bool {
        self.as_slice() == other.as_slice()
    }
}

impl<const N: usize> Eq for ShortList<N> {
    ghost laws = { Prim.search (comparing, rules) };
}

impl<const N: usize> Ord for ShortList<N> {
    ghost cmp = { on (λ l. l) (slice_cmp nat_cmp) };

    ghost total = { Prim.search (comparing, rules) };

    ghost matches_partial_cmp = { Prim.search (comparing, rules) };

    ghost matches_eq = { Prim.search (comparing, rules) };

    fn cmp(&self, other: &ShortList<N>) -> Ordering {
        self.as_slice().cmp(other.as_slice())
    }
}

impl<const N: usize> PartialOrd for ShortList<N> {
    ghost partial_cmp = { as_partial_cmp (on (λ l. l) (slice_cmp nat_cmp)) };

    ghost laws = { partial_order_from_own_ties (Prim.search (comparing, rules))
        (Prim.search (comparing, rules)) };

    fn partial_cmp(&self, other: &ShortList<N>) -> Option<Ordering> {
        Some(self.cmp(other))
    }
}
