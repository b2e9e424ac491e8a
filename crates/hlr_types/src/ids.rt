//! Transaction ids (Q.773): the register's own and the peer's.

ghost use Rattle.std.specs.Prelude.{◌≡◌, ◌≤◌, ◌<◌, ◌^◌, length, slice_index, List, ℕ, IfSome, Some};
ghost use Rattle.hlr_types.specs.Identities.{remote_id_of, IsRemoteId};
ghost use Rattle.std.specs.Ordering.{nat_cmp, on, as_partial_cmp};
ghost use Rattle.std.specs.Cmp.{partial_order_from_own_ties};
ghost use Rattle.std.specs.Cmp.Lexicographic.{slice_cmp};
ghost use Rattle.std.specs.Cmp.Rules.{comparing};
ghost use Rattle.std.proofs.Common.{rules};
ghost use Rattle.hlr_types.specs.Ids.{id_of, number_of, word_of_id, AreFourOctets, local_id_of, IsLocalId, AreIdNumbers};

use crate::short_list::ShortList;
use std::cmp::Ordering;
use std::marker::Model;

/// A local transaction id: four octets, ordered as the octets are. The first is the number of the shard.
#[derive(Clone, Copy, Debug, PartialEq, Eq)]
pub struct Tid(pub [u8; 4]);

impl Model for Tid {
    ghost use Rattle.std.specs.Prelude.{List, ℕ};

    ghost Value = { List ℕ };

    ghost view = { λ t. t.0 };

    ghost inverse = { λ v. record { 0 = v } };
}

impl Tid {
    /// The id of this number in a shard: the shard, then the number in three octets, the highest first.
    pub fn new(shard: u8, number: u32) -> Tid
        requires { number < 2 ^ 24 }
        ensures { result ≡ id_of shard number }
    {
        Tid([
            shard,
            (number / 65536) as u8,
            (number / 256 % 256) as u8,
            (number % 256) as u8,
        ])
    }

    /// The id of four octets.
    #[tactic(auto, using(crate::proofs::IdLemmas::local_id_laws))]
    pub fn read(octets: &[u8]) -> Option<Tid>
        ensures found { IfSome result (λ id. IsLocalId octets.now id) }
        ensures only { (id : List ℕ) → IsLocalId octets.now id → result ≡ Some id }
        ensures exact { result ≡ local_id_of octets.now }
    {
        match octets {
            [a, b, c, d] => Some(Tid([*a, *b, *c, *d])),
            _ => None,
        }
    }

    /// The shard: the first octet.
    pub fn shard(&self) -> u8
        ensures { result ≡ slice_index self.now 0 }
    {
        self.0[0]
    }

    /// The number in the last three octets.
    pub fn number(&self) -> u32
        ensures value { result ≡ number_of self.now }
        ensures small { result < 2 ^ 24 }
    {
        let [_, high, middle, low] = self.0;
        u32::from(high) * 65536 + u32::from(middle) * 256 + u32::from(low)
    }

    /// Its octets as one number, the first the highest: in the order of the numbers as in that of the octets.
    #[inline(always)]
    fn word(&self) -> u32
        ensures value { result ≡ word_of_id self.now }
        ensures octets { AreFourOctets self.now }
    {
        let [shard, high, middle, low] = self.0;
        let below = u32::from(middle) * 0x100 + u32::from(low);
        u32::from(shard) * 0x100_0000 + (u32::from(high) * 0x1_0000 + below)
    }

    /// Its four octets.
    pub fn as_slice(&self) -> &[u8]
        ensures value { result.now ≡ self.now }
        ensures count { length result.now ≡ 4 }
    {
        &self.0
    }
}

impl Ord for Tid {
    ghost cmp = { on (λ t. t) (slice_cmp nat_cmp) };

    ghost total = { Prim.search (comparing, rules) };

    ghost matches_partial_cmp = { Prim.search (comparing, rules) };

    ghost matches_eq = { Prim.search (comparing, rules) };

    #[inline(always)]
    fn cmp(&self, other: &Tid) -> Ordering {
        self.word().cmp(&other.word())
    }
}

impl PartialOrd for Tid {
    ghost partial_cmp = { as_partial_cmp (on (λ t. t) (slice_cmp nat_cmp)) };

    ghost laws = { partial_order_from_own_ties (Prim.search (comparing, rules))
        (Prim.search (comparing, rules)) };

    #[inline(always)]
    fn partial_cmp(&self, other: &Tid) -> Option<Ordering> {
        Some(self.cmp(other))
    }
}

/// Law: the shard and the number determine an id, and each number below 2^24 is that of one id of a shard.
#[tactic(auto, using(crate::proofs::IdLemmas::id_numbers))]
pub fn law_id_numbers()
    ensures { AreIdNumbers }
{}

/// The peer's transaction id: 1 to 4 octets. Ids are compared as octets: `00 00 01` and `00 00 00 01` are two ids.
#[derive(Clone, Copy, Debug, PartialEq, Eq, PartialOrd, Ord)]
pub struct RemoteId {
    octets: ShortList<4>,
}

impl Model for RemoteId {
    ghost use Rattle.std.specs.Prelude.{List, ℕ, length, ◌≤◌};

    ghost Value = { List ℕ };

    ghost view = { λ r. r.octets };

    ghost invariant = { λ r. 1 ≤ length r.octets };

    ghost inverse = { λ v. record { octets = v } };
}

impl RemoteId {
    /// The id of 1 to 4 octets.
    #[tactic(auto, using(crate::proofs::IdentityLaws::remote_id_laws))]
    pub fn read(octets: &[u8]) -> Option<RemoteId>
        ensures found { IfSome result (λ id. IsRemoteId octets.now id) }
        ensures only { (id : List ℕ) → IsRemoteId octets.now id → result ≡ Some id }
        ensures exact { result ≡ remote_id_of octets.now }
    {
        if 1 <= octets.len() && octets.len() <= 4 {
            Some(RemoteId {
                octets: ShortList::from_slice(octets),
            })
        } else {
            None
        }
    }

    /// Its 1 to 4 octets.
    #[tactic(auto, using(crate::proofs::IdentityLaws::remote_id_laws))]
    pub fn as_slice(&self) -> &[u8]
        ensures value { result.now ≡ self.now }
        ensures id { IsRemoteId result.now self.now }
    {
        self.octets.as_slice()
    }
}
