//! The open transactions of a shard (Q.774, transaction sublayer).

ghost use Rattle.std.specs.Prelude.{◌≡◌, ◌≢◌, ◌+◌, ◌<◌, ◌≤◌, ◌↔◌, List, ℕ, IsTrue, Some, None, Err, IsOk, IfOk, IfSome, OnOk, OnErr, IsNone, option_map};
ghost use Rattle.std.specs.FinMap as map;
ghost use Rattle.std.specs.FinSet as set;
ghost use Rattle.tsl.specs.Table.{ids_of_entries};
ghost use Rattle.machine.specs.Transactions.{OwnBegin, Answered, CloseComes, OwnContinue, OwnEnd, OwnClose, IsSent, ForIt, Nothing, transact, row};

use crate::received::{Head, Received};
use crate::transaction::Transaction;
use hlr_types::{Peer, RemoteId, Tid};
use slab::Slab;
use std::alloc::{AllocError, Global};
use std::marker::Model;
use thiserror::Error;
use tidalloc::Ids;

/// Why no transaction began.
#[derive(Clone, Copy, Debug, PartialEq, Eq, Drop, Error)]
pub enum TslFault {
    /// 4,096 transactions are open.
    #[error("4,096 transactions are open")]
    NoRoom,
    /// Out of memory.
    #[error("out of memory")]
    Memory,
}

impl From<AllocError> for TslFault {
    ghost use Rattle.std.specs.Prelude.{◌≡◌};
    ghost use Rattle.tsl.specs.declared.transactions.TslFault.TheVariants.{Memory};

    ghost from_gives = { λ _ fault. fault ≡ Memory };

    fn from(_refused: AllocError) -> TslFault {
        TslFault::Memory
    }
}

/// A transaction and its id.
#[derive(Clone, Copy)]
struct Entry {
    id: Tid,
    transaction: Transaction,
}

/// The open transactions of a shard, at most 4,096. The id of the next one is known before it begins.
#[derive(Drop)]
pub struct Transactions {
    ids: Ids,
    /// The key of each entry, indexed by the slot of its id: as many as slots were used, or one more.
    keys: Vec<usize>,
    entries: Slab<Entry>,
    /// How many can begin without allocating.
    room: usize,
}

impl Model for Transactions {
    ghost use Rattle.tsl.specs.Transactions.{OpenTransactions, open_transactions_code};

    ghost Value = { OpenTransactions };

    ghost coded = { open_transactions_code };

    ghost use Rattle.tsl.specs.Table.{open_of, AreEntries};

    ghost view = { λ a. open_of a.ids a.keys.items a.entries a.room };

    ghost invariant = { λ a. AreEntries a.ids a.keys.items a.entries a.room };
}

impl Transactions {
    ghost use Rattle.tidalloc.specs.LiveIds.{next_use};
    ghost use Rattle.tidalloc.specs.Resumed.{ascending};
    ghost use Rattle.tsl.specs.Transactions.{MayBegin, Begins, IsActive, IsInitiated, HaveIdsOfShard, transaction_of, known_as, initiated, active, at, beginning_after, count, next_of, none_open, none_with, with_transaction, closed, slot_if_open, HaveOwnSlots};
    ghost use Rattle.tsl.specs.Opening.{Opens};
    ghost use Rattle.tsl.specs.Received.{received, after, told_continue, told_close, activated};

    /// How many transactions can be open at once.
    pub const MAX_TRANSACTIONS: usize = Ids::MAX_IDS;

    /// No transaction is open.
    pub fn new(alloc: Global, shard: u8) -> Result<Self, AllocError>
        requires { shard < 16 }
        ensures { IfOk result (λ t. t ≡ none_open shard) }
    {
        Self::with_ids(alloc, Ids::new(alloc, shard)?)
    }

    /// No transaction is open, and the next ids are those of these, of which none is live: so a shard goes on with the ids that it had.
    pub fn with_ids(alloc: Global, ids: Ids) -> Result<Self, AllocError>
        requires { ids.live ≡ set.empty }
        ensures { IfOk result (λ t. t ≡ none_with ids) }
    {
        let slots = ids.free_slots().len();
        Ok(Transactions {
            ids,
            keys: vec![in alloc; 0; slots]?,
            entries: Slab::new(alloc),
            room: 0,
        })
    }

    /// The ids: those of the open transactions, and those that come next.
    pub fn ids(&self) -> &Ids
        ensures shard { result.now.shard ≡ self.now.shard }
        ensures supply { result.now.supply ≡ self.now.supply }
        ensures live { ascending result.now.live ≡ map.keys self.now.open_ones }
        ensures count { set.len result.now.live ≡ count self.now }
    {
        &self.ids
    }

    /// Opens a transaction for an own Begin (TR-BEGIN), in Initiation Sent. `NoRoom` if 4,096 are open, `Memory` if an
    /// allocation fails; on error nothing changes.
    pub fn begin(&mut self, to: Peer) -> Result<Tid, TslFault>
        ensures { Opens self.old (OwnBegin to) (initiated to) result self.new }
    {
        self.reserve()?;
        Ok(self.begin_reserved(to))
    }

    /// Opens an Active transaction for a received Begin that is answered with a Continue (TR-CONTINUE). Fails as `begin` does.
    pub fn continue_(&mut self, from: Peer, origin: RemoteId) -> Result<Tid, TslFault>
        ensures { Opens self.old (Answered from origin) (active from origin) result self.new }
    {
        self.reserve()?;
        Ok(self.continue_reserved(from, origin))
    }

    /// Reserves memory, so that the next transaction can be opened without allocating. Fails as `begin` does.
    pub fn reserve(&mut self) -> Result<(), TslFault>
        ensures ok { OnOk result (self.new ≡ record self.old { room = self.new.room }) }
        ensures room { OnOk result (0 < self.new.room) }
        ensures no_room { result ≡ Err TslFault.NoRoom ↔ (count self.old ≡ 4096) }
        ensures had_room { 0 < self.old.room → self.new ≡ self.old × IsOk result }
        ensures err { OnErr result (self.new ≡ self.old) }
    {
        if self.room > 0 {
            return Ok(());
        }
        if self.ids.is_full() {
            return Err(TslFault::NoRoom);
        }
        self.entries.reserve(1)?;
        if self.keys.len() == self.ids.live_count() {
            self.keys.reserve(1)?;
            self.keys.push_reserved(0);
        }
        self.room = 1;
        Ok(())
    }

    /// Like `begin`, after `reserve` or a close made room. Does not allocate.
    pub fn begin_reserved(&mut self, to: Peer) -> Tid
        requires { 0 < self.old.room }
        ensures begun { Begins self.old result (initiated to) self.new }
        ensures table { transact (at self.old result) (OwnBegin to)
            ≡ row (at self.new result) IsSent }
        ensures room { self.new.room + 1 ≡ self.old.room }
    {
        self.open(to, None)
    }

    /// Like `continue_`, after `reserve` or a close made room. Does not allocate.
    pub fn continue_reserved(&mut self, from: Peer, origin: RemoteId) -> Tid
        requires { 0 < self.old.room }
        ensures begun { Begins self.old result (active from origin) self.new }
        ensures table { transact (at self.old result) (Answered from origin)
            ≡ row (at self.new result) IsSent }
        ensures room { self.new.room + 1 ≡ self.old.room }
    {
        self.open(from, Some(origin))
    }

    fn open(&mut self, peer: Peer, remote: Option<RemoteId>) -> Tid
        requires { 0 < self.old.room }
        ensures begun { Begins self.old result (known_as peer remote) self.new }
        ensures room { self.new.room + 1 ≡ self.old.room }
    {
        let id = self.ids.take_one();
        let slot = self.ids.slot(id).unwrap();
        self.keys[slot] = self.entries.insert_reserved(Entry {
            id,
            transaction: Transaction { peer, remote },
        });
        self.room -= 1;
        id
    }

    /// The id under which the next transaction begins. `None` exactly if 4,096 are open.
    pub fn next_id(&self) -> Option<Tid>
        ensures value { result ≡ next_of self.now }
        ensures may { IfSome result (MayBegin self.now) }
        ensures none { IsNone result ↔ (count self.now ≡ 4096) }
    {
        self.ids.next_id()
    }

    /// The id under which the next transaction begins once this open one is closed.
    pub fn next_after(&self, id: Tid) -> Tid
        requires { at self.now id ≢ None }
        ensures value { result ≡ next_use id }
        ensures next { next_of (closed self.now id) ≡ Some result }
        ensures may { MayBegin (closed self.now id) result }
    {
        self.ids.next_after(id)
    }

    /// Which transaction a message is for, from whatever source. A Continue is for the open transaction with its destination id,
    /// if that is in Initiation Sent or its remote id is the Continue's originating id. An End or an Abort is for the open
    /// transaction with its destination id. Ids are compared as octets.
    pub fn look(&self, head: &Head) -> Received
        ensures { (from : List ℕ) → result ≡ received self.now from head.now }
    {
        match *head {
            Head::Continue {
                origin,
                destination,
            } => self.look_continue(origin, destination),
            Head::End { destination } => self.look_close(destination),
            Head::Abort { destination } => self.look_close(destination),
        }
    }

    fn look_continue(&self, origin: RemoteId, destination: RemoteId) -> Received
        ensures { result ≡ told_continue origin destination (at self.now destination) }
    {
        let Some(entry) = self.find(destination) else {
            return Received::NotAssigned(origin);
        };
        if entry.transaction.takes(origin) {
            Received::For(entry.id)
        } else {
            Received::NotAssigned(origin)
        }
    }

    fn look_close(&self, destination: RemoteId) -> Received
        ensures { result ≡ told_close destination (at self.now destination) }
    {
        match self.find(destination) {
            Some(entry) => Received::For(entry.id),
            None => Received::Nothing,
        }
    }

    /// Like `look`, and also updates the table: a Continue turns Initiation Sent into Active, with the source as peer and the
    /// originating id as remote id. A transaction that an End or an Abort closes stays open until `abort`.
    pub fn receive(&mut self, from: Peer, head: &Head) -> Received
        ensures answer { result ≡ received self.old from head.now }
        ensures after { self.new ≡ after self.old from head.now }
    {
        match *head {
            Head::Continue {
                origin,
                destination,
            } => self.receive_continue(from, origin, destination),
            Head::End { destination } => self.look_close(destination),
            Head::Abort { destination } => self.look_close(destination),
        }
    }

    fn receive_continue(&mut self, from: Peer, origin: RemoteId, destination: RemoteId) -> Received
        ensures answer { result ≡ told_continue origin destination (at self.old destination) }
        ensures after { self.new ≡ activated self.old destination from origin
            (at self.old destination) }
    {
        let Some(entry) = self.find(destination) else {
            return Received::NotAssigned(origin);
        };
        let Entry { id, transaction } = entry;
        if !transaction.takes(origin) {
            return Received::NotAssigned(origin);
        }
        if transaction.remote.is_none() {
            self.set(id, from, origin);
        }
        Received::For(id)
    }

    /// The transaction with this id, if one is open. If it is Active, an own Continue goes to its peer.
    pub fn get(&self, id: Tid) -> Option<Transaction>
        ensures value { option_map transaction_of result ≡ at self.now id }
        ensures table { IsActive (at self.now id)
            → transact (at self.now id) OwnContinue ≡ row (at self.now id) IsSent }
    {
        let Some(entry) = self.entry(id) else {
            return None;
        };
        Some(entry.transaction)
    }

    fn entry(&self, id: Tid) -> Option<Entry>
        ensures value { option_map (λ e. transaction_of e.transaction) result ≡ at self.now id }
        ensures id { IfSome result (λ e. e.id ≡ id) }
    {
        let slot = self.ids.slot(id)?;
        Some(self.entries[self.keys[slot]])
    }

    /// The entry of the open transaction with this local id.
    fn find(&self, destination: RemoteId) -> Option<Entry>
        ensures value { option_map (λ e. transaction_of e.transaction) result
            ≡ at self.now destination }
        ensures id { IfSome result (λ e. e.id ≡ destination) }
    {
        let _invariant = &self.ids;
        let Some(id) = Tid::read(destination.as_slice()) else {
            return None;
        };
        self.entry(id)
    }

    /// An open transaction becomes Active, with this peer and this remote id.
    pub fn set(&mut self, id: Tid, peer: Peer, remote: RemoteId)
        requires { at self.old id ≢ None }
        ensures { self.new ≡ with_transaction self.old id (active peer remote) }
    {
        let slot = self.ids.slot(id).unwrap();
        let transaction = Transaction {
            peer,
            remote: Some(remote),
        };
        self.entries[self.keys[slot]] = Entry { id, transaction };
    }

    /// Closes an Active transaction by an own End (TR-END), and returns the peer that the End goes to and the remote id.
    pub fn end(&mut self, id: Tid) -> (Peer, RemoteId)
        requires { IsActive (at self.old id) }
        ensures to { at self.old id ≡ Some (active result.0 result.1) }
        ensures closed { self.new ≡ closed self.old id }
        ensures table { transact (at self.old id) OwnEnd ≡ row (at self.new id) IsSent }
    {
        let transaction = self.close(id);
        (transaction.peer, transaction.remote.unwrap())
    }

    /// Closes a transaction without sending a frame: after a received End or Abort, or when it is abandoned in Initiation Sent.
    pub fn abort(&mut self, id: Tid)
        requires { at self.old id ≢ None }
        ensures closed { self.new ≡ closed self.old id }
        ensures comes { transact (at self.old id) CloseComes ≡ row (at self.new id) ForIt }
        ensures own { IsInitiated (at self.old id)
            → transact (at self.old id) OwnClose ≡ row (at self.new id) Nothing }
    {
        self.close(id);
    }

    fn close(&mut self, id: Tid) -> Transaction
        requires { at self.old id ≢ None }
        ensures was { at self.old id ≡ Some (transaction_of result) }
        ensures closed { self.new ≡ closed self.old id }
    {
        let slot = self.ids.slot(id).unwrap();
        let entry = self.entries.remove(self.keys[slot]);
        self.ids.give_back(id);
        self.room += 1;
        entry.transaction
    }

    /// The ids of the open transactions, in ascending order.
    pub fn list(&self) -> Result<Vec<Tid>, AllocError>
        ensures { IfOk result (λ ids. ids.items ≡ map.keys self.now.open_ones) }
    {
        let mut ids = ids_of(*self.keys.allocator(), &self.entries)?;
        ids.sort_unstable();
        Ok(ids)
    }

    /// The slot of an open transaction, below `MAX_TRANSACTIONS`. No two share a slot.
    pub fn slot(&self, id: Tid) -> Option<usize>
        ensures slot { result ≡ slot_if_open self.now id }
        ensures small { IfSome result (λ slot. slot < 4096) }
        ensures own { HaveOwnSlots self.now }
    {
        self.ids.slot(id)
    }

    /// How many transactions are open, each under an id of the shard.
    pub fn len(&self) -> usize
        ensures value { result ≡ count self.now }
        ensures fits { result + self.now.room ≤ 4096 }
        ensures of_shard { HaveIdsOfShard self.now }
    {
        self.ids.live_count()
    }

    /// Whether none is open.
    pub fn is_empty(&self) -> bool
        ensures { IsTrue result ↔ (count self.now ≡ 0) }
    {
        self.len() == 0
    }

    /// Whether 4,096 are open.
    pub fn is_full(&self) -> bool
        ensures { IsTrue result ↔ (count self.now ≡ 4096) }
    {
        self.len() == Self::MAX_TRANSACTIONS
    }

    /// Whether transactions here and there begin under the same ids, for ever, if the same ones close.
    pub fn goes_on_as(&self, other: &Transactions) -> bool
        ensures { IsTrue result ↔ (self.now.supply ≡ other.now.supply) }
    {
        self.ids.goes_on_as(&other.ids)
    }

    /// From now on the first id of a slot that was never used has the generation after this one.
    pub fn begin_after(&mut self, generation: u16)
        requires { generation < 4096 }
        ensures { self.new ≡ beginning_after self.old generation }
    {
        self.ids.begin_after(generation);
    }

    /// An equal copy.
    pub fn try_copy(&self) -> Result<Self, AllocError>
        ensures { IfOk result (λ t. t ≡ self.now) }
    {
        let mut entries = self.entries.clone()?;
        entries.reserve(self.room)?;
        Ok(Transactions {
            ids: self.ids.try_copy()?,
            keys: Vec::from_slice(*self.keys.allocator(), &self.keys)?,
            entries,
            room: self.room,
        })
    }
}

/// The ids of the entries, by key.
fn ids_of(alloc: Global, entries: &Slab<Entry>) -> Result<Vec<Tid>, AllocError>
    ensures { IfOk result (λ ids. ids.items ≡ ids_of_entries entries.now) }
{
    let mut ids = Vec::with_capacity(alloc, entries.len())?;
    for (_, entry) in entries.iter() {
        ids.push(entry.id)?;
    }
    Ok(ids)
}
