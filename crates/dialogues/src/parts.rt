//! Changes of the tables of open dialogues, shared by the calls.

ghost use Rattle.std.specs.Prelude.{◌≡◌, ◌≢◌, ◌<◌, ◌≤◌, ℕ, [], None, Some, IfOk, IfSome, OnOk, length, slice_index_or, slice_set};
ghost use Rattle.tidalloc.specs.LiveIds.{slot_of};
ghost use Rattle.tsl.specs.Transactions.{Begins, HaveOwnSlots, at, closed, count, next_of, transaction_of};
ghost use Rattle.csl.specs.Tables.{put_list};
ghost use Rattle.dialogues.specs.declared.talk.Talk.{Talk};
ghost use Rattle.dialogues.specs.Joined.{talk_in};

use crate::dialogue::Dialogue;
use crate::talk::Talk;
use csl::Invocations;
use hlr_types::Tid;
use std::alloc::AllocError;
use tsl::{Transaction, Transactions, TslFault};

/// The slot of an id: its last twelve bits.
pub(crate) fn slot_of(id: Tid) -> usize
    ensures { result ≡ slot_of id }
{
    (id.number() % 4096) as usize
}

/// Makes room for a slot. New slots are filled with this talk.
pub(crate) fn make_room(talks: &mut Vec<Talk>, slot: usize, talk: Talk) -> Result<(), AllocError>
    requires { slot < 4096 }
    ensures room { OnOk result (slot < length talks.new.items) }
    ensures longer { length talks.old.items ≤ length talks.new.items }
    ensures kept { (k : ℕ) (d : Talk) → k < length talks.old.items
        → slice_index_or talks.new.items k d ≡ slice_index_or talks.old.items k d }
{
    if slot < talks.len() {
        return Ok(());
    }
    talks.resize(slot + 1, talk)
}

/// Reserves memory for one more transaction, if the table is not full.
pub(crate) fn reserve(transactions: &mut Transactions) -> Result<(), AllocError>
    requires { count transactions.old ≢ 4096 }
    ensures ok { transactions.new ≡ record transactions.old { room = transactions.new.room } }
    ensures room { OnOk result (0 < transactions.new.room) }
{
    match transactions.reserve() {
        Ok(()) => Ok(()),
        Err(TslFault::NoRoom) => unreachable!(),
        Err(TslFault::Memory) => Err(AllocError),
    }
}

/// Makes room for a dialogue under the next id, and returns that id: memory for its transaction, and a talk at its slot.
pub(crate) fn place_for(
    transactions: &mut Transactions,
    talks: &mut Vec<Talk>,
    dialogue: &Dialogue,
) -> Result<Tid, AllocError>
    requires { next_of transactions.old ≢ None }
    ensures next { IfOk result (λ id. next_of transactions.old ≡ Some id) }
    ensures reserved { OnOk result (0 < transactions.new.room) }
    ensures room { IfOk result (λ id. slot_of id < length talks.new.items) }
    ensures few { OnOk result (count transactions.old ≢ 4096) }
    ensures ok { transactions.new ≡ record transactions.old { room = transactions.new.room } }
    ensures longer { length talks.old.items ≤ length talks.new.items }
    ensures kept { (k : ℕ) (d : Talk) → k < length talks.old.items
        → slice_index_or talks.new.items k d ≡ slice_index_or talks.old.items k d }
{
    let id = transactions.next_id().unwrap();
    reserve(transactions)?;
    make_room(talks, slot_of(id), dialogue.talk())?;
    Ok(id)
}

/// Opens this transaction, in Initiation Sent if the peer's id is not known. Does not allocate.
fn begin_transaction(transactions: &mut Transactions, transaction: Transaction) -> Tid
    requires { 0 < transactions.old.room }
    ensures { Begins transactions.old result (transaction_of transaction) transactions.new }
{
    match transaction.remote {
        Some(origin) => transactions.continue_reserved(transaction.peer, origin),
        None => transactions.begin_reserved(transaction.peer),
    }
}

/// Opens the transaction of a dialogue under the next id, and stores its subscriber and kind at the slot of that id. Does not
/// allocate.
pub(crate) fn begin(
    transactions: &mut Transactions,
    talks: &mut Vec<Talk>,
    dialogue: &Dialogue,
) -> Tid
    requires room { 0 < transactions.old.room }
    requires slot { IfSome (next_of transactions.old) (λ id. slot_of id < length talks.old.items) }
    ensures begun { Begins transactions.old result
        (transaction_of dialogue.now.transaction) transactions.new }
    ensures own_slots { HaveOwnSlots transactions.new }
    ensures kept { talks.new.items ≡ slice_set talks.old.items (slot_of result)
        (talk_in dialogue.now) }
{
    let id = begin_transaction(transactions, dialogue.transaction);
    let slot = transactions.slot(id).unwrap();
    talks[slot] = dialogue.talk();
    id
}

/// Closes the transaction of a dialogue, and makes its invocations Idle. Does not allocate.
pub(crate) fn close(transactions: &mut Transactions, invocations: &mut Invocations, id: Tid)
    requires { at transactions.old id ≢ None }
    ensures closed { transactions.new ≡ closed transactions.old id }
    ensures forgotten { invocations.new ≡ put_list invocations.old id [] }
{
    transactions.abort(id);
    invocations.forget(id);
}
