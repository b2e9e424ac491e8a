//! Whether the same dialogues are open.

ghost use Rattle.std.specs.Prelude.{◌≡◌, ◌↔◌, ◌<◌, [], ℕ, IfOk, IsTrue, length, slice_index_or};
ghost use Rattle.dialogues.specs.Dialogues.{dialogues_of};

use crate::dialogue::Dialogue;
use crate::dialogues::Dialogues;
use crate::kind::Kind;
use csl::Was;
use hlr_types::Tid;
use std::alloc::AllocError;
use tsl::Transaction;

impl Dialogues {
    /// Whether the same dialogues are open and the same ids come next, for ever. Both values are of one shard.
    pub fn same(&self, other: &Dialogues) -> Result<bool, AllocError>
        requires { self.now.shard ≡ other.now.shard }
        ensures { IfOk result (λ same. IsTrue same ↔ (self.now ≡ other.now)) }
    {
        if !self.goes_on_as(other) {
            return Ok(false);
        }
        let ids = self.list()?;
        let others = other.list()?;
        if !same_ids(&ids, &others) {
            return Ok(false);
        }
        same_in(self, other, &ids)
    }
}

/// Whether two lists of ids are equal.
fn same_ids(left: &[Tid], right: &[Tid]) -> bool
    ensures { IsTrue result ↔ (left.now ≡ right.now) }
{
    left == right
}

/// Whether the same dialogues are open under these ids.
fn same_in(left: &Dialogues, right: &Dialogues, ids: &[Tid]) -> Result<bool, AllocError>
    ensures { IfOk result (λ same. IsTrue same ↔ ((k : ℕ) → k < length ids.now
        → dialogues_of left.now (slice_index_or ids.now k [])
        ≡ dialogues_of right.now (slice_index_or ids.now k []))) }
{
    for id in ids {
        if !same_at(left, right, *id)? {
            return Ok(false);
        }
    }
    Ok(true)
}

/// Whether the same dialogue is open under an id, or none in both.
fn same_at(left: &Dialogues, right: &Dialogues, id: Tid) -> Result<bool, AllocError>
    ensures { IfOk result (λ same. IsTrue same
        ↔ (dialogues_of left.now id ≡ dialogues_of right.now id)) }
{
    let (mine, theirs) = match (left.get(id), right.get(id)) {
        (Some(mine), Some(theirs)) => (mine, theirs),
        (None, None) => return Ok(true),
        _ => return Ok(false),
    };
    if !same_dialogue(&mine, &theirs) {
        return Ok(false);
    }
    let invocations = left.invocations(id)?;
    let others = right.invocations(id)?;
    Ok(same_invocations(&invocations, &others))
}

/// Whether two dialogues are equal, apart from their invocations.
fn same_dialogue(left: &Dialogue, right: &Dialogue) -> bool
    ensures { IsTrue result ↔ (left.now ≡ right.now) }
{
    left.subscriber == right.subscriber
        && same_transaction(&left.transaction, &right.transaction)
        && same_kind(&left.kind, &right.kind)
}

fn same_transaction(left: &Transaction, right: &Transaction) -> bool
    ensures { IsTrue result ↔ (left.now ≡ right.now) }
{
    left.peer == right.peer && left.remote == right.remote
}

fn same_kind(left: &Kind, right: &Kind) -> bool
    ensures { IsTrue result ↔ (left.now ≡ right.now) }
{
    match (left, right) {
        (
            Kind::Update { register, invoke },
            Kind::Update {
                register: other,
                invoke: asked,
            },
        ) => register == other && invoke == asked,
        (
            Kind::Cancel { vlr, attempt, why },
            Kind::Cancel {
                vlr: other,
                attempt: count,
                why: cause,
            },
        ) => vlr == other && attempt == count && why == cause,
        (Kind::Data, Kind::Data) => true,
        _ => false,
    }
}

/// Whether two lists of invocations are equal.
fn same_invocations(left: &[(i8, Was, u64)], right: &[(i8, Was, u64)]) -> bool
    ensures { IsTrue result ↔ (left.now ≡ right.now) }
{
    if left.len() != right.len() {
        return false;
    }
    for index in 0..left.len() {
        if !same_invocation(&left[index], &right[index]) {
            return false;
        }
    }
    true
}

/// Whether two invocations are equal.
fn same_invocation(left: &(i8, Was, u64), right: &(i8, Was, u64)) -> bool
    ensures { IsTrue result ↔ (left.now ≡ right.now) }
{
    left.0 == right.0 && left.1 == right.1 && left.2 == right.2
}
