//! Whether jobs and receipts account for the journals.

ghost use Rattle.std.specs.Prelude.{◌≡◌, ◌==◌, ◌↔◌, ◌<◌, ◌≤◌, ◌++◌, ◌∷◌, [], ℕ, List, IsTrue, IsOk, IfErr, IfSome, MatchBool, filter, count_by, option_map, slice_get};
ghost use Rattle.std.specs.Option.{option_copied};
ghost use Rattle.frames.specs.Account.{Account, Answers, NoStray, Reconciles, Unaccounts, entry_at, names_place, numbers};
ghost use Rattle.shardlog.specs.Entries.{raw_entry};
ghost use Rattle.receipts.specs.Journals.{journal_list};
ghost use Rattle.receipts.specs.Least.{HasStray, LeastAmong};
ghost use Rattle.receipts.specs.Only.{only};
ghost use Rattle.receipts.specs.Receipts.{placed};

use crate::in_order::are_in_order;
use crate::job::Job;
use crate::placed::Placed;
use crate::receipt::Receipt;
use crate::same::{same_event, same_outs};
use shardlog::{Entry, Shard};
use std::thread::Threads;
use thiserror::Error;

/// The least number that is not accounted for, or 0 if only an entry is left over.
#[derive(Clone, Copy, Debug, PartialEq, Eq, Drop, Error)]
#[error("job {0} is unaccounted for")]
pub struct Unaccounted(pub u64);

/// The job with this number, if there is exactly one.
fn only_job(jobs: &[Job], number: u64) -> Option<&Job>
    ensures { option_copied result ≡ only (filter (λ j. j.number == number) jobs.now) }
{
    let mut found: Option<&Job> = None;
    for job in jobs {
        if job.number.get() == number {
            if found.is_some() {
                return None;
            }
            found = Some(job);
        }
    }
    found
}

/// The receipt with this number, if there is exactly one.
fn only_receipt(receipts: &[Receipt], number: u64) -> Option<&Receipt>
    ensures { option_copied result ≡ only (filter (λ r. r.job == number) receipts.now) }
{
    let mut found: Option<&Receipt> = None;
    for receipt in receipts {
        if receipt.job.get() == number {
            if found.is_some() {
                return None;
            }
            found = Some(receipt);
        }
    }
    found
}

/// Whether the receipt names this place.
fn is_named(receipt: &Receipt, shard: usize, position: usize) -> bool
    ensures { result ≡ names_place shard position receipt.now }
{
    match &receipt.answer {
        Ok(place) => usize::from(place.shard.number()) == shard && place.position == position,
        Err(_) => false,
    }
}

/// The entry at a position of a shard's journal.
pub(crate) fn find_entry(shards: &[Shard], shard: usize, position: usize) -> Option<&Entry>
    ensures { option_map raw_entry (option_copied result)
        ≡ entry_at (journal_list shards.now) shard position }
{
    match shard_at(shards, shard) {
        Some(found) => entry_in(found.entries(), position),
        None => None,
    }
}

fn shard_at(shards: &[Shard], shard: usize) -> Option<&Shard>
    ensures { option_copied result ≡ slice_get shards.now shard }
{
    shards.get(shard)
}

fn entry_in(entries: &[Entry], position: usize) -> Option<&Entry>
    ensures { option_copied result ≡ slice_get entries.now position }
{
    entries.get(position)
}

/// How many receipts name this place.
fn count_named(receipts: &[Receipt], shard: usize, position: usize) -> usize
    ensures { result ≡ count_by (names_place shard position) receipts.now }
{
    receipts
        .iter()
        .filter(|receipt| is_named(receipt, shard, position))
        .count()
}

/// Whether the entry at the place has the job's event and the frames sent, and no other receipt names the place.
fn is_answered(shards: &[Shard], receipts: &[Receipt], job: &Job, place: &Placed) -> bool
    ensures { IsTrue result ↔ Answers (journal_list shards.now) receipts.now job.now
        (placed place.now) }
{
    let shard = usize::from(place.shard.number());
    let Some(entry) = find_entry(shards, shard, place.position) else {
        return false;
    };
    same_event(&entry.event, &job.event)
        && same_outs(&entry.outs, &place.outs)
        && count_named(receipts, shard, place.position) == 1
}

/// Whether a number is accounted for.
fn is_accounted(shards: &[Shard], jobs: &[Job], receipts: &[Receipt], number: u64) -> bool
    ensures { IsTrue result ↔ Account (journal_list shards.now) jobs.now receipts.now number }
{
    let Some(job) = only_job(jobs, number) else {
        return false;
    };
    let Some(receipt) = only_receipt(receipts, number) else {
        return false;
    };
    match &receipt.answer {
        Ok(place) => is_answered(shards, receipts, job, place),
        Err(_) => false,
    }
}

/// The least number that is not accounted for, among the earlier ones and this one.
fn least_with(
    shards: &[Shard],
    jobs: &[Job],
    receipts: &[Receipt],
    least: Option<u64>,
    number: u64,
) -> Option<u64>
    ensures least { (ns : List ℕ) → LeastAmong
        (journal_list shards.now) jobs.now receipts.now ns least
        → LeastAmong (journal_list shards.now) jobs.now receipts.now (ns ++ number ∷ []) result }
    ensures from_one { IfSome least (λ n. 1 ≤ n) → 1 ≤ number → IfSome result (λ n. 1 ≤ n) }
{
    match least {
        Some(n) if n <= number => Some(n),
        _ => {
            if is_accounted(shards, jobs, receipts, number) {
                least
            } else {
                Some(number)
            }
        }
    }
}

/// The least number of a job or a receipt that is not accounted for.
fn least_fault(shards: &[Shard], jobs: &[Job], receipts: &[Receipt]) -> Option<u64>
    ensures least { LeastAmong (journal_list shards.now) jobs.now receipts.now
        (numbers jobs.now receipts.now) result }
    ensures from_one { IfSome result (λ n. 1 ≤ n) }
{
    let mut least = None;
    for job in jobs {
        least = least_with(shards, jobs, receipts, least, job.number.get());
    }
    for receipt in receipts {
        least = least_with(shards, jobs, receipts, least, receipt.job.get());
    }
    least
}

/// Whether some entry of a shard is named by no receipt.
fn has_stray_in(count: usize, receipts: &[Receipt], shard: usize) -> bool
    ensures { MatchBool result ((k : ℕ) × (k < count)
        × (count_by (names_place shard k) receipts.now ≡ 0))
        ((k : ℕ) → k < count → 0 < count_by (names_place shard k) receipts.now) }
{
    for position in 0..count {
        if count_named(receipts, shard, position) == 0 {
            return true;
        }
    }
    false
}

fn has_stray(shards: &[Shard], receipts: &[Receipt]) -> bool
    ensures { MatchBool result (HasStray (journal_list shards.now) receipts.now)
        (NoStray (journal_list shards.now) receipts.now) }
{
    for (number, shard) in shards.iter().enumerate() {
        if has_stray_in(shard.entries().len(), receipts, number) {
            return true;
        }
    }
    false
}

/// Whether jobs and receipts account for the journals: `Ok` exactly if each number of a job or a receipt is accounted for and no
/// entry is left over. Otherwise it names the least number that is not accounted for, or 0 if only an entry is left over. So many
/// threads, the caller's among them, compare the usual batch, at most one for each 1,024 jobs; if one cannot be started, the caller does its
/// part. Besides what the threads take it does not allocate.
///
/// Limitation: if jobs and receipts are pairwise in ascending order, as `run_batch` returns them, and account for the journals,
/// the time is linear in them; otherwise, for example if a receipt is a refusal, it is jobs times receipts. With more than 1,024
/// receipts it takes 128 kilobytes of the stack.
pub fn reconcile<R: Threads + Sync>(
    rt: &R,
    threads: usize,
    shards: &[Shard],
    jobs: &[Job],
    receipts: &[Receipt],
) -> Result<(), Unaccounted>
    ensures ok { IsOk result ↔ Reconciles (journal_list shards.now) jobs.now receipts.now }
    ensures err { IfErr result (λ fault. Unaccounts
        (journal_list shards.now) jobs.now receipts.now fault.0) }
{
    if are_in_order(rt, threads, shards, jobs, receipts) {
        return Ok(());
    }
    if let Some(number) = least_fault(shards, jobs, receipts) {
        return Err(Unaccounted(number));
    }
    if has_stray(shards, receipts) {
        return Err(Unaccounted(0));
    }
    Ok(())
}
