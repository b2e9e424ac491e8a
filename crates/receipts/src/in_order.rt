//! The usual batch: jobs and receipts are pairwise in ascending order. Three passes check it, and one over the marks of the entries.

ghost use Rattle.std.specs.Prelude.{◌≡◌, ◌+◌, ◌<◌, ℕ, IsTrue, cond};
ghost use Rattle.std.specs.Thread.{IsSync};
ghost use Rattle.frames.specs.Account.{Reconciles, names_place};
ghost use Rattle.receipts.specs.Journals.{journal_list};
ghost use Rattle.receipts.specs.Marks.{AreMarked, HasAllMarks, HasNoMarks, mark_at};
ghost use Rattle.receipts.specs.Pairs.{ArePairs, EachNamedOnce, IsPair};

use crate::account::find_entry;
use crate::job::Job;
use crate::marks::{MAX_SHARDS, is_marked, mark};
use crate::numbers::numbers_rise;
use crate::receipt::Receipt;
use crate::same::{same_event, same_outs};
use machine::numbers::MAX_ENTRIES;
use shardlog::Shard;
use std::thread::{self, Threads};

/// How many positions a small table has: so few receipts name no later one, if each names another entry.
const FEW: usize = 1_024;

/// The least number of pairs of which another thread compares a half: that takes longer than to start the thread.
const PAIRS_OF_A_START: usize = 2_048;

/// Whether the receipt is for the job, and its entry has the job's event and the receipt's frames.
fn is_pair(shards: &[Shard], job: &Job, receipt: &Receipt) -> bool
    ensures { IsTrue result → IsPair (journal_list shards.now) job.now receipt.now }
{
    if receipt.job != job.number {
        return false;
    }
    match &receipt.answer {
        Ok(place) => {
            match find_entry(shards, usize::from(place.shard.number()), place.position) {
                Some(entry) => {
                    same_event(&entry.event, &job.event) && same_outs(&entry.outs, &place.outs)
                }
                None => false,
            }
        }
        Err(_) => false,
    }
}

fn are_pairs(shards: &[Shard], jobs: &[Job], receipts: &[Receipt]) -> bool
    ensures { IsTrue result → ArePairs (journal_list shards.now) jobs.now receipts.now }
{
    if jobs.len() != receipts.len() {
        return false;
    }
    for index in 0..jobs.len() {
        if !is_pair(shards, &jobs[index], &receipts[index]) {
            return false;
        }
    }
    true
}

/// The same, by so many threads: each half of the pairs by a half of them.
#[cycle(halves)]
fn are_pairs_by<R: Threads + Sync>(
    rt: &R,
    threads: usize,
    shards: &[Shard],
    jobs: &[Job],
    receipts: &[Receipt],
) -> bool
    ensures { IsTrue result → ArePairs (journal_list shards.now) jobs.now receipts.now }
{
    if threads < 2 || jobs.len() < PAIRS_OF_A_START || jobs.len() != receipts.len() {
        return are_pairs(shards, jobs, receipts);
    }
    let (jobs, more) = jobs.split_at(jobs.len() / 2);
    let (receipts, others) = receipts.split_at(receipts.len() / 2);
    let (first, second) = thread::join(
        rt,
        || -> bool
            requires { IsSync R.row }
            ensures { IsTrue result
                → ArePairs (journal_list shards.entry.now) jobs.entry.now receipts.entry.now }
        { are_pairs_by(rt, threads / 2, shards, jobs, receipts) },
        || -> bool
            requires { IsSync R.row }
            ensures { IsTrue result
                → ArePairs (journal_list shards.entry.now) more.entry.now others.entry.now }
        { are_pairs_by(rt, threads - threads / 2, shards, more, others) },
    );
    first && second
}

/// Marks the place that a receipt names. False if it names none, or one that is marked already or beyond the table.
fn mark_place(words: &mut [u16], receipt: &Receipt) -> bool
    ensures { IsTrue result → (shard position : ℕ) → mark_at words.new shard position
        ≡ mark_at words.old shard position + cond (names_place shard position receipt.now) 1 0 }
{
    match &receipt.answer {
        Ok(place) => mark(words, usize::from(place.shard.number()), place.position),
        Err(_) => false,
    }
}

/// Marks the places that receipts name. False unless each receipt names another.
fn mark_places(words: &mut [u16], receipts: &[Receipt]) -> bool
    requires { HasNoMarks words.old }
    ensures { IsTrue result → AreMarked receipts.now words.new }
{
    for receipt in receipts {
        if !mark_place(words, receipt) {
            return false;
        }
    }
    true
}

/// Whether all `count` entries of one shard are marked.
fn is_full(words: &[u16], shard: usize, count: usize) -> bool
    ensures { IsTrue result → (k : ℕ) → k < count → mark_at words.now shard k ≡ 1 }
{
    if shard >= MAX_SHARDS || count > words.len() {
        return false;
    }
    for position in 0..count {
        if !is_marked(words, shard, position) {
            return false;
        }
    }
    true
}

/// Whether all entries are marked.
fn are_full(words: &[u16], shards: &[Shard]) -> bool
    ensures { IsTrue result → HasAllMarks (journal_list shards.now) words.now }
{
    for (number, shard) in shards.iter().enumerate() {
        if !is_full(words, number, shard.entries().len()) {
            return false;
        }
    }
    true
}

/// Whether each entry is named by exactly one receipt, found by a table that has no marks yet.
fn names_each_once(words: &mut [u16], shards: &[Shard], receipts: &[Receipt]) -> bool
    requires { HasNoMarks words.old }
    ensures { IsTrue result → EachNamedOnce (journal_list shards.now) receipts.now }
{
    mark_places(words, receipts) && are_full(words, shards)
}

/// Whether each entry is named by exactly one receipt. If the receipts are few, a small table is enough.
fn are_named_once(shards: &[Shard], receipts: &[Receipt]) -> bool
    ensures { IsTrue result → EachNamedOnce (journal_list shards.now) receipts.now }
{
    if receipts.len() > FEW {
        return by_full_table(shards, receipts);
    }
    names_each_once(&mut [0; FEW], shards, receipts)
}

/// The same by a table for full journals, which takes 128 kilobytes of the stack: in a function of its own, so that few receipts
/// do not.
#[inline(never)]
fn by_full_table(shards: &[Shard], receipts: &[Receipt]) -> bool
    ensures { IsTrue result → EachNamedOnce (journal_list shards.now) receipts.now }
{
    names_each_once(&mut [0; MAX_ENTRIES], shards, receipts)
}

/// Whether jobs and receipts are pairwise equal in number, strictly ascending, and account for the journals. If not, they may
/// still account for them in another order.
pub(crate) fn are_in_order<R: Threads + Sync>(
    rt: &R,
    threads: usize,
    shards: &[Shard],
    jobs: &[Job],
    receipts: &[Receipt],
) -> bool
    ensures { IsTrue result → Reconciles (journal_list shards.now) jobs.now receipts.now }
{
    numbers_rise(jobs)
        && are_pairs_by(rt, threads, shards, jobs, receipts)
        && are_named_once(shards, receipts)
}
