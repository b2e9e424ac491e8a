//! A part of a batch: its events under numbers, and what is sent for them.

ghost use Rattle.std.specs.Prelude.{◌≡◌, [], map, max, fold, Contains, IfSome, None, OnOk};
ghost use Rattle.frames.specs.Account.{Receipt};
ghost use Rattle.hlrcore.specs.Events.{raw_event};
ghost use Rattle.workers.specs.Shared.{AddsJobs, end_at};
ghost use Rattle.workers.specs.SharedFaults.{fault_in};

use crate::shared_fault::SharedFault;
use hlrcore::RawEvent;
use machine::numbers::MAX_ENTRIES;
use receipts::{Job, JobNumber, Placed, Receipt, Refusal};

/// Appends the events as jobs, numbered from `first` on.
#[tactic(auto, using(crate::proofs::NumberingLemmas::adds_none))]
pub(crate) fn number_jobs(
    first: u64,
    events: &mut Vec<RawEvent>,
    jobs: &mut Vec<Job>,
) -> Result<(), SharedFault>
    ensures adds { OnOk result (AddsJobs first (map raw_event events.old.items) jobs.old.items
        jobs.new.items) }
    ensures emptied { events.new.items ≡ [] }
{
    let mut next = first;
    for event in events.drain(..) {
        let number = JobNumber::new(next).ok_or(SharedFault::Memory)?;
        jobs.push(Job { number, event })?;
        next = next.checked_add(1).ok_or(SharedFault::Memory)?;
    }
    Ok(())
}

/// The fault that stops a part, if this is the answer to one of its jobs.
fn fault_of(answer: &Result<Placed, Refusal>) -> Option<SharedFault>
    ensures { result ≡ fault_in answer.now }
{
    match answer {
        Ok(_) => None,
        Err(refusal) => match refusal {
            Refusal::NotMine | Refusal::JournalFull => None,
            Refusal::NoRoom => Some(SharedFault::NoRoom),
            Refusal::Memory | Refusal::ResetRefused => Some(SharedFault::Memory),
        },
    }
}

/// The fault of the first receipt that has one; the receipts are by ascending number.
pub(crate) fn first_fault(receipts: &[Receipt]) -> Option<SharedFault>
    ensures { IfSome result (λ _. (r : Receipt) × Contains receipts.now r × (r.place ≡ None)) }
{
    for receipt in receipts {
        let fault = fault_of(&receipt.answer);
        if fault.is_some() {
            return fault;
        }
    }
    None
}

/// The position after the entry of a receipt, if it has an entry at a position below the limit of a journal; else 0.
fn end_of(receipt: &Receipt) -> usize
    ensures { result ≡ end_at receipt.now.place }
{
    match &receipt.answer {
        Ok(placed) if placed.position < MAX_ENTRIES => placed.position + 1,
        _ => 0,
    }
}

/// The least position, at least `before`, that is after the entry of every receipt.
pub(crate) fn longest_with(before: usize, receipts: &[Receipt]) -> usize
    ensures { result ≡ fold (λ n r. max n (end_at r.place)) before receipts.now }
{
    receipts
        .iter()
        .fold(before, |longest, receipt| longest.max(end_of(receipt)))
}
