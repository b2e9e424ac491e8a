//! Inputs of the tests: events, and a register that workers share.

use crate::samples::RECORDS;
use bumpalo::Bump;
use hlr_types::{Digits, Peer};
use hlrcore::{RawEvent, ShardNumber};
use records::read_records;
use shardlog::Shard;
use std::alloc::Global;
use std::sync::Wait;
use std::test::Fail;
use std::thread::Threads;
use wholenode::{Keep, Node};
use workers::{
    BatchDone, Gate, Job, JobNumber, Receipt, Unaccounted, numbers_rise, reconcile, run_batch,
};

/// A frame from this address.
pub(crate) fn frame(alloc: Global, from: &[u8], octets: &[u8]) -> Result<RawEvent, Fail> {
    let from = Peer::new(Digits::from_text(from).ok_or("digits")?);
    let octets = octets.to_vec(alloc)?;
    Ok(RawEvent::Frame { from, octets })
}

/// A value of a shard's clock.
pub(crate) fn clock(shard: u8, now: u64) -> Result<RawEvent, Fail> {
    let shard = ShardNumber::new(shard).ok_or("shard number")?;
    Ok(RawEvent::Clock { shard, now })
}

/// Runs a batch.
pub(crate) fn run<R: Threads + Wait + Sync, G: Gate + Sync>(
    rt: &R,
    alloc: Global,
    bump: &mut Bump,
    node: Node,
    jobs: &[Job],
    gate: &G,
    workers: usize,
) -> Result<BatchDone, &'static str> {
    if workers == 0 || workers > 16 {
        return Err("workers");
    }
    if !numbers_rise(jobs) {
        return Err("numbers");
    }
    let done = run_batch(rt, alloc, bump, node, jobs, gate, workers);
    done.ok().ok_or("swapped")
}

/// A register that workers share, with the jobs so far and their receipts.
#[derive(Drop)]
pub(crate) struct Register {
    alloc: Global,
    bump: Bump,
    node: Option<Node>,
    next: u64,
    pub(crate) jobs: Vec<Job>,
    pub(crate) receipts: Vec<Receipt>,
}

impl Register {
    pub(crate) fn new(alloc: Global) -> Result<Register, Fail> {
        let loaded = read_records(alloc, RECORDS)?;
        let node = Node::new(alloc, loaded, Keep::Entries, 0)?;
        Ok(Register {
            alloc,
            bump: Bump::new(alloc),
            node: Some(node),
            next: 1,
            jobs: Vec::new(alloc),
            receipts: Vec::new(alloc),
        })
    }

    /// The number of the next job.
    fn number(&mut self) -> Result<JobNumber, Fail> {
        let number = JobNumber::new(self.next).ok_or("job number")?;
        self.next = self.next.checked_add(1).ok_or("job number")?;
        Ok(number)
    }

    /// Has workers handle the events, as one batch, with the next numbers.
    pub(crate) fn take<R: Threads + Wait + Sync, G: Gate + Sync>(
        &mut self,
        rt: &R,
        gate: &G,
        workers: usize,
        events: Vec<RawEvent>,
    ) -> Result<(), Fail> {
        let mut jobs = Vec::new(self.alloc);
        for event in events {
            let number = self.number()?;
            jobs.push(Job { number, event })?;
        }
        let node = self.node.take().ok_or("no register")?;
        let done = run(rt, self.alloc, &mut self.bump, node, &jobs, gate, workers)?;
        self.node = Some(done.node);
        let mut receipts = done.receipts?;
        self.receipts.append(&mut receipts)?;
        self.jobs.append(&mut jobs)?;
        Ok(())
    }

    /// The octets of the first frame that the last job sent, empty if it sent none.
    pub(crate) fn sent_last(&self) -> &[u8] {
        let Some(receipt) = self.receipts.last() else {
            return &[];
        };
        match &receipt.answer {
            Ok(placed) => match placed.outs.as_slice().first() {
                Some(out) => &out.octets,
                None => &[],
            },
            Err(_) => &[],
        }
    }

    /// The shards.
    pub(crate) fn shards(&self) -> &[Shard] {
        match &self.node {
            Some(node) => node.shards(),
            None => &[],
        }
    }

    /// Whether jobs and receipts account for the journals.
    pub(crate) fn account<R: Threads + Sync>(&self, rt: &R) -> Result<(), Unaccounted> {
        reconcile(rt, 2, self.shards(), &self.jobs, &self.receipts)
    }

    /// Cuts the journals, and forgets the jobs and the receipts.
    pub(crate) fn cut(&mut self) -> Result<(), Fail> {
        if let Some(node) = &mut self.node {
            for shard in 0..16 {
                let _epoch = node.cut(shard)?;
            }
        }
        self.jobs.clear();
        self.receipts.clear();
        Ok(())
    }

    /// The shards, the jobs and the receipts.
    pub(crate) fn close(self) -> Result<(Vec<Shard>, Vec<Job>, Vec<Receipt>), Fail> {
        let node = self.node.ok_or("no register")?;
        Ok((node.into_shards(), self.jobs, self.receipts))
    }
}
