//! Gates that hold a job while its shard is locked.
//!
//! No gate holds a job forever: after `TURNS` turns, each of which lets other threads run, the job goes on and the test reports it.

use std::sync::atomic::{AtomicBool, AtomicU64, Ordering};
use std::thread;
use workers::Gate;

/// For how many turns of other threads a gate holds a job.
const TURNS: usize = 1_000_000;

/// Holds job 1 inside its shard until job 2 has its receipt.
#[derive(Drop)]
pub(crate) struct UntilDone {
    two_done: AtomicBool,
    in_time: AtomicBool,
}

impl UntilDone {
    pub(crate) fn new() -> UntilDone {
        UntilDone {
            two_done: AtomicBool::new(false),
            in_time: AtomicBool::new(false),
        }
    }

    /// Whether job 2 had its receipt before job 1 went on.
    pub(crate) fn was_in_time(&self) -> bool {
        self.in_time.load(Ordering::SeqCst)
    }
}

impl Gate for UntilDone {
    fn inside(&self, job: u64) {
        if job != 1 {
            return;
        }
        for _ in 0..TURNS {
            if self.two_done.load(Ordering::SeqCst) {
                self.in_time.store(true, Ordering::SeqCst);
                break;
            }
            thread::yield_now();
        }
    }

    fn done(&self, job: u64) {
        if job == 2 {
            self.two_done.store(true, Ordering::SeqCst);
        }
    }
}

/// Holds each job inside its shard until a number of jobs are inside.
#[derive(Drop)]
pub(crate) struct UntilAll {
    count: u64,
    inside: AtomicU64,
    in_time: AtomicU64,
}

impl UntilAll {
    pub(crate) fn new(count: u64) -> UntilAll {
        UntilAll {
            count,
            inside: AtomicU64::new(0),
            in_time: AtomicU64::new(0),
        }
    }

    /// How many jobs went on because that many were inside.
    pub(crate) fn in_time(&self) -> u64 {
        self.in_time.load(Ordering::SeqCst)
    }
}

impl Gate for UntilAll {
    fn inside(&self, _job: u64) {
        self.inside.fetch_add(1, Ordering::SeqCst);
        for _ in 0..TURNS {
            if self.inside.load(Ordering::SeqCst) >= self.count {
                self.in_time.fetch_add(1, Ordering::SeqCst);
                break;
            }
            thread::yield_now();
        }
    }

    fn done(&self, _job: u64) {}
}

/// For how many turns `Alone` holds each job: long enough for the other workers to take another one.
const FEW_TURNS: usize = 2_000;

/// Holds each job inside its shard for some turns, and tells whether another came inside meanwhile. All jobs are for one shard.
#[derive(Drop)]
pub(crate) struct Alone {
    inside: AtomicU64,
    entered: AtomicU64,
    together: AtomicU64,
}

impl Alone {
    pub(crate) fn new() -> Alone {
        Alone {
            inside: AtomicU64::new(0),
            entered: AtomicU64::new(0),
            together: AtomicU64::new(0),
        }
    }

    /// How many jobs came inside, and how many of them while another was there.
    pub(crate) fn counts(&self) -> (u64, u64) {
        (
            self.entered.load(Ordering::SeqCst),
            self.together.load(Ordering::SeqCst),
        )
    }
}

impl Gate for Alone {
    fn inside(&self, _job: u64) {
        self.entered.fetch_add(1, Ordering::SeqCst);
        if self.inside.fetch_add(1, Ordering::SeqCst) > 0 {
            self.together.fetch_add(1, Ordering::SeqCst);
        }
        for _ in 0..FEW_TURNS {
            thread::yield_now();
        }
        self.inside.fetch_sub(1, Ordering::SeqCst);
    }

    fn done(&self, _job: u64) {}
}

/// Holds no job.
#[derive(Drop)]
pub(crate) struct Open;

impl Gate for Open {
    fn inside(&self, _job: u64) {}

    fn done(&self, _job: u64) {}
}
