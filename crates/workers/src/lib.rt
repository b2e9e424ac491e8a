//! Threads: workers share the jobs of a batch (`run_batch`), while each shard of a register is behind a lock. If jobs and receipts account for
//! the journals, every merge of the journals is a run of the whole register whose events are the jobs', each once.
//!
//! Limitation: the contracts do not speak of progress, of scheduling, or of what a lock held when another thread last had it.
#![tactic(auto)]

mod apply;
mod batch;
mod caller;
mod gate;
mod laws;
mod locked;
mod locks;
mod lot;
mod part;
mod rule;
mod settle;
mod shared;
mod shared_fault;
mod swapped;
mod task;
mod worker;

pub use batch::{BatchDone, run_batch};
pub use gate::{Gate, OpenGate};
pub use laws::merges_are_runs_of_jobs;
pub use locked::Naming;
pub use locks::Locks;
pub use lot::{JOBS_OF_A_START, Lot};
pub use receipts::{
    Job, JobNumber, Placed, Receipt, Refusal, Unaccounted, numbers_rise, reconcile,
};
pub use rule::{Hand, Receiver, Seat, Work};
pub use shared::SharedRegister;
pub use shared_fault::SharedFault;
pub use swapped::Swapped;
pub use worker::{Served, serve};
