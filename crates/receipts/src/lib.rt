//! Jobs with numbers, a receipt for each (`Receipt`), and whether jobs and receipts account for the journals of shards (`reconcile`).
#![tactic(auto)]

mod account;
mod in_order;
mod job;
mod marks;
mod numbers;
mod placed;
mod receipt;
mod refusal;
mod same;

pub use account::{Unaccounted, reconcile};
pub use job::{Job, JobNumber};
pub use numbers::numbers_rise;
pub use placed::Placed;
pub use receipt::Receipt;
pub use refusal::Refusal;
