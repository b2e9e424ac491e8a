//! Tests of the workers: batches of jobs that threads share, over sixteen locked shards, and whether jobs and receipts account for
//! the journals.
//!
//! They are in a crate of their own, which the gate runs and does not prove.
#![tactic(auto)]

#[cfg(test)]
mod batches;
#[cfg(test)]
mod gates;
#[cfg(test)]
mod given;
#[cfg(test)]
mod places;
#[cfg(test)]
mod samples;
#[cfg(test)]
mod shared;
