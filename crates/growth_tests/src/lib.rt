//! Tests of what a refused allocation leaves: in the reading of a frame (`msgarena`), in a procedure (`location`), in a plan that is
//! carried out, in a step of a state (`hlrcore`), in a shard with its journal, in the whole register, and in batches that workers
//! share.
//!
//! `failing/run` runs each of them with the Nth allocation refused, for each N, as `rt try growth_tests --test --fail-alloc N` does
//! for one. Wherever that allocation is, in whatever thread, the test has to pass, so it checks of each call what holds in either
//! case: on error nothing has changed, and the same call, repeated, does what it would have done: it sends the same octets. For the
//! tests of `worker_alone` the allocations of the threads that they start are counted and refused, and no other.
//!
//! The gate proves this crate of tests, and only runs the others: `failing/run` needs the program that a proof leaves of them. So its
//! functions are small: one call of the register each, without a contract, and loops only over what is borrowed.
#![tactic(auto)]

#[cfg(test)]
mod batches;
#[cfg(test)]
mod events;
#[cfg(test)]
mod frame_samples;
#[cfg(test)]
mod given;
#[cfg(test)]
mod plans;
#[cfg(test)]
mod procedures;
#[cfg(test)]
mod readings;
#[cfg(test)]
mod registers;
#[cfg(test)]
mod samples;
#[cfg(test)]
mod two_workers;
#[cfg(test)]
mod worker_alone;
