//! Tests of the tables of a shard: live ids (`tidalloc`), transactions (`tsl`), deadlines (`deadlines`), invocations (`csl`)
//! and dialogues (`dialogues`), and of the route of a subscriber (`smroute`).
//!
//! A test makes a list of calls, each with its expected answer. The tests are in a crate of their own, which the
//! gate runs and does not prove.
#![tactic(auto)]

#[cfg(test)]
mod invocations;
#[cfg(test)]
mod live_ids;
#[cfg(test)]
mod open_dialogues;
#[cfg(test)]
mod routes;
#[cfg(test)]
mod timers;
#[cfg(test)]
mod transactions;
