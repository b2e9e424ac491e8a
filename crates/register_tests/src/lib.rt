//! Tests of journals and of the whole register: a shard with its journal (`shardlog`), the sixteen shards (`wholenode`), and
//! listings (`audit`).
//!
//! They are in a crate of their own, which the gate runs and does not prove.
#![tactic(auto)]

#[cfg(test)]
mod given;
#[cfg(test)]
mod journals;
#[cfg(test)]
mod nodes;
#[cfg(test)]
mod own_entries;
#[cfg(test)]
mod samples;
#[cfg(test)]
mod without_journal;
