//! Tests of the layers of one shard: the procedures (`location`), and of `hlrcore` the plan of an event, carrying out a
//! plan, steps and runs.
//!
//! They are in a crate of their own, which the gate runs and does not prove.
#![tactic(auto)]

#[cfg(test)]
mod given;
#[cfg(test)]
mod image_texts;
#[cfg(test)]
mod plans;
#[cfg(test)]
mod procedures;
#[cfg(test)]
mod runs;
#[cfg(test)]
mod samples;
#[cfg(test)]
mod settling;
#[cfg(test)]
mod steps;
#[cfg(test)]
mod unnamed;
