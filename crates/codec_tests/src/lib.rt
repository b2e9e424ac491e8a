//! Tests of the codecs: octets and trees, the codecs of TCAP and MAP, the verdict on a frame, and sent
//! messages.
//!
//! They are in a crate of their own, which the gate runs and does not prove.
#![tactic(auto)]

#[cfg(test)]
mod components;
#[cfg(test)]
mod contexts;
#[cfg(test)]
mod dialogue_portions;
#[cfg(test)]
mod given;
#[cfg(test)]
mod location_arguments;
#[cfg(test)]
mod outlines;
#[cfg(test)]
mod reading_trees;
#[cfg(test)]
mod rounds;
#[cfg(test)]
mod sent_messages;
#[cfg(test)]
mod sent_trees;
#[cfg(test)]
mod short_message_arguments;
#[cfg(test)]
mod tables;
#[cfg(test)]
mod told;
#[cfg(test)]
mod transactions;
#[cfg(test)]
mod verdicts;
#[cfg(test)]
mod verdicts_on_parts;
#[cfg(test)]
mod writing_trees;
