//! The open dialogues of a shard (ITU-T Q.774; 3GPP TS 29.002): the transaction, the invocations, the subscriber and the MAP
//! operation of each, kept together.
#![tactic(auto)]

mod dialogue;
mod dialogues;
mod invoke_id;
mod kind;
mod parts;
mod same;
mod talk;

pub use dialogue::Dialogue;
pub use dialogues::Dialogues;
pub use invoke_id::InvokeId;
pub use kind::Kind;
