//! Shards as printed lines: their records, their open dialogues and their journals; and the records file that is saved of them.
#![tactic(auto)]

mod gathered;
mod laws;
mod lines;
mod listed;
mod saved;

pub use laws::saved_register_is_read;
pub use listed::{list_dialogues, list_journal, list_records};
pub use saved::save_records;
