//! Subscribers: their records (TS 23.012), the records file, a shard's map of records, and the lines that they are written
//! as.
//!
//! Contracts see a `Record` as a `Subscriber` of `specs`, and `Records` and the `Directory` as finite maps from digits.
#![tactic(auto)]

mod code_list;
mod codes;
mod cut_digits;
mod directory;
mod directory_tree;
mod examples;
mod fault;
mod fields;
mod line;
mod load;
mod loaded;
mod numbers;
mod push;
mod record;
mod records;
mod roam;
mod same;
mod shard;
mod starts;
mod unordered;
mod version;
mod write;

pub use code_list::Codes;
pub use codes::read_codes;
pub use directory::Directory;
pub use examples::{law_read_files, law_worked_files};
pub use fault::RecordsFault;
pub use load::read_records;
pub use loaded::Loaded;
pub use record::Record;
pub use records::Records;
pub use roam::Roam;
pub use shard::shard_of;
pub use version::Version;
pub use write::{law_saved_is_read, save, write_line};
