//! The lines of an image: the text from which the open dialogues of a shard are restored. Each line is written and read exactly.
#![tactic(auto)]

mod examples;
mod facts;
mod fields;
mod hexadecimal;
mod kind;
mod line;
mod numbers;
mod read;
mod write;

pub use examples::{law_no_lines, law_worked_lines};
pub use facts::is_line;
pub use line::Line;
pub use read::read_line;
pub use write::write_line;
