//! The program's input: the words of its command line, whole files, and the lines of a script with their meaning.
//!
//! A line is cut from its script (`texts`) and then read (`read_line`). The octets of a frame stay as written until the letters in
//! them have their ids (`Letters`, `read_octets`).
#![tactic(auto)]

mod examples;
mod frame_octets;
mod group;
mod input;
mod item;
mod letters;
mod line;
mod options;
mod ticks;
mod words;

pub use examples::{law_command_lines, law_noted_ids, law_script_lines};
pub use frame_octets::{are_octets, read_octets};
pub use group::Group;
pub use input::{InputFault, MAX_FILE_OCTETS, read_all};
pub use item::Item;
pub use letters::{Letters, MAX_LETTERS};
pub use line::read_line;
pub use options::{Options, WordsFault};
pub use ticks::read_ticks;
pub use words::read_words;
