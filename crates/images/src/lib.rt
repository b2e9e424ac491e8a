//! Images of a register: its open dialogues, ids and clocks as a text, from which a register that loads the records file of the same moment
//! goes on.
#![tactic(auto)]

mod examples;
mod fault;
mod image;
mod laws;
mod opening;
mod read;
mod reading;
mod so_far;
mod write;

pub use examples::{law_beginnings, law_first_lines, law_later_lines, law_marked_updates};
pub use fault::ImageFault;
pub use laws::{law_images, law_read_again};
pub use read::read_image;
pub use write::write_shard;
