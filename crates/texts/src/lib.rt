//! Texts cut into parts at a separator, and into lines.
#![tactic(auto)]

mod cutting;
mod lines;

pub use cutting::cut;
pub use lines::{Lines, Numbered, first_line};
