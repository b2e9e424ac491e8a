//! The octets that are sent for a tree (ITU-T X.690, 8.1): definite lengths, in the fewest octets.
//!
//! A message is built as an [`OwnTree`] by `OwnTree::primitive`, `OwnTree::constructed` and `OwnTree::around`, and written
//! by [`write_tree`]. The only error is [`Memory`]: an allocation failed.
#![tactic(auto)]

mod identifier;
mod length;
mod memory;
mod own_tree;
mod write;

pub use memory::Memory;
pub use own_tree::OwnTree;
pub use write::{write_tree, write_tree_in};
pub use x690::{Class, Tag};
