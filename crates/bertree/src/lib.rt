//! The tree that octets spell (ITU-T X.690, 8.1), read into an arena.
//!
//! [`read_tree`] makes the nodes, whose octets are slices of the input. Readers of messages call the accessors of [`Node`] and
//! the functions of [`elements`], and never look at a node's variants.
#![tactic(auto)]

pub mod elements;
mod fault;
mod head;
mod node;
mod nodes;
mod read;
mod short;

pub use fault::TreeFault;
pub use node::Node;
pub use nodes::Nodes;
pub use read::read_tree;
pub use x690::limits::{MAX_LEVELS, MAX_OCTETS};
pub use x690::{Class, Tag};
