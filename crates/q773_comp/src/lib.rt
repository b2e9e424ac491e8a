//! The components of a TCAP message (ITU-T Q.773): read from the nodes of a tree, and written as trees.
//!
//! Readers allocate only the list of what they read. Parameters are not decoded here.
#![tactic(auto)]

mod component;
mod list;
mod reading;
mod sending;

pub use component::{Code, Component, Side};
pub use list::{CompFault, read_components};
pub use reading::read_component;
pub use sending::{OutComponent, Rejection, component_tree, problem_tag};
