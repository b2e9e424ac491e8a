//! The dialogue portion of a TCAP message (ITU-T Q.773): read from the nodes of a tree, and written as trees.
//!
//! The reader does not allocate. The application context's name that it returns is a slice of the octets that were read.
#![tactic(auto)]

mod apdu;
mod reading;
mod sending;

pub use apdu::{Apdu, Diagnostic, Response, Unreadable};
pub use reading::read_dialogue;
pub use sending::{aare, aarq, abrt, portion};
