//! The messages of TCAP (ITU-T Q.773, 3.1): those that are received, with their portions unread, and those that are sent.
//!
//! Reading does not allocate: a [`Message`] borrows its portions from the tree. A message that is sent is an [`OutMessage`],
//! which owns its portions.
#![tactic(auto)]

mod message;
mod out;
mod portions;
mod read;

pub use message::{Message, Portions, Unread};
pub use out::{OutMessage, abort_cause, write_message, write_message_in};
pub use read::read_message;
