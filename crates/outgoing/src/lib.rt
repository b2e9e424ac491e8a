//! What the register sends, as values, and the octets of each (ITU-T Q.773; 3GPP TS 29.002).
//!
//! A message holds its Rejects, and at most one component of a procedure's own or a subscriber's data, so a procedure can say
//! what it sends without allocating. The octets are the one spelling of the message's tree that is sent.
#![tactic(auto)]

mod buffer;
mod component;
mod message;
mod spelling;
mod written_aborts;
mod written_components;
mod written_inserts;
mod written_messages;

pub use component::{Components, SentComponent, SubscriberData};
pub use mapdlg::{Accepted, Why, accept};
pub use message::{Addressed, SentMessage};
pub use spelling::octets_of;
