//! The procedures of the register (3GPP TS 29.002; TS 23.012 Location updating, Location cancellation, Purge MS), each a
//! function from what it sees to an outcome.
//!
//! A procedure changes no table. Its contract says that the outcome is that of the definitions, whatever it does not see. Only
//! `begins` allocates (for the effect of its components); no other procedure can fail.
#![tactic(auto)]

mod answers;
mod argument;
mod begin;
mod cancels;
mod change;
mod closing;
mod components;
mod continuing;
mod expiry;
mod initiator;
mod inserts;
mod outcome;
mod purge;
mod update;
mod update_end;

pub use argument::first_argument;
pub use begin::begins;
pub use change::{new_codes, withdraws};
pub use closing::closes;
pub use continuing::{continues, offer_to};
pub use expiry::{expires, register_of};
pub use outcome::{After, CancelBegin, DialogueChange, Opening, Outcome};
pub use outgoing::{Addressed, SentMessage, Why, octets_of};
