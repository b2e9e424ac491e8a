//! The parameters of MAP's location operations (3GPP TS 29.002): the arguments that are received, and the arguments, results
//! and error parameter that are sent.
//!
//! The readers do not allocate, and read the elements one after the other, each in its place. Each writer returns the tree of
//! its parameter alone, without the component around it.
#![tactic(auto)]

mod cancel;
mod fault;
mod insert;
mod purge;
mod roaming;
mod update;

pub use cancel::{CancellationType, cancel_arg, cancellation_type_octet};
pub use fault::ArgFault;
pub use insert::insert_arg;
pub use purge::{PurgeArg, purge_result, read_purge};
pub use roaming::roaming_not_allowed;
pub use update::{UpdateArg, read_update, update_result};
