//! The transaction table of a shard (Q.774, transaction sublayer): which transactions are open under which local ids, with
//! which peer, and which of them a received message belongs to.
//!
//! A transaction is in Initiation Sent (an own Begin was sent, the peer's id is not known yet) or Active.
//!
//! Limitation: source addresses are not compared (profile).
#![tactic(auto)]

mod received;
mod transaction;
mod transactions;

pub use received::{Head, Received, law_received_rows};
pub use transaction::Transaction;
pub use transactions::{Transactions, TslFault};
