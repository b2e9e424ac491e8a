//! One shard of the register: what an event is, which shard it is for, and what it does to the shard's state.
//!
//! `State::step` handles one event; its contract is a step of the machine over octets. `State::run` handles several in order;
//! its contract is a run of the machine.
//!
//! An event is first turned into a plan, made by the procedure that it leads to (3GPP TS 29.002, TS 23.012; ITU-T Q.774): the subscriber,
//! the dialogue that it names, the id for a dialogue that opens, and the procedure's outcome. Nothing changes then. Afterwards
//! `ShardParts::settle` carries the plan out. What can fail comes first, so on error nothing changes.
#![tactic(auto)]

mod answer;
mod begin;
mod change;
mod change_plan;
mod changing;
mod closing;
mod continuing;
mod event;
mod expiry;
mod fault;
mod laws;
mod new_id;
mod opened;
mod out_list;
mod parts;
mod plan;
mod receiving;
mod resuming;
mod routing;
mod running;
mod same;
mod sending;
mod sent_frames;
mod settle;
mod shard_number;
mod start;
mod state;
mod step;
mod subject;
mod subscriber;
mod unchanged;
mod unnamed;
mod writing;

pub use answer::{Out, StepAnswer};
pub use begin::plan_begin;
pub use change::Change;
pub use change_plan::{plan_codes, plan_withdrawal};
pub use closing::plan_close;
pub use continuing::plan_continue;
pub use event::{Event, EventFault, RawEvent};
pub use expiry::{nothing_is_due, plan_expiry};
pub use fault::StepFault;
pub use laws::{law_first_ids, law_replayed, law_starts, law_starts_apart};
pub use out_list::OutList;
pub use parts::ShardParts;
pub use plan::{Named, Plan};
pub use routing::{Addressee, addressee_of, route};
pub use running::RunFault;
pub use sent_frames::Frames;
pub use shard_number::ShardNumber;
pub use state::State;
pub use subject::subject_of_begin;
