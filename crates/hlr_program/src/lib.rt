//! A run of the program: a register from a records file, the events of a script, and the lines that are printed. `hlr_input` reads
//! the input. Only `main` is elsewhere, so that a whole run can be tested in memory.
#![tactic(auto)]

mod ahead;
mod alone;
mod answers;
mod batch;
mod check;
mod crew;
mod each;
mod examples;
mod fault;
mod laws;
mod listing;
mod octet_digits;
mod printed;
mod register;
mod serve;
mod sharing;

pub use examples::{worked_batches, worked_endings, worked_prints, worked_workers};
pub use fault::Fault;
pub use hlr_input::{Options, WordsFault, read_words};
pub use laws::operator_gets;
pub use serve::serve_script;
