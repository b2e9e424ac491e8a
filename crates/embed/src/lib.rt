//! The register for a program that gives it one event at a time and takes from it what is to be sent: a node with the frames that
//! wait, and events from octets, texts and numbers.
#![tactic(auto)]

mod buffer;
mod events;
mod examples;
mod fault;
mod laws;
mod log_line;
mod lookups;
mod register;
mod waiting;

pub use buffer::write_record;
pub use events::{
    codes_event, expiry_event, frame_event, read_imsi, read_number, withdrawal_event,
};
pub use examples::{law_log_lines, law_log_texts, law_logged_runs, law_saved_files};
pub use fault::{BufferFault, LineFault, ReplayFault, RestoreFault};
pub use laws::{images_are_restored, logs_are_replayed, replays_agree};
pub use log_line::{LogLine, read_log_line};
pub use lookups::Counts;
pub use register::Register;
pub use restoring::ImageFault;
pub use wholenode::Keep;
