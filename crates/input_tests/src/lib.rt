//! Tests of the input: digits and ids (`hlr_types`), the records file (`records`), the octets of frames and the command line (`hlr_input`).
//!
//! They are in a crate of their own, which the gate runs and does not prove.
#![tactic(auto)]

#[cfg(test)]
mod command_lines;
#[cfg(test)]
mod frame_octets;
#[cfg(test)]
mod identities;
#[cfg(test)]
mod keys;
#[cfg(test)]
mod many_msisdns;
#[cfg(test)]
mod records_faults;
#[cfg(test)]
mod records_files;
