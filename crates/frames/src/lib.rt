//! The frames of a home location register, from octets to messages and back, as definitions in `specs/`: the messages,
//! dialogue portions and components of Q.773, the parameters of TS 29.002, the verdict on any octets, and the octets of
//! what is sent. There is no code here but the tags and numbers that code and definitions share. `proofs/` shows that what a
//! reading finds and what a form allows are the same, on which the codecs and `frames_laws` stand.
#![tactic(auto)]

pub mod numbers;
pub mod tags;
