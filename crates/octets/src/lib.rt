//! What octets are, as definitions in `specs/`, for all other definitions. There is no code here.
#![tactic(auto)]
