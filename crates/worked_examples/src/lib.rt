//! The worked examples of the profile as runs of the whole program: a records file and received frames in, sent frames out,
//! octet for octet, and what is listed and saved at the end.
#![tactic(auto)]

#[cfg(test)]
mod dialogue_parts;
#[cfg(test)]
mod dialogue_runs;
#[cfg(test)]
mod files;
#[cfg(test)]
mod full_shard;
#[cfg(test)]
mod hostile;
#[cfg(test)]
mod listings;
#[cfg(test)]
mod portions;
#[cfg(test)]
mod program;
#[cfg(test)]
mod routes;
#[cfg(test)]
mod run;
#[cfg(test)]
mod updates;
#[cfg(test)]
mod whole_runs;
