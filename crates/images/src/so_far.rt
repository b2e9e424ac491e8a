//! What was read of an image so far.

use csl::Remaining;
use hlrcore::State;
use std::alloc::Global;
use std::collections::VecDeque;
use tidalloc::Ids;

/// How far the lines of a shard have come.
#[derive(Drop)]
pub(crate) enum Stage {
    /// None was read.
    Begins,
    /// Its clock, and its ids as far as they were read.
    HasIds { clock: u64, ids: Ids },
    /// So many dialogues are left, with the invocations of the next one.
    HasOpened { left: usize, invocations: Remaining },
    /// The shard is whole.
    Whole,
}

/// A shard as far as its lines are read.
#[derive(Drop)]
pub(crate) struct Reading {
    pub(crate) alloc: Global,
    pub(crate) state: State,
    pub(crate) stage: Stage,
}

/// A shard with all its ids: so many dialogues are left, with the invocations of the next one.
#[derive(Drop)]
pub(crate) struct Opening {
    pub(crate) alloc: Global,
    pub(crate) state: State,
    pub(crate) left: usize,
    pub(crate) invocations: Remaining,
}

/// The shards that are whole, the one that is read, and those that begin later.
#[derive(Drop)]
pub(crate) struct Image {
    pub(crate) alloc: Global,
    pub(crate) done: Vec<State>,
    pub(crate) now: Reading,
    pub(crate) later: VecDeque<State>,
}
