//! The shards of a register behind locks.

ghost use Rattle.std.specs.Prelude.{◌≡◌, ◌≤◌, [], vec_capacity, IfOk};

use crate::gate::Gate;
use crate::locked::{Locked, Naming};
use crate::swapped::Swapped;
use crate::task::Task;
use bumpalo::Bump;
use receipts::{Job, Receipt};
use records::Directory;
use shardlog::Shard;
use std::alloc::{AllocError, Global};
use std::marker::Model;
use std::sync::{Arc, Mutex, Wait};
use wholenode::Node;

/// The sixteen shards of the register that `J` names, each behind a lock of its own, while workers handle a batch. Contracts see the directory
/// that they share.
#[derive(Drop)]
pub struct Locks<J: Naming> {
    alloc: Global,
    directory: Arc<Directory>,
    locks: Vec<Mutex<Locked<J>>>,
    /// A buffer for the shards, so that they can be taken out without memory.
    taken: Vec<Shard>,
}

impl<J: Naming> Model for Locks<J> {
    ghost use Rattle.std.specs.Prelude.{◌≡◌, ◌≤◌, [], vec_len, vec_capacity};
    ghost use Rattle.std.specs.Arc.{arc_value};
    ghost use Rattle.records.specs.Maps.{DirectoryMap, directory_map_code};
    ghost use Rattle.wholenode.specs.Keeping.{AreShards};

    ghost Value = { DirectoryMap };

    ghost coded = { directory_map_code };

    ghost view = { λ l. arc_value l.directory };

    ghost invariant = { λ l. (vec_len l.locks ≡ 16) × (l.taken.items ≡ []) × (16 ≤ vec_capacity l.taken)
        × (arc_value l.directory ≡ J.began.directory) × AreShards J.began.directory J.began.shards };
}

/// Empty buffers for sixteen locks and sixteen shards.
fn buffers<J: Naming>(alloc: Global) -> Result<(Vec<Mutex<Locked<J>>>, Vec<Shard>), AllocError>
    ensures empty { IfOk result (λ made. (made.0.items ≡ []) × (made.1.items ≡ [])) }
    ensures sixteen { IfOk result (λ made. (16 ≤ vec_capacity made.0) × (16 ≤ vec_capacity made.1)) }
{
    let locks = Vec::with_capacity(alloc, 16)?;
    let taken = Vec::with_capacity(alloc, 16)?;
    Ok((locks, taken))
}

impl<J: Naming> Locks<J> {
    ghost use Rattle.std.specs.Prelude.{◌≡◌, ◌<◌, length, slice_index_or, IfOk, IfErr, IfSome};
    ghost use Rattle.frames.specs.Account.{Job};
    ghost use Rattle.wholenode.specs.Keeping.{NodeKeeps};
    ghost use Rattle.workers.specs.Answered.{IsAnswered};
    ghost use Rattle.workers.specs.Going.{HaveGoneOn};

    /// Puts the shards of a register behind locks. On error the register is returned.
    pub(crate) fn of_node(alloc: Global, node: Node) -> Result<Locks<J>, (Node, AllocError)>
        requires { node ≡ J.began }
        ensures back { IfErr result (λ refused. refused.0 ≡ node) }
        ensures keeps { IfErr result (λ refused. NodeKeeps refused.0) }
    {
        let Ok((mut locks, taken)) = buffers::<J>(alloc) else {
            let _shards = node.shards();
            return Err((node, AllocError));
        };
        let (directory, shards) = node.into_parts();
        for shard in shards {
            locks.push_reserved(Mutex::new(Locked::new(shard)));
        }
        Ok(Locks {
            alloc,
            directory,
            locks,
            taken,
        })
    }

    /// Takes the shards out of their locks. They have gone on from those of the register that `J` names. `Swapped` names the least lock behind
    /// which another shard stands than the one with its number: no contract says which shard a lock holds. Then the shards are dropped.
    pub(crate) fn into_node(self) -> Result<Node, Swapped>
        ensures directory { IfOk result (λ node. node.directory ≡ J.began.directory) }
        ensures gone_on { IfOk result (λ node. HaveGoneOn J.began.shards node.shards) }
        ensures keeps { IfOk result NodeKeeps }
        ensures place { IfErr result (λ swapped. swapped.0 < 16) }
    {
        let Locks {
            alloc,
            directory,
            locks,
            taken,
        } = self;
        let mut shards = taken;
        for lock in locks {
            let place = shards.len();
            let shard = lock.into_inner().into_shard();
            if usize::from(shard.state().number()) != place {
                return Err(Swapped(place));
            }
            shards.push_reserved(shard);
        }
        Ok(Node::of_parts(alloc, directory, shards))
    }

    /// Reads the jobs of a lot in a worker's arena, and finds whom each is for.
    pub(crate) fn read_tasks<'a>(
        &self,
        alloc: Global,
        bump: &mut Bump,
        jobs: &'a [Job],
    ) -> Result<Vec<Task<'a, J>>, AllocError>
        ensures { IfOk result (λ tasks. tasks.items ≡ jobs.now) }
    {
        let mut tasks = Vec::with_capacity(alloc, jobs.len())?;
        for job in jobs {
            tasks.push(Task::new(alloc, bump, &self.directory, job))?;
        }
        Ok(tasks)
    }

    /// Handles the tasks of each shard whose lock is free: so a worker that finds one taken goes on with the other shards, and waits for it only
    /// when nothing else is left.
    pub(crate) fn handle_free<G: Gate>(&self, tasks: &mut [Task<J>], gate: &G)
        ensures { tasks.new ≡ tasks.old }
    {
        'tasks: for place in 0..tasks.len() {
            if let Some(number) = tasks[place].waits_for() {
                self.try_enter(number, tasks, gate);
            }
        }
    }

    /// Handles the tasks that are for this shard, if its lock is free.
    fn try_enter<G: Gate>(&self, number: u8, tasks: &mut [Task<J>], gate: &G)
        requires { number < 16 }
        ensures { tasks.new ≡ tasks.old }
    {
        if let Some(mut guard) = self.locks[usize::from(number)].try_lock() {
            handle_from(&mut guard, number, tasks, 0, gate);
        }
    }

    /// Makes the receipt of the task at this place of a lot. If it has no answer yet, it is handled in its shard first, and with it the later
    /// tasks that are for this shard, under one lock.
    pub(crate) fn answer<R: Wait, G: Gate>(
        &self,
        rt: &R,
        tasks: &mut [Task<J>],
        place: usize,
        gate: &G,
    ) -> Receipt
        requires { place < length tasks.old }
        ensures same { tasks.new ≡ tasks.old }
        ensures job { (d : Job) → result.job ≡ (slice_index_or tasks.old place d).number }
        // A receipt with a place is for an event that some shard handled.
        ensures place { (d : Job) → IfSome result.place
            (IsAnswered (slice_index_or tasks.old place d).event) }
    {
        if let Some(number) = tasks[place].waits_for() {
            let mut guard = self.locks[usize::from(number)].lock(rt);
            handle_from(&mut guard, number, tasks, place, gate);
        }
        tasks[place].take_receipt()
    }
}

/// Handles the tasks from a place on that are for a locked shard.
fn handle_from<G: Gate, J: Naming>(
    shard: &mut Locked<J>,
    number: u8,
    tasks: &mut [Task<J>],
    from: usize,
    gate: &G,
)
    ensures { tasks.new ≡ tasks.old }
{
    'tasks: for place in from..tasks.len() {
        tasks[place].handle_in(shard, number, gate);
    }
}
