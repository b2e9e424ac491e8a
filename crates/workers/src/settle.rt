//! A register whose journals are accounted for by jobs and receipts.

ghost use Rattle.std.specs.Prelude.{◌≡◌, map, All, IfOk, OnOk};
ghost use Rattle.shardlog.specs.Log.{LogKeeps, cut_log};
ghost use Rattle.wholenode.specs.Keeping.{NodeKeeps};
ghost use Rattle.workers.specs.Going.{bases_of};
ghost use Rattle.workers.specs.Shared.{AreSettled};

use receipts::{Job, Receipt, Unaccounted, reconcile};
use shardlog::Shard;
use std::alloc::Global;
use std::thread::Threads;
use wholenode::Node;

/// Whether jobs and receipts account for the journals, which so many threads find out.
pub(crate) fn settle<R: Threads + Sync>(
    rt: &R,
    threads: usize,
    node: &Node,
    jobs: &[Job],
    receipts: &[Receipt],
) -> Result<(), Unaccounted>
    ensures settled { OnOk result (AreSettled (bases_of node.now.shards) jobs.now receipts.now
        node.now.shards) }
{
    reconcile(rt, threads, node.shards(), jobs, receipts)
}

/// The register with each journal cut, and dropped.
pub(crate) fn cut(alloc: Global, node: Node) -> Node
    ensures shards { result.shards ≡ map cut_log node.shards }
    ensures keeps { NodeKeeps result }
{
    let (directory, mut shards) = node.into_parts();
    cut_all(&mut shards);
    Node::of_parts(alloc, directory, shards)
}

/// Cuts the journal of a shard, and drops it. The next one has the room of this one.
fn cut_off(shard: &mut Shard)
    ensures cut { shard.new ≡ cut_log shard.old }
    ensures keeps { LogKeeps shard.new }
{
    shard.drop_journal();
}

/// Cuts the journal of each shard, and drops it.
fn cut_all(shards: &mut [Shard])
    ensures cut { shards.new ≡ map cut_log shards.old }
    ensures keeps { All LogKeeps shards.new }
{
    for shard in shards.iter_mut() {
        cut_off(shard);
    }
}
