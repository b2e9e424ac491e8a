//! Restores a register.

ghost use Rattle.std.specs.Prelude.{◌≡◌, List, IfOk, IfErr};
ghost use Rattle.hlrcore.specs.Shards.{ShardState};
ghost use Rattle.images.specs.Beginnings.{beginnings};
ghost use Rattle.images.specs.Texts.{IsImageFault};
ghost use Rattle.wholenode.specs.Keeping.{NodeKeeps};
ghost use Rattle.restoring.specs.Restoring.{IsImageOver, Restores};

use images::{ImageFault, read_image};
use records::Loaded;
use std::alloc::Global;
use wholenode::{Keep, Node, opening_states};

/// The register that goes on where an image was made: the records file is the one that was saved at the same moment, and the image
/// has the text of `images::write_shard` of each shard, in the order of their numbers. Clocks, open dialogues and local ids are as
/// they were then; the journals are empty, and get an entry of each event, or none. On error the loaded value is dropped.
///
/// - `Line`: the first line of the image that does not have its form, or that cannot follow.
/// - `CutShort`: the image ends before all shards are whole.
/// - `Memory`: out of memory.
pub fn restore(alloc: Global, loaded: Loaded, keep: Keep, image: &[u8]) -> Result<Node, ImageFault>
    ensures restores { IfOk result (Restores loaded keep image.now) }
    // An image is read, unless memory runs out.
    ensures only { (shards : List ShardState) → IsImageOver loaded image.now shards
        → IfErr result (λ fault. fault ≡ ImageFault.Memory) }
    ensures fault { IfErr result (IsImageFault image.now (beginnings loaded)) }
    ensures keeps { IfOk result NodeKeeps }
{
    let directory = loaded.shared_directory()?;
    let begin = opening_states(alloc, loaded, 0)?;
    let states = read_image(alloc, begin, image)?;
    Ok(Node::of_states(alloc, directory, states, keep)?)
}
