//! Reads an image.

ghost use Rattle.std.specs.Prelude.{◌≡◌, ◌≢◌, List, [], IfErr, IfOk};
ghost use Rattle.std.specs.List.{AllByRecursion};
ghost use Rattle.hlrcore.specs.Shards.{ShardState};
ghost use Rattle.images.specs.Fits.{NoneOpen};
ghost use Rattle.images.specs.Same.{AreSameShards};
ghost use Rattle.images.specs.Texts.{IsImage, IsImageFault};

use crate::fault::ImageFault;
use crate::so_far::Image;
use hlrcore::State;
use image_lines::read_line;
use std::alloc::Global;
use texts::Lines;

/// Puts the open dialogues of a register back into its shards, by an image: the text of `write_shard` for each shard, one after the other.
/// The shards are those of the records file that was saved when the image was made, as they begin, in order.
///
/// - `Line`: the first line with a fault; it does not have the form of a line (`image_lines::read_line`), or cannot follow.
/// - `CutShort`: the text ends before all shards are whole.
/// - `Memory`: out of memory.
///
/// On error the shards are dropped.
pub fn read_image(alloc: Global, shards: Vec<State>, text: &[u8]) -> Result<Vec<State>, ImageFault>
    requires begin { AllByRecursion NoneOpen shards.items }
    requires some { shards.items ≢ [] }
    ensures read { IfOk result (λ whole. IsImage text.now shards.items whole.items) }
    // An image is read, unless memory runs out.
    ensures only { (whole : List ShardState) → IsImage text.now shards.items whole
        → IfErr result (λ fault. fault ≡ ImageFault.Memory) }
    ensures fault { IfErr result (IsImageFault text.now shards.items) }
    ensures same { IfOk result (λ whole. AreSameShards shards.items whole.items) }
{
    let Some(mut image) = Image::new(alloc, shards) else {
        unreachable!()
    };
    let mut lines = Lines::new(text);
    'lines: while let Some((line, rest)) = lines.next() {
        let Some(read) = read_line(line.text) else {
            return Err(ImageFault::Line(line.number));
        };
        let Some(next) = image.take(read)? else {
            return Err(ImageFault::Line(line.number));
        };
        image = next;
        lines = rest;
    }
    match image.end()? {
        Some(whole) => Ok(whole),
        None => Err(ImageFault::CutShort),
    }
}
