//! Laws about images: what is written is read again.

ghost use Rattle.std.specs.Prelude.{◌≡◌, List};
ghost use Rattle.hlrcore.specs.Shards.{ShardState};
ghost use Rattle.images.specs.Again.{AreReadAgain, IsReadAgain};
ghost use Rattle.images.specs.Texts.{IsImage};
ghost use Rattle.images.specs.Written.{image_text};

use hlrcore::State;

/// Law: the lines of a shard are read as that shard again, from each shard that begins with its records.
pub fn law_read_again(shard: &State)
    ensures { IsReadAgain shard.now }
{
    shard.law_sound();
    let ids = shard.dialogues().ids();
    ids.law_resumed();
    ids.law_taken_again();
}

/// Law: the image of shards that are read again is an image of them, and of no others. So what `read_image` makes of it are these shards.
pub fn law_images()
    ensures image { (shards begin : List ShardState) → AreReadAgain shards begin
        → IsImage (image_text shards) begin shards }
    ensures alone { (shards begin others : List ShardState) → AreReadAgain shards begin
        → IsImage (image_text shards) begin others → others ≡ shards }
{}
