//! The id for a dialogue that opens beside the open ones.

ghost use Rattle.std.specs.Prelude.{◌≡◌, IfSome};
ghost use Rattle.dialogues.specs.Dialogues.{IsNew, next_of};

use crate::parts::ShardParts;
use hlr_types::Tid;

/// A placeholder if there is no next id.
const NO_ID: Tid = Tid([0, 0, 0, 0]);

/// The id for the next dialogue that opens. A full shard has none; then it is any id, since no dialogue may open.
pub(crate) fn next_or_any(shard: &ShardParts) -> Tid
    ensures { IfSome (next_of shard.now.dialogues) (λ id. (id ≡ result) × IsNew shard.now.dialogues id) }
{
    shard.dialogues().next_id().unwrap_or(NO_ID)
}
