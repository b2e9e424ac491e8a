//! Worked examples: how shards begin, what lines make of a shard as far as it was read, and the image of a shard, octet for octet.

ghost use Rattle.std.specs.Prelude.{◌≡◌, ℕ, List, [], ◌∷◌, Some, length, pos, slice_get};
ghost use Rattle.machine.specs.State.{Invocation, OperationSent, WaitForReject};
ghost use Rattle.tidalloc.specs.LiveIds.{LiveIds, beginning_after, no_ids};
ghost use Rattle.records.specs.Loaded.{Subscribers};
ghost use Rattle.dialogues.specs.Dialogues.{next_of};
ghost use Rattle.hlrcore.specs.Shards.{ShardState};
ghost use Rattle.image_lines.specs.Lines.{End, Shard, Used, Waits};
ghost use Rattle.images.specs.Beginnings.{beginning, beginnings};
ghost use Rattle.images.specs.Examples.{MarkedUpdates};
ghost use Rattle.images.specs.Same.{AreSameShards};
ghost use Rattle.images.specs.Reading.{Begins, Ends, HasIds, HasOpened, Reading, Takes, Whole, reading, with_ids};

/// The first line of a shard has its number, and no other does.
pub fn law_first_lines()
    ensures own { (s : ShardState) → s.shard ≡ 1 → Takes (reading s Begins) (Shard 1 7 3)
        (reading s (HasIds 7 (beginning_after (no_ids 1) 3))) }
    ensures other { (s : ShardState) (r : Reading) → s.shard ≡ 2
        → Takes (reading s Begins) (Shard 1 7 3) r → ⊥ }
    ensures twice { (s : ShardState) (ids : LiveIds) (r : Reading)
        → Takes (reading s (HasIds 7 ids)) (Shard 1 7 3) r → ⊥ }
{}

/// No slot is used after a free one. Invocations come by ascending invoke id. The last line of a shard comes once, when no dialogue is left and
/// no invocation waits for one; the shard is whole only after it.
pub fn law_later_lines()
    ensures used_after_free { (s : ShardState) (ids : LiveIds) (id : List ℕ) (r : Reading)
        → ids.supply.free ≡ 0 ∷ [] → Takes (reading s (HasIds 7 ids)) (Used id) r → ⊥ }
    ensures ascending { (s : ShardState) (one two : Invocation)
        → one ≡ record { id = pos 1; was = OperationSent; deadline = 20 }
        → two ≡ record { id = pos 2; was = WaitForReject; deadline = 5 }
        → Takes (reading s (HasOpened 1 (one ∷ []))) (Waits two) (reading s (HasOpened 1 (one ∷ two ∷ []))) }
    ensures last { (s : ShardState) → Takes (reading s (HasOpened 0 [])) End (reading s Whole) }
    ensures last_without_dialogues { (s : ShardState)
        → Takes (reading s (HasIds 7 (no_ids 1))) End (reading (with_ids s 7 (no_ids 1)) Whole) }
    ensures left { (s : ShardState) (r : Reading) → Takes (reading s (HasOpened 1 [])) End r → ⊥ }
    ensures waits { (s : ShardState) (v : Invocation) (r : Reading)
        → Takes (reading s (HasOpened 0 (v ∷ []))) End r → ⊥ }
    ensures first { (s : ShardState) (r : Reading) → Takes (reading s Begins) End r → ⊥ }
    ensures twice { (s : ShardState) (r : Reading) → Takes (reading s Whole) End r → ⊥ }
    ensures whole { (s : ShardState) → Ends (reading s Whole) s }
    ensures not_before { (s t : ShardState) → Ends (reading s (HasOpened 0 [])) t → ⊥ }
    ensures not_with_ids { (s t : ShardState) → Ends (reading s (HasIds 7 (no_ids 1))) t → ⊥ }
    ensures none { (s t : ShardState) → Ends (reading s Begins) t → ⊥ }
{}

/// The sixteen shards of a register begin at clock 0 with the first of their ids; a shard that changes its number is another.
pub fn law_beginnings()
    ensures sixteen { (loaded : Subscribers) → length (beginnings loaded) ≡ 16 }
    ensures last { (loaded : Subscribers) → slice_get (beginnings loaded) 15 ≡ Some (beginning loaded 15) }
    ensures clock { (loaded : Subscribers) → (beginning loaded 15).clock ≡ 0 }
    ensures first_id { (loaded : Subscribers) → next_of (beginning loaded 1).dialogues
        ≡ Some (1 ∷ 0 ∷ 16 ∷ 0 ∷ []) }
    ensures same { (s : ShardState) → AreSameShards (s ∷ []) (record s { clock = 7 } ∷ []) }
    ensures other { (s : ShardState) → s.shard ≡ 1
        → AreSameShards (s ∷ []) (record s { shard = 2 } ∷ []) → ⊥ }
    ensures fewer { (s : ShardState) → AreSameShards (s ∷ s ∷ []) (s ∷ []) → ⊥ }
{}

/// The image of a shard with one open update. Its line has the mark `*` exactly if it is the current update of its subscriber.
pub fn law_marked_updates()
    ensures { MarkedUpdates }
{}
