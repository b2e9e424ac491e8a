//! Laws about local ids: where those of a start begin, and that a shard's state decides what an event leads to, the ids included.

ghost use Rattle.std.specs.Prelude.{◌≡◌, ◌%◌, ℕ, List, [], ◌∷◌, Some};
ghost use Rattle.frames.specs.Octets.{RawEvent};
ghost use Rattle.tidalloc.specs.LiveIds.{next_generation, next_id, unused};
ghost use Rattle.hlrcore.specs.declared.answer.StepAnswer.{StepAnswer};
ghost use Rattle.hlrcore.specs.Examples.{FirstIds};
ghost use Rattle.hlrcore.specs.Ids.{first_generation};
ghost use Rattle.hlrcore.specs.Replaying.{IsAlike, Runs};
ghost use Rattle.hlrcore.specs.Shards.{ShardState};

/// The same events, handled in the same order from states that no event tells apart, are answered alike, frame for frame and id for id, and
/// lead to states that no event tells apart.
pub fn law_replayed()
    ensures { (s r t u : ShardState) (raws : List RawEvent) (answers others : List StepAnswer)
        → IsAlike s r → Runs s raws answers t → Runs r raws others u
        → (answers ≡ others) × IsAlike t u }
{}

/// Two starts take the same first ids only if their numbers are equal modulo 4,095.
pub fn law_starts_apart()
    ensures { (one other : ℕ) → next_generation (first_generation one)
        ≡ next_generation (first_generation other) → one % 4095 ≡ other % 4095 }
{}

/// Worked examples: the first id that shard 3 takes at the starts 0, 1, 2 and 4,095.
pub fn law_starts()
    ensures first { next_id 3 (unused (first_generation 0)) ≡ Some (3 ∷ 0 ∷ 16 ∷ 0 ∷ []) }
    ensures second { next_id 3 (unused (first_generation 1)) ≡ Some (3 ∷ 158 ∷ 64 ∷ 0 ∷ []) }
    ensures third { next_id 3 (unused (first_generation 2)) ≡ Some (3 ∷ 60 ∷ 128 ∷ 0 ∷ []) }
    ensures round { next_id 3 (unused (first_generation 4095)) ≡ Some (3 ∷ 0 ∷ 16 ∷ 0 ∷ []) }
{}

/// Worked example: the id under which the first dialogue of shard 3 opens is the one that was next before the step.
pub fn law_first_ids()
    ensures { FirstIds }
{}
