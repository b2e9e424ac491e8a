//! Which ids come, one after another: worked examples.

ghost use Rattle.std.specs.Prelude.{◌≡◌, [], ◌∷◌, Some, None, replicate};
ghost use Rattle.tidalloc.specs.LiveIds.{Supply, after_freeing, after_taking, given_back, next_id, no_ids, unused};
ghost use Rattle.tidalloc.specs.Resumed.{untaken_all, with_used};

/// In shard 11 slots 0 and 1 are used for the first time; then the id of slot 0 is freed, and that slot is used again, at its next generation;
/// then slot 2. Of two slots that are free, the one that was freed last is used first.
pub fn law_ids_in_turn()
    ensures first { next_id 11 (unused 0) ≡ Some (11 ∷ 0 ∷ 16 ∷ 0 ∷ []) }
    ensures second { next_id 11 (after_taking (unused 0)) ≡ Some (11 ∷ 0 ∷ 16 ∷ 1 ∷ []) }
    ensures again { let two = after_taking (after_taking (unused 0)) in
        let freed = after_freeing two (11 ∷ 0 ∷ 16 ∷ 0 ∷ []) in
        next_id 11 freed ≡ Some (11 ∷ 0 ∷ 32 ∷ 0 ∷ []) }
    ensures third { let two = after_taking (after_taking (unused 0)) in
        let freed = after_freeing two (11 ∷ 0 ∷ 16 ∷ 0 ∷ []) in
        next_id 11 (after_taking freed) ≡ Some (11 ∷ 0 ∷ 16 ∷ 2 ∷ []) }
    ensures last_first { let two = after_taking (after_taking (unused 0)) in
        let freed = after_freeing (after_freeing two (11 ∷ 0 ∷ 16 ∷ 0 ∷ []))
        (11 ∷ 0 ∷ 16 ∷ 1 ∷ []) in
        next_id 11 freed ≡ Some (11 ∷ 0 ∷ 32 ∷ 1 ∷ []) }
{}

/// A slot at generation 4,095 goes on with 1. A slot that was never used begins after the generation that was told. There is no next id with
/// 4,096 slots used and none free.
pub fn law_generations_in_turn()
    ensures round { (s : Supply) → s ≡ record { first = 0; generations = 4095 ∷ []; free = 0 ∷ [] }
        → next_id 1 s ≡ Some (1 ∷ 0 ∷ 16 ∷ 0 ∷ []) }
    ensures later { next_id 5 (unused 7) ≡ Some (5 ∷ 0 ∷ 128 ∷ 0 ∷ []) }
    ensures full { (s : Supply) → s ≡ record { first = 0; generations = replicate 4096 1; free = [] }
        → next_id 2 s ≡ None }
{}

/// Shard 11 as it was put down: slot 0 was used last at generation 2 and is free, slots 1 and 2 are live at generations 5 and 1. So the three
/// are used, and the id of slot 0 is freed. Then the live ids are set back, and are the next ones, in ascending order; that of slot 2 is below
/// that of slot 1. After them comes slot 0 at its next generation.
pub fn law_ids_put_back()
    ensures put_back { let used = with_used (with_used (with_used (no_ids 11)
        (11 ∷ 0 ∷ 32 ∷ 0 ∷ [])) (11 ∷ 0 ∷ 80 ∷ 1 ∷ [])) (11 ∷ 0 ∷ 16 ∷ 2 ∷ []) in
        (given_back used (11 ∷ 0 ∷ 32 ∷ 0 ∷ [])).supply
        ≡ record { first = 0; generations = 2 ∷ 5 ∷ 1 ∷ []; free = 0 ∷ [] } }
    ensures first { (s : Supply) → s ≡ record { first = 0; generations = 2 ∷ 5 ∷ 1 ∷ []; free = 0 ∷ [] }
        → next_id 11 (untaken_all s ((11 ∷ 0 ∷ 16 ∷ 2 ∷ []) ∷ (11 ∷ 0 ∷ 80 ∷ 1 ∷ []) ∷ []))
        ≡ Some (11 ∷ 0 ∷ 16 ∷ 2 ∷ []) }
    ensures second { (s : Supply) → s ≡ record { first = 0; generations = 2 ∷ 5 ∷ 1 ∷ []; free = 0 ∷ [] }
        → next_id 11 (after_taking (untaken_all s
        ((11 ∷ 0 ∷ 16 ∷ 2 ∷ []) ∷ (11 ∷ 0 ∷ 80 ∷ 1 ∷ []) ∷ [])))
        ≡ Some (11 ∷ 0 ∷ 80 ∷ 1 ∷ []) }
    ensures as_it_was { (s : Supply) → s ≡ record { first = 0; generations = 2 ∷ 5 ∷ 1 ∷ []; free = 0 ∷ [] }
        → after_taking (after_taking (untaken_all s
        ((11 ∷ 0 ∷ 16 ∷ 2 ∷ []) ∷ (11 ∷ 0 ∷ 80 ∷ 1 ∷ []) ∷ []))) ≡ s }
    ensures then { (s : Supply) → s ≡ record { first = 0; generations = 2 ∷ 5 ∷ 1 ∷ []; free = 0 ∷ [] }
        → next_id 11 s ≡ Some (11 ∷ 0 ∷ 48 ∷ 0 ∷ []) }
{}
