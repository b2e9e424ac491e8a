//! Worked examples of journals: those of shards in one, and one that was cut.

ghost use Rattle.std.specs.Prelude.{◌≡◌, ℕ, List, [], ◌∷◌};
ghost use Rattle.machine.specs.Chains.{Chain};
ghost use Rattle.machine.specs.Keys.{put_at};
ghost use Rattle.machine.specs.Legal.{Entry, Legal};
ghost use Rattle.machine.specs.Merges.{Merges};
ghost use Rattle.machine.specs.State.{State};

/// The journals of shards 0 and 1 in one: it has the entries of each in their order, and all of them.
pub fn journals_in_one()
    ensures two { (a b c : Entry)
        → Merges (put_at (put_at (λ _. []) 0 (a ∷ [])) 1 (b ∷ c ∷ [])) (b ∷ a ∷ c ∷ []) }
    ensures all { (a : Entry) → Merges (put_at (λ _. []) 0 (a ∷ [])) [] → ⊥ }
    ensures in_order { (a b : Entry) → (a ≡ b → ⊥)
        → Merges (put_at (λ _. []) 1 (a ∷ b ∷ [])) (b ∷ a ∷ []) → ⊥ }
{}

/// A journal that was cut once: the first piece leads to where the second begins, and this one to the base.
pub fn two_epochs()
    ensures { (n : ℕ) (S T U : State) (journal later : List Entry)
        → Legal n S journal T → Legal n T later U
        → Chain n (record { base = S; entries = journal } ∷ record { base = T; entries = later } ∷ []) U }
{}
