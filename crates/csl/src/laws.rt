//! What the layers above need of the lists of invocations.

ghost use Rattle.std.specs.Prelude.{◌≡◌, ℕ, ℤ, List, [], map, cond, Some};
ghost use Rattle.std.specs.FinMap as finite;
ghost use Rattle.machine.specs.Effect.{AreRising, Offer, effect, invocations_after};
ghost use Rattle.machine.specs.Invocations.{Happening};
ghost use Rattle.machine.specs.Keys.{same};
ghost use Rattle.machine.specs.Received.{Parameter};
ghost use Rattle.machine.specs.Rows.{MovesByRow, happening};
ghost use Rattle.machine.specs.State.{Invocation};
ghost use Rattle.q773_comp.specs.declared.component.Component.{Component};
ghost use Rattle.q773_comp.specs.Seen.{component};
ghost use Rattle.csl.specs.Seen.{heard};
ghost use Rattle.csl.specs.Tables.{InvocationLists, invocations_at, put_list};

/// Law: putting a list changes the invocations of that dialogue only.
pub fn law_lists_are_put()
    ensures put { (lists : InvocationLists) (id : List ℕ) (vs : List Invocation) (q : List ℕ)
        → invocations_at (put_list lists id vs) q ≡ cond (same id q) vs (invocations_at lists q) }
    ensures none { (q : List ℕ) → invocations_at finite.empty q ≡ [] }
{}

/// Law: the effect does not depend on how a parameter is represented.
pub fn law_parameters_have_no_effect<P>()
    ensures effect { (f : P → Parameter) (now : ℕ) (offer : Offer) (vs : List Invocation)
        (cs : List (Component P))
        → effect now offer vs (map (component f) cs) ≡ effect now offer vs (map heard cs) }
    ensures after { (f : P → Parameter) (now : ℕ) (vs : List Invocation) (cs : List (Component P))
        → invocations_after now (map (component f) cs) vs
        ≡ invocations_after now (map heard cs) vs }
{}

/// Law: one component moves the invocation with its id by a row of the table of own invocations (Q.774).
pub fn law_moves_are_rows<P>()
    ensures { (lists : InvocationLists) (id : List ℕ) (now : ℕ) (offer : Offer) (c : Component P)
        (j : ℤ) (x : Happening)
        → AreRising (invocations_at lists id) → happening j (heard c) ≡ Some x
        → MovesByRow now offer (invocations_at lists id) (heard c) j x }
{}
