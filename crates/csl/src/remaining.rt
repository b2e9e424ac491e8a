//! What received components leave of a dialogue's own invocations (Q.774, component sublayer).

ghost use Rattle.std.specs.Prelude.{◌≡◌, ◌≢◌, ◌↔◌, ◌++◌, ◌∷◌, [], IfOk, IsTrue, Ok, true, int_lt};
ghost use Rattle.std.specs.List.{list_all};
ghost use Rattle.machine.specs.Effect.{AreRising};
ghost use Rattle.machine.specs.State.{Invocation, any_sent};
ghost use Rattle.csl.specs.Seen.{invocation_of};

use crate::invocation::Invocation;
use crate::list::{Few, any_sent, copy_of};
use crate::was::Was;
use std::alloc::{AllocError, Global};
use std::marker::Model;

/// The own invocations that received components leave of a dialogue's, by ascending invoke id.
#[derive(Drop)]
pub struct Remaining {
    list: Few,
}

impl Model for Remaining {
    ghost use Rattle.std.specs.Prelude.{List};
    ghost use Rattle.std.specs.Coded.{coded_list};
    ghost use Rattle.machine.specs.State.{Invocation};
    ghost use Rattle.machine.specs.Effect.{AreRising};
    ghost use Rattle.csl.specs.Tables.{coded_invocation};

    ghost Value = { List Invocation };

    ghost coded = { coded_list coded_invocation };

    ghost view = { λ r. r.list.items };

    ghost invariant = { λ r. AreRising r.list.items };
}

impl Remaining {
    /// None of them.
    pub fn none(alloc: Global) -> Self
        ensures { result ≡ [] }
    {
        Remaining {
            list: Few::new(alloc),
        }
    }

    /// Adds one after the others, with its invoke id, its state and its deadline. `false`, and nothing changes, unless its invoke id is above
    /// theirs. On error nothing changes.
    pub fn push(&mut self, id: i8, was: Was, deadline: u64) -> Result<bool, AllocError>
        ensures above { IfOk result (λ is. IsTrue is
            ↔ AreRising (self.old ++ invocation_of id was deadline ∷ [])) }
        ensures added { result ≡ Ok true → self.new ≡ self.old ++ invocation_of id was deadline ∷ [] }
        ensures same { result ≢ Ok true → self.new ≡ self.old }
    {
        if !self.is_above(id) {
            return Ok(false);
        }
        self.list.push(Invocation::new(id, was, deadline))?;
        Ok(true)
    }

    /// Whether an invoke id is above all of theirs.
    fn is_above(&self, id: i8) -> bool
        ensures { result ≡ list_all (λ (own : Invocation). int_lt own.id id) self.now }
    {
        self.list.iter().all(|own| own.id() < id)
    }

    /// Whether there is none.
    pub fn is_empty(&self) -> bool
        ensures { IsTrue result ↔ (self.now ≡ []) }
    {
        self.list.is_empty()
    }

    /// Whether one waits for its answer.
    pub fn any_sent(&self) -> bool
        ensures { result ≡ any_sent self.now }
    {
        any_sent(&self.list)
    }

    /// These invocations.
    pub(crate) fn of(list: Few) -> Self
        requires { AreRising list.items }
        ensures { result ≡ list.items }
    {
        Remaining { list }
    }

    /// A list of them. It allocates only if there are several.
    pub(crate) fn list(&self, alloc: Global) -> Result<Few, AllocError>
        ensures value { IfOk result (λ list. list.items ≡ self.now) }
        ensures rising { IfOk result (λ list. AreRising list.items) }
    {
        copy_of(alloc, &self.list)
    }
}
