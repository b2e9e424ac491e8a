//! A box as its pointer.

ghost use Rattle.std.specs.Prelude.{◌≡◌};

use std::alloc::Global;
use std::marker::Model;

/// A box as its pointer.
pub struct Parts<T> {
    pub at: *mut T,
    pub ghost value: { T },
}

impl<T> Model for Parts<T> {
    ghost use Rattle.std.specs.Box.Ownership.{box_owns};
    ghost use Rattle.kunchrol.specs.Handles.{may_free};

    ghost also_owns = { λ p. box_owns may_free T.row p.at p.value };
}

impl<T: Drop> Parts<T> {
    /// Takes a box apart.
    pub fn of(whole: Box<T>) -> Parts<T>
        ensures { result.value ≡ whole.value }
    {
        Parts {
            at: Box::into_raw(whole),
        }
    }
}
