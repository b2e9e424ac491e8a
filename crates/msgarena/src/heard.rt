//! The components of a message, as they are kept.

ghost use Rattle.std.specs.Prelude.{◌≡◌, IfOk};
ghost use Rattle.msgarena.specs.Kept.{kept};

use crate::parameter::Parameter;
use q773_comp::Component;
use std::alloc::{AllocError, Global};
use std::slice;

/// The components of a message, in order. Nearly every message has one or none, and then they have no block of their own.
#[derive(Debug, PartialEq, Eq, Drop)]
pub enum Heard {
    Nothing,
    One(Component<Parameter>),
    More(Vec<Component<Parameter>>),
}

impl Heard {
    /// The components, in order.
    pub fn as_slice(&self) -> &[Component<Parameter>]
        ensures { result.now ≡ kept self.now }
    {
        match self {
            Heard::Nothing => &[],
            Heard::One(only) => slice::from_ref(only),
            Heard::More(several) => several.as_slice(),
        }
    }

    /// A copy. It allocates only if there are several.
    pub(crate) fn try_copy(&self, alloc: Global) -> Result<Heard, AllocError>
        ensures { IfOk result (λ copy. kept copy ≡ kept self.now) }
    {
        match self {
            Heard::Nothing => Ok(Heard::Nothing),
            Heard::One(only) => Ok(Heard::One(*only)),
            Heard::More(several) => Ok(Heard::More(several.to_vec(alloc)?)),
        }
    }
}
