//! The frames of one step, in order.

ghost use Rattle.std.specs.Prelude.{◌≡◌, ◌++◌, ◌∷◌, [], IfOk, map};
ghost use Rattle.std.specs.Option.{option_to_list};
ghost use Rattle.hlrcore.specs.Frames.{raw_out};
ghost use Rattle.hlrcore.specs.Held.{frames_in};

use crate::answer::Out;
use std::alloc::{AllocError, Global};
use std::marker::Model;
use std::slice;
use std::sync::Arc;

/// The frames of one step, in order: none, one or two, in a block that their owners share.
#[derive(Drop)]
pub struct OutList {
    held: Held,
}

/// How many there are. To send none needs no block.
#[derive(Drop)]
pub(crate) enum Held {
    Nothing,
    One(Arc<Out>),
    Two(Arc<[Out; 2]>),
}

impl Model for OutList {
    ghost use Rattle.std.specs.Prelude.{List};
    ghost use Rattle.std.specs.Coded.{coded_list};
    ghost use Rattle.frames.specs.Octets.{RawOut};
    ghost use Rattle.hlrcore.specs.Frames.{raw_out_code};
    ghost use Rattle.hlrcore.specs.Held.{frames_in};

    ghost Value = { List RawOut };

    ghost coded = { coded_list raw_out_code };

    ghost view = { λ l. frames_in l.held };
}

impl OutList {
    /// No frame.
    pub fn none() -> OutList
        ensures { result ≡ [] }
    {
        OutList {
            held: Held::Nothing,
        }
    }

    /// This frame alone.
    pub fn one(alloc: Global, out: Out) -> Result<OutList, AllocError>
        ensures { IfOk result (λ outs. outs ≡ raw_out out ∷ []) }
    {
        let held = Held::One(Arc::new(alloc, out)?);
        Ok(OutList { held })
    }

    /// The first of these frames, if it is there, and then the second.
    pub fn of(alloc: Global, first: Option<Out>, second: Option<Out>) -> Result<OutList, AllocError>
        ensures { IfOk result (λ outs. outs
            ≡ map raw_out (option_to_list first ++ option_to_list second)) }
    {
        match (first, second) {
            (None, None) => Ok(OutList::none()),
            (Some(out), None) | (None, Some(out)) => OutList::one(alloc, out),
            (Some(first), Some(second)) => {
                let held = Held::Two(Arc::new(alloc, [first, second])?);
                Ok(OutList { held })
            }
        }
    }

    /// The frames.
    pub fn as_slice(&self) -> &[Out]
        ensures { map raw_out result.now ≡ self.now }
    {
        match &self.held {
            Held::Nothing => &[],
            Held::One(out) => slice::from_ref(out),
            Held::Two(outs) => outs.as_slice(),
        }
    }

    /// The same frames for one more owner. Does not allocate.
    pub fn try_share(&self) -> Result<OutList, AllocError>
        ensures { IfOk result (λ shared. shared ≡ self.now) }
    {
        let held = match &self.held {
            Held::Nothing => Held::Nothing,
            Held::One(out) => Held::One(out.clone()?),
            Held::Two(outs) => Held::Two(outs.clone()?),
        };
        Ok(OutList { held })
    }
}
