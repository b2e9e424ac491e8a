//! The components of a message.
ghost use Rattle.std.specs.Prelude.{◌≡◌, ◌<◌, ◌↔◌, List, length, map, IfOk, Err};
ghost use Rattle.x690.specs.Tree.{Tree};
ghost use Rattle.machine.specs.Received.{ComponentOf};
ghost use Rattle.frames.specs.Components.{components_of};
ghost use Rattle.bertree.specs.Nodes.{elements};
ghost use Rattle.q773_comp.specs.Forms.{AreRead};
ghost use Rattle.q773_comp.specs.Seen.{seen};

use crate::component::Component;
use crate::reading::read_component;
use bertree::{Node, Nodes};
use machine::numbers::MAX_COMPONENTS;
use std::alloc::{AllocError, AllocFailed, Global};
use thiserror::Error;

/// Why components are not read.
#[derive(Clone, Copy, Debug, PartialEq, Eq, Drop, Error)]
pub enum CompFault {
    /// There are too many components (profile).
    #[error("more than 16 components")]
    TooMany,
    /// An allocation failed.
    #[error("out of memory")]
    Memory,
}

impl From<AllocError> for CompFault {
    ghost use Rattle.std.specs.Prelude.{◌≡◌};
    ghost use Rattle.q773_comp.specs.declared.list.CompFault.TheVariants.{Memory};

    ghost from_gives = { λ _ fault. fault ≡ Memory };

    fn from(_refused: AllocError) -> CompFault {
        CompFault::Memory
    }
}

impl<T: Drop> From<AllocFailed<T>> for CompFault {
    ghost use Rattle.std.specs.Prelude.{◌≡◌};
    ghost use Rattle.q773_comp.specs.declared.list.CompFault.TheVariants.{Memory};

    ghost from_gives = { λ _ fault. fault ≡ Memory };

    fn from(_refused: AllocFailed<T>) -> CompFault {
        CompFault::Memory
    }
}

/// The components that nodes are, in order, each read by itself.
///
/// `TooMany` is found before anything is allocated.
pub fn read_components<'a>(
    alloc: Global,
    nodes: Nodes<'a>,
) -> Result<Vec<Component<Node<'a>>>, CompFault>
    // What is read has its form, and whatever has a form is read as it.
    ensures found { IfOk result (λ components. AreRead (elements nodes.entry)
        (map seen components.items)) }
    ensures only { (cs : List (ComponentOf Tree)) → AreRead (elements nodes.entry) cs
        → IfOk result (λ components. map seen components.items ≡ cs) }
    // The result is a function of the trees.
    ensures exact { IfOk result (λ components. map seen components.items
        ≡ components_of (elements nodes.entry)) }
    ensures too_many { (result ≡ Err CompFault.TooMany)
        ↔ (MAX_COMPONENTS < length (elements nodes.entry)) }
{
    let count = nodes.count();
    if count > MAX_COMPONENTS {
        return Err(CompFault::TooMany);
    }
    let mut components = Vec::with_capacity(alloc, count)?;
    let mut rest = nodes;
    while let Some((node, behind)) = rest.split_first() {
        components.push(read_component(&node))?;
        rest = behind;
    }
    Ok(components)
}
