//! The components of a message, owned.

ghost use Rattle.std.specs.Prelude.{◌≡◌, ◌<◌, ◌↔◌, length, map, IfOk, Err};
ghost use Rattle.bertree.specs.Nodes.{tree, elements};
ghost use Rattle.frames.specs.Heard.{heard_of, all_heard};
ghost use Rattle.q773_comp.specs.Seen.{component};
ghost use Rattle.msgarena.specs.Kept.{kept};
ghost use Rattle.msgarena.specs.Seen.{parameter};

use crate::heard::Heard;
use crate::parameter::{Parameter, parameter_of};
use bertree::elements::at_most_one;
use bertree::{Node, Nodes};
use machine::numbers::MAX_COMPONENTS;
use q773_comp::{CompFault, Component, read_component};
use std::alloc::Global;

/// The component that a node is heard as: its parameter, if it has one, is read by its operation.
fn heard(node: &Node) -> Component<Parameter>
    ensures { component parameter result ≡ heard_of (tree node.now) }
{
    match read_component(node) {
        Component::Invoke {
            id,
            linked,
            operation,
            parameter,
        } => Component::Invoke {
            id,
            linked,
            operation,
            parameter: parameter.map(|node| parameter_of(operation, &node)),
        },
        Component::ResultLast { id } => Component::ResultLast { id },
        Component::ResultNotLast { id } => Component::ResultNotLast { id },
        Component::ReturnError { id, error } => Component::ReturnError { id, error },
        Component::Reject { id, side, problem } => Component::Reject { id, side, problem },
        Component::Bad(id, problem) => Component::Bad(id, problem),
        Component::Ignored => Component::Ignored,
    }
}

/// The components that nodes are heard as, in order. `TooMany` is found before anything is allocated, and a
/// component that is alone needs no block.
pub(crate) fn all_heard(alloc: Global, nodes: Nodes) -> Result<Heard, CompFault>
    ensures heard { IfOk result (λ heard. map (component parameter) (kept heard)
        ≡ all_heard (elements nodes.entry)) }
    ensures too_many { (result ≡ Err CompFault.TooMany)
        ↔ (MAX_COMPONENTS < length (elements nodes.entry)) }
{
    match at_most_one(nodes) {
        Some(None) => Ok(Heard::Nothing),
        Some(Some(only)) => Ok(Heard::One(heard(&only))),
        None => more_heard(alloc, nodes),
    }
}

/// The same for more than one.
fn more_heard(alloc: Global, nodes: Nodes) -> Result<Heard, CompFault>
    ensures heard { IfOk result (λ heard. map (component parameter) (kept heard)
        ≡ all_heard (elements nodes.entry)) }
    ensures too_many { (result ≡ Err CompFault.TooMany)
        ↔ (MAX_COMPONENTS < length (elements nodes.entry)) }
{
    let count = nodes.count();
    if count > MAX_COMPONENTS {
        return Err(CompFault::TooMany);
    }
    let mut components = Vec::with_capacity(alloc, count)?;
    let mut rest = nodes;
    while let Some((node, behind)) = rest.split_first() {
        components.push_reserved(heard(&node));
        rest = behind;
    }
    Ok(Heard::More(components))
}
