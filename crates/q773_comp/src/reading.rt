//! The component that a node is (Q.773, component portion).
ghost use Rattle.std.specs.Prelude.{◌≡◌, Option, option_map};
ghost use Rattle.x690.specs.Elements.{first, optional};
ghost use Rattle.x690.specs.Tree.{Tree};
ghost use Rattle.machine.specs.Received.{ComponentOf};
ghost use Rattle.frames.specs.Components.{id_under, code_of, coded, invoke, outcome, error, problem_of, rejected_id, reject, component_of, identified};
ghost use Rattle.frames.specs.ComponentForms.{IsComponent};
ghost use Rattle.bertree.specs.Nodes.{tree, elements};
ghost use Rattle.q773_comp.specs.Kinds.{body_of};
ghost use Rattle.q773_comp.specs.Seen.{code, side, seen};

use crate::component::{Code, Component, Kind, Side};
use bertree::{Node, Nodes, Tag, elements};
use frames::numbers::{MISTYPED_COMPONENT, UNRECOGNIZED_COMPONENT};
use frames::tags::{
    ERROR_PROBLEM, GENERAL_PROBLEM, INTEGER, INVOKE, INVOKE_PROBLEM, LINKED_ID, NULL,
    OBJECT_IDENTIFIER, REJECT, RESULT_LAST, RESULT_NOT_LAST, RESULT_PROBLEM, RETURN_ERROR,
    SEQUENCE,
};

/// An invoke id or a linked id: one octet, a number from -128 to 127.
fn id_under(node: &Node, tag: Tag) -> Option<i8>
    ensures { result ≡ id_under tag (tree node.now) }
{
    node.octet(tag).map(u8::cast_signed)
}

/// The code of an operation or an error.
fn code_of(node: &Node) -> Option<Code>
    ensures { option_map code result ≡ code_of (tree node.now) }
{
    if let Some(octets) = node.octets(INTEGER) {
        return match octets {
            [] => None,
            [number] => Some(Code::Number(*number)),
            _ => Some(Code::Other),
        };
    }
    match node.octets(OBJECT_IDENTIFIER)? {
        [] => None,
        _ => Some(Code::Other),
    }
}

/// The id at the front, and what follows it.
fn first_id<'a>(nodes: Nodes<'a>) -> Option<(i8, Nodes<'a>)>
    ensures { option_map (λ found. (found.0, elements found.1)) result
        ≡ first (id_under INTEGER) (elements nodes.entry) }
{
    let (node, rest) = nodes.split_first()?;
    Some((id_under(&node, INTEGER)?, rest))
}

/// A linked id, if there is one, and what follows it.
fn optional_linked<'a>(nodes: Nodes<'a>) -> (Option<i8>, Nodes<'a>)
    ensures { (result.0, elements result.1)
        ≡ optional (id_under LINKED_ID) (elements nodes.entry) }
{
    if let Some((node, rest)) = nodes.split_first()
        && let Some(id) = id_under(&node, LINKED_ID)
    {
        return (Some(id), rest);
    }
    (None, nodes)
}

/// A code, and what follows it.
fn first_code<'a>(nodes: Nodes<'a>) -> Option<(Code, Nodes<'a>)>
    ensures { option_map (λ found. (code found.0, elements found.1)) result
        ≡ first code_of (elements nodes.entry) }
{
    let (node, rest) = nodes.split_first()?;
    Some((code_of(&node)?, rest))
}

/// A code and at most one parameter.
#[tactic(auto, unfolding(frames::specs::Components::coded))]
fn coded<'a>(nodes: Nodes<'a>) -> Option<(Code, Option<Node<'a>>)>
    ensures { option_map (λ found. (code found.0, option_map tree found.1)) result
        ≡ coded (elements nodes.entry) }
{
    let (code, rest) = first_code(nodes)?;
    Some((code, elements::at_most_one(rest)?))
}

/// What follows the id of an Invoke.
#[tactic(auto, unfolding(frames::specs::Components::invoke))]
fn invoke<'a>(id: i8, nodes: Nodes<'a>) -> Option<Component<Node<'a>>>
    ensures { option_map seen result ≡ invoke id (elements nodes.entry) }
{
    let (linked, nodes) = optional_linked(nodes);
    let (operation, parameter) = coded(nodes)?;
    Some(Component::Invoke {
        id,
        linked,
        operation,
        parameter,
    })
}

/// What follows the id of a result: nothing, or a code and at most one parameter in a SEQUENCE.
#[tactic(auto, unfolding(frames::specs::Components::outcome))]
fn outcome<'a>(made: Component<Node<'a>>, nodes: Nodes<'a>) -> Option<Component<Node<'a>>>
    ensures { option_map seen result ≡ outcome (seen made.entry) (elements nodes.entry) }
{
    match elements::at_most_one(nodes)? {
        None => Some(made),
        Some(node) => {
            coded(node.children(SEQUENCE)?)?;
            Some(made)
        }
    }
}

/// What follows the id of an error.
#[tactic(auto, unfolding(frames::specs::Components::error))]
fn error<'a>(id: i8, nodes: Nodes<'a>) -> Option<Component<Node<'a>>>
    ensures { option_map seen result ≡ error id (elements nodes.entry) }
{
    let (error, _parameter) = coded(nodes)?;
    Some(Component::ReturnError { id, error })
}

/// The problem of a Reject.
fn problem_of(node: &Node) -> Option<(Side, u8)>
    ensures { option_map (λ found. (side found.0, found.1)) result ≡ problem_of (tree node.now) }
{
    if let Some(problem) = node.octet(GENERAL_PROBLEM) {
        return Some((Side::General, problem));
    }
    if let Some(problem) = node.octet(INVOKE_PROBLEM) {
        return Some((Side::OfInvoke, problem));
    }
    if let Some(problem) = node.octet(RESULT_PROBLEM) {
        return Some((Side::OfResult, problem));
    }
    Some((Side::OfError, node.octet(ERROR_PROBLEM)?))
}

/// The id of a Reject, or none if a NULL is in its place.
fn rejected_id(node: &Node) -> Option<Option<i8>>
    ensures { result ≡ rejected_id (tree node.now) }
{
    if let Some(id) = id_under(node, INTEGER) {
        return Some(Some(id));
    }
    match node.octets(NULL)? {
        [] => Some(None),
        _ => None,
    }
}

/// The elements of a Reject.
#[tactic(auto, unfolding(frames::specs::Components::reject))]
fn reject<'a>(nodes: Nodes<'a>) -> Option<Component<Node<'a>>>
    ensures { option_map seen result ≡ reject (elements nodes.entry) }
{
    let (id, rest) = nodes.split_first()?;
    let (problem, rest) = rest.split_first()?;
    elements::no_more(rest)?;
    let id = rejected_id(&id)?;
    let (side, problem) = problem_of(&problem)?;
    Some(Component::Reject { id, side, problem })
}

/// What follows the id of a component of this kind.
fn behind_id<'a>(kind: Kind, id: i8, nodes: Nodes<'a>) -> Option<Component<Node<'a>>>
    ensures { option_map seen result ≡ body_of kind id (elements nodes.entry) }
{
    match kind {
        Kind::Invoke => invoke(id, nodes),
        Kind::ResultLast => outcome(Component::ResultLast { id }, nodes),
        Kind::ResultNotLast => outcome(Component::ResultNotLast { id }, nodes),
        Kind::ReturnError => error(id, nodes),
    }
}

/// A component of this kind. It is bad if it does not begin with an id, or if anything after the id is wrong.
fn identified<'a>(kind: Kind, nodes: Nodes<'a>) -> Component<Node<'a>>
    ensures { seen result ≡ identified (body_of kind) (elements nodes.entry) }
{
    let Some((id, nodes)) = first_id(nodes) else {
        return Component::Bad(None, MISTYPED_COMPONENT);
    };
    behind_id(kind, id, nodes).unwrap_or(Component::Bad(Some(id), MISTYPED_COMPONENT))
}

/// The component that a node is, whatever it is. It does not allocate.
#[tactic(auto, using(frames::proofs::ComponentLaws::component_laws), unfolding(frames::specs::Components::component_of))]
pub fn read_component<'a>(node: &Node<'a>) -> Component<Node<'a>>
    // What is read has its form, and whatever has a form is read as it, ill-formed components too.
    ensures found { IsComponent (tree node.now) (seen result) }
    ensures only { (c : ComponentOf Tree) → IsComponent (tree node.now) c → seen result ≡ c }
    // The result is a function of the tree.
    ensures exact { seen result ≡ component_of (tree node.now) }
{
    if let Some(nodes) = node.children(INVOKE) {
        return identified(Kind::Invoke, nodes);
    }
    if let Some(nodes) = node.children(RESULT_LAST) {
        return identified(Kind::ResultLast, nodes);
    }
    if let Some(nodes) = node.children(RESULT_NOT_LAST) {
        return identified(Kind::ResultNotLast, nodes);
    }
    if let Some(nodes) = node.children(RETURN_ERROR) {
        return identified(Kind::ReturnError, nodes);
    }
    match node.children(REJECT) {
        Some(nodes) => reject(nodes).unwrap_or(Component::Ignored),
        None => Component::Bad(None, UNRECOGNIZED_COMPONENT),
    }
}
