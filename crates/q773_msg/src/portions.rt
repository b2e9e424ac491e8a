//! The portions of a message that is sent.

ghost use Rattle.std.specs.Prelude.{◌≡◌, ◌++◌, IfOk, option_map, option_to_list};
ghost use Rattle.berwrite.specs.OwnTrees.{own, owns};
ghost use Rattle.frames.specs.SentTrees.{component_portion, portion_trees};

use berwrite::{Memory, OwnTree};
use bumpalo::Bump;
use frames::tags::COMPONENT_PORTION;

/// The elements of a message, in the arena.
pub(crate) type Elements<'a> = Vec<OwnTree<'a>, &'a Bump>;

/// Appends an element, if there is one.
pub(crate) fn push_some<'a>(
    elements: &mut Elements<'a>,
    element: Option<OwnTree<'a>>,
) -> Result<(), Memory>
    ensures { IfOk result (λ _. owns elements.new.items
        ≡ owns elements.old.items ++ option_to_list (option_map own element.entry)) }
{
    if let Some(element) = element {
        elements.push(element)?;
    }
    Ok(())
}

/// Appends the component portion `6C`, if there are components.
fn push_components<'a>(
    elements: &mut Elements<'a>,
    components: &'a [OwnTree<'a>],
) -> Result<(), Memory>
    ensures { IfOk result (λ _. owns elements.new.items
        ≡ owns elements.old.items ++ component_portion (owns components.now)) }
{
    if components.is_empty() {
        return Ok(());
    }
    elements.push(OwnTree::of_children(COMPONENT_PORTION, components))?;
    Ok(())
}

/// Appends the dialogue portion and the component portion, each if there is one.
pub(crate) fn push_portions<'a>(
    elements: &mut Elements<'a>,
    dialogue: Option<OwnTree<'a>>,
    components: &'a [OwnTree<'a>],
) -> Result<(), Memory>
    ensures { IfOk result (λ _. owns elements.new.items
        ≡ owns elements.old.items ++ portion_trees (option_map own dialogue.entry)
        (owns components.now)) }
{
    push_some(elements, dialogue)?;
    push_components(elements, components)
}
