//! Trees in one line. `A2[ U2=01 C0= ]` is the element APPLICATION 2 with two children: an INTEGER with the
//! octet 01, and an empty context-specific element 0. The letters U, A, C and P stand for the four classes
//! (ITU-T X.690, 8.1.2.2).

use crate::tables::octets;
use bertree::Node;
use berwrite::{Class, OwnTree, Tag};
use bumpalo::Bump;
use bumpalo::collections::into_bump_slice;
use std::alloc::{AllocError, Global};
use std::mem;
use std::test::Fail;

/// The letter of a class.
fn letter(class: Class) -> char {
    match class {
        Class::Universal => 'U',
        Class::Application => 'A',
        Class::ContextSpecific => 'C',
        Class::Private => 'P',
    }
}

/// Adds the outline of the first `levels` levels of a tree.
fn push_node(text: &mut String, node: &Node, levels: usize) -> Result<(), AllocError> {
    let tag = node.tag();
    write!(text, " {}{}", letter(tag.class), tag.number)?;
    if let Some(octets) = node.octets(tag) {
        text.push('=')?;
        for octet in octets {
            write!(text, "{octet:02X}")?;
        }
        return Ok(());
    }
    text.push('[')?;
    if levels > 0 {
        let mut rest = node.nodes();
        while let Some((child, behind)) = rest.split_first() {
            push_node(text, &child, levels - 1)?;
            rest = behind;
        }
    }
    text.push_str(" ]")
}

/// The outline of a tree of at most 32 levels.
pub(crate) fn outline(alloc: Global, node: &Node) -> Result<String, AllocError> {
    let mut text = String::new(alloc);
    push_node(&mut text, node, 32)?;
    Ok(text)
}

/// The class of a letter.
fn class(letter: char) -> Option<Class> {
    match letter {
        'U' => Some(Class::Universal),
        'A' => Some(Class::Application),
        'C' => Some(Class::ContextSpecific),
        'P' => Some(Class::Private),
        _ => None,
    }
}

/// The tag with this letter and number.
fn tag(name: &str, constructed: bool) -> Option<Tag> {
    let mut letters = name.chars();
    let class = class(letters.next()?)?;
    let number = letters.as_str().parse().ok()?;
    Some(Tag {
        class,
        constructed,
        number,
    })
}

/// Elements in the arena.
type Elements<'a> = Vec<OwnTree<'a>, &'a Bump>;

/// A tree under construction: the open elements, each with the children before it, and the children of the
/// innermost.
#[derive(Drop)]
struct Made<'a> {
    open: Vec<(Tag, Elements<'a>)>,
    children: Elements<'a>,
}

impl<'a> Made<'a> {
    /// Takes one word of an outline.
    fn take(&mut self, alloc: Global, bump: &'a Bump, word: &str) -> Result<(), Fail> {
        if word == "]" {
            self.close()
        } else if let Some(name) = word.strip_suffix('[') {
            self.open(bump, tag(name, true).ok_or("a tag")?)
        } else {
            let (name, contents) = word.split_once('=').ok_or("contents")?;
            let tag = tag(name, false).ok_or("a tag")?;
            let contents = octets(alloc, contents)?;
            self.add(OwnTree::primitive(bump, tag, &contents)?)
        }
    }

    fn add(&mut self, element: OwnTree<'a>) -> Result<(), Fail> {
        Ok(self.children.push(element)?)
    }

    fn open(&mut self, bump: &'a Bump, tag: Tag) -> Result<(), Fail> {
        let before = mem::replace(&mut self.children, Vec::new(bump));
        Ok(self.open.push((tag, before))?)
    }

    fn close(&mut self) -> Result<(), Fail> {
        let (tag, before) = self.open.pop().ok_or("an element that is open")?;
        let children = mem::replace(&mut self.children, before);
        self.add(OwnTree::of_children(tag, into_bump_slice(children)))
    }
}

/// The tree of an outline, in the arena.
pub(crate) fn tree<'a>(alloc: Global, bump: &'a Bump, outline: &str) -> Result<OwnTree<'a>, Fail> {
    let mut made = Made {
        open: Vec::new(alloc),
        children: Vec::new(bump),
    };
    for word in outline.split_whitespace() {
        made.take(alloc, bump, word)?;
    }
    Ok(made.children.pop().ok_or("a tree")?)
}
