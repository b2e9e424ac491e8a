//! That trees are read at all, and how the standard's and the project's octets are read (ITU-T X.690, 8.1).

use crate::outlines::outline;
use crate::tables::{FIRST_ROUTE, check, octets};
use bertree::{Class, Node, Nodes, Tag, TreeFault, elements, read_tree};
use bumpalo::Bump;
use std::alloc::Global;
use std::test::Fail;

/// The first routing request, with each length in the definite form and with each of the nine constructed
/// lengths in the indefinite form; a length in four octets instead of one, a tag number above 30, no child,
/// and no octet.
const TREES: &str = "
- definite
  | 62 47 48 04 00 00 00 01 6B 1E 28 1C 06 07 00 11 86 05 01 01 01 A0 11 60 0F 80 02 07 80 A1 09 06 07
    04 00 00 01 00 14 03 6C 1F A1 1D 02 01 01 02 01 2D 30 15 80 07 91 44 77 00 09 00 00 81 01 FF
    82 07 91 44 77 00 09 99 99
  | A2[ A8=00000001
      A11[ U8[ U6=00118605010101 C0[ A0[ C0=0780 C1[ U6=04000001001403 ] ] ] ] ]
      A12[ C1[ U2=01 U2=2D U16[ C0=91447700090000 C1=FF C2=91447700099999 ] ] ] ]
- indefinite
  | 62 80 48 04 00 00 00 01 6B 80 28 80 06 07 00 11 86 05 01 01 01 A0 80 60 80 80 02 07 80 A1 80 06 07
    04 00 00 01 00 14 03 00*10 6C 80 A1 80 02 01 01 02 01 2D 30 80 80 07 91 44 77 00 09 00 00 81 01 FF
    82 07 91 44 77 00 09 99 99 00*8
  | A2[ A8=00000001
      A11[ U8[ U6=00118605010101 C0[ A0[ C0=0780 C1[ U6=04000001001403 ] ] ] ] ]
      A12[ C1[ U2=01 U2=2D U16[ C0=91447700090000 C1=FF C2=91447700099999 ] ] ] ]
- a length in four octets | 62 84 00 00 00 06 48 04 00 00 00 01 | A2[ A8=00000001 ]
- a number above 30 | 7F 1F 06 48 04 00 00 00 01 | A31[ A8=00000001 ]
- no child | 30 80 00 00 | U16[ ]
- no octet | 05 00 | U5=
";

/// Octets at the limits, and octets that spell no tree.
const FAULTS: &str = "
- the most octets: a further element of 4011 octets in the argument
  | 62 82 0F FC 48 04 00 00 00 01 DQ 6C 82 0F D2 A1 82 0F CE 02 01 01 02 01 2D 30 82 0F C4
    80 07 91 44 77 00 09 00 00 81 01 FF 82 07 91 44 77 00 09 99 99 04 82 0F AB 00*4011
  | 4096 octets: a tree
- one octet more
  | 62 82 0F FD 48 04 00 00 00 01 DQ 6C 82 0F D3 A1 82 0F CF 02 01 01 02 01 2D 30 82 0F C5
    80 07 91 44 77 00 09 00 00 81 01 FF 82 07 91 44 77 00 09 99 99 04 82 0F AC 00*4012
  | 4097 octets: more than 4096 octets
- the most levels: a NULL in 27 SEQUENCEs in the argument
  | 62 81 B8 48 04 00 00 00 01 DQ 6C 81 8F A1 81 8C 02 01 01 02 01 2D 30 81 83
    80 07 91 44 77 00 09 00 00 81 01 FF 82 07 91 44 77 00 09 99 99 3080*27 05 00 0000*27
  | 187 octets: a tree
- one level more
  | 62 81 BC 48 04 00 00 00 01 DQ 6C 81 93 A1 81 90 02 01 01 02 01 2D 30 81 87
    80 07 91 44 77 00 09 00 00 81 01 FF 82 07 91 44 77 00 09 99 99 3080*28 05 00 0000*28
  | 191 octets: more than 32 levels
- 1024 SEQUENCEs | 3080*1024 0000*1024 | 4096 octets: more than 32 levels
- 2048 SEQUENCEs without an end | 3080*2048 | 4096 octets: no tree of the basic encoding rules
- a length in five octets
  | 62 85 00 00 00 00 06 48 04 00 00 00 01 | 13 octets: no tree of the basic encoding rules
- a primitive element of indefinite length
  | 62 08 48 80 00 00 00 01 00 00 | 10 octets: no tree of the basic encoding rules
- the number 30 behind 11111 | 7F 1E 06 48 04 00 00 00 01 | 9 octets: no tree of the basic encoding rules
- a number that begins with 80
  | 7F 80 1F 06 48 04 00 00 00 01 | 10 octets: no tree of the basic encoding rules
- an octet after the tree | 62 06 48 04 00 00 00 01 00 | 9 octets: no tree of the basic encoding rules
- a number in five octets | 7F 81 80 80 80 00 00 | 7 octets: no tree of the basic encoding rules
- the length FF | 62 FF | 2 octets: no tree of the basic encoding rules
- an end mark as an element | 30 02 00 00 | 4 octets: no tree of the basic encoding rules
- one octet of an end mark | 30 80 00 | 3 octets: no tree of the basic encoding rules
- nothing | | 0 octets: no tree of the basic encoding rules
";

#[test]
fn trees_are_read(rt: HostRuntime) -> Result<(), Fail> {
    check(&rt, TREES, |alloc, text| {
        let bump = Bump::new(alloc);
        let octets = octets(alloc, text)?;
        Ok(outline(alloc, &read_tree(&bump, &octets)?)?)
    })
}

#[test]
fn faults(rt: HostRuntime) -> Result<(), Fail> {
    check(&rt, FAULTS, |alloc, text| {
        let bump = Bump::new(alloc);
        let octets = octets(alloc, text)?;
        let length = octets.len();
        Ok(match read_tree(&bump, &octets) {
            Ok(_) => format!(in alloc; "{length} octets: a tree"),
            Err(fault) => format!(in alloc; "{length} octets: {fault}"),
        }?)
    })
}

#[test]
fn cut_route_is_no_tree(rt: HostRuntime) -> Result<(), Fail> {
    let bump = Bump::new(rt.alloc());
    let route = octets(rt.alloc(), FIRST_ROUTE)?;
    for length in 0..route.len() {
        let fault = read_tree(&bump, &route[..length]).err();
        assert_eq!(rt; fault, Some(TreeFault::NotBer), "at {length}");
    }
    Ok(())
}

fn tag(class: Class, constructed: bool, number: u32) -> Tag {
    Tag {
        class,
        constructed,
        number,
    }
}

/// The elements of the one component of a Begin from 00000001 with both portions.
fn component_of<'a>(begin: &Node<'a>) -> Option<Nodes<'a>> {
    let nodes = begin.children(tag(Class::Application, true, 2))?;
    let (origin, nodes) = elements::octets(nodes, tag(Class::Application, false, 8))?;
    let (dialogue, nodes) = elements::optional_node(nodes, tag(Class::Application, true, 11));
    let (components, rest) = elements::optional_children(nodes, tag(Class::Application, true, 12));
    elements::no_more(rest)?;
    let component = elements::at_most_one(components?)??;
    (origin == [0, 0, 0, 1].as_slice() && dialogue.is_some()).then_some(component.nodes())
}

/// The code of an Invoke with the id 1 and without a linked id, and how many elements its argument has.
fn invoke_of(component: Nodes) -> Option<(u8, usize)> {
    let integer = tag(Class::Universal, false, 2);
    let (id, nodes) = elements::octets(component, integer)?;
    let (linked, nodes) = elements::optional_octets(nodes, tag(Class::ContextSpecific, false, 0));
    let (code, nodes) = elements::node(nodes, integer)?;
    let (argument, _) = elements::children(nodes, tag(Class::Universal, true, 16))?;
    (id == [1].as_slice() && linked.is_none()).then_some((code.octet(integer)?, argument.count()))
}

#[test]
fn first_route_is_read(rt: HostRuntime) -> Result<(), Fail> {
    let bump = Bump::new(rt.alloc());
    let octets = octets(rt.alloc(), FIRST_ROUTE)?;
    let invoke = component_of(&read_tree(&bump, &octets)?).and_then(invoke_of);
    assert_eq!(rt; (octets.len(), invoke), (73, Some((45, 3))));
    Ok(())
}

/// With enough memory the tree is read. If an allocation fails, the answer is `Memory` or the tree: run
/// `rt try --test --fail-alloc N` for N = 1, 2, .. until all tests pass, and look at this one only, since
/// the others need enough memory.
#[test]
fn refused_growth_is_memory(rt: HostRuntime) -> Result<(), Fail> {
    let bump = Bump::new(rt.alloc());
    let octets: [u8; 12] = [0x62, 0x80, 0x30, 0x80, 0x05, 0, 0x05, 0, 0, 0, 0, 0];
    match read_tree(&bump, &octets) {
        Ok(node) => assert_eq!(rt; node.nodes().count(), 1),
        Err(fault) => assert_eq!(rt; fault, TreeFault::Memory),
    }
    Ok(())
}
