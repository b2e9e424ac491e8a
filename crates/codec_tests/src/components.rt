//! Components octet for octet (ITU-T Q.773, 3.1).

use crate::outlines::{outline, tree};
use crate::tables::{check, is_written, octets};
use crate::told::component;
use bertree::{Node, read_tree};
use berwrite::write_tree;
use bumpalo::Bump;
use q773_comp::{
    Component, OutComponent, Rejection, Side, component_tree, read_component, read_components,
};
use std::alloc::{AllocError, Global};
use std::process::Abort;
use std::test::Fail;

/// A component, with the outline of its parameter, or `none`.
fn told(alloc: Global, found: &Component<Node>) -> Result<String, AllocError> {
    let parameter = match found {
        Component::Invoke {
            parameter: Some(node),
            ..
        } => outline(alloc, node)?,
        _ => String::from_str(alloc, "none")?,
    };
    component(alloc, found, &parameter)
}

/// What is read: Invokes, results, errors, Rejects, the ill-formed, and ill-formed Rejects, which are
/// ignored.
const COMPONENTS: &str = "
- sendRoutingInfoForSM
  | A1 1D 02 01 01 02 01 2D 30 15 80 07 91 44 77 00 09 00 00 81 01 FF 82 07 91 44 77 00 09 99 99
  | invoke 1 - 45 U16[ C0=91447700090000 C1=FF C2=91447700099999 ]
- a linked id | A1 0B 02 01 05 80 01 09 02 01 07 05 00 | invoke 5 9 7 U5=
- a global code | A1 07 02 01 80 06 02 2A 03 | invoke -128 - other none
- a code of two octets | A1 07 02 01 FF 02 02 00 2D | invoke -1 - other none
- an empty result | A2 03 02 01 01 | result 1
- a result that is not the last | A7 0A 02 01 7F 30 05 02 01 07 05 00 | not last 127
- a result with a global code | A2 0B 02 01 02 30 06 06 02 2A 03 05 00 | result 2
- an error | A3 06 02 01 01 02 01 06 | error 1 6
- an error with a global code | A3 09 02 01 01 06 02 2A 03 05 00 | error 1 other
- a Reject of what had no id | A4 05 05 00 80 01 00 | reject - general 0
- a Reject of an Invoke | A4 06 02 01 05 81 01 05 | reject 5 invoke 5
- a Reject of a result | A4 06 02 01 01 82 01 00 | reject 1 result 0
- a Reject of an error | A4 06 02 01 01 83 01 FF | reject 1 error 255
- another tag | A5 03 02 01 01 | bad - 0
- primitive | 81 03 02 01 01 | bad - 0
- another class | 61 03 02 01 01 | bad - 0
- no id | A1 00 | bad - 1
- an id of two octets | A2 04 02 02 00 01 | bad - 1
- a NULL for an id | A3 05 05 00 02 01 06 | bad - 1
- no code | A1 03 02 01 07 | bad 7 1
- an empty code | A1 05 02 01 07 02 00 | bad 7 1
- two parameters | A1 0A 02 01 07 02 01 2D 05 00 05 00 | bad 7 1
- a NULL for a result | A2 05 02 01 07 05 00 | bad 7 1
- an empty SEQUENCE | A7 05 02 01 07 30 00 | bad 7 1
- an empty global code | A3 05 02 01 07 06 00 | bad 7 1
- a Reject without an id | A4 00 | ignored
- a Reject without a problem | A4 03 02 01 01 | ignored
- another kind of problem | A4 06 02 01 01 84 01 00 | ignored
- a problem of two octets | A4 07 02 01 01 80 02 00 00 | ignored
- a NULL with contents | A4 06 05 01 00 80 01 00 | ignored
- a third element | A4 08 02 01 01 80 01 00 05 00 | ignored
";

#[test]
fn components_are_read(rt: HostRuntime) -> Result<(), Fail> {
    check(&rt, COMPONENTS, |alloc, text| {
        let bump = Bump::new(alloc);
        let octets = octets(alloc, text)?;
        Ok(told(alloc, &read_component(&read_tree(&bump, &octets)?))?)
    })
}

/// Component portions with 16 components, and with one more.
const PORTIONS: &str = "
- sixteen | 6C 70 REJECT*16
  | reject - general 0, reject - general 0, reject - general 0, reject - general 0, reject - general 0,
    reject - general 0, reject - general 0, reject - general 0, reject - general 0, reject - general 0,
    reject - general 0, reject - general 0, reject - general 0, reject - general 0, reject - general 0,
    reject - general 0,
- seventeen | 6C 77 REJECT*17 | more than 16 components
";

/// The components, each followed by a comma.
fn told_each(alloc: Global, found: &[Component<Node>]) -> Result<String, AllocError> {
    let mut text = String::new(alloc);
    for one in found {
        write!(text, "{}, ", told(alloc, one)?)?;
    }
    Ok(text)
}

#[test]
fn most_components(rt: HostRuntime) -> Result<(), Fail> {
    check(&rt, PORTIONS, |alloc, text| {
        let bump = Bump::new(alloc);
        let octets = octets(alloc, text)?;
        let portion = read_tree(&bump, &octets)?;
        Ok(match read_components(alloc, portion.nodes()) {
            Ok(found) => told_each(alloc, &found),
            Err(fault) => format!(in alloc; "{fault}"),
        }?)
    })
}

/// The component is sent with these octets.
fn is_sent(
    rt: &(impl Abort + AllocGlobal),
    component: &OutComponent,
    text: &str,
) -> Result<(), Fail> {
    let bump = Bump::new(rt.alloc());
    let octets = write_tree(rt.alloc(), &component_tree(&bump, component)?)?;
    is_written(rt, &octets, text)
}

#[test]
fn parameters_are_sent(rt: HostRuntime) -> Result<(), Fail> {
    let (alloc, bump) = (rt.alloc(), Bump::new(rt.alloc()));
    let insert = OutComponent::Invoke {
        id: 2,
        operation: 7,
        parameter: tree(alloc, &bump, "U16[ C6[ U4=92 ] ]")?,
    };
    is_sent(&rt, &insert, "A1 0D 02 01 02 02 01 07 30 05 A6 03 04 01 92")?;
    let update = OutComponent::ResultLast {
        id: 1,
        operation: 2,
        parameter: tree(alloc, &bump, "U16[ U4=91447700091000 ]")?,
    };
    let octets = "A2 13 02 01 01 30 0E 02 01 02 30 09 04 07 91 44 77 00 09 10 00";
    is_sent(&rt, &update, octets)?;
    let barred = OutComponent::ReturnError {
        id: 1,
        error: 8,
        parameter: Some(tree(alloc, &bump, "U16[ U10=00 ]")?),
    };
    is_sent(&rt, &barred, "A3 0B 02 01 01 02 01 08 30 03 0A 01 00")
}

fn reject(id: Option<i8>, side: Side, problem: u8) -> OutComponent<'static> {
    OutComponent::Reject(Rejection { id, side, problem })
}

#[test]
fn components_without_a_parameter_are_sent(rt: HostRuntime) -> Result<(), Fail> {
    let absent = OutComponent::ReturnError {
        id: 1,
        error: 6,
        parameter: None,
    };
    let rows = [
        (OutComponent::EmptyResult { id: -1 }, "A2 03 02 01 FF"),
        (absent, "A3 06 02 01 01 02 01 06"),
        (
            reject(Some(1), Side::OfResult, 0),
            "A4 06 02 01 01 82 01 00",
        ),
        (reject(None, Side::General, 1), "A4 05 05 00 80 01 01"),
        (reject(None, Side::General, 0), "REJECT"),
    ];
    for (component, text) in &rows {
        is_sent(&rt, component, text)?;
    }
    Ok(())
}
