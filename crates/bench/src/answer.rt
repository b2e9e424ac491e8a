//! The tree of an answer that is sent.

use berwrite::{Class, Memory, OwnTree, Tag};
use bumpalo::Bump;

fn tag(class: Class, constructed: bool, number: u32) -> Tag {
    Tag {
        class,
        constructed,
        number,
    }
}

fn primitive<'a>(
    bump: &'a Bump,
    class: Class,
    number: u32,
    octets: &[u8],
) -> Result<OwnTree<'a>, Memory> {
    OwnTree::primitive(bump, tag(class, false, number), octets)
}

fn constructed<'a>(
    bump: &'a Bump,
    class: Class,
    number: u32,
    children: &[OwnTree<'a>],
) -> Result<OwnTree<'a>, Memory> {
    OwnTree::constructed(bump, tag(class, true, number), children)
}

/// The dialogue portion that accepts the context of sendRoutingInfoForSM.
fn accepted<'a>(bump: &'a Bump) -> Result<OwnTree<'a>, Memory> {
    use Class::{Application, ContextSpecific, Universal};
    let version = primitive(bump, ContextSpecific, 0, &[0x07, 0x80])?;
    let name = [0x04, 0x00, 0x00, 0x01, 0x00, 0x14, 0x03];
    let name = primitive(bump, Universal, 6, &name)?;
    let context = OwnTree::around(bump, tag(ContextSpecific, true, 1), name)?;
    let zero = primitive(bump, Universal, 2, &[0])?;
    let outcome = OwnTree::around(bump, tag(ContextSpecific, true, 2), zero)?;
    let zero = primitive(bump, Universal, 2, &[0])?;
    let user = OwnTree::around(bump, tag(ContextSpecific, true, 1), zero)?;
    let diagnostic = OwnTree::around(bump, tag(ContextSpecific, true, 3), user)?;
    let response = constructed(
        bump,
        Application,
        1,
        &[version, context, outcome, diagnostic],
    )?;
    let single = OwnTree::around(bump, tag(ContextSpecific, true, 0), response)?;
    let syntax = [0x00, 0x11, 0x86, 0x05, 0x01, 0x01, 0x01];
    let syntax = primitive(bump, Universal, 6, &syntax)?;
    let external = constructed(bump, Universal, 8, &[syntax, single])?;
    OwnTree::around(bump, tag(Application, true, 11), external)
}

/// The component with the route.
fn routed<'a>(bump: &'a Bump) -> Result<OwnTree<'a>, Memory> {
    use Class::{ContextSpecific, Universal};
    let imsi = [0x32, 0x14, 0x05, 0x00, 0x00, 0x00, 0x00, 0xf1];
    let imsi = primitive(bump, Universal, 4, &imsi)?;
    let register = [0x91, 0x44, 0x77, 0x00, 0x09, 0x00, 0x10];
    let register = primitive(bump, ContextSpecific, 1, &register)?;
    let location = OwnTree::around(bump, tag(ContextSpecific, true, 0), register)?;
    let route = constructed(bump, Universal, 16, &[imsi, location])?;
    let operation = primitive(bump, Universal, 2, &[45])?;
    let answer = constructed(bump, Universal, 16, &[operation, route])?;
    let invoke_id = primitive(bump, Universal, 2, &[1])?;
    constructed(bump, ContextSpecific, 2, &[invoke_id, answer])
}

/// The End that answers the first routing request.
pub fn first_answer<'a>(bump: &'a Bump) -> Result<OwnTree<'a>, Memory> {
    use Class::Application;
    let destination = primitive(bump, Application, 9, &[0, 0, 0, 1])?;
    let components = OwnTree::around(bump, tag(Application, true, 12), routed(bump)?)?;
    constructed(
        bump,
        Application,
        4,
        &[destination, accepted(bump)?, components],
    )
}
