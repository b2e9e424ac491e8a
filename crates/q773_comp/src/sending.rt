//! The trees of the components that are sent (Q.773, component portion).
ghost use Rattle.std.specs.Prelude.{◌≡◌, ◌<◌, IfOk, option_map};
ghost use Rattle.frames.specs.ComponentForms.{problem_tag};
ghost use Rattle.frames.specs.SentTrees.{id_tree, code_tree, invoke_tree, result_tree, error_tree, rejected_tree, reject_tree};
ghost use Rattle.berwrite.specs.OwnTrees.{own};
ghost use Rattle.q773_comp.specs.Seen.{side, rejection};
ghost use Rattle.q773_comp.specs.Sent.{out_tree};

use crate::component::Side;
use bertree::Tag;
use berwrite::{Memory, OwnTree};
use bumpalo::Bump;
use frames::tags::{
    ERROR_PROBLEM, GENERAL_PROBLEM, INTEGER, INVOKE, INVOKE_PROBLEM, NULL, REJECT, RESULT_LAST,
    RESULT_PROBLEM, RETURN_ERROR, SEQUENCE,
};

/// A Reject that is sent. Without an id it rejects a component that had none.
#[derive(Clone, Copy, PartialEq, Eq)]
pub struct Rejection {
    pub id: Option<i8>,
    pub side: Side,
    pub problem: u8,
}

/// A component that is sent, with the tree of its parameter.
#[derive(Clone, Copy)]
pub enum OutComponent<'a> {
    Invoke {
        id: i8,
        operation: u8,
        parameter: OwnTree<'a>,
    },
    ResultLast {
        id: i8,
        operation: u8,
        parameter: OwnTree<'a>,
    },
    /// A ReturnResultLast with nothing but its id.
    EmptyResult {
        id: i8,
    },
    ReturnError {
        id: i8,
        error: u8,
        parameter: Option<OwnTree<'a>>,
    },
    Reject(Rejection),
}

fn id_tree<'a>(bump: &'a Bump, id: i8) -> Result<OwnTree<'a>, Memory>
    ensures { IfOk result (λ made. own made ≡ id_tree id) }
{
    OwnTree::primitive(bump, INTEGER, &[id.cast_unsigned()])
}

fn code_tree<'a>(bump: &'a Bump, code: u8) -> Result<OwnTree<'a>, Memory>
    ensures { IfOk result (λ made. own made ≡ code_tree code) }
{
    OwnTree::primitive(bump, INTEGER, &[code])
}

/// What is rejected: an id, or a NULL.
fn rejected_tree<'a>(bump: &'a Bump, id: Option<i8>) -> Result<OwnTree<'a>, Memory>
    ensures { IfOk result (λ made. own made ≡ rejected_tree id) }
{
    match id {
        Some(id) => id_tree(bump, id),
        None => Ok(OwnTree::of_octets(NULL, &[])),
    }
}

/// The tag of a Reject's problem.
pub fn problem_tag(of: Side) -> Tag
    ensures value { result ≡ problem_tag (side of) }
    // A caller that writes it needs to know that its identifier is one octet.
    ensures small { result.number < 31 }
{
    match of {
        Side::General => GENERAL_PROBLEM,
        Side::OfInvoke => INVOKE_PROBLEM,
        Side::OfResult => RESULT_PROBLEM,
        Side::OfError => ERROR_PROBLEM,
    }
}

fn invoke_tree<'a>(
    bump: &'a Bump,
    id: i8,
    operation: u8,
    parameter: OwnTree<'a>,
) -> Result<OwnTree<'a>, Memory>
    ensures { IfOk result (λ made. own made ≡ invoke_tree id operation (own parameter.entry)) }
{
    let parts = [id_tree(bump, id)?, code_tree(bump, operation)?, parameter];
    OwnTree::constructed(bump, INVOKE, &parts)
}

fn result_tree<'a>(
    bump: &'a Bump,
    id: i8,
    operation: u8,
    parameter: OwnTree<'a>,
) -> Result<OwnTree<'a>, Memory>
    ensures { IfOk result (λ made. own made ≡ result_tree id operation (own parameter.entry)) }
{
    let outcome = [code_tree(bump, operation)?, parameter];
    let outcome = OwnTree::constructed(bump, SEQUENCE, &outcome)?;
    OwnTree::constructed(bump, RESULT_LAST, &[id_tree(bump, id)?, outcome])
}

fn error_tree<'a>(
    bump: &'a Bump,
    id: i8,
    error: u8,
    parameter: Option<OwnTree<'a>>,
) -> Result<OwnTree<'a>, Memory>
    ensures { IfOk result (λ made. own made
        ≡ error_tree id error (option_map own parameter.entry)) }
{
    let (id, code) = (id_tree(bump, id)?, code_tree(bump, error)?);
    match parameter {
        Some(parameter) => OwnTree::constructed(bump, RETURN_ERROR, &[id, code, parameter]),
        None => OwnTree::constructed(bump, RETURN_ERROR, &[id, code]),
    }
}

/// A Reject: what is rejected, and the problem.
fn reject_tree<'a>(bump: &'a Bump, reject: Rejection) -> Result<OwnTree<'a>, Memory>
    ensures { IfOk result (λ made. own made ≡ reject_tree (rejection reject)) }
{
    let parts = [
        rejected_tree(bump, reject.id)?,
        OwnTree::primitive(bump, problem_tag(reject.side), &[reject.problem])?,
    ];
    OwnTree::constructed(bump, REJECT, &parts)
}

/// The tree of a component that is sent.
pub fn component_tree<'a>(
    bump: &'a Bump,
    component: &OutComponent<'a>,
) -> Result<OwnTree<'a>, Memory>
    ensures { IfOk result (λ made. own made ≡ out_tree component.now) }
{
    match *component {
        OutComponent::Invoke {
            id,
            operation,
            parameter,
        } => invoke_tree(bump, id, operation, parameter),
        OutComponent::ResultLast {
            id,
            operation,
            parameter,
        } => result_tree(bump, id, operation, parameter),
        OutComponent::EmptyResult { id } => {
            OwnTree::around(bump, RESULT_LAST, id_tree(bump, id)?)
        }
        OutComponent::ReturnError {
            id,
            error,
            parameter,
        } => error_tree(bump, id, error, parameter),
        OutComponent::Reject(reject) => reject_tree(bump, reject),
    }
}
