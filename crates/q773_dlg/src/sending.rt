//! The trees of the APDUs that are sent, and of the dialogue portion around one (Q.773, dialogue portion).
//!
//! An AARQ or AARE that is sent has version 1 and no user information (profile).
ghost use Rattle.std.specs.Prelude.{◌≡◌, IfOk};
ghost use Rattle.frames.specs.DialogueForms.{octet_in, diagnostic_tree, portion_tree};
ghost use Rattle.frames.specs.SentTrees.{version_tree, context_tree, aarq_tree, aare_tree, abrt_tree};
ghost use Rattle.berwrite.specs.OwnTrees.{own};
ghost use Rattle.q773_dlg.specs.Seen.{diagnostic};

use crate::apdu::Diagnostic;
use bertree::Tag;
use berwrite::{Memory, OwnTree};
use bumpalo::Bump;
use frames::numbers::{DIALOGUE_AS_ID, VERSION_1};
use frames::tags::{
    AARE, AARQ, ABORT_SOURCE, ABRT, CONTEXT_NAME, DIAGNOSTIC_OF_PROVIDER, DIAGNOSTIC_OF_USER,
    DIALOGUE_PORTION, EXTERNAL, INTEGER, OBJECT_IDENTIFIER, RESULT, RESULT_SOURCE,
    SINGLE_ASN1_TYPE, VERSION,
};

fn version_tree<'a>() -> OwnTree<'a>
    ensures { own result ≡ version_tree }
{
    OwnTree::of_octets(VERSION, &VERSION_1)
}

fn context_tree<'a>(bump: &'a Bump, name: &'a [u8]) -> Result<OwnTree<'a>, Memory>
    ensures { IfOk result (λ made. own made ≡ context_tree name.now) }
{
    let name = OwnTree::of_octets(OBJECT_IDENTIFIER, name);
    OwnTree::around(bump, CONTEXT_NAME, name)
}

/// An INTEGER of one octet, in an element of its own.
fn octet_in<'a>(bump: &'a Bump, tag: Tag, octet: u8) -> Result<OwnTree<'a>, Memory>
    ensures { IfOk result (λ made. own made ≡ octet_in tag octet) }
{
    let integer = OwnTree::primitive(bump, INTEGER, &[octet])?;
    OwnTree::around(bump, tag, integer)
}

fn diagnostic_tree<'a>(bump: &'a Bump, why: Diagnostic) -> Result<OwnTree<'a>, Memory>
    ensures { IfOk result (λ made. own made ≡ diagnostic_tree (diagnostic why)) }
{
    let source = match why {
        Diagnostic::OfUser(octet) => octet_in(bump, DIAGNOSTIC_OF_USER, octet)?,
        Diagnostic::OfProvider(octet) => octet_in(bump, DIAGNOSTIC_OF_PROVIDER, octet)?,
    };
    OwnTree::around(bump, RESULT_SOURCE, source)
}

/// An AARQ, which requests the application context of this name.
pub fn aarq<'a>(bump: &'a Bump, name: &'a [u8]) -> Result<OwnTree<'a>, Memory>
    ensures { IfOk result (λ made. own made ≡ aarq_tree name.now) }
{
    let parts = [version_tree(), context_tree(bump, name)?];
    OwnTree::constructed(bump, AARQ, &parts)
}

/// An AARE, with the application context's name, the result and the diagnostic.
pub fn aare<'a>(
    bump: &'a Bump,
    name: &'a [u8],
    outcome: u8,
    why: Diagnostic,
) -> Result<OwnTree<'a>, Memory>
    ensures { IfOk result (λ made. own made ≡ aare_tree name.now outcome (diagnostic why)) }
{
    let parts = [
        version_tree(),
        context_tree(bump, name)?,
        octet_in(bump, RESULT, outcome)?,
        diagnostic_tree(bump, why)?,
    ];
    OwnTree::constructed(bump, AARE, &parts)
}

/// An ABRT with this source: the user, 0, or the provider, 1.
pub fn abrt<'a>(bump: &'a Bump, source: u8) -> Result<OwnTree<'a>, Memory>
    ensures { IfOk result (λ made. own made ≡ abrt_tree source) }
{
    let source = OwnTree::primitive(bump, ABORT_SOURCE, &[source])?;
    OwnTree::around(bump, ABRT, source)
}

/// The dialogue portion around an APDU.
pub fn portion<'a>(bump: &'a Bump, apdu: OwnTree<'a>) -> Result<OwnTree<'a>, Memory>
    ensures { IfOk result (λ made. own made ≡ portion_tree (own apdu.entry)) }
{
    let parts = [
        OwnTree::of_octets(OBJECT_IDENTIFIER, &DIALOGUE_AS_ID),
        OwnTree::around(bump, SINGLE_ASN1_TYPE, apdu)?,
    ];
    let external = OwnTree::constructed(bump, EXTERNAL, &parts)?;
    OwnTree::around(bump, DIALOGUE_PORTION, external)
}
