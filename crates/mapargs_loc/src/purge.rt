//! purgeMS (TS 29.002, 8.1.6, MAP_PURGE_MS; types 17.7.1): its argument, as it is received, and its result, as it is sent.

ghost use Rattle.std.specs.Prelude.{◌≡◌, ◌↔◌, Err, IfOk, option_map};
ghost use Rattle.bertree.specs.Nodes.{tree};
ghost use Rattle.berwrite.specs.OwnTrees.{own};
ghost use Rattle.frames.specs.Arguments.{if_there, purge_typed, purge_value, purge_of};
ghost use Rattle.frames.specs.ArgumentForms.{IsTyped, Arg};
ghost use Rattle.machine.specs.declared.numbers.TheConstants.{PURGE_MS};
ghost use Rattle.frames.specs.SentTrees.{purge_result_tree};
ghost use Rattle.hlr_types.specs.Identities.{address_of};
ghost use Rattle.machine.specs.Received.{Argument, Typed};
ghost use Rattle.mapargs_loc.specs.Contents.{purge_contents};
ghost use Rattle.mapargs_loc.specs.Seen.{purge_argument, answer};

use crate::fault::ArgFault;
use bertree::Node;
use bertree::elements::{octets, optional_octets};
use berwrite::{Memory, OwnTree};
use bumpalo::Bump;
use frames::tags::{FREEZE_TMSI, OCTET_STRING, PURGE_ARGUMENT, PURGE_VLR_NUMBER, SEQUENCE};
use hlr_types::{Imsi, IsdnAddress};

/// The PurgeMS-Arg: this VLR, if its number is there, has purged the subscriber.
#[derive(Clone, Copy, Debug, PartialEq, Eq)]
pub struct PurgeArg {
    pub imsi: Imsi,
    pub vlr: Option<IsdnAddress>,
}

/// The contents of its elements.
#[derive(Clone, Copy)]
pub(crate) struct PurgeOctets<'a> {
    imsi: &'a [u8],
    vlr: Option<&'a [u8]>,
}

/// The contents, if the type is right. A constructed element in the place of the vlr-Number is a further element.
#[tactic(auto, unfolding(frames::specs::Arguments::purge_typed))]
fn typed<'a>(parameter: &Node<'a>) -> Option<PurgeOctets<'a>>
    ensures { option_map purge_contents result ≡ purge_typed (tree parameter.now) }
{
    let elements = parameter.children(PURGE_ARGUMENT)?;
    let (imsi, elements) = octets(elements, OCTET_STRING)?;
    let (vlr, _further) = optional_octets(elements, PURGE_VLR_NUMBER);
    Some(PurgeOctets { imsi, vlr })
}

/// The address, if there is one; nothing if its octets are no address.
fn optional_address(octets: Option<&[u8]>) -> Option<Option<IsdnAddress>>
    ensures { result ≡ if_there address_of (option_map (λ o. o.now) octets.entry) }
{
    match octets {
        None => Some(None),
        Some(octets) => Some(Some(IsdnAddress::read(octets)?)),
    }
}

/// The argument with these contents, if each is a value.
#[tactic(auto, unfolding(frames::specs::Arguments::purge_value))]
fn value(octets: &PurgeOctets) -> Option<PurgeArg>
    ensures { option_map purge_argument result ≡ purge_value (purge_contents octets.now) }
{
    let imsi = Imsi::read(octets.imsi)?;
    let vlr = optional_address(octets.vlr)?;
    Some(PurgeArg { imsi, vlr })
}

/// The argument, or its first fault: the type is checked before the values.
fn purge_in(parameter: &Node) -> Result<PurgeArg, ArgFault>
    ensures { answer purge_argument result ≡ purge_of (tree parameter.now) }
{
    let octets = typed(parameter).ok_or(ArgFault::Mistyped)?;
    match value(&octets) {
        Some(purge) => Ok(purge),
        None => Err(ArgFault::BadValue),
    }
}

/// The received PurgeMS-Arg: `A3`, and in it imsi `04` and an optional vlr-Number `80`. It does not allocate.
///
/// Limitation: an sgsn-Number and further elements are accepted unread.
pub fn read_purge(parameter: &Node) -> Result<PurgeArg, ArgFault>
    // What is read is the argument that the tree spells, and whatever spells one is read.
    ensures found { IfOk result (λ purge. Arg PURGE_MS (tree parameter.now)
        (purge_argument purge)) }
    ensures only { (argument : Argument) → Arg PURGE_MS (tree parameter.now) argument
        → answer purge_argument result ≡ Typed argument }

    // A fault says that the tree is not of the type, or that it is of the type and spells no argument.
    ensures mistyped { (result ≡ Err ArgFault.Mistyped)
        ↔ (IsTyped PURGE_MS (tree parameter.now) → ⊥) }
    ensures bad_value { (result ≡ Err ArgFault.BadValue) ↔ (IsTyped PURGE_MS (tree parameter.now)
        × ((argument : Argument) → Arg PURGE_MS (tree parameter.now) argument → ⊥)) }

    // The result is a function of the tree.
    ensures exact { answer purge_argument result ≡ purge_of (tree parameter.now) }
{
    purge_in(parameter)
}

/// The PurgeMS-Res with freezeTMSI: `30 02 80 00`.
pub fn purge_result<'a>(bump: &'a Bump) -> Result<OwnTree<'a>, Memory>
    ensures { IfOk result (λ tree. own tree ≡ purge_result_tree) }
{
    let freeze = OwnTree::of_octets(FREEZE_TMSI, &[]);
    OwnTree::around(bump, SEQUENCE, freeze)
}
