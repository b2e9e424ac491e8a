//! updateLocation (TS 29.002, 8.1.2, MAP_UPDATE_LOCATION; types 17.7.1): its argument, as it is received, and its result, as
//! it is sent.

ghost use Rattle.std.specs.Prelude.{◌≡◌, ◌↔◌, Err, IfOk, option_map};
ghost use Rattle.bertree.specs.Nodes.{tree};
ghost use Rattle.berwrite.specs.OwnTrees.{own};
ghost use Rattle.frames.specs.Arguments.{if_there, update_typed, update_value, update_of};
ghost use Rattle.frames.specs.ArgumentForms.{IsTyped, Arg};
ghost use Rattle.machine.specs.declared.numbers.TheConstants.{UPDATE_LOCATION};
ghost use Rattle.frames.specs.SentTrees.{update_result_tree};
ghost use Rattle.hlr_types.specs.Identities.{lmsi_of};
ghost use Rattle.machine.specs.Received.{Argument, Typed};
ghost use Rattle.mapargs_loc.specs.Contents.{update_contents};
ghost use Rattle.mapargs_loc.specs.Seen.{update_argument, answer};

use crate::fault::ArgFault;
use bertree::Node;
use bertree::elements::{octets, optional_octets};
use berwrite::{Memory, OwnTree};
use bumpalo::Bump;
use frames::tags::{OCTET_STRING, SEQUENCE, UPDATE_LMSI, UPDATE_MSC_NUMBER};
use hlr_types::{Imsi, IsdnAddress, Lmsi, Register};

/// The UpdateLocationArg: the subscriber is at this register.
#[derive(Clone, Copy, Debug, PartialEq, Eq)]
pub struct UpdateArg {
    pub imsi: Imsi,
    pub register: Register,
}

/// The contents of its elements.
#[derive(Clone, Copy)]
pub(crate) struct UpdateOctets<'a> {
    imsi: &'a [u8],
    msc: &'a [u8],
    vlr: &'a [u8],
    lmsi: Option<&'a [u8]>,
}

/// The contents, if the type is right. A constructed element in the place of the lmsi is a further element.
#[tactic(auto, unfolding(frames::specs::Arguments::update_typed))]
fn typed<'a>(parameter: &Node<'a>) -> Option<UpdateOctets<'a>>
    ensures { option_map update_contents result ≡ update_typed (tree parameter.now) }
{
    let elements = parameter.children(SEQUENCE)?;
    let (imsi, elements) = octets(elements, OCTET_STRING)?;
    let (msc, elements) = octets(elements, UPDATE_MSC_NUMBER)?;
    let (vlr, elements) = octets(elements, OCTET_STRING)?;
    let (lmsi, _further) = optional_octets(elements, UPDATE_LMSI);
    Some(UpdateOctets {
        imsi,
        msc,
        vlr,
        lmsi,
    })
}

/// The LMSI, if there is one; nothing if its octets are no LMSI.
fn optional_lmsi(octets: Option<&[u8]>) -> Option<Option<Lmsi>>
    ensures { result ≡ if_there lmsi_of (option_map (λ o. o.now) octets.entry) }
{
    match octets {
        None => Some(None),
        Some(octets) => Some(Some(Lmsi::read(octets)?)),
    }
}

/// The argument with these contents, if each is a value.
#[tactic(auto, unfolding(frames::specs::Arguments::update_value))]
fn value(octets: &UpdateOctets) -> Option<UpdateArg>
    ensures { option_map update_argument result ≡ update_value (update_contents octets.now) }
{
    let imsi = Imsi::read(octets.imsi)?;
    let msc = IsdnAddress::read(octets.msc)?;
    let vlr = IsdnAddress::read(octets.vlr)?;
    let lmsi = optional_lmsi(octets.lmsi)?;
    let register = Register { vlr, msc, lmsi };
    Some(UpdateArg { imsi, register })
}

/// The argument, or its first fault: the type is checked before the values.
fn update_in(parameter: &Node) -> Result<UpdateArg, ArgFault>
    ensures { answer update_argument result ≡ update_of (tree parameter.now) }
{
    let octets = typed(parameter).ok_or(ArgFault::Mistyped)?;
    match value(&octets) {
        Some(update) => Ok(update),
        None => Err(ArgFault::BadValue),
    }
}

/// The received UpdateLocationArg: `30`, and in it imsi `04`, msc-Number `81`, vlr-Number `04` and an optional lmsi `8A`. It
/// does not allocate.
///
/// Limitation: further elements are accepted unread.
pub fn read_update(parameter: &Node) -> Result<UpdateArg, ArgFault>
    // What is read is the argument that the tree spells, and whatever spells one is read.
    ensures found { IfOk result (λ update. Arg UPDATE_LOCATION (tree parameter.now)
        (update_argument update)) }
    ensures only { (argument : Argument) → Arg UPDATE_LOCATION (tree parameter.now) argument
        → answer update_argument result ≡ Typed argument }

    // A fault says that the tree is not of the type, or that it is of the type and spells no argument.
    ensures mistyped { (result ≡ Err ArgFault.Mistyped)
        ↔ (IsTyped UPDATE_LOCATION (tree parameter.now) → ⊥) }
    ensures bad_value { (result ≡ Err ArgFault.BadValue)
        ↔ (IsTyped UPDATE_LOCATION (tree parameter.now)
        × ((argument : Argument) → Arg UPDATE_LOCATION (tree parameter.now) argument → ⊥)) }

    // The result is a function of the tree.
    ensures exact { answer update_argument result ≡ update_of (tree parameter.now) }
{
    update_in(parameter)
}

/// The UpdateLocationRes: `30`, and in it the number of the HLR, `04`.
pub fn update_result<'a>(bump: &'a Bump, hlr: &IsdnAddress) -> Result<OwnTree<'a>, Memory>
    ensures { IfOk result (λ tree. own tree ≡ update_result_tree hlr.now) }
{
    let number = OwnTree::primitive(bump, OCTET_STRING, hlr.octets().as_slice())?;
    OwnTree::around(bump, SEQUENCE, number)
}
