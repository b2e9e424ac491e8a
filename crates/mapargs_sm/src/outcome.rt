//! The result of a sendRoutingInfoForSM, as it is sent (TS 29.002, 12.1, MAP-SEND-ROUTING-INFO-FOR-SM; type 17.7.6).

ghost use Rattle.std.specs.Prelude.{◌≡◌, IfOk, option_map};
ghost use Rattle.berwrite.specs.OwnTrees.{own};
ghost use Rattle.frames.specs.SentTrees.{route_result_tree};
ghost use Rattle.mapargs_sm.specs.Location.{location_info_tree};

use berwrite::{Memory, OwnTree};
use bumpalo::Bump;
use frames::tags::{LOCATION_INFO, NETWORK_NODE_NUMBER, OCTET_STRING, SEQUENCE};
use hlr_types::{Imsi, IsdnAddress, Lmsi};

/// The locationInfoWithLMSI `A0`: the networkNode-Number `81` and, if there is one, the lmsi `04`.
fn location_info<'a>(
    bump: &'a Bump,
    msc: &IsdnAddress,
    lmsi: Option<&Lmsi>,
) -> Result<OwnTree<'a>, Memory>
    ensures { IfOk result (λ tree. own tree
        ≡ location_info_tree msc.now (option_map (λ l. l.now) lmsi.entry)) }
{
    let number = OwnTree::primitive(bump, NETWORK_NODE_NUMBER, msc.octets().as_slice())?;
    let Some(lmsi) = lmsi else {
        return OwnTree::around(bump, LOCATION_INFO, number);
    };
    let lmsi = OwnTree::primitive(bump, OCTET_STRING, lmsi.as_slice())?;
    OwnTree::constructed(bump, LOCATION_INFO, &[number, lmsi])
}

/// The RoutingInfoForSM-Res: `30`, and in it the imsi `04` and the locationInfoWithLMSI `A0`, which holds the number of the
/// MSC, `81`, and the lmsi, `04`, if there is one.
pub fn route_result<'a>(
    bump: &'a Bump,
    imsi: &Imsi,
    msc: &IsdnAddress,
    lmsi: Option<&Lmsi>,
) -> Result<OwnTree<'a>, Memory>
    ensures { IfOk result (λ tree. own tree
        ≡ route_result_tree imsi.now msc.now (option_map (λ l. l.now) lmsi.entry)) }
{
    let elements = [
        OwnTree::primitive(bump, OCTET_STRING, imsi.octets().as_slice())?,
        location_info(bump, msc, lmsi)?,
    ];
    OwnTree::constructed(bump, SEQUENCE, &elements)
}
