//! cancelLocation (TS 29.002, 8.1.3, MAP_CANCEL_LOCATION; types 17.7.1): its argument, as it is sent.

ghost use Rattle.std.specs.Prelude.{◌≡◌, IfOk};
ghost use Rattle.berwrite.specs.OwnTrees.{own};
ghost use Rattle.frames.specs.SentTrees.{cancel_tree, cancellation_octet};
ghost use Rattle.mapargs_loc.specs.Seen.{cancellation};

use berwrite::{Memory, OwnTree};
use bumpalo::Bump;
use frames::numbers::{SUBSCRIPTION_WITHDRAW, UPDATE_PROCEDURE};
use frames::tags::{CANCEL_ARGUMENT, ENUMERATED, OCTET_STRING};
use hlr_types::Imsi;

/// Why a location is cancelled (TS 29.002, CancellationType).
#[derive(Clone, Copy, PartialEq, Eq)]
pub enum CancellationType {
    UpdateProcedure,
    SubscriptionWithdraw,
}

/// The contents of the cancellationType.
pub fn cancellation_type_octet(why: CancellationType) -> u8
    ensures { result ≡ cancellation_octet (cancellation why) }
{
    match why {
        CancellationType::UpdateProcedure => UPDATE_PROCEDURE,
        CancellationType::SubscriptionWithdraw => SUBSCRIPTION_WITHDRAW,
    }
}

/// The CancelLocationArg: `A3`, and in it the imsi `04` and the cancellationType `0A`, which is always sent.
pub fn cancel_arg<'a>(
    bump: &'a Bump,
    imsi: &Imsi,
    why: CancellationType,
) -> Result<OwnTree<'a>, Memory>
    ensures { IfOk result (λ tree. own tree ≡ cancel_tree imsi.now (cancellation why)) }
{
    let elements = [
        OwnTree::primitive(bump, OCTET_STRING, imsi.octets().as_slice())?,
        OwnTree::primitive(bump, ENUMERATED, &[cancellation_type_octet(why)])?,
    ];
    OwnTree::constructed(bump, CANCEL_ARGUMENT, &elements)
}
