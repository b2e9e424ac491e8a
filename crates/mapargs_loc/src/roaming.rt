//! roamingNotAllowed (TS 29.002, 17.7.7): the error's parameter, as it is sent.

ghost use Rattle.std.specs.Prelude.{◌≡◌, IfOk, Some};
ghost use Rattle.berwrite.specs.OwnTrees.{own};
ghost use Rattle.machine.specs.declared.numbers.TheConstants.{ROAMING_NOT_ALLOWED};
ghost use Rattle.frames.specs.SentTrees.{error_parameter};

use berwrite::{Memory, OwnTree};
use bumpalo::Bump;
use frames::numbers::PLMN_ROAMING_NOT_ALLOWED;
use frames::tags::{ENUMERATED, SEQUENCE};

/// The RoamingNotAllowedParam: `30 03 0A 01 00`, plmnRoamingNotAllowed.
pub fn roaming_not_allowed<'a>(bump: &'a Bump) -> Result<OwnTree<'a>, Memory>
    ensures { IfOk result (λ tree. Some (own tree) ≡ error_parameter ROAMING_NOT_ALLOWED) }
{
    let cause = OwnTree::of_octets(ENUMERATED, &[PLMN_ROAMING_NOT_ALLOWED]);
    OwnTree::around(bump, SEQUENCE, cause)
}
