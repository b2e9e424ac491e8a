//! Components in the buffer of a message (Q.773; parameters: TS 29.002), each before what is written already.

ghost use Rattle.std.specs.Prelude.{◌≡◌, ◌∷◌, ◌++◌, List, length, option_map, option_to_list, true, false, OnOk};
ghost use Rattle.x690.specs.Tree.{Tree, Primitive};
ghost use Rattle.machine.specs.Sent as machine;
ghost use Rattle.frames.specs.SentTrees.{component_tree, id_tree, invoke_tree, result_tree, error_parameter};
ghost use Rattle.frames.specs.declared.tags.TheConstants.{OCTET_STRING};
ghost use Rattle.machine.specs.declared.numbers.TheConstants.{ROAMING_NOT_ALLOWED};
ghost use Rattle.mapargs_loc.specs.Seen.{cancellation};
ghost use Rattle.outgoing.specs.Seen.{component};
ghost use Rattle.outgoing.specs.Spelled.{spelled};

use crate::buffer::{Buffer, NoRoom};
use crate::component::SentComponent;
use frames::numbers::{CANCEL_LOCATION, PLMN_ROAMING_NOT_ALLOWED};
use frames::tags::{
    CANCEL_ARGUMENT, ENUMERATED, FREEZE_TMSI, INTEGER, INVOKE, LOCATION_INFO, NETWORK_NODE_NUMBER,
    OCTET_STRING, RESULT_LAST, RETURN_ERROR, SEQUENCE,
};
use hlr_types::{Imsi, IsdnAddress, Lmsi};
use machine::numbers::{PURGE_MS, ROAMING_NOT_ALLOWED, SEND_ROUTING_INFO_FOR_SM, UPDATE_LOCATION};
use mapargs_loc::{CancellationType, cancellation_type_octet};

/// An invoke id.
pub(crate) fn put_id(buffer: &mut Buffer, id: i8) -> Result<(), NoRoom>
    ensures { (behind : List Tree) → buffer.old ≡ spelled behind
        → OnOk result (buffer.new ≡ spelled (id_tree id ∷ behind)) }
{
    buffer.put_primitive(INTEGER, &[id.cast_unsigned()])
}

/// Makes the parameter that is written before the octets that are kept an Invoke.
pub(crate) fn put_invoke(
    buffer: &mut Buffer,
    id: i8,
    operation: u8,
    kept: usize,
) -> Result<(), NoRoom>
    ensures { (parameter : Tree) (behind : List Tree) → buffer.old ≡ spelled (parameter ∷ behind)
        → kept ≡ length (spelled behind)
        → OnOk result (buffer.new ≡ spelled (invoke_tree id operation parameter ∷ behind)) }
{
    buffer.put_primitive(INTEGER, &[operation])?;
    put_id(buffer, id)?;
    buffer.wrap(INVOKE, kept)
}

/// Makes the parameter that is written before the octets that are kept a ReturnResultLast.
fn put_result_last(buffer: &mut Buffer, id: i8, operation: u8, kept: usize) -> Result<(), NoRoom>
    ensures { (parameter : Tree) (behind : List Tree) → buffer.old ≡ spelled (parameter ∷ behind)
        → kept ≡ length (spelled behind)
        → OnOk result (buffer.new ≡ spelled (result_tree id operation parameter ∷ behind)) }
{
    buffer.put_primitive(INTEGER, &[operation])?;
    buffer.wrap(SEQUENCE, kept)?;
    put_id(buffer, id)?;
    buffer.wrap(RESULT_LAST, kept)
}

/// An Invoke of cancelLocation (TS 29.002, 8.1.3): `A3`, and in it the imsi `04` and the cancellationType `0A`.
fn put_cancel(buffer: &mut Buffer, id: i8, imsi: &Imsi, why: CancellationType) -> Result<(), NoRoom>
    ensures { (behind : List Tree) → buffer.old ≡ spelled behind
        → OnOk result (buffer.new ≡ spelled (component_tree
        (machine.Cancel id imsi.now (cancellation why)) ∷ behind)) }
{
    let kept = buffer.len();
    buffer.put_primitive(ENUMERATED, &[cancellation_type_octet(why)])?;
    buffer.put_primitive(OCTET_STRING, imsi.octets().as_slice())?;
    buffer.wrap(CANCEL_ARGUMENT, kept)?;
    put_invoke(buffer, id, CANCEL_LOCATION, kept)
}

/// The result of updateLocation (8.1.2): `30`, and in it the number of the HLR, `04`.
fn put_update_result(buffer: &mut Buffer, id: i8, hlr: &IsdnAddress) -> Result<(), NoRoom>
    ensures { (behind : List Tree) → buffer.old ≡ spelled behind
        → OnOk result (buffer.new ≡ spelled (component_tree
        (machine.UpdateResult id hlr.now) ∷ behind)) }
{
    let kept = buffer.len();
    buffer.put_primitive(OCTET_STRING, hlr.octets().as_slice())?;
    buffer.wrap(SEQUENCE, kept)?;
    put_result_last(buffer, id, UPDATE_LOCATION, kept)
}

/// The result of purgeMS with freezeTMSI (8.1.6): `30 02 80 00`.
fn put_frozen(buffer: &mut Buffer, id: i8) -> Result<(), NoRoom>
    ensures { (behind : List Tree) → buffer.old ≡ spelled behind
        → OnOk result (buffer.new ≡ spelled (component_tree
        (machine.PurgeResult id true) ∷ behind)) }
{
    let kept = buffer.len();
    buffer.put_primitive(FREEZE_TMSI, &[])?;
    buffer.wrap(SEQUENCE, kept)?;
    put_result_last(buffer, id, PURGE_MS, kept)
}

/// The result of purgeMS without a parameter: a ReturnResultLast with nothing but its id.
fn put_empty_result(buffer: &mut Buffer, id: i8) -> Result<(), NoRoom>
    ensures { (behind : List Tree) → buffer.old ≡ spelled behind
        → OnOk result (buffer.new ≡ spelled (component_tree
        (machine.PurgeResult id false) ∷ behind)) }
{
    let kept = buffer.len();
    put_id(buffer, id)?;
    buffer.wrap(RESULT_LAST, kept)
}

/// The result of purgeMS.
fn put_purge_result(buffer: &mut Buffer, id: i8, freeze: bool) -> Result<(), NoRoom>
    ensures { (behind : List Tree) → buffer.old ≡ spelled behind
        → OnOk result (buffer.new ≡ spelled (component_tree
        (machine.PurgeResult id freeze) ∷ behind)) }
{
    if freeze {
        put_frozen(buffer, id)
    } else {
        put_empty_result(buffer, id)
    }
}

/// The lmsi `04`, if there is one.
fn put_lmsi(buffer: &mut Buffer, lmsi: Option<&Lmsi>) -> Result<(), NoRoom>
    ensures { (behind : List Tree) → buffer.old ≡ spelled behind
        → OnOk result (buffer.new ≡ spelled (option_to_list
        (option_map (Primitive OCTET_STRING) (option_map (λ l. l.now) lmsi.entry))
        ++ behind)) }
{
    match lmsi {
        Some(lmsi) => buffer.put_primitive(OCTET_STRING, lmsi.as_slice()),
        None => Ok(()),
    }
}

/// The result of sendRoutingInfoForSM (12.1): `30`, and in it the imsi `04` and the locationInfoWithLMSI `A0`, which holds
/// the number of the MSC, `81`, and the lmsi.
fn put_route_result(
    buffer: &mut Buffer,
    id: i8,
    imsi: &Imsi,
    msc: &IsdnAddress,
    lmsi: Option<&Lmsi>,
) -> Result<(), NoRoom>
    ensures { (behind : List Tree) → buffer.old ≡ spelled behind
        → OnOk result (buffer.new ≡ spelled (component_tree
        (machine.RouteResult id imsi.now msc.now (option_map (λ l. l.now) lmsi.entry))
        ∷ behind)) }
{
    let kept = buffer.len();
    put_lmsi(buffer, lmsi)?;
    buffer.put_primitive(NETWORK_NODE_NUMBER, msc.octets().as_slice())?;
    buffer.wrap(LOCATION_INFO, kept)?;
    buffer.put_primitive(OCTET_STRING, imsi.octets().as_slice())?;
    buffer.wrap(SEQUENCE, kept)?;
    put_result_last(buffer, id, SEND_ROUTING_INFO_FOR_SM, kept)
}

/// The parameter of roamingNotAllowed (17.7.7): `30 03 0A 01 00`, plmnRoamingNotAllowed.
fn put_roaming_not_allowed(buffer: &mut Buffer) -> Result<(), NoRoom>
    ensures { (behind : List Tree) → buffer.old ≡ spelled behind
        → OnOk result (buffer.new ≡ spelled (option_to_list
        (error_parameter ROAMING_NOT_ALLOWED) ++ behind)) }
{
    let kept = buffer.len();
    buffer.put_primitive(ENUMERATED, &[PLMN_ROAMING_NOT_ALLOWED])?;
    buffer.wrap(SEQUENCE, kept)
}

/// The parameter of an error: roamingNotAllowed alone has one.
fn put_error_parameter(buffer: &mut Buffer, code: u8) -> Result<(), NoRoom>
    ensures { (behind : List Tree) → buffer.old ≡ spelled behind
        → OnOk result (buffer.new ≡ spelled (option_to_list (error_parameter code) ++ behind)) }
{
    if code == ROAMING_NOT_ALLOWED {
        put_roaming_not_allowed(buffer)
    } else {
        Ok(())
    }
}

/// A ReturnError of this code.
fn put_error(buffer: &mut Buffer, id: i8, code: u8) -> Result<(), NoRoom>
    ensures { (behind : List Tree) → buffer.old ≡ spelled behind
        → OnOk result (buffer.new ≡ spelled (component_tree
        (machine.SentError id code) ∷ behind)) }
{
    let kept = buffer.len();
    put_error_parameter(buffer, code)?;
    buffer.put_primitive(INTEGER, &[code])?;
    put_id(buffer, id)?;
    buffer.wrap(RETURN_ERROR, kept)
}

/// One component.
pub(crate) fn put_component(buffer: &mut Buffer, sent: &SentComponent) -> Result<(), NoRoom>
    ensures { (behind : List Tree) → buffer.old ≡ spelled behind
        → OnOk result (buffer.new ≡ spelled (component_tree (component sent.now) ∷ behind)) }
{
    match sent {
        SentComponent::Cancel { id, imsi, why } => put_cancel(buffer, *id, imsi, *why),
        SentComponent::UpdateResult { id, hlr } => put_update_result(buffer, *id, hlr),
        SentComponent::PurgeResult { id, freeze } => put_purge_result(buffer, *id, *freeze),
        SentComponent::RouteResult {
            id,
            imsi,
            msc,
            lmsi,
        } => put_route_result(buffer, *id, imsi, msc, lmsi.as_ref()),
        SentComponent::Error { id, code } => put_error(buffer, *id, *code),
    }
}
