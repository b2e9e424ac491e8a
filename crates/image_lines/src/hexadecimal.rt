//! Octets in upper case hexadecimal.

ghost use Rattle.std.specs.Prelude.{◌≡◌};
ghost use Rattle.std.specs.List.{list_all};
ghost use Rattle.image_lines.specs.Reading.{few_octets_in, is_upper, lmsi_in, octets_in, remote_in};

use hex::FromHex;
use hlr_types::{Lmsi, RemoteId, Tid};

/// A local id.
pub(crate) fn read_id(field: &[u8]) -> Option<Tid>
    ensures { result ≡ octets_in 4 field.now }
{
    let octets = read_octets::<4>(field)?;
    Some(Tid(octets))
}

/// The peer's transaction id, or `-`.
#[tactic(auto, unfolding(crate::specs::Reading::remote_in))]
pub(crate) fn read_remote(field: &[u8]) -> Option<Option<RemoteId>>
    ensures { result ≡ remote_in field.now }
{
    if field == b"-".as_slice() {
        return Some(None);
    }
    let remote = read_remote_id(field)?;
    Some(Some(remote))
}

#[tactic(auto, unfolding(crate::specs::Reading::few_octets_in))]
fn read_remote_id(field: &[u8]) -> Option<RemoteId>
    ensures { result ≡ few_octets_in field.now }
{
    match field.len() / 2 {
        1 => RemoteId::read(&read_octets::<1>(field)?),
        2 => RemoteId::read(&read_octets::<2>(field)?),
        3 => RemoteId::read(&read_octets::<3>(field)?),
        4 => RemoteId::read(&read_octets::<4>(field)?),
        _ => None,
    }
}

/// An LMSI, or `-`.
#[tactic(auto, unfolding(crate::specs::Reading::lmsi_in))]
pub(crate) fn read_lmsi(field: &[u8]) -> Option<Option<Lmsi>>
    ensures { result ≡ lmsi_in field.now }
{
    if field == b"-".as_slice() {
        return Some(None);
    }
    let octets = read_octets::<4>(field)?;
    Some(Some(Lmsi(octets)))
}

/// As many octets as are wanted.
#[tactic(auto, unfolding(crate::specs::Reading::octets_in))]
fn read_octets<const N: usize>(field: &[u8]) -> Option<[u8; N]>
    ensures { result ≡ octets_in N field.now }
{
    if !are_upper(field) {
        return None;
    }
    <[u8; N]>::from_hex(field).ok()
}

fn are_upper(field: &[u8]) -> bool
    ensures { result ≡ list_all is_upper field.now }
{
    field.iter().all(|character| is_upper(*character))
}

fn is_upper(character: u8) -> bool
    ensures { result ≡ is_upper character }
{
    (b'0' <= character && character <= b'9') || (b'A' <= character && character <= b'F')
}
