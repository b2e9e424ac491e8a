//! The fields of a line, and those that are words.

ghost use Rattle.std.specs.Prelude.{◌≡◌, option_map};
ghost use Rattle.texts.specs.Lines.{parts};
ghost use Rattle.csl.specs.Seen.{was};
ghost use Rattle.mapargs_loc.specs.Seen.{cancellation};
ghost use Rattle.records.specs.Reading.{imsi_in};
ghost use Rattle.image_lines.specs.Reading.{first_of, mark_in, only_of, was_in, why_in};

use csl::Was;
use hlr_types::{Digits, Imsi};
use mapargs_loc::CancellationType;
use texts::cut;

/// The first field and the text after it. `None` if there is one field alone.
#[tactic(auto, using(crate::proofs::PartLemmas::first_cut, crate::proofs::PartLemmas::first_alone))]
pub(crate) fn next(text: &[u8]) -> Option<(&[u8], &[u8])>
    ensures { option_map (λ r. (r.0.now, parts 32 r.1.now)) result ≡ first_of (parts 32 text.now) }
{
    match cut(text, b' ') {
        (first, Some(rest)) => Some((first, rest)),
        (_, None) => None,
    }
}

/// The only field. `None` if there are more.
#[tactic(auto, using(crate::proofs::PartLemmas::only_cut, crate::proofs::PartLemmas::only_alone))]
pub(crate) fn last(text: &[u8]) -> Option<&[u8]>
    ensures { option_map (λ field. field.now) result ≡ only_of (parts 32 text.now) }
{
    match cut(text, b' ') {
        (field, None) => Some(field),
        (_, Some(_)) => None,
    }
}

pub(crate) fn read_imsi(field: &[u8]) -> Option<Imsi>
    ensures { result ≡ imsi_in field.now }
{
    Imsi::from_digits(Digits::from_text(field)?).ok()
}

/// Whether a dialogue is its subscriber's current update.
pub(crate) fn read_mark(field: &[u8]) -> Option<bool>
    ensures { result ≡ mark_in field.now }
{
    if field == b"*".as_slice() {
        return Some(true);
    }
    if field == b"-".as_slice() {
        return Some(false);
    }
    None
}

/// The state of an invocation.
pub(crate) fn read_was(field: &[u8]) -> Option<Was>
    ensures { option_map was result ≡ was_in field.now }
{
    if field == b"sent".as_slice() {
        return Some(Was::Sent);
    }
    if field == b"wait".as_slice() {
        return Some(Was::Waiting);
    }
    None
}

/// Why a location is cancelled.
pub(crate) fn read_why(field: &[u8]) -> Option<CancellationType>
    ensures { option_map cancellation result ≡ why_in field.now }
{
    if field == b"update".as_slice() {
        return Some(CancellationType::UpdateProcedure);
    }
    if field == b"withdraw".as_slice() {
        return Some(CancellationType::SubscriptionWithdraw);
    }
    None
}
