//! The kind of a dialogue.

ghost use Rattle.std.specs.Prelude.{◌≡◌, option_map};
ghost use Rattle.texts.specs.Lines.{parts};
ghost use Rattle.dialogues.specs.Seen.{kind_of};
ghost use Rattle.image_lines.specs.Reading.{cancel_in, data_in, kind_by, kind_in, update_from, update_in};

use crate::fields::{last, next, read_why};
use crate::hexadecimal::read_lmsi;
use crate::numbers::{read_signed, read_up_to};
use dialogues::{InvokeId, Kind};
use hlr_types::{Digits, IsdnAddress, Peer, Register};

/// The kind of a dialogue: its word, and what follows it.
#[tactic(auto, unfolding(crate::specs::Reading::kind_in))]
pub(crate) fn read_kind(text: &[u8]) -> Option<Kind>
    ensures { option_map kind_of result ≡ kind_in (parts 32 text.now) }
{
    match next(text) {
        Some((word, rest)) => read_by(word, rest),
        None => read_data(text),
    }
}

#[tactic(auto, unfolding(crate::specs::Reading::kind_by))]
fn read_by(word: &[u8], text: &[u8]) -> Option<Kind>
    ensures { option_map kind_of result ≡ kind_by word.now (parts 32 text.now) }
{
    if word == b"update".as_slice() {
        return read_update(text);
    }
    if word == b"cancel".as_slice() {
        return read_cancel(text);
    }
    None
}

#[tactic(auto, unfolding(crate::specs::Reading::data_in))]
fn read_data(text: &[u8]) -> Option<Kind>
    ensures { option_map kind_of result ≡ data_in (parts 32 text.now) }
{
    let word = last(text)?;
    if word == b"data".as_slice() {
        return Some(Kind::Data);
    }
    None
}

#[tactic(auto, unfolding(crate::specs::Reading::update_in))]
fn read_update(text: &[u8]) -> Option<Kind>
    ensures { option_map kind_of result ≡ update_in (parts 32 text.now) }
{
    let (vlr, rest) = next(text)?;
    let (msc, rest) = next(rest)?;
    let (lmsi, rest) = next(rest)?;
    let invoke = last(rest)?;
    update_from(vlr, msc, lmsi, invoke)
}

fn update_from(vlr: &[u8], msc: &[u8], lmsi: &[u8], invoke: &[u8]) -> Option<Kind>
    ensures { option_map kind_of result ≡ update_from vlr.now msc.now lmsi.now invoke.now }
{
    let register = Register {
        vlr: IsdnAddress::new(Digits::from_text(vlr)?),
        msc: IsdnAddress::new(Digits::from_text(msc)?),
        lmsi: read_lmsi(lmsi)?,
    };
    let invoke = InvokeId::new(read_signed(invoke)?);
    Some(Kind::Update { register, invoke })
}

#[tactic(auto, unfolding(crate::specs::Reading::cancel_in))]
fn read_cancel(text: &[u8]) -> Option<Kind>
    ensures { option_map kind_of result ≡ cancel_in (parts 32 text.now) }
{
    let (vlr, rest) = next(text)?;
    let (attempt, rest) = next(rest)?;
    let why = last(rest)?;
    let vlr = Peer::new(Digits::from_text(vlr)?);
    let attempt = read_up_to(attempt, 255)? as u8;
    let why = read_why(why)?;
    Some(Kind::Cancel { vlr, attempt, why })
}
