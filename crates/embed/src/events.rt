//! Events, from what a program has in its hands: octets, texts and numbers.

ghost use Rattle.std.specs.Prelude.{◌≡◌, ℕ, List, IfOk, IfSome, Some, option_map};
ghost use Rattle.frames.specs.Octets as frames;
ghost use Rattle.hlr_types.specs.DigitTexts.{IsText};
ghost use Rattle.hlrcore.specs.Events.{raw_event};
ghost use Rattle.records.specs.Reading.{imsi_in};
ghost use Rattle.records.specs.Spelling.{IsImsiNumber};
ghost use Rattle.embed.specs.Events.{IsCodesChange, IsExpiry, IsFrame, IsWithdrawal};

use hlr_types::{Digits, Imsi, IsdnAddress, Peer};
use hlrcore::{Change, RawEvent, ShardNumber};
use records::Codes;
use std::alloc::{AllocError, Global};

/// A frame, with the text of the 1 to 16 digits of its source address. `None` if the text is none.
pub fn frame_event(
    alloc: Global,
    from: &[u8],
    octets: &[u8],
) -> Result<Option<RawEvent>, AllocError>
    ensures found { IfOk result (λ read. IfSome read
        (λ event. IsFrame from.now octets.now (raw_event event))) }
    ensures only { (raw : frames.RawEvent) → IsFrame from.now octets.now raw
        → IfOk result (λ read. option_map raw_event read ≡ Some raw) }
{
    let Some(digits) = Digits::from_text(from) else {
        return Ok(None);
    };
    let from = Peer::new(digits);
    let octets = octets.to_vec(alloc)?;
    Ok(Some(RawEvent::Frame { from, octets }))
}

/// The expiry of a shard's least timer that is due. `None` if there is no such shard.
pub fn expiry_event(shard: u8) -> Option<RawEvent>
    ensures found { IfSome result (λ event. IsExpiry shard (raw_event event)) }
    ensures only { (raw : frames.RawEvent) → IsExpiry shard raw
        → option_map raw_event result ≡ Some raw }
{
    let shard = ShardNumber::new(shard)?;
    Some(RawEvent::Expire { shard })
}

/// New teleservice codes for a subscriber, with the texts of an IMSI and of codes as a records file has them. `None` if one of
/// them is none.
pub fn codes_event(alloc: Global, imsi: &[u8], codes: &[u8]) -> Result<Option<RawEvent>, AllocError>
    ensures found { IfOk result (λ read. IfSome read
        (λ event. IsCodesChange imsi.now codes.now (raw_event event))) }
    ensures only { (raw : frames.RawEvent) → IsCodesChange imsi.now codes.now raw
        → IfOk result (λ read. option_map raw_event read ≡ Some raw) }
{
    let Some(imsi) = read_imsi(imsi) else {
        return Ok(None);
    };
    let Some(codes) = Codes::read(codes) else {
        return Ok(None);
    };
    let change = Change::Codes(Box::new(alloc, codes)?);
    Ok(Some(RawEvent::Change { imsi, change }))
}

/// The end of a subscription, with the text of its IMSI. `None` if it is none.
pub fn withdrawal_event(imsi: &[u8]) -> Option<RawEvent>
    ensures found { IfSome result (λ event. IsWithdrawal imsi.now (raw_event event)) }
    ensures only { (raw : frames.RawEvent) → IsWithdrawal imsi.now raw
        → option_map raw_event result ≡ Some raw }
{
    let imsi = read_imsi(imsi)?;
    let change = Change::Withdraw;
    Some(RawEvent::Change { imsi, change })
}

/// The IMSI of a text. `None` if the text is none.
#[tactic(auto, using(crate::proofs::ImsiLemmas::imsi_found, crate::proofs::ImsiLemmas::imsi_only))]
pub fn read_imsi(text: &[u8]) -> Option<Imsi>
    ensures found { IfSome result (λ imsi. IsImsiNumber text.now imsi) }
    ensures only { (digits : List ℕ) → IsImsiNumber text.now digits → result ≡ Some digits }
{
    imsi_in_text(text)
}

fn imsi_in_text(text: &[u8]) -> Option<Imsi>
    ensures { result ≡ imsi_in text.now }
{
    let digits = Digits::from_text(text)?;
    Imsi::from_digits(digits).ok()
}

/// The number of a text: 1 to 16 digits. `None` if the text is none.
pub fn read_number(text: &[u8]) -> Option<IsdnAddress>
    ensures found { IfSome result (λ number. IsText text.now number) }
    ensures only { (digits : List ℕ) → IsText text.now digits → result ≡ Some digits }
{
    let digits = Digits::from_text(text)?;
    Some(IsdnAddress::new(digits))
}
