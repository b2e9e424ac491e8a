//! A line of a log: an event, or a clock value for all shards.

ghost use Rattle.std.specs.Prelude.{◌≡◌, ℕ, List, Some, IfOk, IfSome, IsSomeAnd};
ghost use Rattle.frames.specs.Octets as frames;
ghost use Rattle.hlr_input.specs.Script.{Clock, line_of};
ghost use Rattle.embed.specs.LogLines.{AreOctets, Has, IsClockLine, IsEventLine, IsExpiryLine, IsThis, Means, MeansThis};

use hlr_input::{Item, read_line, read_octets, read_ticks};
use hlr_types::Peer;
use hlrcore::{Change, RawEvent, ShardNumber};
use std::alloc::{AllocError, Global};

/// What a line of a log has.
#[derive(Drop)]
pub enum LogLine {
    /// An event.
    Event(RawEvent),
    /// A clock value for each of the sixteen shards.
    Clocks(u64),
}

/// Reads a line of a log, without its line feed. Its fields are separated by one space:
///
/// - `F <from> <octets>`: a frame from an address of 1 to 16 digits, its octets in hexadecimal, `-` if it has none;
/// - `C <ticks>`: a clock value for all shards;
/// - `E <shard>`: the expiry of the least timer of a shard, 0 to 15, that is due;
/// - `O <imsi> <codes>`: new teleservice codes, in the form of the records file;
/// - `X <imsi>`: the end of a subscription.
///
/// `None` for any other line. An event is to be given to `Register::handle`, a clock value to `Register::set_clocks`. So a log that was written
/// before its events were given has exactly these, and they can be given again.
pub fn read_log_line(alloc: Global, line: &[u8]) -> Result<Option<LogLine>, AllocError>
    ensures found { IfOk result (λ read. IfSome read (Has line.now)) }
    ensures event { (raw : frames.RawEvent) → IsEventLine line.now raw
        → IfOk result (λ read. IsSomeAnd read (IsThis raw)) }
    ensures clocks { (now : ℕ) → IsClockLine line.now now
        → IfOk result (λ read. read ≡ Some (LogLine.Clocks now)) }
{
    match read_line(line) {
        Some(item) => of_item(alloc, item),
        None => Ok(read_expiry(line)),
    }
}

/// What a script's line says, as a line of a log.
fn of_item(alloc: Global, item: Item) -> Result<Option<LogLine>, AllocError>
    ensures found { IfOk result (λ read. IfSome read (MeansThis (line_of item.entry))) }
    ensures event { (raw : frames.RawEvent) → Means (line_of item.entry) raw
        → IfOk result (λ read. IsSomeAnd read (IsThis raw)) }
    ensures clocks { (now : ℕ) → line_of item.entry ≡ Clock now
        → IfOk result (λ read. read ≡ Some (LogLine.Clocks now)) }
{
    match item {
        Item::Frame { from, octets } => frame_of(alloc, from, octets),
        Item::Clock(now) => Ok(Some(LogLine::Clocks(now))),
        Item::Codes { imsi, codes } => {
            let change = Change::Codes(Box::new(alloc, codes)?);
            Ok(Some(LogLine::Event(RawEvent::Change { imsi, change })))
        }
        Item::Withdraw { imsi } => {
            let change = Change::Withdraw;
            Ok(Some(LogLine::Event(RawEvent::Change { imsi, change })))
        }
        Item::Expire | Item::Batch => Ok(None),
    }
}

fn frame_of(alloc: Global, from: Peer, field: &[u8]) -> Result<Option<LogLine>, AllocError>
    ensures found { IfOk result (λ read. IfSome read (λ given. (octets : List ℕ)
        × AreOctets field.now octets × IsThis (frames.RawFrame from octets) given)) }
    ensures only { (octets : List ℕ) → AreOctets field.now octets
        → IfOk result (λ read. IsSomeAnd read (IsThis (frames.RawFrame from octets))) }
{
    match read_octets(Vec::new(alloc), field, Some(&[]))? {
        Some(octets) => Ok(Some(LogLine::Event(RawEvent::Frame { from, octets }))),
        None => Ok(None),
    }
}

/// The expiry of a shard.
fn read_expiry(line: &[u8]) -> Option<LogLine>
    ensures found { IfSome result (λ given. (raw : frames.RawEvent)
        × IsExpiryLine line.now raw × IsThis raw given) }
    ensures only { (raw : frames.RawEvent) → IsExpiryLine line.now raw
        → IsSomeAnd result (IsThis raw) }
{
    let [b'E', b' ', rest @ ..] = line else {
        return None;
    };
    let number = read_ticks(rest)?;
    if number >= 16 {
        return None;
    }
    let shard = ShardNumber::new(number as u8)?;
    Some(LogLine::Event(RawEvent::Expire { shard }))
}
